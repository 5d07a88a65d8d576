//! Those who collect letters.
ghost use Rattle.std.specs.Prelude.{◌≡◌, ◌++◌, ◌∷◌, [], List, OnOk};
ghost use Rattle.process_api.specs.declared.message.Letter.{Letter};

use process_api::Letter;
use std::alloc::AllocError;
use trace_laws::Parcel;

/// Is given the letters of a mailbox as they leave it, so that no list has to hold them.
pub trait Collects {
    /// The first of the two, after it was given these letters in this order, is the second.
    ghost collected: { Self → Self → List Letter → Type 0 };

    /// One more letter.
    ///
    /// # Errors
    ///
    /// `AllocError` where memory was refused. The letter is gone then.
    fn collect(&mut self, letter: Parcel) -> Result<(), AllocError>
        ensures { OnOk result ((first : Self) (so_far : List Letter)
            → collected first self.old so_far → collected first self.new (so_far ++ letter ∷ [])) };
}

/// Keeps the letters.
impl Collects for Vec<Letter> {
    ghost collected = { λ _ kept letters. kept.items ≡ letters };

    #[inline(always)]
    fn collect(&mut self, letter: Parcel) -> Result<(), AllocError> {
        self.push(letter.into_letter())?;
        Ok(())
    }
}
