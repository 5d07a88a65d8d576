//! Seeds, as arguments of a command line.
ghost use Rattle.std.specs.Prelude.{◌≡◌, None, Some, IfOk, IfErr, MatchOption};
ghost use Rattle.study.specs.{Words.{seeds_said, seeds_fault}, Inside.Private.{AreEnds}};

use crate::error::SeedsError;
use crate::words::{bounds_in, is_natural_word, natural_up_to};

/// The greatest seed.
const MOST: u64 = i64::MAX as u64;

/// The seeds of a study: all from a first to a last.
#[derive(Clone, Copy, Debug, PartialEq, Eq)]
pub struct Seeds {
    /// The first seed, 0 to 9,223,372,036,854,775,807.
    pub first: u64,
    /// The last seed, in the same range.
    pub last: u64,
}

/// The words of the first seed and the last.
fn ends_in(word: &str) -> Option<(&str, &str)>
    ensures { MatchOption result (seeds_said word.now ≡ None) (λ ends.
        AreEnds word.now ends.0.now ends.1.now) }
{
    if is_natural_word(word) {
        return Some((word, word));
    }
    let (first, last) = bounds_in(word)?;
    if is_natural_word(first) && is_natural_word(last) {
        Some((first, last))
    } else {
        None
    }
}

impl Seeds {
    /// The seeds that a word says: `A..=B`, all from A to B, or `A`, that one.
    ///
    /// # Errors
    ///
    /// The first reason against it, in the order of [`SeedsError`].
    pub fn parse(word: &str) -> Result<Seeds, SeedsError>
        ensures ok { IfOk result (λ s. (seeds_said word.now ≡ Some (s.first, s.last))
            × (seeds_fault (seeds_said word.now) ≡ None)) }
        ensures err { IfErr result (λ e. seeds_fault (seeds_said word.now) ≡ Some e) }
    {
        match ends_in(word) {
            None => Err(SeedsError::NoSeeds),
            Some((first, last)) => match (natural_up_to(first, MOST), natural_up_to(last, MOST)) {
                (Some(first), Some(last)) if first <= last => Ok(Seeds { first, last }),
                (Some(_), Some(_)) => Err(SeedsError::EmptyRange),
                _ => Err(SeedsError::SeedTooHigh),
            },
        }
    }
}
