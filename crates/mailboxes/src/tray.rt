//! Letters that are posted together.
ghost use Rattle.std.specs.Prelude.{◌≡◌, ◌≤◌, ◌+◌, [], get_or, length, OnOk};
ghost use Rattle.mailboxes.specs.Mailboxes.{filed};

use process_api::Key;
use std::alloc::AllocError;
use std::marker::Model;
use trace_laws::Parcel;

/// Letters that wait to be posted, by their receivers, 1 to n: those to one receiver in the order in which they came.
#[derive(Drop)]
pub struct Tray {
    pub(crate) lists: Vec<Vec<Parcel>>,
}

impl Model for Tray {
    ghost use Rattle.std.specs.{Coded.{coded_list}, Prelude.{List}};
    ghost use Rattle.process_api.specs.declared.message.Letter.{Letter};
    ghost use Rattle.trace_laws.specs.contracts.parcel.Parcel as letter;
    ghost use Rattle.mailboxes.specs.Mailboxes.{letters_in};

    ghost Value = { List (List Letter) };

    ghost coded = { coded_list (coded_list letter.the_row.coded) };

    ghost view = { λ t. letters_in t.lists.items };
}

/// The place of the receiver's list, and of its mailbox.
pub(crate) fn place_of(key: &Key) -> usize
    ensures { result + 1 ≡ key.now.receiver }
{
    usize::from(key.receiver.number()) - 1
}

impl Tray {
    /// For how many receivers it has lists.
    pub fn receivers(&self) -> usize
        ensures { result ≡ length self.now }
    {
        self.lists.len()
    }

    /// How many letters wait for the receiver at a place, and 0 where there is none.
    pub fn waiting(&self, place: usize) -> usize
        ensures { result ≡ length (get_or self.now place []) }
    {
        match self.lists.get(place) {
            Some(list) => list.len(),
            None => 0,
        }
    }

    /// One letter more, to a receiver of 1 to n. The error is that memory was refused. Some letters of the tray may
    /// be gone then.
    #[inline(always)]
    pub fn put(&mut self, letter: Parcel) -> Result<(), AllocError>
        requires { letter.key.receiver ≤ length self.old }
        ensures filed { OnOk result (self.new ≡ filed self.old letter) }
        ensures count { length self.new ≡ length self.old }
    {
        let at = place_of(&letter.key());
        self.lists[at].push(letter)?;
        Ok(())
    }
}
