//! Who hears of the letters of a run.
ghost use Rattle.std.specs.Prelude.{◌∷◌, [], List, OnOk};
ghost use Rattle.{trace_laws.specs.Taken.{HaveJoined}, steps.specs.Posting.{Posted}};

use process_api::{Key, Payload};
use std::alloc::AllocError;
use streams::Fate;

/// Hears of each letter to another process, as it is put on its link.
pub trait Listener {
    /// The first, after it heard of these letters in this order, is the second.
    ghost heard: { Self → List Posted → Self → Type 0 };

    /// One more letter: its key on its link, at the tick when it is sent, what it says, and its fate there.
    ///
    /// # Errors
    ///
    /// `AllocError` where memory was refused. The listener is good for nothing then.
    fn hear(&mut self, sent: &Key, payload: &Payload, fate: Fate) -> Result<(), AllocError>
        ensures { OnOk result (HaveJoined heard self.old self.new
            (record { key = sent.now; payload = payload.now; fate = fate } ∷ [])) };
}
