//! Those who take the events of a step.
ghost use Rattle.std.specs.Prelude.{◌≢◌, ◌≤◌, ◌∷◌, [], ℕ, List, OnOk};
ghost use Rattle.trace_laws.specs.{Taken.{HaveJoined, Serves, StillServes, event_of}, Step.{Event as Pair}};

use crate::event::Event;
use process_api::{Key, Payload};
use std::alloc::AllocError;

/// Takes the events that join, one after another.
pub trait Joins {
    /// The second, which was the first, takes what process `own` of so many processes causes.
    ghost serves: { Self → Self → (own processes : ℕ) → Type 0 };

    /// The first, with these events joined in their order, is the second.
    ghost grown: { Self → List Pair → Self → Type 0 };

    /// One more event of the process itself: a wake, or a letter to itself.
    ///
    /// # Errors
    ///
    /// `AllocError` where memory was refused. The event is gone then, and others may be.
    fn add(&mut self, event: Event) -> Result<(), AllocError>
        requires { (processes : ℕ) × Serves serves self.old event.0.receiver processes }
        ensures serves { StillServes serves self.old self.new }
        ensures grown { OnOk result (HaveJoined grown self.old self.new (event ∷ [])) };

    /// One more letter, to another process: its key, and what it says, which may be moved out: what is left in its
    /// place means nothing.
    ///
    /// # Errors
    ///
    /// `AllocError` where memory was refused. The letter is gone then, and others may be.
    fn send(&mut self, key: Key, payload: &mut Payload) -> Result<(), AllocError>
        requires sender { (processes : ℕ) × Serves serves self.old key.sender processes × (key.receiver ≤ processes) }
        requires other { key.receiver ≢ key.sender }
        ensures serves { StillServes serves self.old self.new }
        ensures grown { OnOk result (HaveJoined grown self.old self.new
            (event_of (record { key = key; payload = payload.old }) ∷ [])) };
}
