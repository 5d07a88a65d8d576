//! Pending events take the events of a step.
ghost use Rattle.std.specs.Prelude.{◌≡◌};
ghost use Rattle.trace_laws.specs.World.{joined};

use crate::pending::Pending;
use process_api::{Key, Payload};
use std::alloc::AllocError;
use trace_laws::{Event, Joins};

impl Joins for Pending {
    ghost serves = { λ _ _ _ _. Unit {0} };

    ghost grown = { λ old events new. new ≡ joined old events };

    #[inline(always)]
    fn add(&mut self, event: Event) -> Result<(), AllocError> {
        self.join(event)?;
        Ok(())
    }

    #[inline(always)]
    fn send(&mut self, key: Key, payload: &mut Payload) -> Result<(), AllocError> {
        self.join(Event::letter(self.alloc, key, payload)?)?;
        Ok(())
    }
}
