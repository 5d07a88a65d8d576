//! Nobody, who keeps nothing of a run.
ghost use Rattle.std.specs.Prelude.{List};

use crate::listener::Listener;
use process_api::{Key, Payload};
use std::alloc::AllocError;
use streams::Fate;

/// Takes the entries or hears of the letters of a run, and keeps nothing of them.
#[derive(Clone, Copy)]
pub struct Nobody;

impl Listener for Nobody {
    ghost heard = { λ _ _ _. Unit {0} };

    #[inline(always)]
    fn hear(&mut self, _sent: &Key, _payload: &Payload, _fate: Fate) -> Result<(), AllocError> {
        Ok(())
    }
}
