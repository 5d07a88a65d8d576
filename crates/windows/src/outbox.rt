//! Takes the events and letters that a process causes in a window.

use crate::agenda::Agenda;
use mailboxes::Tray;
use process_api::{Key, Payload, Pid};
use std::alloc::{AllocError, Global};
use std::sync::Wait;
use trace_laws::{Event, Joins, Parcel};

/// Takes what a process causes in a window: an event of its own joins its pending ones, and a letter to another waits
/// to be posted.
#[derive(Drop)]
pub(crate) struct Outbox<'a, R> {
    pub rt: &'a R,
    pub alloc: Global,
    pub own: Pid,
    pub pending: &'a mut Agenda,
    pub tray: &'a mut Tray,
}

impl<R: Wait> Joins for Outbox<'_, R> {
    ghost use Rattle.windows.specs.Inside.Outbox.{HandedOn, IsFor};

    ghost serves = { IsFor };

    ghost grown = { HandedOn };

    #[inline(always)]
    fn add(&mut self, event: Event) -> Result<(), AllocError> {
        self.pending.join(self.rt, event)
    }

    #[inline(always)]
    fn send(&mut self, key: Key, payload: &mut Payload) -> Result<(), AllocError> {
        self.tray.put(Parcel::new(self.alloc, key, payload)?)
    }
}
