//! The data that the workers of a window share.
ghost use Rattle.std.specs.Prelude.{◌≡◌, length};

use crate::berth::Berth;
use deques::Front;
use mailboxes::SharedMailboxes;
use std::alloc::Global;
use streams::Streams;

/// One window of a scenario.
#[derive(Drop)]
pub(crate) struct Window<'s> {
    pub streams: Streams<'s>,
    /// The tick at which it ends.
    pub end: u32,
    /// How many entries fit into the trace yet.
    pub left: u64,
}

/// Who runs the windows of a plan.
#[derive(Drop)]
pub(crate) struct Crew<'g, G> {
    pub alloc: Global,
    pub gate: &'g G,
    /// At most so many workers run a window.
    pub workers: u16,
}

/// What all who run processes of a window share. There is a mailbox for each process.
#[derive(Drop)]
pub(crate) struct Shared<'w, M, G> {
    pub alloc: Global,
    pub window: &'w Window<'w>,
    pub gate: &'w G,
    /// Of each worker's deque.
    pub fronts: &'w Vec<Front<Berth<M>>>,
    pub mailboxes: &'w SharedMailboxes,
    pub ghost boxes: { length mailboxes.now ≡ window.now.streams.processes },
}
