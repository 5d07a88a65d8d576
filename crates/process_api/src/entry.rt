//! Entries of a trace.
ghost use Rattle.std.specs.Cmp.{partial_equiv_from_equiv};

use crate::action::Note;
use crate::key::Key;
use std::marker::Model;

/// The kind of an entry: what the process took.
#[derive(Clone, Copy, Debug, PartialEq, Eq)]
pub enum Kind {
    /// The process's start.
    Start,
    /// A wake of the base detector, to say that the process is alive.
    Beat,
    /// A wake of the base detector, to look whom it has to suspect.
    Check,
    /// A wake of the reduction, to share whom the base detector suspects.
    Share,
    /// A letter of the time-out detector.
    Alive,
    /// A letter of the detector with freshness points.
    Heartbeat,
    /// A letter of the reduction.
    Suspects,
    /// A letter of consensus with S, in a round before the last.
    Vector,
    /// A letter of consensus with S, in the last round.
    Last,
    /// A letter to a round's coordinator: what the sender would decide.
    Estimate,
    /// A letter of a round's coordinator: what it proposes.
    Proposal,
    /// A letter to a round's coordinator: whether the sender adopted the proposal.
    Reply,
    /// A letter that spreads a decision.
    Decide,
    /// The event came to a process that had crashed: nothing was done.
    Dead,
}

/// One step of a trace.
#[derive(Debug, Drop)]
pub struct Entry {
    /// The key of the event that was taken.
    pub key: Key,
    /// What the process took.
    pub kind: Kind,
    /// How many letters the step sent, those to itself and lost ones too. Wakes aren't counted.
    pub sent: u32,
    /// How many of these letters were lost.
    pub lost: u32,
    /// What the step noted, in order.
    pub notes: Vec<Note>,
}

impl Model for Entry {
    ghost use Rattle.process_api.specs.Order.{EntryRecord};

    ghost Value = { EntryRecord };

    ghost view = { λ e. record { key = e.key; kind = e.kind; sent = e.sent; lost = e.lost; notes = e.notes.items } };
}

impl PartialEq for Entry {
    ghost use Rattle.process_api.specs.{Same.{is_same_entry}, Inside.SameLaws.{entry_equiv}};

    ghost eq = { is_same_entry };

    ghost laws = { partial_equiv_from_equiv entry_equiv };

    fn eq(&self, other: &Entry) -> bool {
        self.key == other.key
            && self.kind == other.kind
            && self.sent == other.sent
            && self.lost == other.lost
            && self.notes == other.notes
    }
}

impl Eq for Entry {
    ghost use Rattle.process_api.specs.Inside.SameLaws.{entry_equiv};

    ghost laws = { entry_equiv };
}
