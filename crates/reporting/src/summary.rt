//! The summary of a run, in a few numbers.

use judges::Outcome;

/// What is told of a run in a few numbers.
#[derive(Debug, PartialEq, Eq, Drop)]
pub struct Summary {
    /// How many entries the trace has.
    pub entries: u64,
    /// How many letters were sent, those to oneself and lost ones too.
    pub sent: u128,
    /// How many of these letters were lost.
    pub lost: u128,
    /// What each process decided, of process 1 first.
    pub outcomes: Vec<Outcome>,
}
