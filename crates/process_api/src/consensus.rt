//! The parts of the rotating coordinator's state.

/// The greatest round.
pub const GREATEST_ROUND: u64 = 1_000_000_000_000;

/// What a process would decide, and since which round: Chandra and Toueg's estimate with its time stamp
/// (Journal of the ACM 43(2), 1996).
#[derive(Clone, Copy)]
pub struct Estimate {
    /// The value.
    pub value: u32,
    /// The round in which it was adopted from a coordinator's proposal, from 1; 0 for the process's own proposal.
    pub stamp: u64,
}

/// What a process that runs the rotating coordinator waits for.
#[derive(Clone, Copy)]
pub enum Phase {
    /// For its start.
    Opening,
    /// As the round's coordinator, for a majority of estimates.
    Collect,
    /// For the coordinator's proposal, or to suspect the coordinator.
    Await,
    /// As the round's coordinator, for a majority of replies.
    Tally,
    /// For nothing: it has decided.
    Decided,
    /// For nothing but a decision: it has left the greatest round.
    Ended,
}
