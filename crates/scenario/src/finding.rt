//! Why a scenario's file is refused, and where.
//!
//! A file is read without regard to this. Of one that is refused it is looked for afterwards (`found.rt`).

use crate::error::ScenarioError;
use crate::fault::{BelowLookahead, Fault, ProposalsFault};
use crate::place::Place;

/// Answers what a search finds, if it finds something.
macro_rules! answer_found {
    ($search:expr) => {
        if let Some(found) = $search {
            return Some(found);
        }
    };
}

pub(crate) use answer_found;

/// What is wrong with a refused file, and where.
#[derive(Clone, Copy)]
pub enum Finding<'a> {
    /// A table has a fault by itself.
    At {
        /// The table.
        place: Place,
        /// The fault.
        fault: Fault<'a>,
    },
    /// The proposals don't fit.
    Proposals(ProposalsFault),
    /// A link is below the lookahead.
    Below(BelowLookahead),
    /// A table of `links` is of the pair of an earlier one.
    TwicePair {
        /// The pair's sender.
        from: i64,
        /// Its receiver.
        to: i64,
        /// Which table it is, from 1.
        number: u64,
        /// Which table the earlier one is, from 1.
        earlier: u64,
    },
    /// A table of `crash` is of the process of an earlier one.
    TwiceProcess {
        /// The process.
        process: i64,
        /// Which table it is, from 1.
        number: u64,
        /// Which table the earlier one is, from 1.
        earlier: u64,
    },
}

/// Why a file is refused, and where.
#[derive(Drop)]
pub struct Refused<'a> {
    /// The refusal.
    pub error: ScenarioError,
    /// What is wrong, and where. It is `None` where memory was refused. No other refused file is known for which it is
    /// `None`.
    pub finding: Option<Finding<'a>>,
}
