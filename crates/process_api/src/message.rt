//! Letters and inputs.
ghost use Rattle.std.specs.Prelude.{◌≡◌, IfOk};

use crate::cells::Cells;
use crate::key::Key;
use crate::pid::Pid;
use crate::proc_set::ProcSet;
use std::alloc::AllocError;

/// What a wake is for.
#[derive(Clone, Copy, Debug, PartialEq, Eq)]
pub enum Tag {
    /// The base detector sends its next letters.
    Beat,
    /// The base detector looks whom it has to suspect.
    Check,
    /// The reduction shares what the detector below it suspects.
    Share,
}

/// What a letter says. Rounds are 1 to 1,000,000,000,000, and values 0 to 4,294,967,295.
#[derive(Debug, PartialEq, Eq, Drop)]
pub enum Payload {
    /// The time-out detector: the sender is alive.
    Alive,
    /// The detector with freshness points: the sender was alive when it sent its heartbeat of this number, 1 to
    /// 1,000,000,000,000.
    Heartbeat { number: u64 },
    /// The reduction: whom the sender's base detector suspects.
    Suspects(ProcSet),
    /// Consensus with S: what the round before brought the sender.
    Vector { round: u64, cells: Cells },
    /// Consensus with S, the last round: all that the sender knows.
    Last { cells: Cells },
    /// The rotating coordinator: what the sender would decide, and since which round (0: from the start).
    Estimate { round: u64, value: u32, stamp: u64 },
    /// The rotating coordinator: what the round's coordinator proposes.
    Proposal { round: u64, value: u32 },
    /// The rotating coordinator: whether the sender adopted the round's proposal.
    Reply { round: u64, ack: bool },
    /// Diffusion: the decision of a round.
    Decide { round: u64, value: u32 },
}

impl Payload {
    /// The same letter, in memory of its own.
    ///
    /// # Errors
    ///
    /// `AllocError` where memory was refused.
    #[inline(always)]
    pub fn copy(&self) -> Result<Payload, AllocError>
        ensures { IfOk result (λ copied. copied ≡ self.now) }
    {
        let copied = match self {
            Payload::Alive => Payload::Alive,
            Payload::Heartbeat { number } => Payload::Heartbeat { number: *number },
            Payload::Suspects(shared) => Payload::Suspects(shared.copy()),
            Payload::Vector { round, cells } => {
                let cells = cells.copy()?;
                Payload::Vector {
                    round: *round,
                    cells,
                }
            }
            Payload::Last { cells } => Payload::Last {
                cells: cells.copy()?,
            },
            &Payload::Estimate {
                round,
                value,
                stamp,
            } => Payload::Estimate {
                round,
                value,
                stamp,
            },
            &Payload::Proposal { round, value } => Payload::Proposal { round, value },
            &Payload::Reply { round, ack } => Payload::Reply { round, ack },
            &Payload::Decide { round, value } => Payload::Decide { round, value },
        };
        Ok(copied)
    }
}

/// What a process takes in one step.
#[derive(Debug, PartialEq, Eq, Drop)]
pub enum StepInput {
    /// The process starts. Each process gets one start, at tick 0.
    Start,
    /// A letter came.
    Letter { sender: Pid, payload: Payload },
    /// A wake that the process set itself has come.
    Wake(Tag),
}

/// A letter on its way: the key of the event that it becomes, and what it says.
#[derive(Debug, PartialEq, Eq, Drop)]
pub struct Letter {
    /// When, by whom and from whom it is taken, and its number on its link.
    pub key: Key,
    /// What it says.
    pub payload: Payload,
}
