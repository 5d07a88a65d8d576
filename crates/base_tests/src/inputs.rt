//! The inputs of a part of a process.
ghost use Rattle.std.specs.Prelude.{◌≡◌};

use crate::comparisons::NO_MEMORY;
use process_api::{Cells, Payload, Pid, ProcSet, StepInput, Tag};
use std::alloc::Global;
use std::process::Abort;

/// One input. Of a letter its sender's number comes first.
#[derive(Clone, Copy)]
pub enum Given<'a> {
    Start,
    Beat,
    Check,
    Share,
    Alive(u16),
    /// Its number.
    Heartbeat(u16, u64),
    /// Whom the sender suspects.
    Suspects(u16, &'a [u16]),
    /// Round and cells.
    Vector(u16, u64, &'a [Option<u32>]),
    /// The cells.
    Last(u16, &'a [Option<u32>]),
    /// Round, value and stamp.
    Estimate(u16, u64, u32, u64),
    /// Round and value.
    Proposal(u16, u64, u32),
    /// The round, and whether it is an ack.
    Reply(u16, u64, bool),
    /// Round and value.
    Decide(u16, u64, u32),
}

/// The process of this number.
pub fn numbered(rt: &impl Abort, number: u16) -> Pid
    ensures { result ≡ number }
{
    Pid::new(number).expect(rt, "no process")
}

/// The set of these processes.
pub fn set_of(rt: &impl Abort, numbers: &[u16]) -> ProcSet {
    let mut set = ProcSet::new();
    for number in numbers {
        set.insert(numbered(rt, *number));
    }
    set
}

/// These cells.
fn cells_of(rt: &impl Abort, alloc: Global, cells: &[Option<u32>]) -> Cells {
    Cells::new(Vec::from_slice(alloc, cells).expect(rt, NO_MEMORY))
}

/// The input that is given.
pub fn input_of(rt: &impl Abort, alloc: Global, given: Given) -> StepInput {
    let (from, payload) = match given {
        Given::Start => return StepInput::Start,
        Given::Beat => return StepInput::Wake(Tag::Beat),
        Given::Check => return StepInput::Wake(Tag::Check),
        Given::Share => return StepInput::Wake(Tag::Share),
        Given::Alive(from) => (from, Payload::Alive),
        Given::Heartbeat(from, number) => (from, Payload::Heartbeat { number }),
        Given::Suspects(from, numbers) => (from, Payload::Suspects(set_of(rt, numbers))),
        Given::Vector(from, round, cells) => {
            let cells = cells_of(rt, alloc, cells);
            (from, Payload::Vector { round, cells })
        }
        Given::Last(from, cells) => {
            let cells = cells_of(rt, alloc, cells);
            (from, Payload::Last { cells })
        }
        Given::Estimate(from, round, value, stamp) => (
            from,
            Payload::Estimate {
                round,
                value,
                stamp,
            },
        ),
        Given::Proposal(from, round, value) => (from, Payload::Proposal { round, value }),
        Given::Reply(from, round, ack) => (from, Payload::Reply { round, ack }),
        Given::Decide(from, round, value) => (from, Payload::Decide { round, value }),
    };
    let sender = numbered(rt, from);
    StepInput::Letter { sender, payload }
}
