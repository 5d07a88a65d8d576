//! Events, which wait for a process.
ghost use Rattle.std.specs.Prelude.{◌≡◌, ℕ, IfErr, IfOk, MatchOption, None, OnErr, replicate};
ghost use Rattle.trace_laws.specs.{World.{start_of}, Taken.{AreFilled, AreLong, LiesAside, event_of, input_of}};

use process_api::{Cells, Key, Payload, Pid, ProcSet, StepInput, Tag};
use std::alloc::{AllocError, Global};
use std::marker::Model;
use std::mem::replace;

/// What the receiver of an event takes, in 16 bytes. The sender of a letter stands in the event's key alone. A payload
/// that doesn't fit into so few bytes lies aside.
#[derive(Drop)]
enum Taken {
    Start,
    Wake(Tag),
    Alive,
    Heartbeat { number: u64 },
    // the set that the word says: none is above 64
    Suspects { word: u64 },
    Estimate { round: u32, value: u32, stamp: u32 },
    Proposal { value: u32, round: u64 },
    Reply { ack: bool, round: u64 },
    Decide { value: u32, round: u64 },
    // a vector of n empty cells
    Empty { alloc: Global, n: u32, round: u64 },
    Aside(Box<Payload>),
}

/// Both numbers, where they fit into 32 bits.
#[inline(always)]
fn short_of(round: u64, stamp: u64) -> Option<(u32, u32)>
    ensures { MatchOption result (AreLong round stamp) (λ both. (both.0 ≡ round) × (both.1 ≡ stamp)) }
{
    let round = u32::try_from(round).ok()?;
    let stamp = u32::try_from(stamp).ok()?;
    Some((round, stamp))
}

/// How many cells there are, where all are empty.
fn empty_count(cells: &Cells) -> Option<u32>
    ensures { MatchOption result (AreFilled cells.now) (λ n. cells.now ≡ replicate n None) }
{
    let n = cells.all_empty()?;
    u32::try_from(n).ok()
}

impl Taken {
    /// What a large letter says, which is moved out of its place, unless memory is refused.
    fn aside(alloc: Global, payload: &mut Payload) -> Result<Taken, AllocError>
        ensures input { IfOk result (λ taken.
            (sender : ℕ) → input_of sender taken ≡ StepInput.Letter sender payload.old) }
        ensures back { OnErr result (payload.new ≡ payload.old) }
    {
        match Box::new(alloc, replace(payload, Payload::Alive)) {
            Ok(large) => Ok(Taken::Aside(large)),
            Err(refused) => {
                *payload = refused.value;
                Err(AllocError)
            }
        }
    }

    /// What a letter says. The payload that is left in its place means nothing.
    #[inline(always)]
    fn letter(alloc: Global, payload: &mut Payload) -> Result<Taken, AllocError>
        ensures input { IfOk result (λ taken.
            (sender : ℕ) → input_of sender taken ≡ StepInput.Letter sender payload.old) }
        ensures large { IfErr result (λ _. LiesAside payload.old) }
        ensures back { OnErr result (payload.new ≡ payload.old) }
    {
        let taken = match payload {
            Payload::Alive => Taken::Alive,
            &mut Payload::Heartbeat { number } => Taken::Heartbeat { number },
            Payload::Suspects(set) => match set.to_word() {
                Some(word) => Taken::Suspects { word },
                None => Taken::aside(alloc, payload)?,
            },
            &mut Payload::Proposal { round, value } => Taken::Proposal { round, value },
            &mut Payload::Reply { round, ack } => Taken::Reply { round, ack },
            &mut Payload::Decide { round, value } => Taken::Decide { round, value },
            &mut Payload::Estimate {
                round,
                value,
                stamp,
            } => match short_of(round, stamp) {
                Some((round, stamp)) => Taken::Estimate {
                    round,
                    value,
                    stamp,
                },
                None => Taken::aside(alloc, payload)?,
            },
            Payload::Vector { round, cells } => match empty_count(cells) {
                Some(n) => Taken::Empty {
                    alloc,
                    round: *round,
                    n,
                },
                None => Taken::aside(alloc, payload)?,
            },
            large => Taken::aside(alloc, large)?,
        };
        Ok(taken)
    }

    /// The same, as the receiver's machine takes it. The value that is left means nothing.
    #[inline(always)]
    fn take_input(&mut self, sender: Pid) -> StepInput
        ensures { result ≡ input_of sender self.old }
    {
        let payload = match self {
            Taken::Start => return StepInput::Start,
            &mut Taken::Wake(tag) => return StepInput::Wake(tag),
            Taken::Alive => Payload::Alive,
            &mut Taken::Heartbeat { number } => Payload::Heartbeat { number },
            &mut Taken::Suspects { word } => Payload::Suspects(ProcSet::of_word(word)),
            &mut Taken::Estimate {
                round,
                value,
                stamp,
            } => Payload::Estimate {
                round: u64::from(round),
                value,
                stamp: u64::from(stamp),
            },
            &mut Taken::Proposal { round, value } => Payload::Proposal { round, value },
            &mut Taken::Reply { round, ack } => Payload::Reply { round, ack },
            &mut Taken::Decide { round, value } => Payload::Decide { round, value },
            &mut Taken::Empty { alloc, round, n } => Payload::Vector {
                round,
                cells: Cells::empty(alloc, n as usize),
            },
            Taken::Aside(payload) => replace(&mut **payload, Payload::Alive),
        };
        StepInput::Letter { sender, payload }
    }
}

/// An event: its key, and what its receiver takes. Contracts see the pair of its key and the receiver's input.
#[derive(Drop)]
pub struct Event {
    key: Key,
    taken: Taken,
}

impl Model for Event {
    ghost use Rattle.std.specs.Coded.{coded×};
    ghost use Rattle.process_api.specs.contracts.message.StepInput as step_input;
    ghost use Rattle.trace_laws.specs.{World.{key_code}, Step.{Event as Pair}};

    ghost Value = { Pair };

    ghost coded = { coded× key_code step_input.the_row.coded };

    ghost use Rattle.trace_laws.specs.Taken.{input_of};

    ghost view = { λ e. (e.key, input_of e.key.sender e.taken) };
}

impl Event {
    /// The start of a process.
    pub fn start(p: Pid) -> Event
        ensures { result ≡ (start_of p, StepInput.Start) }
    {
        let key = Key {
            tick: 0,
            receiver: p,
            sender: p,
            number: 0,
        };
        Event {
            key,
            taken: Taken::Start,
        }
    }

    /// A wake that the process of this key set itself.
    #[inline(always)]
    pub fn wake(key: Key, tag: Tag) -> Event
        ensures { result ≡ (key, StepInput.Wake tag) }
    {
        Event {
            key,
            taken: Taken::Wake(tag),
        }
    }

    /// The event that a letter becomes: its sender is that of its key. The payload is read in its place, and moved out
    /// of it where it is large. The payload that is left there means nothing.
    ///
    /// # Errors
    ///
    /// `AllocError` where memory was refused, for a letter with a set that has a member above 64, with cells of which
    /// one is filled or that are 2^32 or more, with the cells of the last round, or for an estimate with a stamp or a
    /// round of 2^32 or more. It is in its place then.
    #[inline(always)]
    pub fn letter(alloc: Global, key: Key, payload: &mut Payload) -> Result<Event, AllocError>
        ensures event { IfOk result (λ event. event ≡ event_of (record { key = key; payload = payload.old })) }
        ensures large { IfErr result (λ _. LiesAside payload.old) }
        ensures back { OnErr result (payload.new ≡ payload.old) }
    {
        let taken = Taken::letter(alloc, payload)?;
        Ok(Event { key, taken })
    }

    /// When, by whom and from whom it is taken, and its number on its link.
    #[inline(always)]
    pub fn key(&self) -> Key
        ensures { result ≡ self.now.0 }
    {
        self.key
    }

    /// The event, moved out of its place. The event that is left there means nothing.
    #[inline(always)]
    pub fn take(&mut self) -> Event
        ensures { result ≡ self.old }
    {
        Event {
            key: self.key,
            taken: replace(&mut self.taken, Taken::Start),
        }
    }

    /// Its key, and what the receiver's machine takes, moved out of its place. The event that is left there means
    /// nothing.
    #[inline(always)]
    pub fn take_parts(&mut self) -> (Key, StepInput)
        ensures { result ≡ self.old }
    {
        let key = self.key;
        (key, self.taken.take_input(key.sender))
    }
}
