//! The entries of all parts, tick by tick.
ghost use Rattle.std.specs.Prelude.{◌≡◌, ◌≤◌, ◌^◌, ◌<◌, ◌++◌, [], map, All, IsTrue, OnOk, IfOk, IfErr, MatchOption, IsPermutation};
ghost use Rattle.{process_api.specs.Order.{is_rising}, trace_merge.specs.{Inside.Moving.{HaveMoved}, Parts.{all_of}}};

use crate::joined::Joined;
use process_api::{Entry, RunError};
use std::collections::VecDeque;

/// A part of which the first entries have been taken.
#[derive(Drop)]
pub(crate) struct Lane {
    // no entry that is left is before this tick, so that up to it the entries needn't be looked at
    pub(crate) next: u32,
    // what is left
    pub(crate) rest: VecDeque<Entry>,
    ghost rising: { IsTrue (is_rising rest.items) },
    ghost late: { All (λ e. next ≤ e.key.tick) rest.items },
}

impl Lane {
    /// How many entries are left below a tick.
    #[inline(always)]
    fn below(&self, end: u32) -> usize {
        for place in 0..self.rest.len() {
            match self.rest.get(place) {
                Some(entry) if entry.key.tick < end => {}
                _ => return place,
            }
        }
        self.rest.len()
    }

    /// Moves the entries up to a tick to the end of a list. Answers the tick of the next one, or none where all were
    /// moved.
    #[inline(always)]
    fn take_up_to(&mut self, merged: &mut Joined, tick: u32) -> Result<Option<u32>, RunError>
        ensures same { OnOk result (IsPermutation (merged.old.entries.items ++ self.old.rest.items)
            (merged.new.entries.items ++ self.new.rest.items)) }
        ensures early { OnOk result (All (λ e. e.key.tick ≤ tick) merged.old.entries.items
            → All (λ e. e.key.tick ≤ tick) merged.new.entries.items) }
        ensures late { OnOk result (All (λ e. tick < e.key.tick) self.new.rest.items) }
        ensures later { IfOk result (λ next. MatchOption next (self.new.rest.items ≡ []) (λ t. tick < t)) }
        ensures err { IfErr result (λ e. e ≡ RunError.Memory) }
    {
        if tick < self.next {
            return Ok(Some(self.next));
        }
        while let Some(first) = self.rest.front() {
            let next = first.key.tick;
            if tick < next {
                self.next = next;
                return Ok(Some(next));
            }
            let Some(entry) = self.rest.pop_front() else {
                unreachable!()
            };
            merged.push(entry)?;
        }
        Ok(None)
    }
}

/// How many entries are left below a tick.
fn count_below(lanes: &[Lane], end: u32) -> usize {
    lanes.iter().fold(
        0,
        |count: usize, lane| count.saturating_add(lane.below(end)),
    )
}

/// About so many entries are read ahead at once: they are in the processor's second cache then.
const AHEAD: usize = 1024;

/// How far the parts were read ahead. Those of one part are read one after the other, which is quicker than to wait for
/// each entry as it is moved, tick by tick. Nothing that is merged depends on it.
#[derive(Drop)]
pub(crate) struct Reach {
    // the entries before this tick were read
    end: u32,
    // so many ticks are read next
    span: u32,
}

impl Reach {
    /// Nothing was read.
    pub(crate) fn new() -> Reach {
        Reach { end: 0, span: 4 }
    }

    /// Reads the entries of a tick, and of the ticks after it, where they weren't read before. Of more or fewer ticks
    /// the next time, where these had too few or too many.
    pub(crate) fn look_ahead(&mut self, lanes: &[Lane], tick: u32) {
        if tick < self.end {
            return;
        }
        self.end = tick.saturating_add(self.span);
        let count = count_below(lanes, self.end);
        if count < AHEAD {
            self.span = self.span.saturating_mul(2);
        } else if count / 2 >= AHEAD {
            self.span = (self.span / 2).max(1);
        }
    }
}

/// Moves the entries up to a tick of each part, one part after the other, to the end of a list. Answers the least tick
/// at which a part goes on, or none where all are taken.
pub(crate) fn take_tick(
    merged: &mut Joined,
    lanes: &mut [Lane],
    tick: u32,
) -> Result<Option<u32>, RunError>
    ensures same { OnOk result (HaveMoved (λ lane. lane.rest.items) merged.old.entries.items lanes.old
        merged.new.entries.items lanes.new) }
    ensures early { OnOk result (All (λ e. e.key.tick ≤ tick) merged.old.entries.items
        → All (λ e. e.key.tick ≤ tick) merged.new.entries.items) }
    ensures late { OnOk result (All (λ e. tick < e.key.tick) (all_of (map (λ lane. lane.rest.items) lanes.new))) }
    ensures later { IfOk result (λ next. MatchOption next
        (all_of (map (λ lane. lane.rest.items) lanes.new) ≡ []) (λ t. tick < t)) }
    ensures fits { tick < 2 ^ 32 }
    ensures err { IfErr result (λ e. e ≡ RunError.Memory) }
{
    let mut least: Option<u32> = None;
    for at in 0..lanes.len() {
        if let Some(next) = lanes[at].take_up_to(merged, tick)? {
            least = Some(least.unwrap_or(next).min(next));
        }
    }
    Ok(least)
}
