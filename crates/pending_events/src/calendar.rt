//! Events by their ticks: a ring of buckets for the ticks ahead, and a map of buckets for all others.
ghost use Rattle.std.specs.{Prelude.{◌≡◌, ◌++◌, ◌<◌, ◌≤◌, ◌%◌, ℕ, [], IfNone, IfOk, IfSome, MatchOption, false, length, true, vec_len}, BTreeMap.{IsLowerBound}, Ordering.{nat_cmp}};
ghost use Rattle.pending_events.specs.Inside.Calendar.{HasTick, IsCleared, IsFull, IsPut, bucket, came, IsCalendar, IsFirst, IsTaken, IsVacant, NoneAhead, due, lane, year};

use std::alloc::{AllocError, Global};
use std::collections::BTreeMap;
use std::mem;
use trace_laws::Event;

/// How many ticks a year has. A ring has as many places.
const YEAR: u32 = 1024;

/// Where the last year begins.
const LAST_YEAR: u32 = u32::MAX - YEAR;

/// Events by their ticks. The year is the 1,024 ticks from `from` on. An event of the year lies in the ring: the place
/// of its bucket is its tick's rest by 1,024, so each tick of the year has a place of its own. Every later event lies
/// in the map. The year only moves forward, to the tick whose events are taken. So of the events of one tick those in
/// the map came first.
#[derive(Drop)]
pub(crate) struct Calendar {
    pub(crate) from: u32,
    pub(crate) ring: Vec<Vec<Event>>,
    // by tick
    pub(crate) map: BTreeMap<u32, Vec<Event>>,
}

impl Calendar {
    /// No event.
    #[tactic(auto, using(crate::proofs::Nearby::empty_lanes))]
    pub(crate) fn new(alloc: Global) -> Result<Calendar, AllocError>
        ensures calendar { IfOk result (λ c. IsCalendar c) }
        ensures vacant { IfOk result (λ c. IsVacant c) }
        ensures from { IfOk result (λ c. c.from ≡ 0) }
    {
        let mut ring = Vec::new(alloc);
        while ring.len() < YEAR as usize {
            ring.push(Vec::new(alloc))?;
        }
        Ok(Calendar {
            from: 0,
            ring,
            map: BTreeMap::new(alloc),
        })
    }

    /// The least tick of which there are events.
    pub(crate) fn least_tick(&self) -> Option<u32>
        requires { IsCalendar self.now }
        ensures { MatchOption result (IsVacant self.now) (λ tick. IsFirst self.now tick) }
    {
        let listed = least_listed(&self.map);
        let end = (self.from + YEAR).min(listed.unwrap_or(u32::MAX));
        match first_filled(&self.ring, self.from, end) {
            Some(tick) => Some(tick),
            None => listed,
        }
    }

    /// Takes the events of the least tick, in two parts: those that lay in the map, which came first, and others.
    #[tactic(auto, using(crate::proofs::Nearby::went))]
    pub(crate) fn take_first(&mut self) -> Option<(u32, Vec<Event>, Vec<Event>)>
        requires { IsCalendar self.old }
        ensures calendar { IsCalendar self.new }
        ensures taken { MatchOption result
            (IsVacant self.old × (self.new ≡ self.old))
            (λ p. IsTaken self.old self.new p.0 (p.1.items ++ p.2.items)) }
    {
        let tick = self.least_tick()?;
        let alloc = *self.ring.allocator();
        let listed = take_listed(alloc, &mut self.map, tick);
        let near = take_near(alloc, &mut self.ring, tick);
        self.from = tick.min(LAST_YEAR);
        Some((tick, listed, near))
    }

    /// Adds an event to those of its tick, which is this.
    #[inline(always)]
    pub(crate) fn add(
        &mut self,
        spare: &mut Vec<Vec<Event>>,
        tick: u32,
        event: Event,
    ) -> Result<(), AllocError>
        requires calendar { IsCalendar self.old }
        requires tick { event.0.tick ≡ tick }
        requires from { self.old.from ≤ tick }
        ensures calendar { IsCalendar self.new }
        ensures put { IsPut (due self.old) (due self.new) tick (came result event) }
        ensures from { self.new.from ≡ self.old.from }
    {
        if tick < self.from + YEAR {
            return put_near(spare, &mut self.ring, (tick % YEAR) as usize, event);
        }
        let alloc = *self.ring.allocator();
        file(alloc, spare, &mut self.map, tick, event)
    }
}

/// The least tick of a map.
fn least_listed(map: &BTreeMap<u32, Vec<Event>>) -> Option<u32>
    ensures { MatchOption result ((t : ℕ) → HasTick map.now t → ⊥)
        (λ tick. HasTick map.now tick × IsLowerBound nat_cmp map.now tick) }
{
    match map.first_key_value() {
        Some((tick, _)) => Some(*tick),
        None => None,
    }
}

/// Whether there are events in the bucket at a tick's place.
#[tactic(auto, using(crate::proofs::Nearby::lanes))]
fn is_filled(ring: &[Vec<Event>], tick: u32) -> bool
    requires { length ring.now ≡ year }
    ensures yes { result ≡ true → 0 < length (lane ring.now (tick % year)) }
    ensures no { result ≡ false → lane ring.now (tick % year) ≡ [] }
{
    let place = (tick % YEAR) as usize;
    !ring[place].is_empty()
}

/// The first tick of a part of the year with events at its place.
fn first_filled(ring: &[Vec<Event>], from: u32, end: u32) -> Option<u32>
    requires { length ring.now ≡ year }
    ensures none { IfNone result (NoneAhead ring.now from end) }
    ensures first { IfSome result (λ tick.
        (from ≤ tick) × (tick < end) × NoneAhead ring.now from tick × (0 < length (lane ring.now (tick % year)))) }
{
    for tick in from..end {
        if is_filled(ring, tick) {
            return Some(tick);
        }
    }
    None
}

/// Takes the events of a tick out of the map.
fn take_listed(alloc: Global, map: &mut BTreeMap<u32, Vec<Event>>, tick: u32) -> Vec<Event>
    ensures whole { result.items ≡ bucket map.old tick }
    ensures cleared { IsCleared (bucket map.old) (bucket map.new) tick }
    ensures full { IsFull map.old → IsFull map.new }
{
    map.remove(&tick).unwrap_or(Vec::new(alloc))
}

/// Takes the events at a tick's place out of the ring.
#[tactic(auto, using(crate::proofs::Nearby::lanes))]
fn take_near(alloc: Global, ring: &mut Vec<Vec<Event>>, tick: u32) -> Vec<Event>
    requires { length ring.old.items ≡ year }
    ensures whole { result.items ≡ lane ring.old.items (tick % year) }
    ensures cleared { IsCleared (lane ring.old.items) (lane ring.new.items) (tick % year) }
    ensures long { length ring.new.items ≡ year }
{
    let place = (tick % YEAR) as usize;
    mem::replace(&mut ring[place], Vec::new(alloc))
}

/// Gives an empty bucket the memory of one that was kept for reuse.
fn furnish(spare: &mut Vec<Vec<Event>>, bucket: &mut Vec<Event>)
    requires { bucket.old.items ≡ [] }
    ensures { bucket.new.items ≡ [] }
{
    if let Some(mut kept) = spare.pop() {
        kept.clear();
        *bucket = kept;
    }
}

/// Adds an event to the end of a bucket.
#[inline(always)]
fn put_last(
    spare: &mut Vec<Vec<Event>>,
    bucket: &mut Vec<Event>,
    event: Event,
) -> Result<(), AllocError>
    ensures { bucket.new.items ≡ bucket.old.items ++ came result event }
{
    if bucket.is_empty() {
        furnish(spare, bucket);
    }
    bucket.reserve(1)?;
    bucket.push_reserved(event);
    Ok(())
}

/// Adds an event to the end of the bucket at a place of the ring.
#[inline(always)]
#[tactic(auto, using(crate::proofs::Nearby::lanes))]
fn put_near(
    spare: &mut Vec<Vec<Event>>,
    ring: &mut Vec<Vec<Event>>,
    place: usize,
    event: Event,
) -> Result<(), AllocError>
    requires { place < vec_len ring.old }
    ensures put { IsPut (lane ring.old.items) (lane ring.new.items) place (came result event) }
    ensures long { length ring.new.items ≡ length ring.old.items }
{
    put_last(spare, &mut ring[place], event)
}

/// Adds an event to the bucket of a tick in the map.
#[inline(always)]
fn file(
    alloc: Global,
    spare: &mut Vec<Vec<Event>>,
    map: &mut BTreeMap<u32, Vec<Event>>,
    tick: u32,
    event: Event,
) -> Result<(), AllocError>
    ensures put { IsPut (bucket map.old) (bucket map.new) tick (came result event) }
    ensures full { IsFull map.old → IsFull map.new }
{
    if let Some(bucket) = map.get_mut(&tick) {
        bucket.push(event)?;
        return Ok(());
    }
    let mut bucket = Vec::new(alloc);
    furnish(spare, &mut bucket);
    bucket.push(event)?;
    map.insert(tick, bucket)?;
    Ok(())
}
