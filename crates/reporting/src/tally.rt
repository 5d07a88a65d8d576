//! The counts of a pair so far, and the measures that they are at the horizon.
ghost use Rattle.std.specs.{Prelude.{◌≡◌, ◌+◌, ◌<◌, ◌≤◌, ◌^◌, if◌then◌else◌, None}, Option.{ForSome}};
ghost use Rattle.reporting.specs.Tally.{HasRoom, InRange, begun, detected, finished, grown, moved, told};

use crate::pair_measures::{Detection, PairMeasures};
use process_api::Pid;

/// Some distances between ticks: their sum, and how many they are.
#[derive(Clone, Copy)]
pub(crate) struct Distances {
    /// In ticks.
    pub sum: u64,
    pub count: u64,
}

impl Distances {
    /// None yet.
    pub const NONE: Distances = Distances { sum: 0, count: 0 };

    /// One more, from a tick if there is one, where it ends below `end`.
    fn add(&mut self, from: Option<u32>, to: u32, end: u32)
        requires room { HasRoom self.old to }
        requires below { to + 1 < 2 ^ 32 }
        requires order { ForSome from (λ s. s ≤ to) }
        ensures { self.new ≡ grown self.old from to end }
    {
        if to < end {
            if let Some(from) = from {
                self.sum += u64::from(to - from);
                self.count += 1;
            }
        }
    }
}

/// The counts over all ticks before `tick`. Of what starts, ends or lasts there, only what is below an end is
/// counted.
#[derive(Clone, Copy)]
pub(crate) struct Tally {
    /// All ticks below this one are behind.
    pub tick: u32,
    /// Whether there was suspicion at the last of the ticks behind.
    pub was: bool,
    /// The last tick behind at which suspicion started.
    pub started: Option<u32>,
    /// The last tick behind at which it ended.
    pub ended: Option<u32>,
    /// How many times it started.
    pub mistakes: u64,
    /// How many ticks it lasted.
    pub mistake_ticks: u64,
    /// From start to start.
    pub recurrence: Distances,
    /// From start to end.
    pub duration: Distances,
    /// From end to start.
    pub good: Distances,
}

/// How long a crash was undetected, if that is measured, with a tally at the horizon.
fn detection(crash: Option<u32>, tally: &Tally) -> Detection
    ensures { result ≡ detected crash (if tally.now.was then tally.now.started else None) }
{
    let Some(crash) = crash else {
        return Detection::Na;
    };
    match tally.started {
        Some(since) if tally.was => Detection::At(since.saturating_sub(crash)),
        _ => Detection::NoTick,
    }
}

impl Tally {
    /// Nothing is counted, at tick 0.
    pub const NEW: Tally = Tally {
        tick: 0,
        was: false,
        started: None,
        ended: None,
        mistakes: 0,
        mistake_ticks: 0,
        recurrence: Distances::NONE,
        duration: Distances::NONE,
        good: Distances::NONE,
    };

    /// Suspicion starts at the tally's tick.
    fn begin(&mut self, end: u32)
        requires range { InRange self.old }
        requires below { self.old.tick + 1 < 2 ^ 32 }
        ensures { self.new ≡ begun self.old end }
    {
        if self.tick < end {
            self.mistakes += 1;
        }
        self.recurrence.add(self.started, self.tick, end);
        self.good.add(self.ended, self.tick, end);
        self.started = Some(self.tick);
    }

    /// Suspicion ends at the tally's tick.
    fn finish(&mut self, end: u32)
        requires range { InRange self.old }
        requires below { self.old.tick + 1 < 2 ^ 32 }
        ensures { self.new ≡ finished self.old end }
    {
        self.duration.add(self.started, self.tick, end);
        self.ended = Some(self.tick);
    }

    /// From the tally's tick up to another, there is suspicion or there is none.
    pub fn pass(&mut self, until: u32, suspected: bool, end: u32)
        requires { InRange self.old }
        ensures moved { self.new ≡ moved self.old until suspected end }
        ensures range { InRange self.new }
    {
        if self.tick < until {
            let more = if suspected {
                u64::from(until.min(end) - self.tick.min(end))
            } else {
                0
            };
            if suspected && !self.was {
                self.begin(end);
            }
            if !suspected && self.was {
                self.finish(end);
            }
            self.mistake_ticks += more;
            self.was = suspected;
            self.tick = until;
        }
    }

    /// What it tells at the horizon of an observer and a subject on a layer. The subject's crash is given if its
    /// detection is measured.
    pub fn measures(
        &self,
        layer: u8,
        observer: Pid,
        subject: Pid,
        crash: Option<u32>,
    ) -> PairMeasures
        ensures { result ≡ told layer observer subject crash self.now }
    {
        PairMeasures {
            layer,
            observer,
            subject,
            mistakes: self.mistakes,
            mistake_ticks: self.mistake_ticks,
            recurrence_sum: self.recurrence.sum,
            recurrence_count: self.recurrence.count,
            duration_sum: self.duration.sum,
            duration_count: self.duration.count,
            good_sum: self.good.sum,
            good_count: self.good.count,
            detection: detection(crash, self),
        }
    }
}
