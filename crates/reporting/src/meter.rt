//! A meter: the measures of one pair on one layer, in constant memory.
ghost use Rattle.std.specs.Prelude.{◌≡◌, [], ℕ, List};
ghost use Rattle.{process_api.specs.Order.{EntryRecord}, scenario_record.specs.Record.{Record}};
ghost use Rattle.reporting.specs.Meter.{closed, crash_between, opened, IsFed, WasFed};

use crate::pair_measures::PairMeasures;
use crate::pair_tally::PairTally;
use judges::{Pair, end_tick};
use process_api::{Entry, Pid};
use scenario_record::Scenario;

/// Measures what an observer makes of a subject on a layer, fed with the entries of a trace as they come, in the order
/// of their keys. It takes no memory, and holds nothing of the entries; contracts see what it counts.
#[derive(Clone, Copy)]
pub struct Meter {
    pub(crate) layer: u8,
    pub(crate) observer: Pid,
    pub(crate) subject: Pid,
    pub(crate) horizon: u32,
    /// The tick at which the subject crashed, if its detection is measured.
    pub(crate) crash: Option<u32>,
    pub(crate) pair: Pair<PairTally>,
}

/// The subject's crash, where its detection is measured: the subject crashes below the horizon, and the observer
/// doesn't. Each is up until its own end, cut at the horizon.
pub(crate) fn crash_between(observer_end: u32, subject_end: u32, horizon: u32) -> Option<u32>
    ensures { result ≡ crash_between observer_end subject_end horizon }
{
    let is_measured = subject_end < horizon && observer_end == horizon;
    if is_measured { Some(subject_end) } else { None }
}

impl Meter {
    ghost use Rattle.reporting.specs.Measures.{pair_measures};

    /// A meter that was fed with nothing: of layer 1, the base detector, or layer 2, the reduction's output.
    pub fn open(scenario: &Scenario, layer: u8, observer: Pid, subject: Pid) -> Meter
        ensures opened { result ≡ opened scenario.now layer observer subject }
        ensures fed { IsFed scenario.now layer observer subject [] result }
    {
        let horizon = scenario.horizon();
        let observer_end = end_tick(scenario, observer);
        let subject_end = end_tick(scenario, subject);
        Meter {
            layer,
            observer,
            subject,
            horizon,
            crash: crash_between(observer_end, subject_end, horizon),
            pair: Pair::open(observer_end.min(subject_end), PairTally::new()),
        }
    }

    /// One more entry.
    pub fn feed(&mut self, entry: &Entry)
        ensures { WasFed entry.now self.old self.new }
    {
        if entry.key.receiver == self.observer && entry.key.tick < self.horizon {
            self.pair.note_all(
                self.layer,
                self.subject,
                entry.key.tick,
                entry.notes.as_slice(),
            );
        }
    }

    /// The measures, as no entry follows.
    pub fn close(self) -> PairMeasures
        ensures value { result ≡ closed self }
        ensures measures { (S : Record) (layer q p : ℕ) (trace : List EntryRecord) → IsFed S layer q p trace self
            → result ≡ pair_measures S trace layer q p }
    {
        let tally = self.pair.close(self.horizon).tally();
        tally.measures(self.layer, self.observer, self.subject, self.crash)
    }
}
