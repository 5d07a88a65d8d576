//! The pairs of a run that count, and what they add up to.
ghost use Rattle.std.specs.{Prelude.{◌≡◌, ◌≤◌, ◌*◌, ◌^◌, length, IfOk}, List.{flat_map, sum_by}};
ghost use Rattle.{detector_bounds.specs.Detected.{watch_of}, judges.specs.Out.{end_of}};
ghost use Rattle.reporting.specs.Durations.{lengths_of};
ghost use Rattle.sweep.specs.{Inside.Adding.{of_pair}, Columns.{ArePairSums}, Fitting.{ArePairsWithin}, OneRun.{counted_of, counts_on, detection_ticks, detection_time, is_at_once, times_of}};

use crate::columns::PairSums;
use crate::group::Group;
use judges::end_tick;
use process_api::{DetectorNumbers, Watch};
use reporting::{Detection, Durations, PairMeasures};
use scenario::Scenario;
use std::alloc::{AllocError, Global};

/// Whom a detector watches.
fn watch_of(numbers: DetectorNumbers) -> Watch
    ensures { result ≡ watch_of numbers }
{
    match numbers {
        DetectorNumbers::Timeout(numbers) => numbers.watch,
        DetectorNumbers::Freshness(numbers) => numbers.watch,
    }
}

/// Whether a pair counts: where it is of the group, and on layer 1 its observer's detector watches its subject.
fn counts_on(scenario: &Scenario, group: &Group, layer: u8, pair: &PairMeasures) -> bool
    ensures { result ≡ counts_on group.now layer scenario.now pair.now.observer pair.now.subject }
{
    if !group.has(pair.observer, pair.subject) {
        return false;
    }
    if layer == 1 {
        let watch = watch_of(scenario.detector());
        watch.takes_in(pair.observer, scenario.processes(), pair.subject)
    } else {
        true
    }
}

/// The measures of the pairs of a group that count on a layer.
pub(crate) fn counted_of(
    alloc: Global,
    scenario: &Scenario,
    group: &Group,
    layer: u8,
    pairs: &[PairMeasures],
) -> Result<Vec<PairMeasures>, AllocError>
    ensures { IfOk result (λ counted. counted.items ≡ counted_of group.now layer scenario.now pairs.now) }
{
    pairs
        .iter()
        .copied()
        .filter(|pair| counts_on(scenario, group, layer, pair))
        .collect(alloc)
}

/// For how many ticks the pairs are watched: each up to the first crash of the two, or the horizon.
pub(crate) fn sum_ends(scenario: &Scenario, pairs: &[PairMeasures]) -> u128
    ensures value { result ≡ sum_by (λ m. end_of scenario.now m.observer m.subject) pairs.now }
    ensures within { result ≤ length pairs.now * 2 ^ 32 }
{
    let mut ticks = 0u128;
    for pair in pairs {
        let observer_end = end_tick(scenario, pair.observer);
        let subject_end = end_tick(scenario, pair.subject);
        ticks += u128::from(observer_end.min(subject_end));
    }
    ticks
}

/// Whether the suspicion of a crashed process had begun by the tick of the crash.
fn is_at_once(detection: Detection) -> bool
    ensures { result ≡ is_at_once detection }
{
    match detection {
        Detection::Na | Detection::NoTick => false,
        Detection::At(ticks) => ticks == 0,
    }
}

/// How long the detection of a crash took, in ticks; 0 where there is none.
fn detection_ticks(detection: Detection) -> u32
    ensures { result ≡ detection_ticks detection }
{
    match detection {
        Detection::Na | Detection::NoTick => 0,
        Detection::At(ticks) => ticks,
    }
}

/// What a pair adds.
fn of_pair(pair: &PairMeasures) -> PairSums
    ensures value { result ≡ of_pair pair.now }
    ensures within { ArePairsWithin (2 ^ 64) result }
{
    PairSums {
        mistakes: u128::from(pair.mistakes),
        mistake_ticks: u128::from(pair.mistake_ticks),
        recurrence_sum: u128::from(pair.recurrence_sum),
        recurrence_count: u128::from(pair.recurrence_count),
        duration_sum: u128::from(pair.duration_sum),
        duration_count: u128::from(pair.duration_count),
        good_sum: u128::from(pair.good_sum),
        good_count: u128::from(pair.good_count),
        undetected: match pair.detection {
            Detection::NoTick => 1,
            Detection::Na | Detection::At(_) => 0,
        },
        at_once: if is_at_once(pair.detection) { 1 } else { 0 },
        detection_sum: u128::from(detection_ticks(pair.detection)),
    }
}

/// The sums over pairs.
pub(crate) fn sum_pairs(pairs: &[PairMeasures]) -> PairSums
    ensures sums { ArePairSums pairs.now result }
    ensures within { ArePairsWithin (length pairs.now * 2 ^ 64) result }
{
    let mut sums = PairSums::default();
    for pair in pairs {
        sums = sums.plus(of_pair(pair));
    }
    sums
}

/// How long the detection of a crash took, in ticks, where it was detected.
fn detection_time(detection: Detection) -> Option<u32>
    ensures { result ≡ detection_time detection }
{
    match detection {
        Detection::Na | Detection::NoTick => None,
        Detection::At(ticks) => Some(ticks),
    }
}

/// The times of the detections, in ticks.
pub(crate) fn detection_times(alloc: Global, pairs: &[PairMeasures]) -> Result<Vec<u32>, AllocError>
    ensures { IfOk result (λ times. times.items ≡ times_of pairs.now) }
{
    pairs
        .iter()
        .filter_map(|pair| detection_time(pair.detection))
        .collect(alloc)
}

/// How long each mistake of these pairs was that ended, in ticks.
pub(crate) fn durations_of(
    alloc: Global,
    pairs: &[PairMeasures],
    durations: &Durations,
) -> Result<Vec<u32>, AllocError>
    ensures { IfOk result (λ all. all.items
        ≡ flat_map (λ m. lengths_of durations.now m.observer m.subject) pairs.now) }
{
    let mut all = Vec::new(alloc);
    for pair in pairs {
        all.extend_from_slice(durations.of(pair.observer, pair.subject))?;
    }
    Ok(all)
}
