//! The findings of a run, as tests expect them.
use crate::comparisons::same;
use crate::traces::pid;
use judges::{Answer, Outcome, Verdicts};
use reporting::{Detection, PairMeasures};
use std::process::Abort;

/// A pair of which nothing is counted.
pub fn quiet<R: Abort>(
    rt: &R,
    layer: u8,
    observer: u16,
    subject: u16,
    detection: Detection,
) -> PairMeasures {
    PairMeasures {
        layer,
        observer: pid(rt, observer),
        subject: pid(rt, subject),
        mistakes: 0,
        mistake_ticks: 0,
        recurrence_sum: 0,
        recurrence_count: 0,
        duration_sum: 0,
        duration_count: 0,
        good_sum: 0,
        good_count: 0,
        detection,
    }
}

/// Of a pair, given by its place, its layer, its observer and its subject, nothing is counted but this detection.
pub type Quiet = (usize, u8, u16, u16, Detection);

/// Nothing else is counted of these pairs.
pub fn are_quiet<R: Abort>(rt: &R, rows: &[PairMeasures], pairs: &[Quiet]) {
    for (place, layer, observer, subject, detection) in pairs {
        let wanted = quiet(rt, *layer, *observer, *subject, *detection);
        same(rt, &rows.get(*place).copied(), &Some(wanted));
    }
}

/// A process that decided this at a tick, in some round.
pub fn outcome<R: Abort>(
    rt: &R,
    number: u16,
    (value, tick, rounds): (Answer, Option<u32>, u64),
) -> Outcome {
    Outcome {
        pid: pid(rt, number),
        value,
        tick,
        rounds,
    }
}

/// The verdicts on detectors without a mistake that are complete from these ticks on: strongly, and weakly.
pub fn without_mistake(strong: Option<u32>, weak: Option<u32>) -> Verdicts {
    Verdicts {
        strong_completeness: strong,
        weak_completeness: weak,
        strong_accuracy: true,
        weak_accuracy: true,
        eventual_strong_accuracy: Some(0),
        eventual_weak_accuracy: Some(0),
    }
}
