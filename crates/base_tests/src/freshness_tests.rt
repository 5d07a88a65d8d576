//! The detector with freshness points, input by input.
use crate::comparisons::NO_MEMORY;
use crate::driving::{Row, drive_detector, opening_of};
use crate::inputs::Given::{Alive, Beat, Check, Heartbeat, Share, Start};
use process_api::{DetectorNumbers, FreshnessNumbers, Watch};
use scenario_record::AlgorithmKind;
use std::alloc::Global;
use std::process::Abort;
use timeout_detector::FreshnessDetector;

/// Process `own` of so many, with eta 3 and delta 2, suspects and does what the rows say.
fn watches(
    rt: &impl Abort,
    alloc: Global,
    (own, processes, watch): (u16, u16, Watch),
    rows: &[Row],
) {
    let numbers = FreshnessNumbers {
        eta: 3,
        delta: 2,
        watch,
    };
    let numbers = DetectorNumbers::Freshness(numbers);
    let opening = opening_of(
        rt,
        own,
        processes,
        100,
        numbers,
        None,
        AlgorithmKind::Idle,
        None,
    );
    let mut machine = FreshnessDetector::open(alloc, &opening).expect(rt, NO_MEMORY);
    drive_detector(rt, alloc, &mut machine, rows);
}

/// A heartbeat that is late at the first point.
const LATE: &[Row] = &[
    (7, &[], Start, "Beat+3 Check+5"),
    (7, &[], Beat, "heartbeat:1>2 Beat+3"),
    (7, &[2], Check, "suspect:1:2 Check+3"),
    (7, &[], Heartbeat(2, 1), "trust:1:2"),
    (7, &[], Beat, "heartbeat:2>2 Beat+3"),
    (7, &[2], Check, "suspect:1:2 Check+3"),
];

/// Nobody is suspected before the first point, whatever came.
const NOBODY_BEFORE: &[Row] = &[
    (7, &[], Start, "Beat+3 Check+5"),
    (7, &[], Heartbeat(2, 1), ""),
    (7, &[], Beat, "heartbeat:1>2 heartbeat:1>3 Beat+3"),
    (7, &[3], Check, "suspect:1:3 Check+3"),
    (7, &[2, 3], Check, "suspect:1:2 Check+3"),
];

#[test]
fn first_points(rt: HostRuntime) {
    watches(&rt, rt.alloc(), (1, 2, Watch::All), LATE);
    watches(&rt, rt.alloc(), (1, 3, Watch::All), NOBODY_BEFORE);
}

/// A heartbeat older than the last point brings no trust; one as late as the point, or later, does. A later one counts
/// for the points up to its number.
const FRESH: &[Row] = &[
    (7, &[2], Check, "suspect:1:2 Check+3"),
    (7, &[2], Check, "Check+3"),
    (7, &[2], Heartbeat(2, 1), ""),
    (7, &[], Heartbeat(2, 2), "trust:1:2"),
    (7, &[], Heartbeat(2, 2), ""),
    (7, &[], Heartbeat(2, 5), ""),
    (7, &[], Heartbeat(2, 3), ""),
    (7, &[], Check, "Check+3"),
    (7, &[], Check, "Check+3"),
    (7, &[], Check, "Check+3"),
    (7, &[2], Check, "suspect:1:2 Check+3"),
    (7, &[], Heartbeat(2, 1_000_000_000_001), "trust:1:2"),
];

#[test]
fn only_fresh_heartbeats_bring_trust(rt: HostRuntime) {
    watches(&rt, rt.alloc(), (1, 2, Watch::All), FRESH);
}

/// Under `next` the first of three watches the second alone, and sends to all others.
const FIRST_OF_THREE: &[Row] = &[
    (7, &[], Start, "Beat+3 Check+5"),
    (7, &[], Beat, "heartbeat:1>2 heartbeat:1>3 Beat+3"),
    (7, &[], Heartbeat(3, 1), ""),
    (7, &[2], Check, "suspect:1:2 Check+3"),
    (7, &[2], Heartbeat(4, 9), ""),
    (7, &[], Heartbeat(2, 1), "trust:1:2"),
];

/// A process that is alone watches nobody.
const ALONE: &[Row] = &[
    (7, &[], Start, "Beat+3 Check+5"),
    (7, &[], Beat, "Beat+3"),
    (7, &[], Check, "Check+3"),
];

/// Letters and wakes of other parts change nothing.
const OTHER_PARTS: &[Row] = &[
    (7, &[2], Check, "suspect:1:2 Check+3"),
    (7, &[2], Alive(2), ""),
    (7, &[2], Share, ""),
    (7, &[], Heartbeat(2, 1), "trust:1:2"),
];

#[test]
fn watch_next(rt: HostRuntime) {
    watches(&rt, rt.alloc(), (1, 3, Watch::Next), FIRST_OF_THREE);
    watches(&rt, rt.alloc(), (1, 1, Watch::Next), ALONE);
    watches(&rt, rt.alloc(), (1, 2, Watch::All), OTHER_PARTS);
}
