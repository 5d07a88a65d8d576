//! The time-out detector, input by input.
ghost use Rattle.std.specs.Prelude.{◌≤◌};
ghost use Rattle.scenario_record.specs.Ranges.{AreTimeoutInRange};

use crate::comparisons::NO_MEMORY;
use crate::driving::{Row, drive_detector, opening_of};
use crate::inputs::Given::{Alive, Beat, Check, Share, Start};
use process_api::{DetectorNumbers, TimeoutNumbers, Watch};
use scenario_record::AlgorithmKind;
use std::alloc::Global;
use std::process::Abort;
use timeout_detector::TimeoutDetector;

/// Process `own` of so many, under this horizon and these numbers, suspects and does what the rows say.
fn watches(
    rt: &impl Abort,
    alloc: Global,
    own: u16,
    processes: u16,
    horizon: u32,
    numbers: TimeoutNumbers,
    rows: &[Row],
)
    requires lasts { (1 ≤ horizon) × (horizon ≤ 10000000) }
    requires numbers { AreTimeoutInRange numbers }
{
    let numbers = DetectorNumbers::Timeout(numbers);
    let opening = opening_of(
        rt,
        own,
        processes,
        horizon,
        numbers,
        None,
        AlgorithmKind::Idle,
        None,
    );
    let mut machine = TimeoutDetector::open(alloc, &opening).expect(rt, NO_MEMORY);
    drive_detector(rt, alloc, &mut machine, rows);
}

/// Numbers under which a silent process is suspected by the second or third check.
const NUMBERS: TimeoutNumbers = TimeoutNumbers {
    period: 4,
    check: 3,
    timeout: 5,
    grow: 1,
    watch: Watch::All,
};

/// The second of two crashes at tick 3.
const CRASH_AT_3: &[Row] = &[
    (0, &[], Start, "alive>2 Beat+4 Check+3"),
    (2, &[], Alive(2), ""),
    (3, &[], Check, "Check+3"),
    (4, &[], Beat, "alive>2 Beat+4"),
    (6, &[], Check, "Check+3"),
    (8, &[], Beat, "alive>2 Beat+4"),
    (9, &[2], Check, "suspect:1:2 Check+3"),
];

/// It crashes right at the start.
const CRASH_AT_0: &[Row] = &[
    (0, &[], Start, "alive>2 Beat+4 Check+3"),
    (3, &[], Check, "Check+3"),
    (4, &[], Beat, "alive>2 Beat+4"),
    (6, &[2], Check, "suspect:1:2 Check+3"),
    (8, &[2], Beat, "alive>2 Beat+4"),
    (9, &[2], Check, "Check+3"),
];

#[test]
fn crashes(rt: HostRuntime) {
    watches(&rt, rt.alloc(), 1, 2, 10, NUMBERS, CRASH_AT_3);
    watches(&rt, rt.alloc(), 1, 2, 10, NUMBERS, CRASH_AT_0);
}

/// A suspicion that is taken back inside one tick makes the bound grow.
const TAKEN_BACK: &[Row] = &[
    (0, &[], Start, "alive>2 Beat+100 Check+2"),
    (2, &[2], Check, "suspect:1:2 Check+2"),
    (2, &[], Alive(2), "trust:1:2"),
    (4, &[], Check, "Check+2"),
    (6, &[], Check, "Check+2"),
];

/// What comes before the check prevents a suspicion.
const PREVENTED: &[Row] = &[
    (0, &[], Start, "alive>1 Beat+100 Check+2"),
    (2, &[], Alive(1), ""),
    (2, &[], Check, "Check+2"),
    (4, &[1], Check, "suspect:1:1 Check+2"),
    (6, &[1], Check, "Check+2"),
];

#[test]
fn suspicion_taken_back_at_once(rt: HostRuntime) {
    let numbers = TimeoutNumbers {
        period: 100,
        check: 2,
        timeout: 2,
        grow: 5,
        watch: Watch::All,
    };
    watches(&rt, rt.alloc(), 1, 2, 8, numbers, TAKEN_BACK);
    watches(&rt, rt.alloc(), 2, 2, 8, numbers, PREVENTED);
}

/// The first of three watches the second, and sends to all others.
const FIRST_OF_THREE: &[Row] = &[
    (0, &[], Start, "alive>2 alive>3 Beat+2 Check+3"),
    (2, &[], Alive(3), ""),
    (3, &[], Check, "Check+3"),
    (4, &[], Alive(3), ""),
    (6, &[2], Check, "suspect:1:2 Check+3"),
    (100, &[2], Check, "Check+3"),
    (101, &[2], Alive(4), ""),
];

/// The last of three watches the first.
const LAST_OF_THREE: &[Row] = &[
    (0, &[], Start, "alive>1 alive>2 Beat+2 Check+3"),
    (2, &[], Alive(1), ""),
    (6, &[], Check, "Check+3"),
    (7, &[1], Check, "suspect:1:1 Check+3"),
];

/// A process that is alone watches nobody.
const ALONE: &[Row] = &[
    (0, &[], Start, "Beat+2 Check+3"),
    (9, &[], Check, "Check+3"),
];

/// Each process watches the next one alone.
#[test]
fn watch_next(rt: HostRuntime) {
    let numbers = TimeoutNumbers {
        period: 2,
        check: 3,
        timeout: 5,
        grow: 1,
        watch: Watch::Next,
    };
    watches(&rt, rt.alloc(), 1, 3, 20, numbers, FIRST_OF_THREE);
    watches(&rt, rt.alloc(), 3, 3, 20, numbers, LAST_OF_THREE);
    watches(&rt, rt.alloc(), 1, 1, 20, numbers, ALONE);
}

/// Bounds grow by 3 ticks with each mistake: 2, 5, 8 and no further than the horizon.
const GROWN: &[Row] = &[
    (2, &[2], Check, "suspect:1:2 Check+1"),
    (3, &[], Alive(2), "trust:1:2"),
    (7, &[], Check, "Check+1"),
    (8, &[2], Check, "suspect:1:2 Check+1"),
    (10, &[], Alive(2), "trust:1:2"),
    (11, &[], Alive(2), ""),
    (18, &[], Check, "Check+1"),
    (19, &[2], Check, "suspect:1:2 Check+1"),
    (20, &[], Alive(2), "trust:1:2"),
    (28, &[], Check, "Check+1"),
    (29, &[2], Check, "suspect:1:2 Check+1"),
];

/// A bound above the horizon, here 12, stays.
const ABOVE_THE_HORIZON: &[Row] = &[
    (12, &[2], Check, "suspect:1:2 Check+1"),
    (20, &[], Alive(2), "trust:1:2"),
    (5, &[], Check, "Check+1"),
    (31, &[], Check, "Check+1"),
    (32, &[], Share, ""),
    (32, &[2], Check, "suspect:1:2 Check+1"),
];

#[test]
fn grown_bounds(rt: HostRuntime) {
    let numbers = TimeoutNumbers {
        period: 9,
        check: 1,
        timeout: 2,
        grow: 3,
        watch: Watch::All,
    };
    watches(&rt, rt.alloc(), 1, 2, 9, numbers, GROWN);
    watches(
        &rt,
        rt.alloc(),
        1,
        2,
        9,
        TimeoutNumbers {
            timeout: 12,
            ..numbers
        },
        ABOVE_THE_HORIZON,
    );
}
