//! Percentiles of the times after which crashes were detected.
use super::points::{crash_at_3, first_of, one_crash, run_of, sums_of};
use crate::comparisons::{NO_MEMORY, same};
use crate::findings::quiet;
use reporting::Detection::{self, At, NoTick};
use std::alloc::Global;
use std::process::Abort;
use sweep::{Columns, Distribution, Group, RunNumbers, UnitSums};

/// What a run gives in which crashes are detected like this, one for each pair.
fn run_with<R: Abort>(rt: &R, alloc: Global, detections: &[Detection]) -> RunNumbers {
    let mut found = one_crash(rt, alloc, None, Detection::Na);
    for detection in detections {
        let pair = quiet(rt, 1, 1, 2, *detection);
        found.measures.push(pair).expect(rt, NO_MEMORY);
    }
    run_of(rt, alloc, &crash_at_3(rt, alloc), &found)
}

/// So many times with this sum, the percentiles 50, 90 and 99, and the greatest.
fn are_times<R: Abort>(
    rt: &R,
    columns: &Columns,
    (count, sum): (u128, u128),
    [p50, p90, p99, greatest]: [Option<u128>; 4],
) {
    let wanted = Distribution {
        count,
        p50,
        p90,
        p99,
        greatest,
    };
    same(rt, &columns.detections, &wanted);
    same(rt, &columns.sums.pairs.detection_sum, &sum);
}

/// The detections of one run, how many have a time and the sum of these, and their percentiles 50, 90 and 99 and the
/// greatest.
type Case = (&'static [Detection], (u128, u128), [Option<u128>; 4]);

/// The textbook's five values; values that come often; four crashes, of which one was suspected already and one is
/// never detected, so 90 in 100 of them aren't; and a crash that nobody detects.
const CASES: [Case; 4] = [
    (
        &[At(40), At(15), At(50), At(20), At(35)],
        (5, 160),
        [Some(35), Some(50), Some(50), Some(50)],
    ),
    (
        &[
            At(7),
            At(3),
            At(3),
            At(3),
            At(3),
            At(3),
            At(3),
            At(3),
            At(3),
            At(9),
        ],
        (10, 40),
        [Some(3), Some(7), Some(9), Some(9)],
    ),
    (
        &[At(5), NoTick, At(0), At(8)],
        (3, 13),
        [Some(5), None, None, Some(8)],
    ),
    (&[NoTick], (0, 0), [None; 4]),
];

/// The detections of one run; the times from 50 up to 100 and then from 1 to 49, each of a run of its own; and none.
/// The longest is that of run 51.
#[test]
fn percentiles(rt: HostRuntime) {
    let alloc = rt.alloc();
    for (detections, counts, wanted) in &CASES {
        let run = run_with(&rt, alloc, detections);
        let sums = sums_of(&rt, alloc, &[Group::All], 1, &[run]);
        are_times(&rt, &first_of(&rt, &sums), *counts, *wanted);
    }
    let mut hundred = UnitSums::new(alloc, &[Group::All], 1).expect(&rt, NO_MEMORY);
    for before in 0..100 {
        let time = (before + 49) % 100 + 1;
        let run = run_with(&rt, alloc, &[At(time)]);
        hundred.add(&run).expect(&rt, NO_MEMORY);
    }
    let columns = first_of(&rt, &hundred);
    are_times(
        &rt,
        &columns,
        (100, 5050),
        [Some(50), Some(90), Some(99), Some(100)],
    );
    same(&rt, &columns.first_runs.detection_max, &Some(51));
    let none = sums_of(&rt, alloc, &[Group::All], 1, &[]);
    are_times(&rt, &first_of(&rt, &none), (0, 0), [None; 4]);
}
