//! Measures.
use crate::comparisons::{NO_MEMORY, same};
use crate::findings::{Quiet, are_quiet, quiet};
use crate::traces::{ONE_CRASH, SHARED, scenario_of, trace_of};
use reporting::{Detection, Meter, PairMeasures};
use runs::measures;
use std::alloc::Global;
use std::process::Abort;

/// The measures of a run of these entries.
fn measures_of<R: Abort>(
    rt: &R,
    alloc: Global,
    (processes, horizon): (u16, u32),
    more: &str,
    rows: &str,
) -> Vec<PairMeasures> {
    let scenario = scenario_of(rt, alloc, processes, horizon, more);
    let trace = trace_of(rt, alloc, rows);
    measures(alloc, &scenario, &trace).expect(rt, NO_MEMORY)
}

/// What is measured where process 1 detects a crash of process 2 after 6 ticks.
const DETECTED_AFTER_6: [Quiet; 2] = [(0, 1, 1, 2, Detection::At(6)), (1, 1, 2, 1, Detection::Na)];

const CRASH_AT_3: &str = "crash = [{ process = 2, at = 3 }]";

const CRASH_AT_START: &str = "crash = [{ process = 2, at = 0 }]";

/// What is noted at the horizon or later says nothing of the ticks before it.
const AT_THE_HORIZON: &str = "9,1,1,5,check,0,0,suspect:1:2
10,1,1,6,check,0,0,trust:1:2
11,1,1,7,check,0,0,suspect:1:2
11,2,2,3,check,0,0,suspect:1:1
";

/// A suspicion that is taken back in its tick, and one that lasts to the horizon.
const TAKEN_BACK: &str = "0,1,1,0,start,1,0,
0,2,2,0,start,1,0,
2,1,1,2,check,0,0,suspect:1:2
2,1,2,1,alive,0,0,trust:1:2
2,2,1,1,alive,0,0,
2,2,2,2,check,0,0,
4,1,1,3,check,0,0,
4,2,2,3,check,0,0,suspect:1:1
6,1,1,4,check,0,0,
6,2,2,4,check,0,0,
";

/// Processes and a horizon, tables and entries; how many pairs are measured, and pairs of which nothing is counted.
type Case = (
    (u16, u32),
    &'static str,
    &'static str,
    usize,
    &'static [Quiet],
);

/// A process that crashes at the horizon is correct, and nobody is suspected; or nobody finds a crash before the
/// horizon. A suspicion that is taken back in its tick isn't counted.
///
/// With a reduction there is a second layer: the rows of layer 1, then those of layer 2, by observer and by subject.
/// Without one there is one layer, whatever the notes say. One process has nobody to suspect.
const CASES: [Case; 9] = [
    ((2, 10), CRASH_AT_3, ONE_CRASH, 2, &DETECTED_AFTER_6),
    ((2, 10), CRASH_AT_3, AT_THE_HORIZON, 2, &DETECTED_AFTER_6),
    (
        (2, 10),
        CRASH_AT_START,
        "0,1,1,0,start,1,0,\n0,2,2,0,dead,0,0,\n6,1,1,3,check,0,0,suspect:1:2\n",
        2,
        &DETECTED_AFTER_6,
    ),
    (
        (2, 10),
        "crash = [{ process = 2, at = 10 }]",
        "0,1,1,0,start,1,0,\n",
        2,
        &[(0, 1, 1, 2, Detection::Na), (1, 1, 2, 1, Detection::Na)],
    ),
    (
        (2, 10),
        CRASH_AT_3,
        "0,1,1,0,start,1,0,\n",
        2,
        &[(0, 1, 1, 2, Detection::NoTick)],
    ),
    ((2, 8), "", TAKEN_BACK, 2, &[(0, 1, 1, 2, Detection::Na)]),
    (
        (3, 20),
        "crash = [{ process = 2, at = 0 }]\nshare = { period = 4 }",
        SHARED,
        12,
        &[
            (0, 1, 1, 2, Detection::At(6)),
            (1, 1, 1, 3, Detection::Na),
            (2, 1, 2, 1, Detection::Na),
            (5, 1, 3, 2, Detection::NoTick),
            (6, 2, 1, 2, Detection::At(9)),
            (11, 2, 3, 2, Detection::At(10)),
        ],
    ),
    (
        (3, 20),
        CRASH_AT_START,
        SHARED,
        6,
        &[(5, 1, 3, 2, Detection::NoTick)],
    ),
    ((1, 1), "", "0,1,1,0,start,0,0,\n", 0, &[]),
];

#[test]
fn detections(rt: HostRuntime) {
    for (size, more, rows, count, pairs) in &CASES {
        let rows = measures_of(&rt, rt.alloc(), *size, more, rows);
        same(&rt, &rows.len(), count);
        are_quiet(&rt, &rows, pairs);
    }
}

const TWO_MISTAKES: &str = "0,1,1,0,start,3,0,round:1
0,2,2,0,start,3,0,round:1
1,1,1,2,check,0,0,suspect:1:2
1,1,1,3,vector,2,0,round:2
1,2,2,2,check,0,0,suspect:1:1
1,2,2,3,vector,2,0,round:2
2,1,1,4,check,0,0,
2,1,1,5,last,0,0,decided:10
2,1,2,1,alive,0,0,trust:1:2
2,1,2,2,vector,0,0,
2,2,1,1,alive,0,0,trust:1:1
2,2,1,2,vector,0,0,
2,2,2,4,check,0,0,
2,2,2,5,last,0,0,
3,1,1,6,check,0,0,
3,1,2,3,last,0,0,
3,2,1,3,last,0,0,novalue
3,2,2,6,check,0,0,
4,1,1,7,check,0,0,suspect:1:2
4,2,2,7,check,0,0,suspect:1:1
9,1,1,12,check,0,0,
9,2,2,12,check,0,0,
";

/// A mistake that lasts to the horizon has no end, so it has no duration. A meter that is fed entry by entry tells what
/// is told of the finished trace.
#[test]
fn mistakes(rt: HostRuntime) {
    let alloc = rt.alloc();
    let lasting = PairMeasures {
        mistakes: 1,
        mistake_ticks: 4,
        ..quiet(&rt, 1, 2, 1, Detection::Na)
    };
    let rows = measures_of(&rt, alloc, (2, 8), "", TAKEN_BACK);
    same(&rt, &rows.get(1).copied(), &Some(lasting));
    let twice = PairMeasures {
        mistakes: 2,
        mistake_ticks: 7,
        recurrence_sum: 3,
        recurrence_count: 1,
        duration_sum: 1,
        duration_count: 1,
        good_sum: 2,
        good_count: 1,
        ..quiet(&rt, 1, 1, 2, Detection::Na)
    };
    let rows = measures_of(&rt, alloc, (2, 10), "", TWO_MISTAKES);
    same(&rt, &rows.first().copied(), &Some(twice));
    let scenario = scenario_of(&rt, alloc, 2, 10, "");
    let mut meter = Meter::open(&scenario, 1, twice.observer, twice.subject);
    for entry in trace_of(&rt, alloc, TWO_MISTAKES).entries() {
        meter.feed(entry);
    }
    same(&rt, &meter.close(), &twice);
}
