//! Runs that meet the bounds of their detectors exactly, and runs with a mistake, where a condition fails by one tick.

use crate::common::{NO_MEMORY, changed, same, scenario_of};
use crate::judged::trace_of;
use reporting::Detection;
use runs::measures;
use std::alloc::Global;
use std::process::Abort;

/// Two processes, of which one crashes; or none, where that is at the horizon.
const TWO: &str = "version = 2
processes = 2
horizon = 60
lookahead = 1
seed = 1
algorithm = \"none\"
detector = { DETECTOR }
link = { LINK }
crash = [{ CRASH }]
";

/// Nobody crashes below the horizon.
const NEVER: &str = "process = 1, at = 60";

/// Letters that take 2 ticks each.
const TWO_TICKS: &str = "min = 2, max = 2";

/// Freshness points at ticks 13, 23 and so on.
const FRESH: &str = "kind = \"freshness\", eta = 10, delta = 3";

/// A detector, a link and a crash; how many processes come before the observer; how long that one took to detect the
/// other's crash, its mistakes and their ticks.
type Case = ([&'static str; 3], usize, (Detection, u64, u64));

/// Crashes that are detected at the very tick of the bound.
///
/// Under time-outs the last letter is sent at tick 4 and comes at 6. The observer bears with 4 ticks of silence, so
/// that the check at tick 12 finds it overdue: `max`, the time-out and `check` after the crash, less 2. Of a process
/// that crashes at once no letter comes, and the check at tick 6 finds 4 ticks of silence: the time-out and `check`
/// later, less 1. One that crashes at tick 4 sends none then: the last one comes at tick 2, and the check at tick 6
/// finds it overdue. The fourth observer suspected and trusted at tick 6, and so bears with 3 ticks more: the last
/// letter comes at tick 10, and it suspects at tick 15. The fifth suspected at ticks 1 and 4 and trusted at ticks 2
/// and 6, with the letters of ticks 0 and 4, and so bears with 3 ticks in place of 1: it suspects at tick 9.
///
/// Of freshness points the third, at tick 33, finds no heartbeat of the process that crashes at tick 21: `eta` and
/// `delta` after the crash, less 1. Nor does the first of one that crashes at once, `eta` and `delta` later. What is
/// to be sent at the crash's own tick isn't.
const DETECTED: [Case; 8] = [
    (
        [
            "period = 4, check = 3, timeout = 4, grow = 1",
            TWO_TICKS,
            "process = 1, at = 5",
        ],
        1,
        (Detection::At(7), 0, 0),
    ),
    (
        [
            "period = 4, check = 3, timeout = 4, grow = 1",
            TWO_TICKS,
            "process = 1, at = 0",
        ],
        1,
        (Detection::At(6), 0, 0),
    ),
    (
        [
            "period = 4, check = 3, timeout = 4, grow = 1",
            TWO_TICKS,
            "process = 1, at = 4",
        ],
        1,
        (Detection::At(2), 0, 0),
    ),
    (
        [
            "period = 4, check = 3, timeout = 2, grow = 3",
            TWO_TICKS,
            "process = 2, at = 9",
        ],
        0,
        (Detection::At(6), 0, 0),
    ),
    (
        [
            "period = 4, check = 1, timeout = 1, grow = 1",
            TWO_TICKS,
            "process = 2, at = 8",
        ],
        0,
        (Detection::At(1), 2, 3),
    ),
    (
        [FRESH, "min = 3, max = 3", "process = 1, at = 21"],
        1,
        (Detection::At(12), 0, 0),
    ),
    (
        [FRESH, "min = 3, max = 3", "process = 1, at = 0"],
        1,
        (Detection::At(13), 0, 0),
    ),
    (
        [FRESH, "min = 3, max = 3", "process = 1, at = 20"],
        1,
        (Detection::At(3), 0, 0),
    ),
];

/// Pairs without a mistake, and what becomes of them where a condition lacks by one tick.
///
/// The first letter comes at tick 5, and with one tick less of time-out it is late. Letters come 4 ticks apart, and
/// with one tick less the first is late; then the bound has grown. They come 6 ticks apart at most, where one takes 1
/// tick and the next one 3; with one tick less such a one is late, though it takes less than the time-out. Heartbeats
/// come at the tick of their point, or one tick after it.
const ACCURATE: [Case; 8] = [
    (
        [
            "period = 4, check = 1, timeout = 5, grow = 1",
            "min = 5, max = 5",
            NEVER,
        ],
        0,
        (Detection::Na, 0, 0),
    ),
    (
        [
            "period = 4, check = 1, timeout = 4, grow = 1",
            "min = 5, max = 5",
            NEVER,
        ],
        0,
        (Detection::Na, 1, 1),
    ),
    (
        [
            "period = 4, check = 1, timeout = 4, grow = 1",
            TWO_TICKS,
            NEVER,
        ],
        0,
        (Detection::Na, 0, 0),
    ),
    (
        [
            "period = 4, check = 1, timeout = 3, grow = 1",
            TWO_TICKS,
            NEVER,
        ],
        0,
        (Detection::Na, 1, 1),
    ),
    (
        [
            "period = 4, check = 1, timeout = 6, grow = 1",
            "min = 1, max = 3",
            NEVER,
        ],
        0,
        (Detection::Na, 0, 0),
    ),
    (
        [
            "period = 4, check = 1, timeout = 5, grow = 1",
            "min = 1, max = 3",
            NEVER,
        ],
        0,
        (Detection::Na, 1, 1),
    ),
    ([FRESH, "min = 3, max = 3", NEVER], 0, (Detection::Na, 0, 0)),
    ([FRESH, "min = 4, max = 4", NEVER], 0, (Detection::Na, 5, 5)),
];

/// Three processes, each of which watches the next one and shares whom it suspects every 10 ticks. Process 2 crashes
/// at tick 21, and its last set is from tick 20.
const SHARED: &str = "version = 2
processes = 3
horizon = 100
lookahead = 1
seed = 1
algorithm = \"none\"
detector = { kind = \"freshness\", watch = \"next\", eta = 5, delta = DELTA }
share = { period = 10 }
link = { min = 1, max = 1 }
links = [{ from = 1, to = 3, min = 4, max = 4 }, { from = 2, to = 3, min = SLOW, max = SLOW }]
crash = [{ process = 2, at = 21 }]
";

/// How long letters of process 2 take to process 3, the detector's `delta`, the place of a pair's row on layer 2, and
/// how long its observer takes to detect the crash of process 2 on layer 2.
///
/// With a `delta` of 4 process 1 suspects it from tick 29 on. It hears of that itself at tick 31, by its share of tick
/// 30, and process 3 hears of it at tick 34. With a `delta` of 5 process 1 suspects it from tick 30 on. The share of
/// that tick doesn't have it yet, so that all hear of it ten ticks later.
///
/// Where the last set of process 2 comes to process 3 at tick 43, process 3 trusts it again. The share of tick 40 comes
/// at tick 44, just behind that set, and so process 3 suspects it from there on: `min` is taken off, or the share of
/// tick 50 would be meant, which comes at tick 54. Where the last set comes one tick later, at tick 44, it comes behind
/// the share of tick 40 in that tick, and the share of tick 50 is the first that comes behind it.
const SHARED_IN_TIME: [(&str, &str, usize, u32); 6] = [
    ("1", "4", OF_ITSELF, 31 - 21),
    ("1", "5", OF_ITSELF, 41 - 21),
    ("1", "4", OF_ANOTHER, 34 - 21),
    ("1", "5", OF_ANOTHER, 44 - 21),
    ("23", "4", OF_ANOTHER, 44 - 21),
    ("24", "4", OF_ANOTHER, 54 - 21),
];

/// The place of the row of processes 1 and 2 on layer 2, of which process 1 is the one that watches.
const OF_ITSELF: usize = 6;

/// The place of the row of processes 3 and 2 on layer 2.
const OF_ANOTHER: usize = 11;

/// What the observer of a run finds of the other process.
fn found<R: Abort>(
    rt: &R,
    alloc: Global,
    [detector, link, crash]: &[&str; 3],
    place: usize,
) -> (Detection, u64, u64) {
    let file = changed(rt, alloc, TWO, "DETECTOR", detector);
    let file = changed(rt, alloc, &file, "LINK", link);
    let file = changed(rt, alloc, &file, "CRASH", crash);
    let scenario = scenario_of(rt, alloc, &file);
    let trace = trace_of(rt, alloc, &scenario);
    let rows = measures(alloc, &scenario, &trace).expect(rt, NO_MEMORY);
    let row = rows.get(place).expect(rt, "a pair is missing");
    (row.detection, row.mistakes, row.mistake_ticks)
}

/// Each observer finds what it has to.
fn are_found<R: Abort>(rt: &R, alloc: Global, cases: &[Case]) {
    for (parts, place, wanted) in cases {
        let came = found(rt, alloc, parts, *place);
        same(rt, &(parts[0], came), &(parts[0], *wanted));
    }
}

#[test]
fn detected_just_in_time(rt: HostRuntime) {
    are_found(&rt, rt.alloc(), &DETECTED);
}

#[test]
fn one_tick_less_brings_a_mistake(rt: HostRuntime) {
    are_found(&rt, rt.alloc(), &ACCURATE);
}

#[test]
fn shared_in_time(rt: HostRuntime) {
    let alloc = rt.alloc();
    for (slow, delta, place, ticks) in &SHARED_IN_TIME {
        let file = changed(&rt, alloc, SHARED, "SLOW", slow);
        let scenario = scenario_of(&rt, alloc, &changed(&rt, alloc, &file, "DELTA", delta));
        let trace = trace_of(&rt, alloc, &scenario);
        let rows = measures(alloc, &scenario, &trace).expect(&rt, NO_MEMORY);
        let row = rows.get(*place).expect(&rt, "a pair is missing");
        let came = (row.layer, row.subject.number(), row.detection);
        same(&rt, &came, &(2, 2, Detection::At(*ticks)));
    }
}
