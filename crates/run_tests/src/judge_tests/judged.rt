//! Verdicts.
use crate::comparisons::{NO_MEMORY, same};
use crate::traces::{ONE_CRASH, SHARED, scenario_of, trace_of};
use judges::{Verdicts, judge};

/// One suspicion is taken back in its tick, and one lasts.
const TAKEN_BACK: &str = "2,1,1,2,check,0,0,suspect:1:2
2,1,2,1,alive,0,0,trust:1:2
2,2,1,1,alive,0,0,
4,2,2,3,check,0,0,suspect:1:1
";

const MISTAKEN: &str = "1,1,1,2,check,0,0,suspect:1:2
1,2,2,2,check,0,0,suspect:1:1
2,1,2,1,alive,0,0,trust:1:2
2,2,1,1,alive,0,0,trust:1:1
4,1,1,7,check,0,0,suspect:1:2
4,2,2,7,check,0,0,suspect:1:1
";

/// From when on detectors are complete or accurate, strongly and weakly.
type Ticks = (Option<u32>, Option<u32>);

/// A run, by its processes, its horizon and its crashes; the layer that is judged, and the entries; then from when on
/// the detectors are complete, whether they are accurate, and from when on they are.
type Case = (
    (u16, u32, &'static str),
    u8,
    &'static str,
    Ticks,
    (bool, bool),
    Ticks,
);

/// A crash that is suspected at tick 9; a process that crashes at the horizon, which is correct; and one that is
/// suspected by one observer alone, but for the reduction.
///
/// A suspicion that is taken back in its tick isn't counted, and one that lasts is; and both may be mistaken.
///
/// With crashed processes and no correct one, the other verdicts are what they are over nobody. A process that crashes
/// suspects a correct one before, which is a mistake, though no correct process makes one.
const CASES: [Case; 8] = [
    (
        (2, 10, "crash = [{ process = 2, at = 3 }]"),
        1,
        ONE_CRASH,
        (Some(9), Some(9)),
        (true, true),
        (Some(0), Some(0)),
    ),
    (
        (2, 10, "crash = [{ process = 2, at = 10 }]"),
        1,
        "0,1,1,0,start,1,0,\n",
        (Some(0), Some(0)),
        (true, true),
        (Some(0), Some(0)),
    ),
    (
        (3, 20, "crash = [{ process = 2, at = 0 }]"),
        1,
        SHARED,
        (None, Some(6)),
        (true, true),
        (Some(0), Some(0)),
    ),
    (
        (3, 20, "crash = [{ process = 2, at = 0 }]"),
        2,
        SHARED,
        (Some(10), Some(9)),
        (true, true),
        (Some(0), Some(0)),
    ),
    (
        (2, 8, ""),
        1,
        TAKEN_BACK,
        (Some(0), Some(0)),
        (false, true),
        (None, Some(0)),
    ),
    (
        (2, 10, ""),
        1,
        MISTAKEN,
        (Some(0), Some(0)),
        (false, false),
        (None, None),
    ),
    (
        (
            2,
            10,
            "crash = [{ process = 1, at = 5 }, { process = 2, at = 3 }]",
        ),
        1,
        "4,1,1,2,check,0,0,suspect:1:2\n",
        (Some(0), None),
        (true, false),
        (Some(0), None),
    ),
    (
        (2, 10, "crash = [{ process = 2, at = 3 }]"),
        1,
        "2,2,2,2,check,0,0,suspect:1:1\n",
        (None, None),
        (false, false),
        (Some(0), Some(0)),
    ),
];

#[test]
fn verdicts(rt: HostRuntime) {
    let alloc = rt.alloc();
    for ((processes, horizon, crashes), layer, rows, complete, accurate, accurate_from) in &CASES {
        let scenario = scenario_of(&rt, alloc, *processes, *horizon, crashes);
        let trace = trace_of(&rt, alloc, rows);
        let layer = if *layer == 1 { 1 } else { 2 };
        let verdicts = judge(alloc, &scenario, &trace, layer).expect(&rt, NO_MEMORY);
        let wanted = Verdicts {
            strong_completeness: complete.0,
            weak_completeness: complete.1,
            strong_accuracy: accurate.0,
            weak_accuracy: accurate.1,
            eventual_strong_accuracy: accurate_from.0,
            eventual_weak_accuracy: accurate_from.1,
        };
        same(&rt, &verdicts, &wanted);
    }
}
