//! Bars of a trace, worked out by hand.
use crate::comparisons::{NO_MEMORY, same};
use crate::traces::{pid, trace_of};
use drawing::{Bar, bars_of};

/// Process 1 suspects process 2 at ticks 3 and 4, from tick 7 to 11, through a trust that it takes back at tick 9, and
/// not at tick 14, where it takes a suspicion back at once. On layer 2 it suspects it from tick 15 on. Process 2
/// suspects process 1 from tick 16 on.
const NOTED: &str = "0,1,1,0,start,1,0,
0,2,2,0,start,1,0,
3,1,1,1,check,0,0,suspect:1:2
5,1,1,2,check,0,0,trust:1:2
7,1,1,3,check,0,0,suspect:1:3 suspect:1:2
9,1,1,4,check,0,0,trust:1:2 suspect:1:2
12,1,1,5,check,0,0,trust:1:2
14,1,1,6,check,0,0,suspect:1:2 trust:1:2
15,1,1,7,share,0,0,suspect:2:2
16,2,2,1,check,0,0,suspect:1:1
";

/// A layer, an observer and a subject; from and until when its bars are asked for; and their begins and ends.
type Case = ((u8, u16, u16), (u32, u32), &'static [Bar]);

const CASES: [Case; 10] = [
    (
        (1, 1, 2),
        (0, 20),
        &[Bar { begin: 3, end: 5 }, Bar { begin: 7, end: 12 }],
    ),
    (
        (1, 1, 2),
        (4, 8),
        &[Bar { begin: 4, end: 5 }, Bar { begin: 7, end: 8 }],
    ),
    ((1, 1, 2), (8, 10), &[Bar { begin: 8, end: 10 }]),
    ((1, 1, 2), (11, 20), &[Bar { begin: 11, end: 12 }]),
    ((1, 1, 2), (5, 7), &[]),
    ((1, 1, 2), (6, 6), &[]),
    ((1, 1, 2), (8, 7), &[]),
    ((1, 1, 2), (12, 20), &[]),
    ((2, 1, 2), (0, 20), &[Bar { begin: 15, end: 20 }]),
    ((1, 2, 1), (0, 20), &[Bar { begin: 16, end: 20 }]),
];

#[test]
fn stretches(rt: HostRuntime) {
    let alloc = rt.alloc();
    let trace = trace_of(&rt, alloc, NOTED);
    for ((layer, observer, subject), (from, until), wanted) in &CASES {
        let (observer, subject) = (pid(&rt, *observer), pid(&rt, *subject));
        let bars = bars_of(alloc, &trace, *layer, observer, subject, *from, *until);
        let bars = bars.expect(&rt, NO_MEMORY);
        same(&rt, &bars.as_slice(), wanted);
    }
}
