//! Machines of consensus with S, driven by hand.
mod laws;

use crate::comparisons::NO_MEMORY;
use crate::driving::{Row, TIMEOUTS, drive_algorithm, opening_of};
use crate::inputs::Given::{Alive, Check, Last, Start, Vector};
use consensus_s::SConsensus;
use scenario_record::AlgorithmKind;
use std::alloc::Global;
use std::process::Abort;

/// Process `own` of so many, with this proposal, does what the rows say.
fn exchanges(
    rt: &impl Abort,
    alloc: Global,
    (own, processes, proposal): (u16, u16, u32),
    rows: &[Row],
) {
    let kind = AlgorithmKind::Strong;
    let opening = opening_of(rt, own, processes, 20, TIMEOUTS, None, kind, Some(proposal));
    let mut machine = SConsensus::open(alloc, &opening).expect(rt, NO_MEMORY);
    drive_algorithm(rt, alloc, &opening, &mut machine, rows);
}

/// Two processes suspect each other at tick 1, before any letter came: the first decides its own.
const FIRST_OF_TWO: &[Row] = &[
    (0, &[], Start, "round:1 vector:1[10 -]>1 vector:1[10 -]>2"),
    (1, &[2], Check, ""),
    (
        1,
        &[2],
        Vector(1, 1, &[Some(10), None]),
        "round:2 last[10 -]>1 last[10 -]>2",
    ),
    (2, &[2], Check, ""),
    (2, &[2], Last(1, &[Some(10), None]), "decided:10"),
    (2, &[], Alive(2), ""),
    (2, &[], Vector(2, 1, &[None, Some(20)]), ""),
    (3, &[], Check, ""),
    (3, &[], Last(2, &[None, Some(20)]), ""),
    (4, &[2], Check, ""),
];

/// The second ends with no value.
const SECOND_OF_TWO: &[Row] = &[
    (0, &[], Start, "round:1 vector:1[- 20]>1 vector:1[- 20]>2"),
    (1, &[1], Check, ""),
    (
        1,
        &[1],
        Vector(2, 1, &[None, Some(20)]),
        "round:2 last[- 20]>1 last[- 20]>2",
    ),
    (2, &[], Alive(1), ""),
    (2, &[], Vector(1, 1, &[Some(10), None]), ""),
    (2, &[], Check, ""),
    (2, &[], Last(2, &[None, Some(20)]), ""),
    (3, &[], Last(1, &[Some(10), None]), "novalue"),
    (3, &[], Check, ""),
    (4, &[1], Check, ""),
];

#[test]
fn early_suspicions(rt: HostRuntime) {
    exchanges(&rt, rt.alloc(), (1, 2, 10), FIRST_OF_TWO);
    exchanges(&rt, rt.alloc(), (2, 2, 20), SECOND_OF_TWO);
}

/// Of three processes the first is crashed at tick 0, and is suspected from tick 6 on: the second decides 20.
const SECOND_OF_THREE: &[Row] = &[
    (
        0,
        &[],
        Start,
        "round:1 vector:1[- 20 -]>1 vector:1[- 20 -]>2 vector:1[- 20 -]>3",
    ),
    (1, &[], Vector(2, 1, &[None, Some(20), None]), ""),
    (2, &[], Vector(3, 1, &[None, None, Some(30)]), ""),
    (
        6,
        &[1],
        Check,
        "round:2 vector:2[- - 30]>1 vector:2[- - 30]>2 vector:2[- - 30]>3",
    ),
    (7, &[1], Vector(2, 2, &[None, None, Some(30)]), ""),
    (
        8,
        &[1],
        Vector(3, 2, &[None, Some(20), None]),
        "round:3 last[- 20 30]>1 last[- 20 30]>2 last[- 20 30]>3",
    ),
    (9, &[1], Last(2, &[None, Some(20), Some(30)]), ""),
    (10, &[1], Last(3, &[None, Some(20), Some(30)]), "decided:20"),
];

/// The third decides 20 too.
const THIRD_OF_THREE: &[Row] = &[
    (
        0,
        &[],
        Start,
        "round:1 vector:1[- - 30]>1 vector:1[- - 30]>2 vector:1[- - 30]>3",
    ),
    (1, &[], Vector(3, 1, &[None, None, Some(30)]), ""),
    (2, &[], Vector(2, 1, &[None, Some(20), None]), ""),
    (
        6,
        &[1],
        Check,
        "round:2 vector:2[- 20 -]>1 vector:2[- 20 -]>2 vector:2[- 20 -]>3",
    ),
    (7, &[1], Vector(3, 2, &[None, Some(20), None]), ""),
    (
        8,
        &[1],
        Vector(2, 2, &[None, None, Some(30)]),
        "round:3 last[- 20 30]>1 last[- 20 30]>2 last[- 20 30]>3",
    ),
    (9, &[1], Last(3, &[None, Some(20), Some(30)]), ""),
    (10, &[1], Last(2, &[None, Some(20), Some(30)]), "decided:20"),
];

#[test]
fn crash_of_the_first(rt: HostRuntime) {
    exchanges(&rt, rt.alloc(), (2, 3, 20), SECOND_OF_THREE);
    exchanges(&rt, rt.alloc(), (3, 3, 30), THIRD_OF_THREE);
}

/// Letters that the algorithm never sends in that way, inputs before the start, a later start, and a second letter.
const DROPPED: &[Row] = &[
    (0, &[2], Vector(1, 1, &[Some(10), None]), ""),
    (0, &[], Vector(2, 1, &[None, Some(20)]), ""),
    (0, &[2], Start, "round:1 vector:1[10 -]>1 vector:1[10 -]>2"),
    (1, &[2], Vector(1, 0, &[Some(10), None]), ""),
    (1, &[2], Vector(1, 2, &[Some(10), None]), ""),
    (1, &[2], Vector(1, 1, &[Some(10)]), ""),
    (1, &[2], Last(1, &[Some(10), None]), ""),
    (1, &[], Vector(3, 1, &[None, None]), ""),
    (1, &[], Vector(1, 1, &[Some(10), None]), ""),
    (1, &[], Start, ""),
    (2, &[], Last(2, &[Some(10), Some(20)]), ""),
    (
        3,
        &[],
        Vector(2, 1, &[None, Some(20)]),
        "round:2 last[10 20]>1 last[10 20]>2",
    ),
    (4, &[], Last(2, &[None, None]), ""),
    (5, &[], Last(1, &[Some(10), Some(20)]), "decided:10"),
    (6, &[2], Last(1, &[Some(10), Some(20)]), ""),
];

/// One process, which drops nothing.
const ALONE: &[Row] = &[
    (0, &[], Start, "round:1 last[7]>1"),
    (1, &[], Last(1, &[Some(7)]), "decided:7"),
];

#[test]
fn dropped_inputs(rt: HostRuntime) {
    exchanges(&rt, rt.alloc(), (1, 2, 10), DROPPED);
    exchanges(&rt, rt.alloc(), (1, 1, 7), ALONE);
}
