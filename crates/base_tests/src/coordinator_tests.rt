//! Machines of the rotating coordinator, driven by hand.
mod laws;

use crate::answers::are_done;
use crate::comparisons::{NO_MEMORY, same};
use crate::driving::{Row, TIMEOUTS, drive_algorithm, opening_of};
use crate::inputs::Given::{Alive, Decide, Estimate, Proposal, Reply, Start};
use consensus_es::{Diffusion, EsConsensus, Membership};
use process_api::Pid;
use scenario_record::AlgorithmKind;
use std::alloc::Global;
use std::process::Abort;

/// Process `own` of so many, with this proposal, does what the rows say.
fn coordinates(
    rt: &impl Abort,
    alloc: Global,
    (own, processes, proposal): (u16, u16, u32),
    rows: &[Row],
) {
    let kind = AlgorithmKind::EventuallyStrong;
    let opening = opening_of(rt, own, processes, 20, TIMEOUTS, None, kind, Some(proposal));
    let mut machine = EsConsensus::open(alloc, &opening).expect(rt, NO_MEMORY);
    drive_algorithm(rt, alloc, &opening, &mut machine, rows);
}

/// Majorities of one to five processes, and at process 1 of three who coordinates a round.
#[test]
fn memberships(rt: HostRuntime) {
    let first = Pid::after(0);
    for &(processes, wanted) in &[(1, 1), (2, 2), (3, 2), (4, 3), (5, 3)] {
        let majority = Membership::new(first, processes).majority();
        same(&rt, &(processes, majority), &(processes, wanted));
    }
    let membership = Membership::new(first, 3);
    for &(round, wanted) in &[(1, 2), (2, 3), (3, 1), (4, 2)] {
        let coordinator = membership.coordinator(round).number();
        let came = (round, coordinator, membership.is_coordinator(round));
        same(&rt, &came, &(round, wanted, wanted == 1));
    }
}

/// Of which round a decision comes, whether for the first time, and what is done.
const RECEIVED: &[(u32, bool, &str)] = &[
    (1, true, "decide:1:10>1 decide:1:10>2 decide:1:10>3"),
    (1, false, ""),
    (3, true, ""),
    (3, false, ""),
];

/// Process 1 of three: it is the coordinator of round 3, and passes on the decisions of other rounds.
#[test]
fn decisions_diffused(rt: HostRuntime) {
    let alloc = rt.alloc();
    let membership = Membership::new(Pid::after(0), 3);
    let mut diffusion = Diffusion::new(alloc);
    for &(round, first, wanted) in RECEIVED {
        let mut out = Vec::new(alloc);
        let number = u64::from(round);
        let is_first = diffusion.receive(&membership, number, 10, &mut out);
        let is_first = is_first.expect(&rt, NO_MEMORY);
        let seen = (diffusion.has_seen(number), diffusion.has_seen(2));
        same(
            &rt,
            &(round, is_first, seen),
            &(round, first, (true, false)),
        );
        are_done(&rt, alloc, round, &out, wanted);
    }
    let mut out = Vec::new(alloc);
    let sent = Diffusion::broadcast(&membership, 3, 10, &mut out);
    sent.expect(&rt, NO_MEMORY);
    are_done(
        &rt,
        alloc,
        0,
        &out,
        "decide:3:10>1 decide:3:10>2 decide:3:10>3",
    );
}

/// Process 2 of three with the proposals 10, 20 and 30: the coordinator of round 1. Its decision comes to itself at
/// tick 7.
const SECOND_OF_THREE: &[Row] = &[
    (0, &[], Start, "round:1 estimate:1:20:0>2"),
    (1, &[], Estimate(2, 1, 20, 0), ""),
    (2, &[], Alive(1), ""),
    (
        2,
        &[],
        Estimate(1, 1, 10, 0),
        "proposal:1:10>1 proposal:1:10>2 proposal:1:10>3",
    ),
    (2, &[], Alive(3), ""),
    (2, &[], Estimate(3, 1, 30, 0), ""),
    (3, &[], Proposal(2, 1, 10), "ack:1>2"),
    (4, &[], Reply(2, 1, true), ""),
    (
        6,
        &[],
        Reply(1, 1, true),
        "decide:1:10>1 decide:1:10>2 decide:1:10>3 round:2 estimate:2:10:1>3",
    ),
    (6, &[], Reply(3, 1, true), ""),
    (7, &[], Decide(2, 1, 10), "decided:10"),
    (8, &[], Proposal(3, 2, 10), ""),
    (10, &[], Decide(1, 1, 10), ""),
    (10, &[], Decide(3, 1, 10), ""),
];

/// One process with proposal 7: it is every round's coordinator, and decides at tick 4.
const ALONE: &[Row] = &[
    (0, &[], Start, "round:1 estimate:1:7:0>1"),
    (1, &[], Estimate(1, 1, 7, 0), "proposal:1:7>1"),
    (2, &[], Proposal(1, 1, 7), "ack:1>1"),
    (
        3,
        &[],
        Reply(1, 1, true),
        "decide:1:7>1 round:2 estimate:2:7:1>1",
    ),
    (4, &[], Decide(1, 1, 7), "decided:7"),
    (4, &[], Estimate(1, 2, 7, 1), ""),
];

#[test]
fn coordinators_decide(rt: HostRuntime) {
    coordinates(&rt, rt.alloc(), (2, 3, 20), SECOND_OF_THREE);
    coordinates(&rt, rt.alloc(), (1, 1, 7), ALONE);
}

/// Process 1 of three, in round 1, whose coordinator is process 2: a decision is passed on and noted, once; another
/// round's is passed on and not noted.
const DECIDED_ONCE: &[Row] = &[
    (0, &[], Start, "round:1 estimate:1:10:0>2"),
    (
        8,
        &[],
        Decide(2, 1, 10),
        "decide:1:10>1 decide:1:10>2 decide:1:10>3 decided:10",
    ),
    (9, &[], Decide(2, 1, 10), ""),
    (
        10,
        &[],
        Decide(3, 2, 10),
        "decide:2:10>1 decide:2:10>2 decide:2:10>3",
    ),
];

/// Where it suspects process 2 at its start, it leaves the round with a nack.
const SUSPECTED: &[Row] = &[(
    0,
    &[2],
    Start,
    "round:1 estimate:1:10:0>2 nack:1>2 round:2 estimate:2:10:0>3",
)];

#[test]
fn beside_a_coordinator(rt: HostRuntime) {
    coordinates(&rt, rt.alloc(), (1, 3, 10), DECIDED_ONCE);
    coordinates(&rt, rt.alloc(), (1, 3, 10), SUSPECTED);
}
