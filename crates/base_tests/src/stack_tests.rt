//! Steps of a process that is made of parts.
use crate::comparisons::{NO_MEMORY, same};
use crate::driving::{TIMEOUTS, drive_process, opening_of};
use crate::inputs::Given::{self, Beat, Check, Start, Suspects};
use crate::inputs::input_of;
use crate::suspects_three::SuspectsThree;
use consensus_es::EsConsensus;
use process_api::{DetectorNumbers, Note, Pid, Process, TimeoutNumbers, Watch, note_that};
use reduction::Reduced;
use scenario_record::AlgorithmKind;
use stack::{NoAlgorithm, Stack};
use std::alloc::Global;
use std::process::Abort;
use timeout_detector::TimeoutDetector;

/// Numbers of a process alone.
const NUMBERS: DetectorNumbers = DetectorNumbers::Timeout(TimeoutNumbers {
    period: 4,
    check: 3,
    timeout: 5,
    grow: 1,
    watch: Watch::Next,
});

/// What it does.
const ALONE: &[(u32, Given, &str)] = &[(0, Start, "Beat+4 Check+3"), (3, Check, "Check+3")];

#[test]
fn a_boxed_process_alone_wakes_itself(rt: HostRuntime) {
    let alloc = rt.alloc();
    let opening = opening_of(&rt, 1, 1, 10, NUMBERS, None, AlgorithmKind::Idle, None);
    let detector = TimeoutDetector::open(alloc, &opening).expect(&rt, NO_MEMORY);
    let stack = Stack::new(opening.own, detector, NoAlgorithm);
    let mut machine: Box<dyn Process> = Box::new(alloc, stack).expect(&rt, NO_MEMORY);
    same(&rt, &machine.pid().number(), &1);
    drive_process(&rt, alloc, &mut machine, ALONE);
}

/// Layer 1 suspects process 3, and layer 2 process 2, once it was shared: the coordinator of round 1. So process 1
/// leaves that round, but not round 2, whose coordinator is process 3.
const TOP_LAYER: &[(u32, Given, &str)] = &[
    (
        0,
        Start,
        "alive>2 alive>3 Beat+5 Check+6 Share+4 round:1 estimate:1:10:0>2",
    ),
    (
        4,
        Suspects(3, &[2]),
        "suspect:2:2 nack:1>2 round:2 estimate:2:10:0>3",
    ),
    (5, Beat, "alive>2 alive>3 Beat+5"),
];

#[test]
fn hands_the_top_layer_to_the_algorithm_last(rt: HostRuntime) {
    let alloc = rt.alloc();
    let kind = AlgorithmKind::EventuallyStrong;
    let opening = opening_of(&rt, 1, 3, 10, TIMEOUTS, Some(4), kind, Some(10));
    let detector = Reduced::open(SuspectsThree { has_failed: false }, &opening);
    let algorithm = EsConsensus::open(alloc, &opening).expect(&rt, NO_MEMORY);
    let mut machine = Stack::new(opening.own, detector, algorithm);
    drive_process(&rt, alloc, &mut machine, TOP_LAYER);
}

/// Gives process 1 inputs at their ticks, of which the later ones are refused, and compares whether each is, and how
/// many actions there are then, with a note that was there before.
fn fails<P: Process>(
    rt: &impl Abort,
    alloc: Global,
    machine: &mut P,
    rows: &[(u32, Given, bool, usize)],
) {
    let mut out = Vec::new(alloc);
    note_that(&mut out, Note::Round(1)).expect(rt, NO_MEMORY);
    same(rt, &(machine.pid().number(), machine.failed()), &(1, false));
    for &(tick, given, refused, actions) in rows {
        let input = input_of(rt, alloc, given);
        let is_refused = machine.on_input(tick, &input, &mut out).is_err();
        let came = (tick, is_refused, machine.failed(), out.len());
        same(rt, &came, &(tick, refused, refused, actions));
    }
}

#[test]
fn runs_boxed_and_fails_for_good(rt: HostRuntime) {
    const ROWS: &[(u32, Given, bool, usize)] = &[
        (5, Beat, false, 4),
        (6, Start, true, 4),
        (10, Beat, true, 4),
    ];
    let stack = Stack::new(
        Pid::after(0),
        SuspectsThree { has_failed: false },
        NoAlgorithm,
    );
    let mut machine: Box<dyn Process> = Box::new(rt.alloc(), stack).expect(&rt, NO_MEMORY);
    fails(&rt, rt.alloc(), &mut machine, ROWS);
}

#[test]
fn fails_over_a_failed_part(rt: HostRuntime) {
    const ROWS: &[(u32, Given, bool, usize)] = &[
        (0, Start, true, 1),
        (1, Start, true, 1),
        (2, Start, true, 1),
        (5, Beat, true, 1),
    ];
    let mut machine = Stack::new(
        Pid::after(0),
        SuspectsThree { has_failed: true },
        NoAlgorithm,
    );
    fails(&rt, rt.alloc(), &mut machine, ROWS);
}
