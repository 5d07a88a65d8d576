//! Worked steps of the reduction at process 1 of 3.
use crate::driving::{Row, TIMEOUTS, drive_detector, opening_of};
use crate::inputs::Given::{Share, Start, Suspects};
use crate::suspects_three::SuspectsThree;
use reduction::Reduced;
use scenario_record::AlgorithmKind;
use std::alloc::Global;
use std::process::Abort;

/// The reduction over the detector that suspects 3, with a share every 4 ticks, suspects and does what the rows say.
fn reduces(rt: &impl Abort, alloc: Global, rows: &[Row]) {
    let opening = opening_of(rt, 1, 3, 10, TIMEOUTS, Some(4), AlgorithmKind::Idle, None);
    let mut machine = Reduced::open(SuspectsThree { has_failed: false }, &opening);
    drive_detector(rt, alloc, &mut machine, rows);
}

/// It suspects whom others share, but for the sender and itself.
const GATHERED: &[Row] = &[
    (0, &[2], Suspects(3, &[2]), "suspect:2:2"),
    (0, &[3], Suspects(2, &[1, 3]), "suspect:2:3 trust:2:2"),
];

/// Its own letter changes nothing.
const OWN_LETTER: &[Row] = &[
    (0, &[2], Suspects(3, &[2]), "suspect:2:2"),
    (0, &[2], Suspects(1, &[2]), ""),
];

/// It leaves out itself and who is no process.
const NO_PROCESS: &[Row] = &[(0, &[3], Suspects(2, &[1, 3, 4, 256]), "suspect:2:3")];

#[test]
fn gathers_what_others_share(rt: HostRuntime) {
    reduces(&rt, rt.alloc(), GATHERED);
    reduces(&rt, rt.alloc(), OWN_LETTER);
    reduces(&rt, rt.alloc(), NO_PROCESS);
}

/// It shares whom the detector below it suspects.
const SHARED: &[Row] = &[
    (0, &[], Start, "alive>2 alive>3 Beat+5 Check+6 Share+4"),
    (
        0,
        &[],
        Share,
        "suspects:[3]>1 suspects:[3]>2 suspects:[3]>3 Share+4",
    ),
];

#[test]
fn shares_whom_the_detector_below_suspects(rt: HostRuntime) {
    reduces(&rt, rt.alloc(), SHARED);
}
