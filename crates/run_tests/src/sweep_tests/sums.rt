//! The rows of points whose runs are worked by hand.
use super::points::{
    HEADER, are_rows, crash_at_3, crash_run, durations, first_of, grid_of, limited_run, one_crash,
    rows_of, run_of, sums_of, trusts,
};
use super::studies::layout_of;
use crate::comparisons::{NO_MEMORY, is_text, same};
use crate::findings::{outcome, quiet, without_mistake};
use crate::traces::scenario_of;
use judges::Answer;
use reporting::{Detection, PairMeasures, RunDurations, RunFindings};
use scenario::read_scenario;
use std::alloc::Global;
use std::process::Abort;
use sweep::{FirstRuns, Group, Rows, RunNumbers, Table};

/// One run, whose crash is detected after 6 ticks: each pair is watched for the 3 ticks before the crash. Four runs,
/// with detections after 6 and 4 ticks, none, and a run that passed its limit, which is counted alone: of the three
/// crashes half are detected within 6 ticks, and 90 in 100 aren't. And the run that passed its limit alone.
#[test]
fn one_crash_runs(rt: HostRuntime) {
    let alloc = rt.alloc();
    are_rows(
        &rt,
        alloc,
        &[crash_run(&rt, alloc, Some(9), Detection::At(6))],
        "5",
        "5,1,1,0,12,4,0,6,0,0,,0,0,0,,0,0,0,0,,,0,0,1,0,0,6,6,6,6,6,6,1,1,1,1,1,1,0,0,0,,0,,,,,,,,0,,1,\n",
    );
    let scenario = crash_at_3(&rt, alloc);
    let runs = [
        crash_run(&rt, alloc, Some(9), Detection::At(6)),
        crash_run(&rt, alloc, Some(7), Detection::At(4)),
        crash_run(&rt, alloc, None, Detection::NoTick),
        limited_run(&rt, alloc, &scenario),
    ];
    are_rows(
        &rt,
        alloc,
        &runs,
        "-8",
        "-8,1,4,1,36,12,0,18,0,0,,0,0,0,0,0,0,0,0,,,0,0,2,1,0,10,6,,,6,6,2,2,3,3,3,3,0,0,0,,0,,,,,,,,0,,1,\n",
    );
    are_rows(
        &rt,
        alloc,
        &[limited_run(&rt, alloc, &scenario)],
        "5",
        "5,1,1,1,,,,,,,,,,,,,,,,,,,,,,,,,,,,,,,,,,,,,,,,,,,,,,,,,,\n",
    );
}

/// A reduction, and the crash of process 2 at tick 3.
const SHARED: &str = "[share]
period = 4
[[crash]]
process = 2
at = 3
";

/// The findings of a run with a reduction: on layer 1 a mistake of 2 ticks and a detection, on layer 2 neither.
fn shared<R: Abort>(rt: &R, alloc: Global) -> RunFindings {
    let pairs = [
        PairMeasures {
            mistakes: 1,
            mistake_ticks: 2,
            duration_sum: 2,
            duration_count: 1,
            ..quiet(rt, 1, 1, 2, Detection::At(6))
        },
        quiet(rt, 1, 2, 1, Detection::Na),
        quiet(rt, 2, 1, 2, Detection::NoTick),
        quiet(rt, 2, 2, 1, Detection::Na),
    ];
    RunFindings {
        second: Some(without_mistake(None, None)),
        measures: Vec::from_array(alloc, pairs).expect(rt, NO_MEMORY),
        ..one_crash(rt, alloc, Some(9), Detection::At(6))
    }
}

/// A run with a reduction and one without: the row of layer 2 is of the first alone.
#[test]
fn two_layers(rt: HostRuntime) {
    let alloc = rt.alloc();
    let with = scenario_of(&rt, alloc, 2, 10, SHARED);
    let lasted = RunDurations {
        first: durations(&rt, alloc, 2, &[&[], &[2]]),
        second: durations(&rt, alloc, 2, &[&[9], &[]]),
    };
    let again = trusts(&rt, alloc, 2, &[]);
    let found = shared(&rt, alloc);
    let shared = RunNumbers::of_run(alloc, &with, &[Group::All], &found, &lasted, &again);
    let runs = [
        shared.expect(&rt, NO_MEMORY),
        crash_run(&rt, alloc, Some(7), Detection::At(4)),
    ];
    are_rows(
        &rt,
        alloc,
        &runs,
        "5",
        "5,1,2,0,24,8,0,12,1,2,12,166666,1,1,1,0,0,2,1,2,2,0,0,2,0,0,10,4,6,6,6,6,2,2,2,2,2,2,0,0,0,,0,,,,,,,,0,1,1,\n\
         5,2,1,0,12,4,0,6,0,0,,0,0,0,,0,0,0,0,,,0,0,0,1,0,0,,,,,,0,0,1,1,1,1,0,0,0,,0,,,,,,,,0,,,\n",
    );
    are_rows(
        &rt,
        alloc,
        &[limited_run(&rt, alloc, &with)],
        "5",
        "5,1,1,1,,,,,,,,,,,,,,,,,,,,,,,,,,,,,,,,,,,,,,,,,,,,,,,,,,\n\
         5,2,1,1,,,,,,,,,,,,,,,,,,,,,,,,,,,,,,,,,,,,,,,,,,,,,,,,,,\n",
    );
}

/// Three processes with rotating coordinators, of which the third crashes at tick 3.
const COORDINATED: &str = "version = 1
processes = 3
horizon = 10
lookahead = 2
seed = 1
algorithm = \"es\"
proposals = [7, 7, 8]
detector = { period = 4, check = 3, timeout = 5 }
link = { min = 2, max = 2 }
crash = [{ process = 3, at = 3 }]
";

/// Three runs of them. In the first all decide 7, the one that crashes at tick 2. In the second one correct process
/// never decides, and the one that crashes decided another value. In the third one correct process ends with no value.
/// So two of the three last decisions never come, and no percentile of them is a tick.
#[test]
fn decisions(rt: HostRuntime) {
    let alloc = rt.alloc();
    let scenario = read_scenario(alloc, COORDINATED.as_bytes()).expect(&rt, "not a scenario");
    let (seven, eight) = (Answer::Value(7), Answer::Value(8));
    let none = (Answer::None, None, 3);
    let mut runs = Vec::new(alloc);
    for (first, second, third) in [
        (
            (seven, Some(4), 1),
            (seven, Some(6), 2),
            (seven, Some(2), 1),
        ),
        ((seven, Some(5), 1), none, (eight, Some(1), 1)),
        ((Answer::NoValue, Some(9), 5), (eight, Some(2), 1), none),
    ] {
        let mut found = one_crash(&rt, alloc, Some(9), Detection::Na);
        let outcomes = [
            outcome(&rt, 1, first),
            outcome(&rt, 2, second),
            outcome(&rt, 3, third),
        ];
        found.summary.outcomes = Vec::from_array(alloc, outcomes).expect(&rt, NO_MEMORY);
        runs.push(run_of(&rt, alloc, &scenario, &found))
            .expect(&rt, NO_MEMORY);
    }
    are_rows(
        &rt,
        alloc,
        &runs,
        "5",
        "5,1,3,0,36,12,0,60,0,0,,0,0,0,0,0,0,0,0,,,0,0,0,0,0,0,,,,,,3,3,3,3,3,3,6,4,17,6,1,,,,6,3,5,5,1,,,2\n",
    );
}

/// Three processes in a circle, of which each watches the next alone. The second crashes at tick 3.
pub const CIRCLE: &str = "version = 1
processes = 3
horizon = 10
lookahead = 2
seed = 1
algorithm = \"none\"
detector = { period = 4, check = 3, timeout = 5, watch = \"next\" }
link = { min = 2, max = 2 }
crash = [{ process = 2, at = 3 }]
";

/// What is found of a run of them: a mistake of 2 ticks about process 3 by process 2, which watches it, and five by
/// process 1, which doesn't. Process 1 suspected process 2 already as that crashed, and process 3 doesn't watch it.
pub fn circle<R: Abort>(rt: &R, alloc: Global) -> RunFindings {
    let pairs = [
        quiet(rt, 1, 1, 2, Detection::At(0)),
        PairMeasures {
            mistakes: 5,
            mistake_ticks: 10,
            ..quiet(rt, 1, 1, 3, Detection::Na)
        },
        quiet(rt, 1, 2, 1, Detection::Na),
        PairMeasures {
            mistakes: 1,
            mistake_ticks: 2,
            duration_sum: 2,
            duration_count: 1,
            ..quiet(rt, 1, 2, 3, Detection::Na)
        },
        quiet(rt, 1, 3, 1, Detection::Na),
        quiet(rt, 1, 3, 2, Detection::NoTick),
    ];
    RunFindings {
        measures: Vec::from_array(alloc, pairs).expect(rt, NO_MEMORY),
        ..one_crash(rt, alloc, Some(3), Detection::Na)
    }
}

/// Only the pairs count that are watched: they are watched for 3, 3 and 10 ticks. A run that passed its limit comes
/// before, so what is told of has number 2; or 8, where the first has 7. With three trusts the crash is detected by the
/// horizon at the latest, so there is no bound.
#[test]
fn watched_pairs(rt: HostRuntime) {
    let alloc = rt.alloc();
    let scenario = read_scenario(alloc, CIRCLE.as_bytes()).expect(&rt, "not a scenario");
    let lasted = RunDurations {
        first: durations(&rt, alloc, 3, &[&[], &[], &[3, 4], &[], &[], &[2]]),
        second: durations(&rt, alloc, 3, &[]),
    };
    let run = RunNumbers::of_run(
        alloc,
        &scenario,
        &[Group::All],
        &circle(&rt, alloc),
        &lasted,
        &trusts(&rt, alloc, 3, &[0, 3]),
    );
    let runs = [
        limited_run(&rt, alloc, &scenario),
        run.expect(&rt, NO_MEMORY),
    ];
    are_rows(
        &rt,
        alloc,
        &runs,
        "5",
        "5,1,2,1,12,4,0,16,1,2,16,125000,1,1,,0,0,2,1,2,2,0,0,1,0,1,0,0,0,0,0,,1,1,1,1,1,1,0,0,0,,0,,,,,,,,0,2,2,\n",
    );
    let sums = sums_of(&rt, alloc, &[Group::All], 7, &runs);
    let wanted = FirstRuns {
        mistake: Some(8),
        detection_max: Some(8),
        disagreement: None,
    };
    same(&rt, &first_of(&rt, &sums).first_runs, &wanted);
}

/// The first line, a setting with a quote, and the rows of a point without settings and without runs.
#[test]
fn lines(rt: HostRuntime) {
    let alloc = rt.alloc();
    let mut table = Table::new(alloc);
    let grid = grid_of(&rt, alloc, "detector.timeout=5");
    let layout = layout_of(&rt, alloc, &grid, Rows::Points, None);
    table
        .push_header(alloc, &grid, &layout)
        .expect(&rt, NO_MEMORY);
    let header = table.into_text().expect(&rt, NO_MEMORY);
    let wanted = format!(in alloc; "detector.timeout,{HEADER}").expect(&rt, NO_MEMORY);
    is_text(&rt, &header, &wanted);
    are_rows(
        &rt,
        alloc,
        &[],
        "a \"b\"",
        "\"a \"\"b\"\"\",1,0,0,,,,,,,,,,,,,,,,,,,,,,,,,,,,,,,,,,,,,,,,,,,,,,,,,,\n",
    );
    let grid = grid_of(&rt, alloc, "");
    let rows = rows_of(
        &rt,
        alloc,
        &grid,
        &sums_of(&rt, alloc, &[Group::All], 1, &[]),
    );
    is_text(
        &rt,
        &rows,
        "1,0,0,,,,,,,,,,,,,,,,,,,,,,,,,,,,,,,,,,,,,,,,,,,,,,,,,,\n",
    );
}
