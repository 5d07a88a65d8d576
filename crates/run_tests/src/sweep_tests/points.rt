//! What tests share: runs, the settings of a point, and the text of its rows.
ghost use Rattle.std.specs.Prelude.{◌≡◌};
ghost use Rattle.sweep.specs.declared.layout.Rows.TheVariants as kind;

use super::studies::layout_of;
use crate::comparisons::{NO_MEMORY, is_text};
use crate::findings::{outcome, quiet, without_mistake};
use crate::traces::{CRASH_AT_3, axes, scenario_of};
use judges::Answer;
use reporting::{Detection, Durations, RunDurations, RunFindings, Summary};
use runs::Trusts;
use scenario::Scenario;
use std::alloc::Global;
use std::process::Abort;
use study::Grid;
use sweep::{Columns, Group, Layout, Rows, RunNumbers, Table, UnitSums};

/// The first line after the names of the varied keys.
pub const HEADER: &str =
    "layer,runs,limited,entries,sent,lost,pair_ticks,mistakes,mistake_ticks,mistake_recurrence,\
     mistaken_ppm,mistakes_squared_sum,runs_with_mistakes,mistakes_error,recurrence_sum,recurrence_count,\
     duration_sum,duration_count,duration_p99,duration_max,good_sum,good_count,detections,undetected,at_once,\
     detection_sum,detection_p50,detection_p90,detection_p99,detection_max,detection_bound,\
     strong_completeness,weak_completeness,strong_accuracy,weak_accuracy,eventual_strong_accuracy,\
     eventual_weak_accuracy,to_decide,decided,decision_tick_sum,decision_tick_max,all_decided,last_decision_p50,\
     last_decision_p90,last_decision_p99,last_decision_max,rounds_p50,rounds_p99,rounds_max,\
     disagreements,mistake_run,detection_max_run,disagreement_run\n";

/// The scenario of two processes over ten ticks, of which the second crashes at tick 3.
pub fn crash_at_3<R: Abort>(rt: &R, alloc: Global) -> Scenario {
    scenario_of(rt, alloc, 2, 10, CRASH_AT_3)
}

/// What is found of the run of `examples/one_crash.toml`, as its report tells it, with another detection.
pub fn one_crash<R: Abort>(
    rt: &R,
    alloc: Global,
    tick: Option<u32>,
    detection: Detection,
) -> RunFindings {
    let none = (Answer::None, None, 0);
    let outcomes = Vec::from_array(alloc, [outcome(rt, 1, none), outcome(rt, 2, none)]);
    let pairs = [
        quiet(rt, 1, 1, 2, detection),
        quiet(rt, 1, 2, 1, Detection::Na),
    ];
    RunFindings {
        summary: Summary {
            entries: 12,
            sent: 4,
            lost: 0,
            outcomes: outcomes.expect(rt, NO_MEMORY),
        },
        first: without_mistake(tick, tick),
        second: None,
        measures: Vec::from_array(alloc, pairs).expect(rt, NO_MEMORY),
    }
}

/// How long each mistake was on a layer of so many processes, by observer and then by subject; of pairs that come after
/// these there was none.
pub fn durations<R: Abort>(rt: &R, alloc: Global, processes: u16, lengths: &[&[u32]]) -> Durations {
    let mut pairs = Vec::new(alloc);
    for ticks in lengths {
        let mut pair = Vec::new(alloc);
        pair.extend_from_slice(ticks).expect(rt, NO_MEMORY);
        pairs.push(pair).expect(rt, NO_MEMORY);
    }
    Durations { processes, pairs }
}

/// How often each of so many processes trusted each again, by observer and then by subject; of pairs that come after
/// these none did.
pub fn trusts<R: Abort>(rt: &R, alloc: Global, processes: u16, counts: &[u32]) -> Trusts {
    let mut all = Vec::new(alloc);
    all.extend_from_slice(counts).expect(rt, NO_MEMORY);
    Trusts {
        processes,
        counts: all,
    }
}

/// What a run without a mistake that ended gives.
pub fn run_of<R: Abort>(
    rt: &R,
    alloc: Global,
    scenario: &Scenario,
    found: &RunFindings,
) -> RunNumbers {
    let none = RunDurations {
        first: durations(rt, alloc, 2, &[]),
        second: durations(rt, alloc, 2, &[]),
    };
    let again = trusts(rt, alloc, 2, &[]);
    RunNumbers::of_run(alloc, scenario, &[Group::All], found, &none, &again).expect(rt, NO_MEMORY)
}

/// What a run gives that passed its limit.
pub fn limited_run<R: Abort>(rt: &R, alloc: Global, scenario: &Scenario) -> RunNumbers {
    RunNumbers::of_limited(alloc, scenario, &[Group::All]).expect(rt, NO_MEMORY)
}

/// What the run of one crash gives, with this detection.
pub fn crash_run<R: Abort>(
    rt: &R,
    alloc: Global,
    tick: Option<u32>,
    detection: Detection,
) -> RunNumbers {
    let found = one_crash(rt, alloc, tick, detection);
    run_of(rt, alloc, &crash_at_3(rt, alloc), &found)
}

/// The grid that varies the axes that these words say, with one seed.
pub fn grid_of<R: Abort>(rt: &R, alloc: Global, vary: &str) -> Grid {
    let vary = axes(rt, alloc, vary);
    Grid::new(alloc, vary, Vec::new(alloc), Vec::new(alloc), 1, 1).expect(rt, "no study")
}

/// The sums over these runs, of which the first has this number, of each of these groups of pairs.
pub fn sums_of<R: Abort>(
    rt: &R,
    alloc: Global,
    groups: &[Group],
    first: u64,
    runs: &[RunNumbers],
) -> UnitSums {
    let mut sums = UnitSums::new(alloc, groups, first).expect(rt, NO_MEMORY);
    for run in runs {
        sums.add(run).expect(rt, NO_MEMORY);
    }
    sums
}

/// What the row of layer 1 tells of all pairs.
pub fn first_of<R: Abort>(rt: &R, sums: &UnitSums) -> Columns {
    sums.groups().first().expect(rt, "no group").first()
}

/// The text of the rows of a grid's first point with these sums, in this layout.
pub fn rows_in<R: Abort>(
    rt: &R,
    alloc: Global,
    grid: &Grid,
    layout: &Layout,
    sums: &UnitSums,
) -> Vec<u8>
    requires { layout.now.rows ≡ kind.Points }
{
    assert!(rt; grid.points() > 0);
    let mut table = Table::new(alloc);
    table
        .push_unit(alloc, grid, layout, 0, sums)
        .expect(rt, NO_MEMORY);
    table.into_text().expect(rt, NO_MEMORY)
}

/// The text of such rows that count all pairs, with all columns.
pub fn rows_of<R: Abort>(rt: &R, alloc: Global, grid: &Grid, sums: &UnitSums) -> Vec<u8> {
    let layout = layout_of(rt, alloc, grid, Rows::Points, None);
    rows_in(rt, alloc, grid, &layout, sums)
}

/// The rows of these runs' point, at one time-out, are these.
pub fn are_rows<R: Abort>(rt: &R, alloc: Global, runs: &[RunNumbers], timeout: &str, wanted: &str) {
    let sums = sums_of(rt, alloc, &[Group::All], 1, runs);
    let axis = format!(in alloc; "detector.timeout={timeout}").expect(rt, NO_MEMORY);
    let grid = grid_of(rt, alloc, &axis);
    is_text(rt, &rows_of(rt, alloc, &grid, &sums), wanted);
}
