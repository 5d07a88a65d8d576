//! Rows for groups of pairs.
ghost use Rattle.std.specs.Prelude.{◌≡◌};

use super::points::{durations, grid_of, limited_run, rows_in, sums_of, trusts};
use super::studies::{Study, study_of};
use super::sums::{CIRCLE, circle};
use crate::comparisons::{NO_MEMORY, is_text, same};
use reporting::{MemoryOutlet, Outlet, RunDurations};
use scenario::read_scenario;
use std::alloc::Global;
use std::marker::Sync;
use std::process::Abort;
use std::thread::Threads;
use std::time::Clock;
use study::{Grid, Shard};
use sweep::{
    GroupError, Layout, PairGroup, Rows, RunNumbers, SweepError, Table, Unwatched, check_study,
    sweep,
};

/// The groups that these words say.
fn groups_of<R: Abort>(rt: &R, alloc: Global, words: &[&str]) -> Vec<PairGroup> {
    let mut groups = Vec::new(alloc);
    for word in words {
        let group = PairGroup::parse(alloc, word).expect(rt, "no group");
        groups.push(group).expect(rt, NO_MEMORY);
    }
    groups
}

/// The layout of points' rows for these groups, with these columns.
fn layout_for<R: Abort>(
    rt: &R,
    alloc: Global,
    grid: &Grid,
    words: &[&str],
    columns: Option<&str>,
) -> Layout
    ensures { result.rows ≡ Rows.Points }
{
    let groups = groups_of(rt, alloc, words);
    Layout::new(alloc, grid, Rows::Points, groups, columns).expect(rt, "no layout")
}

/// Words that say no group, and why.
const REFUSED: [(&str, GroupError); 16] = [
    ("", GroupError::NoGroup),
    ("1", GroupError::NoGroup),
    ("1:", GroupError::NoGroup),
    ("1:2:3", GroupError::NoGroup),
    ("1:2+", GroupError::NoGroup),
    ("1:2,2:1", GroupError::NoGroup),
    ("1..4:2", GroupError::NoGroup),
    ("1..=:2", GroupError::NoGroup),
    ("-1:2", GroupError::NoGroup),
    ("1:2 ", GroupError::NoGroup),
    ("0:1", GroupError::NoProcess),
    ("1:257", GroupError::NoProcess),
    ("1:2..=99999999999999999999", GroupError::NoProcess),
    ("9..=1:0", GroupError::EmptyRange),
    ("2..=1:1+x", GroupError::EmptyRange),
    ("1:2+3..=300:x", GroupError::NoProcess),
];

/// Words are read as they should be: of a part the observers come first, and of parts the first that is at fault.
#[test]
fn words(rt: HostRuntime) {
    let alloc = rt.alloc();
    for (word, wanted) in REFUSED {
        match PairGroup::parse(alloc, word) {
            Ok(_) => assert!(rt; false, "{word}"),
            Err(reason) => same(&rt, &reason, &wanted),
        }
    }
    let said = groups_of(&rt, alloc, &["1:2", "001..=4:256", "3..=3:1..=256+1:1"]);
    same(&rt, &said.len(), &3);
}

/// The rows of three processes in a circle, of which each watches the next, for groups. The first has two blocks, and
/// both have the pair of 2 and 3, which counts once: it has the mistake, and is watched for 3 ticks, as is the pair of
/// 1 and 2. The second has the pair of 3 and 1, without a mistake, and of the third none is watched.
#[test]
fn circle_in_groups(rt: HostRuntime) {
    let alloc = rt.alloc();
    let scenario = read_scenario(alloc, CIRCLE.as_bytes()).expect(&rt, "not a scenario");
    let lasted = RunDurations {
        first: durations(&rt, alloc, 3, &[&[], &[], &[3, 4], &[], &[], &[2]]),
        second: durations(&rt, alloc, 3, &[]),
    };
    // two trusts don't move the check that detects the crash
    let again = trusts(&rt, alloc, 3, &[0, 2]);
    let grid = grid_of(&rt, alloc, "detector.timeout=5");
    let words = ["1..=2:2..=3+2:1..=3", "3:1", "2:1"];
    let layout = layout_for(&rt, alloc, &grid, &words, None);
    let found = circle(&rt, alloc);
    let run = RunNumbers::of_run(alloc, &scenario, layout.groups(), &found, &lasted, &again);
    let limited = RunNumbers::of_limited(alloc, &scenario, layout.groups());
    let runs = [limited.expect(&rt, NO_MEMORY), run.expect(&rt, NO_MEMORY)];
    let sums = sums_of(&rt, alloc, layout.groups(), 1, &runs);
    is_text(
        &rt,
        &rows_in(&rt, alloc, &grid, &layout, &sums),
        "5,1..=2:2..=3+2:1..=3,1,2,1,12,4,0,6,1,2,6,333333,1,1,,0,0,2,1,2,2,0,0,1,0,1,0,0,0,0,0,6,1,1,1,1,1,1,\
         0,0,0,,0,,,,,,,,0,2,2,\n\
         5,3:1,1,2,1,12,4,0,10,0,0,,0,0,0,,0,0,0,0,,,0,0,0,0,0,0,,,,,,1,1,1,1,1,1,0,0,0,,0,,,,,,,,0,,,\n\
         5,2:1,1,2,1,12,4,0,0,0,0,,,0,0,,0,0,0,0,,,0,0,0,0,0,0,,,,,,1,1,1,1,1,1,0,0,0,,0,,,,,,,,0,,,\n",
    );
}

/// A study of the file in which process 2 of two crashes at tick 3, with these columns for these groups.
fn study_in<R: Abort>(rt: &R, alloc: Global, vary: &str, words: &[&str], columns: &str) -> Study {
    let study = study_of(rt, alloc, vary, "", 1);
    let layout = layout_for(rt, alloc, &study.grid, words, Some(columns));
    Study { layout, ..study }
}

/// What a sweep of a study answers, and its text.
fn sweep_of<R: Threads + Sync + Clock>(
    rt: &R,
    alloc: Global,
    study: &Study,
) -> (Result<(), SweepError>, MemoryOutlet) {
    let mut outlet = MemoryOutlet::new(alloc);
    let all = study.part(Shard::whole(), 2);
    let answer = sweep(rt, alloc, &all, &mut outlet, &mut Unwatched);
    (answer, outlet)
}

/// The pair of 1 and 2 has the detection, and each pair is watched for 3 ticks.
#[test]
fn both_pairs(rt: HostRuntime) {
    let alloc = rt.alloc();
    let study = study_in(
        &rt,
        alloc,
        "detector.timeout=5,8",
        &["1:2", "2:1", "1..=2:1..=2"],
        "pairs,detector.timeout,pair_ticks,detections,detection_sum,entries",
    );
    let (answer, outlet) = sweep_of(&rt, alloc, &study);
    answer.expect(&rt, "no sweep");
    is_text(
        &rt,
        outlet.bytes(),
        "pairs,detector.timeout,pair_ticks,detections,detection_sum,entries\n\
         1:2,5,3,1,6,12\n2:1,5,3,0,0,12\n1..=2:1..=2,5,6,1,6,12\n\
         1:2,8,3,0,0,12\n2:1,8,3,0,0,12\n1..=2:1..=2,8,6,0,0,12\n",
    );
}

/// Of a study of three processes and then of two the second point hasn't process 3, which the second group names: it is
/// refused before any run, by `check_study` alike.
#[test]
fn no_such_process(rt: HostRuntime) {
    let alloc = rt.alloc();
    let words = ["1:2", "2:1..=3"];
    let study = study_in(&rt, alloc, "processes=3,2", &words, "pair_ticks");
    let (answer, outlet) = sweep_of(&rt, alloc, &study);
    let all = study.part(Shard::whole(), 2);
    let checked = check_study(&rt, alloc, &all, &mut Unwatched);
    for each in [answer, checked] {
        assert!(rt;
            matches!(
                each,
                Err(SweepError::NoSuchProcess {
                    point: 1,
                    run: 0,
                    group: 1,
                    processes: 2,
                })
            )
        );
    }
    assert!(rt; outlet.bytes().is_empty());
}

/// The header of rows for groups has the column of their words before `layer`, and that of other rows hasn't.
#[test]
fn headers(rt: HostRuntime) {
    let alloc = rt.alloc();
    let grid = grid_of(&rt, alloc, "detector.timeout=5");
    for (words, wanted) in [
        (&["1:2"][..], "detector.timeout,pairs,layer,runs\n"),
        (&[], "detector.timeout,layer,runs\n"),
    ] {
        let columns = if words.is_empty() {
            "detector.timeout,layer,runs"
        } else {
            "detector.timeout,pairs,layer,runs"
        };
        let layout = layout_for(&rt, alloc, &grid, words, Some(columns));
        let mut table = Table::new(alloc);
        table
            .push_header(alloc, &grid, &layout)
            .expect(&rt, NO_MEMORY);
        let header = table.into_text().expect(&rt, NO_MEMORY);
        is_text(&rt, &header, wanted);
    }
    let none = Layout::new(alloc, &grid, Rows::Points, Vec::new(alloc), Some("pairs"));
    assert!(rt; none.is_err());
}
