//! What a watcher hears of a sweep.
ghost use Rattle.std.specs.Prelude.{◌<◌, ◌-◌, ◌^◌};

use super::studies::{Study, seven_points, shard, study_of};
use crate::comparisons::same;
use reporting::{FuseOutlet, MemoryOutlet, Outlet};
use std::alloc::Global;
use std::marker::Sync;
use std::thread::Threads;
use std::time::Clock;
use study::{Grid, Shard, Sources};
use sweep::{Pass, Standing, SweepError, Watcher, sweep};

/// Keeps the last that it heard, whether each was one more of the same sweep, how often it heard of runs that are in
/// and was asked to make way, and of how many runs it heard that they passed their limit, with the last point where
/// that was so.
#[derive(Drop)]
struct Keeper {
    last: Option<Standing>,
    all_rise: bool,
    times: u64,
    ways: u64,
    limited: Option<(u64, u64)>,
    shows: bool,
}

/// Whether a sweep that stood there can stand here next: all is read before the first run.
fn comes_after(last: &Standing, next: &Standing) -> bool {
    let rises = match (last.pass, next.pass) {
        (Pass::Reading, Pass::Running) => {
            last.done == last.points.wrapping_mul(last.runs) && next.done == 0
        }
        (Pass::Running, Pass::Reading) => false,
        _ => last.done < next.done,
    };
    rises && last.points == next.points && last.runs == next.runs
}

impl Watcher for Keeper {
    ghost heard = { λ _ _ _. Unit {0} };

    ghost shows = { λ k. k.shows };

    fn hear(&mut self, standing: Standing) {
        let rises = match &self.last {
            None => standing.pass == Pass::Reading && standing.done == 0,
            Some(last) => comes_after(last, &standing),
        };
        self.all_rise = self.all_rise && rises;
        if standing.pass == Pass::Running {
            self.times = self.times.saturating_add(1);
        }
        self.last = Some(standing);
        self.shows = true;
    }

    fn limited(&mut self, _sources: &Sources, _grid: &Grid, point: u64, count: u64) {
        let before = match self.limited {
            Some((_, before)) => before,
            None => 0,
        };
        self.limited = Some((point, before.saturating_add(count)));
        self.shows = false;
    }

    fn make_way(&mut self) {
        self.ways = self.ways.saturating_add(1);
    }

    fn hide(&mut self) {
        self.shows = false;
    }
}

impl Keeper {
    fn new() -> Keeper {
        Keeper {
            last: None,
            all_rise: true,
            times: 0,
            ways: 0,
            limited: None,
            shows: false,
        }
    }
}

/// What a sweep of a shard by two threads answers, and what its watcher heard.
fn heard_of<R: Threads + Sync + Clock, O: Outlet>(
    rt: &R,
    alloc: Global,
    study: &Study,
    shard: Shard,
    outlet: &mut O,
) -> (Result<(), SweepError>, Keeper)
    requires { O.failed outlet.old < 2 ^ 64 - 1 }
{
    let mut keeper = Keeper::new();
    let answer = sweep(rt, alloc, &study.part(shard, 2), outlet, &mut keeper);
    (answer, keeper)
}

/// Seven points with 160 runs each are 1,120 runs. The last of three shards has the points 4 to 6 of seven: of these
/// alone is told. The first batch has two runs, and no batch more than twice as many as the one before, so that 1,120
/// runs are 10 batches at least, and 480 are 8; before the first it is told that none is in.
#[test]
fn hears_of_all_runs(rt: HostRuntime) {
    let alloc = rt.alloc();
    let seven = seven_points(&rt, alloc);
    for (number, of, points, done, batches) in [(1, 1, 7, 1_120, 10), (3, 3, 3, 480, 8)] {
        let shard = shard(&rt, number, of);
        let mut outlet = MemoryOutlet::new(alloc);
        let (answer, keeper) = heard_of(&rt, alloc, &seven, shard, &mut outlet);
        assert!(rt; answer.is_ok());
        let last = Standing {
            pass: Pass::Running,
            points,
            runs: 160,
            done,
        };
        same(&rt, &keeper.last, &Some(last));
        same(&rt, &keeper.limited, &None);
        assert!(rt; keeper.all_rise && !keeper.shows);
        assert!(rt; keeper.times > batches && keeper.ways.wrapping_add(1) == keeper.times);
    }
}

/// With the crash at tick 3 a run has 12 entries, with the crash at tick 5 it has 15: of the second of three points
/// both pass the limit, of the third one does.
#[test]
fn hears_of_limits(rt: HostRuntime) {
    let alloc = rt.alloc();
    let limits = study_of(&rt, alloc, "limit=15,11,12", "crash[1].at=3,5", 1);
    let mut outlet = MemoryOutlet::new(alloc);
    let (answer, keeper) = heard_of(&rt, alloc, &limits, Shard::whole(), &mut outlet);
    assert!(rt; answer.is_ok());
    same(&rt, &keeper.limited, &Some((2, 3)));
}

/// Where the second point is refused, nothing is heard of the first, of which each run would pass its limit.
#[test]
fn refused_before_any_limit(rt: HostRuntime) {
    let alloc = rt.alloc();
    let links = study_of(&rt, alloc, "limit=5\nlink.max=5,1", "", 3);
    let mut outlet = MemoryOutlet::new(alloc);
    let (answer, keeper) = heard_of(&rt, alloc, &links, Shard::whole(), &mut outlet);
    assert!(rt; matches!(answer, Err(SweepError::Refused { .. })));
    same(&rt, &keeper.limited, &None);
    assert!(rt; keeper.all_rise && !keeper.shows && keeper.times == 0);
}

/// Where the third put fails, after the header and the first row, no more is heard, and nothing is shown any more. By
/// then the watcher was asked to make way for the rows, and told of the second of three points that its runs pass their
/// limit.
#[test]
fn breaks_off(rt: HostRuntime) {
    let alloc = rt.alloc();
    let seven = seven_points(&rt, alloc);
    let limits = study_of(&rt, alloc, "limit=15,11,12", "crash[1].at=3,5", 1);
    for (study, are_limited) in [(&seven, false), (&limits, true)] {
        let mut outlet = FuseOutlet::new(alloc, usize::MAX, 2);
        let (answer, keeper) = heard_of(&rt, alloc, study, Shard::whole(), &mut outlet);
        assert!(rt; matches!(answer, Err(SweepError::Write)));
        let done = keeper.last.map(|last| last.done).unwrap_or(1_120);
        assert!(rt; keeper.all_rise && !keeper.shows && done < 1_120);
        assert!(rt; keeper.ways == keeper.times && keeper.limited.is_some() == are_limited);
    }
}
