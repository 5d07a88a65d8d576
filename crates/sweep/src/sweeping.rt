//! Sweeps: all runs of a study's points, and the rows that tell of them.
ghost use Rattle.std.specs.Prelude.{◌≡◌, ◌^◌, ◌-◌, ◌*◌, ◌<◌, ◌≤◌, false, length, [], OnErr, OnOk, IfErr};
ghost use Rattle.study.specs.{Sources.{sources_of}, Grid.{points, runs}};
ghost use Rattle.sweep.specs.{Outcome.{WroteStudy, BreaksOff, RefusesRun, HeardLimits, HeardSomeLimits, of_swept}, Inside.Progress.{WrotePoints, StopsInPoints, numbers_in}, StudyText.{numbers_of}};
ghost use Rattle.trace_laws.specs.Taken.{HaveJoined};

use crate::batches::Batches;
use crate::checking::check_study;
use crate::error::SweepError;
use crate::layout::Layout;
use crate::limits::Limits;
use crate::measuring::measure_batch;
use crate::numbering::points_of;
use crate::progress::Progress;
use crate::swept_study::SweptStudy;
use crate::texts::write_header;
use crate::watcher::{Pass, Standing, Watcher};
use reporting::Outlet;
use std::alloc::Global;
use std::marker::Sync;
use std::thread::Threads;
use std::time::Clock;
use study::{Grid, Sources};

/// Runs all runs of the points from one number up to another, in batches, and writes the rows of each unit when its
/// last run is in. The watcher hears of the beginning, and whenever more runs are in.
fn write_points<R: Threads + Sync + Clock, O: Outlet, W: Watcher>(
    mut batches: Batches<'_, R>,
    sources: &Sources,
    grid: &Grid,
    layout: &Layout,
    swept: (u64, u64),
    outlet: &mut O,
    watcher: &mut W,
) -> Result<(), SweepError>
    requires failures { O.failed outlet.old < 2 ^ 64 - 1 }
    requires some { 1 ≤ length (runs grid.now) }
    requires order { swept.0 ≤ swept.1 }
    requires within { swept.1 ≤ length (points grid.now) }
    requires room { length (points grid.now) * length (runs grid.now) < 2 ^ 64 }
    ensures done { OnOk result (WrotePoints grid.now layout.now O.told O.failed outlet.old outlet.new
        (sources_of sources.now) swept.0 swept.1) }
    ensures stops { IfErr result (StopsInPoints grid.now layout.now O.told O.failed outlet.old outlet.new
        (sources_of sources.now) swept.0 swept.1) }
    ensures heard { OnOk result
        (HeardLimits W.heard watcher.old watcher.new (sources_of sources.now) grid.now (numbers_in swept)) }
    ensures heard_some { IfErr result
        (λ _. HeardSomeLimits W.heard watcher.old watcher.new (sources_of sources.now) grid.now (numbers_in swept)) }
{
    let alloc = batches.alloc;
    let (begin, end) = swept;
    let runs = grid.runs();
    let points = end - begin;
    let mut limits = Limits::at(begin);
    let (first, past) = (begin * runs, end * runs);
    let mut next = first;
    let begun = Standing {
        pass: Pass::Running,
        points,
        runs,
        done: 0,
    };
    watcher.hear(begun);
    let mut progress = Progress::at(alloc, grid, layout, layout.unit_count(grid, begin))?;
    while next < past {
        let numbers = measure_batch(&mut batches, sources, grid, layout.groups(), next, past)?;
        watcher.make_way();
        limits.add_all(sources, grid, &numbers, watcher);
        progress.take_all(alloc, grid, layout, &numbers, outlet)?;
        next += numbers.len() as u64;
        let done = next - first;
        watcher.hear(Standing { done, ..begun });
    }
    Ok(())
}

/// Runs all runs of the points of a shard of a study, of which all scenarios were read before, as [`check_study`] does,
/// and writes their rows, as [`sweep`] tells. At the end the watcher takes away what it shows.
///
/// # Errors
///
/// `Memory` and `Write`, as [`sweep`].
pub fn run_study<R: Threads + Sync + Clock, O: Outlet, W: Watcher>(
    rt: &R,
    alloc: Global,
    study: &SweptStudy<'_>,
    outlet: &mut O,
    watcher: &mut W,
) -> Result<(), SweepError>
    requires failures { O.failed outlet.old < 2 ^ 64 - 1 }
    ensures done { OnOk result (of_swept study.now
        (λ s g shard layout. WroteStudy s g shard layout O.told O.failed outlet.old outlet.new)) }
    ensures breaks_off { IfErr result (of_swept study.now
        (λ s g shard layout. BreaksOff s g shard layout O.told O.failed outlet.old outlet.new)) }
    ensures errors { IfErr result (λ e. RefusesRun e → ⊥) }
    ensures heard { OnOk result (of_swept study.now
        (λ s g shard _. HeardLimits W.heard watcher.old watcher.new s g (numbers_of g shard))) }
    ensures heard_some { OnErr result (of_swept study.now
        (λ s g shard _. HeardSomeLimits W.heard watcher.old watcher.new s g (numbers_of g shard))) }
    ensures hidden { W.shows watcher.old ≡ false → W.shows watcher.new ≡ false }
{
    let (sources, grid, layout) = (study.sources, study.grid, study.layout);
    grid.recall_ranges();
    write_header(alloc, grid, study.shard, layout, outlet)?;
    let swept = points_of(grid, study.shard);
    let batches = Batches::new(rt, alloc, study.threads);
    let answer = write_points(batches, sources, grid, layout, swept, outlet, watcher);
    watcher.hide();
    answer
}

/// Sweeps the points of a shard of a study: runs all their runs by its threads, and writes rows with the layout's
/// columns, one for each group of pairs and each layer of a point, with sums over its runs, or of each run. The first
/// shard begins with the header. The threads and the watcher change nothing of the text.
///
/// Every run's scenario is read before the first run starts. Runs are read, and then run, in batches that take about a
/// second by the clock, and rows go out soon after the last run that they tell of is in. Memory doesn't grow with
/// the runs: what is held is what a batch gives, of 256 runs for each thread at most, with the length of each mistake
/// in them for each group, and the sums of a point.
///
/// The watcher hears of how many of the shard's runs the scenarios are read, and then how many are run. It is told of
/// each point of whose runs some passed their limit, and when rows are to go out. It takes away what it shows as the
/// sweep ends.
///
/// # Errors
///
/// `Refused` or `NoSuchProcess` where a run of the shard has no scenario, or not all processes that a group names, for
/// the first such run; then nothing went out, and the watcher heard of no limit. `Memory` where memory was refused:
/// then nothing went out, or the header and the first points' or runs' rows. `Write` where a put failed: then a front
/// part of these.
pub fn sweep<R: Threads + Sync + Clock, O: Outlet, W: Watcher>(
    rt: &R,
    alloc: Global,
    study: &SweptStudy<'_>,
    outlet: &mut O,
    watcher: &mut W,
) -> Result<(), SweepError>
    requires failures { O.failed outlet.old < 2 ^ 64 - 1 }
    ensures done { OnOk result (of_swept study.now
        (λ s g shard layout. WroteStudy s g shard layout O.told O.failed outlet.old outlet.new)) }
    ensures breaks_off { IfErr result (of_swept study.now
        (λ s g shard layout. BreaksOff s g shard layout O.told O.failed outlet.old outlet.new)) }
    ensures heard { OnOk result (of_swept study.now
        (λ s g shard _. HeardLimits W.heard watcher.old watcher.new s g (numbers_of g shard))) }
    ensures heard_some { OnErr result (of_swept study.now
        (λ s g shard _. HeardSomeLimits W.heard watcher.old watcher.new s g (numbers_of g shard))) }
    ensures unheard { IfErr result (λ e. RefusesRun e → HaveJoined W.heard watcher.old watcher.new []) }
    ensures hidden { W.shows watcher.new ≡ false }
{
    check_study(rt, alloc, study, watcher)?;
    run_study(rt, alloc, study, outlet, watcher)
}
