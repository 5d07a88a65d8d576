//! Tells the warnings of a scenario or a study, before the first run.
ghost use Rattle.std.specs.Prelude.{◌≡◌, false, map, OnOk};
ghost use Rattle.study.specs.Sources.{sources_of};
ghost use Rattle.study_commands.specs.{Inside.Warned.{warning_of}, WarningText.{IsWarnedOf, IsWarnedOfStudy, warning_line}};
ghost use Rattle.trace_laws.specs.Taken.{HaveJoined};

use crate::first_runs::first_runs;
use crate::late::late_of;
use crate::warned::Warned;
use crate::warning::{Warning, warnings_of};
use crate::warning_line::{line_of, line_of_late};
use scenario::Scenario;
use std::alloc::{AllocError, Global};
use std::marker::Sync;
use std::thread::Threads;
use study::{Grid, Shard, Sources};
use sweep::points_of;

/// Tells what may mislead of a scenario.
pub(crate) fn warn_of<W: Warned>(
    alloc: Global,
    scenario: &Scenario,
    watcher: &mut W,
) -> Result<(), AllocError>
    ensures told { OnOk result (IsWarnedOf W.warned watcher.old watcher.new scenario.now) }
    ensures hidden { W.shows watcher.old ≡ false → W.shows watcher.new ≡ false }
{
    scenario.recall_ranges();
    if let Some(late) = late_of(scenario.detector(), scenario.horizon()) {
        watcher.warn(line_of_late(alloc, late)?.as_str());
    }
    Ok(())
}

/// Tells these warnings about a study, of which so many points count.
fn warn_all<W: Warned>(
    alloc: Global,
    grid: &Grid,
    of: u64,
    warnings: &[Warning<'_>],
    watcher: &mut W,
) -> Result<(), AllocError>
    ensures told { OnOk result (HaveJoined W.warned watcher.old watcher.new
        (map (warning_line grid.now of) (map warning_of warnings.now))) }
    ensures hidden { W.shows watcher.old ≡ false → W.shows watcher.new ≡ false }
{
    for warning in warnings {
        watcher.warn(line_of(alloc, grid, of, warning)?.as_str());
    }
    Ok(())
}

/// Tells what may mislead of a study whose runs are accepted, of a shard's points, which are looked at by so many
/// threads.
pub(crate) fn warn_of_study<R: Threads + Sync, W: Warned>(
    rt: &R,
    alloc: Global,
    sources: &Sources,
    grid: &Grid,
    shard: Shard,
    threads: u8,
    watcher: &mut W,
) -> Result<(), AllocError>
    ensures told { OnOk result
        (IsWarnedOfStudy W.warned watcher.old watcher.new (sources_of sources.now) grid.now shard) }
    ensures hidden { W.shows watcher.old ≡ false → W.shows watcher.new ≡ false }
{
    let (begin, end) = points_of(grid, shard);
    let runs = first_runs(rt, alloc, sources, grid, begin, end, threads)?;
    let warnings = warnings_of(alloc, sources, grid, begin, &runs)?;
    warn_all(alloc, grid, end - begin, &warnings, watcher)
}
