//! The first runs of points, as far as they are looked at.
ghost use Rattle.std.specs.Prelude.{◌≡◌, ◌≤◌, ◌-◌, ◌<◌, IfOk, length};
ghost use Rattle.study.specs.{Grid.{points}, Sources.{sources_of}};
ghost use Rattle.study_commands.specs.{Inside.Warned.{AreFirst, IsFirstOf, IsRunOf}, Warnings.{IsFirst}};
ghost use Rattle.toml.specs.View.{table_view};

use crate::common_link::uses_link;
use crate::first_run::FirstRun;
use scenario::read_table;
use std::alloc::{AllocError, Global};
use std::marker::Sync;
use std::thread::Threads;
use study::{Grid, Sources, run_table};
use sweep::{all_of, in_parallel};
use toml::Table;

/// How many points are read at a time.
const BATCH: u64 = 4096;

/// What is looked at of a run with this table. Its scenario was read before, so this fails only where memory was
/// refused.
fn run_of(alloc: Global, table: &Table) -> Result<FirstRun, AllocError>
    ensures { IfOk result (IsRunOf (table_view table.now)) }
{
    let Ok(scenario) = read_table(alloc, table) else {
        return Err(AllocError);
    };
    let processes = scenario.processes();
    let uses_link = uses_link(alloc, table, processes)?;
    Ok(FirstRun {
        detector: scenario.detector(),
        horizon: scenario.horizon(),
        processes,
        uses_link,
    })
}

/// The table of a point's first run. It was made before, so this fails only where memory was refused.
fn first_table(
    alloc: Global,
    sources: &Sources,
    grid: &Grid,
    point: u64,
) -> Result<Table, AllocError>
    requires { point < length (points grid.now) }
    ensures { IfOk result (λ t. IsFirst (sources_of sources.now) grid.now point (table_view t)) }
{
    grid.recall_ranges();
    let settings = grid.point(alloc, point)?;
    let run = grid.run(alloc, 0)?;
    match run_table(alloc, sources, &settings, &run) {
        Ok(table) => Ok(table),
        Err(_) => Err(AllocError),
    }
}

/// The first run of a point.
fn first_run(
    alloc: Global,
    sources: &Sources,
    grid: &Grid,
    point: u64,
) -> Result<FirstRun, AllocError>
    requires { point < length (points grid.now) }
    ensures { IfOk result (IsFirstOf (sources_of sources.now) grid.now point) }
{
    let table = first_table(alloc, sources, grid, point)?;
    run_of(alloc, &table)
}

/// The first runs of the points from one number up to another, which are read by so many threads.
pub(crate) fn first_runs<R: Threads + Sync>(
    rt: &R,
    alloc: Global,
    sources: &Sources,
    grid: &Grid,
    begin: u64,
    end: u64,
    threads: u8,
) -> Result<Vec<FirstRun>, AllocError>
    requires order { begin ≤ end }
    requires within { end ≤ length (points grid.now) }
    ensures count { IfOk result (λ v. length v.items ≡ end - begin) }
    ensures first { IfOk result (λ v. AreFirst (sources_of sources.now) grid.now begin v.items) }
{
    grid.recall_ranges();
    let mut all = Vec::new(alloc);
    let mut next = begin;
    while next < end {
        let count = BATCH.min(end - next);
        let answers = in_parallel(
            rt,
            alloc,
            next,
            count,
            threads,
            &|point| first_run(alloc, sources, grid, point),
        )?;
        let more = all_of(alloc, answers)?;
        all.extend_from_slice(&more)?;
        next += count;
    }
    Ok(all)
}
