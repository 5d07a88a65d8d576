//! Reads every run's scenario, before the first run starts.
ghost use Rattle.std.specs.Prelude.{◌≡◌, ℕ, ◌*◌, ◌^◌, ◌<◌, ◌≤◌, [], true, false, length, slice_index_or, OnOk, IfErr, IfNone, IfSome};
ghost use Rattle.trace_laws.specs.Taken.{HaveJoined};
ghost use Rattle.study.specs.{Sources.{sources_of}, Grid.{points, runs}, Laid.{is_memory}};
ghost use Rattle.sweep.specs.{Inside.Progress.{point_of, ArePointsReady, IsLack, IsReadyAt, IsRefusalAt, IsFirstRefusal}, Groups.{first_above}, Outcome.{AreReady, CantBeRun}};

use crate::batches::Batches;
use crate::error::SweepError;
use crate::group::Group;
use crate::numbering::{points_of, scenario_of};
use crate::swept_study::SweptStudy;
use crate::watcher::{Pass, Standing, Watcher};
use scenario::{Scenario, ScenarioError};
use std::alloc::Global;
use std::marker::Sync;
use std::thread::Threads;
use std::time::Clock;
use study::{Grid, PlaceError, ReadError, Sources};

/// Whether memory was refused.
fn is_want_of_memory(reason: &ReadError) -> bool
    ensures { result ≡ is_memory reason.now }
{
    match reason {
        ReadError::Place(PlaceError::Memory(_)) => true,
        ReadError::Scenario(ScenarioError::Memory) => true,
        _ => false,
    }
}

/// The place of the first of the groups that names a process above this one.
fn first_above(groups: &[Group], process: u16) -> Option<usize>
    ensures { result ≡ first_above process groups.now }
{
    groups.iter().position(|group| group.is_above(process))
}

/// Whether the run of this number can be run: it has a scenario, and in this all processes that groups name.
fn is_ready(alloc: Global, sources: &Sources, grid: &Grid, groups: &[Group], number: u64) -> bool
    requires some { 1 ≤ length (runs grid.now) }
    requires within { point_of grid.now number < length (points grid.now) }
    ensures { result ≡ true → IsReadyAt (sources_of sources.now) grid.now groups.now number }
{
    match scenario_of(alloc, sources, grid, number) {
        Ok(scenario) => first_above(groups, scenario.processes()).is_none(),
        Err(_reason) => false,
    }
}

/// Why a scenario, which a run has, can't be run. Where it can after all, memory was refused before.
fn lack(scenario: &Scenario, groups: &[Group], point: u64, run: u64) -> SweepError
    ensures { IsLack scenario.now groups.now point run result }
{
    let processes = scenario.processes();
    match first_above(groups, processes) {
        Some(group) => SweepError::NoSuchProcess {
            point,
            run,
            group,
            processes,
        },
        None => SweepError::Memory,
    }
}

/// Why the run of this number can't be run.
fn refusal(
    alloc: Global,
    sources: &Sources,
    grid: &Grid,
    groups: &[Group],
    number: u64,
) -> SweepError
    requires some { 1 ≤ length (runs grid.now) }
    requires within { point_of grid.now number < length (points grid.now) }
    ensures { IsRefusalAt (sources_of sources.now) grid.now groups.now number result }
{
    let runs = grid.runs();
    let (point, run) = (number / runs, number % runs);
    let reason = match scenario_of(alloc, sources, grid, number) {
        Ok(scenario) => return lack(&scenario, groups, point, run),
        Err(reason) => reason,
    };
    if is_want_of_memory(&reason) {
        return SweepError::Memory;
    }
    SweepError::Refused { point, run, reason }
}

/// The first place that is `false`.
fn first_false(all: &[bool]) -> Option<usize>
    ensures none { IfNone result ((i : ℕ) (d : _) → i < length all.now → slice_index_or all.now i d ≡ true) }
    ensures some { IfSome result (λ k. (k < length all.now)
        × ((i : ℕ) (d : _) → i < k → slice_index_or all.now i d ≡ true)) }
{
    all.iter().position(|is_true| !is_true)
}

/// Reads the scenarios of all runs of the points from one number up to another, in batches. The watcher hears of the
/// beginning, and whenever more are read.
///
/// # Errors
///
/// `Refused` or `NoSuchProcess` for the first run that can't be run, or `Memory`.
fn check_runs<R: Threads + Sync + Clock, W: Watcher>(
    mut batches: Batches<'_, R>,
    sources: &Sources,
    grid: &Grid,
    groups: &[Group],
    begin: u64,
    end: u64,
    watcher: &mut W,
) -> Result<(), SweepError>
    requires some { 1 ≤ length (runs grid.now) }
    requires order { begin ≤ end }
    requires within { end ≤ length (points grid.now) }
    requires room { length (points grid.now) * length (runs grid.now) < 2 ^ 64 }
    ensures ok { OnOk result (ArePointsReady (sources_of sources.now) grid.now groups.now begin end) }
    ensures err { IfErr result (IsFirstRefusal (sources_of sources.now) grid.now groups.now
        (begin * length (runs grid.now)) (end * length (runs grid.now))) }
    ensures heard { HaveJoined W.heard watcher.old watcher.new [] }
{
    let alloc = batches.alloc;
    let runs = grid.runs();
    let points = end - begin;
    let (first, past) = (begin * runs, end * runs);
    let mut next = first;
    let begun = Standing {
        pass: Pass::Reading,
        points,
        runs,
        done: 0,
    };
    watcher.hear(begun);
    while next < past {
        let are_read = batches.run(
            next,
            past,
            &|number| is_ready(alloc, sources, grid, groups, number),
        )?;
        if let Some(place) = first_false(&are_read) {
            return Err(refusal(alloc, sources, grid, groups, next + place as u64));
        }
        next += are_read.len() as u64;
        let done = next - first;
        watcher.hear(Standing { done, ..begun });
    }
    Ok(())
}

/// Reads the scenarios of all runs of a shard's points, by the study's threads. The scenarios have the processes that
/// the layout's groups name. The watcher hears how many are read. At the end it takes away what it shows.
///
/// # Errors
///
/// For the first run that can't be run `Refused`, where it has no scenario, or `NoSuchProcess`, where a group names a
/// process above its own; or `Memory`.
pub fn check_study<R: Threads + Sync + Clock, W: Watcher>(
    rt: &R,
    alloc: Global,
    study: &SweptStudy<'_>,
    watcher: &mut W,
) -> Result<(), SweepError>
    ensures ok { OnOk result
        (AreReady (sources_of study.now.sources.now) study.now.grid.now study.now.layout.now.groups study.now.shard) }
    ensures err { IfErr result
        (CantBeRun (sources_of study.now.sources.now) study.now.grid.now study.now.layout.now.groups study.now.shard) }
    ensures heard { HaveJoined W.heard watcher.old watcher.new [] }
    ensures hidden { W.shows watcher.new ≡ false }
{
    let (sources, grid, groups) = (study.sources, study.grid, study.layout.groups());
    grid.recall_ranges();
    let (begin, end) = points_of(grid, study.shard);
    let batches = Batches::new(rt, alloc, study.threads);
    let answer = check_runs(batches, sources, grid, groups, begin, end, watcher);
    watcher.hide();
    answer
}
