//! The command `sweep`: the table of a study.
ghost use Rattle.std.specs.Prelude.{◌≡◌, ◌^◌, ◌-◌, ◌+◌, ◌<◌, ◌≤◌, false, IfOk, IfErr, IfSome, OnOk, map, option_map};
ghost use Rattle.study_commands.specs.{Fault.{IsBefore, IsOfWordsFor}, File.{NameNoInput}, Study.{IsLayout, rows_for}, Inside.Private.{GoesForSweep, IsFaultOf, IsOfRun, TellsOfLayout}, Sweep.{IsSaid}, WarningText.{IsToldOfSweep}};
ghost use Rattle.study_commands.specs.{Why.{StopsSweep}, WordRefusals.{SaysNoLayout, is_layout_memory}};
ghost use Rattle.{study.specs.Sources.{sources_of}, shell.specs.Ending.{TakesAtMost, most_bytes}};

use crate::fault::Fault;
use crate::ready::ready_over;
use crate::refused_run::{line_of_lack, line_of_run};
use crate::sources::sources_over;
use crate::study_words::{grid_of, groups_of, shard_of};
use crate::unknown_column::line_of_unknown;
use crate::warned::Warned;
use reporting::Outlet;
use std::alloc::Global;
use std::io::Read;
use std::marker::Sync;
use std::rt::Files;
use std::thread::{Threads, available_parallelism};
use std::time::Clock;
use study::{Grid, Shard, Sources};
use study_line::{Each, SourceTexts, StudyTexts};
use sweep::{Layout, LayoutError, Rows, SweepError, SweptStudy, run_study};

/// How many threads share the runs: as many as were asked for, or else one for each processor; at most 64.
fn threads_for<R: Threads>(rt: &R, asked: Option<u64>) -> u8
    ensures few { result ≤ 64 }
    ensures asked { IfSome asked (λ count. count ≤ 64 → result ≡ count) }
{
    match asked {
        Some(count) => count.min(64) as u8,
        None => match available_parallelism(rt) {
            Ok(count) => count.get().min(64) as u8,
            Err(_) => 1,
        },
    }
}

/// The fault of runs of a study that break off.
pub(crate) fn fault_of(
    alloc: Global,
    path: &str,
    sources: &Sources,
    grid: &Grid,
    error: &SweepError,
) -> Fault
    requires { IsOfRun grid.now error.now }
    ensures { IsFaultOf error.now result }
{
    match error {
        SweepError::Refused { point, run, .. } => {
            let line = line_of_run(alloc, path, sources, grid, *point, *run);
            Fault::Refused(line.ok())
        }
        SweepError::NoSuchProcess {
            point,
            run,
            processes,
            ..
        } => Fault::Refused(line_of_lack(alloc, path, grid, *point, *run, *processes).ok()),
        SweepError::Memory => Fault::Memory,
        SweepError::Write => Fault::Write,
    }
}

/// Which rows a word asks for.
fn rows_of(each: Each) -> Rows
    ensures { result ≡ rows_for each }
{
    match each {
        Each::Point => Rows::Points,
        Each::Run => Rows::Runs,
    }
}

/// The fault of a word that names a column which there isn't, with one that is perhaps meant.
fn layout_fault(alloc: Global, error: &LayoutError) -> Fault
    ensures words { IsOfWordsFor (is_layout_memory error.now ≡ false) result }
    ensures line { TellsOfLayout error.now result }
{
    match error {
        LayoutError::Unknown { name, nearest } => {
            Fault::of_words(line_of_unknown(alloc, name.as_str(), nearest.as_str()))
        }
        LayoutError::Memory => Fault::WordsMemory,
    }
}

/// The layout of the rows that words ask for.
fn layout_of(
    alloc: Global,
    grid: &Grid,
    each: Each,
    pairs: &[&str],
    columns: Option<&str>,
) -> Result<Layout, Fault>
    ensures layout { IfOk result
        (IsLayout each (map (λ w. w.now) pairs.now) (option_map (λ w. w.now) columns.entry) grid.now) }
    ensures refused { IfErr result (IsOfWordsFor
        (SaysNoLayout each (map (λ w. w.now) pairs.now) (option_map (λ w. w.now) columns.entry) grid.now)) }
{
    let groups = groups_of(alloc, pairs)?;
    Layout::new(alloc, grid, rows_of(each), groups, columns).map_err(|error| layout_fault(
        alloc, &error,
    ))
}

/// A study that words say of the files that they name.
#[derive(Drop)]
pub(crate) struct SaidStudy {
    /// The files.
    pub(crate) sources: Sources,
    /// Its points and the runs of each.
    pub(crate) grid: Grid,
    /// Which of its points are swept.
    pub(crate) shard: Shard,
    /// What its rows have.
    pub(crate) layout: Layout,
    /// How many threads share its runs.
    pub(crate) threads: u8,
}

/// The study that words say of the files that they name, `-` being the input.
pub(crate) fn said_over<R: Files + Threads, I: Read>(
    rt: &R,
    alloc: Global,
    texts: &SourceTexts<'_>,
    study: &StudyTexts<'_>,
    input: &mut I,
) -> Result<SaidStudy, Fault>
    ensures said { IfOk result (λ s.
        IsSaid (I.remaining input.old) texts.now study.now (sources_of s.sources) s.grid s.shard s.layout) }
    ensures why { IfErr result (IsBefore (StopsSweep (I.remaining input.old) texts.now study.now)) }
    ensures taken { TakesAtMost (most_bytes + 1) (I.remaining input.old) (I.remaining input.new) }
    ensures untouched { NameNoInput texts.now → input.new ≡ input.old }
{
    let grid = grid_of(alloc, &study.grid)?;
    let shard = shard_of(alloc, study.shard)?;
    let layout = layout_of(alloc, &grid, study.each, &study.pairs, study.columns)?;
    let sources = sources_over(rt, alloc, texts, &grid, input)?;
    let threads = threads_for(rt, study.threads);
    Ok(SaidStudy {
        sources,
        grid,
        shard,
        layout,
        threads,
    })
}

/// Answers `sweep`: the rows of the study's points, or of their runs; of the shard's where one is named. The watcher is
/// told before the first run what may mislead of the study.
pub(crate) fn serve_sweep<R: Files + Threads + Sync + Clock, I: Read, O: Outlet, W: Warned>(
    rt: &R,
    alloc: Global,
    texts: &SourceTexts<'_>,
    study: &StudyTexts<'_>,
    input: &mut I,
    outlet: &mut O,
    watcher: &mut W,
) -> Result<(), Fault>
    requires { O.failed outlet.old < 2 ^ 64 - 1 }
    ensures text { GoesForSweep O.told O.failed outlet.old outlet.new (I.remaining input.old) texts.now
        study.now result }
    ensures why { IfErr result (StopsSweep (I.remaining input.old) texts.now study.now) }
    ensures taken { TakesAtMost (most_bytes + 1) (I.remaining input.old) (I.remaining input.new) }
    ensures untouched { NameNoInput texts.now → input.new ≡ input.old }
    ensures told { OnOk result
        (IsToldOfSweep W.heard W.warned watcher.old watcher.new (I.remaining input.old) texts.now study.now) }
    ensures hidden { W.shows watcher.old ≡ false → W.shows watcher.new ≡ false }
{
    let said = ready_over(rt, alloc, texts, study, input, watcher)?;
    let swept = SweptStudy {
        sources: &said.sources,
        grid: &said.grid,
        shard: said.shard,
        layout: &said.layout,
        threads: said.threads,
    };
    match run_study(rt, alloc, &swept, outlet, watcher) {
        Ok(()) => Ok(()),
        Err(error) => Err(fault_of(alloc, texts.path, &said.sources, &said.grid, &error)),
    }
}
