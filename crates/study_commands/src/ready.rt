//! Studies that are ready for their first run: all scenarios are read, and warnings are told.
ghost use Rattle.std.specs.Prelude.{◌≡◌, ◌+◌, false, IfErr, IfOk, OnOk};
ghost use Rattle.{shell.specs.Ending.{TakesAtMost, most_bytes}, study.specs.Sources.{sources_of}};
ghost use Rattle.study_commands.specs.{Fault.{IsBefore}, File.{NameNoInput}, Inside.Setting.{CantBeSwept}, Sweep.{IsSaid}, WarningText.{IsToldAfterReading}, Why.{StopsSweep}};
ghost use Rattle.sweep.specs.Outcome.{AreReady};

use crate::fault::Fault;
use crate::sweeping::{SaidStudy, fault_of, said_over};
use crate::warn::warn_of_study;
use crate::warned::Warned;
use std::alloc::Global;
use std::io::Read;
use std::marker::Sync;
use std::rt::Files;
use std::thread::Threads;
use std::time::Clock;
use study_line::{SourceTexts, StudyTexts};
use sweep::{SweptStudy, check_study};

/// Reads the scenarios of all runs of a shard's points, and then tells the watcher what may mislead of the study. The
/// fault is that of the first run that can't be run, or of memory.
fn make_ready<R: Threads + Sync + Clock, W: Warned>(
    rt: &R,
    alloc: Global,
    path: &str,
    said: &SaidStudy,
    watcher: &mut W,
) -> Result<(), Fault>
    ensures ready { OnOk result
        (AreReady (sources_of said.now.sources) said.now.grid said.now.layout.groups said.now.shard) }
    ensures told { OnOk result (IsToldAfterReading W.heard W.warned watcher.old watcher.new
        (sources_of said.now.sources) said.now.grid said.now.shard) }
    ensures why { IfErr result (CantBeSwept said.now) }
    ensures hidden { W.shows watcher.new ≡ false }
{
    let (shard, threads) = (said.shard, said.threads);
    let swept = SweptStudy {
        sources: &said.sources,
        grid: &said.grid,
        shard,
        layout: &said.layout,
        threads,
    };
    match check_study(rt, alloc, &swept, watcher) {
        Ok(()) => Ok(warn_of_study(
            rt,
            alloc,
            &said.sources,
            &said.grid,
            shard,
            threads,
            watcher,
        )?),
        Err(error) => Err(fault_of(alloc, path, &said.sources, &said.grid, &error)),
    }
}

/// The study that words say of the files that they name, `-` being the input, ready for its first run. The watcher is
/// told before what may mislead of the study.
pub(crate) fn ready_over<R: Files + Threads + Sync + Clock, I: Read, W: Warned>(
    rt: &R,
    alloc: Global,
    texts: &SourceTexts<'_>,
    study: &StudyTexts<'_>,
    input: &mut I,
    watcher: &mut W,
) -> Result<SaidStudy, Fault>
    ensures said { IfOk result (λ s.
        IsSaid (I.remaining input.old) texts.now study.now (sources_of s.sources) s.grid s.shard s.layout) }
    ensures ready { IfOk result (λ s. AreReady (sources_of s.sources) s.grid s.layout.groups s.shard) }
    ensures told { IfOk result (λ s.
        IsToldAfterReading W.heard W.warned watcher.old watcher.new (sources_of s.sources) s.grid s.shard) }
    ensures why { IfErr result (IsBefore (StopsSweep (I.remaining input.old) texts.now study.now)) }
    ensures taken { TakesAtMost (most_bytes + 1) (I.remaining input.old) (I.remaining input.new) }
    ensures untouched { NameNoInput texts.now → input.new ≡ input.old }
    ensures hidden { W.shows watcher.old ≡ false → W.shows watcher.new ≡ false }
{
    let said = said_over(rt, alloc, texts, study, input)?;
    make_ready(rt, alloc, texts.path, &said, watcher)?;
    Ok(said)
}
