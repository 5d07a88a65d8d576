//! The command `check` with a study: how many points and runs there are, and about how large they will be.
ghost use Rattle.std.specs.Prelude.{◌≡◌, ◌+◌, false, IfOk, IfErr, OnOk, string_bytes};
ghost use Rattle.study_commands.specs.{Check.{IsStudyCheck}, Inside.Setting.{TellsOfStudy}, WarningText.{IsToldOfCheck}, Why.{StopsSweep}, Fault.{IsBefore}, File.{NameNoInput}};
ghost use Rattle.shell.specs.Ending.{TakesAtMost, most_bytes};

use crate::fault::Fault;
use crate::progress_line::time_of;
use crate::ready::ready_over;
use crate::reckoning::{Above, Reckoned, reckon};
use crate::run_name::name_of_run;
use crate::sweeping::SaidStudy;
use crate::warned::Warned;
use diagnosis::ENTRIES_A_SECOND;
use printable::Printable;
use std::alloc::{AllocError, Global};
use std::io::Read;
use std::marker::Sync;
use std::rt::Files;
use std::thread::Threads;
use std::time::Clock;
use study::Grid;
use study_line::{SourceTexts, StudyTexts};

/// About how many entries the runs have, and how long they take by so many threads.
fn size_text(alloc: Global, reckoned: &Reckoned, threads: u8) -> Result<String, AllocError> {
    let entries = reckoned.entries;
    let rate = u128::from(ENTRIES_A_SECOND).saturating_mul(u128::from(threads.max(1)));
    let seconds = entries.div_ceil(rate.max(1));
    let time = time_of(alloc, seconds.min(u128::from(u64::MAX)) as u64)?;
    format!(in alloc; ", about {entries} entries in {time} by {threads} threads\n")
}

/// That a limit may stop a run, and which limit would do for all, if there is one.
fn limit_text(
    alloc: Global,
    grid: &Grid,
    above: &Above,
    limit: Option<u64>,
) -> Result<String, AllocError> {
    if above.point >= grid.points() || above.run >= grid.runs() {
        return Ok(String::new(alloc));
    }
    let name = name_of_run(alloc, grid, above.point, above.run)?;
    let name = Printable(name.as_str());
    let (entries, its) = (above.entries, above.limit);
    let text = format!(in alloc; "limit {its} may stop {name}, which has about {entries} entries")?;
    match limit {
        Some(limit) => format!(in alloc; "{text}; limit={limit} would do for all\n"),
        None => format!(in alloc; "{text}; no limit of a file would do for all\n"),
    }
}

/// What is reckoned of a study's runs, in words.
fn reckoned_text(
    alloc: Global,
    grid: &Grid,
    reckoned: &Reckoned,
    threads: u8,
) -> Result<String, AllocError> {
    let mut text = size_text(alloc, reckoned, threads)?;
    if let Some(above) = &reckoned.above {
        text.push_str(limit_text(alloc, grid, above, reckoned.possible_limit())?.as_str())?;
    }
    Ok(text)
}

/// The text of a study that can be run.
fn text_of<R: Threads + Sync>(rt: &R, alloc: Global, said: &SaidStudy) -> Result<String, AllocError>
    ensures { IfOk result (λ s. TellsOfStudy said.now (string_bytes s)) }
{
    let (grid, threads) = (&said.grid, said.threads);
    let runs = grid.runs();
    let its = said.shard.points(grid.points() as u32);
    let range = u64::from(its.start)..u64::from(its.end);
    let points = its.end - its.start;
    let reckoned = reckon(rt, alloc, &said.sources, grid, range, threads)?;
    let mut text = format!(in alloc; "ok: {points} points of {runs} runs each")?;
    text.push_str(reckoned_text(alloc, grid, &reckoned, threads)?.as_str())?;
    Ok(text)
}

/// Answers `check` with a study: how many points and runs there are, of the shard where one is named, about how many
/// entries they have, how long that takes, and of a run that its limit may stop. The scenario of each run is read. It
/// is refused where `sweep` is before the first run. The watcher is told before what may mislead of the study.
pub(crate) fn serve_study_check<R: Files + Threads + Sync + Clock, I: Read, W: Warned>(
    rt: &R,
    alloc: Global,
    texts: &SourceTexts<'_>,
    study: &StudyTexts<'_>,
    input: &mut I,
    watcher: &mut W,
) -> Result<Vec<u8>, Fault>
    ensures text { IfOk result (λ text. IsStudyCheck (I.remaining input.old) texts.now study.now text.items) }
    ensures why { IfErr result (IsBefore (StopsSweep (I.remaining input.old) texts.now study.now)) }
    ensures taken { TakesAtMost (most_bytes + 1) (I.remaining input.old) (I.remaining input.new) }
    ensures untouched { NameNoInput texts.now → input.new ≡ input.old }
    ensures told { OnOk result
        (IsToldOfCheck W.heard W.warned watcher.old watcher.new (I.remaining input.old) texts.now study.now) }
    ensures hidden { W.shows watcher.old ≡ false → W.shows watcher.new ≡ false }
{
    let said = ready_over(rt, alloc, texts, study, input, watcher)?;
    Ok(text_of(rt, alloc, &said)?.into_bytes())
}
