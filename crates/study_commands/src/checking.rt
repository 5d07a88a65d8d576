//! The command `check`, which says what a scenario file has, or where it breaks a rule and why.
ghost use Rattle.std.specs.Prelude.{◌≡◌, ◌≢◌, ◌+◌, ◌++◌, false, Ok, IfOk, IfErr, OnOk, string_bytes};
ghost use Rattle.{promised.specs.Promised.{promised}, scenario.specs.{Refusals.{Accepts}, Text.{record_of}}};
ghost use Rattle.{scenario_record.specs.Record.{Record}, study.specs.{Laid.{IsScenarioOf}, Sources.{sources_of}}};
ghost use Rattle.study_commands.specs.{Check.{bounds_text, IsCheckAnswer, TellsOf, limit_text, window_text}, Inside.{Private.{accepted_line}, Setting.{StandsForNone}}, Fault.{IsBefore}, File.{IsOwnScenario, NameNoInput}};
ghost use Rattle.study_commands.specs.{Refusal.{IsOfOwnFile}, WarningText.{IsToldOfFile, IsWarnedOf}, Why.{StopsCheck}};
ghost use Rattle.{shell.specs.Ending.{TakesAtMost, input_path, most_bytes}, toml.specs.View.{table_view}};

use crate::alone::{is_alone, sources_alone, table_of_sources};
use crate::bounds_lines::bounds_lines;
use crate::fault::Fault;
use crate::file::{bytes_of, fault_of};
use crate::warn::warn_of;
use crate::warned::Warned;
use diagnosis::{Accepted, Diagnosis, Refused, diagnose, diagnose_table};
use printable::Printable;
use scenario::{Scenario, read_scenario, read_table};
use std::alloc::{AllocError, Global};
use std::io::Read;
use std::rt::Files;
use study::Sources;
use study_line::SourceTexts;
use toml::Table;

/// That a run may have more entries than its limit, where that is so.
fn limit_line(alloc: Global, limit: u64, entries: u64) -> Result<String, AllocError>
    ensures { IfOk result (λ s. string_bytes s ≡ limit_text limit entries) }
{
    if limit < entries {
        format!(in alloc; "limit {limit} may stop the run\n")
    } else {
        Ok(String::new(alloc))
    }
}

/// From so many entries a window on, a run by 4 workers was the quicker one where it was measured, on 4 cores
/// (docs/SPEED.md, 'By windows').
pub const WORTH_FOUR_WORKERS: u64 = 14_000;

/// How long the windows of a run may be, about how much they then are, and which way is likely faster.
fn window_line(alloc: Global, ticks: u32, entries: u64) -> Result<String, AllocError>
    ensures { IfOk result (λ s. string_bytes s ≡ window_text ticks entries) }
{
    if entries < WORTH_FOUR_WORKERS {
        format!(in alloc;
            "windows of {ticks} ticks have about {entries} entries: list is likely faster\n"
        )
    } else {
        format!(in alloc;
            "windows of {ticks} ticks have about {entries} entries: run by 4 workers is likely faster\n"
        )
    }
}

/// The lines of an accepted file.
fn line_of(alloc: Global, accepted: &Accepted) -> Result<String, AllocError>
    ensures { IfOk result (λ s. string_bytes s ≡ accepted_line accepted.now) }
{
    let (processes, horizon) = (accepted.processes, accepted.horizon);
    let (entries, seconds) = (accepted.estimate.entries, accepted.estimate.seconds);
    let windows = window_line(alloc, accepted.window, accepted.estimate.in_window)?;
    let more = limit_line(alloc, accepted.limit, entries)?;
    format!(in alloc;
        "ok: {processes} processes, horizon {horizon}, about {entries} entries in {seconds} s\n{windows}{more}"
    )
}

/// The lines of an accepted scenario. The watcher is told before what may mislead of it.
fn tell_of<W: Warned>(
    alloc: Global,
    accepted: &Accepted,
    scenario: &Scenario,
    watcher: &mut W,
) -> Result<Vec<u8>, AllocError>
    ensures text { IfOk result (λ text. text.items
        ≡ accepted_line accepted.now ++ bounds_text scenario.now.detector (promised scenario.now)) }
    ensures told { OnOk result (IsWarnedOf W.warned watcher.old watcher.new scenario.now) }
    ensures hidden { W.shows watcher.old ≡ false → W.shows watcher.new ≡ false }
{
    let size = line_of(alloc, accepted)?;
    let bounds = bounds_lines(alloc, scenario)?;
    let text = format!(in alloc; "{size}{bounds}")?;
    warn_of(alloc, scenario, watcher)?;
    Ok(text.into_bytes())
}

/// The scenario of accepted bytes.
fn scenario_of_bytes(alloc: Global, bytes: &[u8]) -> Result<Scenario, AllocError>
    ensures { IfOk result (λ s. Accepts bytes.now s) }
{
    match read_scenario(alloc, bytes) {
        Ok(scenario) => Ok(scenario),
        Err(_) => Err(AllocError),
    }
}

/// What `check` says of the file at a path alone; `-` is the input. The watcher is told before what may mislead of it.
fn check_own<R: Files, I: Read, W: Warned>(
    rt: &R,
    alloc: Global,
    path: &str,
    input: &mut I,
    watcher: &mut W,
) -> Result<Vec<u8>, Fault>
    ensures text { IfOk result (λ text. (s : Record) × IsOwnScenario (I.remaining input.old) path.now s
        × TellsOf s text.items) }
    ensures why { IfErr result (IsOfOwnFile (I.remaining input.old) path.now) }
    ensures taken { TakesAtMost (most_bytes + 1) (I.remaining input.old) (I.remaining input.new) }
    ensures untouched { path.now ≢ input_path → input.new ≡ input.old }
    ensures told { OnOk result ((s : Record) × IsOwnScenario (I.remaining input.old) path.now s
        × IsWarnedOf W.warned watcher.old watcher.new s) }
    ensures hidden { W.shows watcher.old ≡ false → W.shows watcher.new ≡ false }
{
    let bytes = bytes_of(rt, alloc, path, input)?;
    match diagnose(alloc, &bytes)? {
        Diagnosis::Accepted(accepted) => {
            let scenario = scenario_of_bytes(alloc, &bytes)?;
            Ok(tell_of(alloc, &accepted, &scenario, watcher)?)
        }
        Diagnosis::Refused(refused) => Err(fault_of(alloc, path, &refused)),
    }
}

/// The line of files that are refused.
fn line_of_refused(alloc: Global, path: &str, refused: &Refused) -> Result<String, AllocError> {
    let path = Printable(path);
    format!(in alloc; "{path}: {refused}\n")
}

/// The scenario of an accepted table.
fn scenario_of_table(alloc: Global, table: &Table) -> Result<Scenario, AllocError>
    ensures { IfOk result (λ s. s ≡ record_of (table_view table.now)) }
{
    match read_table(alloc, table) {
        Ok(scenario) => Ok(scenario),
        Err(_) => Err(AllocError),
    }
}

/// What `check` says of files as they stand, with the scenario's own seed. The watcher is told before what may mislead
/// of them.
fn check_sources<W: Warned>(
    alloc: Global,
    path: &str,
    sources: &Sources,
    watcher: &mut W,
) -> Result<Vec<u8>, Fault>
    ensures text { IfOk result (λ text. (s : Record) × IsScenarioOf (Ok (sources_of sources.now)) s
        × TellsOf s text.items) }
    ensures why { IfErr result (StandsForNone (sources_of sources.now)) }
    ensures told { OnOk result ((s : Record) × IsScenarioOf (Ok (sources_of sources.now)) s
        × IsWarnedOf W.warned watcher.old watcher.new s) }
    ensures hidden { W.shows watcher.old ≡ false → W.shows watcher.new ≡ false }
{
    let table = table_of_sources(alloc, path, sources)?;
    match diagnose_table(alloc, &table)? {
        Diagnosis::Accepted(accepted) => {
            let scenario = scenario_of_table(alloc, &table)?;
            Ok(tell_of(alloc, &accepted, &scenario, watcher)?)
        }
        Diagnosis::Refused(refused) => Err(Fault::Refused(line_of_refused(
            alloc, path, &refused,
        ).ok())),
    }
}

/// Answers `check`: how many processes accepted files have, the horizon, about how much a run of it and a window are,
/// where its limit may stop that, and what no run of it breaks. The watcher is told before what may mislead of them.
pub(crate) fn serve_check<R: Files, I: Read, W: Warned>(
    rt: &R,
    alloc: Global,
    texts: &SourceTexts<'_>,
    input: &mut I,
    watcher: &mut W,
) -> Result<Vec<u8>, Fault>
    ensures text { IfOk result (λ text. IsCheckAnswer (I.remaining input.old) texts.now text.items) }
    ensures why { IfErr result (IsBefore (StopsCheck (I.remaining input.old) texts.now)) }
    ensures taken { TakesAtMost (most_bytes + 1) (I.remaining input.old) (I.remaining input.new) }
    ensures untouched { NameNoInput texts.now → input.new ≡ input.old }
    ensures told { OnOk result (IsToldOfFile W.warned watcher.old watcher.new (I.remaining input.old) texts.now) }
    ensures hidden { W.shows watcher.old ≡ false → W.shows watcher.new ≡ false }
{
    if is_alone(texts) {
        return check_own(rt, alloc, texts.path, input, watcher);
    }
    let sources = sources_alone(rt, alloc, texts, input)?;
    check_sources(alloc, texts.path, &sources, watcher)
}
