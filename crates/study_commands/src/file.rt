//! The files that paths name.
ghost use Rattle.std.specs.Prelude.{◌≡◌, ◌≢◌, ◌+◌, ℕ, List, Some, IfOk, IfErr, option_map};
ghost use Rattle.{diagnosis.specs.Diagnosis.{RefusesFor}, toml.specs.View.{table_view}};
ghost use Rattle.study.specs.Sources.{sources_of};
ghost use Rattle.study_commands.specs.{File.{AreBytes, AreFiles, IsOwnScenario, IsTable, MayBeTable, NameInputTwice, NameNoInput}, Refusal.{IsOfBytes, IsOfFiles, IsOfNetwork, IsOfOwnFile, IsOfTable, IsToldWith, IsUnread}};
ghost use Rattle.shell.specs.Ending.{TakesAtMost, input_path, most_bytes};

use crate::fault::Fault;
use diagnosis::{Diagnosis, Refused, diagnose};
use printable::Printable;
use scenario::{Scenario, read_scenario};
use shell::{InputError, bytes_at};
use std::alloc::Global;
use std::io::Read;
use std::rt::Files;
use study::Sources;
use study_line::SourceTexts;
use toml::Table;

/// The fault of a file that is refused, told with this text.
fn told_with(alloc: Global, path: &str, text: &str) -> Fault
    ensures { IsToldWith path.now text.now result }
{
    let path = Printable(path);
    Fault::Refused(format!(in alloc; "{path}: {text}\n").ok())
}

/// The bytes of the file at a path; `-` is the input.
pub(crate) fn bytes_of<R: Files, I: Read>(
    rt: &R,
    alloc: Global,
    path: &str,
    input: &mut I,
) -> Result<Vec<u8>, Fault>
    ensures bytes { IfOk result (λ v. AreBytes (I.remaining input.old) path.now v.items) }
    ensures why { IfErr result (IsUnread (I.remaining input.old) path.now) }
    ensures taken { TakesAtMost (most_bytes + 1) (I.remaining input.old) (I.remaining input.new) }
    ensures untouched { path.now ≢ input_path → input.new ≡ input.old }
{
    match bytes_at(rt, alloc, path, input) {
        Ok(bytes) => Ok(bytes),
        Err(InputError::NoSuchFile) => Err(told_with(alloc, path, "no such file")),
        Err(InputError::Unreadable) => Err(told_with(alloc, path, "unreadable")),
        Err(InputError::TooLong) => Err(told_with(alloc, path, "more than 8388608 bytes")),
        Err(InputError::Memory) => Err(Fault::Memory),
    }
}

/// The fault of bytes that are refused.
pub(crate) fn fault_of(alloc: Global, path: &str, refused: &Refused) -> Fault
    ensures { (bytes : List ℕ) → RefusesFor bytes refused.now → IsOfBytes path.now bytes result }
{
    let path = Printable(path);
    Fault::Refused(format!(in alloc; "{path}: {refused}\n").ok())
}

/// Why a file's bytes are refused. Where they aren't, memory was refused before.
fn refusal_of(alloc: Global, path: &str, bytes: &[u8]) -> Fault
    ensures { IsOfBytes path.now bytes.now result }
{
    match diagnose(alloc, bytes) {
        Ok(Diagnosis::Refused(refused)) => fault_of(alloc, path, &refused),
        Ok(Diagnosis::Accepted(_)) | Err(_) => Fault::Memory,
    }
}

/// The table of the file at a path; `-` is the input.
fn table_of<R: Files, I: Read>(
    rt: &R,
    alloc: Global,
    path: &str,
    input: &mut I,
) -> Result<Table, Fault>
    ensures table { IfOk result (λ t. IsTable (I.remaining input.old) path.now (table_view t)) }
    ensures why { IfErr result (IsOfTable (I.remaining input.old) path.now) }
    ensures taken { TakesAtMost (most_bytes + 1) (I.remaining input.old) (I.remaining input.new) }
    ensures untouched { path.now ≢ input_path → input.new ≡ input.old }
{
    let bytes = bytes_of(rt, alloc, path, input)?;
    match toml::table_from_slice(alloc, &bytes) {
        Ok(table) => Ok(table),
        Err(error) if error.is_memory() => Err(Fault::Memory),
        Err(_) => Err(refusal_of(alloc, path, &bytes)),
    }
}

/// The table of the network's file, where a path names one; `-` is the input.
fn network_of<R: Files, I: Read>(
    rt: &R,
    alloc: Global,
    path: Option<&str>,
    input: &mut I,
) -> Result<Option<Table>, Fault>
    ensures network { IfOk result (λ t. MayBeTable (I.remaining input.old) (option_map (λ w. w.now) path.entry)
        (option_map table_view t)) }
    ensures why { IfErr result (IsOfNetwork (I.remaining input.old) (option_map (λ w. w.now) path.entry)) }
    ensures taken { TakesAtMost (most_bytes + 1) (I.remaining input.old) (I.remaining input.new) }
    ensures untouched { option_map (λ w. w.now) path.entry ≢ Some input_path → input.new ≡ input.old }
{
    match path {
        Some(path) => Ok(Some(table_of(rt, alloc, path, input)?)),
        None => Ok(None),
    }
}

/// The files that are named; `-` is the input, for one of them at most.
pub(crate) fn files_of<R: Files, I: Read>(
    rt: &R,
    alloc: Global,
    texts: &SourceTexts<'_>,
    input: &mut I,
) -> Result<Sources, Fault>
    requires { ¬ NameInputTwice texts.now }
    ensures files { IfOk result (λ s. AreFiles (I.remaining input.old) texts.now (sources_of s)) }
    ensures why { IfErr result (IsOfFiles (I.remaining input.old) texts.now) }
    ensures taken { TakesAtMost (most_bytes + 1) (I.remaining input.old) (I.remaining input.new) }
    ensures untouched { NameNoInput texts.now → input.new ≡ input.old }
{
    let scenario = table_of(rt, alloc, texts.path, input)?;
    let network = network_of(rt, alloc, texts.network, input)?;
    Ok(Sources { scenario, network })
}

/// The scenario of the file at a path; `-` is the input.
pub(crate) fn own_scenario_at<R: Files, I: Read>(
    rt: &R,
    alloc: Global,
    path: &str,
    input: &mut I,
) -> Result<Scenario, Fault>
    ensures scenario { IfOk result (IsOwnScenario (I.remaining input.old) path.now) }
    ensures why { IfErr result (IsOfOwnFile (I.remaining input.old) path.now) }
    ensures taken { TakesAtMost (most_bytes + 1) (I.remaining input.old) (I.remaining input.new) }
    ensures untouched { path.now ≢ input_path → input.new ≡ input.old }
{
    let bytes = bytes_of(rt, alloc, path, input)?;
    match read_scenario(alloc, &bytes) {
        Ok(scenario) => Ok(scenario),
        Err(_) => Err(refusal_of(alloc, path, &bytes)),
    }
}
