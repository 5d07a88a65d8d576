//! The scenario of the files that a command line names, where no study is asked for.
ghost use Rattle.std.specs.Prelude.{◌≡◌, ◌+◌, Ok, IfErr, IfOk};
ghost use Rattle.shell.specs.Ending.{TakesAtMost, most_bytes};
ghost use Rattle.study.specs.{Laid.{IsRunTable, IsScenarioOf, is_memory}, Sources.{sources_of}};
ghost use Rattle.toml.specs.View.{table_view};
ghost use Rattle.study_commands.specs.{File.{AreSources, IsScenario, NameNoInput, is_alone as is_alone_in, no_axes}, Refusal.{IsOfFile, IsOfSources}, Inside.Setting.{StandsForNone}};

use crate::fault::Fault;
use crate::file::own_scenario_at;
use crate::refused_run::line_alone;
use crate::sources::{is_place_memory, sources_over};
use scenario::{Scenario, ScenarioError};
use std::alloc::Global;
use std::io::Read;
use std::rt::Files;
use study::{Grid, PlaceError, ReadError, Sources, read_alone, table_alone};
use study_line::SourceTexts;
use toml::Table;

/// Whether a scenario's file alone is named, and nothing is set in it.
pub(crate) fn is_alone(texts: &SourceTexts<'_>) -> bool
    ensures { result ≡ is_alone_in texts.now }
{
    texts.network.is_none() && texts.set.is_empty()
}

/// A grid without axes.
fn no_grid(alloc: Global) -> Result<Grid, Fault>
    ensures grid { IfOk result (λ g. g ≡ no_axes) }
    ensures refused { IfErr result (λ f. f ≡ Fault.WordsMemory) }
{
    let none = Grid::new(
        alloc,
        Vec::new(alloc),
        Vec::new(alloc),
        Vec::new(alloc),
        0,
        0,
    );
    none.map_err(|_| Fault::WordsMemory)
}

/// The files that words name, with what they set in them, where no study is asked for.
pub(crate) fn sources_alone<R: Files, I: Read>(
    rt: &R,
    alloc: Global,
    texts: &SourceTexts<'_>,
    input: &mut I,
) -> Result<Sources, Fault>
    ensures sources { IfOk result (λ s. AreSources (I.remaining input.old) texts.now no_axes (sources_of s)) }
    ensures why { IfErr result (IsOfSources (I.remaining input.old) texts.now no_axes) }
    ensures taken { TakesAtMost (most_bytes + 1) (I.remaining input.old) (I.remaining input.new) }
    ensures untouched { NameNoInput texts.now → input.new ≡ input.old }
{
    let grid = no_grid(alloc)?;
    sources_over(rt, alloc, texts, &grid, input)
}

/// Whether memory was refused.
fn is_of_memory(error: &ReadError) -> bool
    ensures { result ≡ is_memory error.now }
{
    matches!(
        error,
        ReadError::Place(PlaceError::Memory(_)) | ReadError::Scenario(ScenarioError::Memory)
    )
}

/// The scenario for which files stand.
fn scenario_of(alloc: Global, path: &str, sources: &Sources) -> Result<Scenario, Fault>
    ensures scenario { IfOk result (IsScenarioOf (Ok (sources_of sources.now))) }
    ensures why { IfErr result (StandsForNone (sources_of sources.now)) }
{
    match read_alone(alloc, sources) {
        Ok(scenario) => Ok(scenario),
        Err(error) if is_of_memory(&error) => Err(Fault::Memory),
        Err(_) => Err(Fault::Refused(line_alone(alloc, path, sources).ok())),
    }
}

/// The table for which files stand.
pub(crate) fn table_of_sources(alloc: Global, path: &str, sources: &Sources) -> Result<Table, Fault>
    ensures table { IfOk result (λ t. IsRunTable (Ok (sources_of sources.now)) (table_view t)) }
    ensures why { IfErr result (StandsForNone (sources_of sources.now)) }
{
    match table_alone(alloc, sources) {
        Ok(table) => Ok(table),
        Err(error) if is_place_memory(&error) => Err(Fault::Memory),
        Err(_) => Err(Fault::Refused(line_alone(alloc, path, sources).ok())),
    }
}

/// The scenario of the files that words name; `-` is the input.
pub(crate) fn scenario_at<R: Files, I: Read>(
    rt: &R,
    alloc: Global,
    texts: &SourceTexts<'_>,
    input: &mut I,
) -> Result<Scenario, Fault>
    ensures scenario { IfOk result (IsScenario (I.remaining input.old) texts.now) }
    ensures why { IfErr result (IsOfFile (I.remaining input.old) texts.now) }
    ensures taken { TakesAtMost (most_bytes + 1) (I.remaining input.old) (I.remaining input.new) }
    ensures untouched { NameNoInput texts.now → input.new ≡ input.old }
{
    if is_alone(texts) {
        return own_scenario_at(rt, alloc, texts.path, input);
    }
    let sources = sources_alone(rt, alloc, texts, input)?;
    scenario_of(alloc, texts.path, &sources)
}
