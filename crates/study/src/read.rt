//! The scenarios of runs.
ghost use Rattle.std.specs.Prelude.{◌≡◌, false, Ok, IfOk, IfErr, map};
ghost use Rattle.toml.specs.View.{table_view};
ghost use Rattle.study.specs.{Settings.{chosen}, Sources.{sources_of}, Grid.{run_of}, Placed.{sources_of_run, IsRefused, is_memory as is_place_memory}, Laid.{IsRunTable, HasNoTable, IsScenarioOf, IsRefusedFor, is_memory}};

use crate::axis::Choice;
use crate::error::{PlaceError, ReadError};
use crate::laying::laid;
use crate::placed::{put, set_choices};
use crate::run::Run;
use crate::sources::Sources;
use scenario::{Scenario, read_with_outages};
use std::alloc::Global;
use toml::{Table, Value};

/// The files of a run: the study's with the point's settings, the run's, and its seed.
fn run_sources(
    alloc: Global,
    sources: &Sources,
    point: &[Choice<'_>],
    run: &Run<'_>,
) -> Result<Sources, PlaceError>
    ensures ok { IfOk result (λ s. sources_of_run (map chosen point.now) (run_of run.now) (sources_of sources.now)
        ≡ Ok (sources_of s)) }
    ensures err { IfErr result (IsRefused
        (sources_of_run (map chosen point.now) (run_of run.now) (sources_of sources.now))) }
{
    let mut changed = sources.copy().map_err(PlaceError::Memory)?;
    set_choices(alloc, &mut changed, point)?;
    set_choices(alloc, &mut changed, &run.settings)?;
    let seed = Value::Integer(run.seed as i64);
    put(alloc, &mut changed.scenario, "seed", seed)?;
    Ok(changed)
}

/// The table of a run's file: the scenario's, with the point's settings, the run's, and its seed, and with the
/// network's file laid over it where there is one.
///
/// # Errors
///
/// Where a key can't be set, the reason, of the first such key; then the reason for which the network's file can't be
/// laid; `Memory` at any point.
pub fn run_table(
    alloc: Global,
    sources: &Sources,
    point: &[Choice<'_>],
    run: &Run<'_>,
) -> Result<Table, PlaceError>
    ensures ok { IfOk result (λ t. IsRunTable
        (sources_of_run (map chosen point.now) (run_of run.now) (sources_of sources.now)) (table_view t)) }
    ensures err { IfErr result (λ e. is_place_memory e ≡ false
        → HasNoTable (sources_of_run (map chosen point.now) (run_of run.now) (sources_of sources.now)) e) }
{
    let files = run_sources(alloc, sources, point, run)?;
    laid(alloc, files)?.into_table(alloc)
}

/// The table of the files as they stand, with the scenario's own seed.
///
/// # Errors
///
/// The reason for which the network's file can't be laid; `Memory` at any point.
pub fn table_alone(alloc: Global, sources: &Sources) -> Result<Table, PlaceError>
    ensures ok { IfOk result (λ t. IsRunTable (Ok (sources_of sources.now)) (table_view t)) }
    ensures err { IfErr result (λ e. is_place_memory e ≡ false → HasNoTable (Ok (sources_of sources.now)) e) }
{
    let files = sources.copy().map_err(PlaceError::Memory)?;
    laid(alloc, files)?.into_table(alloc)
}

/// The scenario of a run's files. No table is made of a drawn outage.
fn read_files(alloc: Global, files: Sources) -> Result<Scenario, ReadError>
    ensures ok { IfOk result (IsScenarioOf (Ok (sources_of files))) }
    ensures err { IfErr result (λ e. is_memory e ≡ false → IsRefusedFor (Ok (sources_of files)) e) }
{
    let laid = laid(alloc, files).map_err(ReadError::Place)?;
    match read_with_outages(alloc, &laid.table, &laid.outages) {
        Ok(scenario) => Ok(scenario),
        Err(error) => Err(ReadError::Scenario(error)),
    }
}

/// The scenario of a run.
///
/// # Errors
///
/// The reason for which a key can't be set; else the refusal of the first rule that applies to the run's table; memory
/// at any point.
pub fn read_run(
    alloc: Global,
    sources: &Sources,
    point: &[Choice<'_>],
    run: &Run<'_>,
) -> Result<Scenario, ReadError>
    ensures ok { IfOk result (IsScenarioOf
        (sources_of_run (map chosen point.now) (run_of run.now) (sources_of sources.now))) }
    ensures err { IfErr result (λ e. is_memory e ≡ false
        → IsRefusedFor (sources_of_run (map chosen point.now) (run_of run.now) (sources_of sources.now)) e) }
{
    let files = run_sources(alloc, sources, point, run).map_err(ReadError::Place)?;
    read_files(alloc, files)
}

/// The scenario of the files as they stand, with the scenario's own seed.
///
/// # Errors
///
/// The reason for which the network's file can't be laid; else the refusal of the first rule that applies to the table;
/// memory at any point.
pub fn read_alone(alloc: Global, sources: &Sources) -> Result<Scenario, ReadError>
    ensures ok { IfOk result (IsScenarioOf (Ok (sources_of sources.now))) }
    ensures err { IfErr result (λ e. is_memory e ≡ false → IsRefusedFor (Ok (sources_of sources.now)) e) }
{
    let files = sources
        .copy()
        .map_err(|error| ReadError::Place(PlaceError::Memory(error)))?;
    read_files(alloc, files)
}
