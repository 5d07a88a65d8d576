//! Why a run of a study is refused.
ghost use Rattle.std.specs.Prelude.{◌<◌, length};
ghost use Rattle.study.specs.Grid.{points, runs};

use crate::place_reason::place_reason;
use crate::range_hint::range_hint;
use crate::run_name::name_of_run;
use diagnosis::{Diagnosis, diagnose_table};
use printable::Printable;
use scenario::ScenarioError;
use std::alloc::{AllocError, Global};
use study::{Choice, Grid, Run, Sources, run_table, table_alone};
use toml::Table;

/// What `check` says of a run's file, or why there is none.
fn reason_of(
    alloc: Global,
    sources: &Sources,
    settings: &[Choice<'_>],
    run: &Run<'_>,
) -> Result<String, AllocError> {
    let table = match run_table(alloc, sources, settings, run) {
        Ok(table) => table,
        Err(error) => return place_reason(alloc, &error),
    };
    table_reason(alloc, &table, range_hint(settings, &run.settings))
}

/// What `check` says of a table that is refused, with a hint where a value is of another kind than its key's.
fn table_reason(alloc: Global, table: &Table, hint: &str) -> Result<String, AllocError> {
    match diagnose_table(alloc, table)? {
        Diagnosis::Refused(refused) => match &refused.refusal {
            ScenarioError::WrongKind => format!(in alloc; "{refused}{hint}"),
            _ => format!(in alloc; "{refused}"),
        },
        Diagnosis::Accepted(_) => Err(AllocError),
    }
}

/// The line of files that are refused as they stand, with the scenario's own seed.
pub(crate) fn line_alone(
    alloc: Global,
    path: &str,
    sources: &Sources,
) -> Result<String, AllocError> {
    let why = match table_alone(alloc, sources) {
        Ok(table) => table_reason(alloc, &table, "")?,
        Err(error) => place_reason(alloc, &error)?,
    };
    let path = Printable(path);
    format!(in alloc; "{path}: {why}\n")
}

/// The line of a run of a point, both from 0, that has only so many processes, below one that a group of pairs names.
pub(crate) fn line_of_lack(
    alloc: Global,
    path: &str,
    grid: &Grid,
    point: u64,
    run: u64,
    processes: u16,
) -> Result<String, AllocError>
    requires point { point < length (points grid.now) }
    requires run { run < length (runs grid.now) }
{
    let name = name_of_run(alloc, grid, point, run)?;
    let text = format!(in alloc;
        "{path}: {name}: NoSuchProcess: its processes are 1 to {processes}"
    )?;
    let text = Printable(text.as_str());
    format!(in alloc; "{text}\n")
}

/// The line of a run of a point, both from 0, whose text is longer than a file may be.
pub(crate) fn line_of_length(
    alloc: Global,
    path: &str,
    grid: &Grid,
    point: u64,
    run: u64,
) -> Result<String, AllocError>
    requires point { point < length (points grid.now) }
    requires run { run < length (runs grid.now) }
{
    let name = name_of_run(alloc, grid, point, run)?;
    let text = format!(in alloc; "{path}: {name}: TooLong: more than 8388608 bytes")?;
    let text = Printable(text.as_str());
    format!(in alloc; "{text}\n")
}

/// The line of a run that is refused, of a point, both from 0: its numbers from 1, its settings, and the reason.
pub(crate) fn line_of_run(
    alloc: Global,
    path: &str,
    sources: &Sources,
    grid: &Grid,
    point: u64,
    run: u64,
) -> Result<String, AllocError>
    requires point { point < length (points grid.now) }
    requires run { run < length (runs grid.now) }
{
    let settings = grid.point(alloc, point)?;
    let its = grid.run(alloc, run)?;
    let why = reason_of(alloc, sources, &settings, &its)?;
    let name = name_of_run(alloc, grid, point, run)?;
    let text = format!(in alloc; "{path}: {name}: {why}")?;
    let text = Printable(text.as_str());
    format!(in alloc; "{text}\n")
}
