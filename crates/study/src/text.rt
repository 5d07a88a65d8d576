//! The text of a run's file.
ghost use Rattle.std.specs.Prelude.{◌≡◌, false, IfOk, IfErr, map, string_bytes};
ghost use Rattle.study.specs.{Settings.{chosen}, Sources.{sources_of}, Grid.{run_of}, Placed.{sources_of_run}, Laid.{IsRunText, HasNoText, is_text_memory}};

use crate::axis::Choice;
use crate::error::{PlaceError, TextError};
use crate::read::run_table;
use crate::run::Run;
use crate::sources::Sources;
use std::alloc::{AllocError, Global};

/// The text of a run's file, comments aside: read as a scenario's file it gives the run's scenario.
///
/// # Errors
///
/// The reason for which a key can't be set, or `Date` where the file has a date that TOML can't say, which no file that
/// was read has; memory, as [`PlaceError`], at any point.
pub fn scenario_text(
    alloc: Global,
    sources: &Sources,
    point: &[Choice<'_>],
    run: &Run<'_>,
) -> Result<String, TextError>
    ensures ok { IfOk result (λ s. IsRunText
        (sources_of_run (map chosen point.now) (run_of run.now) (sources_of sources.now)) (string_bytes s)) }
    ensures err { IfErr result (λ e. is_text_memory e ≡ false
        → HasNoText (sources_of_run (map chosen point.now) (run_of run.now) (sources_of sources.now)) e) }
{
    let table = run_table(alloc, sources, point, run).map_err(TextError::Place)?;
    match toml::table_to_string(alloc, &table) {
        Ok(text) => Ok(text),
        Err(toml::ser::Error::DateInvalid) => Err(TextError::Date),
        Err(toml::ser::Error::OutOfMemory) => Err(TextError::Place(PlaceError::Memory(AllocError))),
    }
}
