//! The files of a study, with the values that arguments set in them.
ghost use Rattle.std.specs.Prelude.{◌≡◌, ◌+◌, Err, Ok, IfErr, IfOk};
ghost use Rattle.shell.specs.Ending.{TakesAtMost, most_bytes};
ghost use Rattle.study.specs.{Placed.{assign_all, is_memory}, Sources.{sources_of}};
ghost use Rattle.study_commands.specs.{File.{AreSources, NameNoInput}, Refusal.{IsOfSources}, Inside.Setting.{CannotSet}};

use crate::assigned::assigned_by;
use crate::fault::Fault;
use crate::file::files_of;
use crate::place_reason::place_reason;
use printable::Printable;
use std::alloc::{AllocError, Global};
use std::io::Read;
use std::rt::Files;
use std::slice::from_ref;
use study::{Assignment, Grid, PlaceError, Sources};
use study_line::SourceTexts;

/// Whether memory was refused.
pub(crate) fn is_place_memory(error: &PlaceError) -> bool
    ensures { result ≡ is_memory error.now }
{
    matches!(error, PlaceError::Memory(_))
}

/// The line of files, as they were before, in which words can't set a key: which word it is, and why.
fn line_of_set(
    alloc: Global,
    texts: &SourceTexts<'_>,
    mut files: Sources,
    assignments: &[Assignment],
) -> Result<String, AllocError> {
    let path = Printable(texts.path);
    for (word, assignment) in texts.set.iter().zip(assignments) {
        if let Err(error) = files.set(alloc, from_ref(assignment)) {
            let (word, why) = (Printable(word), place_reason(alloc, &error)?);
            return format!(in alloc; "{path}: {word}: {why}\n");
        }
    }
    Err(AllocError)
}

/// Sets keys in files.
fn with_set(
    alloc: Global,
    texts: &SourceTexts<'_>,
    mut sources: Sources,
    assignments: &[Assignment],
) -> Result<Sources, Fault>
    ensures set { IfOk result (λ s. assign_all assignments.now (sources_of sources) ≡ Ok (sources_of s)) }
    ensures why { IfErr result (CannotSet assignments.now (sources_of sources)) }
{
    if assignments.is_empty() {
        return Ok(sources);
    }
    let files = sources.copy().map_err(|_| Fault::Memory)?;
    match sources.set(alloc, assignments) {
        Ok(()) => Ok(sources),
        Err(error) if is_place_memory(&error) => Err(Fault::Memory),
        Err(_) => Err(Fault::Refused(line_of_set(alloc, texts, files, assignments).ok())),
    }
}

/// The files that words name, with what they set in them; `-` is the input. The words are looked at before the files.
pub(crate) fn sources_over<R: Files, I: Read>(
    rt: &R,
    alloc: Global,
    texts: &SourceTexts<'_>,
    grid: &Grid,
    input: &mut I,
) -> Result<Sources, Fault>
    ensures sources { IfOk result (λ s. AreSources (I.remaining input.old) texts.now grid.now (sources_of s)) }
    ensures why { IfErr result (IsOfSources (I.remaining input.old) texts.now grid.now) }
    ensures taken { TakesAtMost (most_bytes + 1) (I.remaining input.old) (I.remaining input.new) }
    ensures untouched { NameNoInput texts.now → input.new ≡ input.old }
{
    let assignments = assigned_by(alloc, texts, grid)?;
    let files = files_of(rt, alloc, texts, input)?;
    with_set(alloc, texts, files, &assignments)
}
