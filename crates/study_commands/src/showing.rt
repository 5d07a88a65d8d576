//! The command `show`: the scenario file of one run of a study.
ghost use Rattle.std.specs.Prelude.{◌≡◌, ◌+◌, ◌<◌, ◌≤◌, IfOk, IfErr, length, string_bytes};
ghost use Rattle.study.specs.{Sources.{sources_of}, Grid.{points, runs}, Placed.{sources_of_run}, Laid.{IsRunText, is_text_memory}};
ghost use Rattle.study_commands.specs.{Fault.{IsBefore, IsOfWordsFor}, File.{NameNoInput}, Answer.{IsPlace, IsShowAnswer}, Why.{IsOfText, StopsShow}, WordRefusals.{IsOutside}};
ghost use Rattle.{shell.specs.Ending.{TakesAtMost, most_bytes}, sweep.specs.StudyText.{point_at, run_at}};

use crate::fault::Fault;
use crate::refused_run::{line_of_length, line_of_run};
use crate::sources::sources_over;
use crate::study_words::grid_of;
use std::alloc::Global;
use std::io::Read;
use std::rt::Files;
use study::{Grid, PlaceError, Sources, TextError, scenario_text};
use study_line::{GridTexts, SourceTexts};

/// The place, from 0, of what counts from 1 among so many.
fn place_of(alloc: Global, name: &str, number: u64, count: u64) -> Result<u64, Fault>
    ensures place { IfOk result (IsPlace number count) }
    ensures refused { IfErr result (IsOfWordsFor (IsOutside number count)) }
{
    match number.checked_sub(1) {
        Some(place) if place < count => Ok(place),
        _ => Err(Fault::of_words(format!(in alloc;
            "fdstudy: words: {name}: {number} of {count}\n"
        ))),
    }
}

/// Whether a run has no text because memory was refused.
fn is_of_memory(error: &TextError) -> bool
    ensures { result ≡ is_text_memory error.now }
{
    matches!(error, TextError::Place(PlaceError::Memory(_)))
}

/// How many bytes a file may have.
const MOST_BYTES: usize = 8_388_608;

/// The text of a run of a point, both from 0, which is no longer than a file may be.
fn text_of_run(
    alloc: Global,
    path: &str,
    sources: &Sources,
    grid: &Grid,
    point: u64,
    run: u64,
) -> Result<String, Fault>
    requires point { point < length (points grid.now) }
    requires run { run < length (runs grid.now) }
    ensures text { IfOk result (λ s. IsRunText
        (sources_of_run (point_at grid.now point) (run_at grid.now run) (sources_of sources.now)) (string_bytes s)) }
    ensures short { IfOk result (λ s. length (string_bytes s) ≤ most_bytes) }
    ensures refused { IfErr result (IsOfText
        (sources_of_run (point_at grid.now point) (run_at grid.now run) (sources_of sources.now))) }
{
    let settings = grid.point(alloc, point)?;
    let its = grid.run(alloc, run)?;
    match scenario_text(alloc, sources, &settings, &its) {
        Ok(text) if text.len() <= MOST_BYTES => Ok(text),
        Ok(_) => Err(Fault::Refused(line_of_length(alloc, path, grid, point, run).ok())),
        Err(error) if is_of_memory(&error) => Err(Fault::Memory),
        Err(_) => Err(Fault::Refused(line_of_run(alloc, path, sources, grid, point, run).ok())),
    }
}

/// Answers `show`: the scenario file of a run of a point, both from 1.
pub(crate) fn serve_show<R: Files, I: Read>(
    rt: &R,
    alloc: Global,
    texts: &SourceTexts<'_>,
    words: &GridTexts<'_>,
    point: u64,
    run: u64,
    input: &mut I,
) -> Result<Vec<u8>, Fault>
    ensures text { IfOk result (λ text. IsShowAnswer (I.remaining input.old) texts.now words.now point run text.items) }
    ensures why { IfErr result (IsBefore (StopsShow (I.remaining input.old) texts.now words.now point run)) }
    ensures taken { TakesAtMost (most_bytes + 1) (I.remaining input.old) (I.remaining input.new) }
    ensures untouched { NameNoInput texts.now → input.new ≡ input.old }
{
    let grid = grid_of(alloc, words)?;
    let point_place = place_of(alloc, "NoPoint", point, grid.points())?;
    let run_place = place_of(alloc, "NoRun", run, grid.runs())?;
    let sources = sources_over(rt, alloc, texts, &grid, input)?;
    let text = text_of_run(alloc, texts.path, &sources, &grid, point_place, run_place)?;
    Ok(text.into_bytes())
}
