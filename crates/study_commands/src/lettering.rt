//! The command `letters`: the letters of a scenario's run.
ghost use Rattle.std.specs.Prelude.{◌≡◌, ◌+◌, IfErr, IfOk};
ghost use Rattle.study_commands.specs.{Fault.{IsBefore}, File.{NameNoInput}, Answer.{IsLettersAnswer}, Refusal.{StopsLetters}};
ghost use Rattle.shell.specs.Ending.{TakesAtMost, most_bytes};

use crate::alone::scenario_at;
use crate::fault::Fault;
use crate::running::letters_of;
use reporting::letters_text;
use std::alloc::Global;
use std::io::Read;
use std::rt::Files;
use study_line::SourceTexts;

/// Answers `letters`: a row for each letter of the run of the files' scenario.
pub(crate) fn serve_letters<R: Files, I: Read>(
    rt: &R,
    alloc: Global,
    texts: &SourceTexts<'_>,
    input: &mut I,
) -> Result<Vec<u8>, Fault>
    ensures text { IfOk result (λ text. IsLettersAnswer (I.remaining input.old) texts.now text.items) }
    ensures why { IfErr result (IsBefore (StopsLetters (I.remaining input.old) texts.now)) }
    ensures taken { TakesAtMost (most_bytes + 1) (I.remaining input.old) (I.remaining input.new) }
    ensures untouched { NameNoInput texts.now → input.new ≡ input.old }
{
    let scenario = scenario_at(rt, alloc, texts, input)?;
    let letters = letters_of(alloc, &scenario)?;
    Ok(letters_text(alloc, &letters)?)
}
