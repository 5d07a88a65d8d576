//! The command `draw`: pictures of a scenario's run.
ghost use Rattle.std.specs.Prelude.{◌≡◌, ◌+◌, IfErr, IfOk, None, Some, map, option_map, string_bytes};
ghost use Rattle.drawing.specs.LettersPicture.{refusal};
ghost use Rattle.study_commands.specs.{Draw.{AreNamed, HasNoProcess, IsDrawAnswer, IsOfPicture, NamesNone, Shows, StopsPicture, TellsOf, line_of_ticks, picture_line, process_said}, Fault.{IsBefore, IsOfWordsFor}, File.{NameNoInput}};
ghost use Rattle.{study_commands.specs.Refusal.{line_with}, shell.specs.Ending.{TakesAtMost, most_bytes}};

use crate::alone::scenario_at;
use crate::fault::Fault;
use crate::processes::process_of;
use crate::running::{letters_of, trace_of};
use drawing::{DrawError, check_ticks, draw_letters, draw_suspicions};
use printable::Printable;
use process_api::Pid;
use scenario::Scenario;
use std::alloc::{AllocError, Global};
use std::io::Read;
use std::rt::Files;
use study::words_between;
use study_line::{Picture, PictureTexts, SourceTexts};

/// The processes that pieces of a word name.
fn named_by(alloc: Global, pieces: &[&str]) -> Result<Vec<Pid>, Fault>
    ensures named { IfOk result (λ v. map process_said (map (λ w. w.now) pieces.now) ≡ map Some v.items) }
    ensures refused { IfErr result (IsOfWordsFor (HasNoProcess (map (λ w. w.now) pieces.now))) }
{
    let mut named = Vec::new(alloc);
    for piece in pieces {
        let Some(process) = process_of(piece) else {
            let piece = Printable(piece);
            return Err(Fault::of_words(format!(in alloc; "fdstudy: words: NoProcess: {piece}\n")));
        };
        named.push(process).map_err(|_| Fault::WordsMemory)?;
    }
    Ok(named)
}

/// The processes whose letters alone are drawn: those that a word names, or else none, which stands for all.
fn processes_named(alloc: Global, picture: Picture, word: Option<&str>) -> Result<Vec<Pid>, Fault>
    ensures named { IfOk result (λ v. AreNamed picture (option_map (λ w. w.now) word.entry) v.items) }
    ensures refused { IfErr result (IsOfWordsFor (NamesNone picture (option_map (λ w. w.now) word.entry))) }
{
    let Some(word) = word else {
        return Ok(Vec::new(alloc));
    };
    match picture {
        Picture::Letters => match words_between(alloc, word, ',') {
            Ok(pieces) => named_by(alloc, &pieces),
            Err(_) => Err(Fault::WordsMemory),
        },
        Picture::Suspicions => Err(Fault::of_words(format!(in alloc;
            "fdstudy: words: OfSuspicions: --of is for pictures of letters\n"
        ))),
    }
}

/// The line of ticks that aren't those of a run with this last tick.
fn ticks_line(alloc: Global, path: &str, last: u32) -> Result<String, AllocError>
    ensures { IfOk result (λ line. string_bytes line ≡ line_of_ticks path.now last) }
{
    let path = Printable(path);
    format!(in alloc; "{path}: Ticks: these ticks aren't those of the run, which are 0 to {last}\n")
}

/// The line of a picture that is refused for another reason.
fn reason_line(alloc: Global, path: &str, reason: &str) -> Result<String, AllocError>
    ensures { IfOk result (λ line. string_bytes line ≡ line_with path.now reason.now) }
{
    let path = Printable(path);
    format!(in alloc; "{path}: {reason}\n")
}

/// The line of a picture of the scenario's run that is refused, with the name of the reason and what it says.
fn line_of(
    alloc: Global,
    path: &str,
    scenario: &Scenario,
    error: &DrawError,
) -> Result<String, AllocError>
    ensures { IfOk result (λ line. string_bytes line ≡ picture_line path.now scenario.now error.now) }
{
    let processes = "TooManyProcesses: there are more than 16 processes";
    let letters = "TooManyLetters: there are more than 2,000 letters to draw";
    match error {
        DrawError::TooManyProcesses => reason_line(alloc, path, processes),
        DrawError::Ticks => ticks_line(alloc, path, scenario.horizon() - 1),
        DrawError::TooManyLetters => reason_line(alloc, path, letters),
        DrawError::Memory(error) => Err(*error),
    }
}

/// The fault of a picture of the scenario's run that is refused.
fn fault_of(alloc: Global, path: &str, scenario: &Scenario, error: DrawError) -> Fault
    ensures { TellsOf path.now scenario.now error result }
{
    if let DrawError::Memory(_) = &error {
        return Fault::Memory;
    }
    let line = line_of(alloc, path, scenario, &error).ok();
    Fault::NotDrawn(error, line)
}

/// A picture of these ticks of the scenario's run.
fn picture_of(
    alloc: Global,
    path: &str,
    picture: Picture,
    scenario: &Scenario,
    of: &[Pid],
    from: u32,
    until: u32,
) -> Result<Vec<u8>, Fault>
    requires { refusal scenario.now from until ≡ None }
    ensures shows { IfOk result (λ text. Shows picture scenario.now of.now from until text.items) }
    ensures refused { IfErr result (IsOfPicture path.now picture scenario.now of.now from until) }
{
    let trace = trace_of(alloc, scenario)?;
    match picture {
        Picture::Suspicions => match draw_suspicions(alloc, scenario, &trace, from, until) {
            Ok(text) => Ok(text),
            Err(error) => Err(fault_of(alloc, path, scenario, error)),
        },
        Picture::Letters => {
            let letters = letters_of(alloc, scenario)?;
            match draw_letters(alloc, scenario, &trace, &letters, of, from, until) {
                Ok(text) => Ok(text),
                Err(error) => Err(fault_of(alloc, path, scenario, error)),
            }
        }
    }
}

/// Answers `draw`: a picture of the run of the files' scenario, as SVG; where nothing is said, from tick 0 to the
/// horizon. A refusal for its processes or for these ticks is told before the run is made.
pub(crate) fn serve_draw<R: Files, I: Read>(
    rt: &R,
    alloc: Global,
    texts: &SourceTexts<'_>,
    words: &PictureTexts<'_>,
    input: &mut I,
) -> Result<Vec<u8>, Fault>
    ensures text { IfOk result (λ text. IsDrawAnswer (I.remaining input.old) texts.now words.now text.items) }
    ensures refused { IfErr result (IsBefore (StopsPicture (I.remaining input.old) texts.now words.now)) }
    ensures taken { TakesAtMost (most_bytes + 1) (I.remaining input.old) (I.remaining input.new) }
    ensures untouched { NameNoInput texts.now → input.new ≡ input.old }
{
    let of = processes_named(alloc, words.picture, words.of)?;
    let scenario = scenario_at(rt, alloc, texts, input)?;
    let from = words.from.unwrap_or(0);
    let until = words.until.unwrap_or(scenario.horizon());
    match check_ticks(&scenario, from, until) {
        Ok(()) => picture_of(
            alloc,
            texts.path,
            words.picture,
            &scenario,
            &of,
            from,
            until,
        ),
        Err(error) => Err(fault_of(alloc, texts.path, &scenario, error)),
    }
}
