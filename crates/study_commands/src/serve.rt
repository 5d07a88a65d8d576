//! One run of the program.
ghost use Rattle.std.specs.Prelude.{◌≡◌, ◌^◌, ◌-◌, ◌+◌, ◌<◌, ◌≤◌, false, IfErr, IfOk, OnOk, map};
ghost use Rattle.study_commands.specs.{Answer.{Answers, GoesFor, texts_of}, Inside.Private.{IsNoSweep, IsNoFault}, Fault.{IsBefore, end_of}, File.{NameNoInput}};
ghost use Rattle.study_commands.specs.{Serve.{EndsFor, GoesForWords, IsReason, NamesNoInput, TellsLine, TellsOf, other_word_line}, WarningText.{IsTold, IsToldFor}, Why.{StopsFor}};
ghost use Rattle.{printable.specs.Printable.{printable_lines}, shell.specs.Ending.{Puts, TakesAtMost, most_bytes}};

use crate::checking::serve_check;
use crate::fault::Fault;
use crate::lettering::serve_letters;
use crate::picturing::serve_draw;
use crate::showing::serve_show;
use crate::study_check::serve_study_check;
use crate::sweeping::serve_sweep;
use crate::warned::Warned;
use printable::{Printable, PrintableLines};
use reporting::Outlet;
use shell::{ended, put_bytes, put_text};
use std::alloc::Global;
use std::io::Read;
use std::marker::Sync;
use std::rt::Files;
use std::thread::Threads;
use std::time::Clock;
use study_line::{Order, WordsError, read_words, version_line};

/// The text that an order asks for, of all but a sweep.
fn text_of<R: Files + Threads + Sync + Clock, I: Read, W: Warned>(
    rt: &R,
    alloc: Global,
    order: &Order<'_>,
    input: &mut I,
    watcher: &mut W,
) -> Result<Vec<u8>, Fault>
    requires { IsNoSweep order.now }
    ensures text { IfOk result (λ text. Answers (I.remaining input.old) order.now text.items) }
    ensures why { IfErr result (IsBefore (StopsFor (I.remaining input.old) order.now)) }
    ensures taken { TakesAtMost (most_bytes + 1) (I.remaining input.old) (I.remaining input.new) }
    ensures untouched { NameNoInput (texts_of order.now) → input.new ≡ input.old }
    ensures told { OnOk result
        (IsTold W.heard W.warned watcher.old watcher.new (I.remaining input.old) order.now) }
    ensures hidden { W.shows watcher.old ≡ false → W.shows watcher.new ≡ false }
{
    match order {
        Order::Check { sources, study } => match study {
            None => serve_check(rt, alloc, sources, input, watcher),
            Some(study) => serve_study_check(rt, alloc, sources, study, input, watcher),
        },
        Order::Letters { sources } => serve_letters(rt, alloc, sources, input),
        Order::Draw { sources, picture } => serve_draw(rt, alloc, sources, picture, input),
        Order::Show {
            sources,
            grid,
            point,
            run,
        } => serve_show(rt, alloc, sources, grid, *point, *run, input),
        Order::Sweep { .. } => unreachable!(),
    }
}

/// Does what an order asks for.
fn carry_out<R: Files + Threads + Sync + Clock, I: Read, O: Outlet, W: Warned>(
    rt: &R,
    alloc: Global,
    order: &Order<'_>,
    input: &mut I,
    outlet: &mut O,
    watcher: &mut W,
) -> Result<(), Fault>
    requires { O.failed outlet.old < 2 ^ 64 - 1 }
    ensures text { GoesFor O.told O.failed outlet.old outlet.new (I.remaining input.old) order.now result }
    ensures taken { TakesAtMost (most_bytes + 1) (I.remaining input.old) (I.remaining input.new) }
    ensures untouched { NameNoInput (texts_of order.now) → input.new ≡ input.old }
    ensures why { IfErr result (StopsFor (I.remaining input.old) order.now) }
    ensures told { OnOk result
        (IsTold W.heard W.warned watcher.old watcher.new (I.remaining input.old) order.now) }
    ensures hidden { W.shows watcher.old ≡ false → W.shows watcher.new ≡ false }
{
    match order {
        Order::Sweep { sources, study } => {
            serve_sweep(rt, alloc, sources, study, input, outlet, watcher)
        }
        _ => put_bytes(&text_of(rt, alloc, order, input, watcher)?, outlet),
    }
}

/// The fault of a word that isn't one of those for its option, under this name.
fn other_word(alloc: Global, name: &str, word: &str) -> Fault
    ensures { TellsLine (other_word_line name.now word.now) result }
{
    let word = Printable(word);
    Fault::of_words(format!(in alloc; "fdstudy: words: {name}: {word}\n"))
}

/// The fault of words that `clap` refuses with this text.
fn mistake(alloc: Global, text: &str) -> Fault
    ensures { TellsLine (printable_lines text.now) result }
{
    let lines = PrintableLines(text);
    Fault::of_words(format!(in alloc; "{lines}"))
}

/// Tells of words that state no order: help and the version go to the outlet, all else is a fault.
fn tell<O: Outlet>(alloc: Global, error: &WordsError, outlet: &mut O) -> Result<(), Fault>
    requires { O.failed outlet.old < 2 ^ 64 - 1 }
    ensures text { Puts end_of O.told O.failed outlet.old outlet.new (IsNoFault error.now) result }
    ensures why { IfErr result (TellsOf error.now) }
{
    match error {
        WordsError::Help(text) => put_text(text.as_str(), outlet),
        WordsError::Version => put_text(version_line(), outlet),
        WordsError::Mistake(text) => Err(mistake(alloc, text.as_str())),
        WordsError::NoPicture(word) => Err(other_word(alloc, "NoPicture", word.as_str())),
        WordsError::NoEach(word) => Err(other_word(alloc, "NoEach", word.as_str())),
        WordsError::Form => Err(Fault::Form),
        WordsError::Memory => Err(Fault::WordsMemory),
    }
}

/// Does what words ask for, or tells of them: the first is the program's name.
fn answer_words<R: Files + Threads + Sync + Clock, I: Read, O: Outlet, W: Warned>(
    rt: &R,
    alloc: Global,
    words: &[&str],
    input: &mut I,
    outlet: &mut O,
    watcher: &mut W,
) -> Result<(), Fault>
    requires { O.failed outlet.old < 2 ^ 64 - 1 }
    ensures text { let told = map (λ w. w.now) words.now in
        GoesForWords O.told O.failed outlet.old outlet.new (I.remaining input.old) told result }
    ensures why { IfErr result (IsReason (I.remaining input.old) (map (λ w. w.now) words.now)) }
    ensures taken { TakesAtMost (most_bytes + 1) (I.remaining input.old) (I.remaining input.new) }
    ensures untouched { NamesNoInput (map (λ w. w.now) words.now) → input.new ≡ input.old }
    ensures told { OnOk result (IsToldFor W.heard W.warned watcher.old watcher.new (I.remaining input.old)
        (map (λ w. w.now) words.now)) }
    ensures hidden { W.shows watcher.old ≡ false → W.shows watcher.new ≡ false }
{
    match read_words(alloc, words) {
        Ok(order) => carry_out(rt, alloc, &order, input, outlet, watcher),
        Err(error) => tell(alloc, &error, outlet),
    }
}

/// Does one run of the program: reads the words, of which the first is the program's name, does what they ask for over
/// the input, the outlet and the files of the runtime, and answers the exit status. Of a run that is refused one line
/// goes to `faults`; of words that `clap` refuses its text does. Where `faults` fails, nobody is told.
///
/// | Status | When |
/// |---|---|
/// | 0 | done, or help or the version was shown |
/// | 1 | the file, the scenario of a run or the picture is refused |
/// | 2 | the words are refused |
/// | 3 | the run passes its limit, or memory was refused |
/// | 4 | writing to the outlet failed |
///
/// Faults are looked for in this order: words, files, processes and ticks of a picture, runs, letters of a picture. So
/// 1 comes only where the words make a whole order. Nothing of the input is taken but for an order that names `-`.
///
/// With status 1 or 2 nothing was written, and with 3 nothing but by `sweep`: its first line and the rows of the first
/// points may have gone out. With 4 a front part of the text went out.
///
/// The watcher hears how far a `sweep` has come. It is told in lines what may mislead of that study, before it hears of
/// any limit; tests show that all scenarios were read by then, and that it has heard of no run. It is told the same of
/// the files of a lone `check`. It takes away what it shows before a fault is told.
pub fn serve<R: Files + Threads + Sync + Clock, I: Read, O: Outlet, F: Outlet, W: Warned>(
    rt: &R,
    alloc: Global,
    words: &[&str],
    input: &mut I,
    outlet: &mut O,
    faults: &mut F,
    watcher: &mut W,
) -> u8
    requires outlet { O.failed outlet.old < 2 ^ 64 - 1 }
    requires faults { F.failed faults.old < 2 ^ 64 - 1 }
    ensures ends { EndsFor O.told O.failed outlet.old outlet.new F.told F.failed faults.old faults.new
        (I.remaining input.old) (map (λ w. w.now) words.now) result }
    ensures told { F.failed faults.new ≤ F.failed faults.old + 1 }
    ensures taken { TakesAtMost (most_bytes + 1) (I.remaining input.old) (I.remaining input.new) }
    ensures untouched { NamesNoInput (map (λ w. w.now) words.now) → input.new ≡ input.old }
    ensures warned { result ≡ 0 → IsToldFor W.heard W.warned watcher.old watcher.new (I.remaining input.old)
        (map (λ w. w.now) words.now) }
    ensures hidden { W.shows watcher.old ≡ false → W.shows watcher.new ≡ false }
{
    let outcome = answer_words(rt, alloc, words, input, outlet, watcher);
    ended(outcome, faults)
}
