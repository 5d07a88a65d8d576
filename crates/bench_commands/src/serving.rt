//! One run of the program.
ghost use Rattle.std.specs.Prelude.{◌≡◌, ◌≢◌, ◌^◌, ◌-◌, ◌+◌, ◌<◌, ◌≤◌, IfErr, map};
ghost use Rattle.bench_commands.specs.{Answer.{GoesFor, path_of}, Fault.{end_of}, Serve.{EndsFor, GoesForWords, IsHelp, IsReason, IsRunAsked, NamesNoInput, TellsOf}, Why.{StopsFor}};
ghost use Rattle.shell.specs.Ending.{Puts, TakesAtMost, input_path, most_bytes};

use crate::commands::answer;
use crate::fault::Fault;
use crate::file::scenario_at;
use command_line::{Order, WordsError, read_words};
use qos_report::Outlet;
use shell::{ended, put_text};
use std::alloc::Global;
use std::io::Read;
use std::marker::Sync;
use std::rt::Files;
use std::sync::Wait;
use std::thread::Threads;
use windows::{Gate, OpenGate};

/// Where the scenario file of an order is.
fn path_in<'a>(order: &Order<'a>) -> &'a str
    ensures { result.now ≡ path_of order.now }
{
    match order {
        Order::Check { path }
        | Order::List { path, .. }
        | Order::Run { path, .. }
        | Order::Compare { path, .. } => *path,
    }
}

/// Does what an order asks for, over the input, the outlet and the files of the runtime. A run goes by the plan that is
/// asked for: a worker tells the gate of each process that it takes. By the event list no gate is told.
///
/// # Errors
///
/// The first fault, in the order file, scenario, plan, machines, run. `specs/Answer.antt` says what went out then.
pub fn carry_out<R: Files + Threads + Wait + Sync, G: Gate, I: Read, O: Outlet>(
    rt: &R,
    alloc: Global,
    order: &Order<'_>,
    gate: &G,
    input: &mut I,
    outlet: &mut O,
) -> Result<(), Fault>
    requires { O.failed outlet.old < 2 ^ 64 - 1 }
    ensures text { GoesFor O.told O.failed outlet.old outlet.new (I.remaining input.old) order.now result }
    ensures why { IfErr result (StopsFor (I.remaining input.old) order.now) }
    ensures taken { TakesAtMost (most_bytes + 1) (I.remaining input.old) (I.remaining input.new) }
    ensures untouched { path_of order.now ≢ input_path → input.new ≡ input.old }
{
    let scenario = scenario_at(rt, alloc, path_in(order), input)?;
    answer(rt, alloc, order, &scenario, gate, outlet)
}

/// Tells of words that state no order: help goes to the outlet, all else is a fault.
fn tell<O: Outlet>(error: WordsError, outlet: &mut O) -> Result<(), Fault>
    requires { O.failed outlet.old < 2 ^ 64 - 1 }
    ensures text { Puts end_of O.told O.failed outlet.old outlet.new (λ _. IsHelp error) result }
    ensures why { IfErr result (TellsOf error) }
{
    match error {
        WordsError::Help(text) => put_text(text.as_str(), outlet),
        WordsError::Mistake(text) => Err(Fault::Words(text)),
        WordsError::Form => Err(Fault::Form),
        WordsError::Memory => Err(Fault::WordsMemory),
    }
}

/// Does what words ask for, or tells of them: the first is the program's name.
fn answer_words<R: Files + Threads + Wait + Sync, I: Read, O: Outlet>(
    rt: &R,
    alloc: Global,
    words: &[&str],
    input: &mut I,
    outlet: &mut O,
) -> Result<(), Fault>
    requires { O.failed outlet.old < 2 ^ 64 - 1 }
    ensures text { let told = map (λ w. w.now) words.now in
        GoesForWords O.told O.failed outlet.old outlet.new (I.remaining input.old) told result }
    ensures why { IfErr result (IsReason (I.remaining input.old) (map (λ w. w.now) words.now)) }
    ensures taken { TakesAtMost (most_bytes + 1) (I.remaining input.old) (I.remaining input.new) }
    ensures untouched { NamesNoInput (map (λ w. w.now) words.now) → input.new ≡ input.old }
{
    match read_words(alloc, words) {
        Ok(order) => carry_out(rt, alloc, &order, &OpenGate, input, outlet),
        Err(error) => tell(error, outlet),
    }
}

/// Does one run of the program: reads the words, of which the first is the program's name, does what they ask for over
/// the input, the outlet and the files of the runtime, and answers the exit status. Of a run that is refused one line
/// goes to `faults`; of words that `clap` refuses its text does. Where `faults` fails, nobody is told.
///
/// | Status | When |
/// |---|---|
/// | 0 | done, or help was shown |
/// | 1 | the scenario or its file is refused |
/// | 2 | the words are refused |
/// | 3 | the plan or the run is refused |
/// | 4 | writing to the outlet failed |
///
/// Faults are looked for in this order: words, file, scenario, plan, machines, run. So 1 and 3 come only where the
/// words make a whole order, and 3 only where it asks for a run. Nothing of the input is taken but for an order that
/// names `-`.
///
/// With status 1 or 2 nothing was written, and with 3 nothing but by `run`: where it prints the trace, its first line
/// and the rows of the windows before may have gone out. With 4 a front part of the text went out.
pub fn serve<R: Files + Threads + Wait + Sync, I: Read, O: Outlet, F: Outlet>(
    rt: &R,
    alloc: Global,
    words: &[&str],
    input: &mut I,
    outlet: &mut O,
    faults: &mut F,
) -> u8
    requires outlet { O.failed outlet.old < 2 ^ 64 - 1 }
    requires faults { F.failed faults.old < 2 ^ 64 - 1 }
    ensures ends { EndsFor O.told O.failed outlet.old outlet.new F.told F.failed faults.old faults.new
        (I.remaining input.old) (map (λ w. w.now) words.now) result }
    ensures accepted { result ≡ 3 → IsRunAsked (I.remaining input.old) (map (λ w. w.now) words.now) }
    ensures told { F.failed faults.new ≤ F.failed faults.old + 1 }
    ensures taken { TakesAtMost (most_bytes + 1) (I.remaining input.old) (I.remaining input.new) }
    ensures untouched { NamesNoInput (map (λ w. w.now) words.now) → input.new ≡ input.old }
{
    let outcome = answer_words(rt, alloc, words, input, outlet);
    ended(outcome, faults)
}
