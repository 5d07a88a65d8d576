//! `fdstudy`: runs a scenario under many settings, and adds up what its failure detectors and consensus algorithms did.
//!
//! `fdstudy check PATH` says what a scenario file has, or where it breaks a rule and why. `fdstudy letters PATH` prints
//! the letters of its run, and `fdstudy draw PATH` draws a picture of it.
//!
//! `fdstudy sweep PATH` runs a study, which is a scenario under a grid of settings with many seeds, by threads, and
//! prints its table: a row for each point of the grid and each layer of detectors, in which the measures of all its
//! runs are added up. `fdstudy show PATH` prints the scenario file of one of these runs, which `fdbench list -` takes,
//! and `fdstudy letters -` and `fdstudy draw -` too.
//!
//! The crate `study_commands` defines and proves what the program does for which arguments. The program hands it the
//! arguments, the standard streams and the files, and ends with the status that it answers.
//!
//! For example, `fdstudy sweep - --seeds 1..=20 --vary detector.timeout=5,10` prints the line of the columns' names and
//! two rows, each over 20 runs.
#![tactic(auto)]

use reporting::StreamOutlet;
use shell::{NoWords, finish, lent, report, words_of};
use std::alloc::Global;
use std::io::IsTerminal;
use std::process::ExitCode;
use study_commands::fault::Fault;
use study_commands::progress_line::ProgressLine;
use study_commands::serve::serve;

/// The fault of words of which one is no text. It isn't known which one that is.
fn no_text(alloc: Global) -> Fault {
    Fault::of_words(format!(in alloc; "fdstudy: words: NoText: a word is not UTF-8\n"))
}

fn main(rt: HostRuntime) -> ExitCode {
    let mut outlet = StreamOutlet::new(rt.stdout());
    let mut faults = StreamOutlet::new(rt.stderr());
    let (is_terminal, is_shared) = (rt.stderr().is_terminal(), rt.stdout().is_terminal());
    let mut line = ProgressLine::new(&rt, rt.alloc(), rt.stderr(), is_terminal, is_shared);
    let status = match words_of(&rt) {
        Ok(words) => match lent(rt.alloc(), &words) {
            Ok(texts) => serve(
                &rt,
                rt.alloc(),
                &texts,
                &mut rt.stdin(),
                &mut outlet,
                &mut faults,
                &mut line,
            ),
            Err(_) => report(&Fault::WordsMemory, &mut faults),
        },
        Err(NoWords::Memory) => report(&Fault::WordsMemory, &mut faults),
        Err(NoWords::NoText) => report(&no_text(rt.alloc()), &mut faults),
    };
    finish::<Fault, _, _>(status, &mut outlet, &mut faults)
}
