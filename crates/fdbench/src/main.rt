//! `fdbench`: compares failure detectors and consensus algorithms by simulating crash-prone processes.
//!
//! The program reads a scenario file, which says how many processes there are, what they run, how the links between
//! them delay and lose letters, and who crashes when. `fdbench check PATH` says whether the file is accepted.
//! `fdbench list PATH` runs it by one global event list and prints what `--print` names: a trace, with a line for each
//! event that a process takes; a report, with the verdicts on the detectors, the measures of each pair of processes and
//! what each process decided; or both.
//!
//! `fdbench run PATH --workers N --window N` prints the same, from a run by windows of N ticks that N worker threads
//! share. `fdbench compare PATH --workers N --window N` runs the file both ways, and says whether they wrote the
//! same.
//!
//! The crate `bench_commands` defines and proves what the program does for which arguments. The program hands it the
//! arguments, the standard streams and the files, and ends with the status that it answers.
//!
//! For example, `fdbench list - --print trace` on a file with two processes and a horizon of 1 tick prints the header
//! and two rows of kind `start`, and `fdbench compare - --workers 2 --window 1` on the same file prints `same`.
#![tactic(auto)]

use bench_commands::fault::Fault;
use bench_commands::serve;
use qos_report::StreamOutlet;
use shell::{NoWords, finish, lent, report, words_of};
use std::process::ExitCode;

fn main(rt: HostRuntime) -> ExitCode {
    let mut outlet = StreamOutlet::new(rt.stdout());
    let mut faults = StreamOutlet::new(rt.stderr());
    let status = match words_of(&rt) {
        Ok(words) => match lent(rt.alloc(), &words) {
            Ok(texts) => serve(
                &rt,
                rt.alloc(),
                &texts,
                &mut rt.stdin(),
                &mut outlet,
                &mut faults,
            ),
            Err(_) => report(&Fault::WordsMemory, &mut faults),
        },
        Err(NoWords::Memory) => report(&Fault::WordsMemory, &mut faults),
        Err(NoWords::NoText) => report(&Fault::Form, &mut faults),
    };
    finish::<Fault, _, _>(status, &mut outlet, &mut faults)
}
