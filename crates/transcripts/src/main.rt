//! `transcripts`: runs the commands of a transcript through `fdbench` and `fdstudy`, and compares what they print.
//!
//! The transcript is standard input. A block begins with a line `== HEAD`, and its body goes up to the next one:
//!
//! | Head | Body |
//! |---|---|
//! | `file NAME` | a file |
//! | `file NAME from BASE` | changes of the file `BASE` |
//! | a command: `fdbench ..` or `fdstudy ..`, then perhaps ` < NAME`, the file that is its input | what it prints |
//! | `same` | commands, each after `$ `, which print the same: what stands below them, or anything with status 0 |
//! | `sha256`, then a command | the digest of what it writes to standard output, as hexadecimal digits |
//! | `rows PART`, then a command | the lines that have this part, of what it prints, and `N rows` |
//!
//! In the arguments of a command `␤` is a line feed.
//!
//! Changes of the input may stand before the printed text. Further changes may follow, each with the text that is
//! printed then. Each is a case of its own, over the file that the head names. Changes are lines that begin with `-`,
//! which are looked for in the file as whole lines, and below them lines that begin with `+`, which take their place.
//! Lines with `+` alone, or after an empty line, come at the file's end. A line that begins with `# ` is a remark, in a
//! file too.
//!
//! The printed text is standard output; then the lines of standard error, each after `! `; then, but for status 0, a
//! line `status N`. The line `...` stands for any lines, `...PART` for any lines and one that has this part, and
//! `BEGIN...END` for a line that begins and ends so. Empty lines at the end of a body are nothing. The two programs are
//! run over memory, by [`bench_commands::serve`] and [`study_commands::serve`].
//!
//! It prints each case that came out otherwise, with what was printed, and then how many cases there were, and of these
//! how many failed.
#![tactic(auto)]

mod case;
mod changes;
mod fault;
mod pattern;
mod running;
mod transcript;

use crate::fault::Fault;
use crate::transcript::Transcript;
use shell::read_all;
use std::alloc::Global;
use std::io::{self, Read};
use std::marker::Sync;
use std::rt::Files;
use std::sync::Wait;
use std::thread::Threads;
use std::time::Clock;

/// What comes of a transcript: the cases that failed, and how many there were.
fn go_through<R: Files + Threads + Wait + Sync + Clock>(
    rt: &R,
    alloc: Global,
    text: &str,
) -> Result<String, Fault> {
    let mut transcript = Transcript::new(alloc);
    for block in text.split("\n== ").skip(1) {
        transcript.take(rt, block)?;
    }
    Ok(transcript.told()?)
}

/// What comes of the transcript that an input holds.
fn report<R: Files + Threads + Wait + Sync + Clock, I: Read>(
    rt: &R,
    alloc: Global,
    input: &mut I,
) -> Result<String, Fault> {
    let bytes = read_all(alloc, input)?;
    go_through(rt, alloc, std::str::from_utf8(&bytes)?)
}

fn main(rt: HostRuntime) -> io::Result<()> {
    match report(&rt, rt.alloc(), &mut rt.stdin()) {
        Ok(text) => println!(rt; "{text}"),
        Err(fault) => println!(rt; "{fault}"),
    }
}
