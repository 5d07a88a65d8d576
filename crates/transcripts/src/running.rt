//! Runs of the two programs over memory.

use crate::changes::push_line;
use crate::fault::Fault;
use reporting::{MemoryOutlet, Outlet};
use sha2::{Digest, Sha256};
use std::alloc::Global;
use std::marker::Sync;
use std::rt::Files;
use std::sync::Wait;
use std::thread::Threads;
use std::time::Clock;
use study_commands::progress_line::ProgressLine;

/// What stands for a line feed in a word.
const LINE_FEED: &str = "␤";

/// Puts lines of standard error at the end of a text.
fn push_faults(printed: &mut String, faults: &[u8]) -> Result<(), Fault> {
    for line in std::str::from_utf8(faults)?.lines() {
        printed.push_str("! ")?;
        push_line(printed, line)?;
    }
    Ok(())
}

/// What a run answered and wrote.
#[derive(Drop)]
pub struct Ran {
    status: u8,
    out: MemoryOutlet,
    faults: MemoryOutlet,
    notes: Vec<u8>,
}

impl Ran {
    /// A run of the program that the first word names, over this input.
    pub fn new<R: Files + Threads + Wait + Sync + Clock>(
        rt: &R,
        alloc: Global,
        line: &str,
        mut input: &[u8],
    ) -> Result<Ran, Fault> {
        let line = line.replace(alloc, LINE_FEED, "\n")?;
        let words: Vec<&str> = line.split(' ').collect(alloc)?;
        let (mut out, mut faults) = (MemoryOutlet::new(alloc), MemoryOutlet::new(alloc));
        let mut notes = Vec::new(alloc);
        let status = match words.first() {
            Some(&"fdbench") => {
                bench_commands::serve(rt, alloc, &words, &mut input, &mut out, &mut faults)
            }
            Some(&"fdstudy") => study_commands::serve::serve(
                rt,
                alloc,
                &words,
                &mut input,
                &mut out,
                &mut faults,
                &mut ProgressLine::new(rt, alloc, &mut notes, false, false),
            ),
            _ => return Err(Fault::NoCommand),
        };
        Ok(Ran {
            status,
            out,
            faults,
            notes,
        })
    }

    /// What it printed: standard output, then the lines of standard error after `! `, then a status that isn't 0.
    pub fn printed(&self, alloc: Global) -> Result<String, Fault> {
        let mut printed = String::from_str(alloc, std::str::from_utf8(self.out.bytes())?)?;
        push_faults(&mut printed, &self.notes)?;
        push_faults(&mut printed, self.faults.bytes())?;
        if self.status != 0 {
            push_line(&mut printed, &format!(in alloc; "status {}", self.status)?)?;
        }
        Ok(printed)
    }

    /// The digest of what it wrote to standard output, as hexadecimal digits.
    pub fn digest(&self, alloc: Global) -> Result<String, Fault> {
        let mut digits = String::new(alloc);
        for byte in Sha256::digest(self.out.bytes()).as_slice() {
            digits.push_str(&format!(in alloc; "{byte:02x}")?)?;
        }
        Ok(digits)
    }
}
