//! The blocks of a transcript, one after another.

use crate::case::{Case, lines_of};
use crate::changes::changed;
use crate::fault::Fault;
use crate::pattern::rows_with;
use crate::running::Ran;
use std::alloc::{AllocError, Global};
use std::marker::Sync;
use std::rt::Files;
use std::sync::Wait;
use std::thread::Threads;
use std::time::Clock;

/// A file that the transcript has named.
#[derive(Drop)]
struct NamedFile<'a> {
    name: &'a str,
    text: String,
}

/// What was gone through so far: the files, how many cases there were, how many of these failed, and how.
#[derive(Drop)]
pub struct Transcript<'a> {
    alloc: Global,
    files: Vec<NamedFile<'a>>,
    cases: u32,
    failed: u32,
    failures: String,
}

impl<'a> Transcript<'a> {
    pub fn new(alloc: Global) -> Transcript<'a> {
        Transcript {
            alloc,
            files: Vec::new(alloc),
            cases: 0,
            failed: 0,
            failures: String::new(alloc),
        }
    }

    /// What is told of it: the cases that failed, and how many there were.
    pub fn told(&self) -> Result<String, AllocError> {
        let (cases, failed) = (self.cases, self.failed);
        format!(in self.alloc; "{}{cases} cases, {failed} failed", self.failures)
    }

    /// Takes a block.
    pub fn take<R: Files + Threads + Wait + Sync + Clock>(
        &mut self,
        rt: &R,
        block: &'a str,
    ) -> Result<(), Fault> {
        let (head, body) = block.split_once('\n').unwrap_or((block, ""));
        match head.strip_prefix("file ") {
            Some(name) => self.put_file(name, body),
            None => self.run_all(rt, head, body),
        }
    }

    /// Keeps a file.
    fn put_file(&mut self, name: &'a str, body: &str) -> Result<(), Fault> {
        let alloc = self.alloc;
        let lines = lines_of(alloc, body)?;
        let (name, text) = match name.split_once(" from ") {
            Some((name, base)) => (name, changed(alloc, self.file(base)?, &lines)?),
            None => (name, lines),
        };
        match self.files.push(NamedFile { name, text }) {
            Ok(()) => Ok(()),
            Err(_) => Err(Fault::from(AllocError)),
        }
    }

    /// The file of a name, where it was named last.
    fn file(&self, name: &str) -> Result<&str, Fault> {
        for file in self.files.iter().rev() {
            if file.name == name {
                return Ok(file.text.as_str());
            }
        }
        Err(Fault::NoFile)
    }

    /// Runs the cases of a block.
    fn run_all<R: Files + Threads + Wait + Sync + Clock>(
        &mut self,
        rt: &R,
        head: &str,
        body: &str,
    ) -> Result<(), Fault> {
        let mut case = Case::new(self.alloc, head)?;
        for line in lines_of(self.alloc, body)?.lines() {
            if case.ends_before(line) {
                self.run(rt, &case)?;
                case.begin_next();
            }
            case.take(line)?;
        }
        self.run(rt, &case)
    }

    /// Runs a case, and says so where it comes out otherwise.
    fn run<R: Files + Threads + Wait + Sync + Clock>(
        &mut self,
        rt: &R,
        case: &Case,
    ) -> Result<(), Fault> {
        self.cases = self.cases.saturating_add(1);
        let failure = match self.difference(rt, case) {
            Ok(failure) => failure,
            Err(fault) => Some(format!(in self.alloc; "{fault}")?),
        };
        if let Some(failure) = failure {
            self.failed = self.failed.saturating_add(1);
            let (commands, changes, printed) = (&case.commands, &case.changes, &case.printed);
            let told = format!(in self.alloc;
                "== {commands}{changes}{printed}-- came:\n{failure}\n"
            )?;
            self.failures.push_str(&told)?;
        }
        Ok(())
    }

    /// What comes of a case, where that is not what is wanted.
    fn difference<R: Files + Threads + Wait + Sync + Clock>(
        &self,
        rt: &R,
        case: &Case,
    ) -> Result<Option<String>, Fault> {
        let mut first: Option<String> = None;
        for command in case.commands.lines() {
            let came = self.printed(rt, command, &case.changes)?;
            let is_fit = match &first {
                Some(first) => came == *first,
                None => case.is_met_by(&came),
            };
            if !is_fit {
                return Ok(Some(came));
            }
            first = Some(came);
        }
        Ok(None)
    }

    /// What a command prints, with these changes of its input; or the digest of what it writes.
    fn printed<R: Files + Threads + Wait + Sync + Clock>(
        &self,
        rt: &R,
        command: &str,
        changes: &str,
    ) -> Result<String, Fault> {
        let alloc = self.alloc;
        let (line, text) = match command.split_once(" < ") {
            Some((line, name)) => (line, changed(alloc, self.file(name)?, changes)?),
            None => (command, String::new(alloc)),
        };
        if let Some(line) = line.strip_prefix("sha256 ") {
            return Ran::new(rt, alloc, line, text.as_bytes())?.digest(alloc);
        }
        if let Some((part, line)) = line
            .strip_prefix("rows ")
            .and_then(|it: &str| it.split_once(' '))
        {
            let printed = Ran::new(rt, alloc, line, text.as_bytes())?.printed(alloc)?;
            return Ok(rows_with(alloc, &printed, part)?);
        }
        Ran::new(rt, alloc, line, text.as_bytes())?.printed(alloc)
    }
}
