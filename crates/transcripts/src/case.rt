//! A case: commands, changes of their input, and what they are to print.

use crate::changes::push_line;
use crate::pattern::fits;
use std::alloc::{AllocError, Global};

/// What of a case was read so far.
#[derive(Drop)]
pub struct Case {
    /// Commands, a line each.
    pub commands: String,
    /// Changes of the input.
    pub changes: String,
    /// What is to be printed.
    pub printed: String,
}

impl Case {
    /// A case with this command and nothing else; with none where the head is no command.
    pub fn new(alloc: Global, head: &str) -> Result<Case, AllocError> {
        let mut case = Case {
            commands: String::new(alloc),
            changes: String::new(alloc),
            printed: String::new(alloc),
        };
        if head != "same" {
            push_line(&mut case.commands, head)?;
        }
        Ok(case)
    }

    /// Whether the case is whole, as this line is of the next one.
    pub fn ends_before(&self, line: &str) -> bool {
        is_change(line) && !self.printed.is_empty()
    }

    /// Takes a line of the body.
    pub fn take(&mut self, line: &str) -> Result<(), AllocError> {
        if let Some(command) = line.strip_prefix("$ ") {
            push_line(&mut self.commands, command)
        } else if is_change(line) || line.is_empty() && self.printed.is_empty() {
            push_line(&mut self.changes, line)
        } else {
            push_line(&mut self.printed, line)
        }
    }

    /// Whether this is what is to be printed; where nothing stands of that, whether it ended well.
    pub fn is_met_by(&self, came: &str) -> bool {
        if self.printed.is_empty() {
            !came.contains("\nstatus ") && !came.starts_with("status ")
        } else {
            fits(came, &self.printed)
        }
    }

    /// Makes room for the next case of the same commands.
    pub fn begin_next(&mut self) {
        self.changes.clear();
        self.printed.clear();
    }
}

fn is_change(line: &str) -> bool {
    line.starts_with('-') || line.starts_with('+')
}

/// The lines of a body, without remarks and without empty lines at its end.
pub fn lines_of(alloc: Global, body: &str) -> Result<String, AllocError> {
    let mut lines = String::new(alloc);
    for line in body.trim_end_matches('\n').lines() {
        if !line.starts_with("# ") {
            push_line(&mut lines, line)?;
        }
    }
    Ok(lines)
}
