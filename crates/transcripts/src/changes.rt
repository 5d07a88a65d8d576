//! Changes of a file, by whole lines.

use crate::fault::Fault;
use std::alloc::{AllocError, Global};

/// Puts a line at the end of a text.
pub fn push_line(text: &mut String, line: &str) -> Result<(), AllocError> {
    text.push_str(line)?;
    text.push('\n')
}

/// A file that is being changed: its text so far, and which lines are to be changed next, into which.
#[derive(Drop)]
struct Change {
    text: String,
    old: String,
    new: String,
}

impl Change {
    /// Makes the change that is stated so far.
    fn make(&mut self, alloc: Global) -> Result<(), Fault> {
        if self.old.is_empty() {
            self.text.push_str(&self.new)?;
        } else {
            let parts = self.text.split_once(self.old.as_str());
            let (before, after) = parts.ok_or(Fault::NoLines)?;
            self.text = format!(in alloc; "{before}{}{after}", self.new)?;
        }
        self.old.clear();
        self.new.clear();
        Ok(())
    }

    /// Takes a line of the changes. A change is made where the next one begins.
    fn take(&mut self, alloc: Global, line: &str) -> Result<(), Fault> {
        if line.is_empty() || line.starts_with('-') && !self.new.is_empty() {
            self.make(alloc)?;
        }
        if let Some(old) = line.strip_prefix('-') {
            push_line(&mut self.old, old)?;
        }
        if let Some(new) = line.strip_prefix('+') {
            push_line(&mut self.new, new)?;
        }
        Ok(())
    }
}

/// The file with these changes.
pub fn changed(alloc: Global, file: &str, changes: &str) -> Result<String, Fault> {
    let mut change = Change {
        text: String::from_str(alloc, file)?,
        old: String::new(alloc),
        new: String::new(alloc),
    };
    for line in changes.lines() {
        change.take(alloc, line)?;
    }
    change.make(alloc)?;
    Ok(change.text)
}
