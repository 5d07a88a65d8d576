//! Values for all runs, as arguments of a command line.
ghost use Rattle.std.specs.Prelude.{◌≡◌, false, IfOk, IfErr};
ghost use Rattle.toml.specs.View.{view};
ghost use Rattle.study.specs.SetWords.{value_said, SaysAssignment, SaysNoAssignment, is_memory};

use crate::assignment::Assignment;
use crate::error::AssignmentError;
use crate::key::Key;
use std::alloc::{AllocError, Global};
use toml::Value;

/// The value that a word says: what TOML reads as one value, and else a text.
fn value_in(alloc: Global, word: &str) -> Result<Value, AllocError>
    ensures { IfOk result (λ v. view v ≡ value_said word.now) }
{
    match Value::from_str(alloc, word) {
        Ok(value) => Ok(value),
        Err(error) if error.is_memory() => Err(AllocError),
        Err(_) => Value::string(alloc, word),
    }
}

impl Assignment {
    /// The assignment that words say: `KEY=VALUE`. The text before the first `=` is the key ([`Key::parse`]). The value
    /// is any value of TOML, as `[1, 2, 3]` or `{kind = "freshness", eta = 100, delta = 50}`; a word that is none is a
    /// text, as `es`.
    ///
    /// # Errors
    ///
    /// `NoEquals`; then why the key is none; then `NoValue`. `Memory` at any point.
    pub fn parse(alloc: Global, words: &str) -> Result<Assignment, AssignmentError>
        ensures ok { IfOk result (SaysAssignment words.now) }
        ensures err { IfErr result (λ e. is_memory e ≡ false → SaysNoAssignment words.now e) }
    {
        let (key, value) = match words.split_once('=') {
            Some(parts) => parts,
            None => return Err(AssignmentError::NoEquals),
        };
        let key = match Key::parse(alloc, key) {
            Ok(key) => key,
            Err(error) => return Err(AssignmentError::Key(error)),
        };
        if value.is_empty() {
            return Err(AssignmentError::NoValue);
        }
        let value = value_in(alloc, value).map_err(AssignmentError::Memory)?;
        Ok(Assignment { key, value })
    }
}
