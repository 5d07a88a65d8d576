//! The arguments that a program is given.
ghost use Rattle.std.specs.Prelude.{◌≡◌, IfOk, map, string_bytes};

use std::alloc::{AllocError, AllocGlobal, Global};
use std::env;
use std::io::ErrorKind;
use std::rt::Env;

/// Why there are no words.
#[derive(Clone, Copy)]
pub enum NoWords {
    /// Memory was refused.
    Memory,
    /// A word isn't text. It isn't known which one that is.
    NoText,
}

/// The words of the command line, the program's name first.
///
/// # Errors
///
/// `Memory`, and `NoText` where a word isn't text.
pub fn words_of<R: Env + AllocGlobal>(rt: &R) -> Result<Vec<String>, NoWords> {
    let words = match env::args(rt) {
        Ok(words) => words,
        Err(error) if error.kind() == ErrorKind::OutOfMemory => return Err(NoWords::Memory),
        Err(_) => return Err(NoWords::NoText),
    };
    words.collect(rt.alloc()).map_err(|_| NoWords::Memory)
}

/// The words as texts that are lent: all of them, in their order.
///
/// # Errors
///
/// `AllocError` where memory was refused.
pub fn lent<'a>(alloc: Global, words: &'a [String]) -> Result<Vec<&'a str>, AllocError>
    ensures { IfOk result (λ texts. map (λ t. t.now) texts.items ≡ map string_bytes words.now) }
{
    words.iter().map(|word| word.as_str()).collect(alloc)
}
