//! Reading what a path names.
ghost use Rattle.std.specs.{Prelude.{◌≡◌, ◌≢◌, ◌+◌, ◌≤◌, ◌<◌, IfOk, IfSome, OnOk, length, Err}, Io.KnownBytes.{IsAtEnd}};
ghost use Rattle.shell.specs.Ending.{AreAllOf, TakesAtMost, input_path, most_bytes};

use crate::input::{InputError, read_all};
use std::alloc::Global;
use std::fs;
use std::io::{ErrorKind, Read};
use std::rt::Files;

/// All bytes at a path, where they are at most 8,388,608; the path `-` is the input. Of a path other than `-` contracts
/// don't know the bytes, and nothing of the input is taken.
///
/// # Errors
///
/// `NoSuchFile` where no file has that path, which never comes of `-`; `TooLong` where there are more bytes;
/// `Unreadable` where the file couldn't be opened for another reason or a read failed; and `Memory` where the bytes
/// found no room.
pub fn bytes_at<R: Files, I: Read>(
    rt: &R,
    alloc: Global,
    path: &str,
    input: &mut I,
) -> Result<Vec<u8>, InputError>
    ensures short { IfOk result (λ bytes. length bytes.items ≤ most_bytes) }
    ensures whole { IfOk result (λ bytes. path.now ≡ input_path → AreAllOf (I.remaining input.old) bytes.items) }
    ensures end { path.now ≡ input_path → OnOk result (IsAtEnd (I.remaining input.new)) }
    ensures long { path.now ≡ input_path → result ≡ Err InputError.TooLong
        → IfSome (I.remaining input.old) (λ all. most_bytes < length all) }
    ensures absent { result ≡ Err InputError.NoSuchFile → path.now ≢ input_path }
    ensures taken { TakesAtMost (most_bytes + 1) (I.remaining input.old) (I.remaining input.new) }
    ensures untouched { path.now ≢ input_path → input.new ≡ input.old }
{
    if path == "-" {
        return read_all(alloc, input);
    }
    match fs::open(rt, path) {
        Ok(mut file) => read_all(alloc, &mut file),
        Err(error) if error.kind() == ErrorKind::NotFound => Err(InputError::NoSuchFile),
        Err(_) => Err(InputError::Unreadable),
    }
}
