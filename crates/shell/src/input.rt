//! Reading an input to its end.
ghost use Rattle.std.specs.{Prelude.{◌≡◌, ◌≢◌, ◌+◌, ◌≤◌, ◌<◌, IfOk, IfSome, OnOk, length, Err}, Io.KnownBytes.{IsAtEnd}};
ghost use Rattle.shell.specs.Ending.{TakesAtMost, most_bytes};

use std::alloc::Global;
use std::io::Read;
use thiserror::Error;

/// The most bytes that a file may have.
const MOST_BYTES: usize = 8_388_608;

/// How many bytes a read asks for at most.
const PIECE_BYTES: usize = 65_536;

/// Why an input is refused.
#[derive(Clone, Copy, Debug, PartialEq, Eq, Error)]
pub enum InputError {
    /// No file has that path.
    #[error("no such file")]
    NoSuchFile,
    /// The file can't be opened, or a read failed.
    #[error("the input can't be read")]
    Unreadable,
    /// The input has more than 8,388,608 bytes.
    #[error("the input has more than 8388608 bytes")]
    TooLong,
    /// Memory was refused.
    #[error("out of memory")]
    Memory,
}

/// All bytes of an input, where they are at most 8,388,608. At most one byte more than that is read. The first read
/// that fails, of whatever kind, is the last: none is tried again.
///
/// # Errors
///
/// `TooLong` where there are more bytes, `Unreadable` where a read failed, and `Memory` where the bytes found no room.
pub fn read_all<R: Read>(alloc: Global, input: &mut R) -> Result<Vec<u8>, InputError>
    ensures short { IfOk result (λ bytes. length bytes.items ≤ most_bytes) }
    ensures whole { IfOk result (λ bytes. IfSome (R.remaining input.old) (λ all. bytes.items ≡ all)) }
    ensures end { OnOk result (IsAtEnd (R.remaining input.new)) }
    ensures long { result ≡ Err InputError.TooLong → IfSome (R.remaining input.old) (λ all. most_bytes < length all) }
    ensures open { result ≢ Err InputError.NoSuchFile }
    ensures taken { TakesAtMost (most_bytes + 1) (R.remaining input.old) (R.remaining input.new) }
{
    let mut bytes = Vec::new(alloc);
    let mut piece = [0u8; PIECE_BYTES];
    for _ in 0..u64::MAX {
        let room = MOST_BYTES - bytes.len();
        let asked = PIECE_BYTES.min(room + 1);
        match input.read(&mut piece[..asked]) {
            Ok(0) => return Ok(bytes),
            Ok(count) if count > room => return Err(InputError::TooLong),
            Ok(count) => {
                if bytes.extend_from_slice(&piece[..count]).is_err() {
                    return Err(InputError::Memory);
                }
            }
            Err(_) => return Err(InputError::Unreadable),
        }
    }
    Err(InputError::Unreadable)
}
