//! Inputs that are read, and inputs that are refused.
use crate::common::same;
use shell::{InputError, read_all};
use std::io::{self, ErrorKind, Read};

/// A reader of so many bytes `#` that fails after them where it is torn.
#[derive(Drop)]
struct Hashes {
    left: usize,
    is_torn: bool,
}

impl Read for Hashes {
    fn read(&mut self, buffer: &mut [u8]) -> io::Result<usize> {
        if self.is_torn && self.left == 0 {
            return Err(io::Error::from(ErrorKind::Other));
        }
        let given = buffer.len().min(self.left);
        buffer[..given].fill(b'#');
        self.left -= given;
        Ok(given)
    }
}

/// The most bytes are read; of one byte more it is seen that they are too many, and of more bytes no more is taken. A
/// read that fails is the last.
#[test]
fn most_bytes(rt: HostRuntime) {
    let alloc = rt.alloc();
    for (length, is_torn, want, left) in [
        (65_537, false, Ok(65_537), 0),
        (8_388_608, false, Ok(8_388_608), 0),
        (8_388_609, false, Err(InputError::TooLong), 0),
        (9_000_000, false, Err(InputError::TooLong), 611_391),
        (0, true, Err(InputError::Unreadable), 0),
        (1, true, Err(InputError::Unreadable), 0),
        (65_536, true, Err(InputError::Unreadable), 0),
    ] {
        let mut input = Hashes {
            left: length,
            is_torn,
        };
        let read = read_all(alloc, &mut input).map(|bytes| bytes.len());
        same(&rt, &(read, input.left, length), &(want, left, length));
    }
}
