//! Outlets over a writer.
use crate::comparisons::{NO_MEMORY, same};
use reporting::{Outlet, StreamOutlet};
use std::io::{self, Write};

/// A writer that is interrupted once, and then takes everything.
#[derive(Drop)]
struct Interrupted {
    was_asked: bool,
}

impl Write for Interrupted {
    fn write(&mut self, piece: &[u8]) -> io::Result<usize> {
        if self.was_asked {
            return Ok(piece.len());
        }
        self.was_asked = true;
        Err(io::Error::from(io::ErrorKind::Interrupted))
    }

    fn flush(&mut self) -> io::Result<()> {
        Ok(())
    }
}

/// A write that failed isn't tried again, though it would be taken then.
#[test]
fn failed_write(rt: HostRuntime) {
    let mut outlet = StreamOutlet::new(Interrupted { was_asked: false });
    assert!(rt; outlet.put(b"abc").is_err());
    same(&rt, &outlet.failures(), &1);
}

/// A piece of 70,000 bytes goes to the writer as a whole.
#[test]
fn long_piece(rt: HostRuntime) {
    let alloc = rt.alloc();
    let piece = vec![in alloc; b'a'; 70_000].expect(&rt, NO_MEMORY);
    let mut outlet = StreamOutlet::new(Vec::new(alloc));
    let taken = outlet.put(&piece).expect(&rt, NO_MEMORY);
    same(&rt, &taken, &70_000);
    same(&rt, &outlet.failures(), &0);
}
