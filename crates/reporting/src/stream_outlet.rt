//! An outlet over a writer.
ghost use Rattle.std.specs.{Prelude.{◌≡◌}, Io.KnownBytes.{Keeps}};

use crate::outlet::Outlet;
use std::io::{self, Write};
use std::marker::Model;

/// An outlet that hands on to a writer. Contracts see the writer and how many puts failed.
#[derive(Drop)]
pub struct StreamOutlet<W: Write + Drop> {
    writer: W,
    failures: u64,
}

impl<W: Write + Drop> Model for StreamOutlet<W> {
    ghost use Rattle.reporting.specs.Outlet.{Stream};

    ghost Value = { Stream W };

    ghost view = { λ o. record { writer = o.writer; failures = o.failures } };
}

impl<W: Write + Drop> StreamOutlet<W> {
    /// An outlet that hands on to this writer.
    pub fn new(writer: W) -> StreamOutlet<W>
        ensures { result ≡ record { writer = writer; failures = 0 } }
    {
        StreamOutlet {
            writer,
            failures: 0,
        }
    }

    /// Asks the writer to send on what it still holds.
    ///
    /// # Errors
    ///
    /// Those of the writer.
    pub fn flush(&mut self) -> io::Result<()>
        ensures failures { self.new.failures ≡ self.old.failures }
        ensures told { Keeps (W.contents self.old.writer) (W.contents self.new.writer) }
    {
        self.writer.flush()
    }
}

impl<W: Write + Drop> Outlet for StreamOutlet<W> {
    ghost told = { λ o. W.contents o.writer };

    ghost failed = { λ o. o.failures };

    fn put(&mut self, piece: &[u8]) -> io::Result<usize> {
        match self.writer.write(piece) {
            Ok(taken) => {
                if taken == 0 && !piece.is_empty() {
                    self.failures += 1;
                }
                Ok(taken)
            }
            Err(error) => {
                self.failures += 1;
                Err(error)
            }
        }
    }

    fn failures(&self) -> u64 {
        self.failures
    }
}
