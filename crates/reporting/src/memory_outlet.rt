//! An outlet over memory.
ghost use Rattle.std.specs.{Prelude.{◌≡◌, ◌<◌, ◌≤◌, ◌+◌, ◌-◌, ◌^◌, ◌++◌, [], Some, IfOk, IfErr, MatchResult, length, take}, IoError.{error_kind}, declared.io.ErrorKind.TheVariants.{OutOfMemory}};
ghost use Rattle.reporting.specs.Outlet.{failures_of};

use crate::outlet::Outlet;
use std::alloc::Global;
use std::io;
use std::marker::Model;

/// An outlet that keeps its bytes in memory. A put takes its piece whole, and fails only where memory is refused.
/// Contracts see its bytes and how many puts failed.
#[derive(Drop)]
pub struct MemoryOutlet {
    bytes: Vec<u8>,
    failures: u64,
}

impl Model for MemoryOutlet {
    ghost use Rattle.reporting.specs.Outlet.{Held};

    ghost Value = { Held };

    ghost view = { λ o. record { bytes = o.bytes.items; failures = o.failures } };
}

impl MemoryOutlet {
    /// An outlet that has taken nothing.
    pub fn new(alloc: Global) -> MemoryOutlet
        ensures { result ≡ record { bytes = []; failures = 0 } }
    {
        MemoryOutlet {
            bytes: Vec::new(alloc),
            failures: 0,
        }
    }

    /// The bytes that it took.
    pub fn bytes(&self) -> &[u8]
        ensures { result.now ≡ self.now.bytes }
    {
        &self.bytes
    }
}

impl Outlet for MemoryOutlet {
    ghost told = { λ o. Some o.bytes };

    ghost failed = { λ o. o.failures };

    fn put(&mut self, piece: &[u8]) -> io::Result<usize>
        requires { self.old.failures < 2 ^ 64 - 1 }
        ensures bound { IfOk result (λ taken. taken ≤ length piece.now) }
        ensures bytes { MatchResult result (λ taken. self.new.bytes ≡ self.old.bytes ++ take taken piece.now)
            (λ _. self.new.bytes ≡ self.old.bytes) }
        ensures count { self.new.failures ≡ self.old.failures + failures_of result piece.now }
        ensures whole { IfOk result (λ taken. taken ≡ length piece.now) }
        ensures refused { IfErr result (λ error. error_kind error ≡ OutOfMemory) }
    {
        match self.bytes.extend_from_slice(piece) {
            Ok(()) => Ok(piece.len()),
            Err(error) => {
                self.failures += 1;
                Err(io::Error::from(error))
            }
        }
    }

    fn failures(&self) -> u64 {
        self.failures
    }
}
