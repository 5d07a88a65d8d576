//! An outlet that fails after a while.
ghost use Rattle.std.specs.{Prelude.{◌≡◌, ◌⊎◌, ◌<◌, ◌≤◌, ◌+◌, ◌-◌, ◌^◌, ◌++◌, [], Some, IfOk, IfErr, MatchResult, length, min, take}, IoError.{error_kind}, declared.io.ErrorKind.TheVariants.{OutOfMemory}};
ghost use Rattle.reporting.specs.Outlet.{failures_of};

use crate::outlet::Outlet;
use std::alloc::Global;
use std::io::{self, ErrorKind};
use std::marker::Model;

/// An outlet over memory that shows what a failed put leaves: it takes at most a given number of bytes at a put, a
/// given number of times, and every later put fails. A put fails too where memory is refused, and where it takes no
/// byte of a piece that isn't empty; no other put fails. Contracts see its bytes, the most that a put takes, how many
/// puts are left, and how many failed.
#[derive(Drop)]
pub struct FuseOutlet {
    bytes: Vec<u8>,
    most: usize,
    left: u64,
    failures: u64,
}

impl Model for FuseOutlet {
    ghost use Rattle.reporting.specs.Outlet.{Fuse};

    ghost Value = { Fuse };

    ghost view = { λ o. record { bytes = o.bytes.items; most = o.most; left = o.left; failures = o.failures } };
}

impl FuseOutlet {
    /// An outlet that takes at most `most` bytes at a put, `times` times.
    pub fn new(alloc: Global, most: usize, times: u64) -> FuseOutlet
        ensures { result ≡ record { bytes = []; most = most; left = times; failures = 0 } }
    {
        FuseOutlet {
            bytes: Vec::new(alloc),
            most,
            left: times,
            failures: 0,
        }
    }

    /// The bytes that it took.
    pub fn bytes(&self) -> &[u8]
        ensures { result.now ≡ self.now.bytes }
    {
        &self.bytes
    }
}

impl Outlet for FuseOutlet {
    ghost told = { λ o. Some o.bytes };

    ghost failed = { λ o. o.failures };

    fn put(&mut self, piece: &[u8]) -> io::Result<usize>
        requires { self.old.failures < 2 ^ 64 - 1 }
        ensures bound { IfOk result (λ taken. taken ≤ length piece.now) }
        ensures bytes { MatchResult result (λ taken. self.new.bytes ≡ self.old.bytes ++ take taken piece.now)
            (λ _. self.new.bytes ≡ self.old.bytes) }
        ensures count { self.new.failures ≡ self.old.failures + failures_of result piece.now }
        ensures taken { IfOk result (λ taken. taken ≡ min (length piece.now) self.old.most) }
        ensures left { IfOk result (λ _. self.new.left + 1 ≡ self.old.left) }
        ensures blown { IfErr result (λ error. (self.old.left ≡ 0) ⊎ (error_kind error ≡ OutOfMemory)) }
        ensures kept { IfErr result (λ _. self.new.left ≡ self.old.left) }
        ensures most { self.new.most ≡ self.old.most }
    {
        if self.left == 0 {
            self.failures += 1;
            return Err(io::Error::from(ErrorKind::Other));
        }
        let taken = piece.len().min(self.most);
        if let Err(error) = self.bytes.extend_from_slice(&piece[..taken]) {
            self.failures += 1;
            return Err(io::Error::from(error));
        }
        self.left -= 1;
        if taken == 0 && !piece.is_empty() {
            self.failures += 1;
        }
        Ok(taken)
    }

    fn failures(&self) -> u64 {
        self.failures
    }
}
