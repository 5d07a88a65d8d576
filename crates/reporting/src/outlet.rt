//! Where texts go.
ghost use Rattle.std.specs.{Prelude.{◌≡◌, ℕ, ◌+◌, ◌-◌, ◌^◌, ◌<◌, ◌≤◌, List, take, length, Option, IfOk, MatchResult, IsTrue, None, if◌then◌else◌}, Io.KnownBytes.{Appends, Keeps}};
ghost use Rattle.reporting.specs.Outlet.{failures_of, Grows};

use std::io;

/// Where a text goes, piece by piece.
pub trait Outlet {
    /// The bytes that went out, where they are known.
    ghost told: { Self → Option (List ℕ) } = { λ _. None };

    /// How many puts failed.
    ghost failed: { Self → ℕ };

    /// Hands on the piece, or a part of its front: at `Ok(k)` its first `k` bytes went out.
    ///
    /// # Errors
    ///
    /// Any of the outlet's own. Then nothing went out.
    fn put(&mut self, piece: &[u8]) -> io::Result<usize>
        requires { failed self.old < 2 ^ 64 - 1 }
        ensures bound { IfOk result (λ taken. taken ≤ length piece.now) }
        ensures bytes { MatchResult result (λ taken. Appends (told self.old) (told self.new) (take taken piece.now))
            (λ _. Keeps (told self.old) (told self.new)) }
        ensures count { failed self.new ≡ failed self.old + failures_of result piece.now };

    /// How many puts failed: they answered `Err`, or 0 for a piece that isn't empty.
    fn failures(&self) -> u64
        ensures { result ≡ failed self.now };
}

/// Hands on the whole piece, and answers whether all of it went out. It gives up at the first put that fails, of
/// whatever kind, and never tries again.
pub fn put_all<O: Outlet>(outlet: &mut O, piece: &[u8]) -> bool
    requires { O.failed outlet.old < 2 ^ 64 - 1 }
    ensures whole { IsTrue result → Appends (O.told outlet.old) (O.told outlet.new) piece.now }
    ensures part { Grows (O.told outlet.old) (O.told outlet.new) piece.now }
    ensures count { O.failed outlet.new ≡ O.failed outlet.old + (if result then 0 else 1) }
{
    let mut done = 0;
    while done < piece.len() {
        match outlet.put(&piece[done..]) {
            Ok(0) | Err(_) => return false,
            Ok(taken) => done += taken,
        }
    }
    true
}
