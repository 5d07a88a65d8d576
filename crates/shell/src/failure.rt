//! Why a program did not do what it was asked.
ghost use Rattle.std.specs.Prelude.{◌≡◌, ℕ, ◌+◌, ◌-◌, ◌^◌, ◌<◌, ◌≤◌, List};
ghost use Rattle.shell.specs.Ending.{End, HasStatus, Tells, cut};

use reporting::Outlet;

/// Why a program did not do what it was asked.
pub trait Failure: Drop {
    /// The exit status.
    ghost status: { Self → ℕ };

    /// The line that is told.
    ghost line: { Self → List ℕ };

    /// What is left of what was to be written.
    ghost end: { Self → End };

    /// That a write failed.
    ghost unwritten: { Self };

    /// That a write failed.
    fn unwritten() -> Self
        ensures { result ≡ unwritten };

    /// The exit status.
    fn status(&self) -> u8
        ensures { result ≡ status self.now };

    /// Writes the line. Where a put fails, a front part of it went out.
    fn put_line<O: Outlet>(&self, faults: &mut O)
        requires { O.failed faults.old < 2 ^ 64 - 1 }
        ensures { Tells O.told O.failed faults.old faults.new (λ text. text ≡ line self.now) };

    ghost is_cut: { end unwritten ≡ cut };

    ghost statuses: { (failure : Self) → HasStatus (end failure) (status failure) };
}

/// Writes the failure's line and answers the exit status. Where a put fails, a front part of the line went out, and
/// nobody is told.
pub fn report<F: Failure, O: Outlet>(failure: &F, faults: &mut O) -> u8
    requires { O.failed faults.old < 2 ^ 64 - 1 }
    ensures status { result ≡ F.status failure.now }
    ensures told { O.failed faults.new ≤ O.failed faults.old + 1 }
    ensures line { Tells O.told O.failed faults.old faults.new (λ text. text ≡ F.line failure.now) }
{
    failure.put_line(faults);
    failure.status()
}
