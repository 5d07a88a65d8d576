//! How a run ends.
ghost use Rattle.std.specs.{Prelude.{◌≡◌, ◌≢◌, ◌⊎◌, ◌+◌, ◌-◌, ◌^◌, ◌<◌, ◌≤◌, IfErr, OnOk}, Io.KnownBytes.{Keeps}, Process.{exit_status}};
ghost use Rattle.{reporting.specs.Outlet.{WroteNothing}, shell.specs.Ending.{Tells}};

use crate::failure::{Failure, report};
use reporting::{Outlet, StreamOutlet};
use std::io::Write;
use std::process::ExitCode;

/// Answers the exit status of a run: 0 where it is done, or else that of its failure, of which the line is told.
pub fn ended<F: Failure, O: Outlet>(outcome: Result<(), F>, faults: &mut O) -> u8
    requires { O.failed faults.old < 2 ^ 64 - 1 }
    ensures done { OnOk outcome ((result ≡ 0) × WroteNothing O.told O.failed faults.old faults.new) }
    ensures failed { IfErr outcome (λ failure. (result ≡ F.status failure)
        × Tells O.told O.failed faults.old faults.new (λ text. text ≡ F.line failure)) }
    ensures told { O.failed faults.new ≤ O.failed faults.old + 1 }
{
    match outcome {
        Ok(()) => 0,
        Err(failure) => report(&failure, faults),
    }
}

/// Flushes the writer behind the outlet as a run of this status ends, and answers the exit code of the process: the
/// status, but 4 where it is 0 and the flush fails, with the line of a failed write.
pub fn finish<F: Failure, W: Write + Drop, O: Outlet>(
    status: u8,
    outlet: &mut StreamOutlet<W>,
    faults: &mut O,
) -> ExitCode
    requires { O.failed faults.old < 2 ^ 64 - 1 }
    ensures status { (exit_status result ≡ status) ⊎ ((status ≡ 0) × (exit_status result ≡ 4)) }
    ensures silent { exit_status result ≡ status → WroteNothing O.told O.failed faults.old faults.new }
    ensures line { exit_status result ≢ status →
        Tells O.told O.failed faults.old faults.new (λ text. text ≡ F.line F.unwritten) }
    ensures kept { Keeps (W.contents outlet.old.writer) (W.contents outlet.new.writer) }
    ensures failures { outlet.new.failures ≡ outlet.old.failures }
    ensures told { O.failed faults.new ≤ O.failed faults.old + 1 }
{
    match outlet.flush() {
        Err(_) if status == 0 => ExitCode::from(report(&F::unwritten(), faults)),
        _ => ExitCode::from(status),
    }
}
