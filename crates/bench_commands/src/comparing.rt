//! Whether both ways to run a scenario write the same.
ghost use Rattle.std.specs.Prelude.{◌≡◌, ◌≢◌, IfErr, IfOk, IsErrOf, Err, List, true, false, ℕ};
ghost use Rattle.{bench_commands.specs.Answer.{IsWritten, IsTooLong, IsModeFor}, windows.specs.Plan.{IsPlanFor}};

use crate::bench::{Mode, bench};
use process_api::RunError;
use qos_report::{MemoryOutlet, PrintChoice};
use scenario::Scenario;
use std::alloc::Global;
use std::marker::Sync;
use std::sync::Wait;
use std::thread::Threads;
use windows::{Gate, Plan};

/// Whether two texts are the same, byte by byte.
pub fn same_bytes(left: &[u8], right: &[u8]) -> bool
    ensures same { result ≡ true → left.now ≡ right.now }
    ensures different { result ≡ false → left.now ≢ right.now }
{
    left == right
}

/// Both texts of a run in a mode, in memory. Where the outlet is refused a growth, the error is that memory was
/// refused.
fn written_by<R: Threads + Wait + Sync, G: Gate>(
    rt: &R,
    alloc: Global,
    scenario: &Scenario,
    mode: Mode,
    gate: &G,
) -> Result<MemoryOutlet, RunError>
    requires { IsModeFor scenario.now mode }
    ensures written { IfOk result (λ outlet. IsWritten scenario.now outlet.bytes) }
    ensures threads { mode ≡ Mode.List → result ≢ Err RunError.Spawn }
    ensures other { IfErr result (λ error. error ≢ RunError.Write) }
    ensures long { IsErrOf result RunError.Limit → IsTooLong scenario.now }
{
    let mut outlet = MemoryOutlet::new(alloc);
    match bench(
        rt,
        alloc,
        scenario,
        mode,
        gate,
        PrintChoice::Both,
        &mut outlet,
    ) {
        Ok(_) => Ok(outlet),
        Err(RunError::Write) => Err(RunError::Memory),
        Err(error) => Err(error),
    }
}

/// Runs a scenario by the single event list and by windows, and says whether the texts are the same, trace and report.
/// They always are.
pub fn compare<R: Threads + Wait + Sync, G: Gate>(
    rt: &R,
    alloc: Global,
    scenario: &Scenario,
    plan: Plan,
    gate: &G,
) -> Result<bool, RunError>
    requires { IsPlanFor scenario.now plan }
    ensures same { IfOk result (λ same. (same ≡ true) × ((bytes : List ℕ) × IsWritten scenario.now bytes)) }
    ensures other { IfErr result (λ error. error ≢ RunError.Write) }
    ensures long { IsErrOf result RunError.Limit → IsTooLong scenario.now }
{
    let listed = written_by(rt, alloc, scenario, Mode::List, gate)?;
    let windowed = written_by(rt, alloc, scenario, Mode::Windows(plan), gate)?;
    Ok(same_bytes(listed.bytes(), windowed.bytes()))
}
