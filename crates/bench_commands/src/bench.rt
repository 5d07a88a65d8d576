//! Runs of a scenario over machines that are made here.
ghost use Rattle.std.specs.Prelude.{◌≡◌, ◌≢◌, ◌^◌, ◌-◌, ◌<◌, IfErr, IfOk, Err};
ghost use Rattle.{bench_commands.specs.Answer.{IsModeFor, RefusesBy}, runs.specs.Finishing.{Finishes}};

use machines::machines_of;
use process_api::RunError;
use qos_report::{Outlet, PrintChoice, Summary, bench_list, bench_windows};
use scenario::Scenario;
use std::alloc::Global;
use std::marker::Sync;
use std::sync::Wait;
use std::thread::Threads;
use windows::{Gate, Plan};

/// How a run takes its events.
#[derive(Clone, Copy)]
pub enum Mode {
    /// By one global event list. Nobody waits.
    List,
    /// By windows that a plan's workers share.
    Windows(Plan),
}

/// Runs a scenario in a mode, over machines that are made here, and writes what is asked for. The output doesn't depend
/// on the mode. By the event list no thread is started, so none is refused; by windows a worker tells the gate of each
/// process that it takes.
pub fn bench<R: Threads + Wait + Sync, G: Gate, O: Outlet>(
    rt: &R,
    alloc: Global,
    scenario: &Scenario,
    mode: Mode,
    gate: &G,
    print: PrintChoice,
    outlet: &mut O,
) -> Result<Summary, RunError>
    requires mode { IsModeFor scenario.now mode }
    requires failures { O.failed outlet.old < 2 ^ 64 - 1 }
    ensures done { IfOk result (Finishes scenario.now print O.told O.failed outlet.old outlet.new) }
    ensures refused { IfErr result
        (RefusesBy mode scenario.now print O.told O.failed outlet.old outlet.new) }
    ensures threads { mode ≡ Mode.List → result ≢ Err RunError.Spawn }
{
    scenario.recall_ranges();
    let machines = machines_of(alloc, scenario)?;
    match mode {
        Mode::List => bench_list(alloc, scenario, machines, print, outlet),
        Mode::Windows(plan) => bench_windows(
            rt, alloc, scenario, machines, &plan, gate, print, outlet,
        ),
    }
}
