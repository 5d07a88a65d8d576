//! Runs by windows, from a scenario and its machines to the texts that go out.
ghost use Rattle.std.specs.Prelude.{◌≡◌, ◌^◌, ◌-◌, ◌<◌, map, IfErr, IfOk};
ghost use Rattle.{process_api.specs.Place.{numbers_to}, runs.specs.Finishing.{BreaksOff, Finishes}};
ghost use Rattle.{scenario_record.specs.Record.{opening_mind}, windows.specs.Plan.{IsPlanFor}};

use crate::streaming::{Begun, ByWindows, stream_windows, write_header};
use process_api::{PrintChoice, Process, RunError};
use reporting::{
    Outlet, Summary, close_running, open_running, prints_report, prints_trace, write_if_any,
};
use scenario_record::Scenario;
use std::alloc::Global;
use std::marker::Sync;
use std::sync::Wait;
use std::thread::Threads;
use windows::{Gate, Plan};

/// Runs a scenario by windows that the plan's workers share, each a thread, and writes what is asked for. Under every
/// schedule of the threads the texts are those of the single event list. No entry is held once its window is
/// closed. Where the trace is asked for, its first line goes out before the first window, and the rows of a window's
/// entries go out once the window is closed; the report goes out at the end.
///
/// The machines are those of processes 1 to n, in this order, each in its opening state. They are consumed. The plan's
/// window is no longer than the scenario's lookahead. A worker tells the gate of each process that it takes.
///
/// With the rotating coordinator no two outcomes of the summary have different values, each value was proposed, each
/// process decides at most once, and none notes that it ends with no value: whatever the detector, the links and the
/// crashes. Always the verdicts of the report mean their quantifiers over processes and ticks, and whoever is suspected
/// on layer 2 was suspected on layer 1 before (`specs/Grounds.antt` of `runs`).
///
/// # Errors
///
/// `Spawn` where a thread was refused, `Memory` where memory was refused, and `Limit` where the run has more entries
/// than the scenario's limit: then the trace's first line and the rows of the windows before went out, where the trace
/// is asked for, and nothing of the report did. `Write` where a put failed: then a front part of the texts went out, of
/// which the trace may be longer than the limit.
pub fn bench_windows<M: Process, G: Gate, O: Outlet, R: Threads + Wait + Sync>(
    rt: &R,
    alloc: Global,
    scenario: &Scenario,
    machines: Vec<M>,
    plan: &Plan,
    gate: &G,
    print: PrintChoice,
    outlet: &mut O,
) -> Result<Summary, RunError>
    requires machines { map M.mind machines.items
        ≡ map (opening_mind scenario.now) (numbers_to scenario.now.processes) }
    requires plan { IsPlanFor scenario.now plan.now }
    requires failures { O.failed outlet.old < 2 ^ 64 - 1 }
    ensures done { IfOk result (Finishes scenario.now print O.told O.failed outlet.old outlet.new) }
    ensures refused { IfErr result (BreaksOff scenario.now print O.told O.failed outlet.old outlet.new) }
{
    scenario.recall_ranges();
    let is_traced = prints_trace(print);
    let running = open_running(alloc, scenario, prints_report(print))?;
    write_header(is_traced, outlet)?;
    let by_windows = ByWindows { plan, gate };
    let begun = Begun { running, is_traced };
    let run = stream_windows(rt, alloc, scenario, machines, by_windows, begun, outlet)?;
    let (summary, report) = close_running(alloc, scenario, run)?;
    write_if_any(report, outlet)?;
    Ok(summary)
}
