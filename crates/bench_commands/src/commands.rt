//! Carries out an order over its scenario.
ghost use Rattle.std.specs.Prelude.{◌≡◌, ◌^◌, ◌-◌, ◌<◌, codes, IfOk, IfErr, OnOk, true};
ghost use Rattle.bench_commands.specs.{Answer.{GoesBy, GoesOver, IsCompareAnswer, IsModeFor}, Fault.{IsFirstFault, end_of}, Why.{StopsBy, StopsOver, StopsWindows}};
ghost use Rattle.{reporting.specs.Outlet.{Wrote, WrotePart}, shell.specs.Ending.{Puts}};
ghost use Rattle.windows.specs.Plan.{IsPlanFor, NoneApplies, plan_of};

use crate::bench::{Mode, bench};
use crate::comparing::compare;
use crate::fault::Fault;
use command_line::Order;
use process_api::RunError;
use qos_report::{Outlet, PrintChoice};
use scenario::Scenario;
use shell::put_bytes;
use std::alloc::Global;
use std::marker::Sync;
use std::sync::Wait;
use std::thread::Threads;
use windows::{Gate, Plan};

/// Answers `list` and `run`: the texts of the run, which are the same in each mode. By windows rows of the trace go out
/// as windows close.
fn texts<R: Threads + Wait + Sync, G: Gate, O: Outlet>(
    rt: &R,
    alloc: Global,
    scenario: &Scenario,
    mode: Mode,
    print: PrintChoice,
    gate: &G,
    outlet: &mut O,
) -> Result<(), Fault>
    requires failures { O.failed outlet.old < 2 ^ 64 - 1 }
    requires mode { IsModeFor scenario.now mode }
    ensures text { GoesBy scenario.now O.told O.failed outlet.old outlet.new mode print result }
    ensures why { IfErr result (StopsBy scenario.now mode) }
{
    match bench(rt, alloc, scenario, mode, gate, print, outlet) {
        Ok(_) => Ok(()),
        Err(error) => Err(Fault::Run(error)),
    }
}

/// The plan of a run by windows.
fn plan_for(scenario: &Scenario, workers: u64, window: u64) -> Result<Plan, Fault>
    ensures plan { IfOk result (λ p. p ≡ plan_of workers window) }
    ensures fits { IfOk result (IsPlanFor scenario.now) }
    ensures ok { OnOk result (NoneApplies scenario.now.lookahead workers window) }
    ensures refused { IfErr result (IsFirstFault scenario.now.lookahead workers window) }
{
    Plan::new(scenario, workers, window).map_err(Fault::Plan)
}

/// Says whether both runs wrote the same: `same` or `different`, and a line feed.
fn put_verdict<O: Outlet>(same: bool, outlet: &mut O) -> Result<(), Fault>
    requires { O.failed outlet.old < 2 ^ 64 - 1 }
    ensures whole { OnOk result (Wrote O.told O.failed outlet.old outlet.new (codes "same\n")) }
    ensures part { same ≡ true → IfErr result (λ fault. (fault ≡ Fault.Run RunError.Write)
        × WrotePart O.told O.failed outlet.old outlet.new (codes "same\n")) }
{
    if same {
        put_bytes(b"same\n", outlet)
    } else {
        put_bytes(b"different\n", outlet)?;
        Err(Fault::Different)
    }
}

/// Answers `compare`: `same`, as both runs always write the same.
fn compare_runs<R: Threads + Wait + Sync, G: Gate, O: Outlet>(
    rt: &R,
    alloc: Global,
    scenario: &Scenario,
    plan: Plan,
    gate: &G,
    outlet: &mut O,
) -> Result<(), Fault>
    requires failures { O.failed outlet.old < 2 ^ 64 - 1 }
    requires plan { IsPlanFor scenario.now plan }
    ensures text { Puts end_of O.told O.failed outlet.old outlet.new (IsCompareAnswer scenario.now) result }
    ensures why { IfErr result (StopsWindows scenario.now) }
{
    match compare(rt, alloc, scenario, plan, gate) {
        Ok(same) => put_verdict(same, outlet),
        Err(error) => Err(Fault::Run(error)),
    }
}

/// Does what an order asks for, over its scenario.
pub(crate) fn answer<R: Threads + Wait + Sync, G: Gate, O: Outlet>(
    rt: &R,
    alloc: Global,
    order: &Order<'_>,
    scenario: &Scenario,
    gate: &G,
    outlet: &mut O,
) -> Result<(), Fault>
    requires { O.failed outlet.old < 2 ^ 64 - 1 }
    ensures text { GoesOver scenario.now O.told O.failed outlet.old outlet.new order.now result }
    ensures why { IfErr result (StopsOver scenario.now order.now) }
{
    match order {
        Order::Check { .. } => put_bytes(b"ok\n", outlet),
        Order::List { print, .. } => {
            texts(rt, alloc, scenario, Mode::List, *print, gate, outlet)
        }
        Order::Run {
            workers,
            window,
            print,
            ..
        } => {
            let plan = plan_for(scenario, *workers, *window)?;
            let mode = Mode::Windows(plan);
            texts(rt, alloc, scenario, mode, *print, gate, outlet)
        }
        Order::Compare {
            workers,
            window,
            ..
        } => {
            let plan = plan_for(scenario, *workers, *window)?;
            compare_runs(rt, alloc, scenario, plan, gate, outlet)
        }
    }
}
