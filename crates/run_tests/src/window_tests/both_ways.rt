//! Runs of a scenario by the list and by windows, and the first windows of such runs.
ghost use Rattle.windows.specs.{Plan.{IsPlanFor}, Stage.{IsStage}};

use super::calls::after_windows;
use crate::common::NO_RUN;
use crate::comparisons::NO_MEMORY;
use event_list::run_list;
use machines::{Machine, machines_of};
use process_api::{Process, Trace};
use scenario::Scenario;
use std::alloc::Global;
use std::process::Abort;
use std::sync::Wait;
use std::thread::Threads;
use windows::{Gate, Plan, Stage, run_windows};

/// What the list makes of a scenario.
pub fn list_of<R: Abort>(rt: &R, alloc: Global, scenario: &Scenario) -> Trace {
    let machines = machines_of(alloc, scenario).expect(rt, NO_MEMORY);
    let trace = run_list(alloc, scenario, machines);
    trace.expect(rt, NO_RUN)
}

/// What so many workers make of a scenario by windows of 2 ticks, where this gate sees them.
pub fn run_by<G: Gate, R: Abort + Threads + Wait + Sync>(
    rt: &R,
    alloc: Global,
    scenario: &Scenario,
    workers: u64,
    gate: &G,
) -> Trace {
    let plan = Plan::new(scenario, workers, 2).expect(rt, NO_RUN);
    let machines = machines_of(alloc, scenario).expect(rt, NO_MEMORY);
    let trace = run_windows(rt, alloc, scenario, machines, &plan, gate);
    trace.expect(rt, NO_RUN)
}

/// The stage of a scenario after so many windows of a plan, or at the horizon.
pub fn stage_after<'s, R: Abort + Threads + Wait + Sync>(
    rt: &R,
    alloc: Global,
    scenario: &'s Scenario,
    plan: &Plan,
    windows: usize,
) -> Stage<'s, Machine>
    requires { IsPlanFor scenario.now plan.now }
    ensures { IsStage ⟦<Machine as Process>⟧.mind result }
{
    let machines = machines_of(alloc, scenario).expect(rt, NO_MEMORY);
    let stage = Stage::open(alloc, scenario, machines).expect(rt, NO_RUN);
    let later = after_windows(rt, alloc, stage, plan, windows);
    later.expect(rt, NO_RUN)
}
