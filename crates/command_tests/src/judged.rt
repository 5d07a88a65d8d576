//! Traces of whole runs, and their outcomes.
ghost use Rattle.std.specs.Prelude.{◌≡◌};
ghost use Rattle.trace_laws.specs.{Setting.{setting_of}, World.{IsTrace}};

use crate::common::{NO_MEMORY, NO_RUN, same, scenario_of};
use crate::files::COORDINATORS;
use event_list::{law_only_history, run_list};
use judges::{Answer, Outcome, decisions};
use machines::machines_of;
use process_api::Trace;
use scenario::Scenario;
use std::alloc::Global;
use std::process::Abort;

/// The trace of a scenario, over machines that are made here.
pub fn trace_of<R: Abort>(rt: &R, alloc: Global, scenario: &Scenario) -> Trace
    ensures { IsTrace (setting_of scenario.now) result }
{
    let machines = machines_of(alloc, scenario).expect(rt, NO_MEMORY);
    let trace = run_list(alloc, scenario, machines);
    trace.expect(rt, NO_RUN)
}

/// What became of a process: what it decided, at which tick, and its greatest round.
pub type Became = (Answer, Option<u32>, u64);

/// It noted nothing at all.
pub const NOTHING: Became = (Answer::None, None, 0);

/// Three processes agree by rotating coordinators.
pub const ALL_DECIDE: [Became; 3] = [
    (Answer::Value(10), Some(8), 2),
    (Answer::Value(10), Some(7), 2),
    (Answer::Value(10), Some(8), 2),
];

/// The outcomes, of process 1 first, are these.
pub fn are_outcomes<R: Abort>(rt: &R, outcomes: &[Outcome], wanted: &[Became]) {
    same(rt, &outcomes.len(), &wanted.len());
    let mut number = 0u16;
    for (outcome, became) in outcomes.iter().zip(wanted.iter()) {
        number = number.saturating_add(1);
        let came = (outcome.value, outcome.tick, outcome.rounds);
        same(rt, &(outcome.pid.number(), came), &(number, *became));
    }
}

/// The outcomes of a file's run, of process 1 first.
pub fn outcomes_of<R: Abort>(rt: &R, alloc: Global, file: &str) -> Vec<Outcome> {
    let scenario = scenario_of(rt, alloc, file);
    let trace = trace_of(rt, alloc, &scenario);
    let outcomes = decisions(alloc, &scenario, &trace);
    outcomes.expect(rt, NO_MEMORY)
}

/// Two runs of a scenario: by the law of its only history they are one trace.
fn run_twice<R: Abort>(rt: &R, alloc: Global, scenario: &Scenario) -> (Trace, Trace)
    ensures { result.0 ≡ result.1 }
{
    let first = trace_of(rt, alloc, scenario);
    let second = trace_of(rt, alloc, scenario);
    law_only_history(scenario);
    (first, second)
}

#[test]
fn one_trace(rt: HostRuntime) {
    let alloc = rt.alloc();
    let scenario = scenario_of(&rt, alloc, COORDINATORS);
    let (first, second) = run_twice(&rt, alloc, &scenario);
    let came = (first.entries().len(), second.entries().len());
    same(&rt, &came, &(34, 34));
}
