//! The law at runs in which two workers take turns.
ghost use Rattle.trace_laws.specs.Setting.{setting_of};
ghost use Rattle.window_laws.specs.Inside.Alternation.{AlternatingIsList, AlternatingIsOneByOne, ListOrderIsAny};
ghost use Rattle.windows.specs.Plan.{IsPlanFor};

use super::ONE_CRASH;
use crate::common::{NO_RUN, scenario_of};
use scenario::Scenario;
use windows::{Plan, law_any_order};

/// Two workers hold processes 1 and 2 at once, and run their events in turns, with letters posted in between. Such a
/// run does what the list does, and closes as a run of one worker that takes the processes one after the other. Turns
/// in the list's own order, which go from worker to worker as its steps go from process to process, close as any run.
fn taking_turns(scenario: &Scenario, plan: &Plan)
    requires window { IsPlanFor scenario.now plan.now }
    ensures list { AlternatingIsList (setting_of scenario.now) plan.now.window }
    ensures one_by_one { AlternatingIsOneByOne (setting_of scenario.now) plan.now.window }
    ensures list_order { ListOrderIsAny (setting_of scenario.now) plan.now.window }
{
    law_any_order(scenario, plan);
}

#[test]
fn turns_of_two_workers(rt: HostRuntime) {
    let scenario = scenario_of(&rt, rt.alloc(), ONE_CRASH);
    let plan = Plan::new(&scenario, 2, 2).expect(&rt, NO_RUN);
    taking_turns(&scenario, &plan);
}
