//! The law of windows.
ghost use Rattle.{trace_laws.specs.Setting.{setting_of}, windows.specs.Plan.{IsPlanFor}};
ghost use Rattle.window_laws.specs.{Theorems.{AnyOrder, CloseAlike, HasRun, MakeTrace}, Machine.{LawBerths}};

use crate::plan::Plan;
use scenario_record::Scenario;

/// Any order of acts inside a window gives what the event list gives. From every stage that stands for a world of this
/// scenario, each run of the window machine, whatever the order of its acts, closes on a stage that stands for the
/// world after exactly the list's steps below the window's end, and the parts of the processes, merged, are these
/// steps' entries. Any two runs close alike. There is a run whose turns come in the order of the list's steps. Windows
/// one after the other make a front of the trace, and the whole trace where they come to the horizon. And what each
/// process makes of a window by itself, some run makes.
///
/// The window must be no longer than this scenario's lookahead: a letter that is sent inside it is then due at its end
/// or later (conservative windows, as in textbooks: R. M. Fujimoto, Parallel and Distributed Simulation Systems, Wiley,
/// 2000).
pub fn law_any_order(scenario: &Scenario, plan: &Plan)
    requires window { IsPlanFor scenario.now plan.now }
    ensures any_order { AnyOrder (setting_of scenario.now) plan.now.window }
    ensures alike { CloseAlike (setting_of scenario.now) plan.now.window }
    ensures runs { HasRun (setting_of scenario.now) plan.now.window }
    ensures windows { MakeTrace (setting_of scenario.now) plan.now.window }
    ensures berths { LawBerths (setting_of scenario.now) plan.now.window }
{
    scenario.recall_ranges();
}
