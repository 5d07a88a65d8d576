//! The laws of cause and effect.
ghost use Rattle.trace_laws.specs.Setting.{setting_of};
ghost use Rattle.trace_laws.specs.Theorems.{
  HasOneCause,
  HasOneTrace,
  HasOnlyHistory,
  IsTakenOnce,
  PlainMakesTrace,
  StaysAWorld,
  TraceIsClosed,
};

use scenario_record::Scenario;

/// Cause and effect in a scenario, for every history of it. There is one trace, and it exists. With its inputs it is a
/// closed history, and every closed history has its entries. In a closed history, each entry that isn't of a start has
/// one cause, an earlier entry, and each event that a step adds below the horizon is taken once. The plain, slow
/// program of the definitions makes the trace.
pub fn law_only_history(scenario: &Scenario)
    ensures worlds { StaysAWorld (setting_of scenario.now) }
    ensures trace { HasOneTrace (setting_of scenario.now) }
    ensures closed { TraceIsClosed (setting_of scenario.now) }
    ensures only { HasOnlyHistory (setting_of scenario.now) }
    ensures cause { HasOneCause (setting_of scenario.now) }
    ensures once { IsTakenOnce (setting_of scenario.now) }
    ensures plain { PlainMakesTrace (setting_of scenario.now) }
{
    scenario.recall_ranges();
}
