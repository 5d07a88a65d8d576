//! Runs of a scenario by the event list, over machines that are made here.
ghost use Rattle.std.specs.Prelude.{◌≡◌, IfErr, IfOk};
ghost use Rattle.trace_laws.specs.{Setting.{setting_of}, World.{IsTrace}};
ghost use Rattle.{study_commands.specs.Refusal.{IsOfRun, fault_of_run}, runs.specs.Letters.{AreLetters}};

use crate::fault::Fault;
use event_list::{RunError, run_list};
use machines::machines_of;
use process_api::Trace;
use reporting::Letter;
use runs::letters;
use scenario::Scenario;
use std::alloc::Global;

/// The fault of a run that is refused.
fn fault_of(error: RunError) -> Fault
    ensures { result ≡ fault_of_run error }
{
    match error {
        RunError::Limit => Fault::Limit,
        RunError::Memory | RunError::Spawn | RunError::Write => Fault::Memory,
    }
}

/// The trace of a scenario's run.
pub(crate) fn trace_of(alloc: Global, scenario: &Scenario) -> Result<Trace, Fault>
    ensures trace { IfOk result (λ t. IsTrace (setting_of scenario.now) t) }
    ensures refused { IfErr result (IsOfRun scenario.now) }
{
    match run_list(alloc, scenario, machines_of(alloc, scenario)?) {
        Ok(trace) => Ok(trace),
        Err(error) => Err(fault_of(error)),
    }
}

/// The letters of a scenario's run.
pub(crate) fn letters_of(alloc: Global, scenario: &Scenario) -> Result<Vec<Letter>, Fault>
    ensures letters { IfOk result (λ v. AreLetters scenario.now v.items) }
    ensures refused { IfErr result (IsOfRun scenario.now) }
{
    letters(alloc, scenario, machines_of(alloc, scenario)?).map_err(fault_of)
}
