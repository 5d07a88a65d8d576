//! A run of which all is measured and no text is formed.
ghost use Rattle.std.specs.Prelude.{◌≡◌, map, IfErr, IfOk, IsErrOf};
ghost use Rattle.{event_list.specs.Following.{IsRefusal, IsTooLong}, trace_laws.specs.Setting.{setting_of}};
ghost use Rattle.{process_api.specs.Place.{numbers_to}, runs.specs.Finishing.{MeasuresRun}};
ghost use Rattle.scenario_record.specs.Record.{opening_mind};

use crate::trusts::Trusts;
use event_list::{Nobody, RunError, run_list_into};
use process_api::Process;
use reporting::{RunDurations, RunFindings, close_measuring, open_measuring};
use scenario_record::Scenario;
use std::alloc::Global;

/// Runs a scenario by one global event list and tells all that is measured of it: what the report tells, with no text
/// formed, how long each mistake was that ended, and how often each process was trusted again. No entry is held: each
/// is measured as it comes.
///
/// The machines are those of processes 1 to n, in this order, each in its opening state. They are consumed.
///
/// With the rotating coordinator no two outcomes of the summary have different values, each value was proposed, each
/// process decides at most once, and none notes that it ends with no value: whatever the detector, the links and the
/// crashes. Always the verdicts that are told mean their quantifiers over processes and ticks, and whoever is suspected
/// on layer 2 was suspected on layer 1 before (`specs/Grounds.antt`).
///
/// # Errors
///
/// `Limit` where the run has more entries than the scenario's limit, `Memory` where memory was refused.
pub fn measure_list<M: Process>(
    alloc: Global,
    scenario: &Scenario,
    machines: Vec<M>,
) -> Result<(RunFindings, RunDurations, Trusts), RunError>
    requires machines { map M.mind machines.items
        ≡ map (opening_mind scenario.now) (numbers_to scenario.now.processes) }
    ensures done { IfOk result (λ told. MeasuresRun scenario.now told.0 told.1 told.2) }
    ensures errors { IfErr result IsRefusal }
    ensures limit { IsErrOf result RunError.Limit → IsTooLong (setting_of scenario.now) scenario.now.limit }
{
    scenario.recall_ranges();
    let measuring = open_measuring(alloc, scenario, true)?;
    let trusts = Trusts::open(alloc, scenario)?;
    let mut followers = (measuring, trusts);
    run_list_into(alloc, scenario, machines, &mut followers, &mut Nobody)?;
    let (measuring, trusts) = followers;
    let (findings, durations) = close_measuring(alloc, measuring)?;
    Ok((findings, durations, trusts))
}
