//! Runs by the single event list, from a scenario and its machines to the texts that go out.
ghost use Rattle.std.specs.Prelude.{◌≡◌, ◌≢◌, ◌^◌, ◌-◌, ◌<◌, map, Err, IfErr, IfOk};
ghost use Rattle.{process_api.specs.Place.{numbers_to}, runs.specs.Finishing.{Finishes, Refuses}};
ghost use Rattle.scenario_record.specs.Record.{opening_mind};

use event_list::{Nobody, RunError, run_list_into};
use process_api::{PrintChoice, Process};
use reporting::{Outlet, Summary, open_recording, write_recorded};
use scenario_record::Scenario;
use std::alloc::Global;

/// Runs a scenario by one global event list and writes what is asked for. All texts and the summary are formed before
/// anything is written. No entry is held: each is measured as it comes, and its row is formed where the trace is asked
/// for.
///
/// The machines are those of processes 1 to n, in this order, each in its opening state. They are consumed.
///
/// With the rotating coordinator no two outcomes of the summary have different values, each value was proposed, each
/// process decides at most once, and none notes that it ends with no value: whatever the detector, the links and the
/// crashes. Always the verdicts of the report mean their quantifiers over processes and ticks, and whoever is suspected
/// on layer 2 was suspected on layer 1 before (`specs/Grounds.antt`).
///
/// # Errors
///
/// `Limit` where the run has more entries than the scenario's limit, `Memory` where memory was refused: then nothing
/// was written. `Write` where a put failed: then a front part of the texts went out.
pub fn bench_list<M: Process, O: Outlet>(
    alloc: Global,
    scenario: &Scenario,
    machines: Vec<M>,
    print: PrintChoice,
    outlet: &mut O,
) -> Result<Summary, RunError>
    requires machines { map M.mind machines.items
        ≡ map (opening_mind scenario.now) (numbers_to scenario.now.processes) }
    requires failures { O.failed outlet.old < 2 ^ 64 - 1 }
    ensures done { IfOk result (Finishes scenario.now print O.told O.failed outlet.old outlet.new) }
    ensures refused { IfErr result (Refuses scenario.now print O.told O.failed outlet.old outlet.new) }
    ensures threads { result ≢ Err RunError.Spawn }
{
    scenario.recall_ranges();
    let mut recording = open_recording(alloc, scenario, print)?;
    run_list_into(alloc, scenario, machines, &mut recording, &mut Nobody)?;
    write_recorded(alloc, scenario, recording, outlet)
}
