//! The tick up to which each process is up.
ghost use Rattle.std.specs.Prelude.{◌≡◌, ◌≤◌, vec_len, IfOk};
ghost use Rattle.{process_api.specs.Place.{most_processes}, judges.specs.{Inside.Private.{AreEnds}, Turns.{end_tick}}};

use process_api::Pid;
use scenario_record::Scenario;
use std::alloc::{AllocError, Global};

/// The tick up to which a process is up, cut at the horizon.
pub fn end_tick(scenario: &Scenario, p: Pid) -> u32
    ensures { result ≡ end_tick scenario.now p }
{
    let horizon = scenario.horizon();
    scenario.crash(p).map_or(horizon, |at| at.min(horizon))
}

/// The ticks up to which the processes are up, cut at the horizon, of process 1 first.
pub(crate) fn end_ticks(alloc: Global, scenario: &Scenario) -> Result<Vec<u32>, AllocError>
    ensures value { IfOk result (λ ends. AreEnds scenario.now ends.items) }
    ensures few { IfOk result (λ ends. vec_len ends ≤ most_processes) }
{
    let mut ends = Vec::with_capacity(alloc, usize::from(scenario.processes()))?;
    for before in 0..scenario.processes() {
        ends.push(end_tick(scenario, Pid::after(before)))?;
    }
    Ok(ends)
}
