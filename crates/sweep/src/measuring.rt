//! Runs scenarios and measures them.
ghost use Rattle.std.specs.Prelude.{◌+◌, ◌*◌, ◌^◌, ◌<◌, ◌≤◌, length, IfOk};
ghost use Rattle.study.specs.{Sources.{sources_of}, Grid.{points, runs}};
ghost use Rattle.sweep.specs.{Inside.Progress.{point_of, IsAnswerAt, AreNumbersFrom}, Results.{RunResult, IsResult}, Sums.{AreNumbers}};

use crate::batches::Batches;
use crate::group::Group;
use crate::numbering::scenario_of;
use crate::parallel::all_of;
use crate::run_numbers::RunNumbers;
use machines::machines_of;
use process_api::RunError;
use runs::measure_list;
use scenario::Scenario;
use std::alloc::{AllocError, Global};
use std::marker::Sync;
use std::thread::Threads;
use std::time::Clock;
use study::{Grid, Sources};

/// What the run of a scenario gives to the sums of these groups. It is run and measured once. A run that passes its
/// limit is counted, and gives nothing else.
fn measure_scenario(
    alloc: Global,
    scenario: &Scenario,
    groups: &[Group],
) -> Result<RunNumbers, AllocError>
    ensures { IfOk result (λ n. (r : RunResult) × IsResult scenario.now r
        × AreNumbers groups.now (record { scenario = scenario.now; result = r }) n) }
{
    scenario.recall_ranges();
    let machines = machines_of(alloc, scenario)?;
    match measure_list(alloc, scenario, machines) {
        Ok((findings, durations, trusts)) => {
            let numbers = RunNumbers::of_run(
                alloc, scenario, groups, &findings, &durations, &trusts,
            )?;
            Ok(numbers)
        }
        Err(RunError::Limit) => RunNumbers::of_limited(alloc, scenario, groups),
        Err(_) => Err(AllocError),
    }
}

/// What the run of this number gives. Its scenario was read before, so it is refused now only where memory was refused.
fn measure_run(
    alloc: Global,
    sources: &Sources,
    grid: &Grid,
    groups: &[Group],
    number: u64,
) -> Result<RunNumbers, AllocError>
    requires some { 1 ≤ length (runs grid.now) }
    requires within { point_of grid.now number < length (points grid.now) }
    ensures { IsAnswerAt (sources_of sources.now) grid.now groups.now number result }
{
    let Ok(scenario) = scenario_of(alloc, sources, grid, number) else {
        return Err(AllocError);
    };
    measure_scenario(alloc, &scenario, groups)
}

/// What the runs of a batch give: of the first of those from one number up to another, one at least.
///
/// # Errors
///
/// `AllocError` where memory was refused.
pub(crate) fn measure_batch<R: Threads + Sync + Clock>(
    batches: &mut Batches<'_, R>,
    sources: &Sources,
    grid: &Grid,
    groups: &[Group],
    first: u64,
    end: u64,
) -> Result<Vec<RunNumbers>, AllocError>
    requires some { 1 ≤ length (runs grid.now) }
    requires order { first < end }
    requires within { end ≤ length (points grid.now) * length (runs grid.now) }
    requires room { length (points grid.now) * length (runs grid.now) < 2 ^ 64 }
    ensures some { IfOk result (λ v. 1 ≤ length v.items) }
    ensures within { IfOk result (λ v. first + length v.items ≤ end) }
    ensures numbers { IfOk result (λ v. AreNumbersFrom (sources_of sources.now) grid.now groups.now first v.items) }
{
    let alloc = batches.alloc;
    let answers = batches.run(
        first,
        end,
        &|number| measure_run(alloc, sources, grid, groups, number),
    )?;
    all_of(alloc, answers)
}
