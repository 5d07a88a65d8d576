//! Runs by numbers: those of all points, one point after the other.
ghost use Rattle.std.specs.{Prelude.{◌≡◌, ◌-◌, ◌<◌, ◌≤◌, false, true, length, IfOk, IfErr}, List.{range_with_len}};
ghost use Rattle.study.specs.{Sources.{sources_of}, Grid.{points, runs}, Laid.{IsScenarioOf, IsRefusedFor, is_memory}};
ghost use Rattle.sweep.specs.{Inside.Progress.{point_of, table_at}, StudyText.{numbers_of}};

use scenario::Scenario;
use std::alloc::{AllocError, Global};
use study::{Grid, PlaceError, ReadError, Shard, Sources, read_run};

fn want_of_memory(error: AllocError) -> ReadError
    ensures { is_memory result ≡ true }
{
    ReadError::Place(PlaceError::Memory(error))
}

/// The scenario of the run with this number.
///
/// # Errors
///
/// As [`read_run`].
pub(crate) fn scenario_of(
    alloc: Global,
    sources: &Sources,
    grid: &Grid,
    number: u64,
) -> Result<Scenario, ReadError>
    requires some { 1 ≤ length (runs grid.now) }
    requires within { point_of grid.now number < length (points grid.now) }
    ensures ok { IfOk result (IsScenarioOf (table_at (sources_of sources.now) grid.now number)) }
    ensures err { IfErr result (λ e. is_memory e ≡ false
        → IsRefusedFor (table_at (sources_of sources.now) grid.now number) e) }
{
    let runs = grid.runs();
    let point = grid.point(alloc, number / runs).map_err(want_of_memory)?;
    let run = grid.run(alloc, number % runs).map_err(want_of_memory)?;
    read_run(alloc, sources, &point, &run)
}

/// The shard's first point, from 0, and the one after its last.
pub fn points_of(grid: &Grid, shard: Shard) -> (u64, u64)
    ensures order { result.0 ≤ result.1 }
    ensures within { result.1 ≤ length (points grid.now) }
    ensures numbers { numbers_of grid.now shard ≡ range_with_len result.0 (result.1 - result.0) }
    ensures few { length (points grid.now) ≤ 1000000 }
{
    let points = shard.points(grid.points() as u32);
    (u64::from(points.start), u64::from(points.end))
}
