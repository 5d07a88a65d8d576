//! Warnings, in lines.
ghost use Rattle.std.specs.Prelude.{◌≡◌, IfOk, string_bytes};
ghost use Rattle.study.specs.Settings.{path_of};
ghost use Rattle.study_commands.specs.{Inside.Warned.{warning_of}, WarningText.{late_text as late_text_of, lone_late_line, points_text as points_text_of, spread_text as spread_text_of, pairs_text as pairs_text_of, warning_line}};
ghost use Rattle.study_commands.specs.Warnings.{lates, unevens, unused};

use crate::found::Found;
use crate::late::Late;
use crate::run_name::name_of_point;
use crate::spread::Spread;
use crate::warning::Warning;
use printable::Printable;
use std::alloc::{AllocError, Global};
use study::{Grid, Key};

/// The line of outages that all runs of a point share.
const OUTAGES: &str = "fdstudy: at each point every run has the same outages of the scenario file, \
so runs are no independent evidence of them\n";

/// From which tick on detectors could suspect, and the horizon.
fn late_text(alloc: Global, late: Late) -> Result<String, AllocError>
    ensures { IfOk result (λ s. string_bytes s ≡ late_text_of late) }
{
    let (from, horizon) = (late.from, late.horizon);
    format!(in alloc; "from tick {from} on, horizon {horizon}\n")
}

/// The line of a scenario whose detectors can suspect nobody before the horizon.
pub(crate) fn line_of_late(alloc: Global, late: Late) -> Result<String, AllocError>
    ensures { IfOk result (λ s. string_bytes s ≡ lone_late_line late) }
{
    let text = late_text(alloc, late)?;
    format!(in alloc; "fdstudy: no detector can suspect anybody before the horizon: {text}")
}

/// How uneven ticks lie in a period.
fn spread_text(alloc: Global, spread: Spread) -> Result<String, AllocError>
    ensures { IfOk result (λ s. string_bytes s ≡ spread_text_of spread) }
{
    let (phases, period, gap) = (spread.phases, spread.period, spread.gap);
    format!(in alloc; "{phases} different phases of the period {period}, with a gap of {gap} ticks")
}

/// That each pair of so many processes has a link of its own.
fn pairs_text(alloc: Global, processes: u16) -> Result<String, AllocError>
    ensures { IfOk result (λ s. string_bytes s ≡ pairs_text_of processes) }
{
    format!(in alloc; "each pair of {processes} processes has a table of its own in links\n")
}

/// At how many of so many points something is so, and at which first, from 0.
fn points_text(
    alloc: Global,
    grid: &Grid,
    of: u64,
    points: u64,
    first: u64,
) -> Result<String, AllocError>
    ensures { IfOk result (λ s. string_bytes s ≡ points_text_of grid.now of points first) }
{
    if first >= grid.points() {
        return Err(AllocError);
    }
    let name = name_of_point(alloc, grid, first)?;
    let name = Printable(name.as_str());
    format!(in alloc; "{points} of {of} points, first at {name}")
}

/// The line of points whose detectors can suspect nobody before the horizon.
fn late_line(alloc: Global, grid: &Grid, of: u64, its: &Found<Late>) -> Result<String, AllocError>
    ensures { IfOk result (λ s. string_bytes s ≡ warning_line grid.now of (lates its.now)) }
{
    let points = points_text(alloc, grid, of, its.points, its.first)?;
    let late = late_text(alloc, its.what)?;
    format!(in alloc;
        "fdstudy: no detector can suspect anybody before the horizon at {points}: {late}"
    )
}

/// The line of points at which the crash ticks that a key is dealt are uneven.
fn uneven_line(
    alloc: Global,
    grid: &Grid,
    of: u64,
    key: &Key,
    its: &Found<Spread>,
) -> Result<String, AllocError>
    ensures { IfOk result (λ s. string_bytes s ≡ warning_line grid.now of (unevens (path_of key.now) its.now)) }
{
    let points = points_text(alloc, grid, of, its.points, its.first)?;
    let key = key.text(alloc)?;
    let key = Printable(key.as_str());
    let spread = spread_text(alloc, its.what)?;
    format!(in alloc; "fdstudy: {key} is dealt {spread}, at {points}\n")
}

/// The line of points at which no letter goes by the table `link`, of which this key is set.
fn unused_line(
    alloc: Global,
    grid: &Grid,
    of: u64,
    key: &Key,
    its: &Found<u16>,
) -> Result<String, AllocError>
    ensures { IfOk result (λ s. string_bytes s ≡ warning_line grid.now of (unused (path_of key.now) its.now)) }
{
    let points = points_text(alloc, grid, of, its.points, its.first)?;
    let key = key.text(alloc)?;
    let key = Printable(key.as_str());
    let pairs = pairs_text(alloc, its.what)?;
    format!(in alloc; "fdstudy: no link uses {key} at {points}: {pairs}")
}

/// The line of a warning about a study, of which so many points count.
pub(crate) fn line_of(
    alloc: Global,
    grid: &Grid,
    of: u64,
    warning: &Warning<'_>,
) -> Result<String, AllocError>
    ensures { IfOk result (λ s. string_bytes s ≡ warning_line grid.now of (warning_of warning.now)) }
{
    match warning {
        Warning::Late(its) => late_line(alloc, grid, of, its),
        Warning::Uneven(key, its) => uneven_line(alloc, grid, of, key, its),
        Warning::Unused(key, its) => unused_line(alloc, grid, of, key, its),
        Warning::Outages => String::from_str(alloc, OUTAGES),
    }
}
