//! The warnings before the runs of a study.
ghost use Rattle.std.specs.{Prelude.{◌≡◌, ◌+◌, ◌^◌, ◌<◌, IfOk, OnOk, length, map, option_map}, List.{filter_map}};
ghost use Rattle.study.specs.{Settings.{path_of}, Sources.{sources_of}};
ghost use Rattle.study_commands.specs.{Inside.Warned.{Gains, OfRuns, dealt_of, paths_said, warning_of}, Warnings.{lates, unevens, unused, warning_of_dealt, warning_of_key, warning_of_lates, warnings}};

use crate::adding::push_some;
use crate::common_link::unlinked_of;
use crate::dealt_ticks::{DealtTicks, dealt_ticks};
use crate::first_run::FirstRun;
use crate::found::{Found, first_of};
use crate::late::{Late, lates_of};
use crate::link_keys::link_keys;
use crate::shared_outages::shares_outages;
use crate::spread::{Spread, unevens_of};
use std::alloc::{AllocError, Global};
use study::{Grid, Key, Sources};

/// A warning about a study.
#[derive(Clone, Copy)]
pub(crate) enum Warning<'a> {
    /// At points no detector can suspect anybody before the horizon.
    Late(Found<Late>),
    /// At points the crash ticks that this key is dealt are uneven.
    Uneven(&'a Key, Found<Spread>),
    /// At points no letter goes by the table `link`, of which this key is set.
    Unused(&'a Key, Found<u16>),
    /// At each point every run has the same outages of the scenario's file.
    Outages,
}

/// The warning of detectors that can suspect nobody, where this is found.
fn late_found<'a>(found: Option<Found<Late>>) -> Option<Warning<'a>>
    ensures { option_map warning_of result ≡ option_map lates found }
{
    match found {
        Some(its) => Some(Warning::Late(its)),
        None => None,
    }
}

/// The warning of crash ticks that a key is dealt, where this is found.
fn uneven_found<'a>(key: &'a Key, found: Option<Found<Spread>>) -> Option<Warning<'a>>
    ensures { option_map warning_of result ≡ option_map (unevens (path_of key.now)) found }
{
    match found {
        Some(its) => Some(Warning::Uneven(key, its)),
        None => None,
    }
}

/// The warning of a study's points whose detectors can suspect nobody before the horizon, by the first runs of the
/// points, from a number on.
fn late_warning<'a>(
    alloc: Global,
    begin: u64,
    runs: &[FirstRun],
) -> Result<Option<Warning<'a>>, AllocError>
    requires { begin + length runs.now < 2 ^ 64 }
    ensures { IfOk result (λ o. OfRuns begin runs.now (λ points tables.
        option_map warning_of o ≡ warning_of_lates points tables)) }
{
    let lates = lates_of(alloc, runs)?;
    Ok(late_found(first_of(&lates, begin)))
}

/// The warning of crash ticks that are dealt.
fn dealt_warning<'a>(
    alloc: Global,
    dealt: &DealtTicks<'a>,
    begin: u64,
    runs: &[FirstRun],
) -> Result<Option<Warning<'a>>, AllocError>
    requires { begin + length runs.now < 2 ^ 64 }
    ensures { IfOk result (λ o. OfRuns begin runs.now (λ points tables.
        option_map warning_of o ≡ warning_of_dealt points tables (dealt_of dealt.now))) }
{
    let unevens = unevens_of(alloc, runs, &dealt.ticks)?;
    Ok(uneven_found(dealt.key, first_of(&unevens, begin)))
}

/// Adds the warnings of crash ticks that are dealt.
fn push_dealt_warnings<'a>(
    alloc: Global,
    all: &mut Vec<Warning<'a>>,
    dealt: &[DealtTicks<'a>],
    begin: u64,
    runs: &[FirstRun],
) -> Result<(), AllocError>
    requires { begin + length runs.now < 2 ^ 64 }
    ensures { OnOk result (OfRuns begin runs.now (λ points tables. Gains all.old all.new
        (filter_map (warning_of_dealt points tables) (map dealt_of dealt.now)))) }
{
    for each in dealt {
        push_some(all, dealt_warning(alloc, each, begin, runs)?)?;
    }
    Ok(())
}

/// The warning of a key of the table `link`, where this is found of points at which no letter goes by that.
fn key_warning<'a>(key: &'a Key, found: Option<Found<u16>>) -> Option<Warning<'a>>
    ensures { option_map warning_of result ≡ option_map (unused (path_of key.now)) found }
{
    match found {
        Some(its) => Some(Warning::Unused(key, its)),
        None => None,
    }
}

/// Adds the warnings of some keys of the table `link`, where this is found.
fn push_found<'a>(
    all: &mut Vec<Warning<'a>>,
    keys: &[&'a Key],
    found: Option<Found<u16>>,
) -> Result<(), AllocError>
    ensures { OnOk result (Gains all.old all.new
        (filter_map (λ key. option_map (unused key) found) (paths_said keys.now))) }
{
    for key in keys {
        push_some(all, key_warning(key, found))?;
    }
    Ok(())
}

/// Adds the warnings of some keys of the table `link`, by the first runs of points, from a number on.
fn push_key_warnings<'a>(
    alloc: Global,
    all: &mut Vec<Warning<'a>>,
    keys: &[&'a Key],
    begin: u64,
    runs: &[FirstRun],
) -> Result<(), AllocError>
    requires { begin + length runs.now < 2 ^ 64 }
    ensures { OnOk result (OfRuns begin runs.now (λ points tables. Gains all.old all.new
        (filter_map (warning_of_key points tables) (paths_said keys.now)))) }
{
    let unlinked = unlinked_of(alloc, runs)?;
    push_found(all, keys, first_of(&unlinked, begin))
}

/// The warnings about a study, by the first runs of its points, from a number on.
pub(crate) fn warnings_of<'a>(
    alloc: Global,
    sources: &Sources,
    grid: &'a Grid,
    begin: u64,
    runs: &[FirstRun],
) -> Result<Vec<Warning<'a>>, AllocError>
    requires { begin + length runs.now < 2 ^ 64 }
    ensures { IfOk result (λ v. OfRuns begin runs.now (λ points tables.
        map warning_of v.items ≡ warnings points tables (sources_of sources.now) grid.now)) }
{
    let mut all = Vec::new(alloc);
    push_some(&mut all, late_warning(alloc, begin, runs)?)?;
    push_dealt_warnings(alloc, &mut all, &dealt_ticks(alloc, grid)?, begin, runs)?;
    push_key_warnings(alloc, &mut all, &link_keys(alloc, grid)?, begin, runs)?;
    if shares_outages(sources, grid) {
        all.push(Warning::Outages)?;
    }
    Ok(all)
}
