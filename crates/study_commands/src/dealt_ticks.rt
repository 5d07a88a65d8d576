//! Crash ticks that a study deals to its seeds.
ghost use Rattle.std.specs.{Prelude.{◌≡◌, ◌++◌, IfOk, OnOk, map, option_map}, List.{filter_map}};
ghost use Rattle.study.specs.Settings.{choices, given_by, path_of};
ghost use Rattle.study_commands.specs.{Inside.Warned.{dealt_of, tick_said}, Warnings.{dealt, dealt_by, dealt_to, is_crash_tick as is_crash_tick_at, tick_in}};

use crate::adding::push_some;
use std::alloc::{AllocError, Global};
use study::{Axis, FileKey, Grid, Key, Setting};

/// The ticks that a crash's key is dealt.
#[derive(Drop)]
pub(crate) struct DealtTicks<'a> {
    /// The key.
    pub key: &'a Key,
    /// The ticks.
    pub ticks: Vec<u64>,
}

/// Whether a key is the tick of a crash.
fn is_crash_tick(key: &Key) -> bool
    ensures { result ≡ is_crash_tick_at (path_of key.now) }
{
    match key {
        Key::Scenario(FileKey::Element { array, key, .. } | FileKey::Every { array, key }) => {
            array.as_str() == "crash" && key.as_str() == "at"
        }
        _ => false,
    }
}

/// The tick that one of an axis' values sets the key at a place to, if it is one.
fn tick_at(settings: &[Setting], place: usize) -> Option<u64>
    ensures { result ≡ tick_said place (map given_by settings.now) }
{
    match settings.get(place) {
        Some(Setting::Integer(tick)) if *tick >= 0 => Some(*tick as u64),
        _ => None,
    }
}

/// The ticks that an axis sets the key at a place to.
fn ticks_at(alloc: Global, axis: &Axis, place: usize) -> Result<Vec<u64>, AllocError>
    ensures { IfOk result (λ v. v.items ≡ filter_map (tick_in place) (choices axis.now)) }
{
    let mut ticks = Vec::new(alloc);
    for value in &axis.values {
        push_some(&mut ticks, tick_at(value, place))?;
    }
    Ok(ticks)
}

/// The ticks that an axis deals to its key at a place, where that is the tick of a crash.
fn dealt_at<'a>(
    alloc: Global,
    axis: &Axis,
    place: usize,
    key: &'a Key,
) -> Result<Option<DealtTicks<'a>>, AllocError>
    ensures { IfOk result (λ o. option_map dealt_of o ≡ dealt_to (choices axis.now) (place, path_of key.now)) }
{
    if !is_crash_tick(key) {
        return Ok(None);
    }
    let ticks = ticks_at(alloc, axis, place)?;
    Ok(Some(DealtTicks { key, ticks }))
}

/// Adds the crash ticks that an axis deals.
fn push_dealt<'a>(
    alloc: Global,
    all: &mut Vec<DealtTicks<'a>>,
    axis: &'a Axis,
) -> Result<(), AllocError>
    ensures { OnOk result (map dealt_of all.new.items
        ≡ map dealt_of all.old.items ++ dealt_by (choices axis.now)) }
{
    for (place, key) in axis.keys.iter().enumerate() {
        let dealt = dealt_at(alloc, axis, place, key)?;
        push_some(all, dealt)?;
    }
    Ok(())
}

/// All crash ticks that a study deals to its seeds.
pub(crate) fn dealt_ticks(alloc: Global, grid: &Grid) -> Result<Vec<DealtTicks<'_>>, AllocError>
    ensures { IfOk result (λ v. map dealt_of v.items ≡ dealt grid.now) }
{
    let mut all = Vec::new(alloc);
    for axis in grid.dealt() {
        push_dealt(alloc, &mut all, axis)?;
    }
    Ok(all)
}
