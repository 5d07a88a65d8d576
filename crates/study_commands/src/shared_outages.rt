//! Outages that all runs of a point have.
ghost use Rattle.std.specs.{Prelude.{◌≡◌, map}, List.{list_any}};
ghost use Rattle.study.specs.{Settings.{choices, path_of}, Sources.{sources_of}};
ghost use Rattle.study_commands.specs.Warnings.{has_outage as has_outage_in, is_of_outage as is_of_outage_at, sets_outage as sets_outage_in, shares_outages as shares_outages_in};
ghost use Rattle.toml.specs.View.{table_view};

use study::{Axis, FileKey, Grid, Key, Sources, value_at};
use toml::{Table, Value};

/// Whether a key is of an outage's table.
fn is_of_outage(key: &Key) -> bool
    ensures { result ≡ is_of_outage_at (path_of key.now) }
{
    match key {
        Key::Scenario(FileKey::Element { array, .. } | FileKey::Every { array, .. }) => {
            array.as_str() == "outage"
        }
        _ => false,
    }
}

/// Whether an axis sets a key of an outage.
fn sets_outage(axis: &Axis) -> bool
    ensures { result ≡ sets_outage_in (choices axis.now) }
{
    for key in &axis.keys {
        if is_of_outage(key) {
            return true;
        }
    }
    false
}

/// Whether one of the axes does.
fn set_outages(axes: &[Axis]) -> bool
    ensures { result ≡ list_any sets_outage_in (map choices axes.now) }
{
    for axis in axes {
        if sets_outage(axis) {
            return true;
        }
    }
    false
}

/// Whether a file has outages.
fn has_outage(file: &Table) -> bool
    ensures { result ≡ has_outage_in (table_view file.now) }
{
    match value_at(file, "outage") {
        Some(Value::Array(tables)) => !tables.is_empty(),
        _ => false,
    }
}

/// Whether runs of a point that differ by their seeds have the same outages of the scenario's file.
pub(crate) fn shares_outages(sources: &Sources, grid: &Grid) -> bool
    ensures { result ≡ shares_outages_in (sources_of sources.now) grid.now }
{
    let is_there = grid.seeds() > 1 && has_outage(&sources.scenario);
    is_there && !set_outages(grid.dealt()) && !set_outages(grid.over())
}
