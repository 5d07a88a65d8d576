//! Tables that repeat the subject of an earlier one of their array.
ghost use Rattle.std.specs.Prelude.{◌≡◌, ◌<◌, length, IfSome};
ghost use Rattle.toml.specs.{Data.{Members}, View.{table_view}};
ghost use Rattle.scenario.specs.{Table.{tables_at}, Inside.{Parts.{tables_in}, Private.{array_error}}, Keys.{array_key}, Faults.{Breaks, is_of_pair as of_pair}, declared.error.ScenarioError.{ScenarioError}};

use crate::finding::Finding;
use crate::place::TableArray;
use crate::table::{has_integer_at, integer_at};
use toml::Table;

/// Whether a table is of a pair.
fn is_of_pair(table: &Table, from: i64, to: i64) -> bool
    ensures { result ≡ of_pair from to (table_view table.now) }
{
    has_integer_at(table, "from", from) && has_integer_at(table, "to", to)
}

/// That a table of `links` is of the pair of an earlier one, where it is.
fn twice_pair(tables: &[&Table], i: usize) -> Option<Finding<'static>>
    requires { i < length tables.now }
    ensures { (file : Members) → tables_in tables.now ≡ tables_at (array_key TableArray.Links) file
        → IfSome result (Breaks ScenarioError.LinkNumbers file) }
{
    let table = tables[i];
    let from = integer_at(table, "from")?;
    let to = integer_at(table, "to")?;
    for k in 0..i {
        if is_of_pair(tables[k], from, to) {
            return Some(Finding::TwicePair {
                from,
                to,
                number: i as u64 + 1,
                earlier: k as u64 + 1,
            });
        }
    }
    None
}

/// That a table of `crash` is of the process of an earlier one, where it is.
fn twice_process(tables: &[&Table], i: usize) -> Option<Finding<'static>>
    requires { i < length tables.now }
    ensures { (file : Members) → tables_in tables.now ≡ tables_at (array_key TableArray.Crash) file
        → IfSome result (Breaks ScenarioError.CrashLine file) }
{
    let table = tables[i];
    let process = integer_at(table, "process")?;
    for j in 0..i {
        if has_integer_at(tables[j], "process", process) {
            return Some(Finding::TwiceProcess {
                process,
                number: i as u64 + 1,
                earlier: j as u64 + 1,
            });
        }
    }
    None
}

/// That a table of `links` or of `crash` is of the pair, or of the process, of an earlier one, where it is.
fn twice_at(array: TableArray, tables: &[&Table], i: usize) -> Option<Finding<'static>>
    requires { i < length tables.now }
    ensures { (file : Members) → tables_in tables.now ≡ tables_at (array_key array) file
        → IfSome result (Breaks (array_error array) file) }
{
    match array {
        TableArray::Links => twice_pair(tables, i),
        TableArray::Crash => twice_process(tables, i),
        TableArray::Outage => None,
    }
}

/// The first table of `links` or of `crash` that is of the pair, or of the process, of an earlier one.
pub(crate) fn find_twice(array: TableArray, tables: &[&Table]) -> Option<Finding<'static>>
    ensures { (file : Members) → tables_in tables.now ≡ tables_at (array_key array) file
        → IfSome result (Breaks (array_error array) file) }
{
    for i in 0..tables.len() {
        let found = twice_at(array, tables, i);
        if found.is_some() {
            return found;
        }
    }
    None
}
