//! Whether letters of a run go by the table `link`.
ghost use Rattle.std.specs.{Prelude.{◌≡◌, codes, map, IfOk}, List.{filter_map, list_any, range_with_len}};
ghost use Rattle.scenario.specs.{Table.{tables_at, the_tables}, Text.{processes_of}};
ghost use Rattle.study_commands.specs.{Inside.Warned.{ends_from, is_no_end as is_no_end_of, pair_in, tables_in}, Warnings.{sends_by_link as sends_by_link_of, unlinked_where, uses_link as uses_link_of}};
ghost use Rattle.toml.specs.View.{items_view, table_view, view};

use crate::adding::push_some;
use crate::first_run::FirstRun;
use scenario::Kind;
use std::alloc::{AllocError, Global};
use study::{natural_at, value_at};
use toml::{Table, Value};

/// The pair of a value that is the table of a link.
fn pair_at(value: &Value) -> Option<(u64, u64)>
    ensures { result ≡ pair_in (view value.now) }
{
    let table = value.as_table()?;
    Some((natural_at(table, "from"), natural_at(table, "to")))
}

/// The values of an array of tables; of anything else none.
fn values_in(value: &Value) -> &[Value]
    ensures { the_tables (items_view result.now) ≡ tables_in (view value.now) }
{
    if !Kind::Tables.takes(value) {
        return &[];
    }
    match value.as_array() {
        Some(values) => values,
        None => &[],
    }
}

/// The tables of `links`, as values.
fn link_values(table: &Table) -> &[Value]
    ensures { the_tables (items_view result.now) ≡ tables_at (codes "links") (table_view table.now) }
{
    match value_at(table, "links") {
        Some(value) => values_in(value),
        None => &[],
    }
}

/// The pairs of the tables of links among some values.
fn pairs_in(alloc: Global, values: &[Value]) -> Result<Vec<(u64, u64)>, AllocError>
    ensures { IfOk result (λ v. v.items ≡ filter_map (λ w. pair_in (view w)) values.now) }
{
    let mut pairs = Vec::new(alloc);
    for value in values {
        push_some(&mut pairs, pair_at(value))?;
    }
    Ok(pairs)
}

/// The processes to which a process has links of its own, where these pairs have.
fn ends_of(alloc: Global, pairs: &[(u64, u64)], from: u64) -> Result<Vec<u64>, AllocError>
    ensures { IfOk result (λ v. v.items ≡ ends_from pairs.now from) }
{
    pairs
        .iter()
        .filter(|pair| pair.0 == from)
        .map(|pair| pair.1)
        .collect(alloc)
}

/// Whether a process is no end of these, nor the one that they are of.
fn is_no_end(ends: &[u64], from: u64, to: u64) -> bool
    ensures { result ≡ is_no_end_of ends.now from to }
{
    from != to && !ends.contains(&to)
}

/// Whether one of so many processes is none.
fn lacks_end(ends: &[u64], from: u64, processes: u16) -> bool
    ensures { result ≡ list_any (is_no_end_of ends.now from) (range_with_len 1 processes) }
{
    for to in 1..u64::from(processes) + 1 {
        if is_no_end(ends, from, to) {
            return true;
        }
    }
    false
}

/// Whether letters of a process to some other one of so many go by the table `link`, where these pairs have links of
/// their own.
fn sends_by_link(
    alloc: Global,
    pairs: &[(u64, u64)],
    processes: u16,
    from: u64,
) -> Result<bool, AllocError>
    ensures { IfOk result (λ sends. sends ≡ sends_by_link_of pairs.now processes from) }
{
    let ends = ends_of(alloc, pairs, from)?;
    Ok(lacks_end(&ends, from, processes))
}

/// Whether letters of some process do.
fn do_any_send(alloc: Global, pairs: &[(u64, u64)], processes: u16) -> Result<bool, AllocError>
    ensures { IfOk result (λ any. any
        ≡ list_any (sends_by_link_of pairs.now processes) (range_with_len 1 processes)) }
{
    for from in 1..u64::from(processes) + 1 {
        if sends_by_link(alloc, pairs, processes, from)? {
            return Ok(true);
        }
    }
    Ok(false)
}

/// Whether letters go by the table `link` in a run of so many processes with this table.
pub(crate) fn uses_link(alloc: Global, table: &Table, processes: u16) -> Result<bool, AllocError>
    requires { processes ≡ processes_of (table_view table.now) }
    ensures { IfOk result (λ uses. uses ≡ uses_link_of (table_view table.now)) }
{
    let pairs = pairs_in(alloc, link_values(table))?;
    do_any_send(alloc, &pairs, processes)
}

/// Of each of these runs how many processes it has, where no letters do.
pub(crate) fn unlinked_of(alloc: Global, runs: &[FirstRun]) -> Result<Vec<Option<u16>>, AllocError>
    ensures { IfOk result (λ v. v.items ≡ map (λ r. unlinked_where r.uses_link r.processes) runs.now) }
{
    runs.iter()
        .map(|run| (!run.uses_link).then_some(run.processes))
        .collect(alloc)
}
