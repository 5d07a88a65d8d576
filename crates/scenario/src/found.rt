//! What is wrong with a refused file, and where: it is looked for once the refusal is known.
ghost use Rattle.std.specs.Prelude.{◌≡◌, IfOk, IfSome};
ghost use Rattle.toml.specs.{Data.{Members}, View.{table_view}};
ghost use Rattle.scenario.specs.{Table.{tables_at}, Text.{processes_of}, Inside.{Parts.{tables_in, AreTables}, Private.{array_error, section_error}}, Keys.{array_key}, Faults.{Breaks, Finds}};

use crate::below::{is_low, link_of};
use crate::error::ScenarioError;
use crate::fault::BelowLookahead;
use crate::finding::{Finding, answer_found};
use crate::keys::{KeyFault, Tables, tables_of};
use crate::links::read_links;
use crate::numbers::{Top, read_numbers, read_processes};
use crate::place::{Place, Section, TableArray};
use crate::proposals_fault::proposals_found;
use crate::table::inner_table;
use crate::table_fault::{element_fault, section_fault, top_fault};
use crate::twice::find_twice;
use process_api::Pid;
use std::alloc::Global;
use toml::Table;

/// The fault of the top table for which it gets this refusal.
fn at_top<'a>(top: &'a Table, error: &ScenarioError) -> Option<Finding<'a>>
    ensures { IfSome result (Breaks error.now (table_view top.now)) }
{
    let place = Place::Top;
    let fault = top_fault(top, error)?;
    Some(Finding::At { place, fault })
}

/// The fault of the table of a section.
fn in_section(top: &Table, section: Section) -> Option<Finding<'_>>
    ensures { IfSome result (Breaks (section_error section) (table_view top.now)) }
{
    let place = Place::Section(section);
    let table = inner_table(top, section.key())?;
    let fault = section_fault(section, table)?;
    Some(Finding::At { place, fault })
}

/// The first table of an array, of n processes, that has a fault by itself.
fn in_tables<'a>(array: TableArray, tables: &[&'a Table], n: u16) -> Option<Finding<'a>>
    ensures { (file : Members) → tables_in tables.now ≡ tables_at (array_key array) file → n ≡ processes_of file
        → IfSome result (Breaks (array_error array) file) }
{
    for i in 0..tables.len() {
        if let Some(fault) = element_fault(array, tables[i], n) {
            let place = array.place(tables, i);
            return Some(Finding::At { place, fault });
        }
    }
    None
}

/// What is wrong with the tables of an array: the first that has a fault by itself, else the first of a pair, or of a
/// process, that has a table already.
fn in_array<'a>(top: &Table, array: TableArray, tables: &[&'a Table]) -> Option<Finding<'a>>
    requires { tables_in tables.now ≡ tables_at (array_key array) (table_view top.now) }
    ensures { IfSome result (Breaks (array_error array) (table_view top.now)) }
{
    let n = read_processes(top)?;
    answer_found!(in_tables(array, tables, n));
    find_twice(array, tables)
}

/// What is wrong with the links: the common one, or the tables of pairs.
fn in_links<'a>(top: &'a Table, tables: &Tables<'a>) -> Option<Finding<'a>>
    requires { AreTables (table_view top.now) tables.now }
    ensures { IfSome result (Breaks ScenarioError.LinkNumbers (table_view top.now)) }
{
    answer_found!(in_section(top, Section::Link));
    in_array(top, TableArray::Links, &tables.links)
}

/// The link of a pair that is below the lookahead.
fn below_lookahead(
    alloc: Global,
    table: &Table,
    tables: &Tables<'_>,
    pair: (Pid, Pid),
) -> Result<Option<Finding<'static>>, ScenarioError>
    requires { AreTables (table_view table.now) tables.now }
    ensures { IfOk result (λ found. Finds (table_view table.now) found (ScenarioError.BelowLookahead pair.0 pair.1)) }
{
    let numbers = read_numbers(table)?;
    let top = Top { table, numbers };
    let links = read_links(alloc, &top, &tables.links)?;
    let (from, to) = pair;
    let (n, lookahead) = (numbers.processes, numbers.lookahead);
    let (sender, receiver) = (from.number(), to.number());
    if sender > n || receiver > n || !is_low(&links, lookahead, n, sender, receiver) {
        return Ok(None);
    }
    let min = link_of(&links, n, sender, receiver).min;
    Ok(Some(Finding::Below(BelowLookahead {
        from,
        to,
        min,
        lookahead,
    })))
}

/// What breaks the rule of the refusal that a file's table gets, and where, by the tables of its arrays. Memory may be
/// refused.
fn finding_among<'a>(
    alloc: Global,
    table: &'a Table,
    tables: &Tables<'a>,
    error: &ScenarioError,
) -> Result<Option<Finding<'a>>, ScenarioError>
    requires { AreTables (table_view table.now) tables.now }
    ensures { IfOk result (λ found. Finds (table_view table.now) found error.now) }
{
    match error {
        ScenarioError::UnknownKey => Ok(KeyFault::Unlisted.find(table, tables)),
        ScenarioError::MissingKey => Ok(KeyFault::Lacking.find(table, tables)),
        ScenarioError::WrongKind => Ok(KeyFault::Mistyped.find(table, tables)),
        ScenarioError::Proposals => Ok(proposals_found(table)),
        ScenarioError::DetectorNumbers => Ok(in_section(table, Section::Detector)),
        ScenarioError::Share => Ok(in_section(table, Section::Share)),
        ScenarioError::LinkNumbers => Ok(in_links(table, tables)),
        ScenarioError::BelowLookahead { from, to } => {
            below_lookahead(alloc, table, tables, (*from, *to))
        }
        ScenarioError::CrashLine => Ok(in_array(table, TableArray::Crash, &tables.crashes)),
        ScenarioError::OutageLine => Ok(in_array(table, TableArray::Outage, &tables.outages)),
        _ => Ok(at_top(table, error)),
    }
}

/// What breaks the rule of the refusal that a file's table gets, and where. Memory may be refused.
pub(crate) fn finding_of<'a>(
    alloc: Global,
    table: &'a Table,
    error: &ScenarioError,
) -> Result<Option<Finding<'a>>, ScenarioError>
    ensures { IfOk result (λ found. Finds (table_view table.now) found error.now) }
{
    let tables = tables_of(alloc, table)?;
    finding_among(alloc, table, &tables, error)
}
