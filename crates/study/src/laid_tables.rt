//! Tables of links and of outages, laid over those of a scenario's table.
ghost use Rattle.std.specs.{Prelude.{◌≡◌, ◌++◌, ◌∷◌, [], codes, not, true, filter, map, IfOk, OnOk, IfErr, IfNone, IfSome, if◌then◌else◌}, List.{list_any}};
ghost use Rattle.toml.specs.{Data.{Data}, View.{view, table_view}};
ghost use Rattle.scenario.specs.{Drawn.{with_outages}, Text.{same_pair}};
ghost use Rattle.study.specs.{Placed.{is_memory}, Inside.Private.{StaysAsItIs, HasValues}, Laid.{with_number, with_rows}};
ghost use Rattle.study.specs.Laid as spec;

use crate::error::PlaceError;
use crate::extent_of::natural_at;
use crate::placed::{put, value_at};
use network::{LaidLink, LinkOutage};
use process_api::Pid;
use scenario::Kind;
use std::alloc::{AllocError, Global};
use toml::{Table, Value};

/// A change of a table, unless memory was refused.
type Done = Result<(), PlaceError>;

/// Puts a number at a key of a table.
fn put_number(alloc: Global, table: &mut Table, key: &str, number: u32) -> Done
    ensures ok { OnOk result (table_view table.new ≡ with_number key.now number (table_view table.old)) }
    ensures err { IfErr result (λ e. is_memory e ≡ true) }
{
    put(alloc, table, key, Value::Integer(i64::from(number)))
}

/// Puts the ends of a link into a table.
fn put_ends(alloc: Global, table: &mut Table, from: Pid, to: Pid) -> Done
    ensures ok { OnOk result (table_view table.new
        ≡ with_number (codes "from") from (with_number (codes "to") to (table_view table.old))) }
    ensures err { IfErr result (λ e. is_memory e ≡ true) }
{
    put_number(alloc, table, "to", u32::from(to.number()))?;
    put_number(alloc, table, "from", u32::from(from.number()))
}

/// What is said by a table of an array.
trait Row {
    /// Its table.
    ghost said: { Self → Data };

    /// Its table, as a value.
    fn value(&self, alloc: Global) -> Result<Value, PlaceError>
        ensures ok { IfOk result (λ v. view v ≡ said self.now) }
        ensures err { IfErr result (λ e. is_memory e ≡ true) };
}

impl Row for LaidLink {
    ghost use Rattle.study.specs.Laid.{link_table};

    ghost said = { link_table };

    #[tactic(auto, unfolding(crate::specs::Laid::link_table), using(crate::proofs::Placing::writing))]
    fn value(&self, alloc: Global) -> Result<Value, PlaceError> {
        let mut table = Table::new(alloc);
        put_number(alloc, &mut table, "loss", self.link.loss)?;
        put_number(alloc, &mut table, "max", self.link.max)?;
        put_number(alloc, &mut table, "min", self.link.min)?;
        put_ends(alloc, &mut table, self.from, self.to)?;
        Ok(Value::Table(table))
    }
}

impl Row for LinkOutage {
    ghost use Rattle.{toml.specs.Data.{table}, scenario.specs.Drawn.{outage_table}};

    ghost said = { λ o. table (outage_table o) };

    #[tactic(auto, using(crate::proofs::Placing::writing))]
    fn value(&self, alloc: Global) -> Result<Value, PlaceError> {
        let mut table = Table::new(alloc);
        put_number(alloc, &mut table, "until", self.until)?;
        put_number(alloc, &mut table, "begin", self.begin)?;
        put_ends(alloc, &mut table, self.from, self.to)?;
        Ok(Value::Table(table))
    }
}

/// Copies of what the array of tables at a key has: nothing where there is no such key. None: something else is there.
fn values_at(alloc: Global, table: &Table, key: &str) -> Result<Option<Vec<Value>>, PlaceError>
    ensures none { IfOk result (λ found. IfNone found (StaysAsItIs key.now (table_view table.now))) }
    ensures some { IfOk result (λ found.
        IfSome found (λ v. HasValues key.now (map view v.items) (table_view table.now))) }
    ensures err { IfErr result (λ e. is_memory e ≡ true) }
{
    let Some(value) = value_at(table, key) else {
        return Ok(Some(Vec::new(alloc)));
    };
    if !Kind::Tables.takes(value) {
        return Ok(None);
    }
    match value.clone() {
        Ok(Value::Array(values)) => Ok(Some(values)),
        Ok(_) => Ok(None),
        Err(error) => Err(PlaceError::Memory(error)),
    }
}

/// Whether a pair is that of a link that is laid.
fn is_pair_laid(laid: &[LaidLink], from: u64, to: u64) -> bool
    ensures { result ≡ list_any (λ l. same_pair (from, to) (l.from, l.to)) laid.now }
{
    for link in laid {
        if from == u64::from(link.from.number()) && to == u64::from(link.to.number()) {
            return true;
        }
    }
    false
}

/// Whether a value is the table of a link that is laid.
fn is_laid(laid: &[LaidLink], value: &Value) -> bool
    ensures { result ≡ spec.is_laid laid.now (view value.now) }
{
    match value.as_table() {
        Some(table) => is_pair_laid(laid, natural_at(table, "from"), natural_at(table, "to")),
        None => false,
    }
}

/// Adds a copy of a value, unless it is the table of a link that is laid.
fn push_other(others: &mut Vec<Value>, value: &Value, laid: &[LaidLink]) -> Result<(), AllocError>
    ensures { OnOk result (map view others.new.items
        ≡ map view others.old.items ++ (if spec.is_laid laid.now (view value.now) then [] else view value.now ∷ [])) }
{
    if !is_laid(laid, value) {
        others.push(value.clone()?)?;
    }
    Ok(())
}

/// Copies of the tables of other links than those that are laid.
fn other_links(alloc: Global, values: &[Value], laid: &[LaidLink]) -> Result<Vec<Value>, AllocError>
    ensures { IfOk result (λ v. map view v.items ≡ filter (λ d. not (spec.is_laid laid.now d)) (map view values.now)) }
{
    let mut others = Vec::new(alloc);
    for value in values {
        push_other(&mut others, value, laid)?;
    }
    Ok(others)
}

/// Adds the tables of rows.
fn push_rows<R: Row>(alloc: Global, values: &mut Vec<Value>, rows: &[R]) -> Done
    ensures ok { OnOk result (map view values.new.items ≡ map view values.old.items ++ map R.said rows.now) }
    ensures err { IfErr result (λ e. is_memory e ≡ true) }
{
    for row in rows {
        let value = row.value(alloc)?;
        values
            .push(value)
            .map_err(|_| PlaceError::Memory(AllocError))?;
    }
    Ok(())
}

/// Lays rows over those of the array of tables at a key, from which the tables of these links are left out.
fn lay_rows<R: Row>(
    alloc: Global,
    table: &mut Table,
    key: &str,
    laid: &[LaidLink],
    rows: &[R],
) -> Done
    ensures ok { OnOk result (table_view table.new
        ≡ with_rows key.now laid.now (map R.said rows.now) (table_view table.old)) }
    ensures err { IfErr result (λ e. is_memory e ≡ true) }
{
    if rows.is_empty() {
        return Ok(());
    }
    let Some(values) = values_at(alloc, table, key)? else {
        return Ok(());
    };
    let mut others = other_links(alloc, &values, laid).map_err(PlaceError::Memory)?;
    push_rows(alloc, &mut others, rows)?;
    put(alloc, table, key, Value::Array(others))
}

/// Lays links over those of a table.
pub(crate) fn lay_links(alloc: Global, table: &mut Table, laid: &[LaidLink]) -> Done
    ensures ok { OnOk result (table_view table.new ≡ spec.lay_links laid.now (table_view table.old)) }
    ensures err { IfErr result (λ e. is_memory e ≡ true) }
{
    lay_rows(alloc, table, "links", laid, laid)
}

/// Puts drawn outages into a table, behind those that it has.
#[tactic(auto, using(crate::proofs::LaidTables::outages_laid))]
pub(crate) fn lay_outages(alloc: Global, table: &mut Table, drawn: &[LinkOutage]) -> Done
    ensures ok { OnOk result (table_view table.new ≡ with_outages drawn.now (table_view table.old)) }
    ensures err { IfErr result (λ e. is_memory e ≡ true) }
{
    lay_rows(alloc, table, "outage", &[], drawn)
}
