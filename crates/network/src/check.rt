//! Whether a table is a network file.
ghost use Rattle.std.specs.{Prelude.{◌≡◌, Some, false, true, is_some, map, IfErr, IfSome, OnOk}, List.{All, Contains}};
ghost use Rattle.toml.specs.{Data.{Members}, View.{items_view, table_view}};
ghost use Rattle.scenario.specs.{Keys.{numbered}, Table.{all_items, is_table, tables_at, the_tables}};
ghost use Rattle.scenario.specs.Table as scenario_table;
ghost use Rattle.network.specs.{Fields.{fields_of, has_fault, has_unlisted, is_listed, key_of}, Refusals.{AreTablesOf, HasFaultAt, IsNetworkFile, IsTableOf, Refuses}};

use crate::field::{Field, TableKind, file_keys, keys_of};
use crate::refusal::{NetworkError, ValueFault};
use crate::shape::{items_of, value_at};
use scenario::Kind;
use std::alloc::Global;
use toml::{Table, Value};

/// The most tables of a kind.
const MOST_TABLES: usize = 1_000_000;

/// Whether the key is one of these.
#[tactic(auto, using(crate::proofs::Keys::any_listed))]
fn is_listed_key(keys: &[&'static str], key: &str) -> bool
    ensures { result ≡ is_listed (map (λ k. k.now) keys.now) key.now }
{
    for listed in keys {
        if *listed == key {
            return true;
        }
    }
    false
}

/// The first key of the table that isn't one of these.
fn unlisted_key<'a>(keys: &[&'static str], table: &'a Table) -> Option<&'a str>
    ensures test { is_some result ≡ has_unlisted (map (λ k. k.now) keys.now) (table_view table.now) }
    ensures there { IfSome result (λ k. Contains (scenario_table.keys_of (table_view table.now)) k.now) }
    ensures other { IfSome result (λ k. is_listed (map (λ k. k.now) keys.now) k.now ≡ false) }
{
    for key in table.keys() {
        if !is_listed_key(keys, key.as_str()) {
            return Some(key.as_str());
        }
    }
    None
}

/// A key of a table and what is wrong with what it has there.
#[derive(Clone, Copy)]
struct KeyFault {
    key: &'static str,
    fault: ValueFault,
}

/// The first of these keys whose value is wrong.
#[tactic(auto, using(crate::proofs::Keys::any_fault))]
fn value_fault(fields: &[Field], table: &Table) -> Option<KeyFault>
    ensures test { is_some result ≡ has_fault (fields_of fields.now) (table_view table.now) }
    ensures fault { IfSome result
        (λ its. HasFaultAt (fields_of fields.now) its.key.now its.fault (table_view table.now)) }
{
    for field in fields {
        if let Some(fault) = field.fault_at(table) {
            return Some(KeyFault {
                key: field.key,
                fault,
            });
        }
    }
    None
}

/// Refuses a table, by its number among those of its kind, that isn't as it should be.
fn check_table(
    alloc: Global,
    kind: TableKind,
    number: u64,
    table: &Table,
) -> Result<(), NetworkError>
    ensures ok { OnOk result (IsTableOf kind (table_view table.now)) }
    ensures err { (file : Members) → numbered number (tables_at (key_of kind) file) ≡ Some (table_view table.now)
        → IfErr result (λ e. Refuses e file) }
{
    if let Some(key) = unlisted_key(keys_of(kind), table) {
        let key = String::from_str(alloc, key)?;
        return Err(NetworkError::UnknownKey { kind, number, key });
    }
    if let Some(KeyFault { key, fault }) = value_fault(kind.fields(), table) {
        return Err(NetworkError::Value {
            kind,
            number,
            key,
            fault,
        });
    }
    if let Some(fault) = kind.fault_of(table) {
        return Err(NetworkError::Table {
            kind,
            number,
            fault,
        });
    }
    Ok(())
}

/// Refuses tables of a kind of which one isn't as it should be.
fn check_each(alloc: Global, kind: TableKind, tables: &[Value]) -> Result<(), NetworkError>
    requires { all_items is_table (items_view tables.now) ≡ true }
    ensures ok { OnOk result (All (IsTableOf kind) (the_tables (items_view tables.now))) }
    ensures err { (file : Members) → tables_at (key_of kind) file ≡ the_tables (items_view tables.now)
        → IfErr result (λ e. Refuses e file) }
{
    for i in 0..tables.len() {
        let Some(table) = tables[i].as_table() else {
            continue;
        };
        check_table(alloc, kind, i as u64 + 1, table)?;
    }
    Ok(())
}

/// Refuses what a file has at the key of a kind, where it isn't as it should be.
fn check_tables(alloc: Global, file: &Table, kind: TableKind) -> Result<(), NetworkError>
    ensures ok { OnOk result (AreTablesOf kind (table_view file.now)) }
    ensures err { IfErr result (λ e. Refuses e (table_view file.now)) }
{
    let Some(value) = value_at(file, kind.key()) else {
        return Ok(());
    };
    if !Kind::Tables.takes(value) {
        return Err(NetworkError::NotTables { kind });
    }
    let tables = items_of(value);
    if tables.len() > MOST_TABLES {
        return Err(NetworkError::TooManyTables { kind });
    }
    check_each(alloc, kind, tables)
}

/// Refuses a table that isn't a network file.
pub(crate) fn check_file(alloc: Global, file: &Table) -> Result<(), NetworkError>
    ensures ok { OnOk result (IsNetworkFile (table_view file.now)) }
    ensures err { IfErr result (λ e. Refuses e (table_view file.now)) }
{
    if let Some(key) = unlisted_key(file_keys(), file) {
        let key = String::from_str(alloc, key)?;
        return Err(NetworkError::UnknownTable { key });
    }
    check_tables(alloc, file, TableKind::Links)?;
    check_tables(alloc, file, TableKind::Bursts)?;
    check_tables(alloc, file, TableKind::Cuts)?;
    check_tables(alloc, file, TableKind::Pauses)?;
    check_tables(alloc, file, TableKind::Replays)?;
    Ok(())
}
