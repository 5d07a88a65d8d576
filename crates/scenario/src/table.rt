//! The values of a TOML table at its keys, and the faults of its keys.
ghost use Rattle.std.specs.{Prelude.{◌≡◌, false, is_some, option_map, option_copied, IfOk, IfSome}, List.{Contains}};
ghost use Rattle.toml.specs.{View.{view, array_view, items_view, table_view}, Data.{get_member}};
ghost use Rattle.scenario.specs.Table.{array_in, number_or, text_or, has_key, table_at, tables_at, the_tables, all_items, is_number, is_table, is_of, is_listed, keys_of, has_unlisted, is_lacking, has_lacking, is_mistyped, has_mistyped};
ghost use Rattle.scenario.specs.{Parts.{field_of, fields_of}, Inside.Parts.{table_in, tables_in}, Text.{is_second as second_in, is_fresh as fresh_in}, Faults.{integer_in, text_in, has_integer, IsMissing, IsWrongKind, IsWrongKindOf}};

use crate::fault::WrongKind;
use crate::field::{Field, Kind};
use std::alloc::{AllocError, Global};
use toml::{Table, Value};

/// The value at a key, if there is one.
#[tactic(auto, using(toml::proofs::Views::table_get))]
pub(crate) fn value_at<'a>(table: &'a Table, key: &str) -> Option<&'a Value>
    ensures { option_map (λ v. view v.now) result ≡ get_member key.now (table_view table.now) }
{
    table.get(key)
}

/// The integer at a key, if there is one.
pub(crate) fn integer_at(table: &Table, key: &str) -> Option<i64>
    ensures { result ≡ integer_in key.now (table_view table.now) }
{
    value_at(table, key)?.as_integer()
}

/// Whether the integer at a key is this one.
pub(crate) fn has_integer_at(table: &Table, key: &str, value: i64) -> bool
    ensures { result ≡ has_integer key.now value (table_view table.now) }
{
    match integer_at(table, key) {
        Some(found) => found == value,
        None => false,
    }
}

/// The text at a key, if there is one.
pub(crate) fn text_at<'a>(table: &'a Table, key: &str) -> Option<&'a str>
    ensures { option_copied result ≡ text_in key.now (table_view table.now) }
{
    value_at(table, key)?.as_str()
}

/// The integer at a key, or the default where there is none.
#[tactic(auto, unfolding(crate::specs::Table::number_or))]
pub(crate) fn number(table: &Table, key: &str, default: i64) -> i64
    ensures { result ≡ number_or key.now default (table_view table.now) }
{
    integer_at(table, key).unwrap_or(default)
}

/// Whether the file with this table is of version 2.
#[tactic(auto, unfolding(crate::specs::Text::is_second))]
pub fn is_second(table: &Table) -> bool
    ensures { result ≡ second_in (table_view table.now) }
{
    number(table, "version", 0) == 2
}

/// Whether a detector's table asks for freshness points.
#[tactic(auto, unfolding(crate::specs::Text::is_fresh))]
pub(crate) fn is_fresh(table: &Table) -> bool
    ensures { result ≡ fresh_in (table_view table.now) }
{
    text(table, "kind", "timeout") == "freshness"
}

/// Whether the key is there.
#[tactic(auto, unfolding(crate::specs::Table::has_key), using(crate::proofs::FieldFacts::some_of_map))]
pub(crate) fn has(table: &Table, key: &str) -> bool
    ensures { result ≡ has_key key.now (table_view table.now) }
{
    value_at(table, key).is_some()
}

/// The text at a key, or the default where there is none.
#[tactic(auto, unfolding(crate::specs::Table::text_or))]
pub(crate) fn text<'a>(table: &'a Table, key: &str, default: &'a str) -> &'a str
    ensures { result.now ≡ text_or key.now default.entry.now (table_view table.now) }
{
    match text_at(table, key) {
        Some(word) => word,
        None => default,
    }
}

/// The table at a key, if there is one.
#[tactic(auto, unfolding(crate::specs::Table::table_at))]
pub(crate) fn inner_table<'a>(table: &'a Table, key: &str) -> Option<&'a Table>
    ensures { table_in result ≡ table_at key.now (table_view table.now) }
{
    value_at(table, key)?.as_table()
}

/// Whether each value is an integer.
fn are_numbers(values: &[Value]) -> bool
    ensures { result ≡ all_items is_number (items_view values.now) }
{
    for value in values {
        if !value.is_integer() {
            return false;
        }
    }
    true
}

/// Whether each value is a table.
fn are_tables(values: &[Value]) -> bool
    ensures { result ≡ all_items is_table (items_view values.now) }
{
    for value in values {
        if !value.is_table() {
            return false;
        }
    }
    true
}

/// The tables among some values.
fn tables_among<'a>(alloc: Global, values: &'a [Value]) -> Result<Vec<&'a Table>, AllocError>
    ensures { IfOk result (λ v. tables_in v.items ≡ the_tables (items_view values.now)) }
{
    let mut found = Vec::new(alloc);
    for value in values {
        let Some(inner) = value.as_table() else {
            continue;
        };
        found.push(inner)?;
    }
    Ok(found)
}

/// The array at a key, if there is one.
pub fn inner_array<'a>(table: &'a Table, key: &str) -> Option<&'a Vec<Value>>
    ensures { option_map (λ v. array_view v.now) result ≡ array_in key.now (table_view table.now) }
{
    value_at(table, key)?.as_array()
}

/// The tables of the array of tables at a key; none where there is no such array.
#[tactic(auto, unfolding(crate::specs::Table::tables_at))]
pub(crate) fn inner_tables<'a>(
    alloc: Global,
    table: &'a Table,
    key: &str,
) -> Result<Vec<&'a Table>, AllocError>
    ensures { IfOk result (λ v. tables_in v.items ≡ tables_at key.now (table_view table.now)) }
{
    match inner_array(table, key) {
        Some(values) => {
            if are_tables(values) {
                tables_among(alloc, values)
            } else {
                Ok(Vec::new(alloc))
            }
        }
        None => Ok(Vec::new(alloc)),
    }
}

/// Whether the key is one of these.
#[tactic(auto, using(crate::proofs::FieldFacts::any_listed))]
pub fn is_listed_key(fields: &[Field], key: &str) -> bool
    ensures { result ≡ is_listed (fields_of fields.now) key.now }
{
    for field in fields {
        if field.key == key {
            return true;
        }
    }
    false
}

/// The first key of the table that isn't one of these.
pub(crate) fn unlisted_key<'a>(fields: &[Field], table: &'a Table) -> Option<&'a str>
    ensures test { is_some result ≡ has_unlisted (fields_of fields.now) (table_view table.now) }
    ensures there { IfSome result (λ k. Contains (keys_of (table_view table.now)) k.now) }
    ensures other { IfSome result (λ k. is_listed (fields_of fields.now) k.now ≡ false) }
{
    for key in table.keys() {
        if !is_listed_key(fields, key.as_str()) {
            return Some(key.as_str());
        }
    }
    None
}

/// Whether the field is needed and missing.
#[tactic(auto, unfolding(crate::specs::Table::is_lacking), using(crate::proofs::FieldFacts::none_of_map))]
fn is_lacking_field(field: &Field, table: &Table) -> bool
    ensures { result ≡ is_lacking (field_of field.now) (table_view table.now) }
{
    field.needed && value_at(table, field.key).is_none()
}

/// The first needed key that is missing.
#[tactic(auto, using(crate::proofs::FieldFacts::any_lacking))]
pub(crate) fn lacking_key(fields: &[Field], table: &Table) -> Option<&'static str>
    ensures test { is_some result ≡ has_lacking (fields_of fields.now) (table_view table.now) }
    ensures key { IfSome result (λ k. IsMissing (fields_of fields.now) (table_view table.now) k.now) }
{
    for field in fields {
        if is_lacking_field(field, table) {
            return Some(field.key);
        }
    }
    None
}

impl Kind {
    /// Whether the value is of this kind.
    pub fn takes(self, value: &Value) -> bool
        ensures { result ≡ is_of self (view value.now) }
    {
        match self {
            Kind::Number => value.is_integer(),
            Kind::Text => value.is_str(),
            Kind::Numbers => match value.as_array() {
                Some(values) => are_numbers(values),
                None => false,
            },
            Kind::Table => value.is_table(),
            Kind::Tables => match value.as_array() {
                Some(values) => are_tables(values),
                None => false,
            },
        }
    }
}

/// The field's value, where it is there and of another kind.
#[tactic(auto, unfolding(crate::specs::Table::is_mistyped))]
fn mistyped_field(field: &Field, table: &Table) -> Option<WrongKind>
    ensures test { is_some result ≡ is_mistyped (field_of field.now) (table_view table.now) }
    ensures wrong { IfSome result (IsWrongKindOf (field_of field.now) (table_view table.now)) }
{
    let value = value_at(table, field.key)?;
    if field.kind.takes(value) {
        return None;
    }
    Some(WrongKind {
        key: field.key,
        wanted: field.kind,
        found: value.type_str(),
    })
}

/// The first value at a listed key that is of another kind.
#[tactic(auto, using(crate::proofs::FieldFacts::any_mistyped))]
pub(crate) fn mistyped_key(fields: &[Field], table: &Table) -> Option<WrongKind>
    ensures test { is_some result ≡ has_mistyped (fields_of fields.now) (table_view table.now) }
    ensures wrong { IfSome result (IsWrongKind (fields_of fields.now) (table_view table.now)) }
{
    for field in fields {
        if let Some(wrong) = mistyped_field(field, table) {
            return Some(wrong);
        }
    }
    None
}
