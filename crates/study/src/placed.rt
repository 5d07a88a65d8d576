//! A study's files with values at keys, in place of those that are there.
ghost use Rattle.std.specs.Prelude.{◌≡◌, ◌<◌, ◌≤◌, true, IfOk, OnOk, IfErr, Ok, map, length, option_map};
ghost use Rattle.toml.specs.{Data.{get_member, table}, View.{view, table_view, array_view, items_view}};
ghost use Rattle.scenario.specs.Drawn.{put as put_member};
ghost use Rattle.study.specs.{Settings.{file_path_of, path_of, given_by, chosen, inner, element, every}, Reading.{AreSet, Sets}, Sources.{sources_of}};
ghost use Rattle.study.specs.{Placed.{data_of, put_item, put_in_each, set_at, set_chosen, set_all, assign_all, table_of, table_or_new, items_of, element_of, is_memory, IsRefused}, Inside.Private.{Puts, CannotPut}};

use crate::assignment::Assignment;
use crate::axis::Choice;
use crate::error::PlaceError;
use crate::file_key::FileKey;
use crate::key::Key;
use crate::setting::Setting;
use crate::sources::Sources;
use std::alloc::{AllocError, Global};
use toml::{Table, Value};

/// A change of a table, unless it can't be.
type Done = Result<(), PlaceError>;

/// The value that a file has for a setting.
fn value_of(alloc: Global, setting: &Setting) -> Result<Value, AllocError>
    ensures { IfOk result (λ v. view v ≡ data_of (given_by setting.now)) }
{
    match setting {
        Setting::Integer(number) => Ok(Value::Integer(*number)),
        Setting::Text(text) => Value::string(alloc, text.as_str()),
    }
}

/// The value at a key of a table, if there is one.
#[tactic(auto, using(toml::proofs::Views::table_get))]
pub fn value_at<'a>(table: &'a Table, key: &str) -> Option<&'a Value>
    ensures { option_map (λ v. view v.now) result ≡ get_member key.now (table_view table.now) }
{
    table.get(key)
}

/// Puts a value at a key of a table.
#[tactic(auto, using(crate::proofs::Placing::inserted))]
pub(crate) fn put(alloc: Global, table: &mut Table, key: &str, value: Value) -> Done
    ensures ok { OnOk result (table_view table.new ≡ put_member key.now (view value) (table_view table.old)) }
    ensures err { IfErr result (λ e. is_memory e ≡ true) }
{
    let name = String::from_str(alloc, key).map_err(PlaceError::Memory)?;
    match table.insert(name, value) {
        Ok(_) => Ok(()),
        Err(_) => Err(PlaceError::Memory(AllocError)),
    }
}

/// Sets a key of a table.
fn set_here(alloc: Global, table: &mut Table, key: &str, value: &Value) -> Done
    ensures ok { OnOk result (table_view table.new ≡ put_member key.now (view value.now) (table_view table.old)) }
    ensures err { IfErr result (λ e. is_memory e ≡ true) }
{
    let value = value.clone().map_err(PlaceError::Memory)?;
    put(alloc, table, key, value)
}

/// A copy of a value that is a table.
fn copy_of_table(value: &Value) -> Result<Table, PlaceError>
    ensures ok { IfOk result (λ t. table_of (view value.now) ≡ Ok (table_view t)) }
    ensures err { IfErr result (IsRefused (table_of (view value.now))) }
{
    match value.clone() {
        Ok(Value::Table(inner)) => Ok(inner),
        Ok(_) => Err(PlaceError::NotATable),
        Err(error) => Err(PlaceError::Memory(error)),
    }
}

/// A copy of the table at a key of a table, or an empty one where there is nothing.
fn copy_of_inner(alloc: Global, table: &Table, name: &str) -> Result<Table, PlaceError>
    ensures ok { IfOk result (λ t. table_or_new (get_member name.now (table_view table.now)) ≡ Ok (table_view t)) }
    ensures err { IfErr result (IsRefused (table_or_new (get_member name.now (table_view table.now)))) }
{
    match value_at(table, name) {
        Some(value) => copy_of_table(value),
        None => Ok(Table::new(alloc)),
    }
}

/// A copy of the array at a key of a table.
fn copy_of_items(table: &Table, name: &str) -> Result<Vec<Value>, PlaceError>
    ensures ok { IfOk result (λ v. items_of (get_member name.now (table_view table.now)) ≡ Ok (array_view v)) }
    ensures err { IfErr result (IsRefused (items_of (get_member name.now (table_view table.now)))) }
{
    let Some(value) = value_at(table, name) else {
        return Err(PlaceError::NoElement);
    };
    match value.clone() {
        Ok(Value::Array(items)) => Ok(items),
        Ok(_) => Err(PlaceError::NotATable),
        Err(error) => Err(PlaceError::Memory(error)),
    }
}

/// A copy of the table at a place of an array, from 1.
#[tactic(auto, using(crate::proofs::Placing::elements))]
fn copy_of_element(items: &[Value], place: u64) -> Result<Table, PlaceError>
    ensures ok { IfOk result (λ t. element_of place (items_view items.now) ≡ Ok (table_view t)) }
    ensures within { OnOk result ((1 ≤ place) × (place ≤ length items.now)) }
    ensures err { IfErr result (IsRefused (element_of place (items_view items.now))) }
{
    if place == 0 || place > items.len() as u64 {
        return Err(PlaceError::NoElement);
    }
    let table = copy_of_table(&items[place as usize - 1])?;
    Ok(table)
}

/// Puts a table at a place of an array, from 0.
#[tactic(auto, using(crate::proofs::Placing::writing))]
fn write_table(items: &mut Vec<Value>, index: usize, inner: Table)
    requires { index < length items.old.items }
    ensures { array_view items.new ≡ put_item index (table (table_view inner)) (array_view items.old) }
{
    items[index] = Value::Table(inner);
}

/// Sets a key of a table of an array of tables.
fn set_in_element(
    alloc: Global,
    table: &mut Table,
    array: &str,
    place: u64,
    key: &str,
    value: &Value,
) -> Done
    ensures ok { OnOk result (Puts (element array.now place key.now) (view value.now) table.old table.new) }
    ensures err { IfErr result (CannotPut (element array.now place key.now) (view value.now) table.old) }
{
    let mut items = copy_of_items(table, array)?;
    let mut inner = copy_of_element(&items, place)?;
    set_here(alloc, &mut inner, key, value)?;
    write_table(&mut items, place as usize - 1, inner);
    put(alloc, table, array, Value::Array(items))
}

/// Copies of items, each of them a table, with a key of each set.
fn changed_items(
    alloc: Global,
    items: &[Value],
    key: &str,
    value: &Value,
) -> Result<Vec<Value>, PlaceError>
    ensures ok { IfOk result (λ v. put_in_each key.now (view value.now) (items_view items.now)
        ≡ Ok (array_view v)) }
    ensures err { IfErr result (IsRefused
        (put_in_each key.now (view value.now) (items_view items.now))) }
{
    let mut changed = Vec::new(alloc);
    for item in items {
        let mut copy = copy_of_table(item)?;
        set_here(alloc, &mut copy, key, value)?;
        changed
            .push(Value::Table(copy))
            .map_err(|_| PlaceError::Memory(AllocError))?;
    }
    Ok(changed)
}

/// Sets a key of every table of an array of tables.
fn set_in_every(alloc: Global, table: &mut Table, array: &str, key: &str, value: &Value) -> Done
    ensures ok { OnOk result (Puts (every array.now key.now) (view value.now) table.old table.new) }
    ensures err { IfErr result (CannotPut (every array.now key.now) (view value.now) table.old) }
{
    let items = copy_of_items(table, array)?;
    if items.is_empty() {
        return Err(PlaceError::NoElement);
    }
    let changed = changed_items(alloc, &items, key, value)?;
    put(alloc, table, array, Value::Array(changed))
}

/// Sets a key of a table of a table.
fn set_in_inner(alloc: Global, table: &mut Table, name: &str, key: &str, value: &Value) -> Done
    ensures ok { OnOk result (Puts (inner name.now key.now) (view value.now) table.old table.new) }
    ensures err { IfErr result (CannotPut (inner name.now key.now) (view value.now) table.old) }
{
    let mut changed = copy_of_inner(alloc, table, name)?;
    set_here(alloc, &mut changed, key, value)?;
    put(alloc, table, name, Value::Table(changed))
}

/// Sets a key of a file's table.
fn set_in_file(alloc: Global, table: &mut Table, key: &FileKey, value: &Value) -> Done
    ensures ok { OnOk result (Puts (file_path_of key.now) (view value.now) table.old table.new) }
    ensures err { IfErr result (CannotPut (file_path_of key.now) (view value.now) table.old) }
{
    match key {
        FileKey::Top(key) => set_here(alloc, table, key, value),
        FileKey::Inner { table: name, key } => set_in_inner(alloc, table, name, key, value),
        FileKey::Element { array, place, key } => {
            set_in_element(alloc, table, array, *place, key, value)
        }
        FileKey::Every { array, key } => set_in_every(alloc, table, array, key, value),
    }
}

/// Sets a key of the files, as it is of its file.
fn set_by_file(alloc: Global, sources: &mut Sources, key: &Key, value: &Value) -> Done
    ensures ok { OnOk result (set_at (path_of key.now) (view value.now) (sources_of sources.old)
        ≡ Ok (sources_of sources.new)) }
    ensures err { IfErr result (IsRefused (set_at (path_of key.now) (view value.now) (sources_of sources.old))) }
{
    match key {
        Key::Scenario(key) => set_in_file(alloc, &mut sources.scenario, key, value),
        Key::Network(key) => match &mut sources.network {
            Some(network) => set_in_file(alloc, network, key, value),
            None => Err(PlaceError::NoNetwork),
        },
    }
}

/// Sets a key of the files. The value is what they then have there, and each key apart from it has what it had.
pub(crate) fn set(alloc: Global, sources: &mut Sources, key: &Key, value: &Value) -> Done
    ensures ok { OnOk result (set_at (path_of key.now) (view value.now) (sources_of sources.old)
        ≡ Ok (sources_of sources.new)) }
    ensures sets { OnOk result
        (Sets (path_of key.now) (view value.now) (sources_of sources.old) (sources_of sources.new)) }
    ensures err { IfErr result (IsRefused (set_at (path_of key.now) (view value.now) (sources_of sources.old))) }
{
    law_settings();
    set_by_file(alloc, sources, key, value)
}

/// Sets the key of a choice.
fn set_choice(alloc: Global, sources: &mut Sources, choice: Choice<'_>) -> Done
    ensures ok { OnOk result (set_chosen (chosen choice.entry) (sources_of sources.old) ≡ Ok (sources_of sources.new)) }
    ensures err { IfErr result (IsRefused (set_chosen (chosen choice.entry) (sources_of sources.old))) }
{
    let value = value_of(alloc, choice.value).map_err(PlaceError::Memory)?;
    set(alloc, sources, choice.key, &value)
}

/// Sets the keys of some choices, one after the other.
pub(crate) fn set_choices(alloc: Global, sources: &mut Sources, choices: &[Choice<'_>]) -> Done
    ensures ok { OnOk result (set_all (map chosen choices.now) (sources_of sources.old) ≡ Ok (sources_of sources.new)) }
    ensures err { IfErr result (IsRefused (set_all (map chosen choices.now) (sources_of sources.old))) }
{
    for choice in choices {
        set_choice(alloc, sources, *choice)?;
    }
    Ok(())
}

impl Sources {
    /// Sets keys for all runs, one after the other.
    ///
    /// # Errors
    ///
    /// Where a key can't be set, the reason, of the first such key; `Memory` at any point.
    pub fn set(&mut self, alloc: Global, assignments: &[Assignment]) -> Done
        ensures ok { OnOk result (assign_all assignments.now (sources_of self.old) ≡ Ok (sources_of self.new)) }
        ensures err { IfErr result (IsRefused (assign_all assignments.now (sources_of self.old))) }
    {
        for assignment in assignments {
            set(alloc, self, &assignment.key, &assignment.value)?;
        }
        Ok(())
    }
}

/// Wherever a key is set, its value is what the files then have there, in every table of an array where that is meant,
/// and each key apart from it has what it had.
pub fn law_settings()
    ensures { AreSet }
{}
