//! The meaning of a network file's tables. A value that isn't as it should be was refused before, and is read as
//! nothing.
ghost use Rattle.std.specs.{Prelude.{◌≡◌, option_map, IfOk, IsPermutation}, List.Sorted.{IsSorted}, Option.{option_map_or}};
ghost use Rattle.std.specs.FinSet as set;
ghost use Rattle.{process_api.specs.Sets.{insert_all}, toml.specs.{View.{view, items_view, table_view}, Data.{at}}};
ghost use Rattle.network.specs.{Ranges.{outage_cmp}, Reading.{SaysRhythm, each, processes_in, said_of, said_in}};
ghost use Rattle.network.specs.Reading as reading;

use crate::group::{Group, LinkSet};
use crate::rhythm::Rhythm;
use crate::shape::{is_all, items_of, value_at, value_in};
use crate::spell::Spell;
use process_api::{MOST_PROCESSES, Pid, ProcSet};
use scenario::lies_within;
use scenario_record::{Link, Outage};
use std::alloc::{AllocError, Global};
use toml::{Table, Value};

/// The number of a value; 0 of a negative one, and at most 4,294,967,295.
#[tactic(auto, unfolding(crate::specs::Reading::number_of))]
fn number_of(value: &Value) -> u32
    ensures { result ≡ reading.number_of (view value.now) }
{
    let Some(number) = value.as_integer() else {
        return 0;
    };
    if number < 0 {
        0
    } else {
        (number as u64).min(u64::from(u32::MAX)) as u32
    }
}

/// The number that a table has at a key; 0 where it isn't there.
pub(crate) fn number_at(table: &Table, key: &str) -> u32
    ensures { result ≡ reading.number_at key.now (table_view table.now) }
{
    match value_at(table, key) {
        Some(value) => number_of(value),
        None => 0,
    }
}

/// The process that a value says, if it says one.
fn process_of(value: &Value) -> Option<Pid>
    ensures { result ≡ reading.process_of (view value.now) }
{
    let number = value.as_integer()?;
    if lies_within(number, 1, u64::from(MOST_PROCESSES)) {
        Pid::new(number as u16)
    } else {
        None
    }
}

/// The processes that are said.
fn members_of(values: &[Value]) -> ProcSet
    ensures { result ≡ insert_all set.empty (processes_in (items_view values.now)) }
{
    let mut members = ProcSet::new();
    for value in values {
        if let Some(process) = process_of(value) {
            members.insert(process);
        }
    }
    members
}

/// The group that a value says.
#[tactic(auto, unfolding(crate::specs::Reading::group_of))]
fn group_of(value: &Value) -> Group
    ensures { result ≡ reading.group_of (view value.now) }
{
    if is_all(value) {
        Group::All
    } else {
        Group::Members(members_of(items_of(value)))
    }
}

/// The group that a value says, if there is one; else nobody.
fn group_or_nobody(value: Option<&Value>) -> Group
    ensures { result ≡ reading.group_or_nobody (option_map (λ v. view v.now) value.entry) }
{
    match value {
        Some(value) => group_of(value),
        None => Group::Members(ProcSet::new()),
    }
}

/// The group that a table says at a key.
pub(crate) fn group_at(table: &Table, key: &str) -> Group
    ensures { result ≡ reading.group_at key.now (table_view table.now) }
{
    group_or_nobody(value_at(table, key))
}

/// The group at a place of the two of a table of `cuts`.
pub(crate) fn side_at(table: &Table, place: usize) -> Group
    ensures { result ≡ reading.side_at place (table_view table.now) }
{
    match value_at(table, "between") {
        Some(sides) => group_or_nobody(sides.get(place)),
        None => group_or_nobody(None),
    }
}

/// Whether the links back belong to those of a table.
fn both_in(table: &Table) -> bool
    ensures { result ≡ reading.both_in (table_view table.now) }
{
    let Some(both) = value_at(table, "both") else {
        return false;
    };
    both.as_bool().unwrap_or(false)
}

/// The links of a table.
pub(crate) fn links_in(table: &Table) -> LinkSet
    ensures { result ≡ reading.links_in (table_view table.now) }
{
    LinkSet {
        from: group_at(table, "from"),
        to: group_at(table, "to"),
        both: both_in(table),
    }
}

/// What a table of `links` says of letters.
pub(crate) fn link_in(table: &Table) -> Link
    ensures { result ≡ reading.link_in (table_view table.now) }
{
    Link {
        min: number_at(table, "min"),
        max: number_at(table, "max"),
        loss: number_at(table, "loss"),
    }
}

/// The numbers of values.
fn numbers_of(alloc: Global, values: &[Value]) -> Result<Vec<u32>, AllocError>
    ensures { IfOk result (λ v. v.items ≡ each reading.number_of (items_view values.now)) }
{
    let mut numbers = Vec::with_capacity(alloc, values.len())?;
    for value in values {
        numbers.push(number_of(value))?;
    }
    Ok(numbers)
}

/// The values that a gap or a length lists.
fn listed_in(alloc: Global, value: &Value) -> Result<Vec<u32>, AllocError>
    ensures { IfOk result (λ v. v.items ≡ reading.listed_in (view value.now)) }
{
    match value_in(value, "values") {
        Some(values) => numbers_of(alloc, items_of(values)),
        None => Ok(Vec::new(alloc)),
    }
}

/// The gap or the length that a value says.
fn spell_of(alloc: Global, value: &Value) -> Result<Spell, AllocError>
    ensures { IfOk result (λ s. said_of s ≡ said_in (view value.now)) }
{
    if value.is_integer() {
        return Ok(Spell::Ticks(number_of(value)));
    }
    match value_in(value, "mean") {
        Some(mean) => Ok(Spell::Mean(number_of(mean))),
        None => Ok(Spell::Values(listed_in(alloc, value)?)),
    }
}

/// The gap or the length that a table says at a key.
fn spell_at(alloc: Global, table: &Table, key: &str) -> Result<Spell, AllocError>
    ensures { IfOk result (λ s. said_of s ≡ reading.said_at key.now (table_view table.now)) }
{
    match value_at(table, key) {
        Some(value) => spell_of(alloc, value),
        None => Ok(Spell::Values(Vec::new(alloc))),
    }
}

/// The gaps and lengths of a table.
pub(crate) fn rhythm_in(alloc: Global, table: &Table) -> Result<Rhythm, AllocError>
    ensures { IfOk result (SaysRhythm (table_view table.now)) }
{
    let gap = spell_at(alloc, table, "gap")?;
    let length = spell_at(alloc, table, "length")?;
    Ok(Rhythm { gap, length })
}

/// The number at a place of an array; 0 where there is none.
fn number_in(value: &Value, place: usize) -> u32
    ensures { result ≡ option_map_or reading.number_of (at place (view value.now)) 0 }
{
    match value.get(place) {
        Some(value) => number_of(value),
        None => 0,
    }
}

/// The outage that an array of two numbers says.
pub(crate) fn outage_of(value: &Value) -> Outage
    ensures { result ≡ reading.outage_of (view value.now) }
{
    Outage {
        begin: number_in(value, 0),
        until: number_in(value, 1),
    }
}

/// The outages of a record, in the order of the file.
fn outages_of(alloc: Global, values: &[Value]) -> Result<Vec<Outage>, AllocError>
    ensures { IfOk result (λ v. v.items ≡ each reading.outage_of (items_view values.now)) }
{
    let mut outages = Vec::with_capacity(alloc, values.len())?;
    for value in values {
        outages.push(outage_of(value))?;
    }
    Ok(outages)
}

/// The outages of a table of `replays`, by rising begin, and those of one begin by rising end.
pub(crate) fn outages_in(alloc: Global, table: &Table) -> Result<Vec<Outage>, AllocError>
    ensures all { IfOk result (λ v. IsPermutation (reading.outages_in (table_view table.now)) v.items) }
    ensures in_order { IfOk result (λ v. IsSorted outage_cmp v.items) }
{
    let mut outages = match value_at(table, "outages") {
        Some(value) => outages_of(alloc, items_of(value))?,
        None => Vec::new(alloc),
    };
    outages.sort_by_key(|o| (o.begin, o.until))?;
    Ok(outages)
}
