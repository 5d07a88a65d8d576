//! The tables of a scenario's file, and the faults of their keys.
ghost use Rattle.std.specs.{Prelude.{◌≡◌, false, is_some, Some, IfOk, IfSome}, List.{list_any}, Option.{option_map_or}};
ghost use Rattle.toml.specs.View.{table_view};
ghost use Rattle.scenario.specs.{Parts.{fields_of, fault_of}, Inside.Parts.{error_of, table_in, tables_in, AreTables}};
ghost use Rattle.scenario.specs.{Keys.{some_table, top_fields, detector_fields, share_fields, link_fields, pair_fields, crash_fields, outage_fields, array_key, fields_at, fields_in, fields_of_array, table_of}, Table.{tables_at}};
ghost use Rattle.scenario.specs.{Refusals.{Judges, first_of, key_refusals}, Faults.{Breaks, IsFault}};

use crate::error::ScenarioError;
use crate::fault::{Fault, UnknownKey};
use crate::field::{Field, Kind};
use crate::finding::{Finding, answer_found};
use crate::place::{Place, Section, TableArray};
use crate::table::{
    inner_table, inner_tables, is_fresh, is_second, lacking_key, mistyped_key, unlisted_key,
};
use std::alloc::{AllocError, Global};
use toml::Table;

/// A key, the kind of its value, and whether it must be there.
macro_rules! field {
    ($key:literal, $kind:ident, $needed:literal) => {
        Field {
            key: $key,
            kind: Kind::$kind,
            needed: $needed,
        }
    };
}

/// The keys of the file itself; those of version 2 alone come last.
const TOP: [Field; 14] = [
    field!("version", Number, true),
    field!("processes", Number, true),
    field!("horizon", Number, true),
    field!("lookahead", Number, true),
    field!("seed", Number, true),
    field!("limit", Number, false),
    field!("algorithm", Text, true),
    field!("proposals", Numbers, false),
    field!("detector", Table, true),
    field!("link", Table, true),
    field!("share", Table, false),
    field!("links", Tables, false),
    field!("crash", Tables, false),
    field!("outage", Tables, false),
];

/// How many of them a file of version 1 may have.
const FIRST: usize = 13;

/// The keys of a detector's table that names no freshness points; those of version 2 alone come last.
const TIMEOUT: [Field; 6] = [
    field!("period", Number, true),
    field!("check", Number, true),
    field!("timeout", Number, true),
    field!("grow", Number, false),
    field!("watch", Text, false),
    field!("kind", Text, false),
];

/// How many of them a file of version 1 may have.
const FIRST_TIMEOUT: usize = 5;

/// The keys of a detector's table that names freshness points.
const FRESHNESS: [Field; 4] = [
    field!("eta", Number, true),
    field!("delta", Number, true),
    field!("watch", Text, false),
    field!("kind", Text, false),
];

const SHARE: [Field; 1] = [field!("period", Number, true)];

const LINK: [Field; 3] = [
    field!("min", Number, true),
    field!("max", Number, true),
    field!("loss", Number, false),
];

const PAIR: [Field; 5] = [
    field!("from", Number, true),
    field!("to", Number, true),
    field!("min", Number, true),
    field!("max", Number, true),
    field!("loss", Number, false),
];

const CRASH: [Field; 2] = [field!("process", Number, true), field!("at", Number, true)];

const OUTAGE: [Field; 4] = [
    field!("from", Number, true),
    field!("to", Number, true),
    field!("begin", Number, true),
    field!("until", Number, true),
];

/// The keys of a file's top table, by whether the file is of version 2.
#[tactic(auto, unfolding(crate::specs::Keys::top_fields))]
fn top_keys(is_second: bool) -> &'static [Field]
    ensures { fields_of result.now ≡ top_fields is_second }
{
    if is_second { &TOP } else { &TOP[..FIRST] }
}

/// The keys of a table `detector`, by whether the file is of version 2.
#[tactic(auto, unfolding(crate::specs::Keys::freshness_fields, crate::specs::Keys::timeout_fields))]
fn detector_keys(is_second: bool, table: &Table) -> &'static [Field]
    ensures { fields_of result.now ≡ detector_fields is_second (table_view table.now) }
{
    if is_second && is_fresh(table) {
        &FRESHNESS
    } else if is_second {
        &TIMEOUT
    } else {
        &TIMEOUT[..FIRST_TIMEOUT]
    }
}

/// The keys that the table at a place of a file may have, by whether the file is of version 2.
#[tactic(auto, unfolding(crate::specs::Keys::share_fields, crate::specs::Keys::link_fields, crate::specs::Keys::pair_fields, crate::specs::Keys::crash_fields, crate::specs::Keys::outage_fields))]
fn keys_in(is_second: bool, place: Place, table: &Table) -> &'static [Field]
    ensures { fields_of result.now ≡ fields_in is_second place (table_view table.now) }
{
    match place {
        Place::Top => top_keys(is_second),
        Place::Section(section) => match section {
            Section::Detector => detector_keys(is_second, table),
            Section::Share => &SHARE,
            Section::Link => &LINK,
        },
        Place::Element { array, .. } => match array {
            TableArray::Links => &PAIR,
            TableArray::Crash => &CRASH,
            TableArray::Outage => &OUTAGE,
        },
    }
}

/// The tables of a file's arrays. Where a value isn't of its kind all of its tables are left out.
#[derive(Drop)]
pub(crate) struct Tables<'a> {
    /// Those of `links`.
    pub(crate) links: Vec<&'a Table>,
    /// Those of `crash`.
    pub(crate) crashes: Vec<&'a Table>,
    /// Those of `outage`.
    pub(crate) outages: Vec<&'a Table>,
}

/// A fault of a table's keys.
#[derive(Clone, Copy)]
pub(crate) enum KeyFault {
    /// A key that isn't listed.
    Unlisted,
    /// A needed key that is missing.
    Lacking,
    /// A listed key whose value is of another kind.
    Mistyped,
}

impl KeyFault {
    /// The first such fault of the table at a place.
    fn of_table<'a>(self, top: &Table, place: Place, table: &'a Table) -> Option<Fault<'a>>
        ensures test { is_some result ≡ fault_of self
            (fields_at place (table_view top.now) (table_view table.now)) (table_view table.now) }
        ensures fault { IfSome result
            (IsFault (error_of self) (table_view top.now) place (table_view table.now)) }
    {
        let fields = keys_in(is_second(top), place, table);
        match self {
            KeyFault::Unlisted => {
                let key = unlisted_key(fields, table)?;
                let in_second = keys_in(true, place, table);
                Some(Fault::UnknownKey(UnknownKey {
                    key,
                    fields,
                    in_second,
                }))
            }
            KeyFault::Lacking => {
                let key = lacking_key(fields, table)?;
                Some(Fault::MissingKey { key })
            }
            KeyFault::Mistyped => {
                let wrong = mistyped_key(fields, table)?;
                Some(Fault::WrongKind(wrong))
            }
        }
    }

    /// The first such fault of the table at a place, where it is there.
    fn at<'a>(self, top: &Table, place: Place, table: Option<&'a Table>) -> Option<Finding<'a>>
        requires { table_in table ≡ table_of place (table_view top.now) }
        ensures test { is_some result ≡ option_map_or
            (λ t. fault_of self (fields_at place (table_view top.now) t) t) (table_in table.entry) false }
        ensures finds { IfSome result (Breaks (error_of self) (table_view top.now)) }
    {
        let table = table?;
        let fault = self.of_table(top, place, table)?;
        Some(Finding::At { place, fault })
    }

    /// The first such fault of a table of an array.
    fn among<'a>(self, top: &Table, array: TableArray, tables: &[&'a Table]) -> Option<Finding<'a>>
        requires { tables_in tables.now ≡ tables_at (array_key array) (table_view top.now) }
        ensures test { is_some result ≡ list_any (fault_of self (fields_of_array array)) (tables_in tables.now) }
        ensures finds { IfSome result (Breaks (error_of self) (table_view top.now)) }
    {
        for i in 0..tables.len() {
            let found = self.at(top, array.place(tables, i), Some(tables[i]));
            if found.is_some() {
                return found;
            }
        }
        None
    }

    /// The first such fault of a table of a file.
    #[tactic(auto, unfolding(crate::specs::Keys::some_table))]
    pub(crate) fn find<'a>(self, top: &'a Table, tables: &Tables<'a>) -> Option<Finding<'a>>
        requires { AreTables (table_view top.now) tables.now }
        ensures test { is_some result ≡ some_table (fault_of self) (table_view top.now) }
        ensures finds { IfSome result (Breaks (error_of self) (table_view top.now)) }
    {
        let detector = inner_table(top, "detector");
        let share = inner_table(top, "share");
        let link = inner_table(top, "link");
        answer_found!(self.at(top, Place::Top, Some(top)));
        answer_found!(self.at(top, Place::Section(Section::Detector), detector));
        answer_found!(self.at(top, Place::Section(Section::Share), share));
        answer_found!(self.at(top, Place::Section(Section::Link), link));
        answer_found!(self.among(top, TableArray::Links, &tables.links));
        answer_found!(self.among(top, TableArray::Crash, &tables.crashes));
        self.among(top, TableArray::Outage, &tables.outages)
    }
}

/// The tables of a file's arrays.
pub(crate) fn tables_of(alloc: Global, top: &Table) -> Result<Tables<'_>, AllocError>
    ensures { IfOk result (AreTables (table_view top.now)) }
{
    let links = inner_tables(alloc, top, "links")?;
    let crashes = inner_tables(alloc, top, "crash")?;
    let outages = inner_tables(alloc, top, "outage")?;
    Ok(Tables {
        links,
        crashes,
        outages,
    })
}

/// Refuses a file of which some table has a fault of its keys: keys that aren't listed first, then missing ones, then
/// values of another kind.
pub(crate) fn check_keys(top: &Table, tables: &Tables<'_>) -> Result<(), ScenarioError>
    requires { AreTables (table_view top.now) tables.now }
    ensures judged { Judges (first_of (key_refusals (table_view top.now))) result }
{
    if KeyFault::Unlisted.find(top, tables).is_some() {
        return Err(ScenarioError::UnknownKey);
    }
    if KeyFault::Lacking.find(top, tables).is_some() {
        return Err(ScenarioError::MissingKey);
    }
    if KeyFault::Mistyped.find(top, tables).is_some() {
        return Err(ScenarioError::WrongKind);
    }
    Ok(())
}
