//! Why a network file is refused, in words: the name of the rule, the table and the key, and what breaks it there.

use diagnosis::edits_between;
use network::{NetworkError, Shape, TABLES, TableFault, ValueFault, keys_of};
use printable::Printable;
use std::alloc::{AllocError, Global};

/// The first of the keys to which the fewest edits lead from an unknown one, one for each three bytes of it at most, or
/// one where it is shorter.
fn meant_by<'a>(alloc: Global, keys: &[&'a str], key: &str) -> Result<Option<&'a str>, AllocError> {
    let (mut meant, mut fewest) = (None, key.len().max(3) / 3 + 1);
    for known in keys {
        let edits = edits_between(alloc, known, key)?;
        if edits < fewest {
            (meant, fewest) = (Some(*known), edits);
        }
    }
    Ok(meant)
}

/// An unknown key, with one that is perhaps meant.
fn unknown_text(alloc: Global, keys: &[&str], key: &str) -> Result<String, AllocError> {
    let meant = meant_by(alloc, keys, key)?;
    let key = Printable(key);
    match meant {
        Some(meant) => format!(in alloc; "{key} (did you mean {meant}?)"),
        None => format!(in alloc; "{key}"),
    }
}

/// The values that have a shape.
fn shape_text(shape: Shape) -> &'static str {
    match shape {
        Shape::Group => "\"all\" or an array of processes",
        Shape::Sides => "two arrays of processes",
        Shape::Flag => "true or false",
        Shape::Number => "an integer",
        Shape::Spell => "an integer, {mean = M} or {values = [..]}",
        Shape::Outages => "an array of [begin, until]",
    }
}

/// What is wrong with the value at a key of a table.
fn value_reason(alloc: Global, at: &str, fault: ValueFault) -> Result<String, AllocError> {
    match fault {
        ValueFault::Missing => format!(in alloc; "Missing: {at} is missing"),
        ValueFault::OtherShape(shape) => {
            let shape = shape_text(shape);
            format!(in alloc; "OtherShape: {at} must be {shape}")
        }
        ValueFault::NoMember => format!(in alloc; "NoMember: {at} has an array without members"),
        ValueFault::TooManyValues => {
            format!(in alloc; "TooManyValues: {at} has more than 100000 values")
        }
        ValueFault::OutOfRange { value, low, high } => {
            format!(in alloc; "OutOfRange: {at}: {value} is not in {low}..={high}")
        }
    }
}

/// What is wrong with the values of a table together.
fn table_reason(
    alloc: Global,
    kind: &str,
    number: u64,
    fault: TableFault,
) -> Result<String, AllocError> {
    match fault {
        TableFault::MinAboveMax { min, max } => {
            format!(in alloc; "MinAboveMax: {kind}[{number}]: min {min} is above max {max}")
        }
        TableFault::CommonMember { process } => {
            format!(in alloc;
                "CommonMember: {kind}[{number}].between: both groups have process {process}"
            )
        }
        TableFault::NotWithin {
            begin,
            until,
            lasts,
        } => format!(in alloc;
            "NotWithin: {kind}[{number}].outages: [{begin}, {until}] is not within the {lasts} ticks that it lasts"
        ),
    }
}

/// The name of the rule that a network file breaks, where, and what breaks it there.
pub(crate) fn network_reason(alloc: Global, error: &NetworkError) -> Result<String, AllocError> {
    match error {
        NetworkError::UnknownTable { key } => {
            let key = unknown_text(alloc, &TABLES, key.as_str())?;
            format!(in alloc; "UnknownTable: {key}")
        }
        NetworkError::NotTables { kind } => {
            let kind = kind.key();
            format!(in alloc; "NotTables: {kind} must be an array of tables, [[{kind}]]")
        }
        NetworkError::TooManyTables { kind } => {
            let kind = kind.key();
            format!(in alloc; "TooManyTables: there are more than 1000000 tables of {kind}")
        }
        NetworkError::UnknownKey { kind, number, key } => {
            let key = unknown_text(alloc, keys_of(*kind), key.as_str())?;
            let kind = kind.key();
            format!(in alloc; "UnknownKey: {kind}[{number}]: {key}")
        }
        NetworkError::Value {
            kind,
            number,
            key,
            fault,
        } => {
            let kind = kind.key();
            let at = format!(in alloc; "{kind}[{number}].{key}")?;
            value_reason(alloc, at.as_str(), *fault)
        }
        NetworkError::Table {
            kind,
            number,
            fault,
        } => table_reason(alloc, kind.key(), *number, *fault),
        NetworkError::Memory => Err(AllocError),
    }
}
