//! Why a network file is refused.
ghost use Rattle.network.specs.Refusals.{AreNoFiles};

use crate::field::{Shape, TableKind};
use std::alloc::AllocError;
use thiserror::Error;

/// What is wrong with the value at a key of a table.
#[derive(Clone, Copy, Debug, PartialEq, Eq)]
pub enum ValueFault {
    /// The key must be there, and isn't.
    Missing,
    /// The value isn't of this shape.
    OtherShape(Shape),
    /// It has an array without a member, where at least one is needed.
    NoMember,
    /// It has more than 100,000 values.
    TooManyValues,
    /// A number in it is out of range.
    OutOfRange {
        /// The number, the first one of which this is so.
        value: i64,
        /// The least that it may be.
        low: u32,
        /// The greatest that it may be.
        high: u32,
    },
}

/// What is wrong with the values of a table, each of which is right by itself.
#[derive(Clone, Copy, Debug, PartialEq, Eq)]
pub enum TableFault {
    /// The `min` of a link is above its `max`.
    MinAboveMax {
        /// The one, in ticks.
        min: u32,
        /// The other, in ticks.
        max: u32,
    },
    /// The groups between which links are cut have a common member.
    CommonMember {
        /// The least of them.
        process: u16,
    },
    /// An outage of a record doesn't begin before its end, or ends when the record doesn't last any more.
    NotWithin {
        /// The first tick of it, the first outage of which this is so.
        begin: u32,
        /// The first tick after it.
        until: u32,
        /// How many ticks the record lasts.
        lasts: u32,
    },
}

/// Why a network file is refused. The refusal is true of the file (`Refuses`, `specs/Refusals.antt`), in which other
/// things may be wrong besides. `Memory` may come at any point.
#[derive(Debug, Drop, Error)]
pub enum NetworkError {
    /// The file has a key that is none of [`TABLES`](crate::TABLES).
    #[error("an unknown key")]
    UnknownTable {
        /// The key.
        key: String,
    },
    /// The file's value at the key of a kind is no array of tables.
    #[error("no array of tables")]
    NotTables {
        /// The kind.
        kind: TableKind,
    },
    /// There are more than 1,000,000 tables of a kind.
    #[error("too many tables")]
    TooManyTables {
        /// The kind.
        kind: TableKind,
    },
    /// A table has a key that it may not have.
    #[error("an unknown key")]
    UnknownKey {
        /// The table's kind.
        kind: TableKind,
        /// The table's number among those of its kind, from 1.
        number: u64,
        /// The key.
        key: String,
    },
    /// A value of a table is wrong.
    #[error("a wrong value")]
    Value {
        /// The table's kind.
        kind: TableKind,
        /// The table's number among those of its kind, from 1.
        number: u64,
        /// The value's key.
        key: &'static str,
        /// What is wrong with it.
        fault: ValueFault,
    },
    /// The values of a table are wrong together.
    #[error("values that don't fit each other")]
    Table {
        /// The table's kind.
        kind: TableKind,
        /// The table's number among those of its kind, from 1.
        number: u64,
        /// What is wrong with them.
        fault: TableFault,
    },
    /// Memory was refused.
    #[error("out of memory")]
    Memory,
}

impl From<AllocError> for NetworkError {
    ghost use Rattle.std.specs.Prelude.{◌≡◌};
    ghost use Rattle.network.specs.declared.refusal.NetworkError.TheVariants.{Memory};

    ghost from_gives = { λ _ e. e ≡ Memory };

    fn from(_: AllocError) -> NetworkError {
        NetworkError::Memory
    }
}

/// A file that is refused is no network file: no network file is refused, but where memory was refused.
pub fn law_refusals()
    ensures { AreNoFiles }
{}
