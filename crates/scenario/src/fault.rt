//! Faults of a table: something that it has or lacks, for which a scenario's file is refused.

use crate::field::{Field, Kind};
use process_api::Pid;

/// A key that isn't one of its table's.
#[derive(Clone, Copy)]
pub struct UnknownKey<'a> {
    /// The key.
    pub key: &'a str,
    /// The keys that the table may have.
    pub fields: &'static [Field],
    /// Those that it may have in a file of version 2.
    pub in_second: &'static [Field],
}

/// A value of another kind than its key's.
#[derive(Clone, Copy)]
pub struct WrongKind {
    /// The key.
    pub key: &'static str,
    /// The kind that its value is to have.
    pub wanted: Kind,
    /// TOML's word for what the value is: `string`, `integer`, `float`, `boolean`, `datetime`, `array` or `table`.
    pub found: &'static str,
}

/// A number that lies outside its range.
#[derive(Clone, Copy)]
pub struct Outside {
    /// The key.
    pub key: &'static str,
    /// The number.
    pub value: i64,
    /// The least number of the range.
    pub low: u64,
    /// The greatest.
    pub high: u64,
}

/// A text that is none of the names for its key.
#[derive(Clone, Copy)]
pub struct OtherName<'a> {
    /// The key.
    pub key: &'static str,
    /// The text.
    pub value: &'a str,
    /// The names.
    pub allowed: &'static [&'static str],
}

/// A `min` above its `max`.
#[derive(Clone, Copy)]
pub struct MinAboveMax {
    /// The `min`.
    pub min: i64,
    /// The `max`.
    pub max: i64,
}

/// A `begin` that isn't below its `until`.
#[derive(Clone, Copy)]
pub struct NotBefore {
    /// The `begin`.
    pub begin: i64,
    /// The `until`.
    pub until: i64,
}

/// What a table has, or lacks, for which its file is refused.
#[derive(Clone, Copy)]
pub enum Fault<'a> {
    /// A key that isn't one of the table's.
    UnknownKey(UnknownKey<'a>),
    /// A key that must be there isn't.
    MissingKey {
        /// The key.
        key: &'static str,
    },
    /// A value of another kind than its key's.
    WrongKind(WrongKind),
    /// A number that lies outside its range.
    Outside(Outside),
    /// A text that is none of the names for its key.
    OtherName(OtherName<'a>),
    /// A link's `min` is above its `max`.
    MinAboveMax(MinAboveMax),
    /// `from` and `to` are one process.
    ToItself {
        /// The process.
        process: i64,
    },
    /// An outage's `begin` isn't below its `until`.
    NotBefore(NotBefore),
}

/// Why proposals don't fit.
#[derive(Clone, Copy)]
pub enum ProposalsFault {
    /// There are some, and no algorithm.
    Unasked,
    /// There is an algorithm, and none are there.
    Missing {
        /// How many there should be: one of each process.
        processes: u16,
    },
    /// There is an algorithm, and they aren't one of each process.
    Count {
        /// How many there are.
        count: u64,
        /// How many there should be.
        processes: u16,
    },
    /// There is an algorithm, and one of them isn't 0 to 4,294,967,295.
    Outside {
        /// Which one, from 1.
        number: u64,
        /// What it is.
        value: i64,
    },
}

/// A link's `min` below the lookahead.
#[derive(Clone, Copy)]
pub struct BelowLookahead {
    /// The sender of the least such pair, by sender and then by receiver.
    pub from: Pid,
    /// Its receiver.
    pub to: Pid,
    /// The `min` of its link, in ticks.
    pub min: u32,
    /// The lookahead, in ticks.
    pub lookahead: u32,
}
