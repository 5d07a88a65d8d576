//! The tables that a network file may have, and their keys.
ghost use Rattle.std.specs.Prelude.{◌≡◌, map};
ghost use Rattle.network.specs.Fields as spec;
ghost use Rattle.network.specs.Fields.{fields_of, fields_in, keys_in, key_of};

use process_api::{LAST_TICK, MOST_PROCESSES, MOST_TICKS};

/// The tables of a network file, by their kinds: each kind is an array of tables at a key of the file.
#[derive(Clone, Copy, Debug, PartialEq, Eq)]
pub enum TableKind {
    /// `links`.
    Links,
    /// `bursts`.
    Bursts,
    /// `cuts`.
    Cuts,
    /// `pauses`.
    Pauses,
    /// `replays`.
    Replays,
}

/// What a key's value must be.
#[derive(Clone, Copy, Debug, PartialEq, Eq)]
pub enum Shape {
    /// The text `all`, or an array of integers, which are processes.
    Group,
    /// An array of two arrays of integers, which are the processes of two groups.
    Sides,
    /// A boolean.
    Flag,
    /// An integer.
    Number,
    /// A gap or a length: an integer, or a table with `mean`, an integer, or `values`, an array of integers, alone.
    Spell,
    /// An array of arrays of two integers, the begin and the end of an outage of a record.
    Outages,
}

/// A key that a table may have.
#[derive(Clone, Copy)]
pub(crate) struct Field {
    /// The key.
    pub(crate) key: &'static str,
    /// What its value must be.
    pub(crate) shape: Shape,
    /// Whether the key must be there.
    pub(crate) needed: bool,
    /// The least that a number in its value may be.
    pub(crate) low: u32,
    /// The greatest.
    pub(crate) high: u32,
}

/// A key, what its value must be, whether it must be there, and what numbers it may have.
macro_rules! field {
    ($key:literal, $shape:ident, $needed:literal, $low:literal, $high:expr) => {
        Field {
            key: $key,
            shape: Shape::$shape,
            needed: $needed,
            low: $low,
            high: $high,
        }
    };
}

const LINKS: [Field; 6] = [
    field!("from", Group, true, 1, MOST_PROCESSES as u32),
    field!("to", Group, true, 1, MOST_PROCESSES as u32),
    field!("both", Flag, false, 0, 0),
    field!("min", Number, true, 1, MOST_TICKS),
    field!("max", Number, true, 1, MOST_TICKS),
    field!("loss", Number, false, 0, 1_000),
];

const BURSTS: [Field; 5] = [
    field!("from", Group, true, 1, MOST_PROCESSES as u32),
    field!("to", Group, true, 1, MOST_PROCESSES as u32),
    field!("both", Flag, false, 0, 0),
    field!("gap", Spell, true, 1, LAST_TICK),
    field!("length", Spell, true, 1, LAST_TICK),
];

const CUTS: [Field; 3] = [
    field!("between", Sides, true, 1, MOST_PROCESSES as u32),
    field!("gap", Spell, true, 1, LAST_TICK),
    field!("length", Spell, true, 1, LAST_TICK),
];

const PAUSES: [Field; 3] = [
    field!("processes", Group, true, 1, MOST_PROCESSES as u32),
    field!("gap", Spell, true, 1, LAST_TICK),
    field!("length", Spell, true, 1, LAST_TICK),
];

const REPLAYS: [Field; 5] = [
    field!("from", Group, true, 1, MOST_PROCESSES as u32),
    field!("to", Group, true, 1, MOST_PROCESSES as u32),
    field!("both", Flag, false, 0, 0),
    field!("lasts", Number, true, 1, LAST_TICK),
    field!("outages", Outages, true, 0, LAST_TICK),
];

/// The keys that a network file itself may have, each of which has an array of tables.
pub const TABLES: [&str; 5] = ["links", "bursts", "cuts", "pauses", "replays"];

/// The keys that a network file itself may have, as a list.
pub(crate) fn file_keys() -> &'static [&'static str]
    ensures { map (λ key. key.now) result.now ≡ spec.file_keys }
{
    &TABLES
}

impl TableKind {
    /// The key of the array of these tables.
    pub fn key(self) -> &'static str
        ensures { result.now ≡ key_of self }
    {
        match self {
            TableKind::Links => "links",
            TableKind::Bursts => "bursts",
            TableKind::Cuts => "cuts",
            TableKind::Pauses => "pauses",
            TableKind::Replays => "replays",
        }
    }

    /// The keys that such a table may have.
    #[tactic(auto, unfolding(crate::specs::Fields::link_fields, crate::specs::Fields::burst_fields, crate::specs::Fields::cut_fields, crate::specs::Fields::pause_fields, crate::specs::Fields::replay_fields))]
    pub(crate) fn fields(self) -> &'static [Field]
        ensures { fields_of result.now ≡ fields_in self }
    {
        match self {
            TableKind::Links => &LINKS,
            TableKind::Bursts => &BURSTS,
            TableKind::Cuts => &CUTS,
            TableKind::Pauses => &PAUSES,
            TableKind::Replays => &REPLAYS,
        }
    }
}

/// The keys that a table of a kind may have: a caller can tell the nearest one of an unknown key.
#[tactic(auto, unfolding(crate::specs::Fields::link_fields, crate::specs::Fields::burst_fields, crate::specs::Fields::cut_fields, crate::specs::Fields::pause_fields, crate::specs::Fields::replay_fields))]
pub fn keys_of(kind: TableKind) -> &'static [&'static str]
    ensures { map (λ key. key.now) result.now ≡ keys_in kind }
{
    match kind {
        TableKind::Links => &["from", "to", "both", "min", "max", "loss"],
        TableKind::Bursts => &["from", "to", "both", "gap", "length"],
        TableKind::Cuts => &["between", "gap", "length"],
        TableKind::Pauses => &["processes", "gap", "length"],
        TableKind::Replays => &["from", "to", "both", "lasts", "outages"],
    }
}
