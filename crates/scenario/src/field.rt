//! The keys that a table may have.

/// The kind of a key's value.
#[derive(Clone, Copy)]
pub enum Kind {
    /// An integer.
    Number,
    /// A text.
    Text,
    /// An array of integers.
    Numbers,
    /// A table.
    Table,
    /// An array of tables.
    Tables,
}

/// A key that a table may have.
#[derive(Clone, Copy)]
pub struct Field {
    /// The key.
    pub key: &'static str,
    /// The kind of its value.
    pub kind: Kind,
    /// Whether the key must be there.
    pub needed: bool,
}
