//! The text about a refused file, behind its refusal's name.

use scenario::Finding;

/// Where a text stops being TOML.
#[derive(Clone, Copy)]
pub struct NotToml<'a> {
    /// The line, from 1.
    pub line: usize,
    /// The column, in characters, from 1.
    pub column: usize,
    /// What is wrong there.
    pub message: &'a str,
}

/// What breaks the rule.
#[derive(Clone, Copy)]
pub struct Told<'a> {
    /// What is wrong, and where.
    pub finding: &'a Finding<'a>,
    /// Of a key that isn't one of its table's, one of the nearest that are, if one is near enough.
    pub meant: Option<&'static str>,
}
