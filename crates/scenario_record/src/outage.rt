//! Outages.

/// A time during which a link loses all letters that are sent on it.
#[derive(Clone, Copy, Debug, PartialEq, Eq)]
pub struct Outage {
    /// The first tick of it, 0 to 9,999,999.
    pub begin: u32,
    /// The first tick after it, above `begin`, at most 10,000,000.
    pub until: u32,
}
