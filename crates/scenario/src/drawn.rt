//! Outages that are drawn.

use process_api::Pid;

/// A time during which a link loses all letters that are sent on it: what a table of `outage` says. One that is out of
/// range is refused when a scenario is read with it, as its table would be.
#[derive(Clone, Copy, Debug, PartialEq, Eq)]
pub struct LinkOutage {
    /// The sender.
    pub from: Pid,
    /// The receiver.
    pub to: Pid,
    /// The first tick of it, 0 to 9,999,999.
    pub begin: u32,
    /// The first tick after it, above `begin`, at most 10,000,000.
    pub until: u32,
}
