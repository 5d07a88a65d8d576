//! The table of a run, before its drawn outages are put there.

use network::LinkOutage;
use toml::Table;

/// A run's table, over which its network's links are laid, and the outages that the network draws besides.
#[derive(Drop)]
pub(crate) struct LaidRun {
    pub(crate) table: Table,
    pub(crate) outages: Vec<LinkOutage>,
}
