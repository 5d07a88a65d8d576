//! Values that keys of the files have in all runs.

use crate::key::Key;
use toml::Value;

/// A key of the files with the value that it is set to for all runs.
#[derive(Drop)]
pub struct Assignment {
    /// The key.
    pub key: Key,
    /// The value, of any kind.
    pub value: Value,
}
