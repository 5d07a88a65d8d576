//! Axes of a grid.
ghost use Rattle.std.specs.Prelude.{◌≡◌, ◌≤◌, length, All};

use crate::key::Key;
use crate::setting::Setting;

/// A key with the values that it is set to, one after the other; or several keys that are tied: each value sets all of
/// them.
#[derive(Drop)]
pub struct Axis {
    /// The keys, at least one.
    pub keys: Vec<Key>,
    /// The values, at least one: each has one setting for each key, in their order.
    pub values: Vec<Vec<Setting>>,
    ghost keyed: { 1 ≤ length keys.items },
    ghost some: { 1 ≤ length values.items },
    ghost matched: { All (λ v. length v.items ≡ length keys.items) values.items },
}

/// What one key of an axis is set to.
#[derive(Clone, Copy)]
pub struct Choice<'a> {
    /// The key.
    pub key: &'a Key,
    /// The value.
    pub value: &'a Setting,
}
