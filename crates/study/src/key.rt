//! Keys of a study's files.
ghost use Rattle.std.specs.{Prelude.{◌≡◌, ◌≤◌, map, take, drop, length, option_map, string_bytes, IfOk}, List.{list_any}};
ghost use Rattle.study.specs.{Settings.{path_of, key_text}, Grid.{meets, first_again as again}};

use crate::file_key::FileKey;
use std::alloc::{AllocError, Global};
use std::fmt;

/// A key of a study's files.
#[derive(Drop)]
pub enum Key {
    /// A key of the scenario's file, as `horizon`.
    Scenario(FileKey),
    /// A key of the network's file, as `network.bursts[1].gap`.
    Network(FileKey),
}

impl Key {
    /// The key as it is written: `horizon`, `detector.timeout`, `crash[1].at`, `crash[*].at`; one of the network's file
    /// as `network.bursts[1].gap`.
    pub fn text(&self, alloc: Global) -> Result<String, AllocError>
        ensures { IfOk result (λ s. string_bytes s ≡ key_text (path_of self.now)) }
    {
        self.to_string(alloc)
    }

    /// Whether there may be a key of a table that both set: they are written alike, or one of them names every table of
    /// the other's array.
    pub fn meets(&self, other: &Key) -> bool
        ensures { result ≡ meets (path_of self.now) (path_of other.now) }
    {
        match (self, other) {
            (Key::Scenario(key), Key::Scenario(other_key))
            | (Key::Network(key), Key::Network(other_key)) => key.meets(other_key),
            _ => false,
        }
    }
}

impl fmt::Display for Key {
    ghost use Rattle.{std.specs.Prelude.{Some}, study.specs.Settings.{path_of, key_text}};

    ghost output = { λ k. Some (key_text (path_of k)) };

    fn fmt<W: fmt::Write>(&self, f: &mut fmt::Formatter<W>) -> fmt::Result {
        match self {
            Key::Scenario(key) => write!(f, "{key}"),
            Key::Network(key) => write!(f, "network.{key}"),
        }
    }
}

/// Whether one of the keys meets this one.
fn meets_any(keys: &[&Key], key: &Key) -> bool
    ensures { result ≡ list_any (meets (path_of key.now)) (map (λ k. path_of k.now) keys.now) }
{
    for other in keys {
        if key.meets(other) {
            return true;
        }
    }
    false
}

/// The first of the keys, from a place on, that meets one before it.
pub(crate) fn first_again<'a>(keys: &[&'a Key], from: usize) -> Option<&'a Key>
    requires { from ≤ length keys.now }
    ensures { option_map (λ k. path_of k.now) result
        ≡ again (map (λ k. path_of k.now) (take from keys.now)) (map (λ k. path_of k.now) (drop from keys.now)) }
{
    for i in from..keys.len() {
        let key = keys[i];
        if meets_any(&keys[..i], key) {
            return Some(key);
        }
    }
    None
}
