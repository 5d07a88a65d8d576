//! Keys, as arguments of a command line.
ghost use Rattle.std.specs.{Prelude.{◌≡◌, ◌<◌, ◌++◌, ◌∷◌, false, codes, string_bytes, true, IfOk, IfErr, MatchOption}, List.{list_all}};
ghost use Rattle.study.specs.{Settings.{path_of, key_text, file_path_of, file_key_text}, KeyWords.{is_name_byte, is_name, IsPlace, IsPlaceOf, IsInArray, HasFileNames, HasNames, SaysKey, SaysNoKey, is_memory}};
ghost use Rattle.study.specs.Inside.Private.{is_place, HasNoPlace, IsListed, IsOwner, IsNetworkText};

use crate::error::KeyError;
use crate::file_key::FileKey;
use crate::key::Key;
use crate::words::{is_natural_word, natural_in};
use std::alloc::Global;

/// Whether all bytes may stand in a name: letters, digits, `_` and `-`.
fn are_bytes_of_name(bytes: &[u8]) -> bool
    ensures { result ≡ list_all is_name_byte bytes.now }
{
    bytes.iter().all(|byte| byte.is_ascii_alphanumeric() || *byte == b'_' || *byte == b'-')
}

/// Whether a word is a name: a key that needs no quotes in TOML.
fn is_name_word(word: &str) -> bool
    ensures { result ≡ is_name word.now }
{
    !word.is_empty() && are_bytes_of_name(word.as_bytes())
}

/// Whether a word is a natural number from 1 with no 0 in front.
fn is_place_word(word: &str) -> bool
    ensures { result ≡ is_place word.now }
{
    word.as_bytes().first() != Some(&b'0') && is_natural_word(word)
}

/// The place of a table before a closing bracket.
fn place_in(word: &str) -> Option<u64>
    ensures { MatchOption result (HasNoPlace word.now) (IsPlaceOf word.now) }
{
    let digits = word.strip_suffix(']')?;
    if is_place_word(digits) {
        natural_in(digits)
    } else {
        None
    }
}

/// A name.
fn name_in(alloc: Global, word: &str) -> Result<String, KeyError>
    ensures ok { IfOk result (λ s. (string_bytes s ≡ word.now) × (is_name word.now ≡ true)) }
    ensures err { IfErr result (λ e. is_memory e ≡ false → (e ≡ KeyError.NoKey) × (is_name word.now ≡ false)) }
{
    if !is_name_word(word) {
        return Err(KeyError::NoKey);
    }
    String::from_str(alloc, word).map_err(KeyError::Memory)
}

/// The key of a table of an array, or of all of them: by what stands before the array's bracket, between it and the
/// dot, and after the dot.
fn listed_key(alloc: Global, array: &str, place: &str, key: &str) -> Result<FileKey, KeyError>
    ensures text { IfOk result
        (λ k. (array.now ++ (91 ∷ place.now)) ++ (46 ∷ key.now) ≡ file_key_text (file_path_of k)) }
    ensures names { IfOk result (λ k. IsInArray (file_path_of k) × HasFileNames (file_path_of k)) }
    ensures err { IfErr result (λ e. is_memory e ≡ false → (e ≡ KeyError.NoKey)
        × (is_name array.now ≡ true → IsPlace place.now → is_name key.now ≡ false)) }
{
    let key = name_in(alloc, key)?;
    let array = name_in(alloc, array)?;
    if place == "*]" {
        return Ok(FileKey::Every { array, key });
    }
    match place_in(place) {
        Some(place) => Ok(FileKey::Element { array, place, key }),
        None => Err(KeyError::NoKey),
    }
}

/// The key of a table of the scenario's file, by what stands before and after its dot.
fn owned_key(alloc: Global, owner: &str, key: &str) -> Result<FileKey, KeyError>
    ensures text { IfOk result (λ k. owner.now ++ (46 ∷ key.now) ≡ file_key_text (file_path_of k)) }
    ensures names { IfOk result (λ k. HasFileNames (file_path_of k)) }
    ensures err { IfErr result (λ e. is_memory e ≡ false
        → (e ≡ KeyError.NoKey) × (IsOwner owner.now → is_name key.now ≡ false)) }
{
    match owner.split_once('[') {
        None => {
            let key = name_in(alloc, key)?;
            let table = name_in(alloc, owner)?;
            Ok(FileKey::Inner { table, key })
        }
        Some((array, place)) => listed_key(alloc, array, place, key),
    }
}

/// The key of the network's file, by what stands before and after its dot.
fn network_key(alloc: Global, owner: &str, key: &str) -> Result<FileKey, KeyError>
    ensures text { IfOk result (λ k. owner.now ++ (46 ∷ key.now) ≡ file_key_text (file_path_of k)) }
    ensures names { IfOk result (λ k. IsInArray (file_path_of k) × HasFileNames (file_path_of k)) }
    ensures err { IfErr result (λ e. is_memory e ≡ false
        → (e ≡ KeyError.NoKey) × (IsListed owner.now → is_name key.now ≡ false)) }
{
    match owner.split_once('[') {
        None => Err(KeyError::NoKey),
        Some((array, place)) => listed_key(alloc, array, place, key),
    }
}

/// The key whose word has a dot, by what stands before and after its first one.
fn dotted_key(alloc: Global, owner: &str, rest: &str) -> Result<Key, KeyError>
    ensures text { IfOk result (λ k. owner.now ++ (46 ∷ rest.now) ≡ key_text (path_of k)) }
    ensures names { IfOk result (λ k. HasNames (path_of k)) }
    ensures no_scenario { IfErr result (λ e. is_memory e ≡ false
        → (e ≡ KeyError.NoKey) × (IsOwner owner.now → is_name rest.now ≡ false)) }
    ensures no_network { IfErr result (λ e. is_memory e ≡ false
        → owner.now ≡ codes "network" → IsNetworkText rest.now → ⊥) }
{
    match rest.split_once('.') {
        None => {
            let key = owned_key(alloc, owner, rest)?;
            Ok(Key::Scenario(key))
        }
        Some((array, key)) => {
            if owner != "network" {
                return Err(KeyError::NoKey);
            }
            let key = network_key(alloc, array, key)?;
            Ok(Key::Network(key))
        }
    }
}

impl Key {
    /// The key that a word says: `horizon`, `detector.timeout`, `crash[1].at`, where the first table is 1, or
    /// `crash[*].at`, of every table; of the network's file `network.bursts[1].gap` or `network.bursts[*].gap`. Its
    /// names have letters, digits, `_` and `-`.
    ///
    /// # Errors
    ///
    /// `Seed` for `seed`, and `NoKey` where the word says no key; `Memory` at any point.
    pub fn parse(alloc: Global, word: &str) -> Result<Key, KeyError>
        ensures ok { IfOk result (λ k. SaysKey word.now (path_of k)) }
        ensures err { IfErr result (SaysNoKey word.now) }
    {
        if word == "seed" {
            return Err(KeyError::Seed);
        }
        match word.split_once('.') {
            None => {
                let key = name_in(alloc, word)?;
                Ok(Key::Scenario(FileKey::Top(key)))
            }
            Some((owner, rest)) => dotted_key(alloc, owner, rest),
        }
    }
}
