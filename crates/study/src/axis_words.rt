//! Axes, as arguments of a command line.
ghost use Rattle.std.specs.{Prelude.{◌≡◌, ◌<◌, ◌≤◌, ◌++◌, ◌∷◌, [], false, None, IfOk, OnOk, IfErr, map, length}, List.{AllZip}};
ghost use Rattle.study.specs.{Settings.{given_by, settings_in, path_of}, Words.{between}, KeyWords.{SaysKey, SayNoKeys, is_memory as is_key_memory}};
ghost use Rattle.study.specs.Inside.AxisWords.{range_by, range_of, AreOfParts, AreOfEntries, AddsValue, AddsTo, CannotAdd};
ghost use Rattle.study.specs.AxisWords.{steps as steps_between, range as as_range, piece_said, parts_fault, single, tied, entry_said, rows, first_fault, entries, entries_said, SaysAxis, SaysNoAxis, is_memory, IsFault};

use crate::axis::Axis;
use crate::error::{AxisError, KeyError};
use crate::key::Key;
use crate::range::{Range, RangeWords};
use crate::range_words::read_range;
use crate::setting::Setting;
use crate::setting_words::{range_in, read_setting};
use crate::words::words_between;
use std::alloc::{AllocError, Global};

/// How many values an axis may have that words say.
const MOST_VALUES: usize = 1_000_000;

/// Values that were added, unless they can't be.
type Added = Result<(), AxisError>;

/// Adds a value, if there is room for it.
fn push_value(values: &mut Vec<Vec<Setting>>, value: Vec<Setting>) -> Added
    ensures ok { OnOk result (AddsValue (settings_in value) values.old values.new) }
    ensures err { IfErr result (λ e. is_memory e ≡ false
        → (e ≡ AxisError.TooManyValues) × (1000000 ≤ length (map settings_in values.old.items))) }
{
    if values.len() >= MOST_VALUES {
        return Err(AxisError::TooManyValues);
    }
    values
        .push(value)
        .map_err(|_| AxisError::Memory(AllocError))
}

/// A value of one key.
fn value_of(alloc: Global, setting: Setting) -> Result<Vec<Setting>, AllocError>
    ensures { IfOk result (λ v. settings_in v ≡ given_by setting ∷ []) }
{
    let mut value = Vec::new(alloc);
    value.push(setting)?;
    Ok(value)
}

/// Adds the numbers of a range.
fn push_numbers(
    alloc: Global,
    values: &mut Vec<Vec<Setting>>,
    range: Range,
) -> Result<(), AllocError>
    requires { steps_between (range_of range) < 1000000 }
    ensures { OnOk result (map settings_in values.new.items
        ≡ map settings_in values.old.items ++ rows (single (as_range (range_of range)))) }
{
    for step in 0..range.steps() + 1 {
        let value = value_of(alloc, Setting::Integer(range.number(step)))?;
        values.push(value)?;
    }
    Ok(())
}

/// Adds the numbers of a range, if there is room for them.
fn push_range(alloc: Global, values: &mut Vec<Vec<Setting>>, words: RangeWords<'_>) -> Added
    requires { length values.old.items ≤ 1000000 }
    ensures ok { OnOk result (AddsTo (single (as_range (range_by words.entry))) values.old values.new) }
    ensures err { IfErr result (CannotAdd (single (as_range (range_by words.entry))) values.old) }
{
    let range = read_range(words)?;
    if range.steps() >= (MOST_VALUES - values.len()) as u64 {
        return Err(AxisError::TooManyValues);
    }
    match push_numbers(alloc, values, range) {
        Ok(()) => Ok(()),
        Err(error) => Err(AxisError::Memory(error)),
    }
}

/// Adds the values of one key that a word says, if there is room for them.
fn push_single(alloc: Global, values: &mut Vec<Vec<Setting>>, word: &str) -> Added
    requires { length values.old.items ≤ 1000000 }
    ensures ok { OnOk result (AddsTo (single (piece_said word.now)) values.old values.new) }
    ensures err { IfErr result (CannotAdd (single (piece_said word.now)) values.old) }
{
    if let Some(words) = range_in(word) {
        return push_range(alloc, values, words);
    }
    let setting = read_setting(alloc, word)?;
    let value = value_of(alloc, setting).map_err(AxisError::Memory)?;
    push_value(values, value)
}

/// The settings of the parts of a value.
fn read_parts(alloc: Global, words: &[&str]) -> Result<Vec<Setting>, AxisError>
    ensures ok { IfOk result (λ v. AreOfParts (map piece_said (map (λ x. x.now) words.now)) (settings_in v)) }
    ensures err { IfErr result (IsFault (parts_fault (map piece_said (map (λ x. x.now) words.now)))) }
{
    let mut settings = Vec::new(alloc);
    for word in words {
        let part = read_setting(alloc, word)?;
        settings
            .push(part)
            .map_err(|_| AxisError::Memory(AllocError))?;
    }
    Ok(settings)
}

/// Adds a value of tied keys, if there is room for it.
fn push_tied(alloc: Global, values: &mut Vec<Vec<Setting>>, keys: usize, word: &str) -> Added
    ensures ok { OnOk result (AddsTo (tied keys (map piece_said (between 58 word.now))) values.old values.new) }
    ensures err { IfErr result (CannotAdd (tied keys (map piece_said (between 58 word.now))) values.old) }
{
    let words = words_between(alloc, word, ':').map_err(AxisError::Memory)?;
    if words.len() != keys {
        return Err(AxisError::PartsPerKey);
    }
    let value = read_parts(alloc, &words)?;
    push_value(values, value)
}

/// Adds the values of so many keys that a word says, if there is room for them.
fn push_entry(alloc: Global, values: &mut Vec<Vec<Setting>>, keys: usize, word: &str) -> Added
    requires { length values.old.items ≤ 1000000 }
    ensures ok { OnOk result (AddsTo (entry_said keys word.now) values.old values.new) }
    ensures err { IfErr result (CannotAdd (entry_said keys word.now) values.old) }
{
    if keys == 1 {
        push_single(alloc, values, word)
    } else {
        push_tied(alloc, values, keys, word)
    }
}

/// The values of so many keys that some words say.
fn read_entries(alloc: Global, keys: usize, words: &[&str]) -> Result<Vec<Vec<Setting>>, AxisError>
    ensures ok { IfOk result (λ v.
        AreOfEntries (entries_said keys (map (λ x. x.now) words.now)) (map settings_in v.items)) }
    ensures some { IfOk result (λ v. length words.now ≤ length v.items) }
    ensures err { IfErr result (IsFault (first_fault 1000000 (entries_said keys (map (λ x. x.now) words.now)))) }
{
    let mut values = Vec::new(alloc);
    for word in words {
        push_entry(alloc, &mut values, keys, word)?;
    }
    Ok(values)
}

/// The values of so many keys between commas, at least one.
fn read_values(alloc: Global, keys: usize, words: &str) -> Result<Vec<Vec<Setting>>, AxisError>
    ensures ok { IfOk result (λ v. AreOfEntries (entries keys words.now) (map settings_in v.items)) }
    ensures some { IfOk result (λ v. 1 ≤ length v.items) }
    ensures err { IfErr result (IsFault (first_fault 1000000 (entries keys words.now))) }
{
    let words = words_between(alloc, words, ',').map_err(AxisError::Memory)?;
    read_entries(alloc, keys, &words)
}

/// The keys that some words say.
fn read_key_words(alloc: Global, words: &[&str]) -> Result<Vec<Key>, KeyError>
    ensures ok { IfOk result (λ v. AllZip SaysKey (map (λ x. x.now) words.now) (map path_of v.items)) }
    ensures some { IfOk result (λ v. length words.now ≤ length v.items) }
    ensures err { IfErr result (λ e. is_key_memory e ≡ false → SayNoKeys (map (λ x. x.now) words.now) e) }
{
    let mut keys = Vec::new(alloc);
    for word in words {
        let key = Key::parse(alloc, word)?;
        keys.push(key).map_err(|_| KeyError::Memory(AllocError))?;
    }
    Ok(keys)
}

/// The keys between commas, at least one.
fn read_keys(alloc: Global, words: &str) -> Result<Vec<Key>, KeyError>
    ensures ok { IfOk result (λ v. AllZip SaysKey (between 44 words.now) (map path_of v.items)) }
    ensures some { IfOk result (λ v. 1 ≤ length v.items) }
    ensures err { IfErr result (λ e. is_key_memory e ≡ false → SayNoKeys (between 44 words.now) e) }
{
    let words = words_between(alloc, words, ',').map_err(KeyError::Memory)?;
    read_key_words(alloc, &words)
}

impl Axis {
    /// The axis that words say: `KEY=V,V,..`. The text before the first `=` is the key ([`Key::parse`]). Each V is an
    /// integer; a range of integers, `A..=B` or `A..=B:STEP`, which is A, A + STEP, .. up to B; or else a text. A
    /// number is decimal, after a minus sign or none, and fits 64 bits with a sign. There are at most 1,000,000 values.
    ///
    /// `KEY,KEY,..=V:V:..,V:V:..,..` ties keys: each value has a part for each of them, in their order, which is an
    /// integer or else a text.
    ///
    /// # Errors
    ///
    /// `NoEquals`; then why the first key that is none is; then why the first value that is refused is. `Memory` at any
    /// point.
    pub fn parse(alloc: Global, words: &str) -> Result<Axis, AxisError>
        ensures ok { IfOk result (SaysAxis words.now) }
        ensures err { IfErr result (λ e. is_memory e ≡ false → SaysNoAxis words.now e) }
    {
        let (keys, values) = match words.split_once('=') {
            Some(parts) => parts,
            None => return Err(AxisError::NoEquals),
        };
        let keys = match read_keys(alloc, keys) {
            Ok(keys) => keys,
            Err(error) => return Err(AxisError::Key(error)),
        };
        let values = read_values(alloc, keys.len(), values)?;
        Ok(Axis { keys, values })
    }
}
