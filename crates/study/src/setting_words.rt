//! The value to which a key is set, as an argument of a command line.
ghost use Rattle.std.specs.Prelude.{◌≡◌, ◌∷◌, [], None, IfOk, IfErr, MatchOption};
ghost use Rattle.study.specs.{Settings.{given_by}, Inside.AxisWords.{range_by}, AxisWords.{range, piece_said, piece_fault, part_fault, values, IsFault}};

use crate::error::AxisError;
use crate::range::RangeWords;
use crate::range_words::range_words;
use crate::setting::Setting;
use crate::words::{integer_in, is_integer_word};
use std::alloc::Global;

/// The words of the range that a word says, if it says one.
pub(crate) fn range_in(word: &str) -> Option<RangeWords<'_>>
    ensures { MatchOption result (part_fault (piece_said word.now) ≡ piece_fault (piece_said word.now))
        (λ r. piece_said word.now ≡ range (range_by r)) }
{
    if is_integer_word(word) {
        None
    } else {
        range_words(word)
    }
}

/// What a word that says no range sets a key to.
pub(crate) fn read_setting(alloc: Global, word: &str) -> Result<Setting, AxisError>
    ensures ok { IfOk result (λ s. (part_fault (piece_said word.now) ≡ None)
        × (values (piece_said word.now) ≡ given_by s ∷ [])) }
    ensures err { IfErr result (IsFault (part_fault (piece_said word.now))) }
{
    if is_integer_word(word) {
        return match integer_in(word) {
            Some(number) => Ok(Setting::Integer(number)),
            None => Err(AxisError::NumberTooLarge),
        };
    }
    if range_words(word).is_some() {
        return Err(AxisError::TiedRange);
    }
    if word.is_empty() {
        return Err(AxisError::NoValue);
    }
    let text = String::from_str(alloc, word).map_err(AxisError::Memory)?;
    Ok(Setting::Text(text))
}
