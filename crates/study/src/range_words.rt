//! Ranges of integers, as arguments of a command line.
ghost use Rattle.std.specs.Prelude.{◌≡◌, ◌≤◌, ◌&&◌, None, Some, IfOk, IfErr, MatchOption};
ghost use Rattle.study.specs.{AxisWords.{high_word, step_word, range_said, range_fault, steps as steps_between, number_after}, Inside.AxisWords.{range_by, range_of}};

use crate::error::AxisError;
use crate::range::{Range, RangeWords};
use crate::words::{bounds_in, integer_in, is_integer_word};

/// The words of a range's end and of its step, which is 1 where none is said.
fn end_and_step(words: &str) -> (&str, &str)
    ensures end { result.0.now ≡ high_word words.now }
    ensures step { result.1.now ≡ step_word words.now }
{
    match words.split_once(':') {
        Some(parts) => parts,
        None => (words, "1"),
    }
}

/// The words of a range: `A..=B` or `A..=B:STEP`.
#[tactic(auto, using(crate::proofs::Pieces::said_made))]
pub(crate) fn range_words(word: &str) -> Option<RangeWords<'_>>
    ensures { MatchOption result (range_said word.now ≡ None) (λ r. range_said word.now ≡ Some (range_by r)) }
{
    let (low, rest) = bounds_in(word)?;
    let (high, step) = end_and_step(rest);
    if is_integer_word(low) && is_integer_word(high) && is_integer_word(step) {
        Some(RangeWords { low, high, step })
    } else {
        None
    }
}

/// The range of some words.
pub(crate) fn read_range(words: RangeWords<'_>) -> Result<Range, AxisError>
    ensures ok { IfOk result (λ r. (range_fault (range_by words.entry) ≡ None)
        × (range_of r ≡ range_by words.entry)) }
    ensures err { IfErr result (λ e. range_fault (range_by words.entry) ≡ Some e) }
{
    let (Some(low), Some(high), Some(step)) = (
        integer_in(words.low),
        integer_in(words.high),
        integer_in(words.step),
    ) else {
        return Err(AxisError::NumberTooLarge);
    };
    if step < 1 {
        return Err(AxisError::StepTooLow);
    }
    if high < low {
        return Err(AxisError::EmptyRange);
    }
    Ok(Range { low, high, step })
}

impl Range {
    /// How many steps there are.
    pub(crate) fn steps(self) -> u64
        ensures { result ≡ steps_between (range_of self) }
    {
        self.high.abs_diff(self.low) / self.step.unsigned_abs()
    }

    /// The number after so many steps.
    pub(crate) fn number(self, step: u64) -> i64
        requires { step ≤ steps_between (range_of self) }
        ensures { result ≡ number_after (range_of self) step }
    {
        (i128::from(self.low) + i128::from(step * self.step.unsigned_abs())) as i64
    }
}
