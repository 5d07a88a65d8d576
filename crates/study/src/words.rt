//! Numbers and bounds, as arguments of a command line.
ghost use Rattle.std.specs.{Prelude.{◌≡◌, ◌≤◌, ◌<◌, ◌^◌, true, false, length, map, IfOk, MatchOption, option_map}, Char.{is_ascii_digit}, List.{list_all}};
ghost use Rattle.study.specs.Words.{between, is_natural, is_integer, natural, integer, fits, bounds};

use std::alloc::{AllocError, Global};

/// The words between all places at which this character stands, which is one of ASCII.
///
/// # Errors
///
/// `AllocError` where memory was refused.
pub fn words_between(alloc: Global, words: &str, mark: char) -> Result<Vec<&str>, AllocError>
    requires { mark < 128 }
    ensures value { IfOk result (λ v. map (λ x. x.now) v.items ≡ between mark words.now) }
    ensures some { IfOk result (λ v. 1 ≤ length v.items) }
{
    words.split(mark).collect(alloc)
}

/// Whether all bytes are decimal digits.
fn are_digits(bytes: &[u8]) -> bool
    ensures { result ≡ list_all is_ascii_digit bytes.now }
{
    bytes.iter().all(|byte| byte.is_ascii_digit())
}

/// Whether a word is a natural number: decimal digits, at least one.
pub fn is_natural_word(word: &str) -> bool
    ensures { result ≡ is_natural word.now }
{
    !word.is_empty() && are_digits(word.as_bytes())
}

/// A natural number, if 64 bits hold it.
#[tactic(auto, using(crate::proofs::Numerals::natural_read))]
pub fn natural_in(word: &str) -> Option<u64>
    requires { is_natural word.now ≡ true }
    ensures { MatchOption result (2 ^ 64 ≤ natural word.now) (λ n. (n ≡ natural word.now) × (n < 2 ^ 64)) }
{
    word.parse::<u64>().ok()
}

/// A natural number, if it is at most this one.
pub(crate) fn natural_up_to(word: &str, most: u64) -> Option<u64>
    requires { is_natural word.now ≡ true }
    ensures { MatchOption result (most < natural word.now) (λ n. (n ≡ natural word.now) × (n ≤ most)) }
{
    natural_in(word).filter(|number| *number <= most)
}

/// Whether a word is an integer: a natural number, after a minus sign or none.
pub(crate) fn is_integer_word(word: &str) -> bool
    ensures { result ≡ is_integer word.now }
{
    match word.strip_prefix('-') {
        Some(digits) => is_natural_word(digits),
        None => is_natural_word(word),
    }
}

/// An integer, if 64 bits with a sign hold it.
pub(crate) fn integer_in(word: &str) -> Option<i64>
    requires { is_integer word.now ≡ true }
    ensures { MatchOption result (fits (integer word.now) ≡ false)
        (λ z. (fits z ≡ true) × (z ≡ integer word.now)) }
{
    word.parse::<i64>().ok()
}

/// What stands before and after `..=`, where a word has that at its first dot.
pub(crate) fn bounds_in(word: &str) -> Option<(&str, &str)>
    ensures { option_map (λ b. (b.0.now, b.1.now)) result ≡ bounds word.now }
{
    let (low, rest) = word.split_once('.')?;
    let high = rest.strip_prefix(".=")?;
    Some((low, high))
}
