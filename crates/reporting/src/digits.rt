//! The digits of a number.
ghost use Rattle.std.specs.Prelude.{◌≡◌, ◌≤◌, decimal, drop};
ghost use Rattle.reporting.specs.Inside.Plain.{IsPlain};

use itoa::{Buffer, write_digits};
use std::marker::Model;

/// How many digits a number has at most.
const MOST_DIGITS: usize = 20;

/// The digits, formed in the buffer.
pub(crate) fn digits_of<'a>(buffer: &'a mut Buffer, number: u64) -> &'a str
    ensures text { result.now ≡ decimal number }
    ensures plain { IsPlain result.now }
{
    buffer.format(number)
}

/// Forms the digits at the end of the bytes, and answers where they start.
#[inline(never)]
fn form_digits(number: u64, bytes: &mut [u8; MOST_DIGITS]) -> usize
    ensures within { result ≤ 20 }
    ensures digits { drop result bytes.new ≡ decimal number }
    ensures plain { IsPlain (decimal number) }
{
    write_digits(number, bytes, MOST_DIGITS)
}

/// A number and its digits. They are formed anew only where another number takes its place: in most columns of a trace
/// most rows have the number of the row before.
#[derive(Drop)]
pub(crate) struct Digits {
    number: u64,
    /// The digits stand at the end.
    bytes: [u8; MOST_DIGITS],
    start: usize,
}

impl Model for Digits {
    ghost use Rattle.std.specs.Prelude.{◌≡◌, ◌≤◌, ℕ, decimal, drop};
    ghost use Rattle.reporting.specs.Inside.Plain.{IsPlain};

    ghost Value = { ℕ };

    ghost view = { λ d. d.number };

    ghost invariant = { λ d. (d.start ≤ 20) × (drop d.start d.bytes ≡ decimal d.number) × IsPlain (decimal d.number) };
}

impl Digits {
    /// The number 0.
    pub(crate) fn new() -> Digits {
        let mut bytes = [0; MOST_DIGITS];
        let start = form_digits(0, &mut bytes);
        Digits {
            number: 0,
            bytes,
            start,
        }
    }

    /// Puts another number in its place, or the same.
    #[inline(always)]
    pub(crate) fn give(&mut self, number: u64)
        ensures { self.new ≡ number }
    {
        if number != self.number {
            self.start = form_digits(number, &mut self.bytes);
            self.number = number;
        }
    }

    /// The number's digits.
    #[inline(always)]
    pub(crate) fn text(&self) -> &[u8]
        ensures text { result.now ≡ decimal self.now }
        ensures plain { IsPlain result.now }
    {
        &self.bytes[self.start..]
    }
}
