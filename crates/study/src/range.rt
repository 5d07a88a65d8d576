//! Ranges of integers.
ghost use Rattle.std.specs.Prelude.{◌≡◌, pos, ◌≤ℤ◌, true};
ghost use Rattle.study.specs.Words.{is_integer};

/// The words of a range, each of them an integer.
#[derive(Clone, Copy)]
pub(crate) struct RangeWords<'a> {
    pub(crate) low: &'a str,
    pub(crate) high: &'a str,
    pub(crate) step: &'a str,
    ghost low_integer: { is_integer low.now ≡ true },
    ghost high_integer: { is_integer high.now ≡ true },
    ghost step_integer: { is_integer step.now ≡ true },
}

/// A range with a step from 1, and with at least one number.
#[derive(Clone, Copy)]
pub(crate) struct Range {
    pub(crate) low: i64,
    pub(crate) high: i64,
    pub(crate) step: i64,
    ghost rises: { pos 1 ≤ℤ step },
    ghost some: { low ≤ℤ high },
}
