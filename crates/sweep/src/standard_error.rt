//! The standard error of a sum.
ghost use Rattle.std.specs.Prelude.{◌≡◌, ◌+◌, ◌*◌, ◌≤◌, ℕ};
ghost use Rattle.sweep.specs.ColumnTable.{mistakes_error, standard_error};

use crate::columns::LayerSums;

/// The least number whose square is at least the sum of two numbers. With h the root of a quarter of it, rounded down,
/// that is 2h, 2h + 1 or 2h + 2.
fn root_over(first: u128, second: u128) -> u128
    ensures enough { first + second ≤ result * result }
    ensures least { (e : ℕ) → first + second ≤ e * e → result ≤ e }
{
    let low = first % 4 + second % 4;
    let quarter = first / 4 + second / 4 + low / 4;
    let half = quarter.isqrt();
    let rest = (quarter - half * half) * 4 + low % 4;
    if rest == 0 {
        half * 2
    } else if rest <= half * 4 + 1 {
        half * 2 + 1
    } else {
        half * 2 + 2
    }
}

/// The standard error of the sum of the numbers of so many runs, whose squares add up to this; none of fewer than two.
///
/// With m the mean, rounded down, and r what is left over, `spread` adds up the squares of the numbers' distances from
/// m, and the error's square times `others` is at least `spread` times `runs` less r squared.
fn standard_error(runs: u64, sum: u128, squares: u128) -> Option<u128>
    ensures { result ≡ standard_error runs sum squares }
{
    if runs < 2 {
        return None;
    }
    let (runs, others) = (u128::from(runs), u128::from(runs - 1));
    let (mean, rest) = (sum / runs, sum % runs);
    let spread = squares
        .saturating_sub(mean.saturating_mul(sum))
        .saturating_sub(mean.saturating_mul(rest));
    let square = rest * rest;
    let more = spread / others + u128::from(square % others < spread % others);
    let less = square / others;
    Some(root_over(
        spread.saturating_sub(less),
        more.saturating_sub(less.saturating_sub(spread)),
    ))
}

/// The standard error of the mistakes, over the runs that are done.
pub(crate) fn mistakes_error(sums: &LayerSums) -> Option<u128>
    ensures { result ≡ mistakes_error sums.now }
{
    let done = sums.runs.saturating_sub(sums.limited);
    standard_error(done, sums.pairs.mistakes, sums.mistakes_squared_sum)
}
