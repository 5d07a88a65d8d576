//! Counts, and the greatest number that came.
ghost use Rattle.std.specs.{Prelude.{◌≡◌, ℕ, false, nat_le, ◌||◌}, Option.{option_map_or}};
ghost use Rattle.process_api.specs.Freshness as freshness;

use process_api::GREATEST_COUNT;

/// The number of the next heartbeat, or of the next point. They are counted up to [`GREATEST_COUNT`], and stay there;
/// no scenario reaches it.
pub(crate) fn next(count: u64) -> u64
    ensures { result ≡ freshness.next count }
{
    count.saturating_add(1).min(GREATEST_COUNT)
}

/// Whether a number of `i` or more came, by the greatest that did.
pub(crate) fn has_come(latest: Option<u64>, i: u64) -> bool
    ensures { result ≡ option_map_or (nat_le i) latest false }
{
    match latest {
        Some(number) => i <= number,
        None => false,
    }
}

/// The greatest number that came, once another did.
pub(crate) fn greatest(latest: Option<u64>, number: u64) -> Option<u64>
    ensures { (i : ℕ) → option_map_or (nat_le i) result false
        ≡ (nat_le i number || option_map_or (nat_le i) latest false) }
{
    match latest {
        Some(earlier) => Some(earlier.max(number)),
        None => Some(number),
    }
}
