//! How bounds grow.
ghost use Rattle.std.specs.Prelude.{◌≡◌, ◌+◌, max, min};

/// A bound, in ticks, after one more mistake: longer by `grow`, but grown no further than the horizon, at which the
/// run ends. A bound never shrinks.
pub(crate) fn grown(bound: u32, grow: u32, horizon: u32) -> u32
    ensures { result ≡ max bound (min (bound + grow) horizon) }
{
    bound.max(bound.saturating_add(grow).min(horizon))
}
