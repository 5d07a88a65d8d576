//! Multiples of a period, among ticks.
ghost use Rattle.std.specs.Prelude.{◌≡◌, ◌≤◌, ◌<◌, ◌+◌, ◌-◌, ◌*◌, ◌^◌};
ghost use Rattle.detector_bounds.specs.Detected.{last_before, multiple_from};

/// The greatest number whose multiple of the period lies before a tick; 0 where there is none.
pub(crate) fn last_before(period: u32, tick: u32) -> u64
    requires { 1 ≤ period }
    ensures value { result ≡ last_before period tick }
    ensures before { result * period ≤ tick - 1 }
{
    u64::from(tick.saturating_sub(1) / period)
}

/// The least multiple of the period that isn't before a tick.
pub(crate) fn multiple_from(period: u32, tick: u64) -> u64
    requires low { 1 ≤ period }
    requires high { tick < 2 ^ 63 }
    ensures value { result ≡ multiple_from period tick }
    ensures soon { result ≤ tick + (period - 1) }
{
    let period = u64::from(period);
    (tick + (period - 1)) / period * period
}
