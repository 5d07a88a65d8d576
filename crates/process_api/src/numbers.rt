//! The numbers of a detector, and the bounds of ticks and of counts.
ghost use Rattle.std.specs.Prelude.{◌≡◌, ◌≢◌, ◌≤◌, true};
ghost use Rattle.process_api.specs.Place.{is_watched};

use crate::pid::Pid;

/// The most ticks that a delay, a period, a time-out or the lookahead may have.
pub const MOST_TICKS: u32 = 1_000_000;

/// The last tick that a horizon, a crash or an outage may have.
pub const LAST_TICK: u32 = 10_000_000;

/// The greatest number of a heartbeat or of a freshness point: counting stays there.
pub const GREATEST_COUNT: u64 = 1_000_000_000_000;

/// Whom a detector watches.
#[derive(Clone, Copy, Debug, PartialEq, Eq)]
pub enum Watch {
    /// All other processes.
    All,
    /// The next process alone, in the circle of 1 to n; nobody where n is 1.
    Next,
}

impl Watch {
    /// Whether process `own` of `processes` watches process `q`: another of 1 to n, and under `Next` the next one in
    /// their circle.
    pub fn takes_in(self, own: Pid, processes: u16, q: Pid) -> bool
        ensures value { result ≡ is_watched own processes self q }
        ensures known { result ≡ true → q ≤ processes }
        ensures other { result ≡ true → q ≢ own }
    {
        if q.number() > processes || q == own {
            return false;
        }
        match self {
            Watch::All => true,
            Watch::Next => q.number() == own.number() % processes + 1,
        }
    }
}

/// The numbers of a base detector, which say its kind too.
#[derive(Clone, Copy, Debug, PartialEq, Eq)]
pub enum DetectorNumbers {
    /// The time-out detector.
    Timeout(TimeoutNumbers),
    /// The detector with freshness points.
    Freshness(FreshnessNumbers),
}

/// The numbers of the time-out detector, each 1 to [`MOST_TICKS`] in an accepted scenario.
#[derive(Clone, Copy, Debug, PartialEq, Eq)]
pub struct TimeoutNumbers {
    /// Ticks between two rounds of Alive letters.
    pub period: u32,
    /// Ticks between two checks.
    pub check: u32,
    /// With how many ticks of silence a watched process becomes suspected, before any bound has grown.
    pub timeout: u32,
    /// By how many ticks a bound grows after a mistaken suspicion.
    pub grow: u32,
    /// Whom the detector watches.
    pub watch: Watch,
}

/// The numbers of the detector with freshness points, each 1 to [`MOST_TICKS`] in an accepted scenario.
#[derive(Clone, Copy, Debug, PartialEq, Eq)]
pub struct FreshnessNumbers {
    /// Ticks between two heartbeats, and between two freshness points.
    pub eta: u32,
    /// How many ticks a heartbeat's freshness point lies after the tick at which it is sent.
    pub delta: u32,
    /// Whom the detector watches.
    pub watch: Watch,
}
