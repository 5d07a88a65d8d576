//! Estimates of the size of a run.
ghost use Rattle.std.specs.Prelude.{◌≡◌, ◌≤◌, ◌<◌, ◌*◌, ◌/◌};
ghost use Rattle.diagnosis.specs.Diagnosis.{entries_in, longest_window};

use process_api::DetectorNumbers;
use scenario::Scenario;

/// How many entries a second a run is reckoned with.
pub const ENTRIES_A_SECOND: u64 = 5_000_000;

/// The highest limit that a file can have.
pub const HIGHEST_LIMIT: u64 = 100_000_000;

/// About how much a run will be. No proof says how near this comes, and no run rests on it.
#[derive(Clone, Copy)]
pub struct Estimate {
    /// Entries of the trace.
    pub entries: u64,
    /// Seconds that the run takes, rounded up, at 5,000,000 entries a second.
    pub seconds: u64,
    /// Of these entries those of a window that is as long as may be, rounded down.
    pub in_window: u64,
}

impl Estimate {
    /// A limit that would do for the run: a quarter above its entries, as some letters are left out. It may be above
    /// the highest that a file can have.
    pub fn limit(&self) -> u64 {
        self.entries.saturating_add(self.entries / 4).max(1)
    }
}

/// Ticks of the longest window that a run may have.
pub(crate) fn window_of(scenario: &Scenario) -> u32
    ensures { result ≡ longest_window scenario.now }
{
    scenario.lookahead().min(scenario.horizon())
}

/// How many of a run's entries a window of so many ticks has.
fn in_window(entries: u64, ticks: u32, horizon: u32) -> u64
    requires some { 0 < horizon }
    requires within { ticks ≤ horizon }
    ensures { result ≡ entries_in ticks entries horizon }
{
    let product = u128::from(entries) * u128::from(ticks);
    (product / u128::from(horizon)) as u64
}

/// How often something with a period of some ticks happens below the horizon, from tick 0 on.
fn turns(horizon: u64, period: u32) -> u64 {
    (horizon / u64::from(period.max(1))).saturating_add(1)
}

/// Entries of one process's detector: its beats and its checks, and a letter of each turn of each other, whomever it
/// watches.
fn detector_entries(horizon: u64, processes: u64, detector: DetectorNumbers) -> u64 {
    let (beats, checks) = match detector {
        DetectorNumbers::Timeout(its) => (turns(horizon, its.period), turns(horizon, its.check)),
        DetectorNumbers::Freshness(its) => {
            let beats = turns(horizon, its.eta);
            (beats, beats)
        }
    };
    beats.saturating_mul(processes).saturating_add(checks)
}

/// About how much a scenario's run will be, reckoned as if no process crashed and no letter was lost or came late. Each
/// process has its start, and beats, checks and shares by their periods up to the horizon; of each beat one letter
/// comes to each other process, and of each share one to all. The letters of an algorithm are left out.
pub fn estimate_of(scenario: &Scenario) -> Estimate
    ensures { result.in_window ≡ entries_in (longest_window scenario.now) result.entries scenario.now.horizon }
{
    let horizon = u64::from(scenario.horizon());
    let processes = u64::from(scenario.processes());
    let shares = match scenario.share() {
        Some(period) => turns(horizon, period).saturating_mul(processes + 1),
        None => 0,
    };
    let entries = detector_entries(horizon, processes, scenario.detector())
        .saturating_add(shares)
        .saturating_add(1)
        .saturating_mul(processes);
    Estimate {
        entries,
        seconds: entries.div_ceil(ENTRIES_A_SECOND),
        in_window: in_window(entries, window_of(scenario), scenario.horizon()),
    }
}
