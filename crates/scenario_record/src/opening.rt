//! Openings: the settings with which processes open.
ghost use Rattle.std.specs.{Prelude.{◌≡◌, ◌≤◌, not, is_some}, Option.{ForSome}};
ghost use Rattle.process_api.specs.Place.{last_tick, most_processes, most_ticks};
ghost use Rattle.scenario_record.specs.Ranges.{AreInRange, AreInRange-prop, is_idle};

use crate::algorithm::AlgorithmKind;
use process_api::{DetectorNumbers, Pid};

/// What one process opens with. Its mind is `mind_of` of this (`specs/Opening.antt`).
#[derive(Clone, Copy, Debug, PartialEq, Eq)]
pub struct Opening {
    /// The process's own number.
    pub own: Pid,
    /// How many processes there are, 1 to [`process_api::MOST_PROCESSES`].
    pub processes: u16,
    /// The tick at which the run ends, 1 to 10,000,000.
    pub horizon: u32,
    /// The numbers of its detector.
    pub detector: DetectorNumbers,
    /// Ticks between two shares of its reduction, 1 to 1,000,000; none where there is no reduction.
    pub share: Option<u32>,
    /// The algorithm that it runs.
    pub algorithm: AlgorithmKind,
    /// What it proposes; none just where it runs no algorithm.
    pub proposal: Option<u32>,
    ghost one_of_them: { own ≤ processes },
    ghost few: { processes ≤ most_processes },
    ghost lasts: { (1 ≤ horizon) × (horizon ≤ last_tick) },
    ghost numbers: { AreInRange detector } by { AreInRange-prop detector },
    ghost shares: { ForSome share (λ period. (1 ≤ period) × (period ≤ most_ticks)) },
    ghost proposes: { is_some proposal ≡ not (is_idle algorithm) },
}
