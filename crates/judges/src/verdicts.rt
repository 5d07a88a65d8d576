//! Verdicts on the detectors of a run.
ghost use Rattle.std.specs.Prelude.{◌≡◌, ◌≤◌, IfOk};
ghost use Rattle.judges.specs.Verdicts.{verdicts, AreVerdicts};

use crate::running::RunningJudge;
use process_api::{Trace, follow_all};
use scenario_record::Scenario;
use std::alloc::{AllocError, Global};

/// The verdicts on one layer, after Chandra and Toueg (Journal of the ACM 43(2), 1996), cut at the horizon.
///
/// Crashed processes are those with a crash tick below the horizon, correct ones the others. A tick is the least from
/// which on, up to the last tick below the horizon, the property holds; none where there is no such tick.
#[derive(Clone, Copy, Debug, PartialEq, Eq)]
pub struct Verdicts {
    /// From when on every correct process suspects every crashed one, in ticks.
    pub strong_completeness: Option<u32>,
    /// From when on every crashed process is suspected by some correct one, in ticks.
    pub weak_completeness: Option<u32>,
    /// Whether at no tick a process that hasn't crashed yet suspects one that hasn't crashed yet.
    pub strong_accuracy: bool,
    /// Whether some correct process is never suspected by a process that hasn't crashed yet.
    pub weak_accuracy: bool,
    /// From when on no correct process suspects a correct one, in ticks.
    pub eventual_strong_accuracy: Option<u32>,
    /// From when on some one correct process isn't suspected by any correct one, in ticks.
    pub eventual_weak_accuracy: Option<u32>,
}

/// The verdicts on a layer of a finished trace: layer 1 is the base detector, layer 2 the reduction's output.
///
/// # Errors
///
/// Where a growth was refused.
pub fn judge(
    alloc: Global,
    scenario: &Scenario,
    trace: &Trace,
    layer: u8,
) -> Result<Verdicts, AllocError>
    requires { (1 ≤ layer) × (layer ≤ 2) }
    ensures value { IfOk result (λ v. v ≡ verdicts scenario.now trace.now layer) }
    ensures meaning { IfOk result (λ v. AreVerdicts scenario.now trace.now layer v) }
{
    let mut judge = RunningJudge::open(alloc, scenario, layer)?;
    follow_all(&mut judge, trace.entries())?;
    Ok(judge.close())
}
