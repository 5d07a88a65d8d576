//! Detectors that can suspect nobody before the horizon.
ghost use Rattle.std.specs.Prelude.{◌≡◌, ◌+◌, map, IfOk};
ghost use Rattle.scenario_record.specs.Ranges.{AreInRange};
ghost use Rattle.study_commands.specs.Warnings.{first_suspicion as first_suspicion_of, late_with};

use crate::first_run::FirstRun;
use process_api::DetectorNumbers;
use std::alloc::{AllocError, Global};

/// When a detector could suspect somebody, where the horizon comes before.
#[derive(Clone, Copy)]
pub(crate) struct Late {
    /// The first tick at which it could, 2 to 2,000,000.
    pub from: u32,
    /// The horizon, at most that tick.
    pub horizon: u32,
}

/// The first tick at which a detector can suspect anybody.
fn first_suspicion(detector: DetectorNumbers) -> u32
    requires { AreInRange detector }
    ensures { result ≡ first_suspicion_of detector }
{
    match detector {
        DetectorNumbers::Timeout(its) => its.timeout.div_ceil(its.check) * its.check,
        DetectorNumbers::Freshness(its) => its.eta + its.delta,
    }
}

/// Whether a detector can suspect nobody before this horizon, and when it could.
pub(crate) fn late_of(detector: DetectorNumbers, horizon: u32) -> Option<Late>
    requires { AreInRange detector }
    ensures { result ≡ late_with detector horizon }
{
    let from = first_suspicion(detector);
    (from >= horizon).then_some(Late { from, horizon })
}

/// The same of each of these runs.
pub(crate) fn lates_of(alloc: Global, runs: &[FirstRun]) -> Result<Vec<Option<Late>>, AllocError>
    ensures { IfOk result (λ v. v.items ≡ map (λ r. late_with r.detector r.horizon) runs.now) }
{
    runs.iter()
        .map(|run| late_of(run.detector, run.horizon))
        .collect(alloc)
}
