//! The measures of a finished trace.
ghost use Rattle.std.specs.Prelude.{◌≡◌, All, IfOk};
ghost use Rattle.{trace_laws.specs.{Setting.{setting_of}, World.{IsTrace}}, judges.specs.Out.{SharesSuspicions}};
ghost use Rattle.{runs.specs.Grounds.{IsBounded, RestsOnBlame}, reporting.specs.Measures.{all_measures}};

use process_api::{Trace, follow_all};
use reporting::{PairMeasures, close_measuring, open_measuring};
use scenario_record::Scenario;
use std::alloc::{AllocError, Global};

/// The measures of each observer and each other subject of a finished trace, on layer 1 and, where there is a share
/// table, on layer 2: by layer, then observer, then subject, each rising.
///
/// Who suspects whom is read from the notes of the entries below the horizon, as it stands at the end of each tick. A
/// trace is walked once, and a pair's counts move only at a note that changes whether it is suspected; so the work
/// grows with the notes of the trace and with the number of pairs, and not with the ticks.
///
/// In the trace of the scenario, each suspicion of layer 2 has an earlier entry with one of layer 1 for the same
/// process, whatever the algorithm, the links and the crashes. So a row of layer 2 with a mistake or a detection names
/// a process that some base detector had suspected before: by the tick at which such a mistake starts, and by the tick
/// at which the suspicion starts that lasts to the horizon.
///
/// And each row of layer 1 keeps to the bounds that no run breaks (`detector_bounds`): a correct observer detects the
/// crash of whom it watches no later than they say, and makes no mistake over a reliable link.
///
/// # Errors
///
/// Where a growth was refused.
pub fn measures(
    alloc: Global,
    scenario: &Scenario,
    trace: &Trace,
) -> Result<Vec<PairMeasures>, AllocError>
    ensures rows { IfOk result (λ rows. rows.items ≡ all_measures scenario.now trace.now) }
    ensures blame { IfOk result (λ rows. IsTrace (setting_of scenario.now) trace.now
        → All (RestsOnBlame scenario.now trace.now) rows.items) }
    ensures bounds { IfOk result (λ rows. IsTrace (setting_of scenario.now) trace.now
        → All (IsBounded scenario.now trace.now) rows.items) }
    ensures shares { IsTrace (setting_of scenario.now) trace.now → SharesSuspicions trace.now }
{
    scenario.recall_ranges();
    let mut measuring = open_measuring(alloc, scenario, false)?;
    follow_all(&mut measuring, trace.entries())?;
    let (found, _durations) = close_measuring(alloc, measuring)?;
    Ok(found.measures)
}
