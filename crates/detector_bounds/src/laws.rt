//! Bounds that no run breaks.
ghost use Rattle.{std.specs.Prelude.{List}, process_api.specs.Order.{EntryRecord}};
ghost use Rattle.trace_laws.specs.{Setting.{setting_of}, World.{IsTrace}};
ghost use Rattle.detector_bounds.specs.{Bounds.{KeepsBounds}, Shared.{SharesDetection}};

use scenario_record::Scenario;

/// Every trace of a scenario keeps the bounds of its detector. Where its processes share, each detection comes to the
/// others in time.
pub fn law_bounds(scenario: &Scenario)
    ensures bounds { (trace : List EntryRecord) → IsTrace (setting_of scenario.now) trace
        → KeepsBounds scenario.now trace }
    ensures shared { (trace : List EntryRecord) → IsTrace (setting_of scenario.now) trace
        → SharesDetection scenario.now trace }
{
    scenario.recall_ranges();
}
