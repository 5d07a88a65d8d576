//! The bounds of a run's detections, on layer 1.
ghost use Rattle.std.specs.{Prelude.{◌≡◌, ◌≢◌, ◌≤◌, true, false}, List.{All}};
ghost use Rattle.runs.specs.Finishing.{trusts_of};
ghost use Rattle.sweep.specs.{Columns.{AreBounds, detection_bound}, Inside.Adding.{of_bound, IsPair}, OneRun.{bound_after, bounds_of, bounds_on, is_to_detect}};

use crate::columns::DetectionBounds;
use process_api::Pid;
use promised::detected_by;
use reporting::{Detection, PairMeasures};
use runs::Trusts;
use scenario::Scenario;

impl DetectionBounds {
    /// With one more bound, or none, of a crash that was to be detected.
    fn of(bound: Option<u64>) -> DetectionBounds
        ensures { result ≡ of_bound bound }
    {
        DetectionBounds {
            greatest: bound,
            is_late: bound.is_none(),
        }
    }

    /// The greatest of the bounds, where none is missing.
    pub(crate) fn told(self) -> Option<u64>
        ensures { result ≡ detection_bound self }
    {
        if self.is_late { None } else { self.greatest }
    }
}

/// Whether a crash was to be detected.
fn is_to_detect(detection: Detection) -> bool
    ensures { result ≡ is_to_detect detection }
{
    match detection {
        Detection::Na => false,
        Detection::NoTick | Detection::At(_) => true,
    }
}

/// How many ticks after its crash, at most, a subject is suspected to the end by an observer that trusted it again so
/// often; none where that isn't before the horizon.
fn bound_after(scenario: &Scenario, trusts: u32, observer: Pid, subject: Pid) -> Option<u64>
    requires different { observer ≢ subject }
    requires is_observer { observer ≤ scenario.now.processes }
    requires is_subject { subject ≤ scenario.now.processes }
    ensures { result ≡ bound_after scenario.now trusts observer subject }
{
    let horizon = scenario.horizon();
    let crash = scenario.crash(subject).unwrap_or(horizon + 1);
    let link = scenario.link(subject, observer);
    let tick = detected_by(scenario.detector(), link, trusts, crash);
    if tick < u64::from(horizon) {
        Some(tick.saturating_sub(u64::from(crash)))
    } else {
        None
    }
}

/// Whether these are two processes of the scenario.
fn is_pair(scenario: &Scenario, observer: Pid, subject: Pid) -> bool
    ensures is_so { result ≡ true → IsPair scenario.now observer subject }
    ensures isnt { result ≡ false → ¬ (IsPair scenario.now observer subject) }
{
    let processes = scenario.processes();
    observer != subject && observer.number() <= processes && subject.number() <= processes
}

/// The bounds of the crashes that were to be detected by these pairs. Those of processes that the scenario doesn't have
/// count nothing.
fn sum_bounds(scenario: &Scenario, trusts: &Trusts, pairs: &[PairMeasures]) -> DetectionBounds
    ensures { All (λ m. IsPair scenario.now m.observer m.subject) pairs.now
        → AreBounds (bounds_of scenario.now (trusts_of trusts.now) pairs.now) result }
{
    let mut bounds = DetectionBounds::default();
    for pair in pairs {
        let (observer, subject) = (pair.observer, pair.subject);
        if is_to_detect(pair.detection) && is_pair(scenario, observer, subject) {
            let bound = bound_after(scenario, trusts.of(observer, subject), observer, subject);
            bounds = bounds.plus(DetectionBounds::of(bound));
        }
    }
    bounds
}

/// The bounds on a layer: there are none but on layer 1.
pub(crate) fn bounds_on(
    scenario: &Scenario,
    layer: u8,
    trusts: &Trusts,
    pairs: &[PairMeasures],
) -> DetectionBounds
    ensures { All (λ m. IsPair scenario.now m.observer m.subject) pairs.now
        → AreBounds (bounds_on layer scenario.now (trusts_of trusts.now) pairs.now) result }
{
    if layer == 1 {
        sum_bounds(scenario, trusts, pairs)
    } else {
        DetectionBounds::default()
    }
}
