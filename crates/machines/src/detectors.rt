//! The detector of a process, of whichever kind its opening says. Each part is chosen by itself: the base detector, and
//! whether a reduction stands over it.
ghost use Rattle.std.specs.Prelude.{◌≡◌, IfOk};
ghost use Rattle.scenario_record.specs.Opening.{base_of, lower_of};

use freshness_detector::FreshnessDetector;
use process_api::{Action, Detector, DetectorNumbers, ProcSet, StepInput};
use reduction::Reduced;
use scenario_record::Opening;
use std::alloc::{AllocError, Global};
use timeout_detector::TimeoutDetector;

/// A base detector.
#[derive(Drop)]
pub enum BaseDetector {
    /// The time-out detector.
    Timeout(TimeoutDetector),
    /// The detector with freshness points.
    Freshness(FreshnessDetector),
}

impl BaseDetector {
    /// The base detector with which a process opens, of the kind whose numbers it has.
    ///
    /// # Errors
    ///
    /// `AllocError` where memory was refused.
    pub fn open(alloc: Global, opening: &Opening) -> Result<BaseDetector, AllocError>
        ensures { IfOk result (λ d. ⟦<BaseDetector as Detector>⟧.lower d ≡ base_of opening.now) }
    {
        match opening.detector {
            DetectorNumbers::Timeout(_) => {
                let detector = TimeoutDetector::open(alloc, opening)?;
                Ok(BaseDetector::Timeout(detector))
            }
            DetectorNumbers::Freshness(_) => {
                let detector = FreshnessDetector::open(alloc, opening)?;
                Ok(BaseDetector::Freshness(detector))
            }
        }
    }
}

impl Detector for BaseDetector {
    ghost use Rattle.machines.specs.declared.detectors.BaseDetector.TheVariants.{Timeout, Freshness};

    ghost lower = { λ d. elim d [
      | Timeout its ↦ ⟦<TimeoutDetector as Detector>⟧.lower its
      | Freshness its ↦ ⟦<FreshnessDetector as Detector>⟧.lower its
    ] };

    ghost has_failed = { λ d. elim d [
      | Timeout its ↦ ⟦<TimeoutDetector as Detector>⟧.has_failed its
      | Freshness its ↦ ⟦<FreshnessDetector as Detector>⟧.has_failed its
    ] };

    #[inline(always)]
    fn take(
        &mut self,
        now: u32,
        input: &StepInput,
        out: &mut Vec<Action>,
    ) -> Result<(), AllocError> {
        match self {
            BaseDetector::Timeout(detector) => detector.take(now, input, out),
            BaseDetector::Freshness(detector) => detector.take(now, input, out),
        }
    }

    fn suspects(&self) -> ProcSet {
        match self {
            BaseDetector::Timeout(detector) => detector.suspects(),
            BaseDetector::Freshness(detector) => detector.suspects(),
        }
    }
}

/// A detector: the base detector, or a reduction over it.
#[derive(Drop)]
pub enum AnyDetector {
    /// The base detector alone.
    Base(BaseDetector),
    /// A reduction over the base detector.
    Reduced(Reduced<BaseDetector>),
}

impl AnyDetector {
    /// The detector with which a process opens: with a reduction just where it has a share period.
    ///
    /// # Errors
    ///
    /// `AllocError` where memory was refused.
    pub fn open(alloc: Global, opening: &Opening) -> Result<AnyDetector, AllocError>
        ensures { IfOk result (λ d. ⟦<AnyDetector as Detector>⟧.lower d ≡ lower_of opening.now) }
    {
        let base = BaseDetector::open(alloc, opening)?;
        match opening.share {
            None => Ok(AnyDetector::Base(base)),
            Some(_) => Ok(AnyDetector::Reduced(Reduced::open(base, opening))),
        }
    }
}

impl Detector for AnyDetector {
    ghost use Rattle.machines.specs.declared.detectors.AnyDetector.TheVariants.{Base, Reduced};

    ghost lower = { λ d. elim d [
      | Base its ↦ ⟦<BaseDetector as Detector>⟧.lower its
      | Reduced its ↦ ⟦<Reduced<BaseDetector> as Detector>⟧.lower its
    ] };

    ghost has_failed = { λ d. elim d [
      | Base its ↦ ⟦<BaseDetector as Detector>⟧.has_failed its
      | Reduced its ↦ ⟦<Reduced<BaseDetector> as Detector>⟧.has_failed its
    ] };

    #[inline(always)]
    fn take(
        &mut self,
        now: u32,
        input: &StepInput,
        out: &mut Vec<Action>,
    ) -> Result<(), AllocError> {
        match self {
            AnyDetector::Base(detector) => detector.take(now, input, out),
            AnyDetector::Reduced(detector) => detector.take(now, input, out),
        }
    }

    fn suspects(&self) -> ProcSet {
        match self {
            AnyDetector::Base(detector) => detector.suspects(),
            AnyDetector::Reduced(detector) => detector.suspects(),
        }
    }
}
