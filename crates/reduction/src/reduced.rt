//! The reduction over a detector.
ghost use Rattle.std.specs.Prelude.{◌≡◌, false, IsSome, option_map};
ghost use Rattle.process_api.specs.{Mind.{layer_of}, Reduction.{opening_reduction}};
ghost use Rattle.scenario_record.specs.Opening.{place_of};

use crate::gathering::Gathering;
use process_api::{Action, Detector, ProcSet, StepInput};
use scenario_record::Opening;
use std::alloc::AllocError;

/// The reduction over a detector of layer 1: a detector of layer 2, which suspects whom other processes suspect
/// (Chandra and Toueg, Journal of the ACM 43(2), 1996).
#[derive(Drop)]
pub struct Reduced<D: Detector> {
    detector: D,
    gathering: Gathering,
    has_failed: bool,
    ghost base: { layer_of (D.lower detector) ≡ 1 },
    ghost place: { (D.lower detector).place ≡ place_of gathering.opening },
}

impl<D: Detector> Reduced<D> {
    /// The reduction of the process that opens so, over its detector. It suspects nobody yet. Takes no memory. A
    /// detector that has failed may be handed in: the first step then answers `Err`.
    pub fn open(detector: D, opening: &Opening) -> Reduced<D>
        requires shares { IsSome opening.now.share }
        requires base { layer_of (D.lower detector) ≡ 1 }
        requires place { (D.lower detector).place ≡ place_of opening.now }
        ensures lower { ⟦<Reduced<D> as Detector>⟧.lower result
            ≡ record (D.lower detector) { reduction = option_map opening_reduction opening.now.share } }
        ensures alive { ⟦<Reduced<D> as Detector>⟧.has_failed result ≡ false }
    {
        match opening.share {
            Some(period) => Reduced {
                detector,
                gathering: Gathering {
                    opening: *opening,
                    period,
                    output: ProcSet::new(),
                },
                has_failed: false,
            },
            None => unreachable!(),
        }
    }
}

impl<D: Detector> Detector for Reduced<D> {
    ghost use Rattle.{std.specs.Prelude.{Some}, reduction.specs.Inside.Parts.{state_of}};

    ghost lower = { λ s. record (D.lower s.detector) { reduction = Some (state_of s.gathering) } };

    ghost has_failed = { λ s. s.has_failed };

    fn take(
        &mut self,
        now: u32,
        input: &StepInput,
        out: &mut Vec<Action>,
    ) -> Result<(), AllocError> {
        if self.has_failed {
            return Err(AllocError);
        }
        // it stays true where a part answers `Err`
        self.has_failed = true;
        self.detector.take(now, input, out)?;
        let suspects = self.detector.suspects();
        self.gathering.step(input, &suspects, out)?;
        self.has_failed = false;
        Ok(())
    }

    fn suspects(&self) -> ProcSet {
        self.gathering.output.copy()
    }
}
