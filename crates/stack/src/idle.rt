//! No algorithm.
ghost use Rattle.{std.specs.Prelude.{false}, process_api.specs.Mind.{Idle}};

use process_api::{Action, Algorithm, ProcSet, StepInput};
use std::alloc::AllocError;

/// The algorithm of a process that runs a detector alone: it ignores every input and does nothing.
#[derive(Clone, Copy, Drop)]
pub struct NoAlgorithm;

impl Algorithm for NoAlgorithm {
    ghost state = { λ _. Idle };

    ghost has_failed = { λ _. false };

    #[tactic(auto, unfolding(process_api::specs::React::react_algorithm))]
    fn take(
        &mut self,
        _now: u32,
        _input: &StepInput,
        _suspects: &ProcSet,
        _out: &mut Vec<Action>,
    ) -> Result<(), AllocError> {
        Ok(())
    }
}
