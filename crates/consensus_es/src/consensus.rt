//! Consensus by rotating coordinators.
ghost use Rattle.std.specs.Prelude.{◌≡◌, Bool, false, IsSome, IfOk};
ghost use Rattle.consensus_es.specs.State.{IsOrderly, state_of, opening_algorithm};

use crate::progress::Progress;
use process_api::{Action, Algorithm, Membership, ProcSet, StepInput};
use scenario_record::Opening;
use std::alloc::{AllocError, Global};

/// One process's part in consensus by rotating coordinators (Chandra and Toueg, Journal of the ACM 43(2), 1996).
/// In each round, from 1 to 1,000,000,000,000, one process is the coordinator: it collects estimates from a
/// majority, proposes the one adopted last, and where a majority acknowledges that, broadcasts it as the decision.
/// The others wait for its proposal or until they suspect it. Decisions spread by diffusion, see
/// [`Diffusion`](crate::Diffusion).
///
/// Contracts see the state of `process_api`'s definition, `Coordinator`, and whether a call has answered `Err`. Memory
/// grows with the letters kept, those of the own round and of later ones, and with the rounds whose decision was seen.
#[derive(Drop)]
pub struct EsConsensus {
    membership: Membership,
    // the tick at which the run ends
    horizon: u32,
    progress: Progress,
    has_failed: bool,
    // why one input makes few actions; after an `Err` it may be broken
    ghost orderly: { has_failed ≡ false → IsOrderly membership.processes membership.own (state_of progress) },
}

impl EsConsensus {
    /// The process of this opening, before its start. Its estimate is its proposal, with the stamp 0.
    ///
    /// # Errors
    ///
    /// `AllocError` where memory was refused.
    pub fn open(alloc: Global, opening: &Opening) -> Result<EsConsensus, AllocError>
        requires { IsSome opening.now.proposal }
        ensures opens { IfOk result (λ c. ⟦<EsConsensus as Algorithm>⟧.state c ≡ opening_algorithm opening.now) }
        ensures alive { IfOk result (λ c. ⟦<EsConsensus as Algorithm>⟧.has_failed c ≡ false) }
    {
        Ok(EsConsensus {
            membership: Membership::new(opening.own, opening.processes),
            horizon: opening.horizon,
            progress: Progress::open(alloc, opening.proposal.unwrap()),
            has_failed: false,
        })
    }
}

impl Algorithm for EsConsensus {
    ghost use Rattle.consensus_es.specs.Inside.Steps.{algorithm_of};

    ghost state = { algorithm_of };

    ghost has_failed = { λ c. c.has_failed };

    fn take(
        &mut self,
        _now: u32,
        input: &StepInput,
        suspects: &ProcSet,
        out: &mut Vec<Action>,
    ) -> Result<(), AllocError> {
        if self.has_failed {
            return Err(AllocError);
        }
        // it stays true where the step answers `Err`
        self.has_failed = true;
        self.progress.take(&self.membership, input, suspects, out)?;
        self.has_failed = false;
        Ok(())
    }
}
