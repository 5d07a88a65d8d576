//! Consensus with S as a part of a machine.
ghost use Rattle.std.specs.Prelude.{◌≡◌, false};
ghost use Rattle.{std.proofs.Props.{props}, consensus_s.specs.State.{exchange_of, IsOrderly}};

use crate::exchange::Exchange;
use process_api::{Action, Algorithm, ProcSet, StepInput};
use scenario_record::Opening;
use std::alloc::{AllocError, Global};

/// Consensus with a detector of class S at one process (Chandra and Toueg, Journal of the ACM 43(2), 1996).
#[derive(Drop)]
pub struct SConsensus {
    opening: Opening,
    exchange: Exchange,
    has_failed: bool,
    ghost orderly: { has_failed ≡ false → IsOrderly opening.own (exchange_of exchange) } by { Prim.hlevel props },
}

impl SConsensus {
    ghost use Rattle.std.specs.Prelude.{IsSome, IfOk};
    ghost use Rattle.consensus_s.specs.Machine.{opening_algorithm, state_of};

    /// The algorithm of a process that has a proposal, before its start.
    ///
    /// # Errors
    ///
    /// `AllocError` where memory was refused.
    pub fn open(alloc: Global, opening: &Opening) -> Result<SConsensus, AllocError>
        requires { IsSome opening.now.proposal }
        ensures state { IfOk result (λ s. state_of s ≡ opening_algorithm opening.now) }
        ensures alive { IfOk result (λ s. ⟦<SConsensus as Algorithm>⟧.has_failed s ≡ false) }
    {
        let proposal = opening.proposal.unwrap();
        let exchange = Exchange::open(alloc, opening, proposal)?;
        Ok(SConsensus {
            opening: *opening,
            exchange,
            has_failed: false,
        })
    }
}

impl Algorithm for SConsensus {
    ghost use Rattle.consensus_s.specs.Machine.{state_of};

    ghost state = { state_of };

    ghost has_failed = { λ s. s.has_failed };

    #[tactic(auto, unfolding(process_api::specs::React::react_algorithm))]
    fn take(
        &mut self,
        _now: u32,
        input: &StepInput,
        suspects: &ProcSet,
        out: &mut Vec<Action>,
    ) -> Result<(), AllocError> {
        if self.has_failed {
            return Err(AllocError);
        }
        // it stays true where the step answers `Err`
        self.has_failed = true;
        self.exchange.step(&self.opening, input, suspects, out)?;
        self.has_failed = false;
        Ok(())
    }
}
