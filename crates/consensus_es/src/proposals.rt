//! Tables of proposals.
ghost use Rattle.std.specs.Prelude.{◌≡◌, OnOk};
ghost use Rattle.process_api.specs.Rows.{keep_one};

use process_api::drop_rounds_before;
use std::alloc::{AllocError, Global};
use std::collections::BTreeMap;

/// The first proposals, by round. A round's proposal comes from its coordinator alone.
#[derive(Drop)]
pub struct Proposals {
    by_round: BTreeMap<u64, u32>,
}

impl Proposals {
    ghost use Rattle.{consensus_es.specs.State.{of_round, no_proposals}, process_api.specs.Letters.{since_round}};

    /// No proposals.
    pub fn new(alloc: Global) -> Proposals
        ensures { of_round result ≡ no_proposals }
    {
        Proposals {
            by_round: BTreeMap::new(alloc),
        }
    }

    /// What was proposed in a round.
    pub fn get(&self, round: u64) -> Option<u32>
        ensures { result ≡ of_round self.now round }
    {
        self.by_round.get(&round).copied()
    }

    /// Keeps a proposal, unless one of its round is kept.
    pub fn keep(&mut self, round: u64, value: u32) -> Result<(), AllocError>
        ensures { OnOk result (of_round self.new ≡ keep_one (of_round self.old) round value) }
    {
        if !self.by_round.contains_key(&round) {
            self.by_round.insert(round, value)?;
        }
        Ok(())
    }

    /// Drops the proposals of the rounds before this one.
    pub fn drop_before(&mut self, round: u64)
        ensures { of_round self.new ≡ since_round round (of_round self.old) }
    {
        drop_rounds_before(&mut self.by_round, round);
    }
}
