//! Diffusion of decisions.
ghost use Rattle.std.specs.Prelude.{◌≡◌, ◌++◌, OnOk, OnErr, IfOk, not, if◌then◌else◌};
ghost use Rattle.process_api.specs.Coordinator.{none_seen, also_seen, broadcast as broadcast_of, relay as relay_of};

use process_api::{Action, Membership, Payload, send_to_all};
use std::alloc::{AllocError, Global};
use std::collections::BTreeSet;

/// The rounds whose decision was received. A decision is known by its round, and comes from the round's coordinator:
/// so who receives one for the first time passes it on, unless it is that coordinator. This is reliable broadcast by
/// diffusion (Chandra and Toueg, Journal of the ACM 43(2), 1996).
///
/// Contracts see the test whether a round was seen. Memory grows with the rounds seen.
#[derive(Drop)]
pub struct Diffusion {
    rounds: BTreeSet<u64>,
}

impl Diffusion {
    ghost use Rattle.consensus_es.specs.State.{seen_of, passed_on};

    /// No round was seen.
    pub fn new(alloc: Global) -> Diffusion
        ensures { seen_of result ≡ none_seen }
    {
        Diffusion {
            rounds: BTreeSet::new(alloc),
        }
    }

    /// Whether the decision of a round was received.
    pub fn has_seen(&self, round: u64) -> bool
        ensures { result ≡ seen_of self.now round }
    {
        self.rounds.contains(&round)
    }

    /// Receives the decision of a round, and answers whether it came for the first time. Then it is passed on to all,
    /// in order, unless the process is the round's coordinator.
    ///
    /// # Errors
    ///
    /// `AllocError` where memory was refused. The rounds seen are as before, and `out` may hold a part of the letters.
    pub fn receive(
        &mut self,
        membership: &Membership,
        round: u64,
        value: u32,
        out: &mut Vec<Action>,
    ) -> Result<bool, AllocError>
        ensures first { IfOk result (λ first. first ≡ not (seen_of self.old round)) }
        ensures seen { IfOk result (λ first.
            seen_of self.new ≡ (if first then also_seen (seen_of self.old) round else seen_of self.old)) }
        ensures relayed { IfOk result (λ first.
            out.new.items ≡ out.old.items ++ passed_on membership.now first round value) }
        ensures unchanged { OnErr result (seen_of self.new ≡ seen_of self.old) }
    {
        if self.has_seen(round) {
            return Ok(false);
        }
        relay(membership, round, value, out)?;
        self.rounds.insert(round)?;
        Ok(true)
    }

    /// Broadcasts the decision of a round: a letter to all, in order, oneself included.
    ///
    /// # Errors
    ///
    /// `AllocError` where memory was refused; `out` may hold a part of the letters.
    pub fn broadcast(
        membership: &Membership,
        round: u64,
        value: u32,
        out: &mut Vec<Action>,
    ) -> Result<(), AllocError>
        ensures { OnOk result (out.new.items ≡ out.old.items ++ broadcast_of membership.now.processes round value) }
    {
        send_to_all(out, membership.processes, &Payload::Decide { round, value })
    }
}

/// Passes a decision on, unless the process is the round's coordinator.
fn relay(
    membership: &Membership,
    round: u64,
    value: u32,
    out: &mut Vec<Action>,
) -> Result<(), AllocError>
    ensures { OnOk result (
        out.new.items ≡ out.old.items ++ relay_of membership.now.processes membership.now.own round value) }
{
    if !membership.is_coordinator(round) {
        Diffusion::broadcast(membership, round, value, out)?;
    }
    Ok(())
}
