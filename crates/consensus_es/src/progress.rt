//! A process's way through the rounds.
ghost use Rattle.std.specs.Prelude.{◌≡◌, ◌++◌, ◌∷◌, [], OnOk, IfOk, if◌then◌else◌};
ghost use Rattle.process_api.specs.Coordinator.{best_to, better as better_of, opening_coordinator, is_early as is_early_of, is_running as is_running_of, is_decided as is_decided_of, is_opening as is_opening_of};
ghost use Rattle.process_api.specs.declared.action.Action.TheVariants as Action;
ghost use Rattle.process_api.specs.declared.action.Note.TheVariants as Note;
ghost use Rattle.process_api.specs.declared.consensus.Phase.TheVariants as Phase;
ghost use Rattle.consensus_es.specs.State.{by_sender, state_of, stepped, Does, Ends, is_collecting, acks_of};
ghost use Rattle.consensus_es.specs.Inside.Steps.{begun, entered, left, replied, settled, wait_ended, collected, awaited, tallied, received, delivered, is_timely as is_timely_of, is_for_coordinator as is_for_coordinator_of, is_by_coordinator as is_by_coordinator_of};

use crate::diffusion::Diffusion;
use crate::proposals::Proposals;
use process_api::{
    Action, Estimate, GREATEST_ROUND, Letters, Membership, Note, Payload, Phase, Pid, ProcSet,
    StepInput, note_that, send_to, send_to_all,
};
use std::alloc::{AllocError, Global};

/// How far a process has come, and what it has received for its round and for later ones.
#[derive(Drop)]
pub struct Progress {
    // 0 before the start
    round: u64,
    phase: Phase,
    estimate: Estimate,
    estimates: Letters<Estimate>,
    proposals: Proposals,
    replies: Letters<bool>,
    diffusion: Diffusion,
}

impl Progress {
    /// Before the start, with this proposal.
    pub fn open(alloc: Global, proposal: u32) -> Progress
        ensures { state_of result ≡ opening_coordinator proposal }
    {
        Progress {
            round: 0,
            phase: Phase::Opening,
            estimate: Estimate {
                value: proposal,
                stamp: 0,
            },
            estimates: Letters::new(alloc),
            proposals: Proposals::new(alloc),
            replies: Letters::new(alloc),
            diffusion: Diffusion::new(alloc),
        }
    }

    /// Takes one input, with the suspects as they are by then.
    pub fn take(
        &mut self,
        membership: &Membership,
        input: &StepInput,
        suspects: &ProcSet,
        out: &mut Vec<Action>,
    ) -> Result<(), AllocError>
        ensures { OnOk result (Does self.new out.old.items out.new.items (
            stepped membership.now self.old suspects.now input.now)) }
    {
        self.begin(membership, input, out)?;
        self.settle(membership, suspects, out)
    }

    /// What an input does before any wait ends.
    fn begin(
        &mut self,
        membership: &Membership,
        input: &StepInput,
        out: &mut Vec<Action>,
    ) -> Result<(), AllocError>
        ensures { OnOk result (Does self.new out.old.items out.new.items (begun membership.now self.old input.now)) }
    {
        match input {
            StepInput::Start => {
                if is_opening(self.phase) {
                    self.enter(membership, 1, out)
                } else {
                    Ok(())
                }
            }
            StepInput::Letter { sender, payload } => {
                if !is_opening(self.phase) && sender.number() <= membership.processes {
                    self.receive(membership, *sender, payload, out)
                } else {
                    Ok(())
                }
            }
            StepInput::Wake(_) => Ok(()),
        }
    }

    /// Enters a round. Letters of earlier rounds are dropped.
    fn enter(
        &mut self,
        membership: &Membership,
        round: u64,
        out: &mut Vec<Action>,
    ) -> Result<(), AllocError>
        ensures { OnOk result (Does self.new out.old.items out.new.items (entered membership.now self.old round)) }
    {
        self.phase = first_phase(membership.is_coordinator(round));
        self.round = round;
        self.estimates.drop_before(round);
        self.proposals.drop_before(round);
        self.replies.drop_before(round);
        note_that(out, Note::Round(round))?;
        let value = self.estimate.value;
        let stamp = self.estimate.stamp;
        send_to(
            out,
            membership.coordinator(round),
            Payload::Estimate {
                round,
                value,
                stamp,
            },
        )?;
        Ok(())
    }

    /// Leaves the own round. Past the greatest there is no other.
    fn leave(&mut self, membership: &Membership, out: &mut Vec<Action>) -> Result<(), AllocError>
        ensures { OnOk result (Does self.new out.old.items out.new.items (left membership.now self.old)) }
    {
        if self.round < GREATEST_ROUND {
            self.enter(membership, self.round + 1, out)
        } else {
            self.phase = Phase::Ended;
            Ok(())
        }
    }

    /// Answers the round's proposal. The coordinator then counts the replies, others leave the round.
    fn reply(
        &mut self,
        membership: &Membership,
        ack: bool,
        out: &mut Vec<Action>,
    ) -> Result<(), AllocError>
        ensures { OnOk result (Does self.new out.old.items out.new.items (replied membership.now self.old ack)) }
    {
        let round = self.round;
        send_to(
            out,
            membership.coordinator(round),
            Payload::Reply { round, ack },
        )?;
        if membership.is_coordinator(round) {
            self.phase = Phase::Tally;
            Ok(())
        } else {
            self.leave(membership, out)
        }
    }

    /// Waits end until none is over.
    fn settle(
        &mut self,
        membership: &Membership,
        suspects: &ProcSet,
        out: &mut Vec<Action>,
    ) -> Result<(), AllocError>
        ensures { OnOk result (Does self.new out.old.items out.new.items (
            settled membership.now self.old suspects.now)) }
    {
        let mut more = true;
        while more {
            more = self.end_wait(membership, suspects, out)?;
        }
        Ok(())
    }

    /// Ends the wait, if it is over, and answers whether it was.
    fn end_wait(
        &mut self,
        membership: &Membership,
        suspects: &ProcSet,
        out: &mut Vec<Action>,
    ) -> Result<bool, AllocError>
        ensures { IfOk result (λ over. Ends over self.old self.new out.old.items out.new.items (
            wait_ended membership.now self.old suspects.now)) }
    {
        match self.phase {
            Phase::Collect => self.collect(membership, out),
            Phase::Await => self.await_proposal(membership, suspects, out),
            Phase::Tally => self.tally(membership, out),
            Phase::Opening | Phase::Decided | Phase::Ended => Ok(false),
        }
    }

    /// With a majority of estimates the best becomes the own, and it is proposed to all. The stamp stays.
    fn collect(
        &mut self,
        membership: &Membership,
        out: &mut Vec<Action>,
    ) -> Result<bool, AllocError>
        ensures { IfOk result (λ over. Ends over self.old self.new out.old.items out.new.items (
            collected membership.now self.old)) }
    {
        let round = self.round;
        if self.estimates.count(membership, round) < membership.majority() {
            return Ok(false);
        }
        let Some(chosen) = best(&self.estimates, membership, round) else {
            return Ok(false);
        };
        let value = chosen.value;
        self.phase = Phase::Await;
        self.estimate = Estimate {
            value,
            stamp: self.estimate.stamp,
        };
        send_to_all(
            out,
            membership.processes,
            &Payload::Proposal { round, value },
        )?;
        Ok(true)
    }

    /// With the round's proposal it is adopted; else a suspected coordinator is given up.
    fn await_proposal(
        &mut self,
        membership: &Membership,
        suspects: &ProcSet,
        out: &mut Vec<Action>,
    ) -> Result<bool, AllocError>
        ensures { IfOk result (λ over. Ends over self.old self.new out.old.items out.new.items (
            awaited membership.now self.old suspects.now)) }
    {
        let round = self.round;
        if let Some(value) = self.proposals.get(round) {
            self.estimate = Estimate {
                value,
                stamp: round,
            };
            self.reply(membership, true, out)?;
            return Ok(true);
        }
        if !suspects.contains(membership.coordinator(round)) {
            return Ok(false);
        }
        self.reply(membership, false, out)?;
        Ok(true)
    }

    /// With a majority of replies the round is left; where a majority of acks is among them, the decision is broadcast.
    fn tally(&mut self, membership: &Membership, out: &mut Vec<Action>) -> Result<bool, AllocError>
        ensures { IfOk result (λ over. Ends over self.old self.new out.old.items out.new.items (
            tallied membership.now self.old)) }
    {
        let round = self.round;
        if self.replies.count(membership, round) < membership.majority() {
            return Ok(false);
        }
        if membership.majority() <= count_acks(&self.replies, membership, round) {
            Diffusion::broadcast(membership, round, self.estimate.value, out)?;
        }
        self.leave(membership, out)?;
        Ok(true)
    }

    /// Receives a letter of one of the processes. The first of a kind, round and sender is kept, where it counts.
    fn receive(
        &mut self,
        membership: &Membership,
        sender: Pid,
        payload: &Payload,
        out: &mut Vec<Action>,
    ) -> Result<(), AllocError>
        ensures { OnOk result (Does self.new out.old.items out.new.items (
            received membership.now self.old sender payload.now)) }
    {
        match payload {
            Payload::Estimate {
                round,
                value,
                stamp,
            } if self.is_for_coordinator(membership, sender, *round) => {
                let estimate = Estimate {
                    value: *value,
                    stamp: *stamp,
                };
                self.estimates.keep(*round, sender, estimate)
            }
            Payload::Proposal { round, value }
                if self.is_by_coordinator(membership, sender, *round) => {
                self.proposals.keep(*round, *value)
            }
            Payload::Reply { round, ack } if self.is_for_coordinator(membership, sender, *round) =>
                { self.replies.keep(*round, sender, *ack) }
            Payload::Decide { round, value } if 1 <= *round && *round <= GREATEST_ROUND => {
                self.deliver(membership, *round, *value, out)
            }
            _ => Ok(()),
        }
    }

    /// Receives the decision of a round. The first one is the process's own.
    fn deliver(
        &mut self,
        membership: &Membership,
        round: u64,
        value: u32,
        out: &mut Vec<Action>,
    ) -> Result<(), AllocError>
        ensures { OnOk result (Does self.new out.old.items out.new.items (
            delivered membership.now self.old round value)) }
    {
        let first = self.diffusion.receive(membership, round, value, out)?;
        if first {
            note_first(is_decided(self.phase), value, out)?;
            self.phase = Phase::Decided;
        }
        Ok(())
    }

    /// Whether a letter is of a round that the algorithm has: the own one or, by another, a later one.
    fn is_timely(&self, membership: &Membership, sender: Pid, round: u64) -> bool
        ensures { result ≡ is_timely_of membership.now self.now sender round }
    {
        is_running(self.phase)
            && self.round <= round
            && round <= GREATEST_ROUND
            && !(sender == membership.own && self.round < round)
    }

    /// Whether an estimate or a reply counts: it is of the own round or a later one, and goes to its coordinator.
    fn is_for_coordinator(&self, membership: &Membership, sender: Pid, round: u64) -> bool
        ensures { result ≡ is_for_coordinator_of membership.now self.now sender round }
    {
        self.is_timely(membership, sender, round) && membership.is_coordinator(round)
    }

    /// Whether a proposal counts: it is of the own round or a later one, and of its coordinator. The own proposal
    /// doesn't count while estimates are still collected.
    fn is_by_coordinator(&self, membership: &Membership, sender: Pid, round: u64) -> bool
        ensures { result ≡ is_by_coordinator_of membership.now self.now sender round }
    {
        self.is_timely(membership, sender, round)
            && sender == membership.coordinator(round)
            && !self.is_early(membership, sender)
    }

    /// Whether a proposal comes while its own sender still collects estimates.
    fn is_early(&self, membership: &Membership, sender: Pid) -> bool
        ensures { result ≡ is_early_of membership.now.processes membership.now.own (state_of self.now) sender }
    {
        sender == membership.own && is_collect(self.phase)
    }
}

/// What a process waits for first in a round.
fn first_phase(is_coordinator: bool) -> Phase
    ensures { result ≡ (if is_coordinator then Phase.Collect else Phase.Await) }
{
    if is_coordinator {
        Phase::Collect
    } else {
        Phase::Await
    }
}

/// Whether a process waits within a round.
fn is_running(phase: Phase) -> bool
    ensures { result ≡ is_running_of phase }
{
    matches!(phase, Phase::Collect | Phase::Await | Phase::Tally)
}

fn is_decided(phase: Phase) -> bool
    ensures { result ≡ is_decided_of phase }
{
    matches!(phase, Phase::Decided)
}

fn is_opening(phase: Phase) -> bool
    ensures { result ≡ is_opening_of phase }
{
    matches!(phase, Phase::Opening)
}

fn is_collect(phase: Phase) -> bool
    ensures { result ≡ is_collecting phase }
{
    matches!(phase, Phase::Collect)
}

/// The better of two estimates: the later sender's only where its stamp is larger.
fn better(earlier: Option<Estimate>, later: Option<Estimate>) -> Option<Estimate>
    ensures { result ≡ better_of earlier later }
{
    match (earlier, later) {
        (Some(a), Some(b)) => { if a.stamp < b.stamp { Some(b) } else { Some(a) } }
        (Some(a), None) => Some(a),
        (None, b) => b,
    }
}

/// The best estimate of a round: of the largest stamp, and of these the least sender's.
pub fn best(estimates: &Letters<Estimate>, membership: &Membership, round: u64) -> Option<Estimate>
    ensures { result ≡ best_to membership.now.processes (by_sender estimates.now round) }
{
    let Some(row) = estimates.row(round) else {
        return None;
    };
    let mut chosen: Option<Estimate> = None;
    for before in 0..membership.processes {
        chosen = better(chosen, row.get(membership.process(before)).copied());
    }
    chosen
}

/// How many acks of a round came.
fn count_acks(replies: &Letters<bool>, membership: &Membership, round: u64) -> u16
    ensures { result ≡ acks_of membership.now.processes (by_sender replies.now round) }
{
    let Some(row) = replies.row(round) else {
        return 0;
    };
    let mut count: u16 = 0;
    for before in 0..membership.processes {
        let ack = row
            .get(membership.process(before))
            .copied()
            .unwrap_or(false);
        if ack {
            count += 1;
        }
    }
    count
}

/// Notes a decision, where none was made before.
fn note_first(was_decided: bool, value: u32, out: &mut Vec<Action>) -> Result<(), AllocError>
    ensures { OnOk result (out.new.items ≡ out.old.items ++ (
        if was_decided then [] else Action.Note (Note.Decided value) ∷ [])) }
{
    if !was_decided {
        note_that(out, Note::Decided(value))?;
    }
    Ok(())
}
