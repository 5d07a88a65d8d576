//! What a caller has of the laws.
ghost use Rattle.std.specs.Prelude.{◌≡◌, ◌≤◌, ◌<◌, ◌+◌, ◌*◌, ◌++◌, ◌∷◌, ℕ, true, false, None, Some, List, length, OnOk, IfOk};
ghost use Rattle.std.specs.FinSet as set;
ghost use Rattle.process_api.specs.{Coordinator.{end_wait, step_coordinator, coordinator as coordinator_of}, declared.{action.Action.{Action as ActionData}, consensus.Estimate.{Estimate as EstimateData}}};
ghost use Rattle.process_api.specs.declared.action.Action.TheVariants as Action;
ghost use Rattle.process_api.specs.declared.consensus.Phase.TheVariants as Phase;
ghost use Rattle.process_api.specs.declared.message.Payload.TheVariants as Payload;
ghost use Rattle.consensus_es.specs.State.{by_sender, state_of, Does, IsOrderly};

use crate::comparisons::{NO_MEMORY, same};
use consensus_es::{Letters, Membership, Progress, best, law_settled};
use process_api::{Action, Estimate, Pid, ProcSet, StepInput, Tag};
use std::alloc::{AllocError, Global};

/// A process opens and takes one input: no wait is over then, it has made few actions, and it is in one of the first
/// rounds.
fn open_and_take(
    alloc: Global,
    membership: &Membership,
    input: &StepInput,
    suspects: &ProcSet,
    out: &mut Vec<Action>,
) -> Result<Progress, AllocError>
    requires { set.contains suspects.now membership.now.own ≡ false }
    ensures over { IfOk result (λ s.
        end_wait membership.now.processes membership.now.own (set.contains suspects.now) (state_of s) ≡ None) }
    ensures orderly { IfOk result (λ s. IsOrderly membership.now.processes membership.now.own (state_of s)) }
    ensures little { OnOk result (length out.new.items ≤ length out.old.items + (6 * membership.now.processes + 3)) }
    ensures rounds { IfOk result (λ s. (state_of s).round ≤ membership.now.processes) }
{
    law_settled();
    let mut progress = Progress::open(alloc, 10);
    progress.take(membership, input, suspects, out)?;
    Ok(progress)
}

/// A wake that comes right after an input does nothing more.
fn take_and_wake(
    progress: &mut Progress,
    membership: &Membership,
    input: &StepInput,
    suspects: &ProcSet,
    out: &mut Vec<Action>,
) -> Result<(), AllocError>
    ensures { OnOk result (Does progress.new out.old.items out.new.items (
        step_coordinator membership.now.processes membership.now.own
        (set.contains suspects.now) input.now (state_of progress.old))) }
{
    law_settled();
    progress.take(membership, input, suspects, out)?;
    progress.take(membership, &StepInput::Wake(Tag::Check), suspects, out)
}

/// Where a process waits for a proposal that hasn't come, of a coordinator that it suspects, a nack is the first that
/// it sends.
fn wake_waiting(
    progress: &mut Progress,
    membership: &Membership,
    suspects: &ProcSet,
    out: &mut Vec<Action>,
) -> Result<(), AllocError>
    ensures { (state_of progress.old).phase ≡ Phase.Await
        → (state_of progress.old).kept.proposals (state_of progress.old).round ≡ None
        → set.contains suspects.now (coordinator_of membership.now.processes (state_of progress.old).round) ≡ true
        → OnOk result ((rest : List ActionData) × (out.new.items ≡ out.old.items
        ++ Action.Send (coordinator_of membership.now.processes (state_of progress.old).round)
        (Payload.Reply (state_of progress.old).round false) ∷ rest)) }
{
    law_settled();
    progress.take(membership, &StepInput::Wake(Tag::Check), suspects, out)
}

/// Of two estimates the second process's is chosen only where its stamp is larger.
fn best_of_two(
    estimates: &Letters<Estimate>,
    membership: &Membership,
    round: u64,
) -> Option<Estimate>
    requires { membership.now.processes ≡ 2 }
    ensures first { (a b e : EstimateData)
        → by_sender estimates.now round 1 ≡ Some a → by_sender estimates.now round 2 ≡ Some b
        → result ≡ Some e → b.stamp ≤ a.stamp → e ≡ a }
    ensures second { (a b e : EstimateData)
        → by_sender estimates.now round 1 ≡ Some a → by_sender estimates.now round 2 ≡ Some b
        → result ≡ Some e → a.stamp < b.stamp → e ≡ b }
{
    law_settled();
    best(estimates, membership, round)
}

/// Process 1 of three starts, and then suspects process 2, the coordinator of round 1.
#[test]
fn waits_settle(rt: HostRuntime) {
    let alloc = rt.alloc();
    let membership = Membership::new(Pid::after(0), 3);
    let mut suspects = ProcSet::new();
    let mut out = Vec::new(alloc);
    let opened = open_and_take(alloc, &membership, &StepInput::Start, &suspects, &mut out);
    let mut progress = opened.expect(&rt, NO_MEMORY);
    same(&rt, &out.len(), &2);
    suspects.insert(Pid::after(1));
    let woken = wake_waiting(&mut progress, &membership, &suspects, &mut out);
    woken.expect(&rt, NO_MEMORY);
    same(&rt, &out.len(), &5);
    let taken = take_and_wake(
        &mut progress,
        &membership,
        &StepInput::Start,
        &suspects,
        &mut out,
    );
    taken.expect(&rt, NO_MEMORY);
    same(&rt, &out.len(), &5);
}

/// Two processes' estimates, of one stamp and of two.
#[test]
fn largest_stamp_then_least_sender(rt: HostRuntime) {
    let first = Pid::after(0);
    let membership = Membership::new(first, 2);
    let mut estimates = Letters::new(rt.alloc());
    for &(round, stamp, wanted) in &[(1, 0, 10), (2, 1, 20)] {
        let early = Estimate {
            value: 10,
            stamp: 0,
        };
        let late = Estimate { value: 20, stamp };
        let kept = estimates.keep(round, first, early);
        kept.expect(&rt, NO_MEMORY);
        let kept = estimates.keep(round, Pid::after(1), late);
        kept.expect(&rt, NO_MEMORY);
        let chosen = best_of_two(&estimates, &membership, round).map(|it| it.value);
        same(&rt, &(round, chosen), &(round, Some(wanted)));
    }
}
