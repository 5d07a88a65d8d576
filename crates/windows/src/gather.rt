//! The starter's side of a window: it deals the waiting berths to the workers, and brings together what they give back.
ghost use Rattle.std.specs.{Prelude.{◌≡◌, ◌+◌, ◌++◌, map, true, false, IfOk, IfErr, IsErrOf, vec_len, IsPermutation}, List.{All}};
ghost use Rattle.{trace_laws.specs.World.{NoneBelow}, mailboxes.specs.Mailboxes.{mailboxes_of, unused}};
ghost use Rattle.deques.specs.Deques.{deques_of, all_put};
ghost use Rattle.windows.specs.{Stage.{IsRefusalOfOne}, Inside.Workers.{AreReady, IsOneTooLong, IsRestIn, IsFresh, BringsTogether}};

use crate::berth::Berth;
use crate::gate::Gate;
use crate::shared::Shared;
use crate::workers::{Start, Work, run_taken};
use deques::{Dealer, Rest};
use mailboxes::{Mailboxes, Slip};
use process_api::{Process, RunError};
use std::alloc::{AllocError, Global};
use std::sync::Wait;

// Whether the process has an event below a tick.
fn is_waiting<M>(berth: &Berth<M>, end: u32) -> bool
    ensures yes { result ≡ true → NoneBelow end berth.now.pending → ⊥ }
    ensures no { result ≡ false → NoneBelow end berth.now.pending }
{
    match berth.pending.least_tick() {
        Some(tick) => tick < end,
        None => false,
    }
}

/// The berths of the processes with an event below `end`, and the others, each in their order.
pub(crate) fn part<M: Process>(
    alloc: Global,
    end: u32,
    berths: Vec<Berth<M>>,
) -> Result<(Vec<Berth<M>>, Vec<Berth<M>>), AllocError>
    ensures same { IfOk result (λ r. IsPermutation berths.items (r.0.items ++ r.1.items)) }
    ensures waiting { IfOk result (λ r. All (λ b. NoneBelow end b.pending → ⊥) r.0.items) }
    ensures idle { IfOk result (λ r. All (λ b. NoneBelow end b.pending) r.1.items) }
{
    let mut waiting = Vec::with_capacity(alloc, berths.len())?;
    let mut idle = Vec::new(alloc);
    for berth in berths {
        if is_waiting(&berth, end) {
            waiting.push(berth)?;
        } else {
            idle.push(berth)?;
        }
    }
    Ok((waiting, idle))
}

/// What the workers begin with, a hand and a slip each: one worker for each deque.
pub(crate) fn starts_of<M: Process>(
    alloc: Global,
    dealer: Dealer<Berth<M>>,
    mailboxes: &mut Mailboxes,
) -> Result<Vec<Start<M>>, AllocError>
    ensures own { IfOk result (λ starts. map (λ b. b.hand.own) starts.items ≡ dealer) }
    ensures mailboxes { IfOk result (λ starts.
        mailboxes.new ≡ mailboxes_of mailboxes.old.mailboxes (mailboxes.old.slips + vec_len starts)) }
    ensures fresh { IfOk result (λ starts.
        All (λ s. IsFresh (deques_of dealer) mailboxes.old.mailboxes s.hand s.slip) starts.items) }
    ensures known { IfOk result (λ starts. All (λ s. s.hand.known ≡ all_put dealer) starts.items) }
{
    let hands = dealer.hands(alloc)?;
    let mut starts = Vec::with_capacity(alloc, hands.len())?;
    for hand in hands {
        let slip = mailboxes.slip(alloc)?;
        starts.push(Start { hand, slip })?;
    }
    Ok(starts)
}

/// Takes the workers' hands back. Answers what is left of the deques, and the berths and slips brought together.
pub(crate) fn gather<M: Process>(
    alloc: Global,
    works: Vec<Work<M>>,
) -> Result<(Rest<Berth<M>>, Vec<Berth<M>>, Vec<Slip>), AllocError>
    requires { All (λ w. w.hand.deques ≡ deques_of (map (λ x. x.hand.own) works.items)) works.items }
    ensures own { IfOk result (λ r. r.0.own ≡ map (λ w. w.hand.own) works.items) }
    ensures out { IfOk result (λ r. r.0.out ≡ 0) }
    ensures count { IfOk result (λ r. vec_len r.2 ≡ vec_len works) }
    ensures works { IfOk result (λ r. BringsTogether M.mind (deques_of (map (λ x. x.hand.own) works.items))
        works.items r.0.taken r.1.items r.2.items) }
{
    let mut hands = Vec::with_capacity(alloc, works.len())?;
    let count = works.iter().fold(
        0,
        |count: usize, work| count.saturating_add(work.done.len()),
    );
    let mut done = Vec::with_capacity(alloc, count)?;
    let mut slips = Vec::with_capacity(alloc, works.len())?;
    for mut work in works {
        done.append(&mut work.done)?;
        hands.push(work.hand)?;
        slips.push(work.slip)?;
    }
    Ok((Rest::of_hands(alloc, hands)?, done, slips))
}

/// The starter runs what no worker took, once their hands are back. In practice that is nothing: a worker ends where it
/// finds every deque empty. The gate sees it under number 0.
pub(crate) fn run_rest<M: Process, G: Gate, R: Wait>(
    rt: &R,
    shared: &Shared<'_, M, G>,
    rest: &mut Rest<Berth<M>>,
    mut slip: Slip,
) -> Result<(Vec<Berth<M>>, Slip), RunError>
    requires out { rest.old.out ≡ 0 }
    requires slip { slip ≡ unused shared.now.mailboxes.now }
    requires ready { AreReady M.mind shared.now.window.now (all_put rest.old.own) }

    ensures rest { IfOk result (λ r. IsRestIn M.mind shared.now rest.old rest.new r.1 r.0.items) }
    ensures errors { IfErr result IsRefusalOfOne }
    ensures limit { IsErrOf result RunError.Limit
        → IsOneTooLong M.mind shared.now.window.now (all_put rest.old.own) }
{
    let mut done = Vec::new(shared.alloc);
    let mut tray = slip.tray()?;
    for _ in rt.forever() {
        let Some(berth) = rest.take_last() else {
            break;
        };
        run_taken(rt, shared, 0, berth, &mut slip, &mut tray, &mut done)?;
    }
    shared.mailboxes.post_all(rt, &mut slip, &mut tray, 0)?;
    slip.keep(tray);
    Ok((done, slip))
}
