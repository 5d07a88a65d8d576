//! One window on one thread, whose berths are called one after the other in a given order.
ghost use Rattle.std.specs.{Prelude.{◌≡◌, length, IfOk, IsPermutation}, List.{All}};
ghost use Rattle.mailboxes.specs.Mailboxes.{IsSlipOf};
ghost use Rattle.windows.specs.{Berth.{IsBerthOf}, Plan.{IsPlanFor}, Stage.{IsStage}};

use event_list::RunError;
use mailboxes::{Mailboxes, SharedMailboxes, Slip};
use process_api::{Letter, Pid, Process};
use std::alloc::Global;
use std::marker::Sync;
use std::sync::Wait;
use std::thread::Threads;
use streams::Streams;
use windows::{Berth, OpenGate, Plan, Stage, run_berth, run_window};

/// The place of a process in an order; after all others where it isn't there.
fn place_in(order: &[u16], p: Pid) -> usize {
    let mut place: usize = 0;
    for number in order {
        if *number == p.number() {
            break;
        }
        place = place.saturating_add(1);
    }
    place
}

/// The berths in this order of their processes' numbers.
fn in_given_order<M: Process>(mut berths: Vec<Berth<M>>, order: &[u16]) -> Vec<Berth<M>>
    ensures { IsPermutation berths.items result.items }
{
    berths.sort_unstable_by_key(|berth| place_in(order, berth.pid()));
    berths
}

/// How many letters these lists have.
fn count(lists: &[Vec<Letter>]) -> usize {
    let mut letters: usize = 0;
    for list in lists {
        letters = letters.saturating_add(list.len());
    }
    letters
}

/// A stage after so many of its windows, or at the horizon.
pub fn after_windows<'s, M: Process, R: Threads + Wait + Sync>(
    rt: &R,
    alloc: Global,
    mut stage: Stage<'s, M>,
    plan: &Plan,
    windows: usize,
) -> Result<Stage<'s, M>, RunError>
    requires stage { IsStage M.mind stage }
    requires plan { IsPlanFor stage.scenario.now plan.now }
    ensures stage { IfOk result (IsStage M.mind) }
{
    for _ in 0..windows {
        if stage.finished() {
            break;
        }
        let part = run_window(rt, alloc, &mut stage, plan, &OpenGate)?;
        drop(part);
    }
    Ok(stage)
}

/// Calls the berths one after the other, in their order, each up to the tick before `end` and then up to `end`, with
/// room for `left` entries.
fn call_berths<M: Process, R: Wait>(
    rt: &R,
    alloc: Global,
    streams: &Streams<'_>,
    end: u32,
    left: u64,
    mailboxes: &SharedMailboxes,
    slip: &mut Slip,
    berths: Vec<Berth<M>>,
) -> Result<Vec<Berth<M>>, RunError>
    requires ready { All (IsBerthOf M.mind streams.now) berths.items }
    requires slip { IsSlipOf mailboxes.now slip.old }
    requires boxes { length mailboxes.now ≡ streams.now.processes }
    ensures { IsSlipOf mailboxes.now slip.new }
{
    let mut done = Vec::new(alloc);
    for mut berth in berths {
        let middle = end.saturating_sub(1);
        run_berth(rt, &mut berth, middle, streams, mailboxes, slip, left)?;
        run_berth(rt, &mut berth, end, streams, mailboxes, slip, left)?;
        done.push(berth)?;
    }
    Ok(done)
}

/// Calls the berths of a stage in a given order up to tick `end`, each with room for so many entries. Answers the
/// berths, and how many letters were posted.
pub fn call_window<M: Process, R: Wait>(
    rt: &R,
    alloc: Global,
    stage: Stage<'_, M>,
    end: u32,
    left: u64,
    order: &[u16],
) -> Result<(Vec<Berth<M>>, usize), RunError>
    requires { IsStage M.mind stage }
{
    let scenario = stage.scenario();
    let mut mailboxes = Mailboxes::new(alloc, scenario.processes())?;
    let mut slip = mailboxes.slip(alloc)?;
    let streams = Streams::new(scenario);
    let berths = in_given_order(stage.into_berths(), order);
    let shared = mailboxes.shared();
    let berths = call_berths(rt, alloc, &streams, end, left, shared, &mut slip, berths)?;
    let letters = mailboxes.collect(rt, alloc, vec![in alloc; slip]?)?;
    Ok((berths, count(&letters)))
}
