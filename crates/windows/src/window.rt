//! One window: workers share the processes that have something to do in it, and their results are put in order.
ghost use Rattle.std.specs.{Prelude.{◌≡◌, ◌≤◌, ◌<◌, ◌+◌, ◌++◌, ◌⊎◌, ℕ, List, length, map, min, IfOk, IfErr, OnOk, IsErrOf, vec_len}, List.{All}, Thread.{IsSync}};
ghost use Rattle.{process_api.specs.Order.{EntryRecord}, steps.specs.Seat.{own_of}};
ghost use Rattle.mailboxes.specs.Mailboxes.{IsSlipOf, unused};
ghost use Rattle.windows.specs.{Inside.{Closing.{HasNextWindow, IsNextWindow}, Workers.{AreReady, IsOneTooLong, IsStart, IsWorkIn, AreAnswers, HadWindow, IsOutcome, RiseBy, given_to}}, Plan.{IsPlanFor, most_workers}};
ghost use Rattle.windows.specs.Stage.{IsOverLimit, IsRefusal, IsRefusalOfOne, IsCountOfWorkers, IsStage, IsStageAfter, IsWindowRun, StartedWorkers};
ghost use Rattle.deques.specs.Deques.{deques_of};

use crate::berth::Berth;
use crate::chore::Chore;
use crate::gate::Gate;
use crate::gather::{gather, part, run_rest, starts_of};
use crate::plan::Plan;
use crate::shared::{Crew, Shared, Window};
use crate::stage::{Ran, Stage};
use crate::workers::{Start, Work, start_workers};
use deques::deal;
use mailboxes::{Mailboxes, Slip};
use process_api::{Entry, Process, RunError};
use std::alloc::{AllocError, Global};
use std::mem::replace;
use std::sync::Wait;
use std::thread;
use std::thread::Threads;
use streams::Streams;
use trace_merge::merge;

/// Starts the workers in a scope of their own, in which each is joined. Meanwhile the starter does its chore.
fn in_threads<M: Process, G: Gate, C: Chore, R: Threads + Wait + Sync>(
    rt: &R,
    shared: &Shared<'_, M, G>,
    starts: Vec<Start<M>>,
    chore: &mut C,
) -> Result<Vec<Work<M>>, RunError>
    requires starts { All (IsStart M.mind shared.now) starts.items }
    requires few { vec_len starts ≤ most_workers }
    requires chore { C.waits chore.old }
    ensures works { AreAnswers M.mind shared.now starts.items result }
    ensures chore { C.done chore.old chore.new }
    ensures place { C.place chore.new ≡ C.place chore.old }
{
    // A proof knows what a closure leaves behind a reference only if the closure answers that reference.
    let (works, _chore) = thread::scope(
        thread::scope_env(),
        rt,
        |scope| -> (Result<Vec<Work<M>>, RunError>, &mut C)
            requires { IsSync R.row × IsSync G.row × All (IsStart M.mind shared.now) starts.items
                × (vec_len starts ≤ most_workers) × C.waits chore.now }
            ensures works { AreAnswers M.mind shared.entry.now starts.items result.0 }
            ensures same { result.1.ghost_name ≡ chore.entry.ghost_name }
            ensures chore { C.done chore.entry.now result.1.now }
            ensures place { C.place result.1.now ≡ C.place chore.entry.now }
        {
            let works = start_workers(scope, rt, shared, starts, chore);
            (works, chore)
        },
    );
    works
}

/// What the workers did, with what no worker took, which the starter runs by a slip of its own. Answers the berths that
/// were run, and all slips. Once the workers are joined no thread is refused.
fn bring_together<M: Process, G: Gate, R: Wait>(
    rt: &R,
    shared: &Shared<'_, M, G>,
    works: Vec<Work<M>>,
    slip: Slip,
) -> Result<(Vec<Berth<M>>, Vec<Slip>), RunError>
    requires deques { shared.now.fronts.now.items ≡ deques_of (map (λ w. w.hand.own) works.items) }
    requires slip { slip ≡ unused shared.now.mailboxes.now }
    requires ready { AreReady M.mind shared.now.window.now (given_to works.items) }
    requires works { All (IsWorkIn M.mind shared.now) works.items }

    ensures slips { IfOk result (λ r. vec_len r.1 ≡ vec_len works + 1) }
    ensures run { IfOk result (λ r.
        HadWindow M.mind shared.now.window.now shared.now.mailboxes.now (given_to works.items) r.0.items r.1.items) }
    ensures errors { IfErr result IsRefusalOfOne }
    ensures limit { IsErrOf result RunError.Limit
        → IsOneTooLong M.mind shared.now.window.now (given_to works.items) }
{
    let (mut rest, mut done, mut slips) = gather(shared.alloc, works)?;
    let (mut last, slip) = run_rest(rt, shared, &mut rest, slip)?;
    done.append(&mut last)?;
    slips.push(slip)?;
    Ok((done, slips))
}

/// Runs the processes with an event below the window's end, by at most so many workers. These take the berths that were
/// dealt, and the starter, by a slip of its own, what is left. It does its chore meanwhile. Answers all berths, in some
/// order, and the slips: one for each worker, and the starter's.
fn run_berths_of<M: Process, G: Gate, C: Chore, R: Threads + Wait + Sync>(
    rt: &R,
    crew: &Crew<'_, G>,
    mailboxes: &mut Mailboxes,
    window: &Window<'_>,
    berths: Vec<Berth<M>>,
    chore: &mut C,
) -> Result<(Vec<Berth<M>>, Vec<Slip>), RunError>
    requires some { 0 < crew.now.workers }
    requires few { crew.now.workers ≤ most_workers }
    requires slips { mailboxes.old.slips ≡ 0 }
    requires boxes { length mailboxes.old.mailboxes ≡ window.now.streams.processes }
    requires ready { AreReady M.mind window.now berths.items }
    requires chore { C.waits chore.old }

    ensures mailboxes { OnOk result (mailboxes.new.mailboxes ≡ mailboxes.old.mailboxes) }
    ensures slips { IfOk result (λ r. vec_len r.1 ≡ mailboxes.new.slips) }
    ensures workers { IfOk result (λ r. (started : ℕ)
        × IsCountOfWorkers window.now.end crew.now.workers berths.items started × (vec_len r.1 ≡ started + 1)) }
    ensures run { IfOk result (λ r.
        HadWindow M.mind window.now mailboxes.old.mailboxes berths.items r.0.items r.1.items) }
    ensures worked { OnOk result (C.done chore.old chore.new) }
    ensures chore { (chore.new ≡ chore.old) ⊎ C.done chore.old chore.new }
    ensures place { C.place chore.new ≡ C.place chore.old }
    ensures errors { IfErr result IsRefusal }
    ensures limit { IsErrOf result RunError.Limit → IsOneTooLong M.mind window.now berths.items }
{
    let alloc = crew.alloc;
    let (waiting, mut idle) = part(alloc, window.end, berths)?;
    let count = waiting.len().min(usize::from(crew.workers));
    let (fronts, dealer) = deal(alloc, count, waiting)?;
    let slip = mailboxes.slip(alloc)?;
    let starts = starts_of(alloc, dealer, mailboxes)?;
    let shared = Shared {
        alloc,
        window,
        gate: crew.gate,
        fronts: &fronts,
        mailboxes: mailboxes.shared(),
    };
    let works = in_threads(rt, &shared, starts, chore);
    let (mut done, slips) = bring_together(rt, &shared, works?, slip)?;
    done.append(&mut idle)?;
    Ok((done, slips))
}

/// The mailboxes for so many processes: those that are kept, or new ones.
fn mailboxes_for(
    alloc: Global,
    kept: Option<Mailboxes>,
    processes: u16,
) -> Result<Mailboxes, AllocError>
    ensures count { IfOk result (λ m. length m.mailboxes ≡ processes) }
    ensures slips { IfOk result (λ m. m.slips ≡ 0) }
{
    match kept {
        Some(mailboxes) if mailboxes.are_new(processes) => Ok(mailboxes),
        _ => Mailboxes::new(alloc, processes),
    }
}

/// Runs one window of all processes. Answers their berths, of process 1 first, and the mailboxes with all slips, by
/// which the letters of the window were posted.
fn run_all<M: Process, G: Gate, C: Chore, R: Threads + Wait + Sync>(
    rt: &R,
    crew: &Crew<'_, G>,
    mut mailboxes: Mailboxes,
    window: &Window<'_>,
    berths: Vec<Berth<M>>,
    chore: &mut C,
) -> Result<Ran<M>, RunError>
    requires some { 0 < crew.now.workers }
    requires few { crew.now.workers ≤ most_workers }
    requires boxes { length mailboxes.mailboxes ≡ window.now.streams.processes }
    requires slips { mailboxes.slips ≡ 0 }
    requires ready { AreReady M.mind window.now berths.items }
    requires rising { RiseBy (λ b. own_of M.mind b.seat) berths.items }
    requires chore { C.waits chore.old }

    ensures boxes { IfOk result (λ r. length r.mailboxes.mailboxes ≡ window.now.streams.processes) }
    ensures all { IfOk result (λ r. vec_len r.slips ≡ r.mailboxes.slips) }
    ensures workers { IfOk result (λ r. IsCountOfWorkers window.now.end crew.now.workers berths.items r.workers) }
    ensures few { IfOk result (λ r. r.workers + 1 ≡ vec_len r.slips) }
    ensures slips { IfOk result (λ r. All (IsSlipOf r.mailboxes.mailboxes) r.slips.items) }
    ensures outcome { IfOk result (λ r.
        IsOutcome M.mind window.now.streams window.now.end berths.items r.berths.items r.slips.items) }
    ensures worked { OnOk result (C.done chore.old chore.new) }
    ensures chore { (chore.new ≡ chore.old) ⊎ C.done chore.old chore.new }
    ensures place { C.place chore.new ≡ C.place chore.old }
    ensures errors { IfErr result IsRefusal }
    ensures limit { IsErrOf result RunError.Limit → IsOneTooLong M.mind window.now berths.items }
{
    let (mut done, slips) = run_berths_of(rt, crew, &mut mailboxes, window, berths, chore)?;
    done.sort_unstable_by_key(|berth| berth.pid().number());
    Ok(Ran {
        berths: done,
        mailboxes,
        workers: slips.len() - 1,
        slips,
    })
}

/// Runs the next window of a stage, as [`run_window`] does, but answers its parts, which aren't merged yet. The starter
/// does its chore meanwhile, unless the window was refused before a worker began. The next window's parts may lie in
/// the memory that the chore gives up.
///
/// # Errors
///
/// As [`run_window`].
pub(crate) fn run_parts<M: Process, G: Gate, C: Chore, R: Threads + Wait + Sync>(
    rt: &R,
    alloc: Global,
    stage: &mut Stage<'_, M>,
    plan: &Plan,
    gate: &G,
    chore: &mut C,
) -> Result<Vec<Vec<Entry>>, RunError>
    requires window { HasNextWindow M.mind plan.now stage.old }
    requires chore { C.waits chore.old }

    ensures window { IfOk result (λ parts. IsNextWindow M.mind plan.now stage.old parts.items stage.new) }
    ensures chore { (chore.new ≡ chore.old) ⊎ C.done chore.old chore.new }
    ensures place { C.place chore.new ≡ C.place chore.old }
    ensures errors { IfErr result IsRefusal }
    ensures limit { IsErrOf result RunError.Limit → IsOverLimit stage.old.scenario.now }
{
    let scenario = stage.scenario;
    let processes = scenario.processes();
    let mailboxes = mailboxes_for(alloc, stage.mailboxes.take(), processes)?;
    let end = (stage.start + plan.window()).min(scenario.horizon());
    let left = scenario.limit() - stage.so_far;
    let streams = Streams::new(scenario);
    let window = Window { streams, end, left };
    let berths = replace(&mut stage.berths, Vec::new(alloc));
    let workers = plan.workers();
    let crew = Crew {
        alloc,
        gate,
        workers,
    };
    let ran = run_all(rt, &crew, mailboxes, &window, berths, chore)?;
    let mut rooms = chore.rooms(alloc);
    stage.close(rt, alloc, ran, left, &mut rooms)
}

/// Runs the next window of a stage. The smaller of the plan's workers and the number of processes with an event below
/// the window's end are started, each a thread. These processes are dealt to them in turn; a worker takes its own, one
/// after the other, then those of others that are left, and runs them; and the workers are joined. Then each process
/// gets its mailbox with its letters, and the parts of the trace are merged. Answers the merged part. The next window
/// starts at the least pending tick, so that none is opened in which nothing happens.
///
/// # Errors
///
/// `Spawn` where a thread was refused, `Memory` where memory was, and `Limit` only where the whole trace has more
/// entries than the scenario's limit; where several can be answered, the first of them. The stage may only be dropped
/// then.
pub fn run_window<M: Process, G: Gate, R: Threads + Wait + Sync>(
    rt: &R,
    alloc: Global,
    stage: &mut Stage<'_, M>,
    plan: &Plan,
    gate: &G,
) -> Result<Vec<Entry>, RunError>
    requires stage { IsStage M.mind stage.old }
    requires plan { IsPlanFor stage.old.scenario.now plan.now }
    requires open { stage.old.start < stage.old.scenario.now.horizon }

    ensures scenario { OnOk result (stage.new.scenario.now ≡ stage.old.scenario.now) }
    ensures stage { IfOk result (λ part. (trace : List EntryRecord)
        → IsStageAfter M.mind trace stage.old → IsStageAfter M.mind (trace ++ part.items) stage.new) }
    ensures run { IfOk result (λ part. IsWindowRun M.mind plan.now.window stage.old stage.new part.items) }
    ensures workers { IfOk result (λ _. StartedWorkers plan.now stage.old stage.new) }
    ensures errors { IfErr result IsRefusal }
    ensures limit { IsErrOf result RunError.Limit → IsOverLimit stage.old.scenario.now }
{
    let parts = run_parts(rt, alloc, stage, plan, gate, &mut ())?;
    merge(alloc, parts)
}
