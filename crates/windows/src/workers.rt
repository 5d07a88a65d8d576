//! The workers of a window: each takes berths, its own and then others', until none is left, runs them, and gives them
//! back when it is joined.
ghost use Rattle.std.specs.{Prelude.{◌≡◌, ◌≤◌, ◌⊎◌, ◌++◌, [], ◌∷◌, IfOk, IfErr, OnOk, IsErrOf, Ok, vec_len}, List.{All}, Thread.{IsSync}};
ghost use Rattle.mailboxes.specs.Mailboxes.{with_lists};
ghost use Rattle.process_api.specs.declared.run_error.RunError.TheVariants.{Memory, Spawn};
ghost use Rattle.windows.specs.{Berth.{IsLong}, Plan.{most_workers}, Stage.{rank_of, AreThere, IsFirstRefusal, IsRefusalOfOne}, Inside.Workers.{ArePosting, IsStart, IsAnswerTo, AreAnswers, RunsOneMore, IsReady}};

use crate::berth::{Berth, run_into};
use crate::chore::Chore;
use crate::gate::Gate;
use crate::shared::Shared;
use deques::Hand;
use mailboxes::{Slip, Tray};
use process_api::{Process, RunError};
use std::alloc::AllocError;
use std::snapshot::Snapshot;
use std::sync::Wait;
use std::thread::{Promise, PromisedHandle, Scope, Threads};

/// A worker posts its letters when a process's turn ends and about so many wait in its tray, or when it has run its
/// last process. Fewer are kept back, so that more of them go to one receiver in a row. More would leave the
/// processor's caches.
const MANY_LETTERS: usize = 1024;

/// The place of the receiver to whom a worker posts first. Workers begin far from one another, so that they seldom post
/// to one receiver at once.
fn first_receiver(worker: u16, workers: usize, receivers: usize) -> usize {
    usize::from(worker).wrapping_mul(receivers) / workers.max(1)
}

/// What a worker begins with: its hand, by which it takes berths, and its slip.
#[derive(Drop)]
pub(crate) struct Start<M> {
    pub hand: Hand<Berth<M>>,
    pub slip: Slip,
}

/// What a worker gives back: its hand, its slip, and the berths that it ran.
#[derive(Drop)]
pub(crate) struct Work<M> {
    pub hand: Hand<Berth<M>>,
    pub slip: Slip,
    pub done: Vec<Berth<M>>,
}

/// A process trades memory with the first that the worker ran, if there is one. It does so before it runs and after
/// that, so that all of a worker's processes have their events of the window in one memory, which stays near its
/// processor. In the next window the worker often begins with the same process.
fn swap_memory<M>(done: &mut Vec<Berth<M>>, berth: &mut Berth<M>)
    ensures done { done.new.items ≡ done.old.items }
    ensures berth { berth.new ≡ berth.old }
{
    if done.is_empty() {
        return;
    }
    done[0].pending.swap_memory(&mut berth.pending);
}

/// Tells the gate of a berth that worker `worker` has taken, runs it, and adds it to those that are done.
///
/// # Errors
///
/// `Limit` only where the process has more events below the window's end than entries fit, and `Memory` where memory
/// was refused.
pub(crate) fn run_taken<M: Process, G: Gate, R: Wait>(
    rt: &R,
    shared: &Shared<'_, M, G>,
    worker: u16,
    mut berth: Berth<M>,
    slip: &mut Slip,
    tray: &mut Tray,
    done: &mut Vec<Berth<M>>,
) -> Result<(), RunError>
    requires ready { IsReady M.mind shared.now.window.now.streams berth }
    requires posting { ArePosting shared.now.mailboxes.now slip.old tray.old }

    ensures posting { OnOk result (ArePosting shared.now.mailboxes.now slip.new tray.new) }
    ensures ran { OnOk result (RunsOneMore M.mind shared.now berth (with_lists slip.old tray.old)
        (with_lists slip.new tray.new) done.old.items done.new.items) }
    ensures errors { IfErr result IsRefusalOfOne }
    ensures limit { IsErrOf result RunError.Limit → IsLong M.mind shared.now.window.now.streams
        shared.now.window.now.end shared.now.window.now.left berth }
{
    shared.gate.entered(rt, worker, berth.pid());
    let window = shared.window;
    swap_memory(done, &mut berth);
    run_into(
        rt,
        &mut berth,
        window.end,
        &window.streams,
        tray,
        window.left,
    )?;
    swap_memory(done, &mut berth);
    done.push(berth)?;
    // as if each receiver had as many as the first, since a process often sends to all
    if tray.waiting(0).saturating_mul(tray.receivers()) < MANY_LETTERS {
        return Ok(());
    }
    let first = first_receiver(worker, shared.fronts.len(), tray.receivers());
    shared.mailboxes.post_all(rt, slip, tray, first)?;
    Ok(())
}

/// The work of one worker, which has the number `worker` in this window: it takes berths until every deque was found
/// empty, and runs each. It holds no lock.
///
/// Nothing is put into a deque once the workers have begun, so one that was found empty stays empty. No clause says
/// that a worker goes on until then, since an empty deque leaves no record. A test shows that the starter finds nothing
/// left.
///
/// # Errors
///
/// `Limit` only where one of the window's processes has more events below its end than entries fit, and `Memory` where
/// memory was refused. Its berths are gone then.
pub(crate) fn run_berths<M: Process, G: Gate, R: Wait>(
    rt: &R,
    shared: &Shared<'_, M, G>,
    worker: u16,
    start: Start<M>,
) -> Result<Work<M>, RunError>
    requires { IsStart M.mind shared.now start }
    ensures { IsAnswerTo M.mind shared.now start result }
{
    let Start { mut hand, mut slip } = start;
    let mut tray = slip.tray()?;
    let first = first_receiver(worker, shared.fronts.len(), tray.receivers());
    let share = tray.receivers().div_ceil(shared.fronts.len().max(1));
    let mut done = Vec::with_capacity(shared.alloc, share)?;
    for _ in rt.forever() {
        let Some(berth) = hand.take(rt, shared.fronts) else {
            break;
        };
        run_taken(rt, shared, worker, berth, &mut slip, &mut tray, &mut done)?;
    }
    shared.mailboxes.post_all(rt, &mut slip, &mut tray, first)?;
    slip.keep(tray);
    Ok(Work { hand, slip, done })
}

// What a worker's result keeps: it is its work, or the reason why there is none.
#[derive(Drop)]
struct WorkAt<'s, M, G> {
    start: Snapshot<Start<M>>,
    shared: Snapshot<Shared<'s, M, G>>,
}

impl<'s, M: Process, G: Gate> Promise<Result<Work<M>, RunError>> for WorkAt<'s, M, G> {
    ghost use Rattle.windows.specs.Inside.Workers.{IsAnswerTo};

    ghost kept_by = { λ p r. IsAnswerTo M.mind p.shared.value p.start.value r };
}

/// Which refusal comes first: the least number does.
fn rank(refusal: RunError) -> u8
    ensures { result ≡ rank_of refusal }
{
    match refusal {
        RunError::Spawn => 0,
        RunError::Memory => 1,
        RunError::Limit => 2,
        RunError::Write => 3,
    }
}

/// Both answers, or the first of their refusals: that of a thread comes before that of memory, and this before that of
/// a place in the trace.
pub fn both<A: Drop, B: Drop>(
    left: Result<A, RunError>,
    right: Result<B, RunError>,
) -> Result<(A, B), RunError>
    ensures ok { IfOk result (λ r. (left ≡ Ok r.0) × (right ≡ Ok r.1)) }
    ensures err { IfErr result (IsFirstRefusal left right) }
{
    match (left, right) {
        (Ok(a), Ok(b)) => Ok((a, b)),
        (Ok(_), Err(e)) => Err(e),
        (Err(e), Ok(_)) => Err(e),
        (Err(e), Err(f)) => Err(if rank(e) <= rank(f) { e } else { f }),
    }
}

/// The work of all: that of those who were started before, and that of one more.
///
/// # Errors
///
/// The first of their refusals. Where there is none, `Memory`: memory was refused.
fn all_works<M: Drop>(
    before: Result<Vec<Work<M>>, RunError>,
    mine: Result<Work<M>, RunError>,
) -> Result<Vec<Work<M>>, RunError>
    ensures ok { IfOk result (λ works. (b : _) × (w : _)
        × (before ≡ Ok b) × (mine ≡ Ok w) × (works.items ≡ b.items ++ w ∷ [])) }
    ensures err { IfErr result (λ e. IsFirstRefusal before mine e ⊎ ((e ≡ Memory) × AreThere before mine)) }
{
    let (mut works, work) = both(before, mine)?;
    works.push(work)?;
    Ok(works)
}

/// Starts a worker in a thread of its own.
///
/// # Errors
///
/// `Spawn` where the thread was refused.
fn start_worker<'s, E, M: Process + 's, G: Gate, R: Threads + Wait + Sync>(
    scope: &'s Scope<'s, E>,
    rt: &'s R,
    shared: &'s Shared<'s, M, G>,
    worker: u16,
    start: Start<M>,
) -> Result<PromisedHandle<Result<Work<M>, RunError>, WorkAt<'s, M, G>>, RunError>
    requires { IsStart M.mind shared.now start }
    ensures shared { IfOk result (λ child. child.promise.shared.value ≡ shared.now) }
    ensures start { IfOk result (λ child. child.promise.start.value ≡ start) }
    ensures err { IfErr result (λ e. e ≡ Spawn) }
{
    let promise = WorkAt {
        start: Snapshot::of(&start),
        shared: Snapshot::of(shared),
    };
    let started = scope.spawn_with(
        promise,
        move || -> Result<Work<M>, RunError>
            requires { IsSync R.row × IsSync G.row × IsStart M.mind shared.now start }
            ensures { IsAnswerTo M.mind shared.entry.now start result }
        { run_berths(rt, shared, worker, start) },
    );
    let Ok(child) = started else {
        return Err(RunError::Spawn);
    };
    Ok(child)
}

/// Starts a worker for each beginning, and joins them. The workers have the numbers from 1 to that of the beginnings.
/// While they run, the starter does its chore. Where a thread is refused, those that were started are joined first.
///
/// # Errors
///
/// The first that some worker met, or that the start of one met: `Spawn` where a thread was refused, `Memory` where
/// memory was, and `Limit` only where one of the window's processes has more events below its end than entries fit.
pub(crate) fn start_workers<'s, E, M: Process + 's, G: Gate, C: Chore, R: Threads + Wait + Sync>(
    scope: &'s Scope<'s, E>,
    rt: &'s R,
    shared: &'s Shared<'s, M, G>,
    mut starts: Vec<Start<M>>,
    chore: &mut C,
) -> Result<Vec<Work<M>>, RunError>
    requires starts { All (IsStart M.mind shared.now) starts.items }
    requires few { vec_len starts ≤ most_workers }
    requires chore { C.waits chore.old }
    ensures works { AreAnswers M.mind shared.now starts.items result }
    ensures chore { C.done chore.old chore.new }
    ensures place { C.place chore.new ≡ C.place chore.old }
{
    let Some(start) = starts.pop() else {
        chore.work(shared.alloc);
        return Ok(Vec::new(shared.alloc));
    };
    let worker = starts.len() as u16 + 1;
    match start_worker(scope, rt, shared, worker, start) {
        Ok(child) => {
            let rest = start_workers(scope, rt, shared, starts, chore);
            let mine = child.join(rt);
            all_works(rest, mine)
        }
        Err(refusal) => {
            chore.work(shared.alloc);
            Err(refusal)
        }
    }
}
