//! All processes between two windows.
ghost use Rattle.std.specs.{Prelude.{◌≡◌, ◌≤◌, ◌<◌, ◌+◌, ◌^◌, [], ℕ, map, vec_len, length, IfErr, IfNone, IfOk, IfSome, OnOk, IsErrOf, nat_eq}, List.{All}};
ghost use Rattle.{process_api.specs.Place.{numbers_to}, scenario_record.specs.Record.{opening_mind}};
ghost use Rattle.trace_laws.specs.{Setting.{setting_of}, World.{joined, opened, opening}, Taken.{event_of}};
ghost use Rattle.{steps.specs.Seat.{process_of, IsMindIn}, mailboxes.specs.Mailboxes.{IsSlipOf, posted_to}};
ghost use Rattle.trace_merge.specs.Parts.{all_of};
ghost use Rattle.windows.specs.{Inside.{Agenda.{AreOne, in_box}, Closing.{delivered, kept_in, IsClosed}}, Stage.{IsRefusalOfOne, stage_of, IsOpened, IsNextStart, IsStageAfter}};
ghost use Rattle.window_laws.specs.Machine.{StandsFor};

use crate::agenda::Agenda;
use crate::berth::Berth;
use mailboxes::{Inbox, Mailboxes, Slip};
use process_api::{Entry, Process, RunError};
use scenario_record::Scenario;
use std::alloc::{AllocError, Global};
use std::mem::replace;
use std::sync::Wait;

/// All processes of a scenario between two windows: each in its berth, the tick at which the next window starts, and
/// how many entries the trace has so far. The parameter has no bound here, so that machines may be boxed.
#[derive(Drop)]
pub struct Stage<'s, M = Box<dyn Process>> {
    pub(crate) scenario: &'s Scenario,
    // of each process, of process 1 first
    pub(crate) berths: Vec<Berth<M>>,
    pub(crate) start: u32,
    // how many entries the windows so far have
    pub(crate) so_far: u64,
    /// How many workers ran the window before, and 0 where there was none.
    pub(crate) workers: usize,
    // those of the window before the last, if there was one, to be used again
    pub(crate) mailboxes: Option<Mailboxes>,
}

/// What the workers of a window left: the berths, of process 1 first, the mailboxes, and all slips.
#[derive(Drop)]
pub(crate) struct Ran<M> {
    pub berths: Vec<Berth<M>>,
    pub mailboxes: Mailboxes,
    pub slips: Vec<Slip>,
    /// How many workers there were.
    pub workers: usize,
}

/// The machines, each in its berth with its start.
fn berths_of<M: Process>(
    alloc: Global,
    scenario: &Scenario,
    machines: Vec<M>,
) -> Result<Vec<Berth<M>>, AllocError>
    requires { All (λ m. IsMindIn scenario.now (M.mind m)) machines.items }
    ensures processes { IfOk result (λ v.
        map (λ b. process_of M.mind b.seat) v.items ≡ map opened (map M.mind machines.items)) }
    ensures berths { IfOk result (λ v. All (IsOpened M.mind scenario.now) v.items) }
{
    let mut berths = Vec::new(alloc);
    for machine in machines {
        let pending = Agenda::new(alloc, machine.pid())?;
        berths.push(Berth::new(alloc, scenario, machine, pending)?)?;
    }
    Ok(berths)
}

// One inbox more, if there is one.
fn keep(kept: &mut Vec<Inbox>, inbox: Option<Inbox>) -> Result<(), AllocError>
    requires inbox { in_box inbox ≡ [] }
    requires kept { All (λ i. i ≡ []) kept.old.items }
    ensures { OnOk result (All (λ i. i ≡ []) kept.new.items) }
{
    if let Some(inbox) = inbox {
        kept.push(inbox)?;
    }
    Ok(())
}

/// An empty list for about so many entries, in the memory of the last room where that is large enough. A room that is
/// too small is dropped.
fn empty_part(
    alloc: Global,
    rooms: &mut Vec<Vec<Entry>>,
    count: usize,
) -> Result<Vec<Entry>, AllocError>
    ensures { IfOk result (λ part. part.items ≡ []) }
{
    match rooms.pop() {
        Some(mut room) if count <= room.capacity() => {
            room.clear();
            Ok(room)
        }
        _ => Vec::with_capacity(alloc, count.saturating_add(count / 8)),
    }
}

/// A berth gets its mailbox with the letters, and gives its part of the window. The mailbox that it had before is empty
/// and kept.
fn hand_over_one<M, R: Wait>(
    rt: &R,
    alloc: Global,
    berth: &mut Berth<M>,
    inbox: Inbox,
    rooms: &mut Vec<Vec<Entry>>,
    emptied: &mut Vec<Inbox>,
) -> Result<Vec<Entry>, AllocError>
    requires one { AreOne inbox }
    requires emptied { All (λ i. i ≡ []) emptied.old.items }
    ensures berth { OnOk result
        (kept_in berth.new ≡ (berth.old.seat, joined berth.old.pending (map event_of inbox), [])) }
    ensures part { IfOk result (λ part. part.items ≡ berth.old.part.items) }
    ensures emptied { OnOk result (All (λ i. i ≡ []) emptied.new.items) }
{
    keep(emptied, berth.pending.deliver(rt, inbox)?)?;
    // at least as much room as this window's part took
    let next = empty_part(alloc, rooms, berth.part.len())?;
    Ok(replace(&mut berth.part, next))
}

/// Each berth gives its part of the window, and gets its mailbox with the letters. Both lists have process 1 first.
/// Answers the berths, the parts in the same order, and the mailboxes that the berths had before, which are empty.
fn hand_over<M: Process, R: Wait>(
    rt: &R,
    alloc: Global,
    berths: Vec<Berth<M>>,
    inboxes: Vec<Inbox>,
    rooms: &mut Vec<Vec<Entry>>,
) -> Result<(Vec<Berth<M>>, Vec<Vec<Entry>>, Vec<Inbox>), AllocError>
    requires count { vec_len inboxes ≡ vec_len berths }
    requires one { All AreOne inboxes.items }
    ensures berths { IfOk result (λ r. map kept_in r.0.items ≡ delivered berths.items inboxes.items) }
    ensures parts { IfOk result (λ r. map (λ v. v.items) r.1.items ≡ map (λ b. b.part.items) berths.items) }
    ensures emptied { IfOk result (λ r. All (λ i. i ≡ []) r.2.items) }
{
    let mut done = Vec::with_capacity(alloc, berths.len())?;
    let mut parts = Vec::with_capacity(alloc, berths.len())?;
    let mut emptied = Vec::with_capacity(alloc, berths.len())?;
    let mut inboxes = inboxes.into_iter();
    for mut berth in berths {
        let Some(inbox) = inboxes.next() else {
            unreachable!()
        };
        parts.push(hand_over_one(rt, alloc, &mut berth, inbox, rooms, &mut emptied)?)?;
        done.push(berth)?;
    }
    Ok((done, parts, emptied))
}

/// How many entries the parts have together, if that is at most `left`.
pub(crate) fn count_within(parts: &[Vec<Entry>], left: u64) -> Option<u64>
    ensures over { IfNone result (left < length (all_of (map (λ part. part.items) parts.now))) }
    ensures within { IfSome result (λ made.
        (made ≡ length (all_of (map (λ part. part.items) parts.now))) × (made ≤ left)) }
{
    let mut made = 0;
    for part in parts {
        let more = part.len() as u64;
        if left - made < more {
            return None;
        }
        made += more;
    }
    Some(made)
}

/// The tick at which the next window opens: the least pending tick, or the horizon where none is below it.
fn next_start<M>(berths: &[Berth<M>], horizon: u32) -> u32
    ensures { IsNextStart horizon (map (λ b. b.pending) berths.now) result }
{
    let mut next = horizon;
    for berth in berths {
        if let Some(tick) = berth.pending.least_tick() {
            next = next.min(tick);
        }
    }
    next
}

impl<'s, M: Process> Stage<'s, M> {
    /// The stage at the opening of a run: each machine has its start pending, and there is no entry. There is one
    /// machine for each process, of process 1 first, and each opens as the scenario says.
    ///
    /// # Errors
    ///
    /// `Memory` where memory was refused.
    pub fn open(
        alloc: Global,
        scenario: &'s Scenario,
        machines: Vec<M>,
    ) -> Result<Stage<'s, M>, RunError>
        requires { map M.mind machines.items ≡ map (opening_mind scenario.now) (numbers_to scenario.now.processes) }

        ensures scenario { IfOk result (λ g. g.scenario.now ≡ scenario.now) }
        ensures opening { IfOk result (λ g. (window : ℕ) →
            StandsFor (setting_of scenario.now) window (stage_of M.mind window g) (opening (setting_of scenario.now))) }
        ensures start { IfOk result (λ g. g.start ≡ 0) }
        ensures stage { IfOk result (IsStageAfter M.mind []) }
        ensures errors { IfErr result (λ e. e ≡ RunError.Memory) }
    {
        scenario.recall_ranges();
        let berths = berths_of(alloc, scenario, machines)?;
        Ok(Stage {
            scenario,
            berths,
            start: 0,
            so_far: 0,
            workers: 0,
            mailboxes: None,
        })
    }

    /// The scenario that is run.
    pub fn scenario(&self) -> &'s Scenario
        ensures { result.now ≡ self.now.scenario.now }
    {
        self.scenario
    }

    /// How many entries the windows so far have.
    pub fn so_far(&self) -> u64
        ensures { result ≡ self.now.so_far }
    {
        self.so_far
    }

    /// The berths, of process 1 first.
    pub fn into_berths(self) -> Vec<Berth<M>>
        ensures { result.items ≡ self.entry.berths.items }
    {
        let Stage { berths, .. } = self;
        berths
    }

    /// The first tick of the next window, 0 to the horizon.
    pub fn start(&self) -> u32
        ensures { result ≡ self.now.start }
    {
        self.start
    }

    /// Whether the run has come to the horizon.
    pub fn finished(&self) -> bool
        ensures { result ≡ nat_eq self.now.start self.now.scenario.now.horizon }
    {
        self.start == self.scenario.horizon()
    }

    /// Closes a window: the berths give their parts, and each gets its mailbox, in place of that of the window before,
    /// which is used again. The next window starts at the least pending tick. Answers the parts, which have at most
    /// `left` entries together, and wait to be merged.
    ///
    /// # Errors
    ///
    /// `Limit` where the parts have more than `left` entries together, and `Memory` where memory was refused. The stage
    /// may only be dropped then.
    pub(crate) fn close<R: Wait>(
        &mut self,
        rt: &R,
        alloc: Global,
        ran: Ran<M>,
        left: u64,
        rooms: &mut Vec<Vec<Entry>>,
    ) -> Result<Vec<Vec<Entry>>, RunError>
        requires all { vec_len ran.slips ≡ ran.mailboxes.slips }
        requires slips { All (IsSlipOf ran.mailboxes.mailboxes) ran.slips.items }
        requires boxes { length ran.mailboxes.mailboxes ≡ vec_len ran.berths }
        requires one { (r : ℕ) → 1 ≤ r → r ≤ vec_len ran.berths → AreOne (posted_to ran.slips.items r) }
        requires room { self.old.so_far + left < 2 ^ 64 }

        ensures scenario { self.new.scenario.now ≡ self.old.scenario.now }
        ensures closed { IfOk result (λ parts.
            IsClosed left self.old.so_far ran.workers ran.berths.items ran.slips.items parts.items self.new) }
        ensures errors { IfErr result IsRefusalOfOne }
        ensures limit { IsErrOf result RunError.Limit
            → left < length (all_of (map (λ b. b.part.items) ran.berths.items)) }
    {
        let inboxes = ran.mailboxes.into_inboxes(alloc, ran.slips)?;
        let (berths, parts, emptied) = hand_over(rt, alloc, ran.berths, inboxes, rooms)?;
        let Some(made) = count_within(&parts, left) else {
            return Err(RunError::Limit);
        };
        self.so_far += made;
        self.workers = ran.workers;
        self.start = next_start(&berths, self.scenario.horizon());
        self.berths = berths;
        self.mailboxes = Some(Mailboxes::of_inboxes(alloc, emptied)?);
        Ok(parts)
    }
}
