//! One process of a window: its machine, its pending events, and its part of the trace.
ghost use Rattle.std.specs.Prelude.{◌≡◌, ◌≤◌, ◌<◌, ◌+◌, ◌*◌, ◌^◌, ◌++◌, [], ◌∷◌, ℕ, length, vec_len, IfErr, IfOk, OnOk, IsErrOf};
ghost use Rattle.process_api.specs.Place.{most_step_actions};
ghost use Rattle.steps.specs.Seat.{process_of, own_of, IsMindIn, IsSeated, StaysSeated};
ghost use Rattle.{trace_laws.specs.World.{opened}, mailboxes.specs.Mailboxes.{IsSlipOf}};
ghost use Rattle.windows.specs.{Berth.{all_filed, with_letters, AreFiled, HasRun, IsBerth, IsBerthOf, IsLong}, Inside.Outbox.{made_in, with_own}, Stage.{IsRefusalOfOne}};

use crate::agenda::Agenda;
use crate::outbox::Outbox;
use mailboxes::{SharedMailboxes, Slip, Tray};
use process_api::{Action, Entry, Key, Pid, Process, RunError, StepInput};
use scenario_record::Scenario;
use std::alloc::{AllocError, Global};
use std::sync::Wait;
use steps::{Nobody, Seat};
use streams::Streams;

/// How many entries a part can have. No memory takes so many, and the counts on a link have room for the letters of
/// twice as many.
pub(crate) const MOST_IN_PART: u64 = 1 << 50;

/// A machine in its seat, with the events that are pending for it, and its part of the open window's trace. The
/// parameter has no bound here, so that it may be a boxed machine.
#[derive(Drop)]
pub struct Berth<M = Box<dyn Process>> {
    pub(crate) seat: Seat<M>,
    pub(crate) pending: Agenda,
    // the entries of the open window, in the order of their keys
    pub(crate) part: Vec<Entry>,
    // room for what a machine answers
    actions: Vec<Action>,
}

impl<M: Process> Berth<M> {
    /// The berth of a machine that put nothing on any link, with its pending events.
    ///
    /// # Errors
    ///
    /// `AllocError` where memory was refused.
    pub(crate) fn new(
        alloc: Global,
        scenario: &Scenario,
        machine: M,
        pending: Agenda,
    ) -> Result<Berth<M>, AllocError>
        requires { IsMindIn scenario.now (M.mind machine) }
        ensures process { IfOk result (λ b. process_of M.mind b.seat ≡ opened (M.mind machine)) }
        ensures seated { IfOk result (λ b. IsSeated M.mind scenario.now 0 b.seat) }
        ensures pending { IfOk result (λ b. b.pending ≡ pending) }
        ensures part { IfOk result (λ b. b.part.items ≡ []) }
    {
        let seat = Seat::new(alloc, scenario, machine)?;
        Ok(Berth {
            seat,
            pending,
            part: Vec::new(alloc),
            actions: Vec::new(alloc),
        })
    }

    /// The process that is in this berth.
    pub fn pid(&self) -> Pid
        ensures { result ≡ own_of M.mind self.now.seat }
    {
        self.seat.pid()
    }

    /// The entries of the open window, in the order of their keys.
    pub fn part(&self) -> &[Entry]
        ensures { result.now ≡ self.now.part.items }
    {
        &self.part
    }

    /// Makes the step of an event that was taken from the pending ones: the machine's turn, which hands on what it
    /// causes, and the entry joins the part.
    fn take<R: Wait>(
        &mut self,
        rt: &R,
        streams: &Streams<'_>,
        tray: &mut Tray,
        event: (Key, StepInput),
    ) -> Result<(), AllocError>
        requires seated { (most : ℕ) × IsSeated M.mind streams.now most self.old.seat
            × (most + most_step_actions < 2 ^ 64) }
        requires own { event.0.receiver ≡ own_of M.mind self.old.seat }
        requires tray { length tray.old ≡ streams.now.processes }

        ensures tray { length tray.new ≡ length tray.old }
        ensures process { OnOk result (process_of M.mind self.new.seat
            ≡ (made_in M.mind streams.now self.old.seat event).process) }
        ensures own { OnOk result (own_of M.mind self.new.seat ≡ own_of M.mind self.old.seat) }
        ensures seated { OnOk result (StaysSeated M.mind streams.now self.old.seat self.new.seat) }
        ensures pending { OnOk result (self.new.pending ≡ with_own event.0.receiver self.old.pending
            (made_in M.mind streams.now self.old.seat event).added) }
        ensures part { OnOk result (self.new.part.items
            ≡ self.old.part.items ++ (made_in M.mind streams.now self.old.seat event).entry ∷ []) }
        ensures letters { OnOk result (AreFiled event.0.receiver
            (made_in M.mind streams.now self.old.seat event).added tray.old tray.new) }
    {
        let (key, input) = event;
        let mut outbox = Outbox {
            rt,
            alloc: *self.part.allocator(),
            own: key.receiver,
            pending: &mut self.pending,
            tray: &mut *tray,
        };
        let seat = &mut self.seat;
        let actions = &mut self.actions;
        let entry = seat.turn(streams, (key, input), actions, &mut outbox, &mut Nobody)?;
        self.part.push(entry)?;
        Ok(())
    }
}

/// As [`run_berth`], but the letters come into a tray, where they wait to be posted.
///
/// # Errors
///
/// As [`run_berth`].
pub(crate) fn run_into<M: Process, R: Wait>(
    rt: &R,
    berth: &mut Berth<M>,
    end: u32,
    streams: &Streams<'_>,
    tray: &mut Tray,
    left: u64,
) -> Result<(), RunError>
    requires berth { IsBerthOf M.mind streams.now berth.old }
    requires tray { length tray.old ≡ streams.now.processes }

    ensures tray { length tray.new ≡ length tray.old }
    ensures ran { OnOk result (HasRun M.mind streams.now end berth.old berth.new
        (λ letters. tray.new ≡ all_filed tray.old letters)) }
    ensures berth { OnOk result ((p most : ℕ)
        → IsBerth M.mind streams.now p most berth.old → IsBerth M.mind streams.now p most berth.new) }
    ensures within { OnOk result (vec_len berth.new.part ≤ left) }
    ensures errors { IfErr result IsRefusalOfOne }
    ensures limit { IsErrOf result RunError.Limit → IsLong M.mind streams.now end left berth.old }
{
    if berth.part.len() as u64 > left {
        return Err(RunError::Limit);
    }
    while let Some(event) = berth.pending.take_below(rt, end)? {
        let made = berth.part.len() as u64;
        if made >= left {
            return Err(RunError::Limit);
        }
        if made >= MOST_IN_PART {
            return Err(RunError::Memory);
        }
        berth.take(rt, streams, tray, event)?;
    }
    Ok(())
}

/// Runs every pending event of a berth's process below tick `end`, the least key first. Events for the process itself
/// join its pending ones, and each letter to another process that is due below the horizon is posted by the slip. The
/// entries join the berth's part of the open window. It stops where that would be longer than `left` entries.
///
/// The berth, the streams and the mailboxes are of one scenario, and the slip is of these mailboxes. A berth is of the
/// scenario of the stage that it was in.
///
/// Conservative windows are as in textbooks: R. M. Fujimoto, Parallel and Distributed Simulation Systems, Wiley, 2000.
///
/// # Errors
///
/// `Limit` only where the part has more than `left` entries with the process's events below `end`, and `Memory` where
/// memory was refused, as it is for a part of more than 2^50 entries. The berth may only be dropped then.
pub fn run_berth<M: Process, R: Wait>(
    rt: &R,
    berth: &mut Berth<M>,
    end: u32,
    streams: &Streams<'_>,
    mailboxes: &SharedMailboxes,
    slip: &mut Slip,
    left: u64,
) -> Result<(), RunError>
    requires berth { IsBerthOf M.mind streams.now berth.old }
    requires slip { IsSlipOf mailboxes.now slip.old }
    requires boxes { length mailboxes.now ≡ streams.now.processes }

    ensures slip { IsSlipOf mailboxes.now slip.new }
    ensures ran { OnOk result (HasRun M.mind streams.now end berth.old berth.new
        (λ letters. slip.new ≡ with_letters slip.old letters)) }
    ensures berth { OnOk result ((p most : ℕ)
        → IsBerth M.mind streams.now p most berth.old → IsBerth M.mind streams.now p most berth.new) }
    ensures within { OnOk result (vec_len berth.new.part ≤ left) }
    ensures errors { IfErr result IsRefusalOfOne }
    ensures limit { IsErrOf result RunError.Limit → IsLong M.mind streams.now end left berth.old }
{
    let mut tray = slip.tray()?;
    run_into(rt, berth, end, streams, &mut tray, left)?;
    mailboxes.post_all(rt, slip, &mut tray, 0)?;
    slip.keep(tray);
    Ok(())
}
