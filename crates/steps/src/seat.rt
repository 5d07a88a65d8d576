//! One step of one process.
ghost use Rattle.std.specs.Prelude.{◌≡◌, ◌≤◌, ◌<◌, ◌+◌, ◌^◌, ℕ, IfOk, OnOk};
ghost use Rattle.process_api.specs.Place.{most_step_actions};
ghost use Rattle.trace_laws.specs.{Taken.{HaveJoined, Serves, StillServes}, Setting.{setting_of, has_crashed}, Step.{kind_of as kind_for, kind_of_payload, step}};
ghost use Rattle.steps.specs.Posting.{posted_in};

use crate::links::Links;
use crate::listener::Listener;
use process_api::{Action, Entry, Key, Kind, Payload, Pid, Process, StepInput, Tag};
use scenario_record::Scenario;
use std::alloc::{AllocError, Global};
use streams::Streams;
use trace_laws::Joins;

/// A machine, and how much it put on the link to each process so far.
#[derive(Drop)]
pub struct Seat<M> {
    machine: M,
    // the tick at which the process crashes, if it does
    crash: Option<u32>,
    // boxed, since a seat is moved often
    links: Box<Links>,
}

/// The kind of the entry of whoever takes a letter that says this.
pub fn kind_of_letter(payload: &Payload) -> Kind
    ensures { result ≡ kind_of_payload payload.now }
{
    match payload {
        Payload::Alive => Kind::Alive,
        Payload::Heartbeat { .. } => Kind::Heartbeat,
        Payload::Suspects(_) => Kind::Suspects,
        Payload::Vector { .. } => Kind::Vector,
        Payload::Last { .. } => Kind::Last,
        Payload::Estimate { .. } => Kind::Estimate,
        Payload::Proposal { .. } => Kind::Proposal,
        Payload::Reply { .. } => Kind::Reply,
        Payload::Decide { .. } => Kind::Decide,
    }
}

/// The kind of the entry of an input.
fn kind_of(input: &StepInput) -> Kind
    ensures { result ≡ kind_for input.now }
{
    match input {
        StepInput::Start => Kind::Start,
        StepInput::Wake(Tag::Beat) => Kind::Beat,
        StepInput::Wake(Tag::Check) => Kind::Check,
        StepInput::Wake(Tag::Share) => Kind::Share,
        StepInput::Letter { payload, .. } => kind_of_letter(payload),
    }
}

/// Whether a crash has come at a tick.
fn is_down(crash: Option<u32>, tick: u32) -> bool
    ensures { result ≡ has_crashed crash tick }
{
    match crash {
        None => false,
        Some(at) => at <= tick,
    }
}

impl<M: Process> Seat<M> {
    ghost use Rattle.steps.specs.Seat.{process_of, own_of, IsMindIn, IsSeated, StaysSeated};
    ghost use Rattle.trace_laws.specs.World.{opened};

    /// The seat of a machine that put nothing on any link.
    ///
    /// # Errors
    ///
    /// `AllocError` where memory was refused.
    pub fn new(alloc: Global, scenario: &Scenario, machine: M) -> Result<Seat<M>, AllocError>
        requires { IsMindIn scenario.now (M.mind machine) }
        ensures process { IfOk result (λ s. process_of M.mind s ≡ opened (M.mind machine)) }
        ensures seated { IfOk result (IsSeated M.mind scenario.now 0) }
    {
        let own = machine.pid();
        let crash = scenario.crash(own);
        let made = Links::new(alloc, scenario, own)?;
        let links = Box::new(alloc, made)?;
        Ok(Seat {
            machine,
            crash,
            links,
        })
    }

    /// The process that sits here.
    pub fn pid(&self) -> Pid
        ensures { result ≡ own_of M.mind self.now }
    {
        self.machine.pid()
    }

    /// Makes the step of one event: the machine takes the input, unless the process has crashed, and what it does is
    /// put on its links. The events that join go to `added` in their order, which takes what this process causes, and
    /// the listener is told of the letters to other processes, in theirs. `actions` is room for the machine's answer;
    /// what it held is thrown away.
    ///
    /// # Errors
    ///
    /// `AllocError` where memory was refused. The seat and the listener are good for nothing then, and `added` may hold
    /// anything.
    pub fn turn<J: Joins, L: Listener>(
        &mut self,
        streams: &Streams<'_>,
        event: (Key, StepInput),
        actions: &mut Vec<Action>,
        added: &mut J,
        listener: &mut L,
    ) -> Result<Entry, AllocError>
        requires seated { (most : ℕ) × IsSeated M.mind streams.now most self.old × (most + most_step_actions < 2 ^ 64) }
        requires own { event.0.receiver ≡ own_of M.mind self.old }
        requires serves { Serves J.serves added.old event.0.receiver streams.now.processes }

        ensures serves { StillServes J.serves added.old added.new }
        ensures own { OnOk result (own_of M.mind self.new ≡ own_of M.mind self.old) }
        ensures process { OnOk result (process_of M.mind self.new
            ≡ (step (setting_of streams.now) (process_of M.mind self.old) event.0 event.1).process) }
        ensures entry { IfOk result (λ e.
            e ≡ (step (setting_of streams.now) (process_of M.mind self.old) event.0 event.1).entry) }
        ensures added { OnOk result (HaveJoined J.grown added.old added.new
            (step (setting_of streams.now) (process_of M.mind self.old) event.0 event.1).added) }
        ensures heard { OnOk result (HaveJoined L.heard listener.old listener.new
            (posted_in (setting_of streams.now) (process_of M.mind self.old) event.0 event.1)) }
        ensures seated { OnOk result (StaysSeated M.mind streams.now self.old self.new) }
    {
        let (key, input) = event;
        if is_down(self.crash, key.tick) {
            return Ok(self.links.nothing_done().entry(&key, Kind::Dead));
        }
        let kind = kind_of(&input);
        actions.clear();
        self.machine.on_input(key.tick, &input, actions)?;
        drop(input);
        let links = &mut *self.links;
        let done = links.perform(streams, &key, actions, added, listener)?;
        Ok(done.entry(&key, kind))
    }
}
