//! The letters that a process puts on its links.
ghost use Rattle.std.specs.{Prelude.{◌≡◌, ◌≢◌, ◌≤◌, ◌<◌, ◌+◌, ◌^◌, ◌++◌, ◌∷◌, [], ℕ, IfNone, IfOk, IfSome, OnOk, length, replicate, vec_len, vec_capacity}, List.{AllByRecursion}};
ghost use Rattle.{process_api.specs.{Answer.{IsAllowed}, Place.{most_step_actions}}, streams.specs.Fate.{fate_of}};
ghost use Rattle.trace_laws.specs.{Taken.{HaveJoined, Serves, StillServes}, Step.{raised, in_time, counted, joining, lost_by, counts_after, added as added_by}};
ghost use Rattle.steps.specs.{Posting.{posting, posted_by}, Inside.Links.{later, wake_key, in_step, with_action, done_by, entry_of}, Seat.{count_of}};

use crate::listener::Listener;
use process_api::{Action, Entry, Key, Kind, Note, Payload, Pid, StepInput, Tag};
use scenario_record::Scenario;
use std::alloc::{AllocError, Global};
use std::marker::Model;
use streams::{Fate, SenderWords, Streams};
use trace_laws::{Event, Joins};

/// How much a process put on the link to each process so far: letters, lost ones too, and wakes.
#[derive(Drop)]
pub struct Links {
    // events of this tick or later don't join
    horizon: u32,
    // by receiver; place 0 is unused
    counts: Vec<u64>,
    words: SenderWords,
}

/// What a step did. An `Entry` is made from it once; until then it is this that is handed on, as it has no padding.
#[derive(Drop)]
pub struct Done {
    // how many letters it put on links, those to itself and lost ones too
    sent: u32,
    // how many of these were lost
    lost: u32,
    // what it noted, in order
    notes: Vec<Note>,
}

impl Model for Done {
    ghost use Rattle.steps.specs.Inside.Links.{DoneRecord};

    ghost Value = { DoneRecord };

    ghost view = { λ d. record { sent = d.sent; lost = d.lost; notes = d.notes.items } };
}

impl Done {
    /// The entry of the step, which took the event of this key.
    #[inline(always)]
    pub fn entry(self, key: &Key, kind: Kind) -> Entry
        ensures { result ≡ entry_of key.now kind self }
    {
        Entry {
            key: *key,
            kind,
            sent: self.sent,
            lost: self.lost,
            notes: self.notes,
        }
    }
}

/// The key of what is due so many ticks after it was sent, where that is below the horizon.
#[inline(always)]
fn due_after(horizon: u32, sent: Key, ticks: u32) -> Option<Key>
    ensures late { IfNone result ((x : StepInput) → in_time horizon (later sent ticks) x ≡ []) }
    ensures due { IfSome result (λ key. (key ≡ later sent ticks)
        × ((x : StepInput) → in_time horizon (later sent ticks) x ≡ (key, x) ∷ [])) }
{
    let tick = u64::from(sent.tick) + u64::from(ticks);
    if tick < u64::from(horizon) {
        return Some(Key {
            tick: tick as u32,
            ..sent
        });
    }
    None
}

/// Room for one note more. A step that notes more than the first few often notes many.
#[inline(always)]
fn make_room(notes: &mut Vec<Note>) -> Result<(), AllocError>
    ensures same { notes.new.items ≡ notes.old.items }
    ensures room { OnOk result (vec_len notes.new < vec_capacity notes.new) }
{
    if notes.len() == notes.capacity() {
        notes.reserve(if notes.is_empty() { 1 } else { 60 })?;
    }
    Ok(())
}

impl Links {
    /// The links of a process of a scenario that put nothing on any of them.
    pub fn new(alloc: Global, scenario: &Scenario, own: Pid) -> Result<Links, AllocError>
        ensures horizon { IfOk result (λ l. l.horizon ≡ scenario.now.horizon) }
        ensures counts { IfOk result (λ l. l.counts.items ≡ replicate (scenario.now.processes + 1) 0) }
    {
        // one for each process, and one for place 0
        let places = usize::from(scenario.processes()) + 1;
        let counts = vec![in alloc; 0; places]?;
        let words = SenderWords::new(alloc, scenario.seed(), own, places)?;
        Ok(Links {
            horizon: scenario.horizon(),
            counts,
            words,
        })
    }

    /// What was done before a step's first action: nothing.
    #[inline(always)]
    pub fn nothing_done(&self) -> Done
        ensures { result ≡ record { sent = 0; lost = 0; notes = [] } }
    {
        Done {
            sent: 0,
            lost: 0,
            notes: Vec::new(*self.counts.allocator()),
        }
    }

    /// One more on the link to a process. The new count is the number of what was put on it.
    #[inline(always)]
    fn raise(&mut self, to: Pid) -> u64
        requires there { to < vec_len self.old.counts }
        requires room { count_of self.old.counts.items to + 1 < 2 ^ 64 }
        ensures raised { count_of self.new.counts.items ≡ raised (count_of self.old.counts.items) to }
        ensures number { result ≡ count_of self.old.counts.items to + 1 }
        ensures places { vec_len self.new.counts ≡ vec_len self.old.counts }
        ensures horizon { self.new.horizon ≡ self.old.horizon }
    {
        let place = usize::from(to.number());
        let number = self.counts[place] + 1;
        self.counts[place] = number;
        number
    }

    /// What becomes of the letter with this number on the link to another process, sent at this tick.
    #[inline(always)]
    fn fate(&mut self, streams: &Streams<'_>, own: Pid, to: Pid, number: u64, sent_at: u32) -> Fate
        requires different { own ≢ to }
        requires own { own ≤ streams.now.processes }
        requires to { to ≤ streams.now.processes }
        requires counted { 1 ≤ number }
        ensures fate { result ≡ fate_of streams.now own to number sent_at }
        ensures counts { self.new.counts ≡ self.old.counts }
        ensures horizon { self.new.horizon ≡ self.old.horizon }
    {
        streams.next_fate(own, to, number, sent_at, &mut self.words)
    }

    /// Puts a letter on its link, in the step of `key`. Answers how many letters were lost, 0 or 1.
    #[inline(always)]
    fn post<J: Joins, L: Listener>(
        &mut self,
        streams: &Streams<'_>,
        key: Key,
        to: Pid,
        payload: &mut Payload,
        added: &mut J,
        listener: &mut L,
    ) -> Result<u32, AllocError>
        requires horizon { self.old.horizon ≡ streams.now.horizon }
        requires own { key.receiver ≤ streams.now.processes }
        requires to { to ≤ streams.now.processes }
        requires there { to < vec_len self.old.counts }
        requires room { count_of self.old.counts.items to + 1 < 2 ^ 64 }
        requires serves { Serves J.serves added.old key.receiver streams.now.processes }

        ensures serves { StillServes J.serves added.old added.new }
        ensures counts { OnOk result (count_of self.new.counts.items ≡ raised (count_of self.old.counts.items) to) }
        ensures places { vec_len self.new.counts ≡ vec_len self.old.counts }
        ensures horizon { self.new.horizon ≡ self.old.horizon }
        ensures added { OnOk result (HaveJoined J.grown added.old added.new
            (in_step self.old key streams.now joining (Action.Send to payload.old))) }
        ensures heard { OnOk result (HaveJoined L.heard listener.old listener.new
            (in_step self.old key streams.now posting (Action.Send to payload.old))) }
        ensures lost { IfOk result (λ lost.
            lost ≡ in_step self.old key streams.now lost_by (Action.Send to payload.old)) }
    {
        let own = key.receiver;
        let number = self.raise(to);
        let sent = Key {
            tick: key.tick,
            receiver: to,
            sender: own,
            number,
        };
        if to == own {
            let Some(key) = due_after(self.horizon, sent, 1) else {
                return Ok(0);
            };
            let alloc = *self.counts.allocator();
            added.add(Event::letter(alloc, key, payload)?)?;
            return Ok(0);
        }
        let fate = self.fate(streams, own, to, number, key.tick);
        listener.hear(&sent, payload, fate)?;
        let Fate::Delay(ticks) = fate else {
            return Ok(1);
        };
        let Some(key) = due_after(self.horizon, sent, ticks) else {
            return Ok(0);
        };
        added.send(key, payload)?;
        Ok(0)
    }

    /// Sets a wake, in the step of `key`.
    #[inline(always)]
    fn set_wake<J: Joins>(
        &mut self,
        key: Key,
        pause: u32,
        tag: Tag,
        added: &mut J,
    ) -> Result<(), AllocError>
        requires there { key.receiver < vec_len self.old.counts }
        requires room { count_of self.old.counts.items key.receiver + 1 < 2 ^ 64 }
        requires serves { (processes : ℕ) × Serves J.serves added.old key.receiver processes }

        ensures serves { StillServes J.serves added.old added.new }
        ensures counts { OnOk result (count_of self.new.counts.items
            ≡ raised (count_of self.old.counts.items) key.receiver) }
        ensures places { vec_len self.new.counts ≡ vec_len self.old.counts }
        ensures horizon { self.new.horizon ≡ self.old.horizon }
        ensures added { OnOk result (HaveJoined J.grown added.old added.new
            (in_time self.old.horizon (wake_key self.old key pause) (StepInput.Wake tag))) }
    {
        let own = key.receiver;
        let number = self.raise(own);
        let set = Key {
            tick: key.tick,
            receiver: own,
            sender: own,
            number,
        };
        let Some(key) = due_after(self.horizon, set, pause) else {
            return Ok(());
        };
        added.add(Event::wake(key, tag))
    }

    /// Does what one action of the step of `key` says; what is left in its place means nothing. `done`
    /// counts each letter that is put on a link, and each that is lost, and takes each note.
    #[inline(always)]
    fn act<J: Joins, L: Listener>(
        &mut self,
        streams: &Streams<'_>,
        key: &Key,
        action: &mut Action,
        added: &mut J,
        listener: &mut L,
        done: &mut Done,
    ) -> Result<(), AllocError>
        requires horizon { self.old.horizon ≡ streams.now.horizon }
        requires places { vec_len self.old.counts ≡ streams.now.processes + 1 }
        requires own { key.now.receiver ≤ streams.now.processes }
        requires room { (q : ℕ) → count_of self.old.counts.items q + 1 < 2 ^ 64 }
        requires few { (done.old.sent + 1 < 2 ^ 32) × (done.old.lost + 1 < 2 ^ 32) }
        requires allowed { IsAllowed streams.now.processes action.old }
        requires serves { Serves J.serves added.old key.now.receiver streams.now.processes }

        ensures serves { StillServes J.serves added.old added.new }
        ensures counts { OnOk result (count_of self.new.counts.items
            ≡ counted key.now.receiver (count_of self.old.counts.items) action.old) }
        ensures places { OnOk result (vec_len self.new.counts ≡ vec_len self.old.counts) }
        ensures horizon { OnOk result (self.new.horizon ≡ self.old.horizon) }
        ensures added { OnOk result (HaveJoined J.grown added.old added.new
            (in_step self.old key.now streams.now joining action.old)) }
        ensures heard { OnOk result (HaveJoined L.heard listener.old listener.new
            (in_step self.old key.now streams.now posting action.old)) }
        ensures done { OnOk result (done.new ≡ with_action self.old key.now streams.now done.old action.old) }
    {
        match action {
            Action::Send { to, payload } => {
                done.sent += 1;
                done.lost += self.post(streams, *key, *to, payload, added, listener)?;
                Ok(())
            }
            &mut Action::Wake { pause, tag } => self.set_wake(*key, pause, tag, added),
            &mut Action::Note(note) => {
                make_room(&mut done.notes)?;
                done.notes.push_reserved(note);
                Ok(())
            }
        }
    }

    /// Does what the actions of the step of `key` say, in their order, adds the events that join, tells the listener of
    /// the letters to other processes, and answers what the step did. The actions are used up: what is in their places
    /// then means nothing.
    pub fn perform<J: Joins, L: Listener>(
        &mut self,
        streams: &Streams<'_>,
        key: &Key,
        actions: &mut Vec<Action>,
        added: &mut J,
        listener: &mut L,
    ) -> Result<Done, AllocError>
        requires horizon { self.old.horizon ≡ streams.now.horizon }
        requires places { vec_len self.old.counts ≡ streams.now.processes + 1 }
        requires own { key.now.receiver ≤ streams.now.processes }
        requires room { (q : ℕ) → count_of self.old.counts.items q + most_step_actions < 2 ^ 64 }
        requires allowed { AllByRecursion (IsAllowed streams.now.processes) actions.old.items }
        requires few { length actions.old.items ≤ most_step_actions }
        requires serves { Serves J.serves added.old key.now.receiver streams.now.processes }

        ensures serves { StillServes J.serves added.old added.new }
        ensures counts { OnOk result (count_of self.new.counts.items
            ≡ counts_after key.now.receiver (count_of self.old.counts.items) actions.old.items) }
        ensures places { OnOk result (vec_len self.new.counts ≡ vec_len self.old.counts) }
        ensures horizon { OnOk result (self.new.horizon ≡ self.old.horizon) }
        ensures room { OnOk result ((q : ℕ)
            → count_of self.new.counts.items q ≤ count_of self.old.counts.items q + most_step_actions) }
        ensures added { OnOk result (HaveJoined J.grown added.old added.new
            (in_step self.old key.now streams.now added_by actions.old.items)) }
        ensures heard { OnOk result (HaveJoined L.heard listener.old listener.new
            (in_step self.old key.now streams.now posted_by actions.old.items)) }
        ensures done { IfOk result (λ d. d ≡ done_by self.old key.now streams.now actions.old.items) }
    {
        let mut done = self.nothing_done();
        for place in 0..actions.len() {
            let action = &mut actions[place];
            self.act(streams, key, action, added, listener, &mut done)?;
        }
        Ok(done)
    }
}
