//! The pending events of a process in a window.
ghost use Rattle.std.specs.Prelude.{◌≡◌, ◌<◌, ◌++◌, ◌∷◌, [], ℕ, List, map, MatchOption, IfOk, OnOk, OnErr, true};
ghost use Rattle.std.specs.FinMap as events;
ghost use Rattle.trace_laws.specs.{Step.{Event as EventPair}, World.{IsLeast, NoneBelow, joined}, Taken.{event_of}};
ghost use Rattle.pending_events.specs.Pending.{IsEmpty, IsLeastTick};
ghost use Rattle.mailboxes.specs.Mailboxes.{HasCollected, soonest_in};
ghost use Rattle.windows.specs.{Inside.Agenda.{all_in, all_ahead, in_box, AreLists, AreOne, IsInner, IsInOrder, IsParted, HasFiled}, Stage.{start_event}};

use mailboxes::{Collects, Inbox, earlier};
use pending_events::Row;
use process_api::{Key, Pid, StepInput};
use std::alloc::{AllocError, Global};
use std::marker::Model;
use std::mem::{replace, swap};
use std::sync::Wait;
use trace_laws::{Event, Parcel};

/// Events in a row and in lists.
#[derive(Drop)]
pub(crate) struct Lists {
    // the events below the end, in order
    row: Row,
    end: u32,
    // the events at the end or later
    later: Vec<Event>,
    // the least tick of `later`, if there is one
    next: Option<u32>,
    // kept for their memory: what they hold means nothing
    due: Vec<Event>,
    rest: Vec<Event>,
}

/// The pending events of a process. Contracts see the finite set of them.
///
/// Those below the end of the window that is run lie in a row, put in order when a worker begins with the process. All
/// others wait in a list, as they came. The letters of a window are in their mailbox, which the starter hands over as
/// it is; the worker that runs the process next empties it, and parts those of its window from the others.
#[derive(Drop)]
pub(crate) struct Agenda {
    // boxed, since a berth is moved often
    inner: Box<Inner>,
}

/// The lists of a process, and its inbox.
#[derive(Drop)]
struct Inner {
    lists: Lists,
    // the letters that came after the row was filled
    inbox: Option<Inbox>,
}

impl Model for Agenda {
    ghost use Rattle.std.specs.FinMap as events;
    ghost use Rattle.process_api.specs.contracts.message.StepInput as step_input;
    ghost use Rattle.trace_laws.specs.{World.{key_code}, Step.{Events}};
    ghost use Rattle.windows.specs.Inside.Agenda.{IsInner, all_ahead};

    ghost Value = { Events };

    ghost coded = { events.code key_code step_input.the_row.coded };

    ghost view = { λ a. all_ahead a.inner.value.lists a.inner.value.inbox };

    ghost invariant = { λ a. IsInner a.inner.value };
}

/// The least tick of the letters of an inbox, if there are any.
fn soonest_of(inbox: &Option<Inbox>) -> Option<u32>
    ensures { result ≡ soonest_in (in_box inbox.now) }
{
    match inbox {
        Some(inbox) => inbox.soonest(),
        None => None,
    }
}

/// Appends a list to another, or takes its place where that is empty.
fn append<T: Drop>(list: &mut Vec<T>, mut more: Vec<T>) -> Result<(), AllocError>
    ensures ok { OnOk result (list.new.items ≡ list.old.items ++ more.items) }
    ensures err { OnErr result (list.new.items ≡ list.old.items) }
{
    if list.is_empty() {
        *list = more;
        return Ok(());
    }
    list.append(&mut more)
}

/// Events below a tick, and others.
#[derive(Drop)]
struct Parted {
    end: u32,
    due: Vec<Event>,
    later: Vec<Event>,
    // the least tick of the later ones
    next: Option<u32>,
}

impl Parted {
    /// No events, in the memory of these lists.
    fn new(end: u32, mut due: Vec<Event>, mut later: Vec<Event>) -> Parted
        ensures { IsParted end [] result }
    {
        due.clear();
        later.clear();
        Parted {
            end,
            due,
            later,
            next: None,
        }
    }

    /// One more event.
    #[inline(always)]
    fn file(&mut self, event: Event) -> Result<(), AllocError>
        ensures { OnOk result ((end : ℕ) (es : List EventPair)
            → IsParted end es self.old → IsParted end (es ++ event ∷ []) self.new) }
    {
        let tick = event.key().tick;
        if tick < self.end {
            self.due.push(event)?;
        } else {
            self.next = earlier(self.next, Some(tick));
            self.later.push(event)?;
        }
        Ok(())
    }

    /// Further events, in their order. Their list keeps its memory.
    fn file_events(&mut self, events: &mut Vec<Event>) -> Result<(), AllocError>
        ensures { OnOk result ((end : ℕ) (es : List EventPair)
            → IsParted end es self.old → IsParted end (es ++ events.old.items) self.new) }
    {
        let mut place = 0;
        while place < events.len() {
            self.file(events[place].take())?;
            place += 1;
        }
        Ok(())
    }

    /// The letters of an inbox, in some order. It is empty then.
    fn file_inbox<R: Wait>(
        &mut self,
        rt: &R,
        inbox: Option<Inbox>,
    ) -> Result<Option<Inbox>, AllocError>
        ensures filed { OnOk result (HasCollected HasFiled (in_box inbox) self.old self.new) }
        ensures empty { IfOk result (λ i. in_box i ≡ []) }
    {
        match inbox {
            Some(inbox) => Ok(Some(inbox.empty(rt, self)?)),
            None => Ok(None),
        }
    }
}

/// The letters of a mailbox are parted as they leave it.
impl Collects for Parted {
    ghost use Rattle.windows.specs.Inside.Agenda.{HasFiled};

    ghost collected = { HasFiled };

    #[inline(always)]
    fn collect(&mut self, letter: Parcel) -> Result<(), AllocError> {
        self.file(letter.into_event())?;
        Ok(())
    }
}

/// No event.
fn no_events(alloc: Global) -> Lists
    ensures lists { AreLists result }
    ensures none { all_in result ≡ events.empty }
{
    Lists {
        row: Row::new(alloc),
        end: 0,
        later: Vec::new(alloc),
        next: None,
        due: Vec::new(alloc),
        rest: Vec::new(alloc),
    }
}

/// The events of a row, which is empty then, and others after them.
fn take_events(row: &mut Row, later: Vec<Event>) -> Result<Vec<Event>, AllocError>
    ensures { IfOk result (λ v. joined events.empty v.items ≡ joined row.old later.items) }
{
    let mut events = row.take_all()?;
    append(&mut events, later)?;
    Ok(events)
}

/// The letters of the inbox join, and the events below a tick are put in order. The inbox is empty then.
fn part<R: Wait>(
    rt: &R,
    end: u32,
    lists: Lists,
    inbox: Option<Inbox>,
) -> Result<(Lists, Option<Inbox>), AllocError>
    requires { AreOne (in_box inbox) }
    ensures lists { IfOk result (λ new. AreLists new.0) }
    ensures same { IfOk result (λ new. all_in new.0 ≡ all_ahead lists inbox) }
    ensures parted { IfOk result (λ new. new.0.end ≡ end) }
    ensures empty { IfOk result (λ new. in_box new.1 ≡ []) }
{
    let mut row = lists.row;
    let mut events = take_events(&mut row, lists.later)?;
    let mut parted = Parted::new(end, lists.due, lists.rest);
    parted.file_events(&mut events)?;
    let inbox = parted.file_inbox(rt, inbox)?;
    row.fill(&mut parted.due)?;
    let lists = Lists {
        row,
        end,
        later: parted.later,
        next: parted.next,
        due: parted.due,
        rest: events,
    };
    Ok((lists, inbox))
}

/// Whether the inbox is empty, and the events below a tick are in order.
#[tactic(auto, using(crate::proofs::Agendas::no_letter))]
fn is_settled(inner: &Inner, end: u32) -> bool
    ensures { result ≡ true → (inner.now.lists.end ≡ end) × (in_box inner.now.inbox ≡ []) }
{
    inner.lists.end == end && soonest_of(&inner.inbox).is_none()
}

/// Empties the inbox, and puts the events below a tick in order. Where memory is refused all are gone.
#[inline(never)]
fn put_in_order<R: Wait>(rt: &R, inner: &mut Inner, end: u32) -> Result<(), AllocError>
    requires { IsInner inner.old }
    ensures inner { IsInner inner.new }
    ensures settled { OnOk result (IsInOrder end inner.old inner.new) }
{
    let alloc = *inner.lists.later.allocator();
    let before = replace(&mut inner.lists, no_events(alloc));
    let (parted, emptied) = part(rt, end, before, inner.inbox.take())?;
    inner.lists = parted;
    inner.inbox = emptied;
    Ok(())
}

/// The same, where the inbox isn't empty or the events aren't in order. Each event that is taken asks for this, so the
/// work stands apart.
#[inline(always)]
fn settle<R: Wait>(rt: &R, inner: &mut Inner, end: u32) -> Result<(), AllocError>
    requires { IsInner inner.old }
    ensures inner { IsInner inner.new }
    ensures settled { OnOk result (IsInOrder end inner.old inner.new) }
{
    if is_settled(inner, end) {
        return Ok(());
    }
    put_in_order(rt, inner, end)
}

/// One more event. Where memory is refused nothing changes.
fn join(lists: &mut Lists, event: Event) -> Result<(), AllocError>
    requires { AreLists lists.old }
    ensures lists { AreLists lists.new }
    ensures joined { OnOk result (all_in lists.new ≡ events.insert (all_in lists.old) event.0 event.1) }
{
    let tick = event.key().tick;
    if tick < lists.end {
        lists.row.join(event)?;
        return Ok(());
    }
    lists.later.push(event)?;
    lists.next = earlier(lists.next, Some(tick));
    Ok(())
}

/// Two rows change places, where no event is in either.
fn swap_empty(one: &mut Row, other: &mut Row)
    ensures { (one.new ≡ one.old) × (other.new ≡ other.old) }
{
    if earlier(one.least_tick(), other.least_tick()).is_none() {
        swap(one, other);
    }
}

impl Agenda {
    /// The start of a process, alone.
    pub(crate) fn new(alloc: Global, p: Pid) -> Result<Agenda, AllocError>
        ensures { IfOk result (λ a. a ≡ start_event p) }
    {
        let mut lists = no_events(alloc);
        join(&mut lists, Event::start(p))?;
        let inner = Box::new(alloc, Inner { lists, inbox: None })?;
        Ok(Agenda { inner })
    }

    /// Letters come for the process. Answers the inbox from before, which is empty, if there was one. Where memory is
    /// refused all may be gone.
    pub(crate) fn deliver<R: Wait>(
        &mut self,
        rt: &R,
        inbox: Inbox,
    ) -> Result<Option<Inbox>, AllocError>
        requires { AreOne inbox }
        ensures joined { OnOk result (self.new ≡ joined self.old (map event_of inbox)) }
        ensures empty { IfOk result (λ before. in_box before ≡ []) }
    {
        let inner = &mut *self.inner;
        let last = inner.lists.end;
        settle(rt, inner, last)?;
        Ok(replace(&mut inner.inbox, Some(inbox)))
    }

    /// One more event. Where memory is refused all may be gone.
    pub(crate) fn join<R: Wait>(&mut self, rt: &R, event: Event) -> Result<(), AllocError>
        ensures { OnOk result (self.new ≡ events.insert self.old event.0 event.1) }
    {
        let inner = &mut *self.inner;
        let end = inner.lists.end;
        settle(rt, inner, end)?;
        join(&mut inner.lists, event)
    }

    /// The tick of the least event, if there is one.
    pub(crate) fn least_tick(&self) -> Option<u32>
        ensures { MatchOption result (IsEmpty self.now) (λ tick. IsLeastTick self.now tick) }
    {
        let Inner { lists, inbox } = &*self.inner;
        earlier(
            earlier(lists.row.least_tick(), lists.next),
            soonest_of(inbox),
        )
    }

    /// Trades the memory for the events of a window with another process. Rows with events stay.
    pub(crate) fn swap_memory(&mut self, other: &mut Agenda)
        ensures own { self.new ≡ self.old }
        ensures other { other.new ≡ other.old }
    {
        let mine = &mut self.inner.lists;
        let its = &mut other.inner.lists;
        swap_empty(&mut mine.row, &mut its.row);
        swap(&mut mine.due, &mut its.due);
        swap(&mut mine.rest, &mut its.rest);
    }

    /// Takes the least event, where it is below a tick. Where memory is refused all may be gone.
    pub(crate) fn take_below<R: Wait>(
        &mut self,
        rt: &R,
        end: u32,
    ) -> Result<Option<(Key, StepInput)>, AllocError>
        ensures least { IfOk result (λ r.
            MatchOption r (NoneBelow end self.old) (λ e. IsLeast self.old e.0 e.1 × (e.0.tick < end))) }
        ensures removed { IfOk result (λ r.
            MatchOption r (self.new ≡ self.old) (λ e. self.new ≡ events.remove self.old e.0)) }
    {
        let inner = &mut *self.inner;
        settle(rt, inner, end)?;
        Ok(inner.lists.row.take_least())
    }
}
