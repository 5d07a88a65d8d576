//! The mailbox of one receiver: its queue, which threads share; the tickets by which they post; and the owner's pass.
ghost use Rattle.std.specs.{Prelude.{◌≡◌, ◌≢◌, ◌<◌, ◌+◌, List, [], ◌∷◌, ◌++◌, None, IfOk, IfErr, Ok, OnOk, OnErr}, List.Sorted.{IsPermutation}};
ghost use Rattle.crossbeam_queue.specs.{SegBatches.{Holds}, SegTies.{IsSegPassOf}};
ghost use Rattle.{ledger.specs.Ledger.{account, has_taken}, process_api.specs.declared.message.Letter.{Letter}};
ghost use Rattle.mailboxes.specs.Mailboxes.{HasCollected, WasGiven, ticket_of, home_of, one_out, one_back, soonest_in};

use crate::collects::Collects;
use crate::rule::{EachOnce, Pop, Push};
use crate::soonest::earlier;
use crossbeam_queue::{RuledSegQueue, SegBatch, SegPass};
use ledger::{Account, Opening, Settling, Ticketing};
use std::alloc::{AllocError, Global};
use std::marker::Model;
use std::sync::Wait;
use trace_laws::Parcel;

type Queue = RuledSegQueue<Parcel, Account<Parcel>, EachOnce>;

type Pass = SegPass<Parcel, Account<Parcel>>;

type Batch = SegBatch<Parcel, Account<Parcel>, Global>;

/// As many letters as a block of the queue has.
const MOST_AT_ONCE: u64 = 31;

/// The queue of one receiver. Contracts see which it is.
pub(crate) struct Mailbox {
    queue: Queue,
}

impl Model for Mailbox {
    ghost use Rattle.mailboxes.specs.Mailboxes.{MailboxId};

    ghost Value = { MailboxId };

    ghost view = { λ m. m.queue };
}

impl Drop for Mailbox {
    fn drop(self) {
        let Mailbox { queue } = self;
        queue.destroy();
    }
}

/// The permit to post to one mailbox. Contracts see which mailbox it is and what was posted by it.
#[derive(Drop)]
pub(crate) struct Ticket {
    pass: Pass,
    // the least tick of what was posted, if anything was
    soonest: Option<u32>,
}

impl Model for Ticket {
    ghost use Rattle.std.specs.Prelude.{◌≡◌, None};
    ghost use Rattle.trace_laws.specs.contracts.parcel.Parcel as letter;
    ghost use Rattle.mailboxes.specs.contracts.mailbox.Mailbox as mailbox;
    ghost use Rattle.mailboxes.specs.Mailboxes.{TicketView, soonest_in, ticket_code, ticket_of};
    ghost use Rattle.ledger.specs.Ledger.{new_pass, has_put};

    ghost Value = { TicketView };

    ghost coded = { ticket_code mailbox.the_row.coded letter.the_row.coded };

    ghost view = { λ t. ticket_of (record { web = t.pass.web; heap = t.pass.heap }) t.pass.me.view.client.put };

    ghost invariant = { λ t. (t.pass.me.hand ≡ None) × (t.pass.me.spare ≡ None)
        × (t.pass.me.view.client ≡ has_put (new_pass None) t.pass.me.view.client.put)
        × (t.soonest ≡ soonest_in t.pass.me.view.client.put) };
}

/// The owner's pass of one mailbox, which makes the tickets and takes them back. Contracts see which mailbox it is, how
/// many tickets are out, and what was posted by those that came back.
#[derive(Drop)]
pub(crate) struct Home {
    pass: Pass,
    // the least tick of what was posted by tickets that came back, if anything was
    pub soonest: Option<u32>,
    // lists of trays, kept for their memory: what they hold means nothing. The first receiver's pass has those of all
    pub kept: Vec<Vec<Vec<Parcel>>>,
}

impl Model for Home {
    ghost use Rattle.std.specs.Prelude.{◌≡◌, None, [], ◌-◌, ◌≢◌, ◌≤◌};
    ghost use Rattle.trace_laws.specs.contracts.parcel.Parcel as letter;
    ghost use Rattle.mailboxes.specs.contracts.mailbox.Mailbox as mailbox;
    ghost use Rattle.mailboxes.specs.Mailboxes.{HomeView, home_code, home_of, soonest_in};

    ghost Value = { HomeView };

    ghost coded = { home_code mailbox.the_row.coded letter.the_row.coded };

    ghost view = { λ h. home_of (record { web = h.pass.web; heap = h.pass.heap })
        (h.pass.me.view.client.made - h.pass.me.view.client.parts) h.pass.me.view.client.put };

    ghost invariant = { λ h. (h.pass.me.hand ≡ None) × (h.pass.id ≡ 0) × (h.pass.me.view.client.parts ≢ 0)
        × (h.pass.me.view.client.parts ≤ h.pass.me.view.client.made)
        × (h.pass.me.view.client.taken ≡ []) × (h.pass.me.view.client.told ≡ None) × (h.pass.me.spare ≡ None)
        × (h.soonest ≡ soonest_in h.pass.me.view.client.put) };
}

impl Mailbox {
    /// An empty mailbox, with its owner's pass.
    pub(crate) fn open(alloc: Global) -> Result<(Mailbox, Home), AllocError>
        ensures { IfOk result (λ made. made.1 ≡ home_of made.0 0 []) }
    {
        let (queue, mut pass) = Queue::with_rule(alloc)?;
        // This makes the first pass count (`Opening`). The second one, which rests, isn't needed.
        let _rests = queue.another::<Opening>(&mut pass);
        let home = Home {
            pass,
            soonest: None,
            kept: Vec::new(alloc),
        };
        Ok((Mailbox { queue }, home))
    }

    /// One more ticket to post by.
    pub(crate) fn ticket(&self, home: &mut Home) -> Ticket
        requires { home.old.mailbox ≡ self.now }
        ensures home { home.new ≡ one_out home.old }
        ensures ticket { result ≡ ticket_of home.old.mailbox [] }
    {
        let pass = self.queue.another::<Ticketing>(&mut home.pass);
        let soonest = None;
        Ticket { pass, soonest }
    }

    /// Posts a letter. Where memory is refused it comes back, and nothing changes.
    #[tactic(auto, using(crate::proofs::Homes::soonest_both))]
    pub(crate) fn post<R: Wait>(
        &self,
        rt: &R,
        ticket: &mut Ticket,
        letter: Parcel,
    ) -> Result<(), Parcel>
        requires { ticket.old.mailbox ≡ self.now }
        ensures mailbox { ticket.new.mailbox ≡ ticket.old.mailbox }
        ensures ok { OnOk result (ticket.new ≡ ticket_of ticket.old.mailbox (ticket.old.posted ++ letter ∷ [])) }
        ensures err { OnErr result (ticket.new ≡ ticket.old) }
        ensures back { IfErr result (λ x. x ≡ letter) }
    {
        let tick = letter.key().tick;
        self.queue.push_as::<Push, R>(rt, &mut ticket.pass, letter)?;
        ticket.soonest = earlier(ticket.soonest, Some(tick));
        Ok(())
    }

    /// Posts letters in their order. The list keeps its memory. Where memory is refused, nothing is known of what was
    /// posted, nor of the list.
    pub(crate) fn post_list<R: Wait>(
        &self,
        rt: &R,
        ticket: &mut Ticket,
        letters: &mut Vec<Parcel>,
    ) -> Result<(), AllocError>
        requires { ticket.old.mailbox ≡ self.now }
        ensures mailbox { ticket.new.mailbox ≡ ticket.old.mailbox }
        ensures ok { OnOk result
            (ticket.new ≡ ticket_of ticket.old.mailbox (ticket.old.posted ++ letters.old.items)) }
        ensures empty { OnOk result (letters.new.items ≡ []) }
    {
        for letter in letters.drain(..) {
            if self.post(rt, ticket, letter).is_err() {
                return Err(AllocError);
            }
        }
        Ok(())
    }

    /// Takes a ticket back.
    #[tactic(auto, using(crate::proofs::Homes::soonest_both))]
    pub(crate) fn take_back(&self, home: &mut Home, ticket: Ticket)
        requires home { home.old.mailbox ≡ self.now }
        requires ticket { ticket.mailbox ≡ self.now }
        requires out { 0 < home.old.out }
        ensures { home.new ≡ one_back home.old ticket.posted }
    {
        let Ticket { pass, soonest } = ticket;
        self.queue.absorb::<Ticketing>(&mut home.pass, pass);
        home.soonest = earlier(home.soonest, soonest);
    }

    /// Gives the letters away, in some order, once every ticket is back. The mailbox is as it was at first then.
    pub(crate) fn empty<R: Wait, T: Collects>(
        &self,
        rt: &R,
        mut home: Home,
        to: &mut T,
    ) -> Result<Home, AllocError>
        requires home { home.mailbox ≡ self.now }
        requires out { home.out ≡ 0 }
        ensures home { IfOk result (λ h. h ≡ home_of home.mailbox 0 []) }
        ensures letters { OnOk result (HasCollected T.collected home.back to.old to.new) }
    {
        drain(rt, &self.queue, &mut home.pass, to)?;
        settle(&self.queue, &mut home.pass);
        home.soonest = None;
        Ok(home)
    }
}

// Pops until the queue is empty, by the pass that stands for all.
fn drain<R: Wait, T: Collects>(
    rt: &R,
    queue: &Queue,
    pass: &mut Pass,
    to: &mut T,
) -> Result<(), AllocError>
    requires pass { IsSegPassOf queue.now pass.old × (pass.old.id ≡ 0) }
    requires all { pass.old.me.view.client.parts ≡ pass.old.me.view.client.made }
    requires some { pass.old.me.view.client.parts ≢ 0 }
    requires none { pass.old.me.view.client.taken ≡ [] }
    ensures pass { IsSegPassOf queue.now pass.new × (pass.new.id ≡ 0) }
    ensures taken { OnOk result (pass.new.me.view.client
        ≡ has_taken pass.old.me.view.client pass.new.me.view.client.taken) }
    ensures all { OnOk result (IsPermutation pass.old.me.view.client.put pass.new.me.view.client.taken) }
    ensures to { OnOk result (WasGiven T.collected to.old to.new pass.new.me.view.client.taken) }
{
    for _ in rt.forever() {
        let head = queue.head(pass);
        match queue.try_pop_batch::<Pop, R>(rt, pass, head, MOST_AT_ONCE) {
            Ok(Some(batch)) => collect_all(rt, queue, pass, batch, to)?,
            Ok(None) => break,
            // another thread was in the way, or the last slot of a block was taken
            Err(()) => {}
        }
    }
    Ok(())
}

// Gives the letters of a batch away. Where one is refused the others are dropped.
fn collect_all<R: Wait, T: Collects>(
    rt: &R,
    queue: &Queue,
    pass: &mut Pass,
    mut batch: Batch,
    to: &mut T,
) -> Result<(), AllocError>
    requires { IsSegPassOf queue.now pass.old × ((letters : List Letter) × Holds queue.now pass.old batch letters) }
    ensures pass { IsSegPassOf queue.now pass.new × (pass.new.id ≡ pass.old.id) }
    ensures view { pass.new.me.view.client ≡ pass.old.me.view.client }
    ensures to { OnOk result ((letters : List Letter) → Holds queue.now pass.old batch letters
        → WasGiven T.collected to.old to.new letters) }
{
    let mut told = Ok(());
    while batch.len() > 0 {
        let letter = queue.next_of(rt, pass, &mut batch);
        told = collect_after(told, letter, to);
    }
    batch.finish();
    told
}

// Gives one letter away, unless another was refused before.
#[inline(always)]
fn collect_after<T: Collects>(
    told: Result<(), AllocError>,
    letter: Parcel,
    to: &mut T,
) -> Result<(), AllocError>
    ensures { OnOk result ((told ≡ Ok tt) × WasGiven T.collected to.old to.new (letter ∷ [])) }
{
    told?;
    to.collect(letter)
}

// The pass that stands for all, and has taken all that was put, forgets it.
fn settle(queue: &Queue, pass: &mut Pass)
    requires pass { IsSegPassOf queue.now pass.old × (pass.old.id ≡ 0) }
    requires all { pass.old.me.view.client.parts ≡ pass.old.me.view.client.made }
    requires some { pass.old.me.view.client.parts ≢ 0 }
    requires told { pass.old.me.view.client.told ≡ None }
    requires same { IsPermutation pass.old.me.view.client.put pass.old.me.view.client.taken }
    ensures pass { IsSegPassOf queue.now pass.new × (pass.new.id ≡ 0) }
    ensures settled { pass.new.me.view.client
        ≡ account (pass.old.me.view.client.made + 1) (pass.old.me.view.client.parts + 1) [] [] None }
{
    let other = queue.another::<Settling>(pass);
    queue.absorb::<Ticketing>(pass, other);
}
