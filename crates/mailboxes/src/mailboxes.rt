//! The mailboxes whole: the queues, and the owner's pass of each.
ghost use Rattle.std.specs.{Prelude.{◌≡◌, ◌≤◌, ◌<◌, ◌+◌, ℕ, [], true, length, map, IfOk, IfErr, OnOk, OnErr, vec_len}, List.{All, AllZip, Sorted.{IsPermutation}}};
ghost use Rattle.process_api.specs.declared.run_error.RunError.TheVariants.{Memory};
ghost use Rattle.mailboxes.specs.Mailboxes.{all_back, IsSlipOf, unused, with_letter, posted_to, list_of, letters_in, letters_of, mailboxes_of};

use crate::inbox::Inbox;
use crate::mailbox::{Home, Mailbox};
use crate::shared::SharedMailboxes;
use crate::slip::Slip;
use process_api::{Letter, RunError};
use std::alloc::{AllocError, Global};
use std::marker::Model;
use std::sync::Wait;
use trace_laws::Parcel;

/// A mailbox for each receiver, 1 to n. Contracts see which they are, and how many slips were made.
#[derive(Drop)]
pub struct Mailboxes {
    shared: SharedMailboxes,
    homes: Vec<Home>,
    slips: u64,
}

impl Model for Mailboxes {
    ghost use Rattle.std.specs.Prelude.{◌≡◌};
    ghost use Rattle.mailboxes.specs.Mailboxes.{homes_of, MailboxesView, mailboxes_of};

    ghost Value = { MailboxesView };

    ghost view = { λ m. mailboxes_of m.shared m.slips };

    ghost invariant = { λ m. m.homes.items ≡ homes_of m.slips m.shared };
}

// The letters of each inbox, in some order.
fn letters_from_all<R: Wait>(
    rt: &R,
    alloc: Global,
    inboxes: Vec<Inbox>,
) -> Result<Vec<Vec<Letter>>, AllocError>
    ensures { IfOk result (λ lists. AllZip IsPermutation inboxes.items (letters_in lists.items)) }
{
    let mut lists = Vec::new(alloc);
    for inbox in inboxes {
        let mut letters = Vec::new(alloc);
        inbox.empty(rt, &mut letters)?;
        lists.push(letters)?;
    }
    Ok(lists)
}

// The mailboxes with their owner's passes, once every slip is back.
fn inboxes_of(
    alloc: Global,
    boxes: Vec<Mailbox>,
    homes: Vec<Home>,
) -> Result<Vec<Inbox>, AllocError>
    requires homes { boxes.items ≡ map (λ h. h.mailbox) homes.items }
    requires out { All (λ h. h.out ≡ 0) homes.items }
    ensures { IfOk result (λ inboxes. inboxes.items ≡ map (λ h. h.back) homes.items) }
{
    let mut inboxes = Vec::with_capacity(alloc, homes.len())?;
    let mut boxes = boxes.into_iter();
    for home in homes {
        let Some(mailbox) = boxes.next() else {
            unreachable!()
        };
        inboxes.push(Inbox { mailbox, home })?;
    }
    Ok(inboxes)
}

// Lists that were kept for their memory, if there are any.
fn kept(homes: &mut Vec<Home>) -> Option<Vec<Vec<Parcel>>>
    ensures { homes.new.items ≡ homes.old.items }
{
    homes.first_mut()?.kept.pop()
}

// Keeps the memory of lists.
fn keep(homes: &mut Vec<Home>, lists: Vec<Vec<Parcel>>)
    ensures { homes.new.items ≡ homes.old.items }
{
    if let Some(home) = homes.first_mut() {
        let _kept = home.kept.push(lists);
    }
}

// Takes a slip back.
fn take_back(boxes: &Vec<Mailbox>, homes: &mut Vec<Home>, slip: Slip)
    requires slip { IsSlipOf boxes.now.items slip }
    requires homes { map (λ h. h.mailbox) homes.old.items ≡ boxes.now.items }
    requires out { All (λ h. 0 < h.out) homes.old.items }
    ensures homes { homes.new.items ≡ all_back homes.old.items slip.posted }
    ensures lists { length slip.posted ≡ vec_len homes.old }
{
    let Slip { tickets, kept } = slip;
    let mut at = 0;
    for ticket in tickets {
        boxes[at].take_back(&mut homes[at], ticket);
        at += 1;
    }
    keep(homes, kept);
}

impl Mailboxes {
    /// A mailbox for each receiver, 1 to n. The error is that memory was refused.
    pub fn new(alloc: Global, n: u16) -> Result<Mailboxes, AllocError>
        ensures count { IfOk result (λ m. length m.mailboxes ≡ n) }
        ensures slips { IfOk result (λ m. m.slips ≡ 0) }
    {
        let mut inboxes = Vec::with_capacity(alloc, usize::from(n))?;
        for _ in 0..n {
            let (mailbox, home) = Mailbox::open(alloc)?;
            let inbox = Inbox { mailbox, home };
            inboxes.push(inbox)?;
        }
        Mailboxes::of_inboxes(alloc, inboxes)
    }

    /// Whether they are as new mailboxes for receivers 1 to n are: no slip was made since.
    pub fn are_new(&self, n: u16) -> bool
        ensures only { result ≡ true → (length self.now.mailboxes ≡ n) × (self.now.slips ≡ 0) }
        ensures all { length self.now.mailboxes ≡ n → self.now.slips ≡ 0 → result ≡ true }
    {
        self.homes.len() == usize::from(n) && self.slips == 0
    }

    /// The part that threads share, by which they post.
    pub fn shared(&self) -> &SharedMailboxes
        ensures { result.now ≡ self.now.mailboxes }
    {
        &self.shared
    }

    /// One more slip, by which nothing was posted yet. The error is that memory was refused, or that 2^64 - 1 slips
    /// were made, as many as a list for [`Mailboxes::collect`] could hold; then nothing changes.
    pub fn slip(&mut self, alloc: Global) -> Result<Slip, AllocError>
        ensures mailboxes { IfOk result (λ _. self.new ≡ mailboxes_of self.old.mailboxes (self.old.slips + 1)) }
        ensures slip { IfOk result (λ s. s ≡ unused self.old.mailboxes) }
        ensures err { OnErr result (self.new ≡ self.old) }
    {
        let Mailboxes {
            shared,
            homes,
            slips,
        } = self;
        let more = slips.checked_add(1).ok_or(AllocError)?;
        let mut tickets = Vec::with_capacity(alloc, homes.len())?;
        for at in 0..homes.len() {
            let ticket = shared.boxes[at].ticket(&mut homes[at]);
            tickets.push_reserved(ticket);
        }
        *slips = more;
        let kept = kept(homes).unwrap_or(Vec::new(alloc));
        Ok(Slip { tickets, kept })
    }

    /// Posts a letter to its receiver, 1 to n. Where memory is refused the letter comes back, and the slip and the
    /// mailboxes are as they were. Threads that share the mailboxes post by [`Mailboxes::shared`].
    pub fn post<R: Wait>(&self, rt: &R, slip: &mut Slip, letter: Letter) -> Result<(), Letter>
        requires slip { IsSlipOf self.now.mailboxes slip.old }
        requires receiver { letter.key.receiver ≤ length self.now.mailboxes }
        ensures slip { IsSlipOf self.now.mailboxes slip.new }
        ensures ok { OnOk result (slip.new ≡ with_letter slip.old letter) }
        ensures err { OnErr result (slip.new ≡ slip.old) }
        ensures back { IfErr result (λ x. x ≡ letter) }
    {
        let parcel = Parcel::pack(*self.homes.allocator(), letter)?;
        match self.shared.post(rt, slip, parcel) {
            Ok(()) => Ok(()),
            Err(parcel) => Err(parcel.into_letter()),
        }
    }

    /// The letters of each receiver, the list of receiver r at place r - 1: those that the slips posted to it, each as
    /// often as it was posted, and no others. The slips are all that were made. In which order a list has its letters
    /// isn't said. The error is that memory was refused; then the letters are gone.
    pub fn collect<R: Wait>(
        self,
        rt: &R,
        alloc: Global,
        slips: Vec<Slip>,
    ) -> Result<Vec<Vec<Letter>>, RunError>
        requires all { vec_len slips ≡ self.slips }
        requires slips { All (IsSlipOf self.mailboxes) slips.items }
        ensures count { IfOk result (λ lists. vec_len lists ≡ length self.mailboxes) }
        ensures letters { IfOk result (λ lists. (r : ℕ) → 1 ≤ r → r ≤ length self.mailboxes →
            IsPermutation (posted_to slips.items r) (letters_of lists.items r)) }
        ensures err { IfErr result (λ e. e ≡ Memory) }
    {
        let inboxes = self.into_inboxes(alloc, slips)?;
        Ok(letters_from_all(rt, alloc, inboxes)?)
    }

    /// Each mailbox with the letters that the slips posted to its receiver, that of receiver r at place r - 1. The
    /// slips are all that were made. The error is that memory was refused; then the letters are gone.
    pub fn into_inboxes(self, alloc: Global, slips: Vec<Slip>) -> Result<Vec<Inbox>, RunError>
        requires all { vec_len slips ≡ self.slips }
        requires slips { All (IsSlipOf self.mailboxes) slips.items }
        ensures count { IfOk result (λ inboxes. vec_len inboxes ≡ length self.mailboxes) }
        ensures letters { IfOk result (λ inboxes. (r : ℕ) → list_of inboxes.items r ≡ posted_to slips.items r) }
        ensures err { IfErr result (λ e. e ≡ Memory) }
    {
        let Mailboxes {
            shared,
            mut homes,
            ..
        } = self;
        let SharedMailboxes { boxes } = shared;
        for slip in slips {
            take_back(&boxes, &mut homes, slip);
        }
        Ok(inboxes_of(alloc, boxes, homes)?)
    }

    /// Mailboxes again, as new ones are, of inboxes that are empty. The error is that memory was refused.
    pub fn of_inboxes(alloc: Global, inboxes: Vec<Inbox>) -> Result<Mailboxes, AllocError>
        requires { All (λ i. i ≡ []) inboxes.items }
        ensures count { IfOk result (λ m. length m.mailboxes ≡ vec_len inboxes) }
        ensures slips { IfOk result (λ m. m.slips ≡ 0) }
    {
        let mut boxes = Vec::with_capacity(alloc, inboxes.len())?;
        let mut homes = Vec::with_capacity(alloc, inboxes.len())?;
        for inbox in inboxes {
            let Inbox { mailbox, home } = inbox;
            boxes.push(mailbox)?;
            homes.push(home)?;
        }
        Ok(Mailboxes {
            shared: SharedMailboxes { boxes },
            homes,
            slips: 0,
        })
    }
}
