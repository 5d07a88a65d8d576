//! The part of the mailboxes that threads share: the queues.
ghost use Rattle.std.specs.Prelude.{◌≡◌, ◌≤◌, ◌<◌, ◌+◌, ◌++◌, [], length, replicate, IfErr, OnOk, OnErr};
ghost use Rattle.{ledger.specs.Ledger.{each_with}, mailboxes.specs.Mailboxes.{IsSlipOf, with_letter, with_lists}};

use crate::mailbox::Mailbox;
use crate::slip::Slip;
use crate::tray::{Tray, place_of};
use std::alloc::AllocError;
use std::marker::Model;
use std::sync::Wait;
use trace_laws::Parcel;

/// The queues of the mailboxes, one for each receiver, by which threads post. Contracts see which they are.
#[derive(Drop)]
pub struct SharedMailboxes {
    pub(crate) boxes: Vec<Mailbox>,
}

impl Model for SharedMailboxes {
    ghost use Rattle.{std.specs.Prelude.{List}, mailboxes.specs.Mailboxes.{MailboxId}};

    ghost Value = { List MailboxId };

    ghost view = { λ m. m.boxes.items };
}

impl SharedMailboxes {
    /// Posts a letter to its receiver, 1 to n. Where memory is refused the letter comes back, and the slip and the
    /// mailboxes are as they were.
    pub fn post<R: Wait>(&self, rt: &R, slip: &mut Slip, letter: Parcel) -> Result<(), Parcel>
        requires slip { IsSlipOf self.now slip.old }
        requires receiver { letter.key.receiver ≤ length self.now }
        ensures slip { IsSlipOf self.now slip.new }
        ensures ok { OnOk result (slip.new ≡ with_letter slip.old letter) }
        ensures err { OnErr result (slip.new ≡ slip.old) }
        ensures back { IfErr result (λ x. x ≡ letter) }
    {
        let at = place_of(&letter.key());
        self.boxes[at].post(rt, &mut slip.tickets[at], letter)
    }

    /// Posts the letters of a tray, receiver by receiver, those to one in the order in which they came. It begins with
    /// the receiver at place `from`, and comes to those before it last: threads that begin at different places seldom
    /// post to one receiver at once. The tray is empty then, and keeps its memory. The error is that memory was
    /// refused. Nothing is known then of what was posted by the slip, nor of the letters in the tray.
    pub fn post_all<R: Wait>(
        &self,
        rt: &R,
        slip: &mut Slip,
        tray: &mut Tray,
        from: usize,
    ) -> Result<(), AllocError>
        requires slip { IsSlipOf self.now slip.old }
        requires tray { length tray.old ≡ length self.now }
        ensures slip { IsSlipOf self.now slip.new }
        ensures ok { OnOk result (slip.new ≡ with_lists slip.old tray.old) }
        ensures empty { OnOk result (tray.new ≡ replicate (length tray.old) []) }
        ensures count { length tray.new ≡ length tray.old }
    {
        self.post_from(rt, from, slip, tray)?;
        self.post_from(rt, 0, slip, tray)?;
        Ok(())
    }

    // Posts the letters of each receiver from a place on. Their lists are empty then.
    fn post_from<R: Wait>(
        &self,
        rt: &R,
        from: usize,
        slip: &mut Slip,
        tray: &mut Tray,
    ) -> Result<(), AllocError>
        requires slip { IsSlipOf self.now slip.old }
        requires tray { length tray.old ≡ length self.now }
        ensures slip { IsSlipOf self.now slip.new }
        ensures same { OnOk result
            (each_with (◌++◌) slip.new.posted tray.new ≡ each_with (◌++◌) slip.old.posted tray.old) }
        ensures empty { OnOk result (from ≡ 0 → tray.new ≡ replicate (length tray.old) []) }
        ensures count { length tray.new ≡ length tray.old }
    {
        let tickets = &mut slip.tickets;
        let lists = &mut tray.lists;
        for at in from..lists.len() {
            self.boxes[at].post_list(rt, &mut tickets[at], &mut lists[at])?;
        }
        Ok(())
    }
}
