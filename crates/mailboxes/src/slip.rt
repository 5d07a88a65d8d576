//! Slips: the permit to post.
ghost use Rattle.std.specs.Prelude.{◌≡◌, [], length, replicate, IfOk};

use crate::mailbox::Ticket;
use crate::tray::Tray;
use std::alloc::AllocError;
use std::marker::Model;
use trace_laws::Parcel;

/// The permit to post to some mailboxes. It may go to another thread, and it comes back for the collecting.
///
/// Contracts see of which mailboxes it is, and the letters that were posted by it to each receiver.
#[derive(Drop)]
pub struct Slip {
    /// A ticket of each mailbox, by receiver.
    pub(crate) tickets: Vec<Ticket>,
    // lists of a tray, kept for their memory: what they hold means nothing
    pub(crate) kept: Vec<Vec<Parcel>>,
}

impl Model for Slip {
    ghost use Rattle.std.specs.Prelude.{map};
    ghost use Rattle.trace_laws.specs.contracts.parcel.Parcel as letter;
    ghost use Rattle.mailboxes.specs.contracts.mailbox.Mailbox as mailbox;
    ghost use Rattle.mailboxes.specs.Mailboxes.{SlipView, slip_code, slip_of};

    ghost Value = { SlipView };

    ghost coded = { slip_code mailbox.the_row.coded letter.the_row.coded };

    ghost view = { λ s. slip_of (map (λ t. t.mailbox) s.tickets.items) (map (λ t. t.posted) s.tickets.items) };
}

impl Slip {
    /// An empty tray, for letters that are posted by the slip with [`crate::SharedMailboxes::post_all`]. Its lists have
    /// the memory that the slip kept. The error is that memory was refused.
    pub fn tray(&mut self) -> Result<Tray, AllocError>
        ensures slip { self.new ≡ self.old }
        ensures fits { length self.old.posted ≡ length self.old.mailboxes }
        ensures empty { IfOk result (λ tray. tray ≡ replicate (length self.old.mailboxes) []) }
    {
        let Slip { tickets, kept } = self;
        let alloc = *tickets.allocator();
        let mut lists = Vec::with_capacity(alloc, tickets.len())?;
        for _ in 0..tickets.len() {
            let mut list = kept.pop().unwrap_or(Vec::new(alloc));
            list.clear();
            lists.push_reserved(list);
        }
        Ok(Tray { lists })
    }

    /// Keeps the memory of a tray's lists for the next tray.
    pub fn keep(&mut self, tray: Tray)
        ensures { self.new ≡ self.old }
    {
        self.kept = tray.lists;
    }
}
