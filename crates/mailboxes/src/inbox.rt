//! What a receiver gets when a window is closed: its mailbox, with its letters.
ghost use Rattle.std.specs.Prelude.{◌≡◌, [], IfOk, OnOk};
ghost use Rattle.mailboxes.specs.Mailboxes.{HasCollected, soonest_in};

use crate::collects::Collects;
use crate::mailbox::{Home, Mailbox};
use std::alloc::AllocError;
use std::marker::Model;
use std::sync::Wait;

/// A mailbox to which nobody can post, with its letters. Contracts see these.
#[derive(Drop)]
pub struct Inbox {
    pub(crate) mailbox: Mailbox,
    pub(crate) home: Home,
}

impl Model for Inbox {
    ghost use Rattle.std.specs.{Coded.{coded_list}, Prelude.{◌≡◌, List}};
    ghost use Rattle.process_api.specs.declared.message.Letter.{Letter};
    ghost use Rattle.trace_laws.specs.contracts.parcel.Parcel as letter;

    ghost Value = { List Letter };

    ghost coded = { coded_list letter.the_row.coded };

    ghost view = { λ i. i.home.back };

    ghost invariant = { λ i. (i.home.mailbox ≡ i.mailbox) × (i.home.out ≡ 0) };
}

impl Inbox {
    /// The least tick of the letters, if there are any.
    pub fn soonest(&self) -> Option<u32>
        ensures { result ≡ soonest_in self.now }
    {
        self.home.soonest
    }

    /// Gives all letters away, in some order. The error is that memory was refused. The letters may be gone then.
    pub fn empty<R: Wait, T: Collects>(self, rt: &R, to: &mut T) -> Result<Inbox, AllocError>
        ensures empty { IfOk result (λ i. i ≡ []) }
        ensures letters { OnOk result (HasCollected T.collected self to.old to.new) }
    {
        let Inbox { mailbox, home } = self;
        let home = mailbox.empty(rt, home, to)?;
        Ok(Inbox { mailbox, home })
    }
}
