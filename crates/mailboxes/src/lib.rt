//! Mailboxes: the letters that the workers of a window post to other processes, until the window ends.
//!
//! There is a mailbox for each receiver, 1 to n: an unbounded queue that all workers share. A worker posts by a *slip*,
//! which it owns, and which remembers, in contracts alone, what was posted by it. When the workers have ended, their
//! slips come back and the mailboxes are emptied.
//!
//! The contracts for the layers above are those of [`Mailboxes::into_inboxes`] and [`Inbox::empty`];
//! [`Mailboxes::collect`] does both. Under every schedule of the threads, the list of receiver r has the letters that
//! the slips posted to r, each as often as it was posted, and no others. No order of a list is promised. The proof uses
//! the ledger of the queue (`ledger`): counted with repetitions, the letters that all passes have put are those that
//! they have taken and those that the queue holds. Nothing is promised about how long a call waits, or that it returns.
//!
//! For example, there are three mailboxes and two slips. One thread posts letter a to 2 and letter b to 3 by the first
//! slip, while another posts letter c to 2 by the second. Then `collect` with both slips gives an empty list, a list of
//! a and c in one order or the other, and the list of b alone.
//!
//! What threads share by reference is [`SharedMailboxes`]; [`Mailboxes`] has it, and beside it the owner's passes, by
//! which slips are made and taken back. They aren't shared: one thread has each of them at a time.
//! [`Mailboxes::into_inboxes`] gives each mailbox, with its letters and its owner's pass, to its receiver as an
//! [`Inbox`], which any thread may empty later, into whatever [`Collects`] its letters. What is in it is known without
//! that, as every slip is back.
//! [`Mailboxes::of_inboxes`] makes mailboxes of emptied ones, to be used again.
//!
//! Letters lie in the mailboxes as a [`trace_laws::Parcel`] each. A worker that posts many lays them into a [`Tray`]
//! first, by receiver. It posts those of one receiver one after the other, so that threads seldom wait for one another.
#![tactic(auto)]

mod collects;
mod inbox;
mod mailbox;
mod mailboxes;
mod rule;
mod shared;
mod slip;
mod soonest;
mod tray;

pub use collects::Collects;
pub use inbox::Inbox;
pub use mailboxes::Mailboxes;
pub use shared::SharedMailboxes;
pub use slip::Slip;
pub use soonest::earlier;
pub use tray::Tray;
