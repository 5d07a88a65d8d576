//! The ledger of a queue or a deque that threads share: each item that was put in was taken out or is still there.
//!
//! Each thread that puts or takes has a pass, and the rule is over what all passes have put and taken. The first pass
//! stays with the owner, makes the others and takes them back; while one is out nobody knows the whole, and once all
//! are back the first one does. Where all items are put before the others take any, the first pass can tell the others
//! which items these were. Each of them then has a copy of the list, and knows that an item which it takes is one of
//! them.
//!
//! The user chooses the kinds of steps. Each kind, such as a push, a pop or a steal, is a type of its own, whose
//! outcome is stated by `has_put` or `has_taken` (`specs/Ledger.antt`). One fact of `proofs/Ledgers.antt` says that it
//! keeps the rule. The moves of a pass are here.
//!
//! For example, of a queue into which one pass put a and b and from which another took a, both know once they are back
//! with the first that b is there.
#![tactic(auto)]

mod account;

pub use account::{Account, Opening, Settling, Telling, Ticketing};
