//! The knowledge of a pass, and how passes are made and taken back.

use crossbeam_queue::protocol::{Join, Split};
use std::collections::LinkedList;

/// What one pass knows. It exists in proofs alone: no value of it is made.
pub struct Account<T> {
    /// How many passes were made. Only the first pass counts them.
    pub made: u64,
    /// For how many passes it stands: itself, and those that it took back.
    pub parts: u64,
    /// What it has put, in order.
    pub put: LinkedList<T>,
    /// What it has taken, in order.
    pub taken: LinkedList<T>,
    /// What all have put, where it was told: from then on nothing is put.
    pub told: Option<LinkedList<T>>,
}

/// Makes the first pass count. A queue that makes passes by itself, such as one for each item that is popped together
/// with others, makes each of them at rest, as one that was given back is, and its first one too. A split also answers
/// a second pass, which rests.
pub struct Opening;

impl<T> Split<Account<T>> for Opening {
    ghost use Rattle.ledger.specs.Ledger.{first_pass, given_back};

    ghost left = { λ _. first_pass };

    ghost right = { λ _. given_back };
}

/// The first pass makes one pass more, which is told what it was told, or takes one back with what it has put and
/// taken.
pub struct Ticketing;

impl<T> Split<Account<T>> for Ticketing {
    ghost use Rattle.ledger.specs.Ledger.{one_made, new_pass};

    ghost left = { one_made };

    ghost right = { λ a. new_pass a.told };
}

impl<T> Join<Account<T>> for Ticketing {
    ghost use Rattle.ledger.specs.Ledger.{both_of, given_back};

    ghost both = { both_of };

    ghost spent = { given_back };
}

/// The first pass makes one pass more, and forgets what it has put and taken. It may where it stands for all and has
/// taken all that was put.
pub struct Settling;

impl<T> Split<Account<T>> for Settling {
    ghost use Rattle.ledger.specs.Ledger.{one_made, new_pass, forgets};

    ghost left = { λ a. one_made (forgets a) };

    ghost right = { λ a. new_pass a.told };
}

/// The first pass makes one pass more, and tells it what was put.
pub struct Telling;

impl<T> Split<Account<T>> for Telling {
    ghost use Rattle.{std.specs.Prelude.{Some}, ledger.specs.Ledger.{one_made, tells, new_pass}};

    ghost left = { λ a. one_made (tells a) };

    ghost right = { λ a. new_pass (Some a.put) };
}
