//! The ledger of a worker's deque, whose kinds of step are push, pop and steal.
use crossbeam_deque::protocol::{Outcome, Protocol};
use ledger::Account;

/// Every item that was put was taken, or is there, as often as it was put.
pub(crate) struct EachOnce;

impl<T> Protocol<T, Account<T>> for EachOnce {
    ghost use Rattle.ledger.specs.Ledger.{first_pass, given_back, EachOnce};

    ghost holds = { EachOnce };

    ghost first = { first_pass };

    ghost guest = { given_back };
}

/// A push: its pass has put one item more.
pub(crate) struct Push;

impl<T> Outcome<T, Account<T>> for Push {
    ghost use Rattle.std.specs.Prelude.{◌≡◌};
    ghost use Rattle.ledger.specs.Ledger.{has_put};

    ghost then = { λ a xs b. b ≡ has_put a xs };
}

/// A pop, by the deque's owner: its pass has taken one item more. Where it finds the deque empty and stands for all,
/// what was put is what was taken.
pub(crate) struct Pop;

impl<T> Outcome<T, Account<T>> for Pop {
    ghost use Rattle.std.specs.Prelude.{◌≡◌, []};
    ghost use Rattle.ledger.specs.Ledger.{has_taken, IsBalanced, AreTold};

    ghost then = { λ a xs b. (b ≡ has_taken a xs) × AreTold a xs };

    ghost empty = { λ a. a.parts ≡ a.made → IsBalanced a [] };
}

/// A steal, by another worker: its pass has taken one item more.
pub(crate) struct Steals;

impl<T> Outcome<T, Account<T>> for Steals {
    ghost use Rattle.std.specs.Prelude.{◌≡◌};
    ghost use Rattle.ledger.specs.Ledger.{has_taken, AreTold};

    ghost then = { λ a xs b. (b ≡ has_taken a xs) × AreTold a xs };
}
