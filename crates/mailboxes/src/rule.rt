//! The ledger of a mailbox's queue, whose kinds of step are push and pop.

use crossbeam_queue::protocol::{Lesson, Outcome, Outcomes, Protocol};
use ledger::Account;

/// Every letter that was put was taken, or is there, as often as it was put.
pub(crate) struct EachOnce;

impl<T> Protocol<T, Account<T>> for EachOnce {
    ghost use Rattle.ledger.specs.Ledger.{given_back, EachOnce};

    ghost holds = { EachOnce };

    // the queue makes passes by itself, one for each item of a batch, and these rest
    ghost first = { given_back };
}

/// A push: its pass has put one item more.
pub(crate) struct Push;

impl<T> Outcome<T, Account<T>> for Push {
    ghost use Rattle.std.specs.Prelude.{◌≡◌, [], ◌∷◌};
    ghost use Rattle.ledger.specs.Ledger.{has_put};

    ghost then = { λ a x b. b ≡ has_put a (x ∷ []) };
}

impl<T> Lesson<T, Account<T>> for Push {
    ghost use Rattle.std.specs.Prelude.{⊤};

    ghost fact = { λ _ _. ⊤ };
}

/// A pop of some items: its pass has taken these more.
pub(crate) struct Pop;

impl<T> Outcomes<T, Account<T>> for Pop {
    ghost use Rattle.std.specs.Prelude.{◌≡◌};
    ghost use Rattle.ledger.specs.Ledger.{has_taken};

    ghost then_all = { λ a xs b. b ≡ has_taken a xs };
}

/// A pop that finds the queue empty, by a pass that stands for all: what was put is what was taken and what is there.
impl<T> Lesson<T, Account<T>> for Pop {
    ghost use Rattle.ledger.specs.Ledger.{IsBalanced};

    ghost fact = { IsBalanced };
}
