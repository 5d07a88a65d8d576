//! Numbers of processes.
ghost use Rattle.std.specs.Prelude.{◌≡◌, ◌≤◌, ◌<◌, ◌+◌, ◌↔◌, ℕ, IsSome, IfSome};
ghost use Rattle.process_api.specs.Place.{most_processes};

use std::marker::Model;

/// How many processes there can be, and so the greatest number of one.
pub const MOST_PROCESSES: u16 = 256;

/// The number of a process, 1 to [`MOST_PROCESSES`]. Contracts see it as that number.
#[derive(Clone, Copy, Debug, PartialEq, Eq, PartialOrd, Ord)]
pub struct Pid {
    number: u16,
}

impl Model for Pid {
    ghost Value = { ℕ };

    ghost view = { λ p. p.number };

    ghost invariant = { λ p. (1 ≤ p.number) × (p.number ≤ most_processes) };

    ghost inverse = { λ n. record { number = n } };
}

impl Pid {
    /// The process of this number, if it is one of 1 to [`MOST_PROCESSES`].
    pub fn new(number: u16) -> Option<Pid>
        ensures range { IsSome result ↔ ((1 ≤ number) × (number ≤ most_processes)) }
        ensures value { IfSome result (λ p. p ≡ number) }
    {
        if 1 <= number && number <= MOST_PROCESSES {
            Some(Pid { number })
        } else {
            None
        }
    }

    /// The process that comes after so many others.
    pub fn after(before: u16) -> Pid
        requires { before < most_processes }
        ensures { result ≡ before + 1 }
    {
        Pid { number: before + 1 }
    }

    /// The number, 1 to [`MOST_PROCESSES`].
    pub fn number(self) -> u16
        ensures value { result ≡ self }
        ensures low { 1 ≤ result }
        ensures high { result ≤ most_processes }
    {
        self.number
    }
}
