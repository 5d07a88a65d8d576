//! Tables of letters. A letter is a message from one process to another.
ghost use Rattle.std.specs.{Prelude.{◌≡◌, OnOk, is_some}, Option.{option_copied}};
ghost use Rattle.process_api.specs.{Coordinator.{keep as keep_of, count_to}, Letters.{by_number, since_round}};

use crate::membership::Membership;
use crate::pid::Pid;
use crate::row::Row;
use std::alloc::{AllocError, Global};
use std::collections::BTreeMap;

/// The first letters of one kind, by round and sender: a row for each round of which a letter came.
#[derive(Drop)]
pub struct Letters<T> {
    alloc: Global,
    rows: BTreeMap<u64, Row<T>>,
}

impl<T: Drop> Letters<T> {
    ghost use Rattle.process_api.specs.Letters.{by_sender, no_letters, since};

    /// No letters.
    pub fn new(alloc: Global) -> Letters<T>
        ensures { by_sender result ≡ no_letters }
    {
        Letters {
            alloc,
            rows: BTreeMap::new(alloc),
        }
    }

    /// The letters of a round, where one came.
    pub fn row(&self, round: u64) -> Option<&Row<T>>
        ensures { option_copied result ≡ by_number self.now.rows round }
    {
        self.rows.get(&round)
    }

    /// Whether a process's letter of a round is there.
    pub fn has(&self, round: u64, sender: Pid) -> bool
        ensures { result ≡ is_some (by_sender self.now round sender) }
    {
        match self.row(round) {
            Some(row) => row.has(sender),
            None => false,
        }
    }

    /// Keeps a letter, unless one of its round and sender is kept.
    ///
    /// # Errors
    ///
    /// `AllocError` where memory was refused.
    pub fn keep(&mut self, round: u64, sender: Pid, letter: T) -> Result<(), AllocError>
        ensures { OnOk result (by_sender self.new ≡ keep_of (by_sender self.old) round sender letter) }
    {
        if let Some(row) = self.rows.get_mut(&round) {
            return row.keep(sender, letter);
        }
        let mut row = Row::new(self.alloc);
        row.keep(sender, letter)?;
        self.rows.insert(round, row)?;
        Ok(())
    }

    /// How many processes' letters of a round are there.
    pub fn count(&self, membership: &Membership, round: u64) -> u16
        ensures { result ≡ count_to membership.now.processes (λ q. is_some (by_sender self.now round q)) }
    {
        match self.row(round) {
            Some(row) => row.count(membership.processes),
            None => 0,
        }
    }

    /// Drops the letters of the rounds before this one.
    pub fn drop_before(&mut self, round: u64)
        ensures { by_sender self.new ≡ since round (by_sender self.old) }
    {
        drop_rounds_before(&mut self.rows, round);
    }
}

/// Drops what is kept of the rounds before this one.
pub fn drop_rounds_before<V: Drop>(kept: &mut BTreeMap<u64, V>, round: u64)
    ensures { by_number kept.new ≡ since_round round (by_number kept.old) }
{
    while let Some((first, _)) = kept.first_key_value() {
        if *first >= round {
            break;
        }
        let _ = kept.pop_first();
    }
}
