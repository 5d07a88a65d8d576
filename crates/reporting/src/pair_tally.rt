//! A tally whose numbers fit their types.
ghost use Rattle.std.specs.Prelude.{◌≡◌};
ghost use Rattle.reporting.specs.Tally.{counted, new_tally, tracked};

use crate::tally::Tally;
use judges::{Gauge, Track};
use std::marker::Model;

/// What is counted of a pair; contracts see its tally.
#[derive(Clone, Copy)]
pub(crate) struct PairTally {
    tally: Tally,
}

impl Model for PairTally {
    ghost use Rattle.reporting.specs.{Tally.{InRange}, declared.tally.Tally.{Tally}};

    ghost Value = { Tally };

    ghost view = { λ l. l.tally };

    ghost invariant = { λ l. InRange l.tally };

    ghost inverse = { λ t. record { tally = t } };
}

impl PairTally {
    /// Nothing is counted.
    pub fn new() -> PairTally
        ensures { result ≡ new_tally }
    {
        PairTally { tally: Tally::NEW }
    }

    pub fn tally(&self) -> Tally
        ensures { result ≡ self.now }
    {
        self.tally
    }
}

impl Gauge for PairTally {
    ghost passed = { counted };

    ghost seen = { tracked };

    ghost fresh = { new_tally };

    fn pass(&mut self, until: u32, suspected: bool, end: u32) {
        self.tally.pass(until, suspected, end);
    }

    fn track(&self) -> Track {
        let tally = self.tally;
        let since = if tally.was {
            tally.started
        } else {
            tally.ended
        };
        Track {
            tick: tally.tick,
            was: tally.was,
            since: since.unwrap_or(0),
            mistaken: 0 < tally.mistake_ticks,
        }
    }
}
