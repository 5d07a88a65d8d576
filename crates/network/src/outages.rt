//! The outages that are drawn, with their links.
ghost use Rattle.std.specs.Prelude.{◌≡◌, ◌≤◌, ◌++◌, ◌∷◌, [], length, OnOk};
ghost use Rattle.network.specs.Drawn.{OnTooMany, most_outages};

use crate::error::DrawError;
use scenario::LinkOutage;
use std::alloc::Global;
use std::marker::Model;

/// The most outages that are drawn in a run.
pub const MOST_OUTAGES: usize = 100_000;

/// What is drawn so far, never more than [`MOST_OUTAGES`]. Contracts see the list.
#[derive(Drop)]
pub(crate) struct Drawn {
    outages: Vec<LinkOutage>,
}

impl Model for Drawn {
    ghost use Rattle.std.specs.Prelude.{List, length, ◌≤◌};
    ghost use Rattle.scenario.specs.declared.drawn.LinkOutage.{LinkOutage};
    ghost use Rattle.network.specs.declared.outages.TheConstants.{MOST_OUTAGES};

    ghost Value = { List LinkOutage };

    ghost view = { λ d. d.outages.items };

    ghost invariant = { λ d. length d.outages.items ≤ MOST_OUTAGES };
}

impl Drawn {
    /// Nothing yet.
    pub(crate) fn new(alloc: Global) -> Drawn
        ensures { result ≡ [] }
    {
        Drawn {
            outages: Vec::new(alloc),
        }
    }

    /// One more.
    pub(crate) fn push(&mut self, outage: LinkOutage) -> Result<(), DrawError>
        ensures ok { OnOk result (self.new ≡ self.old ++ outage ∷ []) }
        ensures full { OnTooMany result (self.old ++ outage ∷ []) }
    {
        if self.outages.len() >= MOST_OUTAGES {
            return Err(DrawError::TooManyOutages);
        }
        match self.outages.push(outage) {
            Ok(()) => Ok(()),
            Err(_) => Err(DrawError::Memory),
        }
    }

    /// All of them.
    pub(crate) fn into_outages(self) -> Vec<LinkOutage>
        ensures all { result.items ≡ self }
        ensures few { length result.items ≤ most_outages }
    {
        self.outages
    }
}
