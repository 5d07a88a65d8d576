//! How many entries and letters a run has.
ghost use Rattle.std.specs.Prelude.{◌++◌, ◌∷◌, [], List};
ghost use Rattle.process_api.specs.Order.{EntryRecord};

use process_api::{Entry, Follower};
use std::alloc::AllocError;

/// The counts of a run, fed with its entries as they come. They stay at the greatest number, should they reach it.
#[derive(Clone, Copy)]
pub struct Counts {
    /// How many entries there were.
    pub entries: u64,
    /// How many letters they sent.
    pub sent: u128,
    /// How many of these were lost.
    pub lost: u128,
}

impl Counts {
    ghost use Rattle.reporting.specs.Running.{IsCounting};

    /// Nothing is counted.
    pub(crate) fn open() -> Counts
        ensures { IsCounting [] result }
    {
        Counts {
            entries: 0,
            sent: 0,
            lost: 0,
        }
    }

    /// One more entry.
    fn feed(&mut self, entry: &Entry)
        ensures { (trace : List EntryRecord) → IsCounting trace self.old
            → IsCounting (trace ++ entry.now ∷ []) self.new }
    {
        let (sent, lost) = (entry.sent, entry.lost);
        self.entries = self.entries.saturating_add(1);
        // most entries send no letter
        if sent != 0 {
            self.sent = self.sent.saturating_add(u128::from(sent));
        }
        if lost != 0 {
            self.lost = self.lost.saturating_add(u128::from(lost));
        }
    }
}

impl Follower for Counts {
    ghost use Rattle.reporting.specs.Running.{IsCounting};

    ghost followed = { λ first now told. IsCounting [] first → IsCounting told now };

    #[inline(always)]
    fn follow(&mut self, entry: &Entry) -> Result<(), AllocError> {
        self.feed(entry);
        Ok(())
    }
}
