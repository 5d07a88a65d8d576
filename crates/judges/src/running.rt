//! A judge that runs beside a trace.
ghost use Rattle.std.specs.Prelude.{◌≡◌, ℕ, List, [], IfOk};

use crate::grid::grid_verdicts;
use crate::pairs::Pairs;
use crate::track::Track;
use crate::verdicts::Verdicts;
use process_api::{Entry, Follower};
use scenario_record::Scenario;
use std::alloc::{AllocError, Global};

/// Judges one layer, fed with the entries of a trace as they come, in the order of their keys.
///
/// All its room is made as it opens. Fed with all entries of a trace it answers what [`judge`](crate::judge) answers of
/// that trace.
#[derive(Drop)]
pub struct RunningJudge {
    pairs: Pairs<Track>,
}

impl RunningJudge {
    ghost use Rattle.{process_api.specs.Order.{EntryRecord}, scenario_record.specs.Record.{Record}};
    ghost use Rattle.judges.specs.{Pairs.{WasFed, IsJudging}, Verdicts.{verdicts}};

    /// A judge that was fed with nothing: of layer 1, the base detector, or layer 2, the reduction's output.
    ///
    /// # Errors
    ///
    /// Where a growth was refused.
    pub fn open(alloc: Global, scenario: &Scenario, layer: u8) -> Result<RunningJudge, AllocError>
        ensures { IfOk result (λ j. IsJudging scenario.now layer [] j) }
    {
        Ok(RunningJudge {
            pairs: Pairs::open(alloc, scenario, layer, Track::new())?,
        })
    }

    /// One more entry. Takes no memory.
    pub fn feed(&mut self, entry: &Entry)
        ensures { (S : Record) (layer : ℕ) → WasFed (IsJudging S layer) entry.now self.old self.new }
    {
        self.pairs.feed(entry);
    }

    /// The verdicts, as no entry follows. Takes no memory.
    pub fn close(self) -> Verdicts
        ensures { (S : Record) (layer : ℕ) (trace : List EntryRecord) → IsJudging S layer trace self
            → result ≡ verdicts S trace layer }
    {
        grid_verdicts(&self.pairs)
    }
}

impl Follower for RunningJudge {
    ghost use Rattle.judges.specs.Pairs.{HasFollowed, IsJudging};

    ghost followed = { HasFollowed IsJudging };

    fn follow(&mut self, entry: &Entry) -> Result<(), AllocError> {
        self.feed(entry);
        Ok(())
    }
}
