//! The state that is kept of a layer.
ghost use Rattle.std.specs.Prelude.{◌≡◌, [], true, IfOk, OnOk};

use crate::durations::Durations;
use crate::layer_pairs::close_rows;
use crate::pair_measures::PairMeasures;
use crate::pair_tally::PairTally;
use judges::{Pairs, Verdicts, grid_verdicts};
use process_api::{Entry, Follower};
use scenario_record::Scenario;
use std::alloc::{AllocError, Global};

/// Of how many processes lengths are listed: of all, or of none.
fn listed_processes(scenario: &Scenario, listed: bool) -> u16
    ensures { listed ≡ true → result ≡ scenario.now.processes }
{
    if listed { scenario.processes() } else { 0 }
}

/// What is counted of all pairs on one layer, from which its verdicts and measures are told, and where they are listed
/// how long each mistake was. All room for the first is made as it opens.
#[derive(Drop)]
pub struct Layer {
    pub(crate) pairs: Pairs<PairTally>,
    // of no process where they aren't listed
    pub(crate) lengths: Durations,
}

impl Layer {
    ghost use Rattle.reporting.specs.{Inside.Layers.{AreVerdicts, AreLengths, HaveMeasures}, Running.{IsLayer}};

    /// Nothing was fed.
    pub(crate) fn open(
        alloc: Global,
        scenario: &Scenario,
        layer: u8,
        listed: bool,
    ) -> Result<Layer, AllocError>
        ensures { IfOk result (IsLayer listed scenario.now layer []) }
    {
        Ok(Layer {
            pairs: Pairs::open(alloc, scenario, layer, PairTally::new())?,
            lengths: Durations::open(alloc, listed_processes(scenario, listed))?,
        })
    }

    /// The verdicts and the lengths, as no entry follows; the measures join the rows.
    pub(crate) fn close(
        self,
        rows: &mut Vec<PairMeasures>,
    ) -> Result<(Verdicts, Durations), AllocError>
        ensures verdicts { IfOk result (λ told. AreVerdicts self told.0) }
        ensures lengths { IfOk result (λ told. AreLengths self told.1) }
        ensures measures { OnOk result (HaveMeasures self rows.old.items rows.new.items) }
    {
        let Layer { pairs, mut lengths } = self;
        lengths.close(&pairs)?;
        close_rows(&pairs, rows)?;
        Ok((grid_verdicts(&pairs), lengths))
    }
}

impl Follower for Layer {
    ghost use Rattle.reporting.specs.Running.{LayerFollowed};

    ghost followed = { LayerFollowed };

    /// One more entry. Takes memory for lengths alone; an entry without notes changes nothing.
    #[inline(always)]
    fn follow(&mut self, entry: &Entry) -> Result<(), AllocError> {
        if entry.notes.is_empty() {
            return Ok(());
        }
        self.pairs.feed(entry);
        self.lengths.follow(&self.pairs, entry)
    }
}
