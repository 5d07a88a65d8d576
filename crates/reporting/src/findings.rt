//! The findings of a run.

use crate::pair_measures::PairMeasures;
use crate::summary::Summary;
use judges::Verdicts;

/// All that is measured of a run.
#[derive(Drop)]
pub struct RunFindings {
    /// The entries, the letters and the outcomes.
    pub summary: Summary,
    /// The verdicts on layer 1, the base detector.
    pub first: Verdicts,
    /// The verdicts on layer 2, the reduction's output, where there is a reduction.
    pub second: Option<Verdicts>,
    /// The measures of each pair on each layer: by layer, then observer, then subject, each rising.
    pub measures: Vec<PairMeasures>,
}
