//! Laws of the texts of studies.
ghost use Rattle.std.specs.Prelude.{◌≤◌};
ghost use Rattle.{study.specs.Sources.{sources_of}, sweep.specs.StudyText.{HasOneText, ShardsMakeWhole}};

use crate::layout::Layout;
use study::{Grid, Shard, Sources};

/// A shard of a study has at most one text in a layout: two sweeps that end well write the same bytes, by however many
/// threads.
pub fn law_one_text(sources: &Sources, grid: &Grid, shard: Shard, layout: &Layout)
    ensures { HasOneText (sources_of sources.now) grid.now shard layout.now }
{}

/// The texts of a number of shards, one after the other, are the text of the whole study.
#[tactic(auto, using(crate::proofs::Shards::shards_make_whole))]
pub fn law_shard_texts(sources: &Sources, grid: &Grid, layout: &Layout, shards: u32)
    requires { 1 ≤ shards }
    ensures { ShardsMakeWhole (sources_of sources.now) grid.now layout.now shards }
{}
