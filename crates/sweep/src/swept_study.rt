//! What a sweep is of.

use crate::layout::Layout;
use study::{Grid, Shard, Sources};

/// A study that is swept.
#[derive(Clone, Copy)]
pub struct SweptStudy<'a> {
    /// Its files.
    pub sources: &'a Sources,
    /// Its points, and the runs of each.
    pub grid: &'a Grid,
    /// Which of its points are swept.
    pub shard: Shard,
    /// What the rows tell of, and their columns.
    pub layout: &'a Layout,
    /// How many threads share its runs; 0 counts as 1.
    pub threads: u8,
}
