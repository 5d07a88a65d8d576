//! The sums of a unit, which rows tell of: of a point, or of a run alone.
ghost use Rattle.std.specs.Prelude.{◌≡◌, [], IfOk, OnOk};

use crate::group::Group;
use crate::point_sums::PointSums;
use crate::run_numbers::RunNumbers;
use std::alloc::{AllocError, Global};

/// The sums of a unit over the runs that were added, of each group of pairs.
#[derive(Drop)]
pub struct UnitSums {
    groups: Vec<PointSums>,
}

impl UnitSums {
    ghost use Rattle.sweep.specs.Sums.{AddsRun, AreUnitSums};

    /// No run was added. The first run that is has this number.
    ///
    /// # Errors
    ///
    /// `AllocError` where memory was refused.
    pub fn new(alloc: Global, groups: &[Group], first: u64) -> Result<UnitSums, AllocError>
        ensures { IfOk result (AreUnitSums groups.now first []) }
    {
        let mut sums = Vec::new(alloc);
        for _group in groups {
            sums.push(PointSums::new(alloc, first))?;
        }
        Ok(UnitSums { groups: sums })
    }

    /// The sums of each group.
    pub fn groups(&self) -> &[PointSums]
        ensures { result.now ≡ self.now.groups.items }
    {
        &self.groups
    }

    /// One more run. The sums are exact of up to 1,000,000,000,000 runs.
    ///
    /// # Errors
    ///
    /// `AllocError` where memory was refused. Then the sums are to be dropped: a part of the run may be added.
    pub fn add(&mut self, numbers: &RunNumbers) -> Result<(), AllocError>
        ensures { OnOk result (AddsRun numbers.now self.old self.new) }
    {
        let count = self.groups.len().min(numbers.groups.len());
        for place in 0..count {
            self.groups[place].add(&numbers.groups[place])?;
        }
        Ok(())
    }
}
