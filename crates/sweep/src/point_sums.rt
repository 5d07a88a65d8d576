//! The sums of a point, of a group of pairs.
ghost use Rattle.std.specs.{Prelude.{◌≡◌, [], ℕ, List, is_some, OnOk}, List.{list_any}};
ghost use Rattle.sweep.specs.{Columns.{AreColumns, over}, Results.{Trial}, declared.group.Group.{Group}};

use crate::columns::{Columns, FirstRuns, LayerSums};
use crate::run_numbers::{GroupNumbers, LayerNumbers};
use crate::value_counts::{ValueCounts, is_above};
use std::alloc::{AllocError, Global};

/// The quotient of two numbers, rounded down; none where there is nothing to divide by.
fn over(number: u128, by: u128) -> Option<u128>
    ensures { result ≡ over number by }
{
    if by == 0 { None } else { Some(number / by) }
}

/// What is counted value by value of runs on a layer.
#[derive(Drop)]
pub(crate) struct LayerValues {
    /// How long mistakes were, in ticks.
    pub durations: ValueCounts,
    /// The times of detections, in ticks.
    pub detections: ValueCounts,
    /// The ticks of the runs' last decisions.
    pub last_decisions: ValueCounts,
    /// The runs' greatest rounds.
    pub rounds: ValueCounts,
}

impl LayerValues {
    ghost use Rattle.sweep.specs.{Sums.{AreLayerValues}, Inside.Sums.{CountsOneMore}};

    /// No run is counted.
    fn new(alloc: Global) -> LayerValues
        ensures { (group : Group) (layer : ℕ) → AreLayerValues group layer [] result }
    {
        LayerValues {
            durations: ValueCounts::new(alloc),
            detections: ValueCounts::new(alloc),
            last_decisions: ValueCounts::new(alloc),
            rounds: ValueCounts::new(alloc),
        }
    }

    /// One more run.
    fn add(&mut self, run: &LayerNumbers) -> Result<(), AllocError>
        ensures { OnOk result (CountsOneMore run.now self.old self.new) }
    {
        self.durations.add_all(&run.durations)?;
        self.detections.add_all(&run.detections)?;
        self.last_decisions.add_if_any(run.last_decision)?;
        self.rounds.add_if_any(run.top_round)
    }
}

/// What was added up of runs on a layer.
#[derive(Drop)]
pub(crate) struct LayerTotals {
    pub sums: LayerSums,
    pub values: LayerValues,
    pub first_runs: FirstRuns,
}

impl LayerTotals {
    ghost use Rattle.sweep.specs.{Inside.Sums.{AreColumnsOf, TotalsOneMore}, Sums.{AreLayerTotals}};

    /// No run is added up.
    fn new(alloc: Global) -> LayerTotals
        ensures { (group : Group) (layer first : ℕ) → AreLayerTotals group layer [] first result }
    {
        LayerTotals {
            sums: LayerSums::default(),
            values: LayerValues::new(alloc),
            first_runs: FirstRuns::default(),
        }
    }

    /// One more run, of this number.
    fn add(&mut self, number: u128, run: &LayerNumbers) -> Result<(), AllocError>
        ensures { OnOk result (TotalsOneMore number run.now self.old self.new) }
    {
        let longest = self.values.detections.greatest;
        self.values.add(run)?;
        let is_longest = is_above(self.values.detections.greatest, longest);
        self.first_runs = self.first_runs.with(number, run.sums.counts, is_longest);
        self.sums = self.sums.plus(run.sums);
        Ok(())
    }

    fn columns(&self) -> Columns
        ensures { AreColumnsOf self.now result }
    {
        let sums = self.sums;
        let undecided = u128::from(sums.counts.undecided);
        Columns {
            sums,
            mistake_recurrence: over(sums.pair_ticks, sums.pairs.mistakes),
            mistaken_ppm: over(
                sums.pairs.mistake_ticks.saturating_mul(1_000_000),
                sums.pair_ticks,
            ),
            durations: self.values.durations.distribution(0),
            detections: self.values.detections.distribution(sums.pairs.undetected),
            last_decisions: self.values.last_decisions.distribution(undecided),
            rounds: self.values.rounds.distribution(0),
            first_runs: self.first_runs,
        }
    }
}

/// The sums of a point, over the runs that were added, of a group of pairs. Memory grows with how many different
/// lengths of mistakes, detection times, ticks of last decisions and rounds there are, and not with the runs.
#[derive(Drop)]
pub struct PointSums {
    first: LayerTotals,
    second: LayerTotals,
    /// The number of the next run.
    next: u128,
}

impl PointSums {
    ghost use Rattle.sweep.specs.{Sums.{AreSums}, Inside.Sums.{AddsOneMore}};

    /// No run was added. The first run that is has this number.
    pub fn new(alloc: Global, first: u64) -> PointSums
        ensures { (group : Group) → AreSums group first [] result }
    {
        PointSums {
            first: LayerTotals::new(alloc),
            second: LayerTotals::new(alloc),
            next: u128::from(first),
        }
    }

    /// One more run. The sums are exact of up to 1,000,000,000,000 runs.
    ///
    /// # Errors
    ///
    /// `AllocError` where memory was refused. Then the sums are to be dropped: a part of the run may be added.
    pub(crate) fn add(&mut self, numbers: &GroupNumbers) -> Result<(), AllocError>
        ensures { OnOk result (AddsOneMore numbers.now self.old self.new) }
    {
        let number = self.next;
        self.next = number.saturating_add(1);
        self.first.add(number, &numbers.first)?;
        self.second.add(number, &numbers.second)
    }

    /// What the row of layer 1 tells.
    pub fn first(&self) -> Columns
        ensures { (group : Group) (first : ℕ) (trials : List Trial) → AreSums group first trials self.now
            → AreColumns group 1 first trials result }
    {
        self.first.columns()
    }

    /// What the row of layer 2 tells, where some run has a reduction.
    pub fn second(&self) -> Columns
        ensures { (group : Group) (first : ℕ) (trials : List Trial) → AreSums group first trials self.now
            → AreColumns group 2 first trials result }
    {
        self.second.columns()
    }

    /// Whether some run has a reduction, whose output is layer 2.
    #[tactic(auto, using(crate::proofs::Layered::any_shared))]
    pub fn has_second(&self) -> bool
        ensures { (group : Group) (first : ℕ) (trials : List Trial) → AreSums group first trials self.now
            → result ≡ list_any (λ t. is_some t.scenario.share) trials }
    {
        self.second.sums.runs > 0
    }
}
