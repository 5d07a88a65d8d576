//! The estimated size of a study, by the estimates of its runs. No proof says how near this comes.
ghost use Rattle.std.specs.Prelude.{◌≤◌};

use diagnosis::{HIGHEST_LIMIT, estimate_of};
use scenario::Scenario;
use std::alloc::{AllocError, Global};
use std::marker::Sync;
use std::ops::Range;
use std::thread::Threads;
use study::{Axis, Grid, Sources, read_run};
use sweep::in_parallel;

/// How many points are reckoned at a time.
const BATCH: u64 = 4096;

/// A run that will have more entries than its limit, by the estimate.
#[derive(Clone, Copy)]
pub(crate) struct Above {
    /// Its point, from 0.
    pub point: u64,
    /// Which run of the point, from 0.
    pub run: u64,
    /// About how many entries it will have.
    pub entries: u64,
    /// Its limit.
    pub limit: u64,
}

/// What is reckoned of runs together.
#[derive(Clone, Copy)]
pub(crate) struct Reckoned {
    /// Entries of all of them.
    pub entries: u128,
    /// A limit that would do for each of them. It may be above the highest that a file can have.
    pub limit: u64,
    /// The highest of their limits.
    pub highest: u64,
    /// The first of them that is above its limit.
    pub above: Option<Above>,
}

impl Reckoned {
    /// Of no runs.
    pub(crate) fn none() -> Reckoned {
        Reckoned {
            entries: 0,
            limit: 1,
            highest: 1,
            above: None,
        }
    }

    /// A limit of a file that would do for each of them, by the estimate, if there is one.
    pub(crate) fn possible_limit(&self) -> Option<u64> {
        let would_do = self.limit <= HIGHEST_LIMIT + HIGHEST_LIMIT / 4;
        would_do.then_some(self.limit.min(HIGHEST_LIMIT))
    }

    /// Takes in what is reckoned of further runs.
    pub(crate) fn join(&mut self, further: &Reckoned) {
        self.entries = self.entries.saturating_add(further.entries);
        self.limit = self.limit.max(further.limit);
        self.highest = self.highest.max(further.highest);
        self.above = self.above.or(further.above);
    }
}

/// How many combinations of the values of axes there are.
fn combinations(axes: &[Axis]) -> u64
    ensures { 1 ≤ result }
{
    let values = axes.iter().map(|axis| axis.values.len() as u64);
    values
        .fold(1u64, |count, its| count.saturating_mul(its))
        .max(1)
}

/// The scenario of a run of a point, both from 0. It was read before, so this fails only where memory was refused.
fn scenario_of(
    alloc: Global,
    sources: &Sources,
    grid: &Grid,
    point: u64,
    run: u64,
) -> Result<Scenario, AllocError> {
    if point >= grid.points() || run >= grid.runs() {
        return Err(AllocError);
    }
    let settings = grid.point(alloc, point)?;
    match read_run(alloc, sources, &settings, &grid.run(alloc, run)?) {
        Ok(scenario) => Ok(scenario),
        Err(_) => Err(AllocError),
    }
}

/// What is reckoned of so many runs like one, of a point, both from 0.
fn reckon_run(scenario: &Scenario, point: u64, run: u64, share: u64) -> Reckoned {
    let estimate = estimate_of(scenario);
    let (entries, limit) = (estimate.entries, scenario.limit());
    let above = Above {
        point,
        run,
        entries,
        limit,
    };
    Reckoned {
        entries: u128::from(entries).saturating_mul(u128::from(share)),
        limit: estimate.limit(),
        highest: limit,
        above: (limit < entries).then_some(above),
    }
}

/// What is reckoned of the runs of a point, from 0: of so many that differ in more than their seeds, the first of each
/// kind, which stands for all of its kind.
pub(crate) fn reckon_point(
    alloc: Global,
    sources: &Sources,
    grid: &Grid,
    point: u64,
    most: u64,
) -> Result<Reckoned, AllocError> {
    let (mixes, dealt) = (combinations(grid.over()), combinations(grid.dealt()));
    let seeds = grid.runs() / mixes;
    let mut all = Reckoned::none();
    for kind in 0..mixes.saturating_mul(dealt).min(most) {
        let run = (kind / dealt)
            .saturating_mul(seeds)
            .saturating_add(kind % dealt);
        let scenario = scenario_of(alloc, sources, grid, point, run)?;
        all.join(&reckon_run(&scenario, point, run, seeds / dealt));
    }
    Ok(all)
}

/// What is reckoned of all runs of some points, from 0, by so many threads.
pub(crate) fn reckon<R: Threads + Sync>(
    rt: &R,
    alloc: Global,
    sources: &Sources,
    grid: &Grid,
    points: Range<u64>,
    threads: u8,
) -> Result<Reckoned, AllocError> {
    let mut all = Reckoned::none();
    for batch in 0..points.end.saturating_sub(points.start).div_ceil(BATCH) {
        let first = points.start.saturating_add(batch.saturating_mul(BATCH));
        let count = BATCH.min(points.end.saturating_sub(first));
        let reckon_one = |point: u64| reckon_point(alloc, sources, grid, point, u64::MAX);
        for reckoned in in_parallel(rt, alloc, first, count, threads, &reckon_one)? {
            all.join(&reckoned?);
        }
    }
    Ok(all)
}
