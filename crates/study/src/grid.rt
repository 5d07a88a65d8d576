//! Grids of settings.
ghost use Rattle.std.specs.Prelude.{◌≡◌, ◌<◌, ◌≤◌, [], map, length, get_or, IfOk, OnOk, IfErr};
ghost use Rattle.study.specs.{Settings.{choices, chosen}, Grid.{points, keys_of, keys, runs, run_of, grid_of, paths_of, NoneApplies, IsFirst, HaveOwnSeeds, AreDealtEvenly}};

use crate::axis::{Axis, Choice};
use crate::combination::pick_combination;
use crate::error::GridError;
use crate::grid_checks::{check_keys, check_seeds, count_deals, count_mixes, count_points};
use crate::run::Run;
use std::alloc::{AllocError, Global};
use std::marker::Model;

/// Which runs a study has: its points, and the runs of each point.
#[derive(Drop)]
pub struct Grid {
    vary: Vec<Axis>,
    over: Vec<Axis>,
    deal: Vec<Axis>,
    first_seed: u64,
    seeds: u64,
    // how many points there are, and how many combinations of the values in `over` and of those in `deal`
    points: u64,
    mixes: u64,
    deals: u64,
}

impl Model for Grid {
    ghost use Rattle.std.specs.Prelude.{◌≡◌, ◌<◌, ◌≤◌, ◌+◌, ◌*◌, ◌%◌, ◌^◌, map, length};
    ghost use Rattle.study.specs.{Grid.{combinations, GridRecord}, Settings.{choices}};

    ghost Value = { GridRecord };

    ghost view = { λ g. record {
      vary = map choices g.vary.items;
      over = map choices g.over.items;
      deal = map choices g.deal.items;
      first_seed = g.first_seed;
      seeds = g.seeds;
    } };

    ghost invariant = { λ g. record {
      points : g.points ≡ length (combinations (map choices g.vary.items));
      points_high : g.points ≤ 1000000;
      mixes : g.mixes ≡ length (combinations (map choices g.over.items));
      deals : g.deals ≡ length (combinations (map choices g.deal.items));
      even : g.seeds % g.deals ≡ 0;
      seeds_low : 1 ≤ g.seeds;
      seeds_high : g.first_seed + g.seeds ≤ 2 ^ 63;
      runs_high : g.mixes * g.seeds ≤ 1000000000000;
    } };
}

impl Grid {
    /// The grid of the varied axes, the axes whose values are added up, the axes whose values are dealt to the seeds,
    /// and the seeds from the first to the last.
    ///
    /// # Errors
    ///
    /// The first reason against it, in the order of [`GridError`], or `Memory`.
    pub fn new(
        alloc: Global,
        vary: Vec<Axis>,
        over: Vec<Axis>,
        deal: Vec<Axis>,
        first_seed: u64,
        last_seed: u64,
    ) -> Result<Grid, GridError>
        ensures value { IfOk result (λ g. g ≡ grid_of vary.items over.items deal.items first_seed last_seed) }
        ensures ok { OnOk result (NoneApplies vary.items over.items deal.items first_seed last_seed) }
        ensures err { IfErr result (IsFirst vary.items over.items deal.items first_seed last_seed) }
    {
        check_seeds(first_seed, last_seed)?;
        check_keys(alloc, &vary, &over, &deal)?;
        let seeds = last_seed + 1 - first_seed;
        let points = count_points(&vary)?;
        let deals = count_deals(&deal, seeds)?;
        let mixes = count_mixes(&over, seeds)?;
        Ok(Grid {
            vary,
            over,
            deal,
            first_seed,
            seeds,
            points,
            mixes,
            deals,
        })
    }

    /// How many points there are, at most 1,000,000.
    pub fn points(&self) -> u64
        ensures value { result ≡ length (points self.now) }
        ensures high { result ≤ 1000000 }
    {
        self.points
    }

    /// The varied axes, in order.
    pub fn varied(&self) -> &[Axis]
        ensures choices { map choices result.now ≡ self.now.vary }
        ensures keys { paths_of result.now ≡ keys self.now }
    {
        &self.vary
    }

    /// The axes whose values are added up, in order.
    pub fn over(&self) -> &[Axis]
        ensures choices { map choices result.now ≡ self.now.over }
        ensures keys { paths_of result.now ≡ keys_of self.now.over }
    {
        &self.over
    }

    /// The axes whose values are dealt to the seeds, in order.
    pub fn dealt(&self) -> &[Axis]
        ensures choices { map choices result.now ≡ self.now.deal }
        ensures keys { paths_of result.now ≡ keys_of self.now.deal }
    {
        &self.deal
    }

    /// How many seeds there are, at most 1,000,000,000,000.
    pub fn seeds(&self) -> u64
        ensures { result ≡ self.now.seeds }
    {
        self.seeds
    }

    /// How many runs each point has, at most 1,000,000,000,000.
    pub fn runs(&self) -> u64
        ensures value { result ≡ length (runs self.now) }
        ensures low { 1 ≤ result }
        ensures high { result ≤ 1000000000000 }
    {
        self.mixes * self.seeds
    }

    /// Does nothing when it runs: a proof that needs the ranges of the grid's numbers has them from this call's
    /// contract.
    pub fn recall_ranges(&self)
        ensures points { length (points self.now) ≤ 1000000 }
        ensures some_run { 1 ≤ length (runs self.now) }
        ensures runs { length (runs self.now) ≤ 1000000000000 }
    {
        // The readers promise these ranges.
        let _points = self.points();
        let _runs = self.runs();
    }

    /// The settings of a point, from 0.
    pub fn point(&self, alloc: Global, number: u64) -> Result<Vec<Choice<'_>>, AllocError>
        requires { number < length (points self.now) }
        ensures { IfOk result (λ v. map chosen v.items ≡ get_or (points self.now) number []) }
    {
        let mut settings = Vec::new(alloc);
        pick_combination(&mut settings, &self.vary, self.points, number)?;
        Ok(settings)
    }

    /// A run of a point, from 0.
    pub fn run(&self, alloc: Global, number: u64) -> Result<Run<'_>, AllocError>
        requires { number < length (runs self.now) }
        ensures { IfOk result (λ r. run_of r ≡ get_or (runs self.now) number (run_of r)) }
    {
        let place = number % self.seeds;
        let mut settings = Vec::new(alloc);
        pick_combination(&mut settings, &self.over, self.mixes, number / self.seeds)?;
        pick_combination(&mut settings, &self.deal, self.deals, place % self.deals)?;
        Ok(Run {
            settings,
            seed: self.first_seed + place,
        })
    }

    /// Where no axis' values are added up no two runs of a point have one seed, and each of the dealt combinations is
    /// dealt to equally many seeds.
    pub fn law_deals(&self)
        ensures seeds { self.now.over ≡ [] → HaveOwnSeeds (runs self.now) }
        ensures even { AreDealtEvenly self.now }
    {
        // What a grid promises of its fields is known once one is read.
        let _seeds = self.seeds;
    }
}
