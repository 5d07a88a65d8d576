//! How far a sweep has come: the unit whose runs are added up, and which of them are in.
ghost use Rattle.std.specs.Prelude.{◌≡◌, ◌+◌, ◌-◌, ◌*◌, ◌^◌, ◌<◌, ◌≤◌, [], ◌∷◌, length, IfOk, OnOk, IfErr};
ghost use Rattle.{study.specs.{Sources.{SourcesRecord}, Grid.{points, runs}}, sweep.specs.Inside.Progress.{runs_each}};

use crate::error::SweepError;
use crate::layout::Layout;
use crate::run_numbers::RunNumbers;
use crate::texts::{rows_of, write_text};
use crate::unit_sums::UnitSums;
use reporting::Outlet;
use std::alloc::{AllocError, Global};
use study::Grid;

/// The sums of a unit, with those of its runs that come before `run`.
#[derive(Drop)]
pub(crate) struct Progress {
    pub unit: u64,
    pub run: u64,
    pub sums: UnitSums,
}

impl Progress {
    ghost use Rattle.sweep.specs.Inside.Progress.{AreAdded, GoesOn, StopsAt, next_run};

    /// No run of the unit is in.
    pub fn at(
        alloc: Global,
        grid: &Grid,
        layout: &Layout,
        unit: u64,
    ) -> Result<Progress, AllocError>
        ensures unit { IfOk result (λ p. p.unit ≡ unit) }
        ensures run { IfOk result (λ p. p.run ≡ 0) }
        ensures added { IfOk result (λ p. (sources : SourcesRecord) → 1 ≤ runs_each layout.now.rows grid.now
            → AreAdded sources grid.now layout.now p) }
    {
        let first = layout.first_run(grid, unit);
        Ok(Progress {
            unit,
            run: 0,
            sums: UnitSums::new(alloc, layout.groups(), first)?,
        })
    }

    /// Takes the next run in. After the last of its unit the unit's rows go out, and the next unit begins.
    pub fn take<O: Outlet>(
        &mut self,
        alloc: Global,
        grid: &Grid,
        layout: &Layout,
        numbers: &RunNumbers,
        outlet: &mut O,
    ) -> Result<(), SweepError>
        requires failures { O.failed outlet.old < 2 ^ 64 - 1 }
        requires room { length (points grid.now) * length (runs grid.now) < 2 ^ 64 }
        requires run { self.old.run < runs_each layout.now.rows grid.now }
        requires within { next_run grid.now layout.now self.old < length (points grid.now) * length (runs grid.now) }
        ensures done { OnOk result (GoesOn grid.now layout.now O.told O.failed outlet.old outlet.new
            (numbers.now ∷ []) self.old self.new) }
        ensures number { OnOk result (next_run grid.now layout.now self.new
            ≡ next_run grid.now layout.now self.old + 1) }
        ensures run { OnOk result (self.new.run < runs_each layout.now.rows grid.now) }
        ensures failures { OnOk result (O.failed outlet.new ≡ O.failed outlet.old) }
        ensures stops { IfErr result (StopsAt grid.now layout.now O.told O.failed outlet.old outlet.new
            (numbers.now ∷ []) self.old) }
    {
        let runs = layout.runs_each(grid);
        self.sums.add(numbers)?;
        self.run += 1;
        if self.run < runs {
            return Ok(());
        }
        let text = rows_of(alloc, grid, layout, self.unit, &self.sums)?;
        write_text(&text, outlet)?;
        *self = Progress::at(alloc, grid, layout, self.unit + 1)?;
        Ok(())
    }

    /// Takes runs in, one after the other.
    pub fn take_all<O: Outlet>(
        &mut self,
        alloc: Global,
        grid: &Grid,
        layout: &Layout,
        numbers: &[RunNumbers],
        outlet: &mut O,
    ) -> Result<(), SweepError>
        requires failures { O.failed outlet.old < 2 ^ 64 - 1 }
        requires room { length (points grid.now) * length (runs grid.now) < 2 ^ 64 }
        requires run { self.old.run < runs_each layout.now.rows grid.now }
        requires within { next_run grid.now layout.now self.old + length numbers.now
            ≤ length (points grid.now) * length (runs grid.now) }
        ensures done { OnOk result (GoesOn grid.now layout.now O.told O.failed outlet.old outlet.new
            numbers.now self.old self.new) }
        ensures number { OnOk result (next_run grid.now layout.now self.new
            ≡ next_run grid.now layout.now self.old + length numbers.now) }
        ensures run { OnOk result (self.new.run < runs_each layout.now.rows grid.now) }
        ensures failures { OnOk result (O.failed outlet.new ≡ O.failed outlet.old) }
        ensures stops { IfErr result (StopsAt grid.now layout.now O.told O.failed outlet.old outlet.new
            numbers.now self.old) }
    {
        for each in numbers {
            self.take(alloc, grid, layout, each, outlet)?;
        }
        Ok(())
    }
}
