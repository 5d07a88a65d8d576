//! The rows of processes: one for each itself, and one for each other process of which it has a bar.
ghost use Rattle.std.specs.Prelude.{◌≡◌, ◌++◌, ◌+◌, ◌-◌, ◌≤◌, OnOk, IfOk};
ghost use Rattle.{judges.specs.Outcomes.{outcome}, drawing.specs.Frame.{placeless}};

use crate::frame::push_mark;
use crate::labels::own_name;
use crate::layout::{GAP, ROW, TOP, Ticks};
use crate::row_shapes::{decided, life_line, push_crash, push_decision};
use judges::{Outcome, decisions, end_tick};
use process_api::{Pid, Trace};
use scenario_record::Scenario;
use std::alloc::{AllocError, Global};
use svg::{Class, Shape};

/// A run, and some ticks of it that are drawn.
#[derive(Clone, Copy)]
pub(crate) struct Run<'a> {
    pub scenario: &'a Scenario,
    pub trace: &'a Trace,
    pub ticks: Ticks,
    ghost few: { scenario.now.processes ≤ 16 },
}

/// The row of an observer and a subject.
#[derive(Clone, Copy)]
pub(crate) struct Row {
    pub observer: Pid,
    pub subject: Pid,
    /// Where it begins, from the top.
    pub top: u32,
    ghost high: { top ≤ 1100000 },
}

/// The rows that are drawn so far.
#[derive(Drop)]
pub(crate) struct Rows {
    pub shapes: Vec<Shape>,
    /// The bands that lie below them.
    pub bands: Vec<Shape>,
    /// Where they end and the next one begins, from the top.
    pub top: u32,
    /// How many pairs of processes had no bar, and have no row.
    pub left_out: usize,
}

impl Run<'_> {
    ghost use Rattle.drawing.specs.{Inside.Drawn.{AreRows, IsNext, own_of}, Suspicions.{row_end}};

    /// The tick at which the rows of a process end.
    pub fn row_end(&self, observer: Pid) -> u32
        ensures { result ≡ row_end self.now.scenario.now self.now.ticks.until observer }
    {
        end_tick(self.scenario, observer).min(self.ticks.until)
    }

    /// Appends the row of a process itself, which begins at `top`.
    #[tactic(auto, unfolding(crate::specs::Inside::Drawn::own_of, crate::specs::Suspicions::own_at))]
    pub fn push_own(
        &self,
        alloc: Global,
        shapes: &mut Vec<Shape>,
        top: u32,
        told: &Outcome,
    ) -> Result<(), AllocError>
        requires top { top ≤ 1100000 }
        requires told { told.now ≡ outcome self.now.trace.now told.now.pid }
        ensures { OnOk result (placeless shapes.new.items
            ≡ placeless shapes.old.items ++ own_of self.now top told.now.pid) }
    {
        let ticks = &self.ticks;
        let end = self.row_end(told.pid);
        push_mark(shapes, own_name(alloc, top, told.pid)?)?;
        push_mark(shapes, life_line(ticks, Class::Life, top + 8, end))?;
        let decision = ticks.shown(ticks.until, decided(told));
        push_decision(shapes, ticks, top, decision)?;
        let crash = ticks.shown(ticks.until, self.scenario.crash(told.pid));
        push_crash(shapes, ticks, top, crash)?;
        Ok(())
    }

    /// Appends the rows of a process.
    #[tactic(auto, using(crate::proofs::Counting::low))]
    fn push_group(&self, alloc: Global, rows: &mut Rows, told: &Outcome) -> Result<(), AllocError>
        requires { IsNext self.now told.now rows.old }
        ensures { OnOk result (AreRows self.now (told.now.pid - 1 + 1) rows.new) }
    {
        self.push_own(alloc, &mut rows.shapes, rows.top, told)?;
        rows.top += ROW;
        for before in 0..self.scenario.processes() {
            self.push_pair(alloc, rows, told.pid, before)?;
        }
        rows.top += GAP;
        Ok(())
    }

    /// The rows of all processes.
    pub fn rows(&self, alloc: Global) -> Result<Rows, AllocError>
        ensures all { IfOk result (AreRows self.now self.now.scenario.now.processes) }
        ensures high { IfOk result (λ rows. rows.top ≤ 10000) }
    {
        let outcomes = decisions(alloc, self.scenario, self.trace)?;
        let mut rows = Rows {
            shapes: Vec::new(alloc),
            bands: Vec::new(alloc),
            top: TOP,
            left_out: 0,
        };
        for outcome in &outcomes {
            self.push_group(alloc, &mut rows, outcome)?;
        }
        Ok(rows)
    }
}
