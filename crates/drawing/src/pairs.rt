//! The row of a pair of processes: when one suspects the other.
ghost use Rattle.std.specs.Prelude.{◌≡◌, ◌+◌, ◌++◌, ◌||◌, ◌≤◌, ◌<◌, IfOk, OnOk};
ghost use Rattle.{process_api.specs.Place.{others}, drawing.specs.{Frame.{placeless}, Suspicions.{first_top, has_bar}}};

use crate::bands::push_bands;
use crate::bars::{Bar, stretches_of};
use crate::frame::push_mark;
use crate::groups::{Row, Rows, Run};
use crate::labels::pair_name;
use crate::layout::ROW;
use crate::row_shapes::{life_line, push_bars, push_crash};
use process_api::Pid;
use std::alloc::{AllocError, Global};
use svg::{Class, Shape};

/// The bars of an observer and a subject.
#[derive(Drop)]
pub(crate) struct PairBars {
    /// Those of the base detector.
    pub first: Vec<Bar>,
    /// Those of the reduction, where there is one.
    pub second: Vec<Bar>,
}

impl PairBars {
    /// Whether there is one.
    fn is_shown(&self) -> bool
        ensures { result ≡ (has_bar self.now.first.items || has_bar self.now.second.items) }
    {
        !self.first.is_empty() || !self.second.is_empty()
    }
}

/// Where the bars of the base detector begin, below the top of their row.
fn first_top(share: Option<u32>) -> u32
    ensures value { result ≡ first_top share }
    ensures high { result ≤ 4 }
{
    match share {
        None => 4,
        Some(_) => 1,
    }
}

impl Run<'_> {
    ghost use Rattle.drawing.specs.{Inside.Drawn.{ArePairBars, AreRowsOf, bars_in, pair_of}, Suspicions.{upper_bars}};

    /// The bars of an observer and a subject on a layer.
    fn bars(
        &self,
        alloc: Global,
        layer: u8,
        observer: Pid,
        subject: Pid,
    ) -> Result<Vec<Bar>, AllocError>
        ensures { IfOk result (λ bars. bars.items ≡ bars_in self.now layer observer subject) }
    {
        let end = self.row_end(observer);
        let from = self.ticks.from;
        stretches_of(alloc, self.trace, layer, observer, subject, from, end)
    }

    /// Their bars of the reduction, where there is one.
    fn upper_bars(&self, alloc: Global, observer: Pid, subject: Pid) -> Result<Vec<Bar>, AllocError>
        ensures { IfOk result (λ bars. bars.items
            ≡ upper_bars self.now.scenario.now.share (bars_in self.now 2 observer subject)) }
    {
        match self.scenario.share() {
            None => Ok(Vec::new(alloc)),
            Some(_) => self.bars(alloc, 2, observer, subject),
        }
    }

    /// Appends the row of an observer and another process.
    fn push_row(
        &self,
        alloc: Global,
        shapes: &mut Vec<Shape>,
        row: &Row,
        bars: &PairBars,
    ) -> Result<(), AllocError>
        requires { ArePairBars self.now row.now.observer row.now.subject bars.now }
        ensures { OnOk result (placeless shapes.new.items ≡ placeless shapes.old.items ++ pair_of self.now row.now) }
    {
        let end = self.row_end(row.observer);
        let first_top = row.top + first_top(self.scenario.share());
        push_mark(
            shapes,
            pair_name(alloc, row.top, row.observer, row.subject)?,
        )?;
        push_mark(
            shapes,
            life_line(&self.ticks, Class::Grid, row.top + 15, end),
        )?;
        push_bars(shapes, &self.ticks, Class::First, first_top, &bars.first)?;
        push_bars(
            shapes,
            &self.ticks,
            Class::Second,
            row.top + 8,
            &bars.second,
        )?;
        let crash = self.ticks.shown(end, self.scenario.crash(row.subject));
        push_crash(shapes, &self.ticks, row.top, crash)?;
        Ok(())
    }

    /// Appends the row of an observer and the process that comes after so many, where that is another one and they have
    /// a bar; without a bar it is left out.
    #[tactic(auto, using(crate::proofs::Counting::low))]
    pub fn push_pair(
        &self,
        alloc: Global,
        rows: &mut Rows,
        observer: Pid,
        before: u16,
    ) -> Result<(), AllocError>
        requires observer { observer ≤ self.now.scenario.now.processes }
        requires subject { before < self.now.scenario.now.processes }
        requires rows { AreRowsOf self.now observer (others before observer) rows.old }
        ensures { OnOk result (AreRowsOf self.now observer (others (before + 1) observer) rows.new) }
    {
        let subject = Pid::after(before);
        if subject == observer {
            return Ok(());
        }
        let first = self.bars(alloc, 1, observer, subject)?;
        let second = self.upper_bars(alloc, observer, subject)?;
        let bars = PairBars { first, second };
        if !bars.is_shown() {
            rows.left_out += 1;
            return Ok(());
        }
        let row = Row {
            observer,
            subject,
            top: rows.top,
        };
        self.push_row(alloc, &mut rows.shapes, &row, &bars)?;
        let outages = self.scenario.outages(subject, observer);
        push_bands(&mut rows.bands, &self.ticks, rows.top, outages)?;
        rows.top += ROW;
        Ok(())
    }
}
