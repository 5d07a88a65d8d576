//! The marks on the lines of processes: what they decide, and whom they begin to suspect or to trust again.
ghost use Rattle.std.specs.Prelude.{◌≡◌, ◌++◌, ◌≤◌, OnOk};
ghost use Rattle.judges.specs.Outcomes.{outcome};
ghost use Rattle.drawing.specs.{Frame.{placeless, line_of, shown}, LettersPicture.{turn_class, upper_layer, value_shapes}, Suspicions.{row_end}};

use crate::bars::{Bar, stretches_of};
use crate::frame::push_mark;
use crate::groups::Run;
use crate::labels::text;
use crate::lanes::{line_of, remark_of};
use crate::layout::{LEFT, Ticks, WIDTH};
use crate::letters_legend::turn_class;
use judges::{Answer, Outcome};
use process_api::Pid;
use scenario_record::Scenario;
use std::alloc::{AllocError, Global};
use svg::{Anchor, Class, Point, Shape};

/// The upper layer of detectors.
fn upper_layer(share: Option<u32>) -> u8
    ensures { result ≡ upper_layer share }
{
    match share {
        None => 1,
        Some(_) => 2,
    }
}

/// On which side of its place a text goes.
fn side(x: u32) -> Anchor {
    if x < LEFT + WIDTH / 2 {
        Anchor::Start
    } else {
        Anchor::End
    }
}

/// Where the marks of a pair of processes stand.
#[derive(Clone, Copy)]
struct Spot {
    class: Class,
    /// Where the observer's line is, from the top.
    line: u32,
    /// Where the texts are, from the top.
    remark: u32,
    /// The tick at which the observer's line ends.
    end: u32,
    subject: Pid,
}

impl Ticks {
    ghost use Rattle.drawing.specs.Inside.Drawn.{bar_turns_at, turn_at};

    /// Appends a mark at a tick, if there is one to show.
    fn push_turn(
        &self,
        alloc: Global,
        shapes: &mut Vec<Shape>,
        spot: &Spot,
        sign: &str,
        tick: Option<u32>,
    ) -> Result<(), AllocError>
        ensures { OnOk result (
            placeless shapes.new.items ≡ placeless shapes.old.items ++ turn_at self.now spot.now sign.now tick) }
    {
        let Some(tick) = tick else {
            return Ok(());
        };
        let x = self.x(tick);
        let number = spot.subject.number();
        let words = format!(in alloc; "{sign}{number}")?;
        let disc = Shape::Disc {
            class: spot.class,
            center: Point { x, y: spot.line },
            radius: 3,
        };
        push_mark(shapes, disc)?;
        push_mark(
            shapes,
            text(Class::Remark, x, spot.remark, Anchor::Middle, words),
        )
    }

    /// Appends the marks of a stretch of suspicion.
    fn push_bar_turns(
        &self,
        alloc: Global,
        shapes: &mut Vec<Shape>,
        spot: &Spot,
        bar: Bar,
    ) -> Result<(), AllocError>
        ensures { OnOk result (
            placeless shapes.new.items ≡ placeless shapes.old.items ++ bar_turns_at self.now spot.now bar) }
    {
        let begin = self.shown(spot.end, Some(bar.begin));
        let end = self.shown(spot.end, Some(bar.end));
        self.push_turn(alloc, shapes, spot, "+", begin)?;
        self.push_turn(alloc, shapes, spot, "-", end)
    }

    /// Appends what a process decides, if there is that to show.
    fn push_value(
        &self,
        alloc: Global,
        shapes: &mut Vec<Shape>,
        line: u32,
        answer: Answer,
        tick: Option<u32>,
    ) -> Result<(), AllocError>
        requires { line ≤ 1100000 }
        ensures { OnOk result (placeless shapes.new.items ≡ placeless shapes.old.items ++ value_shapes answer tick) }
    {
        if let (Answer::Value(value), Some(tick)) = (answer, tick) {
            let x = self.x(tick);
            let words = format!(in alloc; "decides {value}")?;
            push_mark(shapes, text(Class::Remark, x, line + 16, side(x), words))?;
        }
        Ok(())
    }
}

impl Run<'_> {
    ghost use Rattle.drawing.specs.Inside.Drawn.{marks_in, turns_in, turns_of_others};

    /// Where the marks of an observer and a subject stand.
    fn spot(&self, observer: Pid, subject: Pid) -> Spot
        ensures class { result.class ≡ turn_class self.now.scenario.now.share }
        ensures line { result.line ≡ line_of self.now.scenario.now.processes observer }
        ensures end { result.end ≡ row_end self.now.scenario.now self.now.ticks.until observer }
        ensures subject { result.subject ≡ subject }
    {
        let processes = self.scenario.processes();
        Spot {
            class: turn_class(self.scenario.share()),
            line: line_of(processes, observer),
            remark: remark_of(processes, observer, subject),
            end: self.row_end(observer),
            subject,
        }
    }

    /// Appends the marks of an observer and a subject.
    fn push_pair_turns(
        &self,
        alloc: Global,
        shapes: &mut Vec<Shape>,
        observer: Pid,
        subject: Pid,
    ) -> Result<(), AllocError>
        ensures { OnOk result (placeless shapes.new.items
            ≡ placeless shapes.old.items ++ turns_in self.now observer subject) }
    {
        let spot = self.spot(observer, subject);
        let layer = upper_layer(self.scenario.share());
        for bar in &stretches_of(alloc, self.trace, layer, observer, subject, 0, spot.end)? {
            self.ticks.push_bar_turns(alloc, shapes, &spot, *bar)?;
        }
        Ok(())
    }

    /// Appends the marks of an observer and all others.
    #[tactic(auto, using(crate::proofs::Counting::one_more))]
    fn push_turns(
        &self,
        alloc: Global,
        shapes: &mut Vec<Shape>,
        observer: Pid,
    ) -> Result<(), AllocError>
        ensures { OnOk result (placeless shapes.new.items
            ≡ placeless shapes.old.items ++ turns_of_others self.now observer) }
    {
        for before in 0..self.scenario.processes() {
            let subject = Pid::after(before);
            if subject != observer {
                self.push_pair_turns(alloc, shapes, observer, subject)?;
            }
        }
        Ok(())
    }

    /// Appends the marks of a process.
    pub fn push_marks(
        &self,
        alloc: Global,
        shapes: &mut Vec<Shape>,
        observer: Pid,
        told: &Outcome,
    ) -> Result<(), AllocError>
        requires { told.now ≡ outcome self.now.trace.now observer }
        ensures { OnOk result (placeless shapes.new.items ≡ placeless shapes.old.items ++ marks_in self.now observer) }
    {
        let line = line_of(self.scenario.processes(), observer);
        let tick = self.ticks.shown(self.ticks.until, told.tick);
        self.ticks
            .push_value(alloc, shapes, line, told.value, tick)?;
        self.push_turns(alloc, shapes, observer)?;
        Ok(())
    }
}
