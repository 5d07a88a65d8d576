//! The picture of letters.
ghost use Rattle.std.specs.Prelude.{◌≡◌, ◌++◌, IfOk, IfErr, OnOk, MatchOption, Err};
ghost use Rattle.judges.specs.Outcomes.{outcomes};
ghost use Rattle.drawing.specs.{Frame.{placeless}, LettersPicture.{DrawsLetters, IsMemory, letters_refusal}};

use crate::arrows::{count_others, count_sent};
use crate::bands::outage_legend;
use crate::error::DrawError;
use crate::frame::picture_text;
use crate::groups::Run;
use crate::lanes::{lanes_bottom, own_top};
use crate::layout::{LEFT, MOST_LETTERS};
use crate::letters_legend::letters_legend;
use crate::suspicions::ticks_of;
use judges::{Outcome, decisions};
use process_api::{Pid, Trace};
use reporting::Letter;
use scenario_record::Scenario;
use std::alloc::{AllocError, Global};
use svg::Shape;

impl Run<'_> {
    ghost use Rattle.drawing.specs.Inside.Drawn.{all_marks_in, lines_in};

    /// Appends the lines of all processes.
    fn push_lines(
        &self,
        alloc: Global,
        shapes: &mut Vec<Shape>,
        told: &[Outcome],
    ) -> Result<(), AllocError>
        requires { told.now ≡ outcomes self.now.trace.now self.now.scenario.now.processes }
        ensures { OnOk result (placeless shapes.new.items ≡ placeless shapes.old.items ++ lines_in self.now) }
    {
        for outcome in told {
            let top = own_top(self.scenario.processes(), outcome.pid);
            self.push_own(alloc, shapes, top, outcome)?;
        }
        Ok(())
    }

    /// Appends the marks of all processes.
    fn push_all_marks(
        &self,
        alloc: Global,
        shapes: &mut Vec<Shape>,
        told: &[Outcome],
    ) -> Result<(), AllocError>
        requires { told.now ≡ outcomes self.now.trace.now self.now.scenario.now.processes }
        ensures { OnOk result (placeless shapes.new.items ≡ placeless shapes.old.items ++ all_marks_in self.now) }
    {
        for outcome in told {
            self.push_marks(alloc, shapes, outcome.pid, outcome)?;
        }
        Ok(())
    }
}

/// The picture of a run's letters.
fn text_of(
    alloc: Global,
    run: &Run<'_>,
    letters: &[Letter],
    of: &[Pid],
) -> Result<Vec<u8>, AllocError>
    ensures { IfOk result (λ text. DrawsLetters run.now.scenario.now run.now.trace.now letters.now of.now
        run.now.ticks.from run.now.ticks.until text.items) }
{
    let scenario = run.scenario;
    let told = decisions(alloc, scenario, run.trace)?;
    let others = count_others(&run.ticks, of, letters);
    let bands = run.line_bands(alloc)?;
    let bottom = lanes_bottom(scenario.processes());
    let mut head = letters_legend(alloc, &run.ticks, scenario.share())?;
    head.push_left_out("letters of others, left out", others)?;
    head.append(outage_legend(alloc, LEFT + 440, 46, &bands)?)?;
    let mut shapes = Vec::new(alloc);
    run.push_lines(alloc, &mut shapes, &told)?;
    run.push_arrows(&mut shapes, of, letters)?;
    run.push_all_marks(alloc, &mut shapes, &told)?;
    picture_text(&run.ticks, bottom, head, bands, shapes)
}

/// The picture of what went from whom to whom at the ticks from `from` to `until - 1` of a run, as an SVG document.
///
/// Each process has a line up to its crash, process 1 at the top. Each letter that is sent at one of these ticks, and
/// whose sender or receiver is one of the processes `of`, is one shape: an arrow to the receiver's line at the tick
/// when it is due where it is taken, a dashed line to there where the receiver had crashed, a dotted line to the right
/// edge where it is due at `until` or after, and a short piece of a line that ends in a cross where it is lost. Where
/// `of` is empty, the letters of all processes are drawn; where letters of others are left out, a line of text says how
/// many. A letter that was sent before `from` isn't drawn, also where it comes at one of these ticks. Marks say what a
/// process decides, and whom it begins to suspect or to trust again, on the upper layer of detectors that the scenario
/// has.
///
/// The letters and the trace should be those of the scenario's run; what is drawn is defined for all others too.
///
/// # Errors
///
/// `TooManyProcesses` where there are more than [`MOST_DRAWN`](crate::MOST_DRAWN); else `Ticks` where `from` isn't
/// below `until`, or `until` is above the horizon; else `TooManyLetters` where more than [`MOST_LETTERS`] letters of
/// these processes are sent at these ticks. `Memory` where memory was refused.
pub fn draw_letters(
    alloc: Global,
    scenario: &Scenario,
    trace: &Trace,
    letters: &[Letter],
    of: &[Pid],
    from: u32,
    until: u32,
) -> Result<Vec<u8>, DrawError>
    ensures draws { IfOk result (λ text. DrawsLetters scenario.now trace.now letters.now of.now from until text.items) }
    ensures refused { MatchOption (letters_refusal scenario.now letters.now of.now from until)
        (IfErr result IsMemory) (λ e. result ≡ Err e) }
{
    let ticks = ticks_of(scenario, from, until)?;
    if count_sent(&ticks, of, letters) > MOST_LETTERS {
        return Err(DrawError::TooManyLetters);
    }
    let run = Run {
        scenario,
        trace,
        ticks,
    };
    text_of(alloc, &run, letters, of).map_err(DrawError::Memory)
}
