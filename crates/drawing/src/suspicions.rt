//! The picture of who suspects whom.
ghost use Rattle.std.specs.Prelude.{◌≡◌, ◌≤◌, ◌<◌, Err, IfOk, IfErr, IsOk, MatchOption};
ghost use Rattle.drawing.specs.{LettersPicture.{IsMemory, refusal}, Suspicions.{DrawsSuspicions}};

use crate::bands::outage_legend;
use crate::error::DrawError;
use crate::frame::picture_text;
use crate::groups::Run;
use crate::layout::{LEFT, MOST_DRAWN, Ticks};
use crate::legend::legend;
use process_api::{Pid, Trace};
use scenario_record::Scenario;
use std::alloc::{AllocError, Global};

/// The picture of a run.
fn text_of(alloc: Global, run: &Run<'_>) -> Result<Vec<u8>, AllocError>
    ensures { IfOk result (λ text. DrawsSuspicions run.now.scenario.now run.now.trace.now run.now.ticks.from
        run.now.ticks.until text.items) }
{
    let rows = run.rows(alloc)?;
    let mut head = legend(alloc, &run.ticks, run.scenario.share())?;
    head.append(outage_legend(alloc, LEFT + 620, 34, &rows.bands)?)?;
    head.push_left_out("pairs without a bar, left out", rows.left_out)?;
    picture_text(&run.ticks, rows.top, head, rows.bands, rows.shapes)
}

/// The ticks from `from` to `until - 1`, where they are ticks of a run that can be drawn.
pub(crate) fn ticks_of(scenario: &Scenario, from: u32, until: u32) -> Result<Ticks, DrawError>
    ensures ok { IfOk result (λ t. (t.from ≡ from) × (t.until ≡ until)) }
    ensures few { IfOk result (λ _. scenario.now.processes ≤ 16) }
    ensures refused { MatchOption (refusal scenario.now from until) (IsOk result) (λ e. result ≡ Err e) }
{
    if scenario.processes() > MOST_DRAWN {
        return Err(DrawError::TooManyProcesses);
    }
    if from < until && until <= scenario.horizon() {
        return Ok(Ticks { from, until });
    }
    Err(DrawError::Ticks)
}

/// Tells before there is a run whether the ticks from `from` to `until - 1` of it can be drawn. It isn't known then
/// whether there are too many letters.
///
/// # Errors
///
/// `TooManyProcesses` where there are more than [`MOST_DRAWN`]; else `Ticks` where `from` isn't below `until`, or
/// `until` is above the horizon.
pub fn check_ticks(scenario: &Scenario, from: u32, until: u32) -> Result<(), DrawError>
    ensures { MatchOption (refusal scenario.now from until) (IsOk result) (λ e. result ≡ Err e) }
{
    ticks_of(scenario, from, until).map(|_| ())
}

/// The picture of who suspects whom at the ticks from `from` to `until - 1` of a run, as an SVG document.
///
/// Each process has a row for itself, with its crash and its decision, and one for each other process that it suspects
/// at one of these ticks, with a bar for each stretch of ticks through which it does: on layer 1, and below that on
/// layer 2 where the scenario has a reduction. A stretch is as long as can be within these ticks. A process that
/// crashes suspects nobody from then on, so its rows end there. Where pairs of processes have no bar, and so no row, a
/// line of text says how many.
///
/// # Errors
///
/// `TooManyProcesses` where there are more than [`MOST_DRAWN`]; else `Ticks` where `from` isn't below `until`, or
/// `until` is above the horizon. `Memory` where memory was refused.
pub fn draw_suspicions(
    alloc: Global,
    scenario: &Scenario,
    trace: &Trace,
    from: u32,
    until: u32,
) -> Result<Vec<u8>, DrawError>
    ensures draws { IfOk result (λ text. DrawsSuspicions scenario.now trace.now from until text.items) }
    ensures refused { MatchOption (refusal scenario.now from until) (IfErr result IsMemory) (λ e. result ≡ Err e) }
{
    let ticks = ticks_of(scenario, from, until)?;
    let run = Run {
        scenario,
        trace,
        ticks,
    };
    text_of(alloc, &run).map_err(DrawError::Memory)
}
