//! The followers of a run, put together.
ghost use Rattle.std.specs.Prelude.{◌≡◌, [], IfOk};
ghost use Rattle.reporting.specs.{ReportText.{prints_report, prints_trace}, Running.{AreLayers, IsMeasuring, IsRecording, IsRunning, IsSumming}};

use crate::asked::{prints_report, prints_trace};
use crate::counts::Counts;
use crate::layer::Layer;
use crate::trace_text::{TraceText, open_trace_text};
use judges::RunningOutcomes;
use process_api::PrintChoice;
use scenario_record::Scenario;
use std::alloc::{AllocError, Global};

/// What follows a run for its summary.
pub type Summing = (Counts, RunningOutcomes);

/// What follows it on layer 1, and on layer 2 where there is a reduction.
pub type Layers = (Layer, Option<Layer>);

/// What follows it for all that is measured.
pub type Measuring = (Summing, Layers);

/// What follows it for its summary, and for its report where that is asked for.
pub type Running = (Summing, Option<Layers>);

/// What follows it for these two, and for the text of its trace where that is asked for.
pub type Recording = (Running, Option<TraceText>);

fn open_summing(alloc: Global, scenario: &Scenario) -> Result<Summing, AllocError>
    ensures { IfOk result (IsSumming scenario.now []) }
{
    Ok((Counts::open(), RunningOutcomes::open(alloc, scenario)?))
}

fn open_layers(alloc: Global, scenario: &Scenario, listed: bool) -> Result<Layers, AllocError>
    ensures { IfOk result (AreLayers listed scenario.now []) }
{
    let first = Layer::open(alloc, scenario, 1, listed)?;
    match scenario.share() {
        None => Ok((first, None)),
        Some(_) => Ok((first, Some(Layer::open(alloc, scenario, 2, listed)?))),
    }
}

/// Nothing was told. The length of each mistake is kept where `listed` is true.
///
/// # Errors
///
/// Where a growth was refused.
pub fn open_measuring(
    alloc: Global,
    scenario: &Scenario,
    listed: bool,
) -> Result<Measuring, AllocError>
    ensures { IfOk result (IsMeasuring listed scenario.now []) }
{
    Ok((
        open_summing(alloc, scenario)?,
        open_layers(alloc, scenario, listed)?,
    ))
}

/// Nothing was told.
///
/// # Errors
///
/// Where a growth was refused.
pub fn open_running(
    alloc: Global,
    scenario: &Scenario,
    reported: bool,
) -> Result<Running, AllocError>
    ensures { IfOk result (IsRunning scenario.now [] reported) }
{
    let summing = open_summing(alloc, scenario)?;
    if reported {
        Ok((summing, Some(open_layers(alloc, scenario, false)?)))
    } else {
        Ok((summing, None))
    }
}

/// Nothing was told.
///
/// # Errors
///
/// Where a growth was refused.
pub fn open_recording(
    alloc: Global,
    scenario: &Scenario,
    print: PrintChoice,
) -> Result<Recording, AllocError>
    ensures { IfOk result (IsRecording scenario.now print []) }
{
    let running = open_running(alloc, scenario, prints_report(print))?;
    if prints_trace(print) {
        Ok((running, Some(open_trace_text(alloc)?)))
    } else {
        Ok((running, None))
    }
}
