//! The numbers that are told of a run, once no entry follows.
ghost use Rattle.std.specs.Prelude.{◌≡◌, ◌<◌, ◌^◌, ◌++◌, List, true, IfOk, OnOk, length};
ghost use Rattle.{process_api.specs.Order.{EntryRecord}, scenario_record.specs.Record.{Record}};
ghost use Rattle.reporting.specs.{Inside.Layers.{AreSecondVerdicts, AreSecondLengths, HaveSecondMeasures}, Running.{AreRunDurations, IsSummary, IsMeasuring, IsSumming, TellsRun, rows_of, OfRecorded, TellsFindings, TellsOf}};
ghost use Rattle.reporting.specs.ReportText.{items_of};

use crate::durations::{Durations, RunDurations};
use crate::findings::RunFindings;
use crate::following::{Measuring, Recording, Running, Summing};
use crate::layer::Layer;
use crate::layer_pairs::places;
use crate::pair_measures::PairMeasures;
use crate::report::text_of_report;
use crate::summary::Summary;
use crate::trace_text::TraceText;
use judges::Verdicts;
use scenario_record::Scenario;
use std::alloc::{AllocError, Global};

/// The summary.
fn sum_up(summing: Summing) -> Summary
    ensures { (S : Record) (trace : List EntryRecord) → IsSumming S trace summing → length trace < 2 ^ 64
        → IsSummary S trace result }
{
    let (counts, outcomes) = summing;
    Summary {
        entries: counts.entries,
        sent: counts.sent,
        lost: counts.lost,
        outcomes: outcomes.close(),
    }
}

/// The verdicts and the lengths on layer 2, where there is a reduction; the measures join the rows.
fn close_second(
    alloc: Global,
    second: Option<Layer>,
    rows: &mut Vec<PairMeasures>,
) -> Result<(Option<Verdicts>, Durations), AllocError>
    ensures verdicts { IfOk result (λ told. AreSecondVerdicts second told.0) }
    ensures lengths { IfOk result (λ told. AreSecondLengths second told.1) }
    ensures measures { OnOk result (HaveSecondMeasures second rows.old.items rows.new.items) }
{
    match second {
        None => Ok((None, Durations::open(alloc, 0)?)),
        Some(layer) => {
            let (verdicts, lengths) = layer.close(rows)?;
            Ok((Some(verdicts), lengths))
        }
    }
}

/// What was found, and how long each mistake was where they were listed.
///
/// # Errors
///
/// Where a growth was refused.
pub fn close_measuring(
    alloc: Global,
    measuring: Measuring,
) -> Result<(RunFindings, RunDurations), AllocError>
    ensures found { IfOk result (λ told. TellsFindings measuring told.0) }
    ensures lasted { IfOk result (λ told. (S : Record) (trace : List EntryRecord)
        → IsMeasuring true S trace measuring → AreRunDurations S trace told.1) }
{
    let (summing, (first, second)) = measuring;
    let mut measures = Vec::with_capacity(alloc, places(&first.pairs))?;
    let (verdicts, lengths) = first.close(&mut measures)?;
    let (second, second_lengths) = close_second(alloc, second, &mut measures)?;
    Ok((
        RunFindings {
            summary: sum_up(summing),
            first: verdicts,
            second,
            measures,
        },
        RunDurations {
            first: lengths,
            second: second_lengths,
        },
    ))
}

/// The summary, and the text of the report where it is asked for.
///
/// # Errors
///
/// Where a growth was refused.
pub fn close_running(
    alloc: Global,
    scenario: &Scenario,
    running: Running,
) -> Result<(Summary, Option<Vec<u8>>), AllocError>
    ensures { IfOk result (TellsOf scenario.now running) }
{
    let (summing, layers) = running;
    match layers {
        None => Ok((sum_up(summing), None)),
        Some(layers) => {
            let (found, _durations) = close_measuring(alloc, (summing, layers))?;
            let report = text_of_report(alloc, scenario.algorithm(), &found)?;
            Ok((found.summary, Some(report)))
        }
    }
}

/// The texts that are there, one after the other.
fn join_texts(
    alloc: Global,
    trace: Option<TraceText>,
    report: Option<Vec<u8>>,
) -> Result<Vec<u8>, AllocError>
    ensures { IfOk result (λ text. text.items ≡ rows_of trace ++ items_of report) }
{
    match (trace, report) {
        (Some(trace), Some(report)) => {
            let mut text = trace.into_text()?;
            text.extend_from_slice(&report)?;
            Ok(text)
        }
        (Some(trace), None) => trace.into_text(),
        (None, Some(report)) => Ok(report),
        (None, None) => Ok(Vec::new(alloc)),
    }
}

/// The summary, and the texts that are asked for.
pub(crate) fn close_recording(
    alloc: Global,
    scenario: &Scenario,
    recording: Recording,
) -> Result<(Summary, Vec<u8>), AllocError>
    ensures { IfOk result (λ told.
        OfRecorded scenario.now recording (λ print trace. TellsRun scenario.now print trace told)) }
{
    let (running, trace) = recording;
    let (summary, report) = close_running(alloc, scenario, running)?;
    let text = join_texts(alloc, trace, report)?;
    Ok((summary, text))
}
