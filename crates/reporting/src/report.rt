//! The text of a report.
ghost use Rattle.std.specs.{Prelude.{◌≡◌, ◌++◌, IfOk, OnOk}, List.{flat_map}};
ghost use Rattle.reporting.specs.{Inside.Findings.{found_text, layers_text}, ReportText.{pair_text, decision_text, decisions_text}, Rows.{IsBetweenRows, text_of}};

use crate::findings::RunFindings;
use crate::pair_measures::PairMeasures;
use crate::report_rows::{push_decision, push_pair, push_run, push_verdicts};
use crate::rows::Rows;
use judges::Outcome;
use scenario_record::AlgorithmKind;
use std::alloc::{AllocError, Global};

/// The first line of a report's text.
const HEADER: &[u8] = b"section,layer,observer,subject,measure,value\n";

/// Adds the rows of the verdicts: of layer 1, and of layer 2 where there is a reduction.
fn push_layers(rows: &mut Rows, findings: &RunFindings) -> Result<(), AllocError>
    requires { IsBetweenRows rows.old }
    ensures between { OnOk result (IsBetweenRows rows.new) }
    ensures text { OnOk result (text_of rows.new ≡ text_of rows.old ++ layers_text findings.now) }
{
    push_verdicts(rows, 1, &findings.first)?;
    match &findings.second {
        None => Ok(()),
        Some(second) => push_verdicts(rows, 2, second),
    }
}

/// Adds the rows of the measures of all pairs.
fn push_pairs(rows: &mut Rows, measures: &[PairMeasures]) -> Result<(), AllocError>
    requires { IsBetweenRows rows.old }
    ensures between { OnOk result (IsBetweenRows rows.new) }
    ensures text { OnOk result (text_of rows.new ≡ text_of rows.old ++ flat_map pair_text measures.now) }
{
    for pair in measures {
        push_pair(rows, pair)?;
    }
    Ok(())
}

/// Adds the rows of the outcomes.
fn push_outcomes(rows: &mut Rows, outcomes: &[Outcome]) -> Result<(), AllocError>
    requires { IsBetweenRows rows.old }
    ensures between { OnOk result (IsBetweenRows rows.new) }
    ensures text { OnOk result (text_of rows.new ≡ text_of rows.old ++ flat_map decision_text outcomes.now) }
{
    for outcome in outcomes {
        push_decision(rows, outcome)?;
    }
    Ok(())
}

/// Adds the rows of the decisions, where there is an algorithm.
fn push_decisions(
    rows: &mut Rows,
    algorithm: AlgorithmKind,
    outcomes: &[Outcome],
) -> Result<(), AllocError>
    requires { IsBetweenRows rows.old }
    ensures between { OnOk result (IsBetweenRows rows.new) }
    ensures text { OnOk result (text_of rows.new ≡ text_of rows.old ++ decisions_text algorithm outcomes.now) }
{
    match algorithm {
        AlgorithmKind::Idle => Ok(()),
        AlgorithmKind::Strong => push_outcomes(rows, outcomes),
        AlgorithmKind::EventuallyStrong => push_outcomes(rows, outcomes),
    }
}

/// The text of a report, of what was found of a run.
///
/// # Errors
///
/// `AllocError` where memory was refused.
pub(crate) fn text_of_report(
    alloc: Global,
    algorithm: AlgorithmKind,
    findings: &RunFindings,
) -> Result<Vec<u8>, AllocError>
    ensures { IfOk result (λ text. text.items ≡ found_text algorithm findings.now) }
{
    let mut rows = Rows::new(alloc, HEADER)?;
    push_run(&mut rows, &findings.summary)?;
    push_layers(&mut rows, findings)?;
    push_pairs(&mut rows, &findings.measures)?;
    push_decisions(&mut rows, algorithm, &findings.summary.outcomes)?;
    rows.into_text()
}
