//! Rows of a report.
ghost use Rattle.std.specs.Prelude.{◌≡◌, ◌++◌, map, IfOk, OnOk};
ghost use Rattle.reporting.specs.{ReportText.{run_text, verdict_text, pair_text, decision_text}, Rows.{IsBetweenRows, text_of}, Inside.Findings.{front_of, rows_about, value_text}};

use crate::pair_measures::PairMeasures;
use crate::rows::Rows;
use crate::summary::Summary;
use crate::values::{Value, of_answer, of_detection, of_tick, of_truth};
use itoa::Buffer;
use judges::{Outcome, Verdicts};
use std::alloc::{AllocError, Global};

/// What rows are about. The layer, the observer and the subject are 0 where they have none.
#[derive(Clone, Copy)]
struct About {
    section: &'static str,
    layer: u8,
    observer: u16,
    subject: u16,
}

impl About {
    /// The fields that all its rows begin with, as they stand there.
    fn front(&self, alloc: Global) -> Result<Vec<u8>, AllocError>
        ensures { IfOk result (λ front. front.items ≡ front_of self.now) }
    {
        let mut number = Buffer::new();
        let mut front = Vec::with_capacity(alloc, 32)?;
        front.extend_from_slice(self.section.as_bytes())?;
        front.push(b',')?;
        front.extend_from_slice(number.format(self.layer).as_bytes())?;
        front.push(b',')?;
        front.extend_from_slice(number.format(self.observer).as_bytes())?;
        front.push(b',')?;
        front.extend_from_slice(number.format(self.subject).as_bytes())?;
        Ok(front)
    }
}

/// Adds the rows of these values, each with its name. The fields before the names are formed once.
#[tactic(auto, unfolding(crate::specs::ReportText::report_rows))]
fn push_values(
    rows: &mut Rows,
    about: About,
    values: &[(&'static str, Value)],
) -> Result<(), AllocError>
    requires { IsBetweenRows rows.old }
    ensures between { OnOk result (IsBetweenRows rows.new) }
    ensures text { OnOk result (
        text_of rows.new ≡ text_of rows.old ++ rows_about about (map (λ v. (v.0.now, value_text v.1)) values.now)) }
{
    let front = about.front(rows.allocator())?;
    for (name, value) in values {
        let mut number = Buffer::new();
        let text = value.text(&mut number);
        rows.push(&[&front, name.as_bytes(), text.as_bytes()])?;
    }
    Ok(())
}

/// Adds the rows of a run.
pub(crate) fn push_run(rows: &mut Rows, summary: &Summary) -> Result<(), AllocError>
    requires { IsBetweenRows rows.old }
    ensures between { OnOk result (IsBetweenRows rows.new) }
    ensures text { OnOk result (text_of rows.new ≡ text_of rows.old
        ++ run_text summary.now.entries summary.now.sent summary.now.lost) }
{
    let about = About {
        section: "run",
        layer: 0,
        observer: 0,
        subject: 0,
    };
    let values = [
        ("entries", Value::Count(summary.entries)),
        ("sent", Value::Sum(summary.sent)),
        ("lost", Value::Sum(summary.lost)),
    ];
    push_values(rows, about, &values)
}

/// Adds the rows of the verdicts on a layer.
pub(crate) fn push_verdicts(
    rows: &mut Rows,
    layer: u8,
    verdicts: &Verdicts,
) -> Result<(), AllocError>
    requires { IsBetweenRows rows.old }
    ensures between { OnOk result (IsBetweenRows rows.new) }
    ensures text { OnOk result (text_of rows.new ≡ text_of rows.old ++ verdict_text layer verdicts.now) }
{
    let about = About {
        section: "verdict",
        layer,
        observer: 0,
        subject: 0,
    };
    let values = [
        ("strong_completeness", of_tick(verdicts.strong_completeness)),
        ("weak_completeness", of_tick(verdicts.weak_completeness)),
        ("strong_accuracy", of_truth(verdicts.strong_accuracy)),
        ("weak_accuracy", of_truth(verdicts.weak_accuracy)),
        (
            "eventual_strong_accuracy",
            of_tick(verdicts.eventual_strong_accuracy),
        ),
        (
            "eventual_weak_accuracy",
            of_tick(verdicts.eventual_weak_accuracy),
        ),
    ];
    push_values(rows, about, &values)
}

/// Adds the rows of the measures of a pair.
pub(crate) fn push_pair(rows: &mut Rows, measures: &PairMeasures) -> Result<(), AllocError>
    requires { IsBetweenRows rows.old }
    ensures between { OnOk result (IsBetweenRows rows.new) }
    ensures text { OnOk result (text_of rows.new ≡ text_of rows.old ++ pair_text measures.now) }
{
    let about = About {
        section: "pair",
        layer: measures.layer,
        observer: measures.observer.number(),
        subject: measures.subject.number(),
    };
    let values = [
        ("mistakes", Value::Count(measures.mistakes)),
        ("mistake_ticks", Value::Count(measures.mistake_ticks)),
        ("recurrence_sum", Value::Count(measures.recurrence_sum)),
        ("recurrence_count", Value::Count(measures.recurrence_count)),
        ("duration_sum", Value::Count(measures.duration_sum)),
        ("duration_count", Value::Count(measures.duration_count)),
        ("good_sum", Value::Count(measures.good_sum)),
        ("good_count", Value::Count(measures.good_count)),
        ("detection", of_detection(measures.detection)),
    ];
    push_values(rows, about, &values)
}

/// Adds the rows of what a process decided.
pub(crate) fn push_decision(rows: &mut Rows, outcome: &Outcome) -> Result<(), AllocError>
    requires { IsBetweenRows rows.old }
    ensures between { OnOk result (IsBetweenRows rows.new) }
    ensures text { OnOk result (text_of rows.new ≡ text_of rows.old ++ decision_text outcome.now) }
{
    let about = About {
        section: "decision",
        layer: 0,
        observer: outcome.pid.number(),
        subject: 0,
    };
    let values = [
        ("value", of_answer(outcome.value)),
        ("tick", of_tick(outcome.tick)),
        ("rounds", Value::Count(outcome.rounds)),
    ];
    push_values(rows, about, &values)
}
