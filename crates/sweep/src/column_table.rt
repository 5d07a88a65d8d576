//! The columns of a row from the layer on, a line for each, in order.
ghost use Rattle.std.specs.Prelude.{◌≡◌, map};
ghost use Rattle.sweep.specs.ColumnTable.{columns_of_runs, columns_of_mistakes, columns_of_detections, columns_of_outcomes, number_of};

use crate::columns::Columns;
use crate::standard_error::mistakes_error;

/// A column: its name, and what it tells.
pub(crate) type Column = (&'static str, Told);

/// What a column tells.
#[derive(Clone, Copy)]
pub(crate) enum Told {
    /// A number of all runs.
    All(u64),
    /// How many runs that are done are so.
    Count(u64),
    /// A sum over the runs that are done.
    Sum(u128),
    /// A number of the runs that are done, if there is one.
    IfAny(Option<u128>),
}

use Told::{All, Count, IfAny, Sum};

impl Told {
    /// The number, if there is one: of the runs that are done none where none is.
    pub fn number(self, columns: &Columns) -> Option<u128>
        ensures { result ≡ number_of columns.now self }
    {
        let is_done = columns.sums.limited != columns.sums.runs;
        match self {
            All(number) => Some(u128::from(number)),
            Count(number) => is_done.then_some(u128::from(number)),
            Sum(number) => is_done.then_some(number),
            IfAny(number) => if is_done { number } else { None },
        }
    }
}

/// The columns of the runs, their traces and letters.
#[tactic(auto, unfolding(crate::specs::ColumnTable::columns_of_runs))]
pub(crate) fn run_columns(layer: u8, columns: &Columns) -> [Column; 6]
    ensures names { map (λ d. d.0.now) result ≡ map (λ d. d.0) (columns_of_runs layer) }
    ensures told { map (λ d. d.1) result ≡ map (λ d. d.1 columns.now) (columns_of_runs layer) }
{
    let sums = &columns.sums;
    let traces = &sums.traces;
    [
        ("layer", All(u64::from(layer))),
        ("runs", All(sums.runs)),
        ("limited", All(sums.limited)),
        ("entries", Sum(traces.entries)),
        ("sent", Sum(traces.sent)),
        ("lost", Sum(traces.lost)),
    ]
}

/// The columns of the mistakes, and of the ticks without one.
#[tactic(auto, unfolding(crate::specs::ColumnTable::columns_of_mistakes))]
pub(crate) fn mistake_columns(columns: &Columns) -> [Column; 16]
    ensures names { map (λ d. d.0.now) result ≡ map (λ d. d.0) columns_of_mistakes }
    ensures told { map (λ d. d.1) result ≡ map (λ d. d.1 columns.now) columns_of_mistakes }
{
    let (sums, durations) = (&columns.sums, &columns.durations);
    let (pairs, counts) = (&sums.pairs, &sums.counts);
    [
        ("pair_ticks", Sum(sums.pair_ticks)),
        ("mistakes", Sum(pairs.mistakes)),
        ("mistake_ticks", Sum(pairs.mistake_ticks)),
        ("mistake_recurrence", IfAny(columns.mistake_recurrence)),
        ("mistaken_ppm", IfAny(columns.mistaken_ppm)),
        ("mistakes_squared_sum", Sum(sums.mistakes_squared_sum)),
        ("runs_with_mistakes", Count(counts.with_mistakes)),
        ("mistakes_error", IfAny(mistakes_error(sums))),
        ("recurrence_sum", Sum(pairs.recurrence_sum)),
        ("recurrence_count", Sum(pairs.recurrence_count)),
        ("duration_sum", Sum(pairs.duration_sum)),
        ("duration_count", Sum(pairs.duration_count)),
        ("duration_p99", IfAny(durations.p99)),
        ("duration_max", IfAny(durations.greatest)),
        ("good_sum", Sum(pairs.good_sum)),
        ("good_count", Sum(pairs.good_count)),
    ]
}

/// The columns of the detections.
#[tactic(auto, unfolding(crate::specs::ColumnTable::columns_of_detections))]
pub(crate) fn detection_columns(columns: &Columns) -> [Column; 9]
    ensures names { map (λ d. d.0.now) result ≡ map (λ d. d.0) columns_of_detections }
    ensures told { map (λ d. d.1) result ≡ map (λ d. d.1 columns.now) columns_of_detections }
{
    let (sums, detections) = (&columns.sums, &columns.detections);
    let pairs = &sums.pairs;
    [
        ("detections", Sum(detections.count)),
        ("undetected", Sum(pairs.undetected)),
        ("at_once", Sum(pairs.at_once)),
        ("detection_sum", Sum(pairs.detection_sum)),
        ("detection_p50", IfAny(detections.p50)),
        ("detection_p90", IfAny(detections.p90)),
        ("detection_p99", IfAny(detections.p99)),
        ("detection_max", IfAny(detections.greatest)),
        ("detection_bound", IfAny(sums.bounds.told().map(u128::from))),
    ]
}

/// The columns of the verdicts and the decisions, and of the runs to look at first.
#[tactic(auto, unfolding(crate::specs::ColumnTable::columns_of_outcomes))]
pub(crate) fn outcome_columns(columns: &Columns) -> [Column; 22]
    ensures names { map (λ d. d.0.now) result ≡ map (λ d. d.0) columns_of_outcomes }
    ensures told { map (λ d. d.1) result ≡ map (λ d. d.1 columns.now) columns_of_outcomes }
{
    let sums = &columns.sums;
    let (v, decisions, counts) = (&sums.verdicts, &sums.decisions, &sums.counts);
    let (last, rounds) = (&columns.last_decisions, &columns.rounds);
    let first = &columns.first_runs;
    [
        ("strong_completeness", Count(v.strong_completeness)),
        ("weak_completeness", Count(v.weak_completeness)),
        ("strong_accuracy", Count(v.strong_accuracy)),
        ("weak_accuracy", Count(v.weak_accuracy)),
        (
            "eventual_strong_accuracy",
            Count(v.eventual_strong_accuracy),
        ),
        ("eventual_weak_accuracy", Count(v.eventual_weak_accuracy)),
        ("to_decide", Sum(decisions.to_decide)),
        ("decided", Sum(decisions.decided)),
        ("decision_tick_sum", Sum(decisions.decision_tick_sum)),
        (
            "decision_tick_max",
            IfAny(decisions.decision_tick_max.map(u128::from)),
        ),
        ("all_decided", Count(counts.all_decided)),
        ("last_decision_p50", IfAny(last.p50)),
        ("last_decision_p90", IfAny(last.p90)),
        ("last_decision_p99", IfAny(last.p99)),
        ("last_decision_max", IfAny(last.greatest)),
        ("rounds_p50", IfAny(rounds.p50)),
        ("rounds_p99", IfAny(rounds.p99)),
        ("rounds_max", IfAny(rounds.greatest)),
        ("disagreements", Count(counts.disagreements)),
        ("mistake_run", IfAny(first.mistake)),
        ("detection_max_run", IfAny(first.detection_max)),
        ("disagreement_run", IfAny(first.disagreement)),
    ]
}
