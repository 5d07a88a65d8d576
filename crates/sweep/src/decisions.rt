//! The decisions of a run's processes.
ghost use Rattle.std.specs.{Prelude.{◌≡◌, ◌*◌, ◌^◌, List, length, IfOk}, List.{list_all, list_any}};
ghost use Rattle.sweep.specs.{Inside.Adding.{of_outcome, differ}, Columns.{AreDecisionSums}, Fitting.{AreDecisionsWithin}};
ghost use Rattle.sweep.specs.OneRun.{decided_value, deciding_of, decision_tick, do_disagree, has_decided, is_to_decide, last_decision, noted_round, top_round};
ghost use Rattle.judges.specs.declared.outcomes.Outcome.{Outcome as OutcomeRecord};

use crate::columns::DecisionSums;
use crate::value_counts::greater;
use judges::{Answer, Outcome, end_tick};
use process_api::Pid;
use scenario::AlgorithmKind::{EventuallyStrong, Idle, Strong};
use scenario::Scenario;
use std::alloc::{AllocError, Global};

/// Whether a process is to decide: where there is an algorithm each correct one is.
fn is_to_decide(scenario: &Scenario, p: Pid) -> bool
    ensures { result ≡ is_to_decide scenario.now p }
{
    let is_correct = end_tick(scenario, p) == scenario.horizon();
    match scenario.algorithm() {
        Idle => false,
        Strong | EventuallyStrong => is_correct,
    }
}

/// The outcomes of the processes that are to decide.
pub(crate) fn deciding_of(
    alloc: Global,
    scenario: &Scenario,
    outcomes: &[Outcome],
) -> Result<Vec<Outcome>, AllocError>
    ensures { IfOk result (λ deciding. deciding.items ≡ deciding_of scenario.now outcomes.now) }
{
    outcomes
        .iter()
        .copied()
        .filter(|outcome| is_to_decide(scenario, outcome.pid))
        .collect(alloc)
}

/// The tick at which a process decided a value.
fn decision_tick(outcome: &Outcome) -> Option<u32>
    ensures value { result ≡ decision_tick outcome.now }
{
    match outcome.value {
        Answer::None | Answer::NoValue => None,
        Answer::Value(_) => outcome.tick,
    }
}

/// What the outcome of a process adds that is to decide.
fn of_outcome(outcome: &Outcome) -> DecisionSums
    ensures value { result ≡ of_outcome outcome.now }
    ensures within { AreDecisionsWithin (2 ^ 64) result }
{
    let decided = match outcome.value {
        Answer::None | Answer::NoValue => 0,
        Answer::Value(_) => 1,
    };
    let tick = decision_tick(outcome);
    DecisionSums {
        to_decide: 1,
        decided,
        decision_tick_sum: u128::from(tick.unwrap_or(0)),
        decision_tick_max: tick.map(u64::from),
    }
}

/// The sums over the outcomes of processes that are to decide.
pub(crate) fn sum_decisions(outcomes: &[Outcome]) -> DecisionSums
    ensures sums { AreDecisionSums outcomes.now result }
    ensures within { AreDecisionsWithin (length outcomes.now * 2 ^ 64) result }
{
    let mut sums = DecisionSums::default();
    for outcome in outcomes {
        sums = sums.plus(of_outcome(outcome));
    }
    sums
}

/// Whether each process that is to decide decided a value.
pub(crate) fn do_all_decide(sums: DecisionSums) -> bool
    ensures { (all : List OutcomeRecord) → AreDecisionSums all sums → result ≡ list_all has_decided all }
{
    sums.decided == sums.to_decide
}

/// The tick of the last decision, where each process that is to decide decided a value.
pub(crate) fn last_decision(sums: DecisionSums) -> Option<u64>
    ensures { (all : List OutcomeRecord) → AreDecisionSums all sums → result ≡ last_decision all }
{
    if do_all_decide(sums) {
        sums.decision_tick_max
    } else {
        None
    }
}

/// The greatest round that a process noted, if it noted one.
fn noted_round(outcome: &Outcome) -> Option<u64>
    ensures { result ≡ noted_round outcome.now }
{
    (outcome.rounds != 0).then_some(outcome.rounds)
}

/// The greatest round that some process noted.
pub(crate) fn top_round(outcomes: &[Outcome]) -> Option<u64>
    ensures { result ≡ top_round outcomes.now }
{
    let mut top = None;
    for outcome in outcomes {
        top = greater(top, noted_round(outcome));
    }
    top
}

/// Whether two processes decided values, and not the same.
fn differ(one: &Outcome, other: &Outcome) -> bool
    ensures { result ≡ differ (decided_value one.now.value) (decided_value other.now.value) }
{
    match (one.value, other.value) {
        (Answer::Value(value), Answer::Value(another)) => value != another,
        _ => false,
    }
}

/// Whether a process decided another value than this one.
fn is_contradicted(outcomes: &[Outcome], one: &Outcome) -> bool
    ensures { result ≡ list_any (λ o. differ (decided_value one.now.value) (decided_value o.value)) outcomes.now }
{
    outcomes.iter().any(|other| differ(one, other))
}

/// Whether two processes decided different values: one of them another than the first that decided.
pub(crate) fn do_disagree(outcomes: &[Outcome]) -> bool
    ensures { result ≡ do_disagree outcomes.now }
{
    for one in outcomes {
        if let Answer::Value(_) = one.value {
            return is_contradicted(outcomes, one);
        }
    }
    false
}
