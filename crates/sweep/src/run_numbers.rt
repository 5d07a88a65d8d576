//! The numbers that one run adds to the sums of its point.
ghost use Rattle.std.specs.Prelude.{◌≡◌, List, IfOk, is_some};
ghost use Rattle.judges.specs.declared.outcomes.Outcome.{Outcome as OutcomeRecord};
ghost use Rattle.sweep.specs.{Inside.Adding.{of_verdicts, AreOwnSums}, Columns.{AreDecisionSums}, declared.group.Group.{Group as GroupRecord}, Results.{ForMeasured, limited_run}};

use crate::bounds::bounds_on;
use crate::columns::{
    DecisionSums, DetectionBounds, LayerSums, RunCounts, TraceSums, VerdictCounts,
};
use crate::decisions::{
    deciding_of, do_all_decide, do_disagree, last_decision, sum_decisions, top_round,
};
use crate::group::Group;
use crate::pairs::{counted_of, detection_times, durations_of, sum_ends, sum_pairs};
use judges::Verdicts;
use reporting::{Durations, PairMeasures, RunDurations, RunFindings, Summary};
use runs::Trusts;
use scenario::Scenario;
use std::alloc::{AllocError, Global};

/// The verdicts that hold, each counted once.
fn of_verdicts(verdicts: &Verdicts) -> VerdictCounts
    ensures { result ≡ of_verdicts verdicts.now }
{
    VerdictCounts {
        strong_completeness: u64::from(verdicts.strong_completeness.is_some()),
        weak_completeness: u64::from(verdicts.weak_completeness.is_some()),
        strong_accuracy: u64::from(verdicts.strong_accuracy),
        weak_accuracy: u64::from(verdicts.weak_accuracy),
        eventual_strong_accuracy: u64::from(verdicts.eventual_strong_accuracy.is_some()),
        eventual_weak_accuracy: u64::from(verdicts.eventual_weak_accuracy.is_some()),
    }
}

/// The sums of a run that is done, alone: of its summary, and on a layer of its verdicts, of the measures of the pairs
/// that count, of the bounds of their detections, and of the decisions of the processes that are to decide.
fn sums_of_run(
    scenario: &Scenario,
    summary: &Summary,
    verdicts: &Verdicts,
    counted: &[PairMeasures],
    bounds: DetectionBounds,
    decisions: DecisionSums,
) -> LayerSums
    ensures { (os : List OutcomeRecord) → AreDecisionSums os decisions
        → AreOwnSums scenario.now summary.now verdicts.now counted.now bounds os decisions result }
{
    let pairs = sum_pairs(counted);
    let are_all = do_all_decide(decisions);
    LayerSums {
        runs: 1,
        limited: 0,
        traces: TraceSums {
            entries: u128::from(summary.entries),
            sent: summary.sent,
            lost: summary.lost,
        },
        pair_ticks: sum_ends(scenario, counted),
        pairs,
        mistakes_squared_sum: pairs.mistakes.saturating_mul(pairs.mistakes),
        verdicts: of_verdicts(verdicts),
        bounds,
        decisions,
        counts: RunCounts {
            with_mistakes: u64::from(pairs.mistakes > 0),
            all_decided: u64::from(decisions.to_decide > 0 && are_all),
            undecided: u64::from(!are_all),
            disagreements: u64::from(do_disagree(&summary.outcomes)),
        },
    }
}

/// What was found of a run that is done: its summary, its trusts, and on a layer its verdicts, its measures and how
/// long its mistakes were.
#[derive(Clone, Copy)]
struct LayerFindings<'a> {
    summary: &'a Summary,
    verdicts: &'a Verdicts,
    pairs: &'a [PairMeasures],
    durations: &'a Durations,
    trusts: &'a Trusts,
}

/// What one run gives on a layer: the sums over it alone, and what of it is counted value by value.
#[derive(Drop)]
pub(crate) struct LayerNumbers {
    pub sums: LayerSums,
    /// How long its mistakes were, in ticks.
    pub durations: Vec<u32>,
    /// The times of its detections, in ticks.
    pub detections: Vec<u32>,
    /// The tick of its last decision, if it has one.
    pub last_decision: Option<u64>,
    /// The greatest round that a process noted, if one did.
    pub top_round: Option<u64>,
}

impl LayerNumbers {
    ghost use Rattle.sweep.specs.Inside.Sums.{AreOfFindings, AreOfLimited, AreOfNoLayer};

    /// Of a run that adds nothing: it passed its limit, which is counted, or it hasn't this layer.
    fn of_nothing(alloc: Global, limited: u64) -> LayerNumbers
        ensures limited { limited ≡ 1 → AreOfLimited result }
        ensures none { limited ≡ 0 → AreOfNoLayer result }
    {
        LayerNumbers {
            sums: LayerSums {
                runs: limited,
                limited,
                ..LayerSums::default()
            },
            durations: Vec::new(alloc),
            detections: Vec::new(alloc),
            last_decision: None,
            top_round: None,
        }
    }

    /// Of a run that is done. The pairs of the group count.
    fn of_run(
        alloc: Global,
        scenario: &Scenario,
        group: &Group,
        layer: u8,
        found: &LayerFindings<'_>,
    ) -> Result<LayerNumbers, AllocError>
        ensures { IfOk result (AreOfFindings group.now layer scenario.now found.now) }
    {
        let (summary, verdicts) = (found.summary, found.verdicts);
        let counted = counted_of(alloc, scenario, group, layer, found.pairs)?;
        let deciding = deciding_of(alloc, scenario, &summary.outcomes)?;
        let durations = durations_of(alloc, &counted, found.durations)?;
        let detections = detection_times(alloc, &counted)?;
        let bounds = bounds_on(scenario, layer, found.trusts, &counted);
        let decisions = sum_decisions(&deciding);
        Ok(LayerNumbers {
            sums: sums_of_run(scenario, summary, verdicts, &counted, bounds, decisions),
            durations,
            detections,
            last_decision: last_decision(decisions),
            top_round: top_round(&summary.outcomes),
        })
    }
}

/// Whether there is a reduction, whose output is layer 2.
fn is_shared(scenario: &Scenario) -> bool
    ensures { result ≡ is_some scenario.now.share }
{
    scenario.share().is_some()
}

/// What one run gives to the sums of a group of pairs.
#[derive(Drop)]
pub struct GroupNumbers {
    pub(crate) first: LayerNumbers,
    pub(crate) second: LayerNumbers,
}

impl GroupNumbers {
    ghost use Rattle.sweep.specs.Sums.{AreGroupNumbers};

    /// What a run gives that is done.
    fn of_run(
        alloc: Global,
        scenario: &Scenario,
        group: &Group,
        findings: &RunFindings,
        durations: &RunDurations,
        trusts: &Trusts,
    ) -> Result<GroupNumbers, AllocError>
        ensures { IfOk result (λ n. ForMeasured scenario.now findings.now durations.now trusts.now
            (λ run. AreGroupNumbers group.now run n)) }
    {
        scenario.recall_ranges();
        let pairs = &findings.measures;
        let own = LayerFindings {
            summary: &findings.summary,
            verdicts: &findings.first,
            pairs,
            durations: &durations.first,
            trusts,
        };
        let verdicts = match &findings.second {
            Some(verdicts) => verdicts,
            None => {
                let first = LayerNumbers::of_run(alloc, scenario, group, 1, &own)?;
                let second = LayerNumbers::of_nothing(alloc, 0);
                return Ok(GroupNumbers { first, second });
            }
        };
        let (pairs, shared) = pairs.split_at(pairs.len() / 2);
        let own = LayerFindings { pairs, ..own };
        let shared = LayerFindings {
            verdicts,
            pairs: shared,
            durations: &durations.second,
            ..own
        };
        let first = LayerNumbers::of_run(alloc, scenario, group, 1, &own)?;
        let second = LayerNumbers::of_run(alloc, scenario, group, 2, &shared)?;
        Ok(GroupNumbers { first, second })
    }

    /// What a run gives that passed its limit, whatever the group.
    fn of_limited(alloc: Global, scenario: &Scenario) -> GroupNumbers
        ensures { (group : GroupRecord) → AreGroupNumbers group (limited_run scenario.now) result }
    {
        GroupNumbers {
            first: LayerNumbers::of_nothing(alloc, 1),
            second: LayerNumbers::of_nothing(alloc, u64::from(is_shared(scenario))),
        }
    }
}

/// What one run gives to the sums of its point, for each group of pairs.
#[derive(Drop)]
pub struct RunNumbers {
    pub(crate) groups: Vec<GroupNumbers>,
    /// Whether it passed its limit.
    pub(crate) is_limited: bool,
}

impl RunNumbers {
    ghost use Rattle.sweep.specs.Sums.{AreNumbers};

    /// What a run gives that is done.
    ///
    /// # Errors
    ///
    /// Where memory was refused.
    pub fn of_run(
        alloc: Global,
        scenario: &Scenario,
        groups: &[Group],
        findings: &RunFindings,
        durations: &RunDurations,
        trusts: &Trusts,
    ) -> Result<RunNumbers, AllocError>
        ensures { IfOk result (λ n. ForMeasured scenario.now findings.now durations.now trusts.now
            (λ run. AreNumbers groups.now run n)) }
    {
        let mut numbers = Vec::new(alloc);
        for group in groups {
            let its = GroupNumbers::of_run(alloc, scenario, group, findings, durations, trusts)?;
            numbers.push(its)?;
        }
        Ok(RunNumbers {
            groups: numbers,
            is_limited: false,
        })
    }

    /// What a run gives that passed its limit: it is counted, and adds nothing else.
    ///
    /// # Errors
    ///
    /// Where memory was refused.
    pub fn of_limited(
        alloc: Global,
        scenario: &Scenario,
        groups: &[Group],
    ) -> Result<RunNumbers, AllocError>
        ensures { IfOk result (AreNumbers groups.now (limited_run scenario.now)) }
    {
        let mut numbers = Vec::new(alloc);
        for _group in groups {
            numbers.push(GroupNumbers::of_limited(alloc, scenario))?;
        }
        Ok(RunNumbers {
            groups: numbers,
            is_limited: true,
        })
    }
}
