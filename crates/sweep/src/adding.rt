//! Sums of sums. They stay at the greatest number of their types, should they reach it.
ghost use Rattle.std.specs.Prelude.{◌≡◌};
ghost use Rattle.sweep.specs.Inside.Adding.{bounds_plus, traces_plus, pairs_plus, verdicts_plus, decisions_plus, counts_plus, layer_plus, first_with};

use crate::columns::{
    DecisionSums, DetectionBounds, FirstRuns, LayerSums, PairSums, RunCounts, TraceSums,
    VerdictCounts,
};
use crate::value_counts::greater;

impl TraceSums {
    fn plus(self, more: TraceSums) -> TraceSums
        ensures { result ≡ traces_plus self more }
    {
        TraceSums {
            entries: self.entries.saturating_add(more.entries),
            sent: self.sent.saturating_add(more.sent),
            lost: self.lost.saturating_add(more.lost),
        }
    }
}

impl PairSums {
    pub(crate) fn plus(self, more: PairSums) -> PairSums
        ensures { result ≡ pairs_plus self more }
    {
        PairSums {
            mistakes: self.mistakes.saturating_add(more.mistakes),
            mistake_ticks: self.mistake_ticks.saturating_add(more.mistake_ticks),
            recurrence_sum: self.recurrence_sum.saturating_add(more.recurrence_sum),
            recurrence_count: self.recurrence_count.saturating_add(more.recurrence_count),
            duration_sum: self.duration_sum.saturating_add(more.duration_sum),
            duration_count: self.duration_count.saturating_add(more.duration_count),
            good_sum: self.good_sum.saturating_add(more.good_sum),
            good_count: self.good_count.saturating_add(more.good_count),
            undetected: self.undetected.saturating_add(more.undetected),
            at_once: self.at_once.saturating_add(more.at_once),
            detection_sum: self.detection_sum.saturating_add(more.detection_sum),
        }
    }
}

impl VerdictCounts {
    fn plus(self, more: VerdictCounts) -> VerdictCounts
        ensures { result ≡ verdicts_plus self more }
    {
        let (a, b) = (self, more);
        VerdictCounts {
            strong_completeness: a.strong_completeness.saturating_add(b.strong_completeness),
            weak_completeness: a.weak_completeness.saturating_add(b.weak_completeness),
            strong_accuracy: a.strong_accuracy.saturating_add(b.strong_accuracy),
            weak_accuracy: a.weak_accuracy.saturating_add(b.weak_accuracy),
            eventual_strong_accuracy: a
                .eventual_strong_accuracy
                .saturating_add(b.eventual_strong_accuracy),
            eventual_weak_accuracy: a
                .eventual_weak_accuracy
                .saturating_add(b.eventual_weak_accuracy),
        }
    }
}

impl DetectionBounds {
    pub(crate) fn plus(self, more: DetectionBounds) -> DetectionBounds
        ensures { result ≡ bounds_plus self more }
    {
        DetectionBounds {
            greatest: greater(self.greatest, more.greatest),
            is_late: self.is_late || more.is_late,
        }
    }
}

impl DecisionSums {
    pub(crate) fn plus(self, more: DecisionSums) -> DecisionSums
        ensures { result ≡ decisions_plus self more }
    {
        DecisionSums {
            to_decide: self.to_decide.saturating_add(more.to_decide),
            decided: self.decided.saturating_add(more.decided),
            decision_tick_sum: self
                .decision_tick_sum
                .saturating_add(more.decision_tick_sum),
            decision_tick_max: greater(self.decision_tick_max, more.decision_tick_max),
        }
    }
}

impl RunCounts {
    fn plus(self, more: RunCounts) -> RunCounts
        ensures { result ≡ counts_plus self more }
    {
        RunCounts {
            with_mistakes: self.with_mistakes.saturating_add(more.with_mistakes),
            all_decided: self.all_decided.saturating_add(more.all_decided),
            undecided: self.undecided.saturating_add(more.undecided),
            disagreements: self.disagreements.saturating_add(more.disagreements),
        }
    }
}

impl LayerSums {
    pub(crate) fn plus(self, more: LayerSums) -> LayerSums
        ensures { result ≡ layer_plus self more }
    {
        LayerSums {
            runs: self.runs.saturating_add(more.runs),
            limited: self.limited.saturating_add(more.limited),
            traces: self.traces.plus(more.traces),
            pair_ticks: self.pair_ticks.saturating_add(more.pair_ticks),
            pairs: self.pairs.plus(more.pairs),
            mistakes_squared_sum: self
                .mistakes_squared_sum
                .saturating_add(more.mistakes_squared_sum),
            verdicts: self.verdicts.plus(more.verdicts),
            bounds: self.bounds.plus(more.bounds),
            decisions: self.decisions.plus(more.decisions),
            counts: self.counts.plus(more.counts),
        }
    }
}

impl FirstRuns {
    /// With one more run of this number, which alone counts so. Its longest detection is longer than those before, or
    /// it isn't.
    pub(crate) fn with(self, number: u128, run: RunCounts, is_longest: bool) -> FirstRuns
        ensures { result ≡ first_with self number run is_longest }
    {
        let mistake = (run.with_mistakes > 0).then_some(number);
        let disagreement = (run.disagreements > 0).then_some(number);
        FirstRuns {
            mistake: self.mistake.or(mistake),
            detection_max: is_longest.then_some(number).or(self.detection_max),
            disagreement: self.disagreement.or(disagreement),
        }
    }
}
