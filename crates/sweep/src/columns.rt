//! The numbers of a point's runs on a layer, as a row tells them.

/// Sums over the traces of runs.
#[derive(Clone, Copy, Default)]
pub struct TraceSums {
    /// How many entries the traces have.
    pub entries: u128,
    /// How many letters were sent, those to oneself and lost ones too.
    pub sent: u128,
    /// How many of these letters were lost.
    pub lost: u128,
}

/// Sums over the pairs of processes of runs that count, after Chen, Toueg and Aguilera (IEEE Transactions on Computers
/// 51(5), 2002), as [`PairMeasures`](reporting::PairMeasures) has them for one pair. Sums of times are in ticks.
///
/// On layer 1 a pair counts where the detector of its observer watches its subject; on layer 2 each ordered pair of
/// different processes does.
#[derive(Clone, Copy, Default)]
pub struct PairSums {
    /// How many suspicions started that were mistakes.
    pub mistakes: u128,
    /// For how many ticks a process was suspected by mistake.
    pub mistake_ticks: u128,
    /// From the start of a mistake to the start of the next.
    pub recurrence_sum: u128,
    /// How many times a mistake started after another.
    pub recurrence_count: u128,
    /// From the start of a mistake to its end.
    pub duration_sum: u128,
    /// How many mistakes ended.
    pub duration_count: u128,
    /// From the end of a mistake to the start of the next.
    pub good_sum: u128,
    /// How many good periods there were between two mistakes.
    pub good_count: u128,
    /// How many crashes weren't detected by a process that didn't crash.
    pub undetected: u128,
    /// How many crashes were suspected for good by the tick of the crash.
    pub at_once: u128,
    /// From the crash of a process to the suspicion that lasts to the horizon.
    pub detection_sum: u128,
}

/// In how many runs each verdict holds. One that gives a tick holds where there is a tick.
#[derive(Clone, Copy, Default)]
pub struct VerdictCounts {
    /// Every correct process suspects every crashed one from some tick on.
    pub strong_completeness: u64,
    /// Every crashed process is suspected by some correct one from some tick on.
    pub weak_completeness: u64,
    /// No process is suspected by another before it crashes.
    pub strong_accuracy: u64,
    /// Some correct process is never suspected.
    pub weak_accuracy: u64,
    /// No correct process is suspected by a correct one from some tick on.
    pub eventual_strong_accuracy: u64,
    /// Some correct process isn't suspected by any correct one from some tick on.
    pub eventual_weak_accuracy: u64,
}

/// The bounds of detections that no run breaks, in ticks after the crash, of crashes that were to be detected.
#[derive(Clone, Copy, Default)]
pub struct DetectionBounds {
    /// The greatest of those that lie before the horizon, if there is one.
    pub greatest: Option<u64>,
    /// Whether one doesn't.
    pub is_late: bool,
}

/// Sums over the processes of runs that are to decide: the correct ones of the runs with an algorithm.
#[derive(Clone, Copy, Default)]
pub struct DecisionSums {
    /// How many such processes there are.
    pub to_decide: u128,
    /// How many of them decided a value.
    pub decided: u128,
    /// The ticks at which they did.
    pub decision_tick_sum: u128,
    /// The greatest of these ticks, if there is one.
    pub decision_tick_max: Option<u64>,
}

/// In how many runs something is so.
#[derive(Clone, Copy, Default)]
pub struct RunCounts {
    /// A process was suspected by mistake.
    pub with_mistakes: u64,
    /// Some process is to decide, and each of those that are decided a value.
    pub all_decided: u64,
    /// One of those that are to decide didn't.
    pub undecided: u64,
    /// Two processes decided different values.
    pub disagreements: u64,
}

/// What is told of some values, after which infinite ones may come. The percentiles are nearest ranks: the least of the
/// values which so many in 100 of all, the infinite ones too, are at most. There is none where the rank falls on an
/// infinite one, or where nothing is ranked.
#[derive(Clone, Copy, Default, Debug, PartialEq, Eq)]
pub struct Distribution {
    /// How many values there are, without infinite ones.
    pub count: u128,
    /// The least of them which half of all are at most.
    pub p50: Option<u128>,
    /// The least of them which 90 in 100 of all are at most.
    pub p90: Option<u128>,
    /// The least of them which 99 in 100 of all are at most.
    pub p99: Option<u128>,
    /// The greatest of them.
    pub greatest: Option<u128>,
}

/// The numbers of runs, among all runs of a point in their order; none where there is no such run.
#[derive(Clone, Copy, Default, Debug, PartialEq, Eq)]
pub struct FirstRuns {
    /// Of the first in which a process was suspected by mistake.
    pub mistake: Option<u128>,
    /// Of the first that has a detection as long as the longest of all.
    pub detection_max: Option<u128>,
    /// Of the first in which two processes decided different values.
    pub disagreement: Option<u128>,
}

/// What is added up of runs on a layer.
#[derive(Clone, Copy, Default)]
pub struct LayerSums {
    /// How many runs there are.
    pub runs: u64,
    /// How many of them passed their limit. These add nothing else.
    pub limited: u64,
    /// Of their traces.
    pub traces: TraceSums,
    /// For how many ticks pairs were watched: each up to the first crash of the two, or the horizon.
    pub pair_ticks: u128,
    /// Of the pairs of processes.
    pub pairs: PairSums,
    /// The squares of the runs' mistakes.
    pub mistakes_squared_sum: u128,
    /// Of the verdicts.
    pub verdicts: VerdictCounts,
    /// Of the bounds of detections: on layer 1 alone.
    pub bounds: DetectionBounds,
    /// Of what was decided.
    pub decisions: DecisionSums,
    /// In how many runs something is so.
    pub counts: RunCounts,
}

/// What a row tells.
#[derive(Clone, Copy, Default)]
pub struct Columns {
    /// The sums.
    pub sums: LayerSums,
    /// For how many ticks pairs were watched for each mistake, rounded down; none without a mistake.
    pub mistake_recurrence: Option<u128>,
    /// How many of a million of these ticks a process was suspected by mistake for, rounded down; none without a tick.
    pub mistaken_ppm: Option<u128>,
    /// How long each mistake was that ended, in ticks.
    pub durations: Distribution,
    /// The times from the crash of a process to the suspicion by another that lasts to the horizon, in ticks. A
    /// suspicion that didn't come has an infinite one.
    pub detections: Distribution,
    /// The tick of the last decision of each run in which some process is to decide. It is infinite where one of them
    /// didn't.
    pub last_decisions: Distribution,
    /// The greatest round of each run in which a process noted one.
    pub rounds: Distribution,
    /// The numbers of runs.
    pub first_runs: FirstRuns,
}
