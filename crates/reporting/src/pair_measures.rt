//! The measures of one pair of processes.

use process_api::Pid;

/// How long an observer took to suspect a crashed process for good.
#[derive(Clone, Copy, Debug, PartialEq, Eq)]
pub enum Detection {
    /// Nothing is measured: the subject doesn't crash below the horizon, or the observer does.
    Na,
    /// The subject isn't suspected at the last tick below the horizon.
    NoTick,
    /// The ticks from the crash to the start of the suspicion that lasts to the horizon; 0 where that started
    /// before the crash.
    At(u32),
}

/// The quality of service that one process, the observer, gets from its failure detector about another, the subject,
/// on one layer. The measures are those of Chen, Toueg and Aguilera (IEEE Transactions on Computers 51(5), 2002), as
/// sums and counts over the ticks of one run.
///
/// A suspicion starts at a tick at which the observer suspects the subject and didn't at the tick before, and it ends
/// at the next tick at which it doesn't. A suspicion is a mistake while neither of the two has crashed. So all
/// measures but `detection` count up to an end, which is the first of the two crashes, or the horizon where that comes
/// first: what happens at the end or later isn't counted. All sums are in ticks.
#[derive(Clone, Copy, Debug, PartialEq, Eq)]
pub struct PairMeasures {
    /// 1 for the base detector, 2 for the reduction's output.
    pub layer: u8,
    /// Who suspects.
    pub observer: Pid,
    /// Who is suspected.
    pub subject: Pid,
    /// How many suspicions started.
    pub mistakes: u64,
    /// How many ticks the subject was suspected.
    pub mistake_ticks: u64,
    /// The ticks from the start of a mistake to the start of the next, over all of these.
    pub recurrence_sum: u64,
    /// How many times a mistake started after another.
    pub recurrence_count: u64,
    /// The ticks from the start of a mistake to its end, over all mistakes that ended.
    pub duration_sum: u64,
    /// How many mistakes ended.
    pub duration_count: u64,
    /// The ticks from the end of a mistake to the start of the next, over all of these good periods.
    pub good_sum: u64,
    /// How many good periods there were between two mistakes.
    pub good_count: u64,
    /// How long the subject's crash was undetected.
    pub detection: Detection,
}
