//! Laws that follow from the definition of the rotating coordinator.
ghost use Rattle.consensus_es.specs.State.{ActsLittle, ChoosesBest, LeavesFewRounds, OpensOrderly, SettlesAlways, SettlesByEnds};

/// Rotating coordinators, whatever the state and the input. Waits end as long as one can: after an input none is
/// over, and where one is over its end comes first and then the waits of the state that it leaves. From the opening
/// state on, and while a process doesn't suspect itself, an input to one of n processes makes at most 6 n + 3 actions
/// and leaves at most n rounds. The estimate that a coordinator chooses has the largest stamp, and of those with that
/// stamp the least sender.
pub fn law_settled()
    ensures over { SettlesAlways }
    ensures ends { SettlesByEnds }
    ensures opens { OpensOrderly }
    ensures little { ActsLittle }
    ensures rounds { LeavesFewRounds }
    ensures best { ChoosesBest }
{}
