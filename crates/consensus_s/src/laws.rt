//! Laws that follow from the definition of consensus with S.
ghost use Rattle.consensus_s.specs.State.{RestsSettled, SettlesAlways};

/// Consensus with S, whatever the state and the input. Waits end as long as one can: after an input none is over, and
/// where none is over nothing is done.
pub fn law_settled()
    ensures over { SettlesAlways }
    ensures rests { RestsSettled }
{}
