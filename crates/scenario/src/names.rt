//! Names that a scenario's file may give.
ghost use Rattle.std.specs.Prelude.{◌≡◌};
ghost use Rattle.scenario.specs.Text.{algorithm_named, watch_named};

use process_api::Watch;
use scenario_record::AlgorithmKind;

/// The algorithm of this name.
#[tactic(auto, unfolding(crate::specs::Text::algorithm_named))]
pub(crate) fn algorithm_of(name: &str) -> Option<AlgorithmKind>
    ensures { result ≡ algorithm_named name.now }
{
    if name == "none" {
        Some(AlgorithmKind::Idle)
    } else if name == "s" {
        Some(AlgorithmKind::Strong)
    } else if name == "es" {
        Some(AlgorithmKind::EventuallyStrong)
    } else {
        None
    }
}

/// Whom a detector watches, by this name.
#[tactic(auto, unfolding(crate::specs::Text::watch_named))]
pub(crate) fn watch_of(name: &str) -> Option<Watch>
    ensures { result ≡ watch_named name.now }
{
    if name == "all" {
        Some(Watch::All)
    } else if name == "next" {
        Some(Watch::Next)
    } else {
        None
    }
}
