//! The numbers of the detector and of the reduction.
ghost use Rattle.std.specs.Prelude.{◌≡◌, ◌||◌, is_none, IfSome};
ghost use Rattle.toml.specs.View.{table_view};
ghost use Rattle.scenario.specs.{Text.{detector_of, freshness_of, record_of, timeout_of}, Rules.{detector_refused, is_bad_detector, is_bad_freshness, is_bad_timeout, is_other_kind, share_refused}};

use crate::names::watch_of;
use crate::numbers::ranged;
use crate::table::{inner_table, is_fresh, text};
use process_api::{DetectorNumbers, FreshnessNumbers, MOST_TICKS, TimeoutNumbers};
use toml::Table;

/// Whether a detector's table names another kind than the two.
#[tactic(auto, unfolding(crate::specs::Rules::is_other_kind))]
fn names_other_kind(table: &Table) -> bool
    ensures { result ≡ is_other_kind (table_view table.now) }
{
    !is_fresh(table) && text(table, "kind", "timeout") != "timeout"
}

/// The numbers of a table that asks for time-outs, where all are in their ranges, and so is its kind.
#[tactic(auto, unfolding(crate::specs::Rules::is_bad_timeout))]
fn read_timeout(table: &Table) -> Option<TimeoutNumbers>
    ensures test { is_none result ≡ (is_other_kind (table_view table.now) || is_bad_timeout (table_view table.now)) }
    ensures value { IfSome result (λ d. d ≡ timeout_of (table_view table.now)) }
{
    let period = ranged(table, "period", 0, 1, MOST_TICKS)?;
    let check = ranged(table, "check", 0, 1, MOST_TICKS)?;
    let timeout = ranged(table, "timeout", 0, 1, MOST_TICKS)?;
    let grow = ranged(table, "grow", 1, 1, MOST_TICKS)?;
    if names_other_kind(table) {
        return None;
    }
    let watch = watch_of(text(table, "watch", "all"))?;
    Some(TimeoutNumbers {
        period,
        check,
        timeout,
        grow,
        watch,
    })
}

/// The numbers of a table that asks for freshness points, where all are in their ranges.
#[tactic(auto, unfolding(crate::specs::Rules::is_bad_freshness))]
fn read_freshness(table: &Table) -> Option<FreshnessNumbers>
    ensures test { is_none result ≡ is_bad_freshness (table_view table.now) }
    ensures value { IfSome result (λ d. d ≡ freshness_of (table_view table.now)) }
{
    let eta = ranged(table, "eta", 0, 1, MOST_TICKS)?;
    let delta = ranged(table, "delta", 0, 1, MOST_TICKS)?;
    let watch = watch_of(text(table, "watch", "all"))?;
    Some(FreshnessNumbers { eta, delta, watch })
}

/// The numbers of a detector's table, of the kind that it names, where all are in their ranges.
#[tactic(auto, unfolding(crate::specs::Rules::is_bad_detector, crate::specs::Rules::is_other_kind))]
fn read_named(table: &Table) -> Option<DetectorNumbers>
    ensures test { is_none result ≡ is_bad_detector (table_view table.now) }
    ensures value { IfSome result (λ d. d ≡ detector_of (table_view table.now)) }
{
    if is_fresh(table) {
        Some(DetectorNumbers::Freshness(read_freshness(table)?))
    } else {
        Some(DetectorNumbers::Timeout(read_timeout(table)?))
    }
}

/// The numbers of the detector's table, where there is one and all are in their ranges.
#[tactic(auto, using(crate::proofs::NumberFacts::no_detector))]
pub(crate) fn read_detector(top: &Table) -> Option<DetectorNumbers>
    ensures test { is_none result ≡ detector_refused (table_view top.now) }
    ensures value { IfSome result (λ d. d ≡ (record_of (table_view top.now)).detector) }
{
    read_named(inner_table(top, "detector")?)
}

/// The period of the shares, if there are any, where it is in its range.
pub(crate) fn read_share(top: &Table) -> Option<Option<u32>>
    ensures test { is_none result ≡ share_refused (table_view top.now) }
    ensures value { IfSome result (λ share. share ≡ (record_of (table_view top.now)).share) }
{
    let Some(table) = inner_table(top, "share") else {
        return Some(None);
    };
    let period = ranged(table, "period", 0, 1, MOST_TICKS)?;
    Some(Some(period))
}
