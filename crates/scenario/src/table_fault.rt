//! The first fault that a table has by itself: a value that a refusal is about.
ghost use Rattle.std.specs.{Prelude.{◌≡◌, ℕ, map, true, Some}, List.{list_any}};
ghost use Rattle.toml.specs.{Data.{Members}, View.{table_view}};
ghost use Rattle.scenario.specs.{Table.{same_text}, Text.{processes_of}, Ranges.{Subject, allowed_of, ends_of, subject_of, crash_subject, detector_subject, link_subject, outage_subject, pair_subject}};
ghost use Rattle.scenario.specs.Inside.Private.{element_subject, section_error, IsFoundBy};

use crate::error::ScenarioError;
use crate::fault::{Fault, MinAboveMax, NotBefore, OtherName, Outside};
use crate::links::MOST_LOSS;
use crate::numbers::{lies_within, most_of_version};
use crate::place::{Place, Section, TableArray};
use crate::table::{integer_at, text_at};
use process_api::LAST_TICK;
use toml::Table;

/// The most ticks that a delay, a period or a time-out may have, as the numbers of files are.
const MOST_TICKS: u64 = process_api::MOST_TICKS as u64;

/// The fault of the number at a key, if there is one and it lies outside these ends.
#[tactic(auto, unfolding(crate::specs::Inside::Private::IsFoundBy))]
fn outside<'a>(table: &'a Table, key: &'static str, low: u64, high: u64) -> Option<Fault<'a>>
    ensures { (s : Subject) → ends_of s.ranges key.now ≡ Some (low, high)
        → IsFoundBy s (table_view table.now) result }
{
    let value = integer_at(table, key)?;
    if lies_within(value, low, high) {
        return None;
    }
    Some(Fault::Outside(Outside {
        key,
        value,
        low,
        high,
    }))
}

/// Whether the text is one of the names.
fn is_among(names: &[&str], text: &str) -> bool
    ensures { result ≡ list_any (λ name. same_text name.now text.now) names.now }
{
    names.iter().any(|name| *name == text)
}

/// The fault of the text at a key, if there is one and it is none of these names.
#[tactic(auto, unfolding(crate::specs::Inside::Private::IsFoundBy))]
pub(crate) fn other_name<'a>(
    table: &'a Table,
    key: &'static str,
    allowed: &'static [&'static str],
) -> Option<Fault<'a>>
    ensures { (s : Subject) → allowed_of s.names key.now ≡ Some (map (λ name. name.now) allowed.now)
        → IsFoundBy s (table_view table.now) result }
{
    let value = text_at(table, key)?;
    if is_among(allowed, value) {
        return None;
    }
    Some(Fault::OtherName(OtherName {
        key,
        value,
        allowed,
    }))
}

/// The fault of a link's table, if its `min` is above its `max`.
#[tactic(auto, unfolding(crate::specs::Inside::Private::IsFoundBy))]
fn min_above_max(table: &Table) -> Option<Fault<'_>>
    ensures { (s : Subject) → s.delays ≡ true → IsFoundBy s (table_view table.now) result }
{
    let min = integer_at(table, "min")?;
    let max = integer_at(table, "max")?;
    if min <= max {
        return None;
    }
    Some(Fault::MinAboveMax(MinAboveMax { min, max }))
}

/// The fault of a table of a pair, if that is of one process.
#[tactic(auto, unfolding(crate::specs::Inside::Private::IsFoundBy))]
fn to_itself(table: &Table) -> Option<Fault<'_>>
    ensures { (s : Subject) → s.pair ≡ true → IsFoundBy s (table_view table.now) result }
{
    let from = integer_at(table, "from")?;
    let to = integer_at(table, "to")?;
    if from != to {
        return None;
    }
    Some(Fault::ToItself { process: from })
}

/// The fault of a table of `outage`, if its `begin` isn't below its `until`.
#[tactic(auto, unfolding(crate::specs::Inside::Private::IsFoundBy))]
fn not_before(table: &Table) -> Option<Fault<'_>>
    ensures { (s : Subject) → s.ends ≡ true → IsFoundBy s (table_view table.now) result }
{
    let begin = integer_at(table, "begin")?;
    let until = integer_at(table, "until")?;
    if begin < until {
        return None;
    }
    Some(Fault::NotBefore(NotBefore { begin, until }))
}

/// The fault of the top table for which it gets this refusal.
#[tactic(auto, unfolding(crate::specs::Inside::Private::IsFoundBy))]
pub(crate) fn top_fault<'a>(top: &'a Table, error: &ScenarioError) -> Option<Fault<'a>>
    ensures { IsFoundBy (subject_of error.now Place.Top (table_view top.now)) (table_view top.now) result }
{
    match error {
        ScenarioError::Version => outside(top, "version", 1, 2),
        ScenarioError::Processes => outside(top, "processes", 1, u64::from(most_of_version(top))),
        ScenarioError::Horizon => outside(top, "horizon", 1, u64::from(LAST_TICK)),
        ScenarioError::Lookahead => outside(top, "lookahead", 1, MOST_TICKS),
        ScenarioError::Limit => outside(top, "limit", 1, 100_000_000),
        ScenarioError::Seed => outside(top, "seed", 0, i64::MAX as u64),
        ScenarioError::AlgorithmName => other_name(top, "algorithm", &["none", "s", "es"]),
        _ => None,
    }
}

/// The fault of a detector's table. No key of the other kind is there, or the file is refused for that.
#[tactic(auto, using(crate::proofs::Findings::either))]
fn detector_fault(table: &Table) -> Option<Fault<'_>>
    ensures { IsFoundBy detector_subject (table_view table.now) result }
{
    outside(table, "period", 1, MOST_TICKS)
        .or(outside(table, "check", 1, MOST_TICKS))
        .or(outside(table, "timeout", 1, MOST_TICKS))
        .or(outside(table, "grow", 1, MOST_TICKS))
        .or(outside(table, "eta", 1, MOST_TICKS))
        .or(outside(table, "delta", 1, MOST_TICKS))
        .or(other_name(table, "kind", &["timeout", "freshness"]))
        .or(other_name(table, "watch", &["all", "next"]))
}

/// The fault of what a table says of letters, but for `min` above `max`.
#[tactic(auto, using(crate::proofs::Findings::either))]
fn delays_outside(table: &Table) -> Option<Fault<'_>>
    ensures link { IsFoundBy link_subject (table_view table.now) result }
    ensures pair { (n : ℕ) → IsFoundBy (pair_subject n) (table_view table.now) result }
{
    outside(table, "min", 1, MOST_TICKS)
        .or(outside(table, "max", 1, MOST_TICKS))
        .or(outside(table, "loss", 0, u64::from(MOST_LOSS)))
}

/// The fault of the table of a section.
#[tactic(auto, using(crate::proofs::Findings::either))]
pub(crate) fn section_fault(section: Section, table: &Table) -> Option<Fault<'_>>
    ensures { (file : Members)
        → IsFoundBy (subject_of (section_error section) (Place.Section section) file) (table_view table.now) result }
{
    match section {
        Section::Detector => detector_fault(table),
        Section::Share => outside(table, "period", 1, MOST_TICKS),
        Section::Link => delays_outside(table).or(min_above_max(table)),
    }
}

/// The fault of a table of `links`, of n processes.
#[tactic(auto, using(crate::proofs::Findings::either))]
fn pair_fault(table: &Table, n: u16) -> Option<Fault<'_>>
    ensures { IsFoundBy (pair_subject n) (table_view table.now) result }
{
    delays_outside(table)
        .or(outside(table, "from", 1, u64::from(n)))
        .or(outside(table, "to", 1, u64::from(n)))
        .or(min_above_max(table))
        .or(to_itself(table))
}

/// The fault of a table of `crash`, of n processes.
#[tactic(auto, using(crate::proofs::Findings::either))]
fn crash_fault(table: &Table, n: u16) -> Option<Fault<'_>>
    ensures { IsFoundBy (crash_subject n) (table_view table.now) result }
{
    outside(table, "process", 1, u64::from(n)).or(outside(table, "at", 0, u64::from(LAST_TICK)))
}

/// The fault of a table of `outage`, of n processes.
#[tactic(auto, using(crate::proofs::Findings::either))]
fn outage_fault(table: &Table, n: u16) -> Option<Fault<'_>>
    ensures { IsFoundBy (outage_subject n) (table_view table.now) result }
{
    outside(table, "from", 1, u64::from(n))
        .or(outside(table, "to", 1, u64::from(n)))
        .or(outside(table, "begin", 0, u64::from(LAST_TICK)))
        .or(outside(table, "until", 0, u64::from(LAST_TICK)))
        .or(to_itself(table))
        .or(not_before(table))
}

/// The fault of a table of an array, of n processes.
pub(crate) fn element_fault(array: TableArray, table: &Table, n: u16) -> Option<Fault<'_>>
    ensures { (file : Members) (number : ℕ) → n ≡ processes_of file
        → IsFoundBy (element_subject array number file) (table_view table.now) result }
{
    match array {
        TableArray::Links => pair_fault(table, n),
        TableArray::Crash => crash_fault(table, n),
        TableArray::Outage => outage_fault(table, n),
    }
}
