//! The numbers of a scenario's tables.
ghost use Rattle.std.specs.Prelude.{◌≡◌, ◌≤◌, ◌<◌, ◌^◌, ◌&&◌, nat_le, IsTrue, codes, pos, is_none, IfOk, IfSome};
ghost use Rattle.{process_api.specs.Place.{most_processes}, toml.specs.View.{table_view}};
ghost use Rattle.scenario.specs.{Table.{number_or}, Text.{number_at, natural_of, processes_of, is_second as second_in}, Rules.{is_outside, is_negative, is_within, most_in}, Refusals.{Judges, first_of, number_refusals}};
ghost use Rattle.scenario.specs.Inside.Parts.{AreNumbersOf};

use crate::error::ScenarioError::{self, Horizon, Limit, Lookahead, Processes, Seed, Version};
use crate::table::{is_second, number};
use process_api::{LAST_TICK, MOST_PROCESSES, MOST_TICKS};
use toml::Table;

/// The number, where it isn't negative.
pub fn natural(value: i64) -> Option<u64>
    ensures value { result ≡ natural_of value }
    ensures high { IfSome result (λ n. n < 2 ^ 63) }
{
    if value < 0 { None } else { Some(value as u64) }
}

/// The number at a key, or its default, where it isn't negative.
#[tactic(auto, unfolding(crate::specs::Rules::is_negative, crate::specs::Text::number_at))]
fn natural_at(table: &Table, key: &str, default: u32) -> Option<u64>
    ensures read { result ≡ natural_of (number_or key.now (pos default) (table_view table.now)) }
    ensures test { is_none result ≡ is_negative key.now default (table_view table.now) }
    ensures value { IfSome result (λ n. n ≡ number_at key.now default (table_view table.now)) }
    ensures high { IfSome result (λ n. n < 2 ^ 63) }
{
    natural(number(table, key, i64::from(default)))
}

/// Whether the number lies between the ends.
fn lies_between(value: u64, low: u64, high: u64) -> bool
    ensures test { result ≡ (nat_le low value && nat_le value high) }
    ensures facts { IsTrue result → (low ≤ value) × (value ≤ high) }
{
    low <= value && value <= high
}

/// Whether the number, which may be negative, lies between the ends.
pub fn lies_within(value: i64, low: u64, high: u64) -> bool
    ensures { result ≡ is_within low high value }
{
    match natural(value) {
        Some(value) => lies_between(value, low, high),
        None => false,
    }
}

/// The number at a key, or its default, where it lies between these ends.
#[tactic(auto, unfolding(crate::specs::Rules::is_outside, crate::specs::Text::number_at))]
pub(crate) fn ranged(
    table: &Table,
    key: &'static str,
    default: u32,
    low: u32,
    high: u32,
) -> Option<u32>
    ensures test { is_none result ≡ is_outside low high key.now default (table_view table.now) }
    ensures value { IfSome result (λ n. n ≡ number_at key.now default (table_view table.now)) }
    ensures low { IfSome result (λ n. low ≤ n) }
    ensures high { IfSome result (λ n. n ≤ high) }
{
    let value = natural_at(table, key, default)?;
    if !lies_between(value, u64::from(low), u64::from(high)) {
        return None;
    }
    Some(value as u32)
}

/// How many processes a file of version 1 may have.
const MOST_IN_FIRST: u32 = 64;

/// How many processes the file with this table may have, by its version.
pub(crate) fn most_of_version(top: &Table) -> u32
    ensures value { result ≡ most_in (second_in (table_view top.now)) }
    ensures high { result ≤ most_processes }
{
    if is_second(top) {
        u32::from(MOST_PROCESSES)
    } else {
        MOST_IN_FIRST
    }
}

/// The numbers of the top table.
#[derive(Clone, Copy)]
pub(crate) struct TopNumbers {
    pub(crate) processes: u16,
    pub(crate) horizon: u32,
    pub(crate) lookahead: u32,
    pub(crate) limit: u64,
    pub(crate) seed: u64,
}

/// A file's top table, and its numbers.
#[derive(Clone, Copy)]
pub(crate) struct Top<'a> {
    pub(crate) table: &'a Table,
    pub(crate) numbers: TopNumbers,
}

/// How many processes the file with this table has, where that is right by its version.
pub(crate) fn read_processes(top: &Table) -> Option<u16>
    ensures test { is_none result
        ≡ is_outside 1 (most_in (second_in (table_view top.now))) (codes "processes") 0 (table_view top.now) }
    ensures value { IfSome result (λ n. n ≡ processes_of (table_view top.now)) }
    ensures low { IfSome result (λ n. 1 ≤ n) }
    ensures high { IfSome result (λ n. n ≤ most_processes) }
{
    let most = most_of_version(top);
    let processes = ranged(top, "processes", 0, 1, most)?;
    Some(processes as u16)
}

/// The numbers of the top table, where all are in their ranges; else the refusal of the first that isn't.
pub(crate) fn read_numbers(top: &Table) -> Result<TopNumbers, ScenarioError>
    ensures judged { Judges (first_of (number_refusals (table_view top.now))) result }
    ensures value { IfOk result (AreNumbersOf (table_view top.now)) }
{
    ranged(top, "version", 0, 1, 2).ok_or(Version)?;
    let processes = read_processes(top).ok_or(Processes)?;
    let horizon = ranged(top, "horizon", 0, 1, LAST_TICK).ok_or(Horizon)?;
    let lookahead = ranged(top, "lookahead", 0, 1, MOST_TICKS).ok_or(Lookahead)?;
    let limit = ranged(top, "limit", 1_000_000, 1, 100_000_000).ok_or(Limit)?;
    let seed = natural_at(top, "seed", 0).ok_or(Seed)?;
    Ok(TopNumbers {
        processes,
        horizon,
        lookahead,
        limit: u64::from(limit),
        seed,
    })
}
