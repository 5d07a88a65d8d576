//! How far a run goes, by its table.
ghost use Rattle.std.specs.Prelude.{◌≡◌, ◌<◌, ◌^◌, pos, false, MatchOption};
ghost use Rattle.toml.specs.View.{table_view};
ghost use Rattle.scenario.specs.{Table.{number_or}, Faults.{integer_in}, Text.{number_at, is_second as second_in}};
ghost use Rattle.study.specs.{Laid.{is_run}, Inside.Private.{IsExtentOf}};

use crate::extent::Extent;
use crate::placed::value_at;
use process_api::{LAST_TICK, MOST_PROCESSES};
use toml::Table;

/// The integer at a key, if there is one.
fn integer_at(table: &Table, key: &str) -> Option<i64>
    ensures { result ≡ integer_in key.now (table_view table.now) }
{
    value_at(table, key)?.as_integer()
}

/// The integer at a key; 0 where there is none.
#[tactic(auto, unfolding(scenario::specs::Table::number_or))]
fn number(table: &Table, key: &str) -> i64
    ensures { result ≡ number_or key.now (pos 0) (table_view table.now) }
{
    integer_at(table, key).unwrap_or(0)
}

/// The number at a key; 0 where there is none, or a negative one.
#[tactic(auto, unfolding(scenario::specs::Text::number_at))]
pub fn natural_at(table: &Table, key: &str) -> u64
    ensures value { result ≡ number_at key.now 0 (table_view table.now) }
    ensures high { result < 2 ^ 63 }
{
    let number = number(table, key);
    if number < 0 { 0 } else { number as u64 }
}

/// Whether the table is of version 2.
#[tactic(auto, unfolding(scenario::specs::Text::is_second))]
pub(crate) fn is_second(table: &Table) -> bool
    ensures { result ≡ second_in (table_view table.now) }
{
    number(table, "version") == 2
}

/// How far a run with this table goes, where its processes and its horizon are those that a run can have.
#[tactic(auto, unfolding(crate::specs::Laid::is_run))]
pub(crate) fn extent_of(table: &Table) -> Option<Extent>
    ensures { MatchOption result (is_run (table_view table.now) ≡ false) (IsExtentOf (table_view table.now)) }
{
    let processes = natural_at(table, "processes");
    let horizon = natural_at(table, "horizon");
    if processes < 1 || processes > u64::from(MOST_PROCESSES) || horizon > u64::from(LAST_TICK) {
        return None;
    }
    Some(Extent {
        processes: processes as u16,
        horizon: horizon as u32,
        seed: natural_at(table, "seed"),
    })
}
