//! How a scenario's file is read.
ghost use Rattle.std.specs.Prelude.{◌≡◌, false, None, OnOk, IfOk, IfErr};
ghost use Rattle.toml.specs.{View.{table_view}, Data.{Members}};
ghost use Rattle.scenario.specs.{Text.{record_of}, Inside.{Private.{lacks_outages}, Parts.{AreNumbersOf, ArePartsOf}}, Drawn.{with_outages}, Refusals.{Accepts, IsAnswer, Judges, Refuses, is_memory, refusal_of}, Faults.{Finds}};

use crate::drawn::LinkOutage;
use crate::error::ScenarioError;
use crate::finding::Refused;
use crate::found::finding_of;
use crate::keys::{check_keys, tables_of};
use crate::numbers::{Top, TopNumbers, read_numbers};
use crate::outages::read_outages;
use crate::parts::{Parts, read_parts};
use crate::table::is_second;
use scenario_record::{Fields, LinkOutages, Scenario};
use std::alloc::Global;
use toml::Table;

/// Reads a scenario's file. `Ok` is the record that the file stands for, defaults filled in.
///
/// # Errors
///
/// The refusal of the first rule that applies, in the order of [`ScenarioError`] (`specs/Refusals.antt` has the list),
/// or `Memory`, which comes where memory was refused, at any point.
pub fn read_scenario(alloc: Global, bytes: &[u8]) -> Result<Scenario, ScenarioError>
    ensures ok { IfOk result (Accepts bytes.now) }
    ensures err { IfErr result (λ e. is_memory e ≡ false → Refuses bytes.now e) }
{
    match toml::table_from_slice(alloc, bytes) {
        Ok(table) => read_table(alloc, &table),
        Err(error) if error.is_memory() => Err(ScenarioError::Memory),
        Err(_) => Err(ScenarioError::NotToml),
    }
}

/// Reads a scenario from its file's table: what [`read_scenario`] does once the bytes are read. `Ok` is the record that
/// the table stands for, defaults filled in.
///
/// # Errors
///
/// The refusal of the first rule of tables that applies, in the order of [`ScenarioError`], which is never `NotToml`;
/// or `Memory`, which comes where memory was refused, at any point.
#[tactic(auto, unfolding(crate::specs::Drawn::with_outages))]
pub fn read_table(alloc: Global, table: &Table) -> Result<Scenario, ScenarioError>
    ensures judged { Judges (refusal_of (table_view table.now)) result }
    ensures value { IfOk result (λ s. s ≡ record_of (table_view table.now)) }
{
    read_with_outages(alloc, table, &[])
}

/// What a scenario has, by its parts.
fn fields_of(numbers: TopNumbers, parts: Parts, outages: Vec<LinkOutages>) -> Fields
    ensures { (t : Members) → AreNumbersOf t numbers → ArePartsOf (record_of t) parts
        → result ≡ record (record_of t) { outages = outages.items } }
{
    Fields {
        processes: numbers.processes,
        horizon: numbers.horizon,
        lookahead: numbers.lookahead,
        limit: numbers.limit,
        seed: numbers.seed,
        algorithm: parts.algorithm,
        detector: parts.detector,
        share: parts.share,
        proposals: parts.proposals,
        crashes: parts.crashes,
        links: parts.links,
        outages,
    }
}

/// Whether outages are drawn for a file that has no key for them, since it isn't of version 2.
fn lacks_key(drawn: &[LinkOutage], table: &Table) -> bool
    ensures { result ≡ lacks_outages drawn.now (table_view table.now) }
{
    !drawn.is_empty() && !is_second(table)
}

/// Reads a scenario from its file's table and outages that were drawn besides: answers what [`read_table`] answers of
/// the table to which they are added at `outage`, behind the file's own (`specs/Drawn.antt`), and makes no table of
/// them.
///
/// # Errors
///
/// Those of [`read_table`] for that table. So where outages are drawn and the file isn't of version 2 it is
/// `UnknownKey`, and a drawn outage that is out of range is refused as its table would be, by `OutageLine`.
pub fn read_with_outages(
    alloc: Global,
    table: &Table,
    drawn: &[LinkOutage],
) -> Result<Scenario, ScenarioError>
    ensures judged { Judges (refusal_of (with_outages drawn.now (table_view table.now))) result }
    ensures value { IfOk result (λ s. s ≡ record_of (with_outages drawn.now (table_view table.now))) }
{
    if lacks_key(drawn, table) {
        return Err(ScenarioError::UnknownKey);
    }
    let tables = tables_of(alloc, table)?;
    check_keys(table, &tables)?;
    let numbers = read_numbers(table)?;
    let top = Top { table, numbers };
    let parts = read_parts(alloc, &top, &tables)?;
    let outages = read_outages(alloc, &top, &tables.outages, drawn)?;
    Ok(Scenario::of(fields_of(numbers, parts, outages)))
}

/// Reads a scenario from its file's table, as [`read_table`] does, and says of a table that is refused what is wrong
/// with it, and where.
///
/// # Errors
///
/// The refusal that [`read_table`] answers, with what breaks its rule: what is named stands there
/// (`specs/Faults.antt`).
pub fn read_with_place(alloc: Global, table: &Table) -> Result<Scenario, Refused<'_>>
    ensures ok { OnOk result (refusal_of (table_view table.now) ≡ None) }
    ensures value { IfOk result (λ s. s ≡ record_of (table_view table.now)) }
    ensures err { IfErr result (λ r. IsAnswer (refusal_of (table_view table.now)) r.error) }
    ensures finds { IfErr result (λ r. Finds (table_view table.now) r.finding r.error) }
{
    match read_table(alloc, table) {
        Ok(scenario) => Ok(scenario),
        Err(error) => match finding_of(alloc, table, &error) {
            Ok(finding) => Err(Refused { error, finding }),
            Err(_) => Err(Refused {
                error: ScenarioError::Memory,
                finding: None,
            }),
        },
    }
}
