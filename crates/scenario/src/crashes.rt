//! The crash tables.
ghost use Rattle.std.specs.Prelude.{◌≡◌, codes, is_none, IfOk, IfSome};
ghost use Rattle.toml.specs.View.{table_view};
ghost use Rattle.scenario.specs.{Table.{tables_at}, Text.{crash_process, crash_tick, record_of}, Rules.{is_bad_crash, crashes_refused}, Refusals.{Judges, when}, Inside.Parts.{tables_in, IsTop}, Parts.{IsProcess}};

use crate::error::ScenarioError;
use crate::numbers::{Top, ranged};
use process_api::LAST_TICK;
use std::alloc::Global;
use toml::Table;

/// What a crash table says.
#[derive(Clone, Copy)]
pub(crate) struct Crash {
    /// The process that crashes, 1 to n.
    process: u32,
    /// The tick at which it does.
    at: u32,
}

/// What the table of a crash among n processes says, where its numbers are in their ranges.
#[tactic(auto, unfolding(crate::specs::Rules::is_bad_crash))]
fn read_crash(table: &Table, n: u16) -> Option<Crash>
    ensures test { is_none result ≡ is_bad_crash n (table_view table.now) }
    ensures process { IfSome result (λ c. c.process ≡ crash_process (table_view table.now)) }
    ensures tick { IfSome result (λ c. c.at ≡ crash_tick (table_view table.now)) }
    ensures one_of_them { IfSome result (λ c. IsProcess n c.process) }
{
    let process = ranged(table, "process", 0, 1, u32::from(n))?;
    let at = ranged(table, "at", 0, 0, LAST_TICK)?;
    Some(Crash { process, at })
}

/// The ticks at which n processes crash, of process 1 first. The first table that is of a process which has one
/// already ends the reading, so no more than n of them are taken.
pub(crate) fn read_crashes(
    alloc: Global,
    top: &Top<'_>,
    tables: &[&Table],
) -> Result<Vec<Option<u32>>, ScenarioError>
    requires numbers { IsTop top.now }
    requires tables { tables_in tables.now ≡ tables_at (codes "crash") (table_view top.now.table.now) }
    ensures judged { Judges (when (crashes_refused (table_view top.now.table.now)) ScenarioError.CrashLine) result }
    ensures value { IfOk result (λ v. v.items ≡ (record_of (table_view top.now.table.now)).crashes) }
{
    let n = top.numbers.processes;
    let mut ticks = vec![in alloc; None; usize::from(n)]?;
    for i in 0..tables.len() {
        let Some(crash) = read_crash(tables[i], n) else {
            return Err(ScenarioError::CrashLine);
        };
        let place = crash.process as usize - 1;
        if ticks[place].is_some() {
            return Err(ScenarioError::CrashLine);
        }
        ticks[place] = Some(crash.at);
    }
    Ok(ticks)
}
