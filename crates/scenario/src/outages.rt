//! The outage tables.
ghost use Rattle.std.specs.Prelude.{◌≡◌, ◌<◌, ◌≤◌, ◌+◌, ◌∷◌, ◌*◌, [], map, length, codes, vec_len, is_none, OnOk, IfOk, IfSome};
ghost use Rattle.{process_api.specs.Place.{most_processes}, toml.specs.{Data.{Members}, View.{table_view}}};
ghost use Rattle.scenario.specs.{Table.{tables_at}, Text.{outages_among}, Drawn.{outage_table, all_outages}, Rules.{is_bad_outage}};
ghost use Rattle.scenario.specs.{Inside.{Parts.{tables_in, AreProcesses, IsTop}, Outages.{Adds, AreOutagesOf, JudgesOutages, Says, with_outage}}, Parts.{outages_in}};

use crate::drawn::LinkOutage;
use crate::error::ScenarioError;
use crate::links::place_of;
use crate::numbers::{Top, ranged};
use process_api::LAST_TICK;
use scenario_record::{LinkOutages, Outage};
use std::alloc::{AllocError, Global};
use toml::Table;

/// What a table of `outage` says.
#[derive(Clone, Copy)]
pub(crate) struct PairOutage {
    /// The sender, 1 to n.
    from: u32,
    /// The receiver, 1 to n, another one.
    to: u32,
    outage: Outage,
}

/// What the table of an outage among n processes says, where its numbers are in their ranges.
#[tactic(auto, unfolding(crate::specs::Rules::is_bad_outage))]
fn read_outage(table: &Table, n: u16) -> Option<PairOutage>
    ensures test { is_none result ≡ is_bad_outage n (table_view table.now) }
    ensures says { IfSome result (Says (table_view table.now)) }
    ensures processes { IfSome result (λ o. AreProcesses n (o.from, o.to)) }
{
    let from = ranged(table, "from", 0, 1, u32::from(n))?;
    let to = ranged(table, "to", 0, 1, u32::from(n))?;
    let begin = ranged(table, "begin", 0, 0, LAST_TICK)?;
    let until = ranged(table, "until", 0, 0, LAST_TICK)?;
    if from == to || until <= begin {
        return None;
    }
    let outage = Outage { begin, until };
    Some(PairOutage { from, to, outage })
}

/// No outages of the link from each of n processes to each.
fn no_outages(alloc: Global, n: u16) -> Result<Vec<Vec<Outage>>, AllocError>
    ensures { IfOk result (λ v. AreOutagesOf n [] v.items) }
{
    let mut outages = Vec::new(alloc);
    for _k in 0..usize::from(n) * usize::from(n) {
        outages.push(Vec::new(alloc))?;
    }
    Ok(outages)
}

/// One more outage of the link at a place.
fn push_at(lists: &mut Vec<Vec<Outage>>, place: usize, outage: Outage) -> Result<(), AllocError>
    requires { place < vec_len lists.old }
    ensures { OnOk result (
        outages_in lists.new.items ≡ with_outage (outages_in lists.old.items) place outage) }
{
    lists[place].push(outage)?;
    Ok(())
}

/// One more outage of the link of a pair of n processes.
fn add(lists: &mut Vec<Vec<Outage>>, n: u16, pair: PairOutage) -> Result<(), AllocError>
    requires few { n ≤ most_processes }
    requires all { length lists.old.items ≡ n * n }
    requires processes { AreProcesses n (pair.from, pair.to) }
    ensures all { OnOk result (length lists.new.items ≡ n * n) }
    ensures lists { (its : Members) → Says its pair → Adds n (its ∷ []) lists.old.items lists.new.items result }
{
    push_at(lists, place_of(pair.from, pair.to, n), pair.outage)
}

/// Adds the outages of a file's tables to lists that have none.
fn add_tables(
    top: &Top<'_>,
    tables: &[&Table],
    lists: &mut Vec<Vec<Outage>>,
) -> Result<(), ScenarioError>
    requires numbers { IsTop top.now }
    requires tables { tables_in tables.now ≡ tables_at (codes "outage") (table_view top.now.table.now) }
    requires none { AreOutagesOf top.now.numbers.processes [] lists.old.items }
    ensures judged { JudgesOutages top.now.numbers.processes (tables_in tables.now) result }
    ensures lists { OnOk result (AreOutagesOf top.now.numbers.processes (tables_in tables.now) lists.new.items) }
{
    let n = top.numbers.processes;
    for i in 0..tables.len() {
        let Some(pair) = read_outage(tables[i], n) else {
            return Err(ScenarioError::OutageLine);
        };
        add(lists, n, pair)?;
    }
    Ok(())
}

/// What a drawn outage says, where its table would be right among n processes.
#[tactic(auto, using(crate::proofs::DrawnTables::bad_drawn, crate::proofs::DrawnTables::drawn_pair, crate::proofs::DrawnTables::drawn_outage))]
fn fitting(outage: LinkOutage, n: u16) -> Option<PairOutage>
    ensures test { is_none result ≡ is_bad_outage n (outage_table outage) }
    ensures says { IfSome result (Says (outage_table outage)) }
    ensures processes { IfSome result (λ o. AreProcesses n (o.from, o.to)) }
{
    let LinkOutage {
        from,
        to,
        begin,
        until,
    } = outage;
    let (from, to) = (from.number(), to.number());
    if from > n || to > n || from == to {
        return None;
    }
    if begin > LAST_TICK || until > LAST_TICK || until <= begin {
        return None;
    }
    Some(PairOutage {
        from: u32::from(from),
        to: u32::from(to),
        outage: Outage { begin, until },
    })
}

/// Adds drawn outages to the lists of n processes, as their tables would be added behind those that were.
fn add_drawn(
    n: u16,
    drawn: &[LinkOutage],
    lists: &mut Vec<Vec<Outage>>,
) -> Result<(), ScenarioError>
    requires few { n ≤ most_processes }
    requires all { length lists.old.items ≡ n * n }
    ensures judged { JudgesOutages n (map outage_table drawn.now) result }
    ensures lists { Adds n (map outage_table drawn.now) lists.old.items lists.new.items result }
{
    for outage in drawn {
        let Some(pair) = fitting(*outage, n) else {
            return Err(ScenarioError::OutageLine);
        };
        add(lists, n, pair)?;
    }
    Ok(())
}

/// The outages of each link, each link's ready to be looked up.
fn ready(alloc: Global, lists: Vec<Vec<Outage>>) -> Result<Vec<LinkOutages>, AllocError>
    ensures { IfOk result (λ v. v.items ≡ outages_in lists.items) }
{
    let mut links = Vec::with_capacity(alloc, lists.len())?;
    for list in lists {
        links.push(LinkOutages::of(alloc, list)?)?;
    }
    Ok(links)
}

/// The outages of the link from each of n processes to each, by sender and then by receiver, each link's in the order
/// of their tables, and behind these the drawn ones. Where there are neither tables nor drawn ones there is no list, of
/// no link.
pub(crate) fn read_outages(
    alloc: Global,
    top: &Top<'_>,
    tables: &[&Table],
    drawn: &[LinkOutage],
) -> Result<Vec<LinkOutages>, ScenarioError>
    requires numbers { IsTop top.now }
    requires tables { tables_in tables.now ≡ tables_at (codes "outage") (table_view top.now.table.now) }
    ensures judged { JudgesOutages top.now.numbers.processes
        (all_outages drawn.now (table_view top.now.table.now)) result }
    ensures value { IfOk result (λ v. v.items
        ≡ outages_among (all_outages drawn.now (table_view top.now.table.now)) top.now.numbers.processes) }
{
    let n = top.numbers.processes;
    if tables.is_empty() && drawn.is_empty() {
        return Ok(Vec::new(alloc));
    }
    let mut lists = no_outages(alloc, n)?;
    add_tables(top, tables, &mut lists)?;
    add_drawn(n, drawn, &mut lists)?;
    let links = ready(alloc, lists)?;
    Ok(links)
}
