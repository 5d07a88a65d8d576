//! The links.
ghost use Rattle.std.specs.Prelude.{◌≡◌, ◌≤◌, ◌<◌, ◌+◌, ◌-◌, ◌*◌, codes, map, length, unwrap_or, is_none, IfOk, IfSome};
ghost use Rattle.{process_api.specs.Place.{most_processes}, toml.specs.View.{table_view}};
ghost use Rattle.scenario.specs.{Table.{table_or_empty, tables_at}, Text.{delays_of, pair_of, record_of}, Rules.{is_bad_link, is_bad_pair, links_refused}, Refusals.{Judges, when}};
ghost use Rattle.scenario.specs.{Inside.Parts.{tables_in, AreProcesses, IsTop, pairs_refused}, Parts.{links_of}};

use crate::error::ScenarioError;
use crate::numbers::{Top, ranged};
use crate::table::inner_table;
use process_api::MOST_TICKS;
use scenario_record::Link;
use std::alloc::{AllocError, Global};
use toml::Table;

/// The greatest loss, in thousandths.
pub(crate) const MOST_LOSS: u32 = 1_000;

/// What the table of a link says of letters, where its numbers are in their ranges.
#[tactic(auto, unfolding(crate::specs::Rules::is_bad_link))]
fn read_link(table: &Table) -> Option<Link>
    ensures test { is_none result ≡ is_bad_link (table_view table.now) }
    ensures value { IfSome result (λ l. l ≡ delays_of (table_view table.now)) }
{
    let min = ranged(table, "min", 0, 1, MOST_TICKS)?;
    let max = ranged(table, "max", 0, 1, MOST_TICKS)?;
    let loss = ranged(table, "loss", 0, 0, MOST_LOSS)?;
    if max < min {
        return None;
    }
    Some(Link { min, max, loss })
}

/// What a table of `links` says.
#[derive(Clone, Copy)]
pub(crate) struct PairLink {
    /// The sender, 1 to n.
    from: u32,
    /// The receiver, 1 to n, another one.
    to: u32,
    link: Link,
}

/// What the table of a pair of n processes says, where its numbers are in their ranges.
#[tactic(auto, unfolding(crate::specs::Rules::is_bad_pair))]
fn read_pair(table: &Table, n: u16) -> Option<PairLink>
    ensures test { is_none result ≡ is_bad_pair n (table_view table.now) }
    ensures pair { IfSome result (λ l. (l.from, l.to) ≡ pair_of (table_view table.now)) }
    ensures link { IfSome result (λ l. l.link ≡ delays_of (table_view table.now)) }
    ensures processes { IfSome result (λ l. AreProcesses n (l.from, l.to)) }
{
    let link = read_link(table)?;
    let from = ranged(table, "from", 0, 1, u32::from(n))?;
    let to = ranged(table, "to", 0, 1, u32::from(n))?;
    if from == to {
        return None;
    }
    Some(PairLink { from, to, link })
}

/// The place of a pair's link among those of n processes, by sender and then by receiver.
pub(crate) fn place_of(from: u32, to: u32, n: u16) -> usize
    requires few { n ≤ most_processes }
    requires from_low { 1 ≤ from }
    requires from_high { from ≤ n }
    requires to_low { 1 ≤ to }
    requires to_high { to ≤ n }
    ensures value { result ≡ (from - 1) * n + (to - 1) }
    ensures within { result < n * n }
{
    (from as usize - 1) * usize::from(n) + (to as usize - 1)
}

/// The links of the pairs of n processes that have tables of their own. The first table that is of a pair which has
/// one already ends the reading, so no more than one of each pair are taken.
fn read_pairs(
    alloc: Global,
    top: &Top<'_>,
    tables: &[&Table],
) -> Result<Vec<Option<Link>>, ScenarioError>
    requires numbers { IsTop top.now }
    requires tables { tables_in tables.now ≡ tables_at (codes "links") (table_view top.now.table.now) }
    ensures judged { Judges (when (pairs_refused (table_view top.now.table.now)) ScenarioError.LinkNumbers) result }
    ensures value { IfOk result (λ v. (common : _) → map (λ link. unwrap_or link common) v.items
        ≡ links_of common (table_view top.now.table.now)) }
{
    let n = top.numbers.processes;
    let mut links = vec![in alloc; None; usize::from(n) * usize::from(n)]?;
    for i in 0..tables.len() {
        let Some(pair) = read_pair(tables[i], n) else {
            return Err(ScenarioError::LinkNumbers);
        };
        let place = place_of(pair.from, pair.to, n);
        if links[place].is_some() {
            return Err(ScenarioError::LinkNumbers);
        }
        links[place] = Some(pair.link);
    }
    Ok(links)
}

/// The links, each of its own table where there is one, else the common link.
fn filled(alloc: Global, own: &[Option<Link>], common: Link) -> Result<Vec<Link>, AllocError>
    ensures { IfOk result (λ v. v.items ≡ map (λ link. unwrap_or link common) own.now) }
{
    own.iter().map(|link| link.unwrap_or(common)).collect(alloc)
}

/// The common link, where there is a table of it and its numbers are in their ranges.
#[tactic(auto, using(crate::proofs::NumberFacts::no_link_table))]
fn read_common(top: &Table) -> Option<Link>
    ensures test { is_none result ≡ is_bad_link (table_or_empty (codes "link") (table_view top.now)) }
    ensures value { IfSome result (λ l. l ≡ delays_of (table_or_empty (codes "link") (table_view top.now))) }
{
    read_link(inner_table(top, "link")?)
}

/// The links from each of n processes to each, by sender and then by receiver.
pub(crate) fn read_links(
    alloc: Global,
    top: &Top<'_>,
    tables: &[&Table],
) -> Result<Vec<Link>, ScenarioError>
    requires numbers { IsTop top.now }
    requires tables { tables_in tables.now ≡ tables_at (codes "links") (table_view top.now.table.now) }
    ensures judged { Judges (when (links_refused (table_view top.now.table.now)) ScenarioError.LinkNumbers) result }
    ensures value { IfOk result (λ v. v.items ≡ (record_of (table_view top.now.table.now)).links) }
    ensures all { IfOk result (λ v. length v.items ≡ top.now.numbers.processes * top.now.numbers.processes) }
{
    let common = read_common(top.table).ok_or(ScenarioError::LinkNumbers)?;
    let own = read_pairs(alloc, top, tables)?;
    let links = filled(alloc, &own, common)?;
    Ok(links)
}
