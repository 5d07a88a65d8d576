//! The least pair whose link is below the lookahead.
ghost use Rattle.std.specs.Prelude.{◌≡◌, ◌≢◌, ◌≤◌, ◌<◌, ◌*◌, ◌==◌, ◌&&◌, not, IsTrue, find, length, IfSome};
ghost use Rattle.process_api.specs.Place.{most_processes};
ghost use Rattle.scenario.specs.{Rules.{pair_below, pairs_from, is_below}, Text.{record_of}, Parts.{link_in}, Inside.Parts.{IsLow, IsTop}};
ghost use Rattle.toml.specs.View.{table_view};

use crate::links::place_of;
use crate::numbers::Top;
use process_api::Pid;
use scenario_record::Link;

/// The link of two processes.
pub(crate) fn link_of(links: &[Link], n: u16, from: u16, to: u16) -> Link
    requires few { n ≤ most_processes }
    requires all { length links.now ≡ n * n }
    requires from_low { 1 ≤ from }
    requires from_high { from ≤ n }
    requires to_low { 1 ≤ to }
    requires to_high { to ≤ n }
    ensures { result ≡ link_in n links.now (from, to) }
{
    links[place_of(u32::from(from), u32::from(to), n)]
}

/// Whether the processes differ and a letter from one to the other may take fewer ticks than the lookahead.
pub(crate) fn is_low(links: &[Link], lookahead: u32, n: u16, from: u16, to: u16) -> bool
    requires few { n ≤ most_processes }
    requires all { length links.now ≡ n * n }
    requires from_low { 1 ≤ from }
    requires from_high { from ≤ n }
    requires to_low { 1 ≤ to }
    requires to_high { to ≤ n }
    ensures test { result ≡ (not (to == from) && is_below (link_in n links.now) lookahead (from, to)) }
    ensures facts { IsTrue result → (from ≢ to) × ((link_in n links.now (from, to)).min < lookahead) }
{
    to != from && link_of(links, n, from, to).min < lookahead
}

/// The pair of two processes.
fn pair(from: u16, to: u16) -> (Pid, Pid)
    requires from_low { 1 ≤ from }
    requires from_high { from ≤ most_processes }
    requires to_low { 1 ≤ to }
    requires to_high { to ≤ most_processes }
    ensures { result ≡ (from, to) }
{
    (Pid::new(from).unwrap(), Pid::new(to).unwrap())
}

/// The least pair from one process whose link is below the lookahead.
fn first_from(links: &[Link], lookahead: u32, n: u16, from: u16) -> Option<(Pid, Pid)>
    requires few { n ≤ most_processes }
    requires all { length links.now ≡ n * n }
    requires from_low { 1 ≤ from }
    requires from_high { from ≤ n }
    ensures value { result ≡ find (is_below (link_in n links.now) lookahead) (pairs_from n from) }
    ensures low { IfSome result (IsLow n links.now lookahead) }
{
    for to in 1..n + 1 {
        if is_low(links, lookahead, n, from, to) {
            return Some(pair(from, to));
        }
    }
    None
}

/// The least pair of different processes, by sender and then by receiver, whose link is below the lookahead.
pub(crate) fn first_below(top: &Top<'_>, links: &[Link]) -> Option<(Pid, Pid)>
    requires numbers { IsTop top.now }
    requires links { links.now ≡ (record_of (table_view top.now.table.now)).links }
    requires all { length links.now ≡ top.now.numbers.processes * top.now.numbers.processes }
    ensures value { result ≡ pair_below (record_of (table_view top.now.table.now)) }
    ensures low { IfSome result (IsLow top.now.numbers.processes links.now top.now.numbers.lookahead) }
{
    let n = top.numbers.processes;
    let lookahead = top.numbers.lookahead;
    for from in 1..n + 1 {
        if let Some(pair) = first_from(links, lookahead, n, from) {
            return Some(pair);
        }
    }
    None
}
