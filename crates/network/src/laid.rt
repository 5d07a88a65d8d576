//! The links that a network lays over a scenario's.
ghost use Rattle.std.specs.{Prelude.{◌≡◌, ◌≤◌, ◌++◌, IfOk, OnOk, if◌then◌else◌}, Option.{option_to_list}};
ghost use Rattle.process_api.specs.Place.{most_processes};
ghost use Rattle.network.specs.Laid.{is_of, laid_from, laid_links, laid_on, link_said};

use crate::group::joins;
use crate::network::LinkTable;
use process_api::Pid;
use scenario_record::Link;
use std::alloc::{AllocError, Global};

/// A link of a scenario with what a network says of it: what a table of `links` says.
#[derive(Clone, Copy)]
pub struct LaidLink {
    /// The sender.
    pub from: Pid,
    /// The receiver, another process.
    pub to: Pid,
    /// What it does to letters.
    pub link: Link,
}

/// What a table says of the link from a process to another, or else what was said before.
fn said_by(table: &LinkTable, from: Pid, to: Pid, before: Option<Link>) -> Option<Link>
    ensures { result ≡ (if is_of from to table.now then Some table.now.link else before) }
{
    let set = &table.links;
    if joins(&set.from, &set.to, set.both, from, to) {
        Some(table.link)
    } else {
        before
    }
}

/// What the last table that says something of the link from a process to another says, if one does.
fn link_said(tables: &[LinkTable], from: Pid, to: Pid) -> Option<Link>
    ensures { result ≡ link_said tables.now from to }
{
    let mut said = None;
    for table in tables {
        said = said_by(table, from, to, said);
    }
    said
}

/// What is laid over the link from a process to another, if anything is.
fn laid_on(tables: &[LinkTable], from: Pid, to: Pid) -> Option<LaidLink>
    ensures { result ≡ laid_on tables.now from to }
{
    match link_said(tables, from, to) {
        Some(link) => Some(LaidLink { from, to, link }),
        None => None,
    }
}

/// Adds one more, if there is one.
fn push_some(items: &mut Vec<LaidLink>, item: Option<LaidLink>) -> Result<(), AllocError>
    ensures { OnOk result (items.new.items ≡ items.old.items ++ option_to_list item) }
{
    if let Some(item) = item {
        items.push(item)?;
    }
    Ok(())
}

/// Adds what is laid over the links from a process among n.
fn push_laid_from(
    laid: &mut Vec<LaidLink>,
    tables: &[LinkTable],
    n: u16,
    from: Pid,
) -> Result<(), AllocError>
    requires { n ≤ most_processes }
    ensures { OnOk result (laid.new.items ≡ laid.old.items ++ laid_from tables.now n from) }
{
    for before in 0..n {
        let to = Pid::after(before);
        push_some(laid, laid_on(tables, from, to))?;
    }
    Ok(())
}

/// What a network's tables of `links` say of the links between processes 1 to n, each by the last table that says
/// something of it, by sender and then by receiver. A link of which none says anything stays as the scenario has it.
pub fn laid_links(
    alloc: Global,
    tables: &[LinkTable],
    processes: u16,
) -> Result<Vec<LaidLink>, AllocError>
    requires { processes ≤ most_processes }
    ensures { IfOk result (λ v. v.items ≡ laid_links tables.now processes) }
{
    let mut laid = Vec::new(alloc);
    for before in 0..processes {
        push_laid_from(&mut laid, tables, processes, Pid::after(before))?;
    }
    Ok(laid)
}
