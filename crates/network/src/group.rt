//! Groups of processes, and the links between them.
ghost use Rattle.std.specs.{Prelude.{◌≡◌, ◌≤◌, ◌++◌, ◌∷◌, [], filter, IfOk, OnOk, if◌then◌else◌}, List.{range_with_len}};
ghost use Rattle.process_api.specs.Place.{most_processes};
ghost use Rattle.network.specs.Laid.{holds, joins, links_between, links_from};

use process_api::{Pid, ProcSet};
use std::alloc::{AllocError, Global};

/// Some of the processes of a run.
#[derive(Drop)]
pub enum Group {
    /// All of them.
    All,
    /// Those that are members of the set.
    Members(ProcSet),
}

/// The ends of a link.
#[derive(Clone, Copy, Debug, PartialEq, Eq)]
pub struct Ends {
    /// The sender.
    pub from: Pid,
    /// The receiver, another process.
    pub to: Pid,
}

/// The links from one group to another, or those of both directions.
#[derive(Drop)]
pub struct LinkSet {
    /// The senders.
    pub from: Group,
    /// The receivers.
    pub to: Group,
    /// Whether the links back belong to it too.
    pub both: bool,
}

impl Group {
    /// Whether the process is one of the group.
    pub fn holds(&self, p: Pid) -> bool
        ensures { result ≡ holds self.now p }
    {
        match self {
            Group::All => true,
            Group::Members(members) => members.contains(p),
        }
    }
}

/// Adds one more, if it counts.
fn push_if<T: Drop>(items: &mut Vec<T>, item: T, counts: bool) -> Result<(), AllocError>
    ensures { OnOk result
        (items.new.items ≡ items.old.items ++ (if counts then item ∷ [] else [])) }
{
    if counts {
        items.push(item)?;
    }
    Ok(())
}

/// The members of a group among processes 1 to n, in rising order.
pub(crate) fn members_among(alloc: Global, group: &Group, n: u16) -> Result<Vec<Pid>, AllocError>
    requires { n ≤ most_processes }
    ensures { IfOk result (λ v. v.items ≡ filter (holds group.now) (range_with_len 1 n)) }
{
    let mut members = Vec::new(alloc);
    for before in 0..n {
        let p = Pid::after(before);
        push_if(&mut members, p, group.holds(p))?;
    }
    Ok(members)
}

/// Whether the link from a process to another is one of those from a group to a group, or of both directions.
#[tactic(auto, unfolding(crate::specs::Laid::joins))]
pub(crate) fn joins(senders: &Group, receivers: &Group, both: bool, from: Pid, to: Pid) -> bool
    ensures { result ≡ joins senders.now receivers.now both from to }
{
    from != to
        && ((senders.holds(from) && receivers.holds(to))
            || (both && senders.holds(to) && receivers.holds(from)))
}

/// Adds those of the links that are from one process to another of n.
fn push_links_from(
    links: &mut Vec<Ends>,
    senders: &Group,
    receivers: &Group,
    both: bool,
    n: u16,
    from: Pid,
) -> Result<(), AllocError>
    requires { n ≤ most_processes }
    ensures { OnOk result
        (links.new.items ≡ links.old.items ++ links_from senders.now receivers.now both n from) }
{
    for before in 0..n {
        let to = Pid::after(before);
        let counts = joins(senders, receivers, both, from, to);
        push_if(links, Ends { from, to }, counts)?;
    }
    Ok(())
}

/// The links from a group to a group among processes 1 to n, or of both directions, by sender and then by receiver.
pub(crate) fn links_between(
    alloc: Global,
    senders: &Group,
    receivers: &Group,
    both: bool,
    n: u16,
) -> Result<Vec<Ends>, AllocError>
    requires { n ≤ most_processes }
    ensures { IfOk result (λ v. v.items ≡ links_between senders.now receivers.now both n) }
{
    let mut links = Vec::new(alloc);
    for before in 0..n {
        push_links_from(&mut links, senders, receivers, both, n, Pid::after(before))?;
    }
    Ok(links)
}
