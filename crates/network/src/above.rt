//! Processes that a network names and a run doesn't have.
ghost use Rattle.std.specs.{Prelude.{◌≡◌, ◌≤◌, ◌&&◌, nat_lt, List, Some, None, map, IfSome}, List.{All, find, range_with_len}};
ghost use Rattle.std.specs.FinSet as set;
ghost use Rattle.process_api.specs.Place.{most_processes};
ghost use Rattle.network.specs.Above as spec;
ghost use Rattle.network.specs.{Above.{AreAllWithin, AreWithin, HasAbove, HasKeyAbove, Named, earlier, groups_of, link_groups}, declared.field.TableKind.{TableKind}};

use crate::field::TableKind;
use crate::group::{Group, LinkSet};
use crate::network::{Burst, Cut, LinkTable, Network, Pause, Replay};
use process_api::{MOST_PROCESSES, Pid, ProcSet};

/// A process that a network names, and where.
#[derive(Clone, Copy, Debug)]
pub struct Above {
    /// The table's kind.
    pub kind: TableKind,
    /// The table's number among those of its kind, from 1.
    pub number: u64,
    /// The key.
    pub key: &'static str,
    /// The process.
    pub process: Pid,
}

/// A process that a table names, with its key.
#[derive(Clone, Copy)]
struct KeyAbove {
    key: &'static str,
    process: Pid,
}

/// Whether a process is a member and above n.
fn is_above(members: &ProcSet, n: u16, process: Pid) -> bool
    ensures { result ≡ (nat_lt n process && set.contains members.now process) }
{
    process.number() > n && members.contains(process)
}

/// The least of processes 1 to `most` that is a member and above n.
fn first_above(members: &ProcSet, n: u16, most: u16) -> Option<Pid>
    requires { most ≤ most_processes }
    ensures { result ≡ find (λ p. nat_lt n p && set.contains members.now p) (range_with_len 1 most) }
{
    for before in 0..most {
        let process = Pid::after(before);
        if is_above(members, n, process) {
            return Some(process);
        }
    }
    None
}

/// The least member of a group above n.
#[tactic(auto, unfolding(crate::specs::Refusals::all_processes))]
fn member_above(group: &Group, n: u16) -> Option<Pid>
    ensures { result ≡ spec.member_above n group.now }
{
    match group {
        Group::All => None,
        Group::Members(members) => first_above(members, n, MOST_PROCESSES),
    }
}

/// The least member of a group above n, with the group's key.
fn key_above(key: &'static str, group: &Group, n: u16) -> Option<KeyAbove>
    ensures none { result ≡ None → spec.member_above n group.now ≡ None }
    ensures some { IfSome result (λ a. (a.key.now ≡ key.now) × (spec.member_above n group.now ≡ Some a.process)) }
{
    let process = member_above(group, n)?;
    Some(KeyAbove { key, process })
}

/// A process above n of the ends of links.
#[tactic(auto, using(crate::proofs::Naming::naming))]
fn link_above(links: &LinkSet, n: u16) -> Option<KeyAbove>
    ensures none { result ≡ None → AreAllWithin n (link_groups links.now) }
    ensures some { IfSome result (λ a. HasKeyAbove n (link_groups links.now) a.key.now a.process) }
{
    if let Some(above) = key_above("from", &links.from, n) {
        return Some(above);
    }
    key_above("to", &links.to, n)
}

/// Names groups of processes.
trait NamesGroups {
    /// The groups that it names, with their keys.
    ghost groups: { Self → List Named };

    /// A process above n of one of them.
    fn above(&self, n: u16) -> Option<KeyAbove>
        ensures none { result ≡ None → AreAllWithin n (groups self.now) }
        ensures some { IfSome result (λ a. HasKeyAbove n (groups self.now) a.key.now a.process) };
}

impl NamesGroups for LinkTable {
    ghost use Rattle.network.specs.Above.{link_groups};

    ghost groups = { λ t. link_groups t.links };

    fn above(&self, n: u16) -> Option<KeyAbove> {
        link_above(&self.links, n)
    }
}

impl NamesGroups for Burst {
    ghost use Rattle.network.specs.Above.{link_groups};

    ghost groups = { λ t. link_groups t.links };

    fn above(&self, n: u16) -> Option<KeyAbove> {
        link_above(&self.links, n)
    }
}

impl NamesGroups for Cut {
    ghost use Rattle.network.specs.Above.{cut_groups};

    ghost groups = { cut_groups };

    #[tactic(auto, using(crate::proofs::Naming::naming))]
    fn above(&self, n: u16) -> Option<KeyAbove> {
        if let Some(above) = key_above("between", &self.one, n) {
            return Some(above);
        }
        key_above("between", &self.other, n)
    }
}

impl NamesGroups for Pause {
    ghost use Rattle.network.specs.Above.{pause_groups};

    ghost groups = { pause_groups };

    #[tactic(auto, using(crate::proofs::Naming::first_named, crate::proofs::Naming::one_within))]
    fn above(&self, n: u16) -> Option<KeyAbove> {
        key_above("processes", &self.processes, n)
    }
}

impl NamesGroups for Replay {
    ghost use Rattle.network.specs.Above.{link_groups};

    ghost groups = { λ t. link_groups t.links };

    fn above(&self, n: u16) -> Option<KeyAbove> {
        link_above(&self.links, n)
    }
}

/// The first table of a kind that names a process above n.
fn table_above<T: NamesGroups>(tables: &[T], kind: TableKind, n: u16) -> Option<Above>
    ensures none { result ≡ None → AreWithin n (map T.groups tables.now) }
    ensures kind { IfSome result (λ a. a.kind ≡ kind) }
    ensures some { IfSome result (λ a. HasAbove n (map T.groups tables.now) a.number a.key.now a.process) }
{
    for i in 0..tables.len() {
        if let Some(found) = tables[i].above(n) {
            return Some(Above {
                kind,
                number: i as u64 + 1,
                key: found.key,
                process: found.process,
            });
        }
    }
    None
}

/// A process above n that the network names, with the table and the key: of the first table that names one, by the
/// kinds `links`, `bursts`, `cuts`, `pauses` and `replays`, its first key and the least such process. None: all
/// processes that it names are 1 to n.
pub fn process_above(network: &Network, processes: u16) -> Option<Above>
    ensures none { result ≡ None → (k : TableKind) → AreWithin processes (groups_of network.now k) }
    ensures some { IfSome result
        (λ a. HasAbove processes (groups_of network.now a.kind) a.number a.key.now a.process) }
    ensures first { IfSome result
        (λ a. All (λ (k : TableKind). AreWithin processes (groups_of network.now k)) (earlier a.kind)) }
{
    let n = processes;
    if let Some(above) = table_above(&network.links, TableKind::Links, n) {
        return Some(above);
    }
    if let Some(above) = table_above(&network.bursts, TableKind::Bursts, n) {
        return Some(above);
    }
    if let Some(above) = table_above(&network.cuts, TableKind::Cuts, n) {
        return Some(above);
    }
    if let Some(above) = table_above(&network.pauses, TableKind::Pauses, n) {
        return Some(above);
    }
    table_above(&network.replays, TableKind::Replays, n)
}
