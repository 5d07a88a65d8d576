//! Faults of several values of a table, each of which is right by itself.
ghost use Rattle.std.specs.{Prelude.{◌≡◌, ◌≤◌, ◌&&◌, not}, List.{find, range_with_len}};
ghost use Rattle.{process_api.specs.Place.{most_processes}, toml.specs.View.{items_view, table_view}};
ghost use Rattle.network.specs.{Laid.{holds}, Reading.{each}, Refusals.{all_processes, lies_within}};
ghost use Rattle.network.specs.Reading as reading;
ghost use Rattle.network.specs.Refusals as refusals;

use crate::field::TableKind;
use crate::group::Group;
use crate::reading::{link_in, number_at, outage_of, side_at};
use crate::refusal::TableFault;
use crate::shape::{items_of, value_at};
use process_api::{MOST_PROCESSES, Pid};
use scenario_record::Outage;
use toml::{Table, Value};

/// What is wrong with the delays of a table of `links`.
#[tactic(auto, unfolding(crate::specs::Refusals::link_fault))]
fn link_fault(table: &Table) -> Option<TableFault>
    ensures { result ≡ refusals.link_fault (table_view table.now) }
{
    let link = link_in(table);
    if link.max < link.min {
        Some(TableFault::MinAboveMax {
            min: link.min,
            max: link.max,
        })
    } else {
        None
    }
}

/// Whether a process is of both groups.
fn is_common(one: &Group, other: &Group, process: Pid) -> bool
    ensures { result ≡ (holds one.now process && holds other.now process) }
{
    one.holds(process) && other.holds(process)
}

/// The least of processes 1 to `most` that is of both groups.
fn first_common(one: &Group, other: &Group, most: u16) -> Option<Pid>
    requires { most ≤ most_processes }
    ensures { result ≡ find (λ p. holds one.now p && holds other.now p) (range_with_len 1 most) }
{
    for before in 0..most {
        let process = Pid::after(before);
        if is_common(one, other, process) {
            return Some(process);
        }
    }
    None
}

/// The least process of both groups.
#[tactic(auto, unfolding(crate::specs::Refusals::all_processes))]
fn common_member(one: &Group, other: &Group) -> Option<Pid>
    ensures { result ≡ find (λ p. holds one.now p && holds other.now p) all_processes }
{
    first_common(one, other, MOST_PROCESSES)
}

/// What is wrong with the groups of a table of `cuts`.
#[tactic(auto, unfolding(crate::specs::Refusals::cut_fault))]
fn cut_fault(table: &Table) -> Option<TableFault>
    ensures { result ≡ refusals.cut_fault (table_view table.now) }
{
    let process = common_member(&side_at(table, 0), &side_at(table, 1))?;
    Some(TableFault::CommonMember {
        process: process.number(),
    })
}

/// The first outage that doesn't begin before its end, or ends after a record that lasts so long.
fn outage_not_within(values: &[Value], lasts: u32) -> Option<Outage>
    ensures { result ≡ find (λ o. not (lies_within lasts o)) (each reading.outage_of (items_view values.now)) }
{
    for value in values {
        let outage = outage_of(value);
        if outage.begin >= outage.until || outage.until > lasts {
            return Some(outage);
        }
    }
    None
}

/// What is wrong with the outages of a table of `replays`.
#[tactic(auto, unfolding(crate::specs::Refusals::replay_fault))]
fn replay_fault(table: &Table) -> Option<TableFault>
    ensures { result ≡ refusals.replay_fault (table_view table.now) }
{
    let lasts = number_at(table, "lasts");
    let outages = items_of(value_at(table, "outages")?);
    let outage = outage_not_within(outages, lasts)?;
    Some(TableFault::NotWithin {
        begin: outage.begin,
        until: outage.until,
        lasts,
    })
}

impl TableKind {
    /// What is wrong with the values of a table of this kind together.
    pub(crate) fn fault_of(self, table: &Table) -> Option<TableFault>
        ensures { result ≡ refusals.fault_of self (table_view table.now) }
    {
        match self {
            TableKind::Links => link_fault(table),
            TableKind::Cuts => cut_fault(table),
            TableKind::Replays => replay_fault(table),
            TableKind::Bursts | TableKind::Pauses => None,
        }
    }
}
