//! Networks, read from the tables of a file.
ghost use Rattle.std.specs.{Prelude.{IfOk, IfErr}, List.{AllZip}};
ghost use Rattle.toml.specs.{Data.{Members}, View.{items_view, table_view}};
ghost use Rattle.scenario.specs.Table.{tables_at, the_tables};
ghost use Rattle.network.specs.{Fields.{key_of}, Reading.{SaysNetwork}, Refusals.{IsNetworkOf, Refuses}};

use crate::check::check_file;
use crate::field::TableKind;
use crate::network::{Burst, Cut, LinkTable, Network, Pause, Replay};
use crate::reading::{group_at, link_in, links_in, number_at, outages_in, rhythm_in, side_at};
use crate::refusal::NetworkError;
use crate::shape::{items_of, value_at};
use scenario::Kind;
use std::alloc::{AllocError, Global};
use toml::{Table, Value};

/// What a network has of a table of a kind.
trait OfTable: Drop {
    /// It is what the table says.
    ghost says: { Members → Self → Type 0 };

    /// What the table says.
    fn of_table(alloc: Global, table: &Table) -> Result<Self, AllocError>
        ensures { IfOk result (says (table_view table.now)) };
}

impl OfTable for LinkTable {
    ghost use Rattle.network.specs.Reading.{SaysLink};

    ghost says = { SaysLink };

    fn of_table(_alloc: Global, table: &Table) -> Result<LinkTable, AllocError> {
        Ok(LinkTable {
            links: links_in(table),
            link: link_in(table),
        })
    }
}

impl OfTable for Burst {
    ghost use Rattle.network.specs.Reading.{SaysBurst};

    ghost says = { SaysBurst };

    fn of_table(alloc: Global, table: &Table) -> Result<Burst, AllocError> {
        Ok(Burst {
            links: links_in(table),
            rhythm: rhythm_in(alloc, table)?,
        })
    }
}

impl OfTable for Cut {
    ghost use Rattle.network.specs.Reading.{SaysCut};

    ghost says = { SaysCut };

    fn of_table(alloc: Global, table: &Table) -> Result<Cut, AllocError> {
        Ok(Cut {
            one: side_at(table, 0),
            other: side_at(table, 1),
            rhythm: rhythm_in(alloc, table)?,
        })
    }
}

impl OfTable for Pause {
    ghost use Rattle.network.specs.Reading.{SaysPause};

    ghost says = { SaysPause };

    fn of_table(alloc: Global, table: &Table) -> Result<Pause, AllocError> {
        Ok(Pause {
            processes: group_at(table, "processes"),
            rhythm: rhythm_in(alloc, table)?,
        })
    }
}

impl OfTable for Replay {
    ghost use Rattle.network.specs.Reading.{SaysReplay};

    ghost says = { SaysReplay };

    fn of_table(alloc: Global, table: &Table) -> Result<Replay, AllocError> {
        Ok(Replay {
            links: links_in(table),
            lasts: number_at(table, "lasts"),
            outages: outages_in(alloc, table)?,
        })
    }
}

/// What the tables among some values say, in their order.
fn read_each<T: OfTable>(alloc: Global, values: &[Value]) -> Result<Vec<T>, AllocError>
    ensures { IfOk result (λ v. AllZip T.says (the_tables (items_view values.now)) v.items) }
{
    let mut found = Vec::new(alloc);
    for value in values {
        let Some(table) = value.as_table() else {
            continue;
        };
        found.push(T::of_table(alloc, table)?)?;
    }
    Ok(found)
}

/// What the tables of a kind say, in their order. Where there is no array of tables there is none.
fn read_tables<T: OfTable>(
    alloc: Global,
    file: &Table,
    kind: TableKind,
) -> Result<Vec<T>, AllocError>
    ensures { IfOk result (λ v. AllZip T.says (tables_at (key_of kind) (table_view file.now)) v.items) }
{
    let Some(value) = value_at(file, kind.key()) else {
        return Ok(Vec::new(alloc));
    };
    if !Kind::Tables.takes(value) {
        return Ok(Vec::new(alloc));
    }
    read_each(alloc, items_of(value))
}

/// What all tables say.
fn read_all(alloc: Global, file: &Table) -> Result<Network, AllocError>
    ensures { IfOk result (SaysNetwork (table_view file.now)) }
{
    Ok(Network {
        links: read_tables(alloc, file, TableKind::Links)?,
        bursts: read_tables(alloc, file, TableKind::Bursts)?,
        cuts: read_tables(alloc, file, TableKind::Cuts)?,
        pauses: read_tables(alloc, file, TableKind::Pauses)?,
        replays: read_tables(alloc, file, TableKind::Replays)?,
    })
}

/// The network that the table of a network file stands for.
///
/// # Errors
///
/// A [`NetworkError`] that says what is wrong with the file. Of several things that are wrong it says one. `Memory` may
/// come at any point.
pub fn read_network(alloc: Global, table: &Table) -> Result<Network, NetworkError>
    ensures ok { IfOk result (IsNetworkOf (table_view table.now)) }
    ensures err { IfErr result (λ e. Refuses e (table_view table.now)) }
{
    check_file(alloc, table)?;
    Ok(read_all(alloc, table)?)
}
