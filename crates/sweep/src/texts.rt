//! The texts that go out.
ghost use Rattle.std.specs.Prelude.{◌≡◌, ◌^◌, ◌-◌, ◌<◌, length, IfOk, IfErr, OnOk};
ghost use Rattle.{reporting.specs.Outlet.{Wrote, WrotePart}, study.specs.Grid.{points}};
ghost use Rattle.sweep.specs.{Inside.{Private.{AreRowsOfSums}, Progress.{HeaderFails}}, StudyText.{names_of, unit_point, header_of as shard_header}, Layout.{header_text}};

use crate::error::SweepError;
use crate::layout::Layout;
use crate::table::Table;
use crate::unit_sums::UnitSums;
use reporting::{Outlet, put_all};
use std::alloc::{AllocError, Global};
use study::{Grid, Shard};

/// The header of a study.
pub(crate) fn header_of(alloc: Global, grid: &Grid, layout: &Layout) -> Result<Vec<u8>, AllocError>
    ensures { IfOk result (λ t. t.items
        ≡ header_text layout.now.picks (names_of layout.now.rows layout.now.groups grid.now)) }
{
    let mut table = Table::new(alloc);
    table.push_header(alloc, grid, layout)?;
    table.into_text()
}

/// The rows of a unit, whose runs were added up.
pub(crate) fn rows_of(
    alloc: Global,
    grid: &Grid,
    layout: &Layout,
    unit: u64,
    sums: &UnitSums,
) -> Result<Vec<u8>, AllocError>
    requires { unit_point layout.now.rows grid.now unit < length (points grid.now) }
    ensures { IfOk result (λ t. AreRowsOfSums layout.now grid.now unit sums.now t.items) }
{
    let mut table = Table::new(alloc);
    table.push_unit(alloc, grid, layout, unit, sums)?;
    let text = table.into_text()?;
    Ok(text)
}

/// Writes a text that is whole, or answers `Write` at the first put that fails.
pub(crate) fn write_text<O: Outlet>(text: &[u8], outlet: &mut O) -> Result<(), SweepError>
    requires { O.failed outlet.old < 2 ^ 64 - 1 }
    ensures whole { OnOk result (Wrote O.told O.failed outlet.old outlet.new text.now) }
    ensures part { IfErr result (λ e. (e ≡ SweepError.Write)
        × WrotePart O.told O.failed outlet.old outlet.new text.now) }
{
    if put_all(outlet, text) {
        Ok(())
    } else {
        Err(SweepError::Write)
    }
}

/// Writes the header of a study, where the shard is the first.
pub(crate) fn write_header<O: Outlet>(
    alloc: Global,
    grid: &Grid,
    shard: Shard,
    layout: &Layout,
    outlet: &mut O,
) -> Result<(), SweepError>
    requires { O.failed outlet.old < 2 ^ 64 - 1 }
    ensures whole { OnOk result (Wrote O.told O.failed outlet.old outlet.new (shard_header grid.now shard layout.now)) }
    ensures part { IfErr result (HeaderFails grid.now shard layout.now O.told O.failed outlet.old outlet.new) }
{
    if !shard.is_first() {
        return Ok(());
    }
    let header = header_of(alloc, grid, layout)?;
    write_text(&header, outlet)
}
