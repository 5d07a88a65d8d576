//! The names of the columns that rows may have.
ghost use Rattle.std.specs.Prelude.{◌≡◌, ◌++◌, ◌≤◌, map, length, string_bytes, IfOk, OnOk};
ghost use Rattle.study.specs.{Grid.{paths_of}, Settings.{chosen, path_of, key_text}};
ghost use Rattle.sweep.specs.{ColumnTable.{column_names}, Groups.{group_names}, StudyText.{lead_names, names_of as names_in}};

use crate::column_table::{
    Column, detection_columns, mistake_columns, outcome_columns, run_columns,
};
use crate::columns::Columns;
use crate::group::{Group, are_any_said};
use crate::layout::Rows;
use std::alloc::{AllocError, Global};
use study::{Axis, Choice, Grid, Key};

/// Adds copies of names.
pub(crate) fn push_names(
    alloc: Global,
    names: &mut Vec<String>,
    more: &[&str],
) -> Result<(), AllocError>
    ensures { OnOk result (map string_bytes names.new.items
        ≡ map string_bytes names.old.items ++ map (λ n. n.now) more.now) }
{
    for name in more {
        names.push(String::from_str(alloc, name)?)?;
    }
    Ok(())
}

/// Adds keys.
fn push_keys(alloc: Global, names: &mut Vec<String>, keys: &[Key]) -> Result<(), AllocError>
    ensures { OnOk result (map string_bytes names.new.items
        ≡ map string_bytes names.old.items ++ map key_text (map path_of keys.now)) }
{
    for key in keys {
        names.push(key.text(alloc)?)?;
    }
    Ok(())
}

/// Adds the keys of axes.
fn push_all_keys(alloc: Global, names: &mut Vec<String>, axes: &[Axis]) -> Result<(), AllocError>
    ensures { OnOk result (map string_bytes names.new.items
        ≡ map string_bytes names.old.items ++ map key_text (paths_of axes.now)) }
{
    for axis in axes {
        push_keys(alloc, names, &axis.keys)?;
    }
    Ok(())
}

/// Adds the keys that are set.
fn push_set_keys(
    alloc: Global,
    names: &mut Vec<String>,
    settings: &[Choice<'_>],
) -> Result<(), AllocError>
    ensures { OnOk result (map string_bytes names.new.items
        ≡ map string_bytes names.old.items ++ map key_text (map (λ c. c.path) (map chosen settings.now))) }
{
    for choice in settings {
        names.push(choice.key.text(alloc)?)?;
    }
    Ok(())
}

/// Adds the names of what a row begins with.
fn push_lead_names(
    alloc: Global,
    names: &mut Vec<String>,
    grid: &Grid,
    rows: Rows,
) -> Result<(), AllocError>
    ensures { OnOk result (map string_bytes names.new.items
        ≡ map string_bytes names.old.items ++ lead_names rows grid.now) }
{
    push_all_keys(alloc, names, grid.varied())?;
    match rows {
        Rows::Points => Ok(()),
        Rows::Runs => {
            grid.recall_ranges();
            let run = grid.run(alloc, 0)?;
            push_set_keys(alloc, names, &run.settings)?;
            push_names(alloc, names, &["seed", "run"])
        }
    }
}

/// Adds the names of these columns.
fn push_names_of(
    alloc: Global,
    names: &mut Vec<String>,
    columns: &[Column],
) -> Result<(), AllocError>
    ensures { OnOk result (map string_bytes names.new.items
        ≡ map string_bytes names.old.items ++ map (λ d. d.0.now) columns.now) }
{
    for (name, _) in columns {
        names.push(String::from_str(alloc, name)?)?;
    }
    Ok(())
}

/// Adds the names of the columns.
fn push_column_names(alloc: Global, names: &mut Vec<String>) -> Result<(), AllocError>
    ensures { OnOk result (map string_bytes names.new.items ≡ map string_bytes names.old.items ++ column_names) }
{
    let none = Columns::default();
    push_names_of(alloc, names, &run_columns(1, &none))?;
    push_names_of(alloc, names, &mistake_columns(&none))?;
    push_names_of(alloc, names, &detection_columns(&none))?;
    push_names_of(alloc, names, &outcome_columns(&none))
}

/// Adds the name of the column for groups' words, where groups are said.
fn push_group_names(
    alloc: Global,
    names: &mut Vec<String>,
    groups: &[Group],
) -> Result<(), AllocError>
    ensures { OnOk result (map string_bytes names.new.items
        ≡ map string_bytes names.old.items ++ group_names groups.now) }
{
    if are_any_said(groups) {
        push_names(alloc, names, &["pairs"])
    } else {
        Ok(())
    }
}

/// The names of all columns of rows that tell of points, or of runs, and count the pairs of these groups.
pub(crate) fn names_of(
    alloc: Global,
    grid: &Grid,
    rows: Rows,
    groups: &[Group],
) -> Result<Vec<String>, AllocError>
    ensures names { IfOk result (λ v. map string_bytes v.items ≡ names_in rows groups.now grid.now) }
    ensures some { IfOk result (λ v. 1 ≤ length v.items) }
{
    let mut names = Vec::new(alloc);
    push_lead_names(alloc, &mut names, grid, rows)?;
    push_group_names(alloc, &mut names, groups)?;
    push_column_names(alloc, &mut names)?;
    Ok(names)
}
