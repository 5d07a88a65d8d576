//! Keys of the table `link` that a study sets.
ghost use Rattle.std.specs.Prelude.{◌≡◌, ◌++◌, IfOk, OnOk, filter, map};
ghost use Rattle.study.specs.{Grid.{paths_of}, Settings.{path_of}};
ghost use Rattle.study_commands.specs.{Inside.Warned.{paths_said}, Warnings.{is_of_link as is_of_link_at, link_keys as link_keys_of}};

use std::alloc::{AllocError, Global};
use study::{Axis, FileKey, Grid, Key};

/// Whether a key is of the table `link`.
fn is_of_link(key: &Key) -> bool
    ensures { result ≡ is_of_link_at (path_of key.now) }
{
    match key {
        Key::Scenario(FileKey::Inner { table, .. }) => table.as_str() == "link",
        _ => false,
    }
}

/// Adds the keys of an axis that are.
fn push_axis_keys<'a>(keys: &mut Vec<&'a Key>, axis: &'a Axis) -> Result<(), AllocError>
    ensures { OnOk result (paths_said keys.new.items
        ≡ paths_said keys.old.items ++ filter is_of_link_at (map path_of axis.now.keys.items)) }
{
    for key in &axis.keys {
        if is_of_link(key) {
            keys.push(key)?;
        }
    }
    Ok(())
}

/// Adds the keys of some axes that are.
fn push_keys<'a>(keys: &mut Vec<&'a Key>, axes: &'a [Axis]) -> Result<(), AllocError>
    ensures { OnOk result (paths_said keys.new.items
        ≡ paths_said keys.old.items ++ filter is_of_link_at (paths_of axes.now)) }
{
    for axis in axes {
        push_axis_keys(keys, axis)?;
    }
    Ok(())
}

/// The keys of the table `link` that a study sets.
pub(crate) fn link_keys(alloc: Global, grid: &Grid) -> Result<Vec<&Key>, AllocError>
    ensures { IfOk result (λ v. paths_said v.items ≡ link_keys_of grid.now) }
{
    let mut keys = Vec::new(alloc);
    push_keys(&mut keys, grid.varied())?;
    push_keys(&mut keys, grid.over())?;
    push_keys(&mut keys, grid.dealt())?;
    Ok(keys)
}
