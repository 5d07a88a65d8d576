//! Keys that are set for all runs and again.
ghost use Rattle.std.specs.Prelude.{◌≡◌, ◌++◌, map, option_map, OnOk, IfOk};
ghost use Rattle.study.specs.{Settings.{path_of}, Grid.{set_twice}};

use crate::assignment::Assignment;
use crate::grid::Grid;
use crate::grid_checks::all_keys;
use crate::key::{Key, first_again};
use std::alloc::{AllocError, Global};

/// Adds the keys of assignments.
fn add_assigned<'a>(all: &mut Vec<&'a Key>, assignments: &'a [Assignment]) -> Result<(), AllocError>
    ensures { OnOk result (map (λ k. path_of k.now) all.new.items
        ≡ map (λ k. path_of k.now) all.old.items ++ map (λ a. path_of a.key) assignments.now) }
{
    for assignment in assignments {
        all.push(&assignment.key)?;
    }
    Ok(())
}

impl Grid {
    /// Of assignments for all runs the first key that is set twice: it meets a key of one of the grid's axes, or one
    /// before it.
    pub fn set_twice<'a>(
        &'a self,
        alloc: Global,
        assignments: &'a [Assignment],
    ) -> Result<Option<&'a Key>, AllocError>
        ensures { IfOk result (λ k. option_map (λ k. path_of k.now) k
            ≡ set_twice self.now (map (λ a. path_of a.key) assignments.now)) }
    {
        let mut keys = all_keys(alloc, self.varied(), self.over(), self.dealt())?;
        let of_axes = keys.len();
        add_assigned(&mut keys, assignments)?;
        Ok(first_again(&keys, of_axes))
    }
}
