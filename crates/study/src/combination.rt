//! Combinations of choices, counted and picked by their numbers.
ghost use Rattle.std.specs.Prelude.{◌≡◌, ◌≤◌, ◌<◌, ◌++◌, [], length, map, get_or, OnOk};
ghost use Rattle.study.specs.{Grid.{combinations, told}, Settings.{choices, chosen, path_of, given_by, set_to}};

use crate::axis::{Axis, Choice};
use crate::key::Key;
use crate::setting::Setting;
use std::alloc::AllocError;

/// How many combinations of the axes' values there are; the greatest number stands for more than that too.
pub(crate) fn count_combinations(axes: &[Axis]) -> u64
    ensures value { result ≡ told (length (combinations (map choices axes.now))) }
    ensures some { 1 ≤ result }
{
    let mut count = 1_u64;
    for axis in axes {
        count = count.saturating_mul(axis.values.len() as u64);
    }
    count
}

/// Adds what some keys are set to, in their order.
fn push_choices<'a>(
    picked: &mut Vec<Choice<'a>>,
    keys: &'a [Key],
    settings: &'a [Setting],
) -> Result<(), AllocError>
    ensures { OnOk result (map chosen picked.new.items
        ≡ map chosen picked.old.items ++ set_to (map path_of keys.now) (map given_by settings.now)) }
{
    for (key, value) in keys.iter().zip(settings) {
        picked.push(Choice { key, value })?;
    }
    Ok(())
}

/// Adds the combination of this number, from 0, of so many: its values are found by division, from the first axis to
/// the last.
pub(crate) fn pick_combination<'a>(
    picked: &mut Vec<Choice<'a>>,
    axes: &'a [Axis],
    count: u64,
    number: u64,
) -> Result<(), AllocError>
    requires count { count ≡ length (combinations (map choices axes.now)) }
    requires within { number < count }
    ensures { OnOk result (map chosen picked.new.items
        ≡ map chosen picked.old.items ++ get_or (combinations (map choices axes.now)) number []) }
{
    // how many combinations begin with what was picked so far, and which of them it is
    let mut alike = count;
    let mut left = number;
    for axis in axes {
        alike /= axis.values.len() as u64;
        let value = &axis.values[(left / alike) as usize];
        left %= alike;
        push_choices(picked, &axis.keys, value)?;
    }
    Ok(())
}
