//! Points and runs of a study, named by their numbers and settings.
ghost use Rattle.std.specs.Prelude.{◌≡◌, ◌++◌, ◌<◌, IfOk, OnOk, length, map, string_bytes};
ghost use Rattle.study.specs.{Grid.{points, runs}, Settings.{chosen}};
ghost use Rattle.study_commands.specs.WarningText.{choice_text, choices_text, point_name};

use std::alloc::{AllocError, Global};
use study::{Choice, Grid, Setting};

/// Adds a key and what it is set to, after this.
fn push_choice(name: &mut String, before: &str, choice: &Choice<'_>) -> Result<(), AllocError>
    ensures { OnOk result (string_bytes name.new
        ≡ string_bytes name.old ++ choice_text before.now (chosen choice.now)) }
{
    let key = choice.key;
    match choice.value {
        Setting::Integer(value) => write!(name, "{before}{key}={value}"),
        Setting::Text(value) => {
            let value = value.as_str();
            write!(name, "{before}{key}={value}")
        }
    }
}

/// Adds keys and what they are set to, this before the first of them. Answers what stands before a further one.
fn push_choices(
    name: &mut String,
    mut before: &'static str,
    choices: &[Choice<'_>],
) -> Result<&'static str, AllocError>
    ensures { OnOk result (string_bytes name.new
        ≡ string_bytes name.old ++ choices_text before.now (map chosen choices.now)) }
{
    for choice in choices {
        push_choice(name, before, choice)?;
        before = ", ";
    }
    Ok(before)
}

/// A point, from 0, with its settings, as `point 2 with detector.timeout=8, link.loss=0`, and without any as `point 1`.
pub(crate) fn name_of_point(alloc: Global, grid: &Grid, point: u64) -> Result<String, AllocError>
    requires { point < length (points grid.now) }
    ensures { IfOk result (λ s. string_bytes s ≡ point_name grid.now point) }
{
    grid.recall_ranges();
    let number = point.saturating_add(1);
    let mut name = format!(in alloc; "point {number}")?;
    push_choices(&mut name, " with ", &grid.point(alloc, point)?)?;
    Ok(name)
}

/// A run of a point, both from 0, with the settings of its point and its own, as
/// `run 3 of point 2 with detector.timeout=8, crash[1].at=4, seed=2`.
pub(crate) fn name_of_run(
    alloc: Global,
    grid: &Grid,
    point: u64,
    run: u64,
) -> Result<String, AllocError>
    requires point { point < length (points grid.now) }
    requires run { run < length (runs grid.now) }
{
    let (number, place) = (run.saturating_add(1), point.saturating_add(1));
    let its = grid.run(alloc, run)?;
    let seed = its.seed;
    let mut name = format!(in alloc; "run {number} of point {place}")?;
    let before = push_choices(&mut name, " with ", &grid.point(alloc, point)?)?;
    let before = push_choices(&mut name, before, &its.settings)?;
    write!(name, "{before}seed={seed}")?;
    Ok(name)
}
