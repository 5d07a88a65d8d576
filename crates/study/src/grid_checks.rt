//! The rules of grids, one after the other.
ghost use Rattle.std.specs.Prelude.{◌≡◌, ◌<◌, ◌≤◌, ◌^◌, ◌*◌, ◌%◌, ◌++◌, None, false, map, length, IfOk, OnOk, IfErr};
ghost use Rattle.study.specs.{Grid.{combinations, paths_of, seeds_refusal, keys_refusal, points_refusal, deal_refusal, runs_refusal, reason_of, is_memory}, Settings.{choices, path_of}};

use crate::axis::Axis;
use crate::combination::count_combinations;
use crate::error::GridError;
use crate::key::{Key, first_again};
use std::alloc::{AllocError, Global};

/// How many points a grid may have.
const MOST_POINTS: u64 = 1_000_000;

/// How many runs a point may have. Sums of numbers of 64 bits over the pairs and the runs of a point fit into 128 bits.
const MOST_RUNS: u64 = 1_000_000_000_000;

/// Nothing, unless a rule applies.
type Checked = Result<(), GridError>;

/// Why there can't be these seeds, where there can't.
pub(crate) fn check_seeds(first_seed: u64, last_seed: u64) -> Checked
    ensures ok { OnOk result (seeds_refusal first_seed last_seed ≡ None) }
    ensures order { OnOk result (first_seed ≤ last_seed) }
    ensures high { OnOk result (last_seed < 2 ^ 63) }
    ensures err { IfErr result (λ e. seeds_refusal first_seed last_seed ≡ reason_of e) }
{
    if last_seed < first_seed {
        return Err(GridError::NoSeed);
    }
    if last_seed > i64::MAX as u64 {
        return Err(GridError::SeedTooHigh);
    }
    Ok(())
}

/// Adds the keys of an axis.
fn add_axis<'a>(all: &mut Vec<&'a Key>, keys: &'a [Key]) -> Result<(), AllocError>
    ensures { OnOk result (map (λ k. path_of k.now) all.new.items
        ≡ map (λ k. path_of k.now) all.old.items ++ map path_of keys.now) }
{
    for key in keys {
        all.push(key)?;
    }
    Ok(())
}

/// Adds the keys of axes.
fn add_keys<'a>(all: &mut Vec<&'a Key>, axes: &'a [Axis]) -> Result<(), AllocError>
    ensures { OnOk result (map (λ k. path_of k.now) all.new.items
        ≡ map (λ k. path_of k.now) all.old.items ++ paths_of axes.now) }
{
    for axis in axes {
        add_axis(all, &axis.keys)?;
    }
    Ok(())
}

/// All keys of three kinds of axes.
pub(crate) fn all_keys<'a>(
    alloc: Global,
    vary: &'a [Axis],
    over: &'a [Axis],
    deal: &'a [Axis],
) -> Result<Vec<&'a Key>, AllocError>
    ensures { IfOk result (λ v. map (λ k. path_of k.now) v.items
        ≡ paths_of vary.now ++ (paths_of over.now ++ paths_of deal.now)) }
{
    let mut all = Vec::new(alloc);
    add_keys(&mut all, vary)?;
    add_keys(&mut all, over)?;
    add_keys(&mut all, deal)?;
    Ok(all)
}

/// Why all keys of three kinds of axes can't be set together, where they can't.
pub(crate) fn check_keys(alloc: Global, vary: &[Axis], over: &[Axis], deal: &[Axis]) -> Checked
    ensures ok { OnOk result (keys_refusal (paths_of vary.now ++ (paths_of over.now ++ paths_of deal.now)) ≡ None) }
    ensures err { IfErr result (λ e. is_memory e ≡ false
        → keys_refusal (paths_of vary.now ++ (paths_of over.now ++ paths_of deal.now)) ≡ reason_of e) }
{
    let keys = all_keys(alloc, vary, over, deal).map_err(GridError::Memory)?;
    match first_again(&keys, 0) {
        None => Ok(()),
        Some(key) => Err(
            key.text(alloc)
                .map_or_else(GridError::Memory, GridError::KeyTwice),
        ),
    }
}

/// How many points there are.
pub(crate) fn count_points(vary: &[Axis]) -> Result<u64, GridError>
    ensures count { IfOk result (λ n. n ≡ length (combinations (map choices vary.now))) }
    ensures high { IfOk result (λ n. n ≤ 1000000) }
    ensures ok { OnOk result (points_refusal (length (combinations (map choices vary.now))) ≡ None) }
    ensures err { IfErr result (λ e. points_refusal (length (combinations (map choices vary.now))) ≡ reason_of e) }
{
    let points = count_combinations(vary);
    if points > MOST_POINTS {
        return Err(GridError::TooManyPoints { points });
    }
    Ok(points)
}

/// How many combinations are dealt to so many seeds.
#[tactic(auto, using(crate::proofs::Points::uneven_deal))]
pub(crate) fn count_deals(deal: &[Axis], seeds: u64) -> Result<u64, GridError>
    requires some { 1 ≤ seeds }
    requires high { seeds ≤ 2 ^ 63 }
    ensures count { IfOk result (λ n. n ≡ length (combinations (map choices deal.now))) }
    ensures low { IfOk result (λ n. 1 ≤ n) }
    ensures even { IfOk result (λ n. seeds % n ≡ 0) }
    ensures ok { OnOk result (deal_refusal seeds (length (combinations (map choices deal.now))) ≡ None) }
    ensures err { IfErr result (λ e. deal_refusal seeds (length (combinations (map choices deal.now))) ≡ reason_of e) }
{
    let dealt = count_combinations(deal);
    if seeds % dealt != 0 {
        return Err(GridError::Uneven { seeds, dealt });
    }
    Ok(dealt)
}

/// How many combinations are added up, with so many seeds each.
pub(crate) fn count_mixes(over: &[Axis], seeds: u64) -> Result<u64, GridError>
    requires { 1 ≤ seeds }
    ensures count { IfOk result (λ n. n ≡ length (combinations (map choices over.now))) }
    ensures high { IfOk result (λ n. n * seeds ≤ 1000000000000) }
    ensures ok { OnOk result (runs_refusal (length (combinations (map choices over.now)) * seeds) ≡ None) }
    ensures err { IfErr result (λ e. runs_refusal (length (combinations (map choices over.now)) * seeds)
        ≡ reason_of e) }
{
    let mixes = count_combinations(over);
    let runs = mixes.saturating_mul(seeds);
    if runs > MOST_RUNS {
        return Err(GridError::TooManyRuns { runs });
    }
    Ok(mixes)
}
