//! The line about a point of which runs passed their limit.
ghost use Rattle.std.specs.Prelude.{◌<◌, length};
ghost use Rattle.study.specs.Grid.{points};

use crate::reckoning::{Reckoned, reckon_point};
use crate::run_name::name_of_point;
use diagnosis::HIGHEST_LIMIT;
use printable::Printable;
use std::alloc::{AllocError, Global};
use study::{Grid, Sources};

/// Of how many runs of a point that differ in more than their seeds the size is reckoned.
const MOST_RECKONED: u64 = 1000;

/// Which limit would do in place of those that runs passed: by their estimates, and twice as high where a file can have
/// that. There is none where they passed the highest limit of a file, or are estimated to.
fn next_limit(reckoned: &Reckoned) -> Option<u64> {
    let twice = reckoned.highest.saturating_mul(2);
    let limit = reckoned.possible_limit()?.max(twice).min(HIGHEST_LIMIT);
    (limit > reckoned.highest).then_some(limit)
}

/// The line of a point, from 0, of which so many runs passed their limit: its settings, and a limit that would do.
pub(crate) fn line_of_limited(
    alloc: Global,
    sources: &Sources,
    grid: &Grid,
    point: u64,
    count: u64,
) -> Result<String, AllocError>
    requires { point < length (points grid.now) }
{
    let runs = grid.runs();
    let name = name_of_point(alloc, grid, point)?;
    let name = Printable(name.as_str());
    match next_limit(&reckon_point(alloc, sources, grid, point, MOST_RECKONED)?) {
        Some(limit) => format!(in alloc;
            "fdstudy: {name}: {count} of {runs} runs passed their limit; limit={limit} would do\n"
        ),
        None => format!(in alloc;
            "fdstudy: {name}: {count} of {runs} runs passed their limit; no limit of a file would do\n"
        ),
    }
}
