//! What tests of sweeps share: small studies by words, and their texts.
ghost use Rattle.std.specs.Prelude.{◌≡◌};

use crate::traces::{CRASH_AT_3, axes, file_of};
use reporting::MemoryOutlet;
use std::alloc::Global;
use std::marker::Sync;
use std::process::Abort;
use std::thread::Threads;
use std::time::Clock;
use study::{Grid, Shard, Sources};
use sweep::{Layout, Rows, SweptStudy, Unwatched, sweep};

/// A study of the file in which process 2 of two crashes at tick 3, with rows for points and all columns.
#[derive(Drop)]
pub struct Study {
    pub sources: Sources,
    pub grid: Grid,
    pub layout: Layout,
}

impl Study {
    /// This shard of it, by so many threads.
    pub fn part(&self, shard: Shard, threads: u8) -> SweptStudy<'_> {
        SweptStudy {
            sources: &self.sources,
            grid: &self.grid,
            shard,
            layout: &self.layout,
            threads,
        }
    }
}

/// The layout of such rows, which count all pairs, with these columns.
pub fn layout_of<R: Abort>(
    rt: &R,
    alloc: Global,
    grid: &Grid,
    rows: Rows,
    columns: Option<&str>,
) -> Layout
    ensures { result.rows ≡ rows }
{
    Layout::new(alloc, grid, rows, Vec::new(alloc), columns).expect(rt, "no layout")
}

/// The study that varies some keys and adds up over others, of the seeds from 1 to the last.
pub fn study_of<R: Abort>(rt: &R, alloc: Global, vary: &str, over: &str, last_seed: u64) -> Study {
    let text = file_of(rt, alloc, 2, 10, CRASH_AT_3);
    let file = toml::table_from_str(alloc, text.as_str()).expect(rt, "no TOML");
    let (vary, over) = (axes(rt, alloc, vary), axes(rt, alloc, over));
    let grid = Grid::new(alloc, vary, over, Vec::new(alloc), 1, last_seed).expect(rt, "no study");
    let layout = layout_of(rt, alloc, &grid, Rows::Points, None);
    Study {
        sources: Sources::of_scenario(file),
        grid,
        layout,
    }
}

/// Seven points with 160 runs each, of which 80 have the crash at tick 3 and 80 have it at tick 4.
pub fn seven_points<R: Abort>(rt: &R, alloc: Global) -> Study {
    study_of(rt, alloc, "link.loss=0..=600:100", "crash[1].at=3,4", 80)
}

/// Two points with one run each.
pub fn two_points<R: Abort>(rt: &R, alloc: Global) -> Study {
    study_of(rt, alloc, "detector.timeout=5,8", "", 1)
}

/// The shard of so many that has this number, from 1.
pub fn shard<R: Abort>(rt: &R, number: u32, of: u32) -> Shard {
    Shard::new(number, of).expect(rt, "no shard")
}

/// The text of the whole study, by so many threads.
pub fn swept<R: Threads + Sync + Clock + Abort>(
    rt: &R,
    alloc: Global,
    study: &Study,
    threads: u8,
) -> MemoryOutlet {
    let mut outlet = MemoryOutlet::new(alloc);
    let all = study.part(Shard::whole(), threads);
    let answer = sweep(rt, alloc, &all, &mut outlet, &mut Unwatched);
    answer.expect(rt, "no sweep");
    outlet
}
