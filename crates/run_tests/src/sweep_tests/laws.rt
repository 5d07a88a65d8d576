//! The laws at work: the points and the texts of shards one after the other, and of the whole; the seeds of runs.
ghost use Rattle.std.specs.{Prelude.{◌≡◌, ◌≤◌, ◌<◌, ◌-◌, ◌==◌, ℕ, [], length, map, IfOk, IfSome}, List.{count_by, flat_map, range_with_len}};
ghost use Rattle.study.specs.{Sources.{sources_of}, Grid.{combinations, runs, turn}};
ghost use Rattle.sweep.specs.StudyText.{IsStudyText};

use super::studies::seven_points;
use crate::comparisons::NO_MEMORY;
use reporting::MemoryOutlet;
use std::alloc::{AllocError, Global};
use std::marker::Sync;
use std::ops::Range;
use std::thread::Threads;
use std::time::Clock;
use study::{Grid, Shard, Sources, law_shards};
use sweep::{Layout, SweepError, SweptStudy, Unwatched, law_one_text, law_shard_texts, sweep};

/// The texts of so many shards, one after the other: it is a text of the whole study.
fn sweep_shards<R: Threads + Sync + Clock>(
    rt: &R,
    alloc: Global,
    sources: &Sources,
    grid: &Grid,
    layout: &Layout,
    shards: u32,
    threads: u8,
) -> Result<MemoryOutlet, SweepError>
    requires some { 1 ≤ shards }
    ensures whole { IfOk result
        (λ o. IsStudyText (sources_of sources.now) grid.now (record { number = 1; of = 1 }) layout.now o.bytes) }
{
    let mut outlet = MemoryOutlet::new(alloc);
    for before in 0..shards {
        let Some(shard) = Shard::new(before + 1, shards) else {
            unreachable!()
        };
        let study = SweptStudy {
            sources,
            grid,
            shard,
            layout,
            threads,
        };
        sweep(rt, alloc, &study, &mut outlet, &mut Unwatched)?;
    }
    law_shard_texts(sources, grid, layout, shards);
    Ok(outlet)
}

/// The shards one after the other by so many threads, and the whole by one thread: the same bytes.
fn shards_and_whole<R: Threads + Sync + Clock>(
    rt: &R,
    alloc: Global,
    sources: &Sources,
    grid: &Grid,
    layout: &Layout,
    shards: u32,
    threads: u8,
) -> Result<(MemoryOutlet, MemoryOutlet), SweepError>
    requires some { 1 ≤ shards }
    ensures same { IfOk result (λ both. both.0.bytes ≡ both.1.bytes) }
{
    let parts = sweep_shards(rt, alloc, sources, grid, layout, shards, threads)?;
    let mut whole = MemoryOutlet::new(alloc);
    let study = SweptStudy {
        sources,
        grid,
        shard: Shard::whole(),
        layout,
        threads: 1,
    };
    sweep(rt, alloc, &study, &mut whole, &mut Unwatched)?;
    law_one_text(sources, grid, Shard::whole(), layout);
    Ok((parts, whole))
}

/// Of seven points: three shards, as many as there are points, and more.
#[test]
fn shards_make_the_whole(rt: HostRuntime) {
    let alloc = rt.alloc();
    let seven = seven_points(&rt, alloc);
    for (shards, threads) in [(1, 2), (3, 1), (3, 4), (7, 2), (9, 2)] {
        let both = shards_and_whole(
            &rt,
            alloc,
            &seven.sources,
            &seven.grid,
            &seven.layout,
            shards,
            threads,
        );
        let (parts, whole) = both.expect(&rt, "no sweep");
        assert!(rt; !whole.bytes().is_empty());
        assert!(rt;
            parts.bytes() == whole.bytes(),
            "{shards} shards, {threads} threads"
        );
    }
}

/// Which of so many points each of so many shards has, one shard after the other: together they are all points.
fn points_of_shards(alloc: Global, points: u32, shards: u32) -> Result<Vec<Range<u32>>, AllocError>
    requires { 1 ≤ shards }
    ensures { IfOk result
        (λ v. flat_map (λ r. range_with_len r.start (r.end - r.start)) v.items ≡ range_with_len 0 points) }
{
    let mut ranges = Vec::new(alloc);
    for before in 0..shards {
        let Some(shard) = Shard::new(before + 1, shards) else {
            unreachable!()
        };
        ranges.push(shard.points(points))?;
    }
    law_shards(shards);
    Ok(ranges)
}

/// How many points more than another shard of so many a shard has: one at most.
fn surplus(points: u32, number: u32, another: u32, shards: u32) -> Option<u32>
    ensures { IfSome result (λ more. more ≤ 1) }
{
    let one = Shard::new(number, shards)?;
    let other = Shard::new(another, shards)?;
    law_shards(shards);
    let (these, those) = (one.points(points), other.points(points));
    Some((these.end - these.start).saturating_sub(those.end - those.start))
}

/// The seeds of two runs of a point, from 0, where no axis' values are added up: two different runs have different
/// ones.
fn two_seeds(alloc: Global, grid: &Grid, one: u64, other: u64) -> Result<(u64, u64), AllocError>
    requires alone { grid.now.over ≡ [] }
    requires one { one < length (runs grid.now) }
    requires other { other < length (runs grid.now) }
    ensures { IfOk result (λ seeds. seeds.0 ≡ seeds.1 → one ≡ other) }
{
    let first = grid.run(alloc, one)?;
    let second = grid.run(alloc, other)?;
    grid.law_deals();
    Ok((first.seed, second.seed))
}

/// To how many seeds each of so many dealt combinations goes, where no axis' values are added up.
fn seeds_of_each(grid: &Grid, dealt: u64) -> u64
    requires alone { grid.now.over ≡ [] }
    requires dealt { dealt ≡ length (combinations grid.now.deal) }
    requires some { 1 ≤ dealt }
    ensures { (c : ℕ) → c < dealt
        → count_by (λ t. t == c) (map (turn grid.now) (range_with_len 0 grid.now.seeds)) ≡ result }
{
    grid.law_deals();
    grid.runs() / dealt
}

/// Of seven points three shards have two or three each; and of six runs of the one point of a study without axes, each
/// has its own seed.
#[test]
fn shards_share_points_and_runs_have_seeds(rt: HostRuntime) {
    let alloc = rt.alloc();
    let ranges = points_of_shards(alloc, 7, 3).expect(&rt, NO_MEMORY);
    let (last, more) = (ranges.last().expect(&rt, "no shard"), surplus(7, 3, 1, 3));
    assert!(rt; last.start == 4 && last.end == 7 && more == Some(1));
    let grid = Grid::new(
        alloc,
        Vec::new(alloc),
        Vec::new(alloc),
        Vec::new(alloc),
        1,
        6,
    );
    let grid = grid.expect(&rt, "no study");
    assert!(rt; grid.runs() > 5 && seeds_of_each(&grid, 1) == 6);
    let seeds = two_seeds(alloc, &grid, 0, 5).expect(&rt, NO_MEMORY);
    assert!(rt; seeds == (1, 6));
}
