//! How many runs of each point passed their limit, which the watcher is told.
ghost use Rattle.std.specs.Prelude.{◌≡◌, ◌+◌, ◌*◌, ◌^◌, ◌<◌, ◌≤◌, [], ◌∷◌, length};
ghost use Rattle.trace_laws.specs.Taken.{HaveJoined};
ghost use Rattle.study.specs.{Sources.{SourcesRecord}, Grid.{GridRecord, points, runs}};
ghost use Rattle.sweep.specs.Outcome.{told_of};

use crate::run_numbers::RunNumbers;
use crate::watcher::Watcher;
use study::{Grid, Sources};

/// Says of a point, whose runs are in, how many of them passed their limit, if one did.
fn say<W: Watcher>(sources: &Sources, grid: &Grid, point: u64, count: u64, watcher: &mut W)
    requires { point < length (points grid.now) }
    ensures { HaveJoined W.heard watcher.old watcher.new (told_of ((point, count) ∷ [])) }
{
    if count == 0 {
        return;
    }
    watcher.limited(sources, grid, point, count);
}

/// Of a point the number of the runs that are in, and how many of these passed their limit.
#[derive(Drop)]
pub(crate) struct Limits {
    pub point: u64,
    pub run: u64,
    pub count: u64,
    ghost few: { count ≤ run },
}

impl Limits {
    ghost use Rattle.sweep.specs.Inside.Progress.{AreCounted, TellsOn, next_counted};

    /// No run of the point is in.
    pub fn at(point: u64) -> Limits
        ensures point { result.point ≡ point }
        ensures run { result.run ≡ 0 }
        ensures counted { (sources : SourcesRecord) (g : GridRecord) → AreCounted sources g result }
    {
        Limits {
            point,
            run: 0,
            count: 0,
        }
    }

    /// Takes the next run in. After the last of its point the watcher is told how many passed their limit, if one did,
    /// and the next point begins.
    fn add<W: Watcher>(
        &mut self,
        sources: &Sources,
        grid: &Grid,
        numbers: &RunNumbers,
        watcher: &mut W,
    )
        requires point { self.old.point < length (points grid.now) }
        requires run { self.old.run < length (runs grid.now) }
        requires few { length (points grid.now) < 2 ^ 64 }
        ensures number { next_counted grid.now self.new ≡ next_counted grid.now self.old + 1 }
        ensures run { self.new.run < length (runs grid.now) }
        ensures heard { TellsOn grid.now W.heard watcher.old watcher.new (numbers.now ∷ []) self.old self.new }
    {
        let runs = grid.runs();
        self.run += 1;
        self.count += u64::from(numbers.is_limited);
        if self.run < runs {
            return;
        }
        say(sources, grid, self.point, self.count, watcher);
        *self = Limits::at(self.point + 1);
    }

    /// Takes runs in, one after the other.
    pub fn add_all<W: Watcher>(
        &mut self,
        sources: &Sources,
        grid: &Grid,
        numbers: &[RunNumbers],
        watcher: &mut W,
    )
        requires run { self.old.run < length (runs grid.now) }
        requires within { next_counted grid.now self.old + length numbers.now
            ≤ length (points grid.now) * length (runs grid.now) }
        requires few { length (points grid.now) < 2 ^ 64 }
        ensures number { next_counted grid.now self.new ≡ next_counted grid.now self.old + length numbers.now }
        ensures run { self.new.run < length (runs grid.now) }
        ensures heard { TellsOn grid.now W.heard watcher.old watcher.new numbers.now self.old self.new }
    {
        for each in numbers {
            self.add(sources, grid, each, watcher);
        }
    }
}
