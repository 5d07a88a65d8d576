//! Who is told how far a sweep has come.
ghost use Rattle.std.specs.Prelude.{◌≡◌, ◌<◌, ◌∷◌, [], ℕ, false, Bool, List, length};
ghost use Rattle.{trace_laws.specs.Taken.{HaveJoined}, study.specs.Grid.{points}};

use study::{Grid, Sources};

/// What is done with the runs of a sweep, one after the other.
#[derive(Clone, Copy, Debug, PartialEq, Eq)]
pub enum Pass {
    /// Their scenarios are read.
    Reading,
    /// They are run.
    Running,
}

/// How far a sweep has come.
#[derive(Clone, Copy, Debug, PartialEq, Eq)]
pub struct Standing {
    /// What is done with the runs.
    pub pass: Pass,
    /// How many points are swept: of a shard its own.
    pub points: u64,
    /// How many runs each of them has.
    pub runs: u64,
    /// With how many of all these runs it is done.
    pub done: u64,
}

/// Is told how far a sweep has come, and may show it. Whatever it does, the sweep answers and writes the same.
pub trait Watcher {
    /// The first, after it was told of these points' limits in this order, is the second: of a point, from 0, and of
    /// how many of its runs passed theirs.
    ghost heard: { Self → List (ℕ × ℕ) → Self → Type 0 };

    /// Whether something that it has shown still stands there.
    ghost shows: { Self → Bool };

    /// The sweep has come so far.
    fn hear(&mut self, standing: Standing)
        ensures { HaveJoined heard self.old self.new [] };

    /// The last run of a point of this study, from 0, is in, and so many of the point's runs passed their limit. The
    /// watcher takes away what it shows before it tells that.
    fn limited(&mut self, sources: &Sources, grid: &Grid, point: u64, count: u64)
        requires { point < length (points grid.now) }
        ensures told { HaveJoined heard self.old self.new ((point, count) ∷ []) }
        ensures hidden { shows self.new ≡ false };

    /// Rows are to go out now, maybe where it shows something.
    fn make_way(&mut self)
        ensures { HaveJoined heard self.old self.new [] };

    /// The sweep is over: what is shown is taken away.
    fn hide(&mut self)
        ensures same { HaveJoined heard self.old self.new [] }
        ensures hidden { shows self.new ≡ false };
}

/// Hears of everything and shows nothing.
#[derive(Clone, Copy)]
pub struct Unwatched;

impl Watcher for Unwatched {
    ghost heard = { λ _ _ _. Unit {0} };

    ghost shows = { λ _. false };

    fn hear(&mut self, _standing: Standing) {}

    fn limited(&mut self, _sources: &Sources, _grid: &Grid, _point: u64, _count: u64) {}

    fn make_way(&mut self) {}

    fn hide(&mut self) {}
}
