//! What the starter does while the workers of a window run.
ghost use Rattle.std.specs.{Prelude.{◌≡◌}, Borrow.{GName}};

use process_api::Entry;
use std::alloc::Global;

/// What the starter does beside the workers of a window.
pub(crate) trait Chore {
    /// It waits to be done.
    ghost waits: { Self → Type 0 };

    /// From one moment to another it was done.
    ghost done: { Self → Self → Type 0 };

    /// The borrow by which it reaches what it works on.
    ghost place: { Self → GName };

    /// Does it.
    fn work(&mut self, alloc: Global)
        requires { waits self.old }
        ensures done { done self.old self.new }
        ensures place { place self.new ≡ place self.old };

    /// Gives up lists in whose memory the next window's parts may lie. It stays as done as it is.
    fn rooms(&mut self, alloc: Global) -> Vec<Vec<Entry>>
        ensures done { (before : Self) → done before self.old → done before self.new }
        ensures place { place self.new ≡ place self.old };
}

/// There is nothing to do.
impl Chore for () {
    ghost waits = { λ _. Unit {0} };

    ghost done = { λ _ _. Unit {0} };

    ghost place = { λ _. 0 };

    fn work(&mut self, _alloc: Global) {}

    fn rooms(&mut self, alloc: Global) -> Vec<Vec<Entry>> {
        Vec::new(alloc)
    }
}
