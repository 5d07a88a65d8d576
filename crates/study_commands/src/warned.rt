//! Who is warned.
ghost use Rattle.std.specs.Prelude.{◌≡◌, ℕ, List, [], ◌∷◌, false};
ghost use Rattle.trace_laws.specs.Taken.{HaveJoined};

use sweep::{Unwatched, Watcher};

/// Is told in lines, before the first run, what may mislead of a scenario or a study.
pub trait Warned: Watcher {
    /// The first, after it was told these lines in this order, is the second.
    ghost warned: { Self → List (List ℕ) → Self → Type 0 };

    /// Takes away what is shown, and then tells a line, which ends with a line feed.
    fn warn(&mut self, line: &str)
        ensures told { HaveJoined warned self.old self.new (line.now ∷ []) }
        ensures hidden { Self.shows self.new ≡ false };
}

impl Warned for Unwatched {
    ghost warned = { λ _ _ _. Unit {0} };

    fn warn(&mut self, _line: &str) {}
}
