//! Where the entries of a run go.
ghost use Rattle.std.specs.Prelude.{◌≡◌, ◌+◌, ◌-◌, ◌^◌, ◌<◌, ℕ, List, OnOk, OnErr, IfErr};
ghost use Rattle.{process_api.specs.Order.{EntryRecord}, windows.specs.Stage.{IsRefusalOfSink, writes_of}};

use process_api::{Entry, RunError};

/// Takes the entries of a run, part by part, in the order of their keys.
pub trait Sink {
    /// From one moment to another it took these entries, behind those from before.
    ghost took: { Self → List EntryRecord → Self → Type 0 };

    /// From one moment to another it took a front of these entries, and was refused then.
    ghost took_front: { Self → List EntryRecord → Self → Type 0 };

    /// How many parts couldn't be written.
    ghost failed: { Self → ℕ };

    /// Takes one part more.
    ///
    /// # Errors
    ///
    /// `Memory` where memory was refused, `Write` where the part couldn't be written. A front of the part was taken
    /// then, and nothing more may be handed on.
    fn part(&mut self, entries: Vec<Entry>) -> Result<(), RunError>
        requires { failed self.old < 2 ^ 64 - 1 }
        ensures whole { OnOk result (took self.old entries.items self.new) }
        ensures front { OnErr result (took_front self.old entries.items self.new) }
        ensures errors { IfErr result IsRefusalOfSink }
        ensures count { failed self.new ≡ failed self.old + writes_of result };

    /// How many parts couldn't be written.
    fn failures(&self) -> u64
        ensures { result ≡ failed self.now };
}

/// Keeps the entries of all parts, in one list.
impl Sink for Vec<Entry> {
    ghost use Rattle.std.specs.Prelude.{◌≡◌, ◌++◌, ℕ, take};

    ghost took = { λ old part new. new.items ≡ old.items ++ part };

    ghost took_front = { λ old part new. (n : ℕ) × (new.items ≡ old.items ++ take n part) };

    ghost failed = { λ _. 0 };

    fn part(&mut self, mut entries: Vec<Entry>) -> Result<(), RunError> {
        self.append(&mut entries)?;
        Ok(())
    }

    fn failures(&self) -> u64 {
        0
    }
}
