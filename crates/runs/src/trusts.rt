//! How often each process was trusted again.
ghost use Rattle.std.specs.Prelude.{◌≡◌, ℕ, ◌*◌, ◌==◌, ◌++◌, ◌∷◌, [], if◌then◌else◌, List, length, count_by, IfOk};
ghost use Rattle.{detector_bounds.specs.Detected.{is_trust}, runs.specs.Inside.Counting.{HasCounted}};

use process_api::{Entry, Follower, Note, Pid};
use scenario_record::Scenario;
use std::alloc::{AllocError, Global};

/// An observer trusts a subject once more. Numbers above `n` have no count.
fn count(counts: &mut [u32], n: usize, observer: Pid, subject: Pid)
    requires square { length counts.old ≡ n * n }
    ensures { HasCounted n observer (λ p. if subject == p then 1 else 0) counts.old counts.new }
{
    let row = usize::from(observer.number()) - 1;
    let column = usize::from(subject.number()) - 1;
    if row < n && column < n {
        let place = row * n + column;
        counts[place] = counts[place].saturating_add(1);
    }
}

/// One more note of an observer.
fn note(counts: &mut [u32], n: usize, observer: Pid, note: &Note)
    requires square { length counts.old ≡ n * n }
    ensures { HasCounted n observer (λ p. if is_trust p note.now then 1 else 0) counts.old counts.new }
{
    if let Note::Trust { layer: 1, who } = *note {
        count(counts, n, observer, who);
    }
}

/// All notes of an observer's entry.
#[inline(never)]
fn note_all(counts: &mut [u32], n: usize, observer: Pid, notes: &[Note])
    requires square { length counts.old ≡ n * n }
    ensures { HasCounted n observer (λ p. count_by (is_trust p) notes.now) counts.old counts.new }
{
    for one in notes {
        note(counts, n, observer, one);
    }
}

/// How often each process noted of each other one that it trusts it again, on layer 1, fed with the entries of a trace
/// as they come. Counts stay at the greatest number, should they reach it.
///
/// All its room is made as it opens.
#[derive(Drop)]
pub struct Trusts {
    /// How many processes there are.
    pub processes: u16,
    /// By observer and then by subject, a process and itself too.
    pub counts: Vec<u32>,
}

impl Trusts {
    ghost use Rattle.{process_api.specs.Order.{EntryRecord}, runs.specs.Finishing.{AreTrusts, trusts_of}};

    /// Nothing was fed.
    pub(crate) fn open(alloc: Global, scenario: &Scenario) -> Result<Trusts, AllocError>
        ensures { IfOk result (AreTrusts scenario.now.processes []) }
    {
        let processes = scenario.processes();
        let count = usize::from(processes) * usize::from(processes);
        let mut counts = Vec::with_capacity(alloc, count)?;
        for _ in 0..count {
            counts.push(0)?;
        }
        Ok(Trusts { processes, counts })
    }

    /// One more entry. Takes no memory.
    fn feed(&mut self, entry: &Entry)
        ensures { (n : ℕ) (trace : List EntryRecord) → AreTrusts n trace self.old
            → AreTrusts n (trace ++ entry.now ∷ []) self.new }
    {
        let processes = usize::from(self.processes);
        if self.counts.len() == processes * processes {
            note_all(
                &mut self.counts,
                processes,
                entry.key.receiver,
                entry.notes.as_slice(),
            );
        }
    }

    /// How often an observer trusted a subject again.
    pub fn of(&self, observer: Pid, subject: Pid) -> u32
        ensures { result ≡ trusts_of self.now observer subject }
    {
        let row = usize::from(observer.number()) - 1;
        let column = usize::from(subject.number()) - 1;
        match self.counts.get(row * usize::from(self.processes) + column) {
            None => 0,
            Some(count) => *count,
        }
    }
}

impl Follower for Trusts {
    ghost use Rattle.runs.specs.Finishing.{AreTrusts};

    ghost followed = { λ first now told. (n : ℕ) → AreTrusts n [] first → AreTrusts n told now };

    /// One more entry. Takes no memory; one without notes takes no time.
    #[inline(always)]
    fn follow(&mut self, entry: &Entry) -> Result<(), AllocError> {
        if entry.notes.is_empty() {
            return Ok(());
        }
        self.feed(entry);
        Ok(())
    }
}
