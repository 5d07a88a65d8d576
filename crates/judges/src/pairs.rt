//! All pairs of processes, as a trace goes by.
ghost use Rattle.std.specs.Prelude.{◌≡◌, ℕ, ◌+◌, ◌*◌, ◌<◌, ◌≤◌, [], ◌==◌, if◌then◌else◌, Some, length, vec_len, get_or, IfOk};
ghost use Rattle.{process_api.specs.Place.{most_processes}, scenario_record.specs.Record.{Record}};
ghost use Rattle.judges.specs.{Inside.Private.{opened_at}, Turns.{AreTurned, noted_turns, turn_of, turns_at}, declared.pair.Pair.{Pair}};

use crate::ends::end_ticks;
use crate::pair::{Gauge, Pair, turn_of};
use process_api::{Entry, Key, Note, Pid};
use scenario_record::Scenario;
use std::alloc::{AllocError, Global};

/// The pair at a place, by observer and then by subject.
fn pair_at<K: Gauge>(ends: &[u32], kept: K, place: usize) -> Pair<K>
    requires inside { place < length ends.now * length ends.now }
    ensures { result ≡ opened_at ends.now kept place }
{
    let observer = ends[place / ends.len()];
    let subject = ends[place % ends.len()];
    Pair::open(observer.min(subject), kept)
}

/// All pairs, as they open.
fn open_pairs<K: Gauge>(alloc: Global, ends: &[u32], kept: K) -> Result<Vec<Pair<K>>, AllocError>
    requires { length ends.now ≤ most_processes }
    ensures count { IfOk result (λ pairs. vec_len pairs ≡ length ends.now * length ends.now) }
    ensures each { IfOk result (λ pairs. (k : ℕ) (d : Pair K) → k < length ends.now * length ends.now
        → get_or pairs.items k d ≡ opened_at ends.now kept k) }
{
    let count = ends.len() * ends.len();
    let mut pairs = Vec::with_capacity(alloc, count)?;
    for place in 0..count {
        pairs.push(pair_at(ends, kept, place))?;
    }
    Ok(pairs)
}

/// One process begins or ceases to suspect another. Numbers above `n` have no pair.
fn turn<K: Gauge>(
    pairs: &mut [Pair<K>],
    n: usize,
    observer: Pid,
    subject: Pid,
    tick: u32,
    suspected: bool,
)
    requires square { length pairs.old ≡ n * n }
    ensures { AreTurned K.passed n pairs.old pairs.new
        (λ q p. if observer == q then turns_at p tick (Some (subject, suspected)) else []) }
{
    let row = usize::from(observer.number()) - 1;
    let column = usize::from(subject.number()) - 1;
    if row < n && column < n {
        pairs[row * n + column].turn(tick, suspected);
    }
}

/// One more note of the process that took an entry.
fn note<K: Gauge>(pairs: &mut [Pair<K>], n: usize, layer: u8, key: &Key, note: &Note)
    requires square { length pairs.old ≡ n * n }
    ensures { AreTurned K.passed n pairs.old pairs.new
        (λ q p. if key.now.receiver == q then turns_at p key.now.tick (turn_of layer note.now) else []) }
{
    if let Some((who, suspected)) = turn_of(layer, note) {
        turn(pairs, n, key.receiver, who, key.tick, suspected);
    }
}

/// All notes of an entry.
#[inline(never)]
fn note_all<K: Gauge>(pairs: &mut [Pair<K>], n: usize, layer: u8, key: Key, notes: &[Note])
    requires square { length pairs.old ≡ n * n }
    ensures { AreTurned K.passed n pairs.old pairs.new
        (λ q p. if key.receiver == q then noted_turns layer p key.tick notes.now else []) }
{
    for one in notes {
        note(pairs, n, layer, &key, one);
    }
}

/// What is kept of all pairs on one layer, fed with the entries of a trace as they come, in the order of their keys.
///
/// All its room is made as it opens. It moves only at notes.
#[derive(Drop)]
pub struct Pairs<K> {
    layer: u8,
    processes: usize,
    horizon: u32,
    // by observer and then by subject, a process and itself too
    pairs: Vec<Pair<K>>,
    ghost square: { vec_len pairs ≡ processes * processes },
    ghost few: { processes ≤ most_processes },
}

impl<K: Gauge> Pairs<K> {
    ghost use Rattle.judges.specs.Pairs.{ArePairs, WasFed};

    /// Pairs that were fed with nothing: of layer 1, the base detector, or layer 2, the reduction's output. Of each is
    /// kept what is given.
    ///
    /// # Errors
    ///
    /// Where a growth was refused.
    pub fn open(
        alloc: Global,
        scenario: &Scenario,
        layer: u8,
        kept: K,
    ) -> Result<Pairs<K>, AllocError>
        ensures { IfOk result (λ pairs. ArePairs K.passed scenario.now layer kept [] pairs) }
    {
        let ends = end_ticks(alloc, scenario)?;
        let pairs = open_pairs(alloc, &ends, kept)?;
        Ok(Pairs {
            layer,
            processes: ends.len(),
            horizon: scenario.horizon(),
            pairs,
        })
    }

    /// One more entry. Takes no memory.
    #[inline(always)]
    pub fn feed(&mut self, entry: &Entry)
        ensures { (S : Record) (layer : ℕ) (kept : K)
            → WasFed (ArePairs K.passed S layer kept) entry.now self.old self.new }
    {
        if entry.key.tick < self.horizon {
            note_all(
                &mut self.pairs,
                self.processes,
                self.layer,
                entry.key,
                entry.notes.as_slice(),
            );
        }
    }

    /// The layer.
    pub fn layer(&self) -> u8
        ensures { result ≡ self.now.layer }
    {
        self.layer
    }

    /// How many processes there are.
    pub fn processes(&self) -> usize
        ensures { result ≡ self.now.processes }
    {
        self.processes
    }

    /// The tick before which the run ends.
    pub fn horizon(&self) -> u32
        ensures { result ≡ self.now.horizon }
    {
        self.horizon
    }

    /// The process that comes after so many others.
    pub fn process(&self, before: usize) -> Pid
        requires { before < self.now.processes }
        ensures { result ≡ before + 1 }
    {
        Pid::after(before as u16)
    }

    /// An observer and a subject, each by how many processes come before it.
    pub fn pair(&self, row: usize, column: usize) -> Pair<K>
        requires row { row < self.now.processes }
        requires column { column < self.now.processes }
        ensures { (d : Pair K) → result ≡ get_or self.now.pairs.items (row * self.now.processes + column) d }
    {
        self.pairs[row * self.processes + column]
    }
}
