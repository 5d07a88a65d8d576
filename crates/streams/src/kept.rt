//! Words of letters that are at hand.
ghost use Rattle.std.specs.Prelude.{◌≡◌, ◌≢◌, ◌≤◌, ◌<◌, ◌+◌, ◌*◌, ◌%◌, ℕ, IfOk, MatchOption, ⊤, length, slice_index_or};
ghost use Rattle.streams.specs.Fate.{none, AreDrawn, AreWordsOf, Fits, IsBefore, IsRun};

use crate::words::next_pair;
use process_api::Pid;
use rand_chacha::ChaCha8Rng;
use std::alloc::{AllocError, Global};

/// How many letters of a link share a draw: their words are four blocks of ChaCha, which come together.
pub(crate) const LETTERS: usize = 32;

/// A process's number has 16 bits, so that no receiver has its place at this one or beyond.
const MOST_PLACES: usize = 65_536;

/// The two words of a letter.
#[derive(Clone, Copy)]
pub(crate) struct Pair {
    pub first: u32,
    pub second: u32,
}

/// No letter's words.
const NONE: Pair = Pair {
    first: 0,
    second: 0,
};

/// The number of the first of the letters that share a letter's draw.
#[inline(always)]
pub(crate) fn begin_of(number: u64) -> u64
    requires { 1 ≤ number }
    ensures { (1 ≤ result) × (result ≤ number) × (number < result + 32) }
{
    number - (number - 1) % LETTERS as u64
}

/// Draws the words of 32 letters, and writes those of one into each row, at the receiver's place.
fn draw_run(pairs: &mut [Pair], mut generator: ChaCha8Rng, place: usize, places: usize)
    requires place { (place < places) × (places ≤ 65536) }
    requires rows { length pairs.old ≡ 32 * places }
    ensures run { (seed from begin : ℕ) → 1 ≤ begin → IsBefore seed from place begin generator
        → IsRun 32 seed from place begin places pairs.new }
    ensures others { (k : ℕ) → k % places ≢ place
        → slice_index_or pairs.new k none ≡ slice_index_or pairs.old k none }
{
    for row in 0..LETTERS {
        let (first, second) = next_pair(&mut generator);
        pairs[row * places + place] = Pair { first, second };
    }
}

/// The words of one draw's letters to each receiver, in 32 rows with a place for each. Letters with the same number on
/// several links have their words side by side, since a sender often sends to all.
#[derive(Drop)]
pub(crate) struct Kept {
    // by receiver: the number of the letter whose words are in the first row, and 0 where none are kept
    begins: Vec<u64>,
    // row after row, once words were kept. Until then there is only memory for them, which is touched first by whoever
    // draws first
    pairs: Vec<Pair>,
}

impl Kept {
    /// None, with memory for those of receivers below so many.
    ///
    /// # Errors
    ///
    /// `AllocError` where memory was refused.
    pub fn new(alloc: Global, places: usize) -> Result<Kept, AllocError>
        ensures fits { IfOk result Fits }
        ensures none { IfOk result (λ kept. (seed from : ℕ) → AreDrawn seed from kept) }
    {
        let places = places.min(MOST_PLACES);
        let begins = vec![in alloc; 0u64; places]?;
        let pairs = Vec::with_capacity(alloc, LETTERS * places)?;
        Ok(Kept { begins, pairs })
    }

    /// The words of a letter to this receiver, where they are kept.
    #[inline(always)]
    pub fn find(&self, to: Pid, number: u64) -> Option<Pair>
        requires fits { Fits self.now }
        requires number { 1 ≤ number }
        ensures { MatchOption result ⊤ (λ pair. (seed from : ℕ) → AreDrawn seed from self.now
            → AreWordsOf seed from to number pair.first pair.second) }
    {
        let place = usize::from(to.number());
        let begin = begin_of(number);
        if place >= self.begins.len() || self.begins[place] != begin {
            return None;
        }
        let at = (number - begin) as usize * self.begins.len() + place;
        if at < self.pairs.len() {
            return Some(self.pairs[at]);
        }
        None
    }

    /// Makes ready to keep words: of no letter, where none were kept.
    pub fn make_ready(&mut self)
        requires fits { Fits self.old }
        ensures fits { Fits self.new }
        ensures drawn { (seed from : ℕ) → AreDrawn seed from self.old → AreDrawn seed from self.new }
    {
        if self.pairs.is_empty() {
            self.begins.fill(0);
            // there is memory for them, and without any no words are kept
            drop(self.pairs.resize(LETTERS * self.begins.len(), NONE));
        }
    }

    /// Draws the words of 32 letters to a receiver, from this one on, and keeps them. None are kept where the receiver
    /// has no place.
    pub fn keep(&mut self, generator: ChaCha8Rng, to: Pid, begin: u64)
        requires fits { Fits self.old }
        requires begin { 1 ≤ begin }
        ensures fits { Fits self.new }
        ensures drawn { (seed from : ℕ) → IsBefore seed from to begin generator
            → AreDrawn seed from self.old → AreDrawn seed from self.new }
    {
        let place = usize::from(to.number());
        let places = self.begins.len();
        if place < places && self.pairs.len() == LETTERS * places {
            draw_run(&mut self.pairs, generator, place, places);
            self.begins[place] = begin;
        }
    }

    /// Throws all away.
    pub fn clear(&mut self)
        requires fits { Fits self.old }
        ensures fits { Fits self.new }
        ensures none { (seed from : ℕ) → AreDrawn seed from self.new }
    {
        self.pairs.clear();
    }
}
