//! Random words of a sender's links.
ghost use Rattle.std.specs.Prelude.{◌≡◌, ◌≤◌, ◌<◌, ◌+◌, ◌-◌, ◌*◌, ◌^◌, ℕ, IfOk, MatchOption, ⊤};
ghost use Rattle.streams.specs.Fate.{key_of_seed, stream_of, word, AreDrawn, AreWordsOf, Fits, IsBefore, stands_at};

use crate::kept::{Kept, begin_of};
use process_api::Pid;
use rand_chacha::ChaCha8Rng;
use rand_core::SeedableRng;
use rand_core::utils::NextWord;
use std::alloc::{AllocError, Global};
use std::marker::Model;

/// Words of a sender's links that are at hand for their next letters. Nothing that is answered depends on them: others
/// are drawn where the seed, the sender or the letter is another one. Contracts see the seed and the sender.
#[derive(Drop)]
pub struct SenderWords {
    seed: u64,
    // the sender's number
    from: u16,
    kept: Kept,
}

impl Model for SenderWords {
    ghost use Rattle.{std.specs.Prelude.{ℕ}, streams.specs.Fate.{AreDrawn, Fits}};

    ghost Value = { ℕ × ℕ };

    ghost view = { λ w. (w.seed, w.from) };

    ghost invariant = { λ w. Fits w.kept × AreDrawn w.seed w.from w.kept };
}

/// The generator of a seed, at the start of stream 0.
#[tactic(auto, unfolding(crate::specs::Fate::key_of_seed))]
fn generator_of(seed: u64) -> ChaCha8Rng
    ensures { result.key ≡ key_of_seed seed }
{
    let mut key = [0u8; 32];
    key[..8].copy_from_slice(&seed.to_le_bytes());
    ChaCha8Rng::from_seed(key)
}

/// The number of a link's stream.
fn stream_between(from: Pid, to: Pid) -> u64
    ensures { result ≡ stream_of from to }
{
    let row = u64::from(from.number()) - 1;
    let column = u64::from(to.number()) - 1;
    row * 65536 + column
}

/// The generator of a link's stream, where the words of the letter with this number come next.
fn generator_at(seed: u64, from: Pid, to: Pid, number: u64) -> ChaCha8Rng
    requires { 1 ≤ number }
    ensures { IsBefore seed from to number result }
{
    let mut generator = generator_of(seed);
    generator.set_stream(stream_between(from, to));
    generator.set_word_pos(2 * (u128::from(number) - 1));
    generator
}

/// The next two words.
#[tactic(auto, unfolding(crate::specs::Fate::word))]
pub(crate) fn next_pair(generator: &mut ChaCha8Rng) -> (u32, u32)
    ensures words { (seed from to k : ℕ) → k < 2 ^ 64
        → IsBefore seed from to k generator.old → AreWordsOf seed from to k result.0 result.1 }
    ensures next { (seed from to k : ℕ) → 1 ≤ k → k < 2 ^ 64
        → IsBefore seed from to k generator.old → generator.new ≡ stands_at seed from to (2 * k) }
{
    let first = generator.next_word();
    let second = generator.next_word();
    (first, second)
}

/// The words of a letter of a link, by its number from 1.
pub(crate) fn pair_of(seed: u64, from: Pid, to: Pid, number: u64) -> (u32, u32)
    requires { 1 ≤ number }
    ensures { AreWordsOf seed from to number result.0 result.1 }
{
    next_pair(&mut generator_at(seed, from, to, number))
}

impl SenderWords {
    /// No words yet of a sender's links to receivers below so many, under a seed.
    ///
    /// # Errors
    ///
    /// `AllocError` where memory was refused.
    pub fn new(
        alloc: Global,
        seed: u64,
        from: Pid,
        places: usize,
    ) -> Result<SenderWords, AllocError>
        ensures { IfOk result (λ words. words ≡ (seed, from)) }
    {
        Ok(SenderWords {
            seed,
            from: from.number(),
            kept: Kept::new(alloc, places)?,
        })
    }

    /// Makes sure that the words at hand are of this seed and sender. Where they were of others, none are kept from
    /// then on.
    fn turn_to(&mut self, seed: u64, from: Pid)
        ensures { self.new ≡ (seed, from) }
    {
        if self.seed == seed && self.from == from.number() {
            return;
        }
        self.kept.clear();
        self.seed = seed;
        self.from = from.number();
    }

    /// The words of a letter, where they are at hand.
    #[inline(always)]
    fn find(&self, to: Pid, number: u64) -> Option<(u32, u32)>
        requires { 1 ≤ number }
        ensures { MatchOption result ⊤
            (λ pair. AreWordsOf self.now.0 self.now.1 to number pair.0 pair.1) }
    {
        let pair = self.kept.find(to, number)?;
        Some((pair.first, pair.second))
    }

    /// Draws the words of a letter, with those of the letters that share its draw, and keeps them.
    #[inline(never)]
    fn draw(&mut self, from: Pid, to: Pid, number: u64) -> (u32, u32)
        requires number { 1 ≤ number }
        requires from { self.old.1 ≡ from }
        ensures { AreWordsOf self.old.0 from to number result.0 result.1 }
    {
        let begin = begin_of(number);
        let generator = generator_at(self.seed, from, to, begin);
        self.kept.make_ready();
        self.kept.keep(generator, to, begin);
        match self.find(to, number) {
            Some(pair) => pair,
            // memory was refused, or the receiver has no place
            None => pair_of(self.seed, from, to, number),
        }
    }

    /// The words of a letter of a link, by its number from 1. Where they aren't at hand they are drawn, with those of
    /// the letters that share its draw. The draw stands apart, so that words at hand are found with no call.
    #[inline(always)]
    pub fn pair_at(&mut self, seed: u64, from: Pid, to: Pid, number: u64) -> (u32, u32)
        requires { 1 ≤ number }
        ensures { AreWordsOf seed from to number result.0 result.1 }
    {
        self.turn_to(seed, from);
        match self.find(to, number) {
            Some(pair) => pair,
            None => self.draw(from, to, number),
        }
    }
}
