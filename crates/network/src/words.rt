//! The words of a source, in turn.
ghost use Rattle.std.specs.Prelude.{◌≡◌, ◌<◌, ◌^◌};
ghost use Rattle.{streams.specs.Fate.{key_of_seed}, network.specs.{Words.{after, words_of}, Inside.Coming.{to_come}}};

use rand_chacha::ChaCha8Rng;
use rand_core::SeedableRng;
use rand_core::utils::NextWord;
use std::marker::Model;

/// The words of a source that it hasn't taken yet. Contracts see the generator, of which `to_come` gives the words
/// (`specs/Inside/Coming.antt`).
#[derive(Drop)]
pub(crate) struct SourceWords {
    generator: ChaCha8Rng,
}

impl Model for SourceWords {
    ghost use Rattle.std.specs.Prelude.{◌<◌, ◌^◌};
    ghost use Rattle.rand_chacha.specs.ChaCha.{ChaCha};

    ghost Value = { ChaCha };

    ghost view = { λ w. w.generator };

    ghost invariant = { λ w. w.generator.word_pos < 2 ^ 68 };
}

/// The generator of a seed, at the start of stream 0.
#[tactic(auto, unfolding(streams::specs::Fate::key_of_seed))]
fn generator_of(seed: u64) -> ChaCha8Rng
    ensures key { result.key ≡ key_of_seed seed }
    ensures start { result.word_pos ≡ 0 }
{
    let mut key = [0u8; 32];
    key[..8].copy_from_slice(&seed.to_le_bytes());
    ChaCha8Rng::from_seed(key)
}

impl SourceWords {
    /// All words of a stream under a seed.
    pub(crate) fn new(seed: u64, stream: u64) -> SourceWords
        ensures { to_come result ≡ words_of seed stream }
    {
        let mut generator = generator_of(seed);
        generator.set_stream(stream);
        SourceWords { generator }
    }

    /// The next word.
    pub(crate) fn next(&mut self) -> u32
        ensures value { result ≡ to_come self.old 0 }
        ensures rest { to_come self.new ≡ after 1 (to_come self.old) }
    {
        self.generator.next_word()
    }
}
