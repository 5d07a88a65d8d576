//! Shards, as arguments of a command line.
ghost use Rattle.std.specs.Prelude.{◌≡◌, None, Some, IfOk, IfErr};
ghost use Rattle.study.specs.Words.{shard_said, shard_fault};

use crate::error::ShardError;
use crate::shard::Shard;
use crate::words::{is_natural_word, natural_up_to};

impl Shard {
    /// The shard that a word says: `K/N`, the K-th of N.
    ///
    /// # Errors
    ///
    /// The first reason against it, in the order of [`ShardError`].
    pub fn parse(word: &str) -> Result<Shard, ShardError>
        ensures ok { IfOk result (λ s. (shard_said word.now ≡ Some s) × (shard_fault (shard_said word.now) ≡ None)) }
        ensures err { IfErr result (λ e. shard_fault (shard_said word.now) ≡ Some e) }
    {
        let Some((number, of)) = word.split_once('/') else {
            return Err(ShardError::NoShard);
        };
        if !is_natural_word(number) || !is_natural_word(of) {
            return Err(ShardError::NoShard);
        }
        let most = u64::from(u32::MAX);
        match (natural_up_to(number, most), natural_up_to(of, most)) {
            (Some(number), Some(of)) => {
                Shard::new(number as u32, of as u32).ok_or(ShardError::OutOfRange)
            }
            _ => Err(ShardError::OutOfRange),
        }
    }
}
