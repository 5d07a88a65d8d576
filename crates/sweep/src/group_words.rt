//! Groups of pairs, as arguments of a command line.
ghost use Rattle.std.specs.Prelude.{◌≡◌, ◌≢◌, true, false, map, option_map, IfOk, IfErr, MatchOption};
ghost use Rattle.study.specs.Words.{bounds, is_natural, natural};
ghost use Rattle.sweep.specs.{Inside.Private.{AreEnds}, GroupWords.{SayBlocks, SayNoBlocks, SaysGroup, SaysNoGroup, block_said, ends_said, is_process, side_said}};
ghost use Rattle.sweep.specs.declared.error.GroupError.TheVariants as reason;

use crate::error::GroupError;
use crate::group::{PairBlock, PairGroup, Processes};
use std::alloc::Global;
use study::{is_natural_word, natural_in, words_between};

/// The number of a process: 1 to 256.
fn process_in(word: &str) -> Option<u16>
    requires { is_natural word.now ≡ true }
    ensures { MatchOption result (is_process (natural word.now) ≡ false)
        (λ p. (p ≡ natural word.now) × (is_process p ≡ true)) }
{
    match natural_in(word) {
        Some(number) if number >= 1 && number <= 256 => Some(number as u16),
        _ => None,
    }
}

/// What stands before and after `..=`, where a word has that at its first dot.
fn bounds_in(word: &str) -> Option<(&str, &str)>
    ensures { option_map (λ b. (b.0.now, b.1.now)) result ≡ bounds word.now }
{
    let (low, rest) = word.split_once('.')?;
    let high = rest.strip_prefix(".=")?;
    Some((low, high))
}

/// The words of the first process and the last.
fn ends_in(word: &str) -> Option<(&str, &str)>
    ensures { MatchOption result (ends_said word.now ≡ None) (λ ends. AreEnds word.now ends.0.now ends.1.now) }
{
    if is_natural_word(word) {
        return Some((word, word));
    }
    let (first, last) = bounds_in(word)?;
    if is_natural_word(first) && is_natural_word(last) {
        Some((first, last))
    } else {
        None
    }
}

/// The processes that a side of a block says.
fn side_in(word: &str) -> Result<Processes, GroupError>
    ensures { result ≡ side_said word.now }
{
    match ends_in(word) {
        None => Err(GroupError::NoGroup),
        Some((first, last)) => match (process_in(first), process_in(last)) {
            (Some(first), Some(last)) if first <= last => Ok(Processes { first, last }),
            (Some(_), Some(_)) => Err(GroupError::EmptyRange),
            _ => Err(GroupError::NoProcess),
        },
    }
}

/// The block that a part of a word says.
fn block_in(word: &str) -> Result<PairBlock, GroupError>
    ensures { result ≡ block_said word.now }
{
    let Some((observers, subjects)) = word.split_once(':') else {
        return Err(GroupError::NoGroup);
    };
    let observers = side_in(observers)?;
    let subjects = side_in(subjects)?;
    Ok(PairBlock {
        observers,
        subjects,
    })
}

/// The blocks that these words say.
fn blocks_in(alloc: Global, words: &[&str]) -> Result<Vec<PairBlock>, GroupError>
    ensures ok { IfOk result (λ v. SayBlocks (map (λ x. x.now) words.now) v.items) }
    ensures err { IfErr result (λ e. e ≢ reason.Memory → SayNoBlocks (map (λ x. x.now) words.now) e) }
{
    let mut blocks = Vec::new(alloc);
    for word in words {
        let block = block_in(word)?;
        if blocks.push(block).is_err() {
            return Err(GroupError::Memory);
        }
    }
    Ok(blocks)
}

impl PairGroup {
    /// The group that a word says: `OBSERVERS:SUBJECTS`, or several of these with a `+` between two. Each side is
    /// `A..=B`, the processes from A to B, or `A`, that one; they are numbered from 1, and 256 is the highest. A pair
    /// that comes twice is one of the group all the same.
    ///
    /// # Errors
    ///
    /// Of the first part that is at fault the first reason against it, in the order of [`GroupError`], first of its
    /// observers and then of its subjects; or `Memory`.
    pub fn parse(alloc: Global, word: &str) -> Result<PairGroup, GroupError>
        ensures ok { IfOk result (SaysGroup word.now) }
        ensures err { IfErr result (λ e. e ≢ reason.Memory → SaysNoGroup word.now e) }
    {
        let parts = words_between(alloc, word, '+')?;
        let blocks = blocks_in(alloc, &parts)?;
        let word = String::from_str(alloc, word)?;
        Ok(PairGroup { word, blocks })
    }
}
