//! Studies, as arguments of a command line.
ghost use Rattle.std.specs.{Prelude.{◌≡◌, false, Some, IfOk, IfErr, map, option_map}, List.{AllZip}};
ghost use Rattle.study_commands.specs.{Fault.{IsOfWords, IsOfWordsFor}, Study.{IsGrid, IsShardOf}, WordRefusals.{HasNoAxis, HasNoGroup, SaysNoGrid, SaysNoSeeds, SaysNoShard, is_group_memory}};
ghost use Rattle.study.specs.{AxisWords.{SaysAxis, is_memory}, Words.{seeds_said}};
ghost use Rattle.sweep.specs.GroupWords.{SaysGroup};

use crate::fault::Fault;
use printable::Printable;
use std::alloc::{AllocError, Global};
use std::fmt::Debug;
use study::{Axis, AxisError, Grid, GridError, KeyError, Seeds, SeedsError, Shard};
use study_line::GridTexts;
use sweep::{GroupError, PairGroup};

/// The fault of a word that is refused for this reason.
fn refused_word<E: Debug>(alloc: Global, word: &str, error: &E) -> Fault
    ensures { IsOfWords result }
{
    let word = Printable(word);
    Fault::of_words(format!(in alloc; "fdstudy: words: {error:?}: {word}\n"))
}

/// Why a word says no axis.
fn axis_fault(alloc: Global, word: &str, error: &AxisError) -> Fault
    ensures { IsOfWordsFor (is_memory error.now ≡ false) result }
{
    match error {
        AxisError::Memory(_) | AxisError::Key(KeyError::Memory(_)) => Fault::WordsMemory,
        AxisError::Key(error) => refused_word(alloc, word, error),
        _ => refused_word(alloc, word, error),
    }
}

/// The axes that words say, one after the other.
fn axes_of(alloc: Global, words: &[&str]) -> Result<Vec<Axis>, Fault>
    ensures axes { IfOk result (λ v. AllZip SaysAxis (map (λ w. w.now) words.now) v.items) }
    ensures refused { IfErr result (IsOfWordsFor (HasNoAxis (map (λ w. w.now) words.now))) }
{
    let mut axes = Vec::new(alloc);
    for word in words {
        let axis = match Axis::parse(alloc, word) {
            Ok(axis) => axis,
            Err(error) => return Err(axis_fault(alloc, word, &error)),
        };
        axes.push(axis).map_err(|_| Fault::WordsMemory)?;
    }
    Ok(axes)
}

/// The fault of a word that says no group of pairs, with what would.
fn group_fault(alloc: Global, word: &str, error: &GroupError) -> Fault
    ensures { IsOfWordsFor (is_group_memory error.now ≡ false) result }
{
    let hint = match error {
        GroupError::NoGroup => "pairs are OBSERVERS:SUBJECTS, each A..=B or A, joined by +",
        GroupError::NoProcess => "processes are 1 to 256",
        GroupError::EmptyRange => "processes are A..=B with A at most B",
        GroupError::Memory => return Fault::WordsMemory,
    };
    let word = Printable(word);
    Fault::of_words(format!(in alloc; "fdstudy: words: {error:?}: {word} ({hint})\n"))
}

/// The groups of pairs that words say, one after the other.
pub(crate) fn groups_of(alloc: Global, words: &[&str]) -> Result<Vec<PairGroup>, Fault>
    ensures groups { IfOk result (λ v. AllZip SaysGroup (map (λ w. w.now) words.now) v.items) }
    ensures refused { IfErr result (IsOfWordsFor (HasNoGroup (map (λ w. w.now) words.now))) }
{
    let mut groups = Vec::new(alloc);
    for word in words {
        let group = match PairGroup::parse(alloc, word) {
            Ok(group) => group,
            Err(error) => return Err(group_fault(alloc, word, &error)),
        };
        groups.push(group).map_err(|_| Fault::WordsMemory)?;
    }
    Ok(groups)
}

/// The fault of a word that says no seeds, with what would.
fn seeds_fault(alloc: Global, word: &str, error: SeedsError) -> Fault
    ensures { IsOfWords result }
{
    let word = Printable(word);
    let hint = match error {
        SeedsError::NoSeeds => "seeds are A..=B or A",
        SeedsError::SeedTooHigh => "a seed is at most 9223372036854775807",
        SeedsError::EmptyRange => "seeds are A..=B with A at most B",
    };
    Fault::of_words(format!(in alloc; "fdstudy: words: {error:?}: {word} ({hint})\n"))
}

/// The seeds that a word says.
fn seeds_of(alloc: Global, word: &str) -> Result<Seeds, Fault>
    ensures seeds { IfOk result (λ s. seeds_said word.now ≡ Some (s.first, s.last)) }
    ensures refused { IfErr result (IsOfWordsFor (SaysNoSeeds word.now)) }
{
    Seeds::parse(word).map_err(|error| seeds_fault(alloc, word, error))
}

/// The fault of axes and seeds that make no grid, with the key or the numbers for which they don't.
fn grid_fault(alloc: Global, error: &GridError) -> Fault
    ensures { IsOfWords result }
{
    let line = match error {
        GridError::NoSeed | GridError::SeedTooHigh => format!(in alloc;
            "fdstudy: words: {error:?}\n"
        ),
        GridError::KeyTwice(key) => {
            let key = Printable(key.as_str());
            format!(in alloc; "fdstudy: words: KeyTwice: {key}\n")
        }
        GridError::TooManyPoints { points } => {
            format!(in alloc; "fdstudy: words: TooManyPoints: {points} of at most 1000000\n")
        }
        GridError::Uneven { seeds, dealt } => format!(in alloc;
            "fdstudy: words: Uneven: {seeds} seeds can't be dealt to {dealt} settings alike\n"
        ),
        GridError::TooManyRuns { runs } => {
            format!(in alloc; "fdstudy: words: TooManyRuns: {runs} of at most 1000000000000\n")
        }
        GridError::Memory(_) => Err(AllocError),
    };
    Fault::of_words(line)
}

/// The grid that the words of a study say.
pub(crate) fn grid_of(alloc: Global, words: &GridTexts<'_>) -> Result<Grid, Fault>
    ensures grid { IfOk result (λ g. IsGrid words.now g) }
    ensures refused { IfErr result (IsOfWordsFor (SaysNoGrid words.now)) }
{
    let vary = axes_of(alloc, &words.vary)?;
    let over = axes_of(alloc, &words.over)?;
    let deal = axes_of(alloc, &words.deal)?;
    let seeds = seeds_of(alloc, words.seeds)?;
    match Grid::new(alloc, vary, over, deal, seeds.first, seeds.last) {
        Ok(grid) => Ok(grid),
        Err(GridError::Memory(_)) => Err(Fault::WordsMemory),
        Err(error) => Err(grid_fault(alloc, &error)),
    }
}

/// The shard that a word says, and all points where there is no word.
pub(crate) fn shard_of(alloc: Global, word: Option<&str>) -> Result<Shard, Fault>
    ensures shard { IfOk result (IsShardOf (option_map (λ w. w.now) word.entry)) }
    ensures refused { IfErr result (IsOfWordsFor (SaysNoShard (option_map (λ w. w.now) word.entry))) }
{
    let Some(word) = word else {
        return Ok(Shard::whole());
    };
    Shard::parse(word).map_err(|error| refused_word(alloc, word, &error))
}
