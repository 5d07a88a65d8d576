//! Keys that arguments set for all runs.
ghost use Rattle.std.specs.{Prelude.{◌≡◌, false, None, IfErr, IfOk, OnOk, map}, List.{AllZip}};
ghost use Rattle.study.specs.{Grid.{set_twice}, SetWords.{SaysAssignment, is_memory}};
ghost use Rattle.study_commands.specs.{Fault.{IsOfWords, IsOfWordsFor}, File.{AreSet, NameInputTwice, paths_set, set_words}, WordRefusals.{HasNoAssignment, IsSetTwice, SaysNoSources}};

use crate::fault::Fault;
use printable::Printable;
use std::alloc::Global;
use study::{Assignment, AssignmentError, Grid, Key, KeyError};
use study_line::SourceTexts;

/// The fault of a word that sets no key.
fn assignment_fault(alloc: Global, word: &str, error: &AssignmentError) -> Fault
    ensures { IsOfWordsFor (is_memory error.now ≡ false) result }
{
    let word = Printable(word);
    match error {
        AssignmentError::Memory(_) | AssignmentError::Key(KeyError::Memory(_)) => {
            Fault::WordsMemory
        }
        AssignmentError::Key(error) => {
            Fault::of_words(format!(in alloc; "fdstudy: words: {error:?}: {word}\n"))
        }
        _ => Fault::of_words(format!(in alloc;
            "fdstudy: words: {error:?}: {word} (a key is set by KEY=VALUE)\n"
        )),
    }
}

/// What words set, one after the other.
fn assignments_of(alloc: Global, words: &[&str]) -> Result<Vec<Assignment>, Fault>
    ensures assignments { IfOk result (λ v. AllZip SaysAssignment (map (λ w. w.now) words.now) v.items) }
    ensures refused { IfErr result (IsOfWordsFor (HasNoAssignment (map (λ w. w.now) words.now))) }
{
    let mut assignments = Vec::new(alloc);
    for word in words {
        let assignment = match Assignment::parse(alloc, word) {
            Ok(assignment) => assignment,
            Err(error) => return Err(assignment_fault(alloc, word, &error)),
        };
        assignments
            .push(assignment)
            .map_err(|_| Fault::WordsMemory)?;
    }
    Ok(assignments)
}

/// The fault of a key that is set twice.
fn twice_fault(alloc: Global, key: &Key) -> Fault
    ensures { IsOfWords result }
{
    let Ok(text) = key.text(alloc) else {
        return Fault::WordsMemory;
    };
    let key = Printable(text.as_str());
    Fault::of_words(format!(in alloc; "fdstudy: words: KeyTwice: {key}\n"))
}

/// Refuses a key that is set twice, or that an axis of the grid sets.
fn check_apart(alloc: Global, grid: &Grid, assignments: &[Assignment]) -> Result<(), Fault>
    ensures apart { OnOk result (set_twice grid.now (paths_set assignments.now) ≡ None) }
    ensures refused { IfErr result (IsOfWordsFor (IsSetTwice grid.now assignments.now)) }
{
    match grid.set_twice(alloc, assignments) {
        Ok(None) => Ok(()),
        Ok(Some(key)) => Err(twice_fault(alloc, key)),
        Err(_) => Err(Fault::WordsMemory),
    }
}

/// Refuses words by which standard input is the scenario's file and the network's.
fn check_once(alloc: Global, texts: &SourceTexts<'_>) -> Result<(), Fault>
    ensures once { OnOk result (¬ NameInputTwice texts.now) }
    ensures refused { IfErr result (IsOfWordsFor (NameInputTwice texts.now)) }
{
    match texts.network {
        Some(path) if path == "-" && texts.path == "-" => Err(Fault::of_words(format!(in alloc;
            "fdstudy: words: InputTwice: only one of the files can be standard input\n"
        ))),
        _ => Ok(()),
    }
}

/// What is set for all runs of a study by words that name files: each key once, and none that an axis of the grid sets.
pub(crate) fn assigned_by(
    alloc: Global,
    texts: &SourceTexts<'_>,
    grid: &Grid,
) -> Result<Vec<Assignment>, Fault>
    ensures set { IfOk result (λ v. AreSet (set_words texts.now) grid.now v.items) }
    ensures once { IfOk result (λ _. ¬ NameInputTwice texts.now) }
    ensures refused { IfErr result (IsOfWordsFor (SaysNoSources texts.now grid.now)) }
{
    let assignments = assignments_of(alloc, &texts.set)?;
    check_apart(alloc, grid, &assignments)?;
    check_once(alloc, texts)?;
    Ok(assignments)
}
