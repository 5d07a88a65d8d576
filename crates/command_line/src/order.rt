//! Orders: the tasks that a command line asks for.
ghost use Rattle.std.specs.Prelude.{◌≡◌, ℕ, IfOk, IfErr, IfSome, IsNone, Some, None, List, option_map, map};
ghost use Rattle.clap.specs.Words.{HasKind, Text, fault_of, rows_of, found_of, first_of, subcommand_rows_of};
ghost use Rattle.command_line.specs.{Commands.{Prints, app_with}, declared.order.Order.{Order as Asked}};
ghost use Rattle.command_line.specs.Order.{IsNumberAt, States, StatesCheck, StatesCompare, StatesFound, StatesIn, StatesList, StatesNothingFound, StatesNothingIn, StatesPrint, StatesRun, Explains, choice_of};

use crate::command::command;
use clap::ArgMatches;
use clap::error::ErrorKind;
use process_api::PrintChoice;
use std::alloc::Global;

/// What a command line asks for. The path `-` is standard input.
#[derive(Clone, Copy, Debug)]
pub enum Order<'a> {
    /// To say whether the scenario file is accepted.
    Check {
        /// Where the scenario file is.
        path: &'a str,
    },
    /// To run the scenario by one global event list.
    List {
        /// Where the scenario file is.
        path: &'a str,
        /// Which texts of the run are written.
        print: PrintChoice,
    },
    /// To run the scenario by windows that workers share.
    Run {
        /// Where the scenario file is.
        path: &'a str,
        /// How many workers share a window; a plan takes 1 to 64.
        workers: u64,
        /// How many ticks a window has; a plan takes 1 to the lookahead.
        window: u64,
        /// Which texts of the run are written.
        print: PrintChoice,
    },
    /// To run the scenario both ways, and to say whether their texts are the same.
    Compare {
        /// Where the scenario file is.
        path: &'a str,
        /// How many workers share a window; a plan takes 1 to 64.
        workers: u64,
        /// How many ticks a window has; a plan takes 1 to the lookahead.
        window: u64,
    },
}

/// Why words state no order, with what is to be told of them.
#[derive(Debug, Drop)]
pub enum WordsError {
    /// They ask for help, which is this.
    Help(String),
    /// `clap` refuses them, and says why.
    Mistake(String),
    /// `clap` takes them, but the command, the path, `--workers` or `--window` is missing.
    Form,
    /// Memory was refused.
    Memory,
}

/// The text of an argument.
fn text_at<'a>(found: &ArgMatches<'a>, id: &str) -> Option<&'a str>
    ensures { option_map (λ s. s.now) result ≡ first_of id.now (rows_of (found_of found.now)) }
{
    found.get_str(id)
}

/// The number of an argument.
fn number_at(found: &ArgMatches<'_>, id: &str) -> Option<u64>
    ensures stated { IfSome result (IsNumberAt id.now (rows_of (found_of found.now))) }
    ensures missing { IsNone result → (n : ℕ) → IsNumberAt id.now (rows_of (found_of found.now)) n → ⊥ }
{
    found.get_one::<u64>(id)
}

/// Which texts a word asks for.
#[tactic(auto, unfolding(crate::specs::Order::choice_of))]
fn choice(word: &str) -> PrintChoice
    ensures { result ≡ choice_of word.now }
{
    if word == "trace" {
        PrintChoice::Trace
    } else if word == "both" {
        PrintChoice::Both
    } else {
        PrintChoice::Report
    }
}

/// What is printed: the report, where nothing is said.
fn read_print(found: &ArgMatches<'_>) -> PrintChoice
    ensures { StatesPrint (rows_of (found_of found.now)) result }
{
    match text_at(found, "print") {
        Some(word) => choice(word),
        None => PrintChoice::Report,
    }
}

/// What `check` asks for, if its path is there.
fn read_check<'a>(found: &ArgMatches<'a>) -> Option<Order<'a>>
    ensures stated { IfSome result (StatesCheck (rows_of (found_of found.now))) }
    ensures missing { IsNone result → (asked : Asked) → StatesCheck (rows_of (found_of found.now)) asked → ⊥ }
{
    let path = text_at(found, "path")?;
    Some(Order::Check { path })
}

/// What `list` asks for, if its path is there.
fn read_list<'a>(found: &ArgMatches<'a>) -> Option<Order<'a>>
    ensures stated { IfSome result (StatesList (rows_of (found_of found.now))) }
    ensures missing { IsNone result → (asked : Asked) → StatesList (rows_of (found_of found.now)) asked → ⊥ }
{
    let path = text_at(found, "path")?;
    let print = read_print(found);
    Some(Order::List { path, print })
}

/// What `run` asks for, if its path, its workers and its window are there.
fn read_run<'a>(found: &ArgMatches<'a>) -> Option<Order<'a>>
    ensures stated { IfSome result (StatesRun (rows_of (found_of found.now))) }
    ensures missing { IsNone result → (asked : Asked) → StatesRun (rows_of (found_of found.now)) asked → ⊥ }
{
    let path = text_at(found, "path")?;
    let workers = number_at(found, "workers")?;
    let window = number_at(found, "window")?;
    let print = read_print(found);
    Some(Order::Run {
        path,
        workers,
        window,
        print,
    })
}

/// What `compare` asks for, if its path, its workers and its window are there.
fn read_compare<'a>(found: &ArgMatches<'a>) -> Option<Order<'a>>
    ensures stated { IfSome result (StatesCompare (rows_of (found_of found.now))) }
    ensures missing { IsNone result → (asked : Asked) → StatesCompare (rows_of (found_of found.now)) asked → ⊥ }
{
    let path = text_at(found, "path")?;
    let workers = number_at(found, "workers")?;
    let window = number_at(found, "window")?;
    Some(Order::Compare {
        path,
        workers,
        window,
    })
}

/// What a subcommand's name and matches ask for, if nothing is missing.
fn read_found<'a>(name: &str, found: &ArgMatches<'a>) -> Option<Order<'a>>
    ensures stated { IfSome result (StatesIn name.now (rows_of (found_of found.now))) }
    ensures missing { IsNone result → StatesNothingIn name.now (rows_of (found_of found.now)) }
{
    if name == "check" {
        read_check(found)
    } else if name == "list" {
        read_list(found)
    } else if name == "run" {
        read_run(found)
    } else if name == "compare" {
        read_compare(found)
    } else {
        None
    }
}

/// What the matches ask for, if nothing is missing.
fn read_matches<'a>(matches: &ArgMatches<'a>) -> Option<Order<'a>>
    ensures stated { IfSome result (StatesFound (subcommand_rows_of matches.now)) }
    ensures missing { IsNone result → StatesNothingFound (subcommand_rows_of matches.now) }
{
    let (name, found) = matches.subcommand()?;
    read_found(name, found)
}

/// What is told of words that `clap` refuses, or for which it shows help. Where a text finds no room, memory was
/// refused.
fn told_of(alloc: Global, error: &clap::Error) -> WordsError
    ensures { (prints : Prints) (read : List Text) → HasKind (fault_of (app_with prints) read) error.now
        → Explains read result }
{
    let kind = error.kind();
    if kind == ErrorKind::OutOfMemory {
        return WordsError::Memory;
    }
    match error.to_string(alloc) {
        Ok(text) if kind == ErrorKind::DisplayHelp => WordsError::Help(text),
        Ok(text) => WordsError::Mistake(text),
        Err(_) => WordsError::Memory,
    }
}

/// What the words ask for, the program's name first.
///
/// # Errors
///
/// `Help` where they ask for help, `Mistake` where `clap` refuses them, `Form` where it takes them but the command, the
/// path, `--workers` or `--window` is missing, and `Memory`.
pub fn read_words<'a>(alloc: Global, words: &'a [&'a str]) -> Result<Order<'a>, WordsError>
    ensures stated { IfOk result (States (map (λ w. w.now) words.entry.now)) }
    ensures refused { IfErr result (Explains (map (λ w. w.now) words.entry.now)) }
{
    let Ok(command) = command(alloc) else {
        return Err(WordsError::Memory);
    };
    match command.try_get_matches_from(words) {
        Ok(matches) => match read_matches(&matches) {
            Some(order) => Ok(order),
            None => Err(WordsError::Form),
        },
        Err(error) => Err(told_of(alloc, &error)),
    }
}
