//! Orders: the tasks that a command line asks for.
ghost use Rattle.std.specs.{Prelude.{◌≡◌, List, IfOk, IfErr, map, codes}, List.{list_all}};
ghost use Rattle.clap.specs.Words.{Text, rows_of, found_of, subcommand_rows_of, fault_of, HasKind};
ghost use Rattle.study_line.specs.Commands.{whole_app};
ghost use Rattle.study_line.specs.Order.{AreSourcesAt, Explains, IsEachAt, IsGridAt, IsNumberAt, IsPictureAt, IsStudyAt, IsTextAt, MayBeNumberAt, MayBeStudyAt, MayBeTextAt, MayBeTickAt, States, StatesFound, StatesIn, is_missing, study_options, texts_at};
ghost use Rattle.study_line.specs.Inside.Private.{Lacks, Reads};

use crate::command::command;
use clap::ArgMatches;
use clap::error::ErrorKind;
use printable::Printable;
use std::alloc::{AllocError, Global};

/// A scenario's file and what is laid over it, by texts that are still to be read. The path `-` is standard input.
#[derive(Drop)]
pub struct SourceTexts<'a> {
    /// Where the scenario file is.
    pub path: &'a str,
    /// Where the network file is, where there is one.
    pub network: Option<&'a str>,
    /// What is set in them for all runs, as `proposals=[1,2]`, in order.
    pub set: Vec<&'a str>,
}

/// Which runs a study has, by texts that are still to be read.
#[derive(Drop)]
pub struct GridTexts<'a> {
    /// The seeds, as `1..=20`.
    pub seeds: &'a str,
    /// The axes that make the points, as `link.loss=0,10`, in order.
    pub vary: Vec<&'a str>,
    /// The axes that make runs of each point, in order: all seeds for each combination of their values.
    pub over: Vec<&'a str>,
    /// The axes whose values are dealt to the seeds in turn, in order.
    pub deal: Vec<&'a str>,
}

/// A study, by texts that are still to be read.
#[derive(Drop)]
pub struct StudyTexts<'a> {
    /// Which runs it has.
    pub grid: GridTexts<'a>,
    /// Which block of the points is done, as `2/3`; all of them where nothing is said.
    pub shard: Option<&'a str>,
    /// How many threads share the runs, 1 to 64, where it is said.
    pub threads: Option<u64>,
    /// The columns of its table, as `mistakes,runs`; all of them where nothing is said.
    pub columns: Option<&'a str>,
    /// What a row of its table tells of.
    pub each: Each,
    /// The groups of pairs that have rows of their own, as `1..=4:5..=7`, in order; all pairs have one where there is
    /// none.
    pub pairs: Vec<&'a str>,
}

/// What a row of a study's table tells of.
#[derive(Clone, Copy)]
pub enum Each {
    /// All runs of a point, added up.
    Point,
    /// One run.
    Run,
}

/// Which picture of a run is drawn.
#[derive(Clone, Copy)]
pub enum Picture {
    /// Who suspects whom.
    Suspicions,
    /// What went from whom to whom.
    Letters,
}

/// A picture of a run, by texts that are still to be read.
#[derive(Clone, Copy)]
pub struct PictureTexts<'a> {
    /// Which picture.
    pub picture: Picture,
    /// The first tick that is drawn, where it is said.
    pub from: Option<u32>,
    /// The tick before which the picture ends, where it is said.
    pub until: Option<u32>,
    /// The processes whose letters alone are drawn, as `1,3`, where it is said.
    pub of: Option<&'a str>,
}

/// What a command line asks for.
#[derive(Drop)]
pub enum Order<'a> {
    /// To say whether the scenario file, or the scenario of each run of a study, is accepted, and where and why it
    /// isn't.
    Check {
        /// The files, and what is set in them.
        sources: SourceTexts<'a>,
        /// Which study, where one is said.
        study: Option<StudyTexts<'a>>,
    },
    /// To print the letters of the scenario's run.
    Letters {
        /// The files, and what is set in them.
        sources: SourceTexts<'a>,
    },
    /// To draw a picture of the scenario's run.
    Draw {
        /// The files, and what is set in them.
        sources: SourceTexts<'a>,
        /// Which picture.
        picture: PictureTexts<'a>,
    },
    /// To print the scenario file of one run.
    Show {
        /// The files, and what is set in them.
        sources: SourceTexts<'a>,
        /// Which runs the study has.
        grid: GridTexts<'a>,
        /// Which point, from 1.
        point: u64,
        /// Which run of the point, from 1.
        run: u64,
    },
    /// To run a study and to print its table.
    Sweep {
        /// The files, and what is set in them.
        sources: SourceTexts<'a>,
        /// Which study.
        study: StudyTexts<'a>,
    },
}

/// Why words state no order, with what is to be told of them.
#[derive(Drop)]
pub enum WordsError {
    /// They ask for help, which is this.
    Help(String),
    /// They ask for the version.
    Version,
    /// `clap` refuses them, and says why. Its quotes of them have no control characters.
    Mistake(String),
    /// `clap` takes them, but no picture is named so.
    NoPicture(String),
    /// `clap` takes them, but a row can't tell of what is named so.
    NoEach(String),
    /// `clap` takes them, but a part of the order is missing, as the seeds of a study whose other options are there.
    Form,
    /// Memory was refused.
    Memory,
}

/// The text of an argument, if it is there.
#[tactic(auto, using(crate::proofs::Words::in_rows))]
fn text_if_at<'a>(found: &ArgMatches<'a>, id: &str) -> Option<&'a str>
    ensures { MayBeTextAt id.now (rows_of (found_of found.now)) result }
{
    found.get_str(id)
}

/// The text of an argument.
fn text_at<'a>(found: &ArgMatches<'a>, id: &str) -> Result<&'a str, WordsError>
    ensures stated { IfOk result (λ t. IsTextAt id.now (rows_of (found_of found.now)) t.now) }
    ensures refused { IfErr result (Lacks (IsTextAt id.now (rows_of (found_of found.now)))) }
{
    text_if_at(found, id).ok_or(WordsError::Form)
}

/// Whether an argument is missing.
fn lacks(found: &ArgMatches<'_>, id: &str) -> bool
    ensures { result ≡ is_missing (rows_of (found_of found.now)) id.now }
{
    text_if_at(found, id).is_none()
}

/// The texts of all uses of an argument.
fn texts_of<'a>(alloc: Global, found: &ArgMatches<'a>, id: &str) -> Result<Vec<&'a str>, WordsError>
    ensures stated { IfOk result (λ v. map (λ t. t.now) v.items ≡ texts_at id.now (rows_of (found_of found.now))) }
    ensures refused { IfErr result (λ e. e ≡ WordsError.Memory) }
{
    let mut texts = Vec::new(alloc);
    let all = found.get_strs(id).unwrap_or(&[]);
    match texts.extend_from_slice(all) {
        Ok(()) => Ok(texts),
        Err(_) => Err(WordsError::Memory),
    }
}

/// The number of an argument, if it is there.
fn number_if_at(found: &ArgMatches<'_>, id: &str) -> Option<u64>
    ensures { MayBeNumberAt id.now (rows_of (found_of found.now)) result }
{
    found.get_one::<u64>(id)
}

/// The number of an argument.
fn number_at(found: &ArgMatches<'_>, id: &str) -> Result<u64, WordsError>
    ensures { Reads (IsNumberAt id.now (rows_of (found_of found.now))) result }
{
    number_if_at(found, id).ok_or(WordsError::Form)
}

/// The tick of an argument, if it is there.
fn tick_if_at(found: &ArgMatches<'_>, id: &str) -> Option<u32>
    ensures { MayBeTickAt id.now (rows_of (found_of found.now)) result }
{
    found.get_one::<u32>(id)
}

/// The picture that an argument names.
fn picture_at(alloc: Global, found: &ArgMatches<'_>, id: &str) -> Result<Picture, WordsError>
    ensures { Reads (IsPictureAt id.now (rows_of (found_of found.now))) result }
{
    match text_at(found, id)? {
        "suspicions" => Ok(Picture::Suspicions),
        "letters" => Ok(Picture::Letters),
        word => Err(String::from_str(alloc, word).map_or(
            WordsError::Memory,
            WordsError::NoPicture,
        )),
    }
}

/// What a row tells of, as an argument names it; a point where there is none.
fn each_at(alloc: Global, found: &ArgMatches<'_>, id: &str) -> Result<Each, WordsError>
    ensures { Reads (IsEachAt id.now (rows_of (found_of found.now))) result }
{
    match text_if_at(found, id).unwrap_or("point") {
        "point" => Ok(Each::Point),
        "run" => Ok(Each::Run),
        word => Err(String::from_str(alloc, word).map_or(WordsError::Memory, WordsError::NoEach)),
    }
}

/// The files that are named, and what is set in them.
fn read_sources<'a>(alloc: Global, found: &ArgMatches<'a>) -> Result<SourceTexts<'a>, WordsError>
    ensures { Reads (AreSourcesAt (rows_of (found_of found.now))) result }
{
    Ok(SourceTexts {
        path: text_at(found, "path")?,
        network: text_if_at(found, "network"),
        set: texts_of(alloc, found, "set")?,
    })
}

/// Which runs a study has.
fn read_grid<'a>(alloc: Global, found: &ArgMatches<'a>) -> Result<GridTexts<'a>, WordsError>
    ensures { Reads (IsGridAt (rows_of (found_of found.now))) result }
{
    Ok(GridTexts {
        seeds: text_at(found, "seeds")?,
        vary: texts_of(alloc, found, "vary")?,
        over: texts_of(alloc, found, "over")?,
        deal: texts_of(alloc, found, "deal")?,
    })
}

/// A study.
fn read_study<'a>(alloc: Global, found: &ArgMatches<'a>) -> Result<StudyTexts<'a>, WordsError>
    ensures { Reads (IsStudyAt (rows_of (found_of found.now))) result }
{
    let each = each_at(alloc, found, "each")?;
    Ok(StudyTexts {
        grid: read_grid(alloc, found)?,
        shard: text_if_at(found, "shard"),
        threads: number_if_at(found, "threads"),
        columns: text_if_at(found, "columns"),
        each,
        pairs: texts_of(alloc, found, "pairs")?,
    })
}

/// Whether no option of a study is there.
fn lacks_study(found: &ArgMatches<'_>) -> bool
    ensures { result ≡ list_all (is_missing (rows_of (found_of found.now))) study_options }
{
    lacks(found, "seeds")
        && lacks(found, "vary")
        && lacks(found, "over")
        && lacks(found, "deal")
        && lacks(found, "shard")
        && lacks(found, "threads")
        && lacks(found, "columns")
        && lacks(found, "each")
        && lacks(found, "pairs")
}

/// A study, if any of its options is there.
fn study_if_at<'a>(
    alloc: Global,
    found: &ArgMatches<'a>,
) -> Result<Option<StudyTexts<'a>>, WordsError>
    ensures { Reads (MayBeStudyAt (rows_of (found_of found.now))) result }
{
    if lacks_study(found) {
        return Ok(None);
    }
    Ok(Some(read_study(alloc, found)?))
}

/// What `check` asks for.
fn read_check<'a>(alloc: Global, found: &ArgMatches<'a>) -> Result<Order<'a>, WordsError>
    ensures { Reads (StatesIn (codes "check") (rows_of (found_of found.now))) result }
{
    let sources = read_sources(alloc, found)?;
    let study = study_if_at(alloc, found)?;
    Ok(Order::Check { sources, study })
}

/// What `letters` asks for.
fn read_letters<'a>(alloc: Global, found: &ArgMatches<'a>) -> Result<Order<'a>, WordsError>
    ensures { Reads (StatesIn (codes "letters") (rows_of (found_of found.now))) result }
{
    let sources = read_sources(alloc, found)?;
    Ok(Order::Letters { sources })
}

/// What `draw` asks for.
fn read_draw<'a>(alloc: Global, found: &ArgMatches<'a>) -> Result<Order<'a>, WordsError>
    ensures { Reads (StatesIn (codes "draw") (rows_of (found_of found.now))) result }
{
    let sources = read_sources(alloc, found)?;
    let picture = PictureTexts {
        picture: picture_at(alloc, found, "as")?,
        from: tick_if_at(found, "from"),
        until: tick_if_at(found, "until"),
        of: text_if_at(found, "of"),
    };
    Ok(Order::Draw { sources, picture })
}

/// What `show` asks for.
fn read_show<'a>(alloc: Global, found: &ArgMatches<'a>) -> Result<Order<'a>, WordsError>
    ensures { Reads (StatesIn (codes "show") (rows_of (found_of found.now))) result }
{
    Ok(Order::Show {
        sources: read_sources(alloc, found)?,
        grid: read_grid(alloc, found)?,
        point: number_at(found, "point")?,
        run: number_at(found, "run")?,
    })
}

/// What `sweep` asks for.
fn read_sweep<'a>(alloc: Global, found: &ArgMatches<'a>) -> Result<Order<'a>, WordsError>
    ensures { Reads (StatesIn (codes "sweep") (rows_of (found_of found.now))) result }
{
    let sources = read_sources(alloc, found)?;
    let study = read_study(alloc, found)?;
    Ok(Order::Sweep { sources, study })
}

/// What a subcommand's name and matches ask for.
fn read_found<'a>(
    alloc: Global,
    name: &str,
    found: &ArgMatches<'a>,
) -> Result<Order<'a>, WordsError>
    ensures { Reads (StatesIn name.now (rows_of (found_of found.now))) result }
{
    if name == "check" {
        read_check(alloc, found)
    } else if name == "letters" {
        read_letters(alloc, found)
    } else if name == "draw" {
        read_draw(alloc, found)
    } else if name == "show" {
        read_show(alloc, found)
    } else if name == "sweep" {
        read_sweep(alloc, found)
    } else {
        Err(WordsError::Form)
    }
}

/// What the matches ask for.
fn read_matches<'a>(alloc: Global, matches: &ArgMatches<'a>) -> Result<Order<'a>, WordsError>
    ensures { Reads (StatesFound (subcommand_rows_of matches.now)) result }
{
    match matches.subcommand() {
        Some((name, found)) => read_found(alloc, name, found),
        None => Err(WordsError::Form),
    }
}

/// What `clap` tells of words that it answers with this error. The words that it quotes are told without control
/// characters: it reads them once more, as they are printed.
fn text_of(alloc: Global, words: &[&str], error: &clap::Error) -> Result<String, AllocError> {
    let mut shown = Vec::new(alloc);
    for word in words {
        shown.push(Printable(word).to_string(alloc)?)?;
    }
    let told = command(alloc)?.try_get_matches_from(&shown).err();
    told.as_ref().unwrap_or(error).to_string(alloc)
}

/// What is told of words that `clap` refuses, or for which it shows help or the version.
fn told_of(alloc: Global, words: &[&str], error: &clap::Error) -> WordsError
    ensures { (read : List Text) → HasKind (fault_of whole_app read) error.now → Explains read result }
{
    let kind = error.kind();
    if kind == ErrorKind::OutOfMemory {
        return WordsError::Memory;
    }
    if kind == ErrorKind::DisplayVersion {
        return WordsError::Version;
    }
    match text_of(alloc, words, error) {
        Ok(text) if kind == ErrorKind::DisplayHelp => WordsError::Help(text),
        Ok(text) => WordsError::Mistake(text),
        Err(_) => WordsError::Memory,
    }
}

/// What the words ask for, the program's name first.
///
/// # Errors
///
/// `Help` where they ask for help, `Version` where they ask for the version, `Mistake` where `clap` refuses them,
/// `NoPicture` and `NoEach` where it takes them but no picture, or nothing that a row tells of, is named so, `Form`
/// where it takes them but a part of the order is missing, and `Memory`. As `clap` knows which parts must always be
/// there, a missing one of these is a `Mistake`; the seeds of `check` must be there only with other options of a study.
pub fn read_words<'a>(alloc: Global, words: &'a [&'a str]) -> Result<Order<'a>, WordsError>
    ensures stated { IfOk result (States (map (λ w. w.now) words.entry.now)) }
    ensures refused { IfErr result (Explains (map (λ w. w.now) words.entry.now)) }
{
    let Ok(command) = command(alloc) else {
        return Err(WordsError::Memory);
    };
    match command.try_get_matches_from(words) {
        Ok(matches) => read_matches(alloc, &matches),
        Err(error) => Err(told_of(alloc, words, &error)),
    }
}
