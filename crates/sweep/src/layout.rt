//! Layouts: the subjects of a text's rows, and their columns.
ghost use Rattle.std.specs.{Prelude.{◌≡◌, ◌*◌, ◌<◌, ◌≤◌, ◌^◌, length, map, string_bytes, option_map, Some, IfOk, IfErr}, List.{range_with_len}};
ghost use Rattle.study.specs.Grid.{runs};
ghost use Rattle.sweep.specs.{Groups.{groups_of as groups_in}, Layout.{place_of as place_in, ArePicks, IsNearest, TellsOf, IsRefusal, IsNoLayout}, Inside.Progress.{runs_each as runs_of_unit, unit_count}};
ghost use Rattle.sweep.specs.StudyText.{names_of as names_in, unit_first};

use crate::error::LayoutError;
use crate::group::{Group, PairGroup, groups_of};
use crate::names::names_of;
use diagnosis::edits_between;
use std::alloc::{AllocError, Global};
use std::marker::Model;
use study::{Grid, words_between};

/// What a row tells of.
#[derive(Clone, Copy)]
pub enum Rows {
    /// Of a point: of all its runs.
    Points,
    /// Of a run alone.
    Runs,
}

/// What the rows of a text tell of, and which columns they have.
#[derive(Drop)]
pub struct Layout {
    rows: Rows,
    groups: Vec<Group>,
    picks: Vec<usize>,
}

impl Model for Layout {
    ghost use Rattle.sweep.specs.Layout.{LayoutRecord};

    ghost Value = { LayoutRecord };

    ghost view = { λ l. record { rows = l.rows; groups = l.groups.items; picks = l.picks.items } };
}

/// The place of the first of the names that is this word.
fn place_of(names: &[String], word: &str) -> Option<usize>
    ensures { result ≡ place_in (map string_bytes names.now) word.now }
{
    names.iter().position(|name| word == name.as_str())
}

/// The first of the names that are nearest to a word.
fn nearest_to<'a>(alloc: Global, names: &'a [String], word: &str) -> Result<&'a String, AllocError>
    requires { 1 ≤ length names.now }
    ensures { IfOk result (λ n. IsNearest (map string_bytes names.now) word.now (string_bytes n.now)) }
{
    let mut best = 0;
    let mut least = edits_between(alloc, word, names[0].as_str())?;
    for (place, name) in names.iter().enumerate() {
        let edits = edits_between(alloc, word, name.as_str())?;
        if edits < least {
            best = place;
            least = edits;
        }
    }
    Ok(&names[best])
}

/// That a word is none of the names.
fn unknown(alloc: Global, names: &[String], word: &str) -> Result<LayoutError, AllocError>
    requires { 1 ≤ length names.now }
    ensures { IfOk result (TellsOf (map string_bytes names.now) word.now) }
{
    let nearest = nearest_to(alloc, names, word)?;
    Ok(LayoutError::Unknown {
        name: String::from_str(alloc, word)?,
        nearest: String::from_str(alloc, nearest.as_str())?,
    })
}

/// The places of the names that these words are.
fn places_of(alloc: Global, names: &[String], words: &[&str]) -> Result<Vec<usize>, LayoutError>
    requires { 1 ≤ length names.now }
    ensures ok { IfOk result (λ v. map (place_in (map string_bytes names.now)) (map (λ x. x.now) words.now)
        ≡ map Some v.items) }
    ensures err { IfErr result (IsRefusal (map string_bytes names.now) (map (λ x. x.now) words.now)) }
{
    let mut places = Vec::new(alloc);
    for word in words {
        let Some(place) = place_of(names, word) else {
            return Err(unknown(alloc, names, word)?);
        };
        if places.push(place).is_err() {
            return Err(LayoutError::Memory);
        }
    }
    Ok(places)
}

/// So many places, from 0.
fn all_places(alloc: Global, count: usize) -> Result<Vec<usize>, AllocError>
    ensures { IfOk result (λ v. v.items ≡ range_with_len 0 count) }
{
    (0..count).collect(alloc)
}

impl Layout {
    /// The layout of rows that tell of points or of runs, with the columns of these names between commas, in this
    /// order, or with all columns. A name may come twice. A unit has rows for each of these groups of pairs, in their
    /// order, or for all pairs where there is no group.
    ///
    /// Rows of points have the keys of the grid's varied axes, by their texts, then `layer` and the columns of
    /// [`Columns`](crate::Columns). Rows of runs have the varied keys and the keys of the other axes, then `seed`,
    /// `run` (its number in its point, from 1), `layer` and these columns. Before `layer` both have `pairs`, the word
    /// of the group, where there is a group.
    ///
    /// # Errors
    ///
    /// `Unknown` for the first word that is no name, or `Memory`.
    pub fn new(
        alloc: Global,
        grid: &Grid,
        rows: Rows,
        groups: Vec<PairGroup>,
        columns: Option<&str>,
    ) -> Result<Layout, LayoutError>
        ensures rows { IfOk result (λ l. l.rows ≡ rows) }
        ensures groups { IfOk result (λ l. l.groups ≡ groups_in groups.items) }
        ensures picks { IfOk result (λ l. ArePicks (names_in rows (groups_in groups.items) grid.now)
            (option_map (λ w. w.now) columns.entry) l.picks) }
        ensures err { IfErr result (IsNoLayout (names_in rows (groups_in groups.items) grid.now)
            (option_map (λ w. w.now) columns.entry)) }
    {
        let groups = groups_of(alloc, groups)?;
        let names = names_of(alloc, grid, rows, &groups)?;
        let picks = match columns {
            Some(columns) => {
                let words = words_between(alloc, columns, ',')?;
                places_of(alloc, &names, &words)?
            }
            None => all_places(alloc, names.len())?,
        };
        Ok(Layout {
            rows,
            groups,
            picks,
        })
    }

    /// What a row tells of.
    pub fn rows(&self) -> Rows
        ensures { result ≡ self.now.rows }
    {
        self.rows
    }

    /// The groups of which it has rows.
    pub fn groups(&self) -> &[Group]
        ensures { result.now ≡ self.now.groups }
    {
        &self.groups
    }

    /// The places of a row's fields among those of all columns, from 0.
    pub(crate) fn picks(&self) -> &[usize]
        ensures { result.now ≡ self.now.picks }
    {
        &self.picks
    }

    /// How many runs a unit of its rows has.
    pub(crate) fn runs_each(&self, grid: &Grid) -> u64
        ensures value { result ≡ runs_of_unit self.now.rows grid.now }
        ensures low { 1 ≤ result }
        ensures high { result ≤ 1000000000000 }
    {
        match self.rows {
            Rows::Points => grid.runs(),
            Rows::Runs => 1,
        }
    }

    /// The number of the first of a unit's runs among those of its point, from 1.
    pub(crate) fn first_run(&self, grid: &Grid, unit: u64) -> u64
        ensures { result ≡ unit_first self.now.rows grid.now unit }
    {
        match self.rows {
            Rows::Points => 1,
            Rows::Runs => unit % grid.runs() + 1,
        }
    }

    /// How many units so many points have.
    pub(crate) fn unit_count(&self, grid: &Grid, points: u64) -> u64
        requires { points * length (runs grid.now) < 2 ^ 64 }
        ensures { result ≡ unit_count self.now.rows grid.now points }
    {
        match self.rows {
            Rows::Points => points,
            Rows::Runs => points * grid.runs(),
        }
    }
}
