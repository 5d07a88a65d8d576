//! The text of a study, as its rows are formed.
ghost use Rattle.std.specs.Prelude.{◌≡◌, ◌<◌, ◌++◌, [], length, map, IfOk, OnOk};
ghost use Rattle.{study.specs.Grid.{points}, csv.specs.Records.{fields_of}};
ghost use Rattle.sweep.specs.{ColumnTable.{number_of, numbers_of}, Groups.{group_word}, Layout.{number_text, header_text, layer_fields, line_text, picked}, StudyText.{names_of as names_in, unit_point, lead_of}};

use crate::column_table::{
    Column, detection_columns, mistake_columns, outcome_columns, run_columns,
};
use crate::columns::Columns;
use crate::fields::{push_numbers, push_settings, push_texts};
use crate::group::Group;
use crate::layout::{Layout, Rows};
use crate::names::names_of;
use crate::picking::push_picked;
use crate::point_sums::PointSums;
use crate::unit_sums::UnitSums;
use csv::{StringRecord, Writer};
use std::alloc::{AllocError, Global};
use study::Grid;

/// What these columns tell.
fn push_told(
    fields: &mut StringRecord,
    columns: &Columns,
    part: &[Column],
) -> Result<(), AllocError>
    ensures { OnOk result (fields_of fields.new
        ≡ fields_of fields.old ++ map number_text (map (number_of columns.now) (map (λ d. d.1) part.now))) }
{
    for (_, told) in part {
        push_numbers(fields, &[told.number(columns)])?;
    }
    Ok(())
}

/// The columns of a row on a layer.
fn push_columns(fields: &mut StringRecord, layer: u8, columns: &Columns) -> Result<(), AllocError>
    ensures { OnOk result (fields_of fields.new
        ≡ fields_of fields.old ++ map number_text (numbers_of layer columns.now)) }
{
    push_told(fields, columns, &run_columns(layer, columns))?;
    push_told(fields, columns, &mistake_columns(columns))?;
    push_told(fields, columns, &detection_columns(columns))?;
    push_told(fields, columns, &outcome_columns(columns))
}

/// What a unit's rows begin with.
fn push_lead(
    alloc: Global,
    fields: &mut StringRecord,
    grid: &Grid,
    rows: Rows,
    unit: u64,
) -> Result<(), AllocError>
    requires { unit_point rows grid.now unit < length (points grid.now) }
    ensures { OnOk result (fields_of fields.new ≡ fields_of fields.old ++ lead_of rows grid.now unit) }
{
    match rows {
        Rows::Points => {
            let point = grid.point(alloc, unit)?;
            push_settings(fields, &point)
        }
        Rows::Runs => {
            let runs = grid.runs();
            let point = grid.point(alloc, unit / runs)?;
            let run = grid.run(alloc, unit % runs)?;
            push_settings(fields, &point)?;
            push_settings(fields, &run.settings)?;
            let numbers = [
                Some(u128::from(run.seed)),
                Some(u128::from(unit % runs + 1)),
            ];
            push_numbers(fields, &numbers)
        }
    }
}

/// The word of a group, where it has one.
fn push_word(fields: &mut StringRecord, group: &Group) -> Result<(), AllocError>
    ensures { OnOk result (fields_of fields.new ≡ fields_of fields.old ++ group_word group.now) }
{
    match group {
        Group::All => Ok(()),
        Group::Said(group) => fields.push_field(group.word.as_str()),
    }
}

/// All fields of a unit's row, for a group on a layer.
fn layer_fields(
    alloc: Global,
    grid: &Grid,
    layout: &Layout,
    unit: u64,
    group: &Group,
    layer: u8,
    columns: &Columns,
) -> Result<StringRecord, AllocError>
    requires { unit_point layout.now.rows grid.now unit < length (points grid.now) }
    ensures { IfOk result
        (λ all. fields_of all ≡ layer_fields (lead_of layout.now.rows grid.now unit) group.now layer columns.now) }
{
    let mut all = StringRecord::new(alloc);
    push_lead(alloc, &mut all, grid, layout.rows(), unit)?;
    push_word(&mut all, group)?;
    push_columns(&mut all, layer, columns)?;
    Ok(all)
}

/// The text of a study, as its rows are formed. Its lines have the same number of fields.
#[derive(Drop)]
pub struct Table {
    writer: Writer<Vec<u8>>,
}

impl Table {
    ghost use Rattle.sweep.specs.{Inside.Private.{AddsRowsOfGroup}, StudyText.{AddsRowsOfSums, IsBetweenLines, text_of}};

    /// No line yet.
    pub fn new(alloc: Global) -> Table
        ensures between { IsBetweenLines result }
        ensures text { text_of result ≡ [] }
    {
        Table {
            writer: Writer::from_writer(Vec::new(alloc)),
        }
    }

    /// Adds a line with those of these fields that the layout picks.
    fn push_fields(
        &mut self,
        alloc: Global,
        layout: &Layout,
        all: &StringRecord,
    ) -> Result<(), AllocError>
        requires { IsBetweenLines self.old }
        ensures between { OnOk result (IsBetweenLines self.new) }
        ensures text { OnOk result (text_of self.new
            ≡ text_of self.old ++ line_text (picked layout.now.picks (fields_of all.now))) }
    {
        let mut fields = StringRecord::new(alloc);
        push_picked(&mut fields, all, layout.picks())?;
        match self.writer.write_byte_record(fields.as_byte_record()) {
            Ok(()) => Ok(()),
            Err(_) => Err(AllocError),
        }
    }

    /// Adds the first line, which names the columns.
    ///
    /// # Errors
    ///
    /// `AllocError` where memory was refused.
    #[tactic(auto, unfolding(crate::specs::Layout::header_text))]
    pub fn push_header(
        &mut self,
        alloc: Global,
        grid: &Grid,
        layout: &Layout,
    ) -> Result<(), AllocError>
        requires { IsBetweenLines self.old }
        ensures between { OnOk result (IsBetweenLines self.new) }
        ensures text { OnOk result (text_of self.new
            ≡ text_of self.old ++ header_text layout.now.picks (names_in layout.now.rows layout.now.groups grid.now)) }
    {
        let names = names_of(alloc, grid, layout.rows(), layout.groups())?;
        let mut all = StringRecord::new(alloc);
        push_texts(&mut all, &names)?;
        self.push_fields(alloc, layout, &all)
    }

    /// Adds the rows of a unit for a group: that of layer 1, and that of layer 2 where some run has a reduction.
    fn push_group(
        &mut self,
        alloc: Global,
        grid: &Grid,
        layout: &Layout,
        unit: u64,
        group: &Group,
        sums: &PointSums,
    ) -> Result<(), AllocError>
        requires between { IsBetweenLines self.old }
        requires within { unit_point layout.now.rows grid.now unit < length (points grid.now) }
        ensures between { OnOk result (IsBetweenLines self.new) }
        ensures text { OnOk result (AddsRowsOfGroup layout.now grid.now unit group.now sums.now self.old self.new) }
    {
        let (first, second) = (sums.first(), sums.second());
        let row = layer_fields(alloc, grid, layout, unit, group, 1, &first)?;
        self.push_fields(alloc, layout, &row)?;
        if !sums.has_second() {
            return Ok(());
        }
        let row = layer_fields(alloc, grid, layout, unit, group, 2, &second)?;
        self.push_fields(alloc, layout, &row)
    }

    /// Adds the rows of a point, from 0, whose runs were added up: for each group of the layout that of layer 1, and
    /// that of layer 2 where some run has a reduction. Where rows tell of runs, it is the run of this number, from 0,
    /// of all points' runs.
    ///
    /// # Errors
    ///
    /// `AllocError` where memory was refused, or where the lines before have another number of fields.
    pub fn push_unit(
        &mut self,
        alloc: Global,
        grid: &Grid,
        layout: &Layout,
        unit: u64,
        sums: &UnitSums,
    ) -> Result<(), AllocError>
        requires between { IsBetweenLines self.old }
        requires within { unit_point layout.now.rows grid.now unit < length (points grid.now) }
        ensures between { OnOk result (IsBetweenLines self.new) }
        ensures text { OnOk result
            (AddsRowsOfSums layout.now grid.now unit layout.now.groups sums.now self.old self.new) }
    {
        let (groups, its) = (layout.groups(), sums.groups());
        for place in 0..groups.len().min(its.len()) {
            self.push_group(alloc, grid, layout, unit, &groups[place], &its[place])?;
        }
        Ok(())
    }

    /// The whole text.
    ///
    /// # Errors
    ///
    /// `AllocError` where memory was refused.
    pub fn into_text(self) -> Result<Vec<u8>, AllocError>
        ensures { IfOk result (λ text. text.items ≡ text_of self) }
    {
        match self.writer.into_inner() {
            Ok(text) => Ok(text),
            Err(_) => Err(AllocError),
        }
    }
}
