//! Rows of a text, as they are formed.
ghost use Rattle.std.specs.Prelude.{◌≡◌, ◌≤◌, ◌++◌, map, length, IfOk, OnOk};

use csv::{QuoteStyle, Writer, WriterBuilder};
use std::alloc::{AllocError, Global};

/// A text that grows row by row. Its rows have the same number of fields, and no field is quoted.
#[derive(Drop)]
pub struct Rows {
    writer: Writer<Vec<u8>>,
}

impl Rows {
    ghost use Rattle.reporting.specs.Rows.{IsBetweenRows, text_of, row_of};

    /// A text that begins with this line.
    pub fn new(alloc: Global, header: &[u8]) -> Result<Rows, AllocError>
        ensures between { IfOk result IsBetweenRows }
        ensures text { IfOk result (λ rows. text_of rows ≡ header.now) }
    {
        let header = Vec::from_slice(alloc, header)?;
        let writer = WriterBuilder::new()
            .quote_style(QuoteStyle::Never)
            .from_writer(header);
        Ok(Rows { writer })
    }

    /// Where its memory comes from.
    pub(crate) fn allocator(&self) -> Global {
        *self.writer.get_ref().allocator()
    }

    /// Adds a row, of two fields or more.
    pub fn push(&mut self, fields: &[&[u8]]) -> Result<(), AllocError>
        requires between { IsBetweenRows self.old }
        requires fields { 2 ≤ length fields.now }
        ensures between { OnOk result (IsBetweenRows self.new) }
        ensures text { OnOk result (text_of self.new ≡ text_of self.old ++ row_of (map (λ f. f.now) fields.now)) }
    {
        match self.writer.write_fields(fields) {
            Ok(()) => Ok(()),
            Err(_) => Err(AllocError),
        }
    }

    /// The whole text.
    pub fn into_text(self) -> Result<Vec<u8>, AllocError>
        ensures { IfOk result (λ text. text.items ≡ text_of self) }
    {
        match self.writer.into_inner() {
            Ok(text) => Ok(text),
            Err(_) => Err(AllocError),
        }
    }
}
