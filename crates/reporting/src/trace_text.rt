//! The text of a trace.
ghost use Rattle.std.specs.Prelude.{◌≡◌, ◌++◌, [], List, ℕ, IfOk, OnOk, length, map};
ghost use Rattle.csv.specs.Writing.{default_writer};
ghost use Rattle.reporting.specs.{Inside.{Plain.{IsPlain, ArePlain}, RowTexts.{WroteRow, texts_of}}, Rows.{kind_text, row_of, written, IsBetween}, TraceText.{Holds, fields_of, handed, trace_text}};

use crate::digits::Digits;
use crate::kinds::name_of_kind;
use crate::notes::form_notes;
use csv::Writer;
use process_api::{Entry, Follower, Kind, follow_all};
use std::alloc::{AllocError, Global};
use std::mem;

/// The first line of a trace's text.
pub const HEADER: &[u8] = b"tick,receiver,sender,number,kind,sent,lost,notes\n";

/// The texts of a row's fields, which the next row forms anew only where they differ.
#[derive(Drop)]
struct Fields {
    tick: Digits,
    receiver: Digits,
    sender: Digits,
    number: Digits,
    sent: Digits,
    lost: Digits,
    notes: Vec<u8>,
}

impl Fields {
    /// Those of no row yet.
    fn new(alloc: Global) -> Fields {
        Fields {
            tick: Digits::new(),
            receiver: Digits::new(),
            sender: Digits::new(),
            number: Digits::new(),
            sent: Digits::new(),
            lost: Digits::new(),
            notes: Vec::new(alloc),
        }
    }

    /// Puts an entry's in their place.
    fn put(&mut self, entry: &Entry) -> Result<(), AllocError>
        ensures texts { OnOk result (texts_of self.new (kind_text entry.now.kind) ≡ fields_of entry.now) }
        ensures plain { OnOk result (IsPlain self.new.notes.items) }
    {
        self.tick.give(u64::from(entry.key.tick));
        self.receiver.give(u64::from(entry.key.receiver.number()));
        self.sender.give(u64::from(entry.key.sender.number()));
        self.number.give(entry.key.number);
        self.sent.give(u64::from(entry.sent));
        self.lost.give(u64::from(entry.lost));
        form_notes(&mut self.notes, &entry.notes)
    }
}

/// The texts of these fields, with a kind's name among them.
fn row_in<'a>(fields: &'a Fields, kind: &'a str) -> [&'a [u8]; 8]
    ensures texts { map (λ text. text.now) result ≡ texts_of fields.now kind.now }
    ensures plain { IsPlain fields.now.notes.items → IsPlain kind.now → ArePlain (map (λ text. text.now) result) }
{
    [
        fields.tick.text(),
        fields.receiver.text(),
        fields.sender.text(),
        fields.number.text(),
        kind.as_bytes(),
        fields.sent.text(),
        fields.lost.text(),
        fields.notes.as_slice(),
    ]
}

/// Writes the row of these fields and a kind's name. None of them calls for quotes.
fn write_row(writer: &mut Writer<Vec<u8>>, fields: &Fields, kind: Kind) -> Result<(), AllocError>
    ensures between { OnOk result (IsPlain fields.now.notes.items → IsBetween default_writer writer.old
        → IsBetween default_writer writer.new) }
    ensures text { OnOk result (WroteRow fields.now kind writer.old writer.new) }
{
    let written = writer.write_fields(&row_in(fields, name_of_kind(kind)));
    match written {
        Ok(()) => Ok(()),
        Err(_) => Err(AllocError),
    }
}

/// The text of a trace, or of rows of it, that grows with its entries.
#[derive(Drop)]
pub struct TraceText {
    writer: Writer<Vec<u8>>,
    fields: Fields,
    alloc: Global,
}

impl TraceText {
    /// A text that begins with this line, or with nothing.
    pub fn new(alloc: Global, header: &[u8]) -> Result<TraceText, AllocError>
        ensures { IfOk result (λ t. Holds t header.now) }
    {
        let header = Vec::from_slice(alloc, header)?;
        let writer = Writer::from_writer(header);
        let fields = Fields::new(alloc);
        Ok(TraceText {
            writer,
            fields,
            alloc,
        })
    }

    /// Adds the row of an entry. None of its fields calls for quotes.
    ///
    /// # Errors
    ///
    /// `AllocError` where memory was refused. The text is good for nothing then.
    pub fn push(&mut self, entry: &Entry) -> Result<(), AllocError>
        ensures { OnOk result ((text : List ℕ) → Holds self.old text
            → Holds self.new (text ++ row_of (fields_of entry.now))) }
    {
        self.fields.put(entry)?;
        write_row(&mut self.writer, &self.fields, entry.kind)
    }

    /// How many bytes have left `csv`'s own buffer, which holds 8,192 at most.
    pub fn handed(&self) -> usize
        ensures { result ≡ length (handed self.now) }
    {
        self.writer.get_ref().len()
    }

    /// The whole text.
    ///
    /// # Errors
    ///
    /// `AllocError` where memory was refused.
    pub fn into_text(self) -> Result<Vec<u8>, AllocError>
        ensures { IfOk result (λ text. text.items ≡ written self.writer) }
    {
        match self.writer.into_inner() {
            Ok(text) => Ok(text),
            Err(_) => Err(AllocError),
        }
    }

    /// The whole text, in whose place there is nothing.
    ///
    /// # Errors
    ///
    /// `AllocError` where memory was refused.
    pub fn take_text(&mut self) -> Result<Vec<u8>, AllocError>
        ensures text { IfOk result (λ text. text.items ≡ written self.old.writer) }
        ensures nothing { OnOk result (Holds self.new []) }
    {
        let nothing = TraceText::new(self.alloc, b"")?;
        mem::replace(self, nothing).into_text()
    }
}

impl Follower for TraceText {
    ghost use Rattle.reporting.specs.TraceText.{rows_text};

    ghost followed = { λ first now told. (text : List ℕ) → Holds first text → Holds now (text ++ rows_text told) };

    /// Adds the row of the entry.
    fn follow(&mut self, entry: &Entry) -> Result<(), AllocError> {
        self.push(entry)
    }
}

/// The header of a trace's text alone.
#[tactic(auto, unfolding(crate::specs::TraceText::trace_text, crate::specs::TraceText::trace_header))]
pub(crate) fn open_trace_text(alloc: Global) -> Result<TraceText, AllocError>
    ensures { IfOk result (λ t. Holds t (trace_text [])) }
{
    TraceText::new(alloc, HEADER)
}

/// The text of a trace: the header, and a row for each entry.
///
/// # Errors
///
/// `AllocError` where memory was refused.
pub(crate) fn text_of_trace(alloc: Global, entries: &[Entry]) -> Result<Vec<u8>, AllocError>
    ensures { IfOk result (λ text. text.items ≡ trace_text entries.now) }
{
    let mut rows = open_trace_text(alloc)?;
    follow_all(&mut rows, entries)?;
    rows.into_text()
}
