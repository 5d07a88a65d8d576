//! The text of letters.
ghost use Rattle.std.specs.Prelude.{◌≡◌, ◌++◌, IfOk, OnOk};
ghost use Rattle.reporting.specs.{LettersText.{fate_text, number_text, fields_of, letters_text as text_for}, Rows.{IsBetweenRows, row_of, text_of}};

use crate::kinds::name_of_kind;
use crate::letter::{Letter, LetterFate};
use crate::rows::Rows;
use itoa::Buffer;
use std::alloc::{AllocError, Global};

/// The first line of the text of letters.
const HEADER: &[u8] = b"sent,sender,receiver,number,kind,due,fate\n";

/// The name of a fate.
fn name_of_fate(fate: LetterFate) -> &'static str
    ensures { result.now ≡ fate_text fate }
{
    match fate {
        LetterFate::Taken => "taken",
        LetterFate::Lost => "lost",
        LetterFate::Dead => "dead",
        LetterFate::Late => "late",
    }
}

/// The text of a number, if there is one.
fn text_of_number(number: Option<u64>, buffer: &mut Buffer) -> &str
    ensures { result.now ≡ number_text number }
{
    match number {
        None => "",
        Some(number) => buffer.format(number),
    }
}

/// Adds the row of a letter.
fn push_letter(rows: &mut Rows, letter: &Letter) -> Result<(), AllocError>
    requires { IsBetweenRows rows.old }
    ensures between { OnOk result (IsBetweenRows rows.new) }
    ensures text { OnOk result (text_of rows.new ≡ text_of rows.old ++ row_of (fields_of letter.now)) }
{
    let mut sent = Buffer::new();
    let mut sender = Buffer::new();
    let mut receiver = Buffer::new();
    let mut number = Buffer::new();
    let mut due = Buffer::new();
    rows.push(&[
        sent.format(letter.sent).as_bytes(),
        sender.format(letter.sender.number()).as_bytes(),
        receiver.format(letter.receiver.number()).as_bytes(),
        number.format(letter.number).as_bytes(),
        name_of_kind(letter.kind).as_bytes(),
        text_of_number(letter.due, &mut due).as_bytes(),
        name_of_fate(letter.fate).as_bytes(),
    ])
}

/// The text of letters as comma-separated values: a line that names the columns, `sent,sender,receiver,number,kind,due,
/// fate`, and a row for each letter, in their order. Each line ends with a line feed, and no field is quoted. `due` is
/// empty of a letter that was lost.
///
/// # Errors
///
/// `AllocError` where memory was refused.
#[tactic(auto, unfolding(crate::specs::LettersText::letters_text, crate::specs::LettersText::letters_header))]
pub fn letters_text(alloc: Global, letters: &[Letter]) -> Result<Vec<u8>, AllocError>
    ensures { IfOk result (λ text. text.items ≡ text_for letters.now) }
{
    let mut rows = Rows::new(alloc, HEADER)?;
    for letter in letters {
        push_letter(&mut rows, letter)?;
    }
    rows.into_text()
}
