//! The text of an entry's notes.
ghost use Rattle.std.specs.{Prelude.{◌≡◌, ◌++◌, ◌∷◌, decimal, OnOk}, List.{flat_map}};
ghost use Rattle.reporting.specs.{Inside.Plain.{IsPlain}, TraceText.{note_text, notes_text}};

use crate::digits::digits_of;
use itoa::Buffer;
use process_api::Note;
use std::alloc::{AllocError, Global};

/// Appends a word and a number.
fn append_number(text: &mut Vec<u8>, word: &[u8], number: u64) -> Result<(), AllocError>
    ensures text { OnOk result (text.new.items ≡ text.old.items ++ (word.now ++ decimal number)) }
    ensures plain { OnOk result (IsPlain text.old.items → IsPlain word.now → IsPlain text.new.items) }
{
    let mut digits = Buffer::new();
    text.extend_from_slice(word)?;
    text.extend_from_slice(digits_of(&mut digits, number).as_bytes())
}

/// Appends a word, a layer and a process's number.
fn append_subject(text: &mut Vec<u8>, word: &[u8], layer: u8, who: u16) -> Result<(), AllocError>
    ensures text { OnOk result (text.new.items
        ≡ text.old.items ++ (word.now ++ (decimal layer ++ (58 ∷ decimal who)))) }
    ensures plain { OnOk result (IsPlain text.old.items → IsPlain word.now → IsPlain text.new.items) }
{
    append_number(text, word, u64::from(layer))?;
    append_number(text, b":", u64::from(who))
}

/// Appends the text of a note.
fn append_note(text: &mut Vec<u8>, note: Note) -> Result<(), AllocError>
    ensures text { OnOk result (text.new.items ≡ text.old.items ++ note_text note) }
    ensures plain { OnOk result (IsPlain text.old.items → IsPlain text.new.items) }
{
    match note {
        Note::Suspect { layer, who } => append_subject(text, b"suspect:", layer, who.number()),
        Note::Trust { layer, who } => append_subject(text, b"trust:", layer, who.number()),
        Note::Round(round) => append_number(text, b"round:", round),
        Note::Decided(value) => append_number(text, b"decided:", u64::from(value)),
        Note::NoValue => text.extend_from_slice(b"novalue"),
    }
}

/// Appends these notes, each after a space.
fn append_others(text: &mut Vec<u8>, notes: &[Note]) -> Result<(), AllocError>
    ensures text { OnOk result (text.new.items ≡ text.old.items ++ flat_map (λ n. 32 ∷ note_text n) notes.now) }
    ensures plain { OnOk result (IsPlain text.old.items → IsPlain text.new.items) }
{
    for note in notes {
        text.push(b' ')?;
        append_note(text, *note)?;
    }
    Ok(())
}

/// Appends the text of notes, of which there is one at least.
#[inline(never)]
fn append_notes(text: &mut Vec<u8>, first: Note, others: &[Note]) -> Result<(), AllocError>
    ensures text { OnOk result (text.new.items
        ≡ text.old.items ++ (note_text first ++ flat_map (λ n. 32 ∷ note_text n) others.now)) }
    ensures plain { OnOk result (IsPlain text.old.items → IsPlain text.new.items) }
{
    append_note(text, first)?;
    append_others(text, others)
}

/// Puts the text of an entry's notes in the place of what the buffer held. Where there are none it takes no memory.
#[inline(always)]
pub(crate) fn form_notes(text: &mut Vec<u8>, notes: &[Note]) -> Result<(), AllocError>
    ensures text { OnOk result (text.new.items ≡ notes_text notes.now) }
    ensures plain { OnOk result (IsPlain text.new.items) }
{
    text.clear();
    match notes.split_first() {
        None => Ok(()),
        Some((first, others)) => append_notes(text, *first, others),
    }
}
