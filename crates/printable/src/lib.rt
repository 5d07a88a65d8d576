//! Texts as they are printed. A control character in a quoted text would change what a terminal shows.
//!
//! [`Printable`] is for what is quoted from a file or from a word, and prints it on one line. [`PrintableLines`] is for
//! a text of several lines that quotes words. Both print a control character by its number, as `\u{1b}`, and all else
//! as it is (`specs/Printable.antt`).
//!
//! For example, a key `a` with an escape sequence after it is printed as `a\u{1b}[31m`.
#![tactic(auto)]

ghost use Rattle.std.specs.{Fmt.{WritesOnOk}, List.{flat_map}, Str.{chars}};
ghost use Rattle.printable.specs.Printable.{shown, shown_in_lines, shown_as};

use std::fmt;

/// A text that is printed on one line.
#[derive(Clone, Copy)]
pub struct Printable<'a>(pub &'a str);

/// A text that is printed in its lines.
#[derive(Clone, Copy)]
pub struct PrintableLines<'a>(pub &'a str);

/// Writes a character, or its number where it is a control character.
fn write_shown<W: fmt::Write>(f: &mut fmt::Formatter<W>, c: char) -> fmt::Result
    ensures { WritesOnOk W.Write.write_str_gives f.old result (shown c) f.new }
{
    if c.is_control() {
        let number = c as u32;
        write!(f, "\\u{{{number:x}}}")
    } else {
        f.write_char(c)
    }
}

/// Writes a character, where the end of a line stays.
fn write_in_lines<W: fmt::Write>(f: &mut fmt::Formatter<W>, c: char) -> fmt::Result
    ensures { WritesOnOk W.Write.write_str_gives f.old result (shown_in_lines c) f.new }
{
    if c == '\n' {
        f.write_str("\n")
    } else {
        write_shown(f, c)
    }
}

/// Writes a character of a text that is printed in its lines, or on one.
fn write_one<W: fmt::Write>(f: &mut fmt::Formatter<W>, c: char, in_lines: bool) -> fmt::Result
    ensures { WritesOnOk W.Write.write_str_gives f.old result (shown_as in_lines c) f.new }
{
    if in_lines {
        write_in_lines(f, c)
    } else {
        write_shown(f, c)
    }
}

/// Writes the characters of a text, in its lines or on one.
fn write_text<W: fmt::Write>(f: &mut fmt::Formatter<W>, text: &str, in_lines: bool) -> fmt::Result
    ensures { WritesOnOk W.Write.write_str_gives f.old result (flat_map (shown_as in_lines) (chars text.now)) f.new }
{
    for c in text.chars() {
        write_one(f, c, in_lines)?;
    }
    Ok(())
}

impl fmt::Display for Printable<'_> {
    ghost use Rattle.{std.specs.Prelude.{Some}, printable.specs.Printable.{printable}};

    ghost output = { λ p. Some (printable p.0.now) };

    #[tactic(auto, unfolding(crate::specs::Printable::printable))]
    fn fmt<W: fmt::Write>(&self, f: &mut fmt::Formatter<W>) -> fmt::Result {
        write_text(f, self.0, false)
    }
}

impl fmt::Display for PrintableLines<'_> {
    ghost use Rattle.{std.specs.Prelude.{Some}, printable.specs.Printable.{printable_lines}};

    ghost output = { λ p. Some (printable_lines p.0.now) };

    #[tactic(auto, unfolding(crate::specs::Printable::printable_lines))]
    fn fmt<W: fmt::Write>(&self, f: &mut fmt::Formatter<W>) -> fmt::Result {
        write_text(f, self.0, true)
    }
}
