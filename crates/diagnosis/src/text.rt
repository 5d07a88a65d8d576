//! Diagnoses in words.
ghost use Rattle.std.specs.{Prelude.{◌≡◌, Some}, Fmt.{WritesOnOk}};
ghost use Rattle.printable.specs.Printable.{printable};
ghost use Rattle.diagnosis.specs.Text.{path_text, suggestion_text, is_detector, is_of_freshness, is_of_timeout, kind_hint, unknown_hint, kind_words, found_text, unit_text, wrong_kind_text, is_of_second, outside_hint, outside_text, names_text, none_of_text, proposals_text, not_before_text, fault_text, finding_text, not_toml_text, refused_text};

use crate::answer::Refused;
use crate::told::{NotToml, Told};
use printable::Printable;
use process_api::MOST_PROCESSES;
use scenario::{
    Fault, Finding, Kind, MinAboveMax, Outside, Place, ProposalsFault, Section, UnknownKey,
    WrongKind, is_listed_key, lies_within,
};
use std::fmt;

/// Writes the path of a key of a table, as a study's settings name it: `horizon`, `detector.timeout` or `crash[1].at`.
fn write_path<W: fmt::Write>(f: &mut fmt::Formatter<W>, place: Place, key: &str) -> fmt::Result
    ensures { WritesOnOk W.Write.write_str_gives f.old result (path_text place key.now) f.new }
{
    match place {
        Place::Top => f.write_str(key),
        _ => write!(f, "{place}.{key}"),
    }
}

/// Writes the path of a key that is quoted from a file.
fn write_quoted_path<W: fmt::Write>(
    f: &mut fmt::Formatter<W>,
    place: Place,
    key: &str,
) -> fmt::Result
    ensures { WritesOnOk W.Write.write_str_gives f.old result (path_text place (printable key.now)) f.new }
{
    let key = Printable(key);
    match place {
        Place::Top => write!(f, "{key}"),
        _ => write!(f, "{place}.{key}"),
    }
}

/// Writes the key that is perhaps meant.
fn write_suggestion<W: fmt::Write>(
    f: &mut fmt::Formatter<W>,
    place: Place,
    suggestion: Option<&str>,
) -> fmt::Result
    ensures { WritesOnOk W.Write.write_str_gives f.old result (suggestion_text place suggestion.entry) f.new }
{
    match suggestion {
        Some(key) => {
            f.write_str(" (did you mean ")?;
            write_path(f, place, key)?;
            f.write_str("?)")
        }
        None => Ok(()),
    }
}

/// Whether the place is that of the detector's table.
fn is_of_detector(place: Place) -> bool
    ensures { result ≡ is_detector place }
{
    matches!(place, Place::Section(Section::Detector))
}

/// Whether the key is one of a detector that names freshness points alone.
fn is_freshness_key(key: &str) -> bool
    ensures { result ≡ is_of_freshness key.now }
{
    key == "eta" || key == "delta"
}

/// Whether the key is one of a detector alone that names none.
fn is_timeout_key(key: &str) -> bool
    ensures { result ≡ is_of_timeout key.now }
{
    key == "period" || key == "check" || key == "timeout" || key == "grow"
}

/// Writes which kind of detector has the key, or the key that is perhaps meant.
fn write_kind_hint<W: fmt::Write>(
    f: &mut fmt::Formatter<W>,
    place: Place,
    key: &str,
    meant: Option<&str>,
) -> fmt::Result
    ensures { WritesOnOk W.Write.write_str_gives f.old result (kind_hint place key.now meant.entry) f.new }
{
    if is_of_detector(place) && is_freshness_key(key) {
        f.write_str(" (kind = \"freshness\" of version 2 has it)")
    } else if is_of_detector(place) && is_timeout_key(key) {
        f.write_str(" (kind = \"timeout\" has it)")
    } else {
        write_suggestion(f, place, meant)
    }
}

/// Writes that version 2 has the key, or which kind of detector, or the key that is perhaps meant.
fn write_unknown_hint<W: fmt::Write>(
    f: &mut fmt::Formatter<W>,
    place: Place,
    unknown: &UnknownKey,
    meant: Option<&str>,
) -> fmt::Result
    ensures { WritesOnOk W.Write.write_str_gives f.old result (unknown_hint place unknown.now meant.entry) f.new }
{
    if is_listed_key(unknown.in_second, unknown.key) {
        f.write_str(" (version 2 allows it)")
    } else {
        write_kind_hint(f, place, unknown.key, meant)
    }
}

/// The words for a kind.
fn words_of(kind: Kind) -> &'static str
    ensures { result.now ≡ kind_words kind }
{
    match kind {
        Kind::Number => "an integer",
        Kind::Text => "a string",
        Kind::Numbers => "an array of integers",
        Kind::Table => "a table",
        Kind::Tables => "an array of tables",
    }
}

/// Writes TOML's word for what a value is.
fn write_found<W: fmt::Write>(f: &mut fmt::Formatter<W>, found: &str) -> fmt::Result
    ensures { WritesOnOk W.Write.write_str_gives f.old result (found_text found.now) f.new }
{
    if found == "array" {
        f.write_str("another array")
    } else {
        write!(f, "of TOML's kind {found}")
    }
}

/// Writes in which unit a key's number is, where it is easily mistaken.
fn write_unit<W: fmt::Write>(f: &mut fmt::Formatter<W>, key: &str) -> fmt::Result
    ensures { WritesOnOk W.Write.write_str_gives f.old result (unit_text key.now) f.new }
{
    if key == "loss" {
        f.write_str(" (loss is in thousandths)")
    } else {
        Ok(())
    }
}

/// Writes that a value is of another kind than its key's.
fn write_wrong_kind<W: fmt::Write>(
    f: &mut fmt::Formatter<W>,
    place: Place,
    wrong: &WrongKind,
) -> fmt::Result
    ensures { WritesOnOk W.Write.write_str_gives f.old result (wrong_kind_text place wrong.now) f.new }
{
    write_path(f, place, wrong.key)?;
    let wanted = words_of(wrong.wanted);
    write!(f, ": not {wanted}, but ")?;
    write_found(f, wrong.found)?;
    write_unit(f, wrong.key)
}

/// Whether a file of version 2 may have so many processes.
fn allows_second(outside: &Outside) -> bool
    ensures { result ≡ is_of_second outside.now }
{
    outside.key == "processes" && lies_within(outside.value, 1, u64::from(MOST_PROCESSES))
}

/// Writes that a file of version 2 may have so many processes.
fn write_outside_hint<W: fmt::Write>(f: &mut fmt::Formatter<W>, outside: &Outside) -> fmt::Result
    ensures { WritesOnOk W.Write.write_str_gives f.old result (outside_hint outside.now) f.new }
{
    if allows_second(outside) {
        f.write_str(" (version 2 allows it)")
    } else {
        Ok(())
    }
}

/// Writes that a number lies outside its range.
fn write_outside<W: fmt::Write>(
    f: &mut fmt::Formatter<W>,
    place: Place,
    outside: &Outside,
) -> fmt::Result
    ensures { WritesOnOk W.Write.write_str_gives f.old result (outside_text place outside.now) f.new }
{
    let (value, low, high) = (outside.value, outside.low, outside.high);
    write_path(f, place, outside.key)?;
    write!(f, ": {value} is not {low} to {high}")?;
    write_outside_hint(f, outside)
}

/// Writes names, each after a space.
fn write_names<W: fmt::Write>(f: &mut fmt::Formatter<W>, names: &[&str]) -> fmt::Result
    ensures { WritesOnOk W.Write.write_str_gives f.old result (names_text names.now) f.new }
{
    for name in names {
        write!(f, " {name}")?;
    }
    Ok(())
}

/// Writes a text and the names of which it is none.
fn write_none_of<W: fmt::Write>(
    f: &mut fmt::Formatter<W>,
    value: &str,
    names: &[&str],
) -> fmt::Result
    ensures { WritesOnOk W.Write.write_str_gives f.old result (none_of_text (printable value.now) names.now) f.new }
{
    let value = Printable(value);
    write!(f, ": \"{value}\" is none of")?;
    write_names(f, names)
}

/// Writes how proposals don't fit.
fn write_proposals<W: fmt::Write>(f: &mut fmt::Formatter<W>, fault: &ProposalsFault) -> fmt::Result
    ensures { WritesOnOk W.Write.write_str_gives f.old result (proposals_text fault.now) f.new }
{
    match fault {
        ProposalsFault::Unasked => f.write_str("proposals: there are some, and no algorithm"),
        ProposalsFault::Missing { processes } => {
            write!(f, "proposals: there are none, and {processes} processes")
        }
        ProposalsFault::Count { count, processes } => {
            write!(f, "proposals: there are {count}, and {processes} processes")
        }
        ProposalsFault::Outside { number, value } => {
            write!(f, "proposals[{number}]: {value} is not 0 to 4294967295")
        }
    }
}

/// Writes that an outage's `begin` isn't below its `until`.
fn write_not_before<W: fmt::Write>(
    f: &mut fmt::Formatter<W>,
    place: Place,
    begin: i64,
    until: i64,
) -> fmt::Result
    ensures { WritesOnOk W.Write.write_str_gives f.old result (not_before_text place begin until) f.new }
{
    write!(f, "{place}: begin {begin} is not below until {until}")
}

/// Writes what is wrong with the table at a place.
fn write_fault<W: fmt::Write>(
    f: &mut fmt::Formatter<W>,
    place: Place,
    fault: &Fault,
    meant: Option<&str>,
) -> fmt::Result
    ensures { WritesOnOk W.Write.write_str_gives f.old result (fault_text place fault.now meant.entry) f.new }
{
    match fault {
        Fault::UnknownKey(unknown) => {
            write_quoted_path(f, place, unknown.key)?;
            write_unknown_hint(f, place, unknown, meant)
        }
        Fault::MissingKey { key } => write_path(f, place, key),
        Fault::WrongKind(wrong) => write_wrong_kind(f, place, wrong),
        Fault::Outside(outside) => write_outside(f, place, outside),
        Fault::OtherName(other) => {
            write_path(f, place, other.key)?;
            write_none_of(f, other.value, other.allowed)
        }
        Fault::MinAboveMax(MinAboveMax { min, max }) => {
            write!(f, "{place}: min {min} is above max {max}")
        }
        Fault::ToItself { process } => write!(f, "{place}: from and to are both {process}"),
        Fault::NotBefore(ends) => write_not_before(f, place, ends.begin, ends.until),
    }
}

impl<'a> fmt::Display for NotToml<'a> {
    ghost output = { λ n. Some (not_toml_text n) };

    /// Writes where and why bytes are no TOML, as `line 2, column 3: invalid UTF-8`.
    fn fmt<W: fmt::Write>(&self, f: &mut fmt::Formatter<W>) -> fmt::Result {
        let (line, column) = (self.line, self.column);
        let message = Printable(self.message);
        write!(f, "line {line}, column {column}: {message}")
    }
}

impl<'a> fmt::Display for Told<'a> {
    ghost output = { λ t. Some (finding_text t.finding.now t.meant) };

    /// Writes what is wrong, and where, as `links[2500]: min 21 is above max 20`.
    fn fmt<W: fmt::Write>(&self, f: &mut fmt::Formatter<W>) -> fmt::Result {
        match self.finding {
            Finding::At { place, fault } => write_fault(f, *place, fault, self.meant),
            Finding::Proposals(fault) => write_proposals(f, fault),
            Finding::Below(below) => {
                let (from, to) = (below.from.number(), below.to.number());
                let (min, lookahead) = (below.min, below.lookahead);
                write!(
                    f,
                    "link {from} to {to}: min {min} is below the lookahead {lookahead}"
                )
            }
            Finding::TwicePair {
                from,
                to,
                number,
                earlier,
            } => write!(
                f,
                "links[{number}]: link {from} to {to} has a table already, links[{earlier}]"
            ),
            Finding::TwiceProcess {
                process,
                number,
                earlier,
            } => write!(
                f,
                "crash[{number}]: process {process} has a table already, crash[{earlier}]"
            ),
        }
    }
}

impl fmt::Display for Refused {
    ghost output = { λ r. Some (refused_text r) };

    /// Writes the refusal's line, as `LinkNumbers: links[2500]: min 21 is above max 20`.
    fn fmt<W: fmt::Write>(&self, f: &mut fmt::Formatter<W>) -> fmt::Result {
        f.write_str(self.line.as_str())
    }
}
