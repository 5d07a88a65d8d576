//! Where a table stands in a scenario's file.
ghost use Rattle.std.specs.Prelude.{◌≡◌, ◌<◌, ◌+◌, length, Some};
ghost use Rattle.scenario.specs.Keys.{section_key, array_key};

use std::fmt;
use toml::Table;

/// A table of the top table.
#[derive(Clone, Copy)]
pub enum Section {
    /// `detector`.
    Detector,
    /// `share`.
    Share,
    /// `link`.
    Link,
}

/// An array of tables of the top table.
#[derive(Clone, Copy)]
pub enum TableArray {
    /// `links`.
    Links,
    /// `crash`.
    Crash,
    /// `outage`.
    Outage,
}

/// A table of a scenario's file.
#[derive(Clone, Copy)]
pub enum Place {
    /// The top table.
    Top,
    /// A table of the top table.
    Section(Section),
    /// A table of an array of tables.
    Element {
        /// The array.
        array: TableArray,
        /// Which of its tables, from 1.
        number: u64,
    },
}

impl Section {
    /// The key at which the table stands.
    pub fn key(self) -> &'static str
        ensures { result.now ≡ section_key self }
    {
        match self {
            Section::Detector => "detector",
            Section::Share => "share",
            Section::Link => "link",
        }
    }
}

impl TableArray {
    /// The key at which the array stands.
    pub fn key(self) -> &'static str
        ensures { result.now ≡ array_key self }
    {
        match self {
            TableArray::Links => "links",
            TableArray::Crash => "crash",
            TableArray::Outage => "outage",
        }
    }

    /// The place of one of the array's tables, from 0.
    pub(crate) fn place(self, tables: &[&Table], i: usize) -> Place
        requires { i < length tables.now }
        ensures { result ≡ Place.Element self (i + 1) }
    {
        Place::Element {
            array: self,
            number: i as u64 + 1,
        }
    }
}

impl fmt::Display for Place {
    ghost use Rattle.scenario.specs.Keys.{place_text};

    ghost output = { λ p. Some (place_text p) };

    /// Writes the table's path: nothing for the top table, `detector`, or `crash[1]`.
    fn fmt<W: fmt::Write>(&self, f: &mut fmt::Formatter<W>) -> fmt::Result {
        match self {
            Place::Top => Ok(()),
            Place::Section(section) => f.write_str(section.key()),
            Place::Element { array, number } => {
                let key = array.key();
                write!(f, "{key}[{number}]")
            }
        }
    }
}
