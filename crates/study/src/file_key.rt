//! Keys of a file.
ghost use Rattle.std.specs.Prelude.{◌≡◌};
ghost use Rattle.study.specs.{Settings.{file_path_of}, Grid.{meets_in_file}};

use std::fmt;

/// A key of a file, by its path.
#[derive(Drop)]
pub enum FileKey {
    /// A key of the top table, as `horizon`.
    Top(String),
    /// A key of a table of the top table, as `detector.timeout`.
    Inner {
        /// The table.
        table: String,
        /// The key in it.
        key: String,
    },
    /// A key of a table of an array of tables, as `crash[1].at`.
    Element {
        /// The array.
        array: String,
        /// Which of its tables, from 1.
        place: u64,
        /// The key in that table.
        key: String,
    },
    /// A key of every table of an array of tables, as `crash[*].at`.
    Every {
        /// The array.
        array: String,
        /// The key in each of its tables.
        key: String,
    },
}

impl FileKey {
    /// Whether there may be a key of a table that both set: they are written alike, or one of them names every table of
    /// the other's array.
    pub(crate) fn meets(&self, other: &FileKey) -> bool
        ensures { result ≡ meets_in_file (file_path_of self.now) (file_path_of other.now) }
    {
        match (self, other) {
            (FileKey::Top(key), FileKey::Top(other_key)) => key.as_str() == other_key.as_str(),
            (
                FileKey::Inner { table, key },
                FileKey::Inner {
                    table: other_table,
                    key: other_key,
                },
            ) => table.as_str() == other_table.as_str() && key.as_str() == other_key.as_str(),
            (
                FileKey::Element { array, place, key },
                FileKey::Element {
                    array: other_array,
                    place: other_place,
                    key: other_key,
                },
            ) => {
                array.as_str() == other_array.as_str()
                    && *place == *other_place
                    && key.as_str() == other_key.as_str()
            }
            (
                FileKey::Element { array, key, .. } | FileKey::Every { array, key },
                FileKey::Element {
                    array: other_array,
                    key: other_key,
                    ..
                }
                | FileKey::Every {
                    array: other_array,
                    key: other_key,
                },
            ) => array.as_str() == other_array.as_str() && key.as_str() == other_key.as_str(),
            _ => false,
        }
    }
}

impl fmt::Display for FileKey {
    ghost use Rattle.{std.specs.Prelude.{Some}, study.specs.Settings.{file_path_of, file_key_text}};

    ghost output = { λ k. Some (file_key_text (file_path_of k)) };

    fn fmt<W: fmt::Write>(&self, f: &mut fmt::Formatter<W>) -> fmt::Result {
        match self {
            FileKey::Top(key) => write!(f, "{key}"),
            FileKey::Inner { table, key } => write!(f, "{table}.{key}"),
            FileKey::Element { array, place, key } => write!(f, "{array}[{place}].{key}"),
            FileKey::Every { array, key } => write!(f, "{array}[*].{key}"),
        }
    }
}
