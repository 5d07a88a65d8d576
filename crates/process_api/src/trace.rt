//! Traces.
ghost use Rattle.std.specs.{Prelude.{◌≡◌, IsTrue}, Cmp.{partial_equiv_from_equiv}};
ghost use Rattle.process_api.specs.Order.{is_rising};

use crate::entry::Entry;
use std::marker::Model;

/// The entries of a run, with strictly rising keys. Contracts see their list.
#[derive(Debug, Drop)]
pub struct Trace {
    entries: Vec<Entry>,
}

impl Model for Trace {
    ghost use Rattle.{std.specs.Prelude.{List, IsTrue}, process_api.specs.Order.{EntryRecord, is_rising}};

    ghost Value = { List EntryRecord };

    ghost view = { λ t. t.entries.items };

    ghost invariant = { λ t. IsTrue (is_rising t.entries.items) };
}

impl PartialEq for Trace {
    ghost use Rattle.process_api.specs.{Same.{are_same_entries}, Inside.SameLaws.{entries_equiv}};

    ghost eq = { are_same_entries };

    ghost laws = { partial_equiv_from_equiv entries_equiv };

    fn eq(&self, other: &Trace) -> bool {
        self.entries == other.entries
    }
}

impl Eq for Trace {
    ghost use Rattle.process_api.specs.Inside.SameLaws.{entries_equiv};

    ghost laws = { entries_equiv };
}

impl Trace {
    /// The trace of these entries.
    pub fn new(entries: Vec<Entry>) -> Trace
        requires { IsTrue (is_rising entries.items) }
        ensures { result ≡ entries.items }
    {
        Trace { entries }
    }

    /// The entries, in the order of their keys.
    pub fn entries(&self) -> &[Entry]
        ensures value { result.now ≡ self.now }
        ensures rising { IsTrue (is_rising result.now) }
    {
        self.entries.as_slice()
    }

    /// The entries, in the order of their keys.
    pub fn into_vec(self) -> Vec<Entry>
        ensures value { result.items ≡ self }
        ensures rising { IsTrue (is_rising result.items) }
    {
        self.entries
    }
}
