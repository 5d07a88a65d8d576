//! Groups of pairs of processes: which pairs a row counts.
ghost use Rattle.std.specs.{Prelude.{◌≡◌, IfOk}, List.{list_any}};
ghost use Rattle.sweep.specs.Groups.{groups_of, has_pair, is_above, is_among, is_block_above, is_in, is_of_block, is_said, names_above};

use process_api::Pid;
use std::alloc::{AllocError, Global};

/// Processes, from a first to a last.
#[derive(Clone, Copy, Debug, PartialEq, Eq)]
pub struct Processes {
    /// The first, 1 to 256.
    pub first: u16,
    /// The last, in the same range and not below the first.
    pub last: u16,
}

impl Processes {
    fn has(self, process: Pid) -> bool
        ensures { result ≡ is_among self process }
    {
        self.first <= process.number() && process.number() <= self.last
    }
}

/// The pairs of each of some observers and each of some subjects.
#[derive(Clone, Copy, Debug, PartialEq, Eq)]
pub struct PairBlock {
    /// The observers.
    pub observers: Processes,
    /// The subjects.
    pub subjects: Processes,
}

impl PairBlock {
    fn has(self, observer: Pid, subject: Pid) -> bool
        ensures { result ≡ is_of_block observer subject self }
    {
        self.observers.has(observer) && self.subjects.has(subject)
    }

    /// Whether it names a process above this one.
    fn is_above(self, process: u16) -> bool
        ensures { result ≡ is_block_above process self }
    {
        self.observers.last > process || self.subjects.last > process
    }
}

/// The pairs of different processes that one of some blocks has, or several.
#[derive(Debug, Drop)]
pub struct PairGroup {
    /// The word that says the group ([`PairGroup::parse`]).
    pub(crate) word: String,
    pub(crate) blocks: Vec<PairBlock>,
}

impl PairGroup {
    /// Whether one of the blocks has the pair.
    fn has(&self, observer: Pid, subject: Pid) -> bool
        ensures { result ≡ has_pair self.now observer subject }
    {
        self.blocks.iter().any(|block| block.has(observer, subject))
    }

    /// Whether it names a process above this one.
    fn is_above(&self, process: u16) -> bool
        ensures { result ≡ names_above process self.now }
    {
        self.blocks.iter().any(|block| block.is_above(process))
    }
}

/// The pairs that a row counts.
#[derive(Debug, Drop)]
pub enum Group {
    /// All pairs.
    All,
    /// Those of a group.
    Said(PairGroup),
}

impl Group {
    /// Whether a pair is of the group.
    pub(crate) fn has(&self, observer: Pid, subject: Pid) -> bool
        ensures { result ≡ is_in self.now observer subject }
    {
        match self {
            Group::All => true,
            Group::Said(group) => group.has(observer, subject),
        }
    }

    /// Whether it names a process above this one.
    pub(crate) fn is_above(&self, process: u16) -> bool
        ensures { result ≡ is_above process self.now }
    {
        match self {
            Group::All => false,
            Group::Said(group) => group.is_above(process),
        }
    }

    /// Whether a word says it.
    fn is_said(&self) -> bool
        ensures { result ≡ is_said self.now }
    {
        match self {
            Group::All => false,
            Group::Said(_) => true,
        }
    }
}

/// The groups of which rows tell: these, or that of all pairs, where there is none of these.
pub(crate) fn groups_of(alloc: Global, said: Vec<PairGroup>) -> Result<Vec<Group>, AllocError>
    ensures { IfOk result (λ groups. groups.items ≡ groups_of said.items) }
{
    let mut groups = Vec::new(alloc);
    for group in said {
        groups.push(Group::Said(group))?;
    }
    if groups.is_empty() {
        groups.push(Group::All)?;
    }
    Ok(groups)
}

/// Whether one of the groups is said by a word.
pub(crate) fn are_any_said(groups: &[Group]) -> bool
    ensures { result ≡ list_any is_said groups.now }
{
    groups.iter().any(|group| group.is_said())
}
