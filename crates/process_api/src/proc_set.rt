//! Sets of processes, as bit words.
ghost use Rattle.std.specs.{Prelude.{◌≡◌, nat_eq, IsNone, IfSome}, Iterator.{YieldsFirst, item_count}, Cmp.{partial_equiv_from_equiv}};
ghost use Rattle.std.specs.FinSet as set;
ghost use Rattle.process_api.specs.{ConsensusS.{all_to}, Sets.{in_order, HasAbove, of_word, up_to}};

use crate::pid::Pid;
use crate::words::{WORDS, clear, count, either, first_with_bits, low, put, without};
use std::marker::Model;

/// A set of processes. Contracts see the finite set of their numbers.
#[derive(Debug, Drop)]
pub struct ProcSet {
    // process q is bit q - 1
    words: [u64; WORDS],
}

impl Model for ProcSet {
    ghost use Rattle.std.specs.Coded.{coded_ℕ};
    ghost use Rattle.std.specs.FinSet as set;
    ghost use Rattle.process_api.specs.{Sets.{Processes}, Inside.Bits.{is_set, members}, Place.{most_processes}};

    ghost Value = { Processes };

    ghost coded = { set.code coded_ℕ };

    ghost view = { λ s. members most_processes (is_set s.words) };
}

impl ProcSet {
    /// The empty set.
    pub fn new() -> ProcSet
        ensures { result ≡ set.empty }
    {
        ProcSet { words: [0; WORDS] }
    }

    /// The set that a word says: of the processes 1 to 64 those whose bit is set, where process q has bit q - 1.
    #[inline(always)]
    pub fn of_word(word: u64) -> ProcSet
        ensures { result ≡ of_word word }
    {
        ProcSet {
            words: [word, 0, 0, 0],
        }
    }

    /// The word that says the set, if no member is above 64: process q, 1 to 64, has bit q - 1.
    #[inline(always)]
    pub fn to_word(&self) -> Option<u64>
        ensures word { IfSome result (λ word. of_word word ≡ self.now) }
        ensures above { IsNone result → HasAbove 64 self.now }
    {
        let [word, second, third, fourth] = self.words;
        if second | third | fourth != 0 {
            return None;
        }
        Some(word)
    }

    /// Whether the process is in the set.
    pub fn contains(&self, p: Pid) -> bool
        ensures { result ≡ set.contains self.now p }
    {
        let place = usize::from(p.number()) - 1;
        (self.words[place / 64] >> (place % 64)) & 1 == 1
    }

    /// Puts the process into the set.
    pub fn insert(&mut self, p: Pid)
        ensures { self.new ≡ set.insert self.old p }
    {
        put(&mut self.words, usize::from(p.number()) - 1);
    }

    /// Takes the process out of the set.
    pub fn remove(&mut self, p: Pid)
        ensures { self.new ≡ set.remove self.old p }
    {
        clear(&mut self.words, usize::from(p.number()) - 1);
    }

    /// The same set.
    pub fn copy(&self) -> ProcSet
        ensures { result ≡ self.now }
    {
        ProcSet { words: self.words }
    }

    /// The members of either set.
    pub fn union(&self, other: &ProcSet) -> ProcSet
        ensures { result ≡ set.union self.now other.now }
    {
        ProcSet {
            words: either(&self.words, &other.words),
        }
    }

    /// The members that aren't in the other set.
    pub fn without(&self, other: &ProcSet) -> ProcSet
        ensures { result ≡ set.difference self.now other.now }
    {
        ProcSet {
            words: without(&self.words, &other.words),
        }
    }

    /// The members that are at most n.
    pub fn up_to(&self, n: u16) -> ProcSet
        ensures { result ≡ up_to n self.now }
    {
        ProcSet {
            words: low(&self.words, usize::from(n)),
        }
    }

    /// Whether each of processes 1 to n is in the set.
    pub fn has_all(&self, n: u16) -> bool
        ensures { result ≡ all_to n (set.contains self.now) }
    {
        count(&low(&self.words, usize::from(n))) == u32::from(n)
    }

    /// How many members the set has, 0 to [`MOST_PROCESSES`](crate::MOST_PROCESSES).
    pub fn len(&self) -> u32
        ensures { result ≡ set.len self.now }
    {
        count(&self.words)
    }

    /// Whether the set has no member.
    pub fn is_empty(&self) -> bool
        ensures { result ≡ nat_eq (set.len self.now) 0 }
    {
        self.len() == 0
    }

    /// The members, in rising order.
    pub fn iter(&self) -> Members
        ensures { result ≡ in_order self.now }
    {
        Members { words: self.words }
    }
}

impl PartialEq for ProcSet {
    ghost use Rattle.process_api.specs.{Same.{has_same}, Inside.SameLaws.{same_equiv}};

    ghost eq = { has_same };

    ghost laws = { partial_equiv_from_equiv same_equiv };

    fn eq(&self, other: &ProcSet) -> bool {
        self.without(other).is_empty() && other.without(self).is_empty()
    }
}

impl Eq for ProcSet {
    ghost use Rattle.process_api.specs.Inside.SameLaws.{same_equiv};

    ghost laws = { same_equiv };
}

impl IntoIterator for &ProcSet {
    type Item = Pid;

    type IntoIter = Members;

    ghost into_iter_gives = { λ s r. r ≡ in_order s.now };

    fn into_iter(self) -> Members {
        self.iter()
    }
}

/// The members of a set, in rising order. Contracts see the list of those that are left.
#[derive(Drop)]
pub struct Members {
    // of those that are left, process q is bit q - 1
    words: [u64; WORDS],
}

impl Model for Members {
    ghost use Rattle.std.specs.Prelude.{ℕ, List};
    ghost use Rattle.process_api.specs.{Inside.Bits.{is_set, members}, Place.{most_processes}, Sets.{in_order}};

    ghost Value = { List ℕ };

    ghost view = { λ s. in_order (members most_processes (is_set s.words)) };
}

impl Iterator for Members {
    type Item = Pid;

    ghost next_gives = { YieldsFirst (λ rest. rest) };

    ghost remaining = { item_count (λ rest. rest) };

    fn next(&mut self) -> Option<Pid> {
        let Some(k) = first_with_bits(&self.words) else {
            return None;
        };
        let place = k * 64 + self.words[k].trailing_zeros() as usize;
        clear(&mut self.words, place);
        Some(Pid::after(place as u16))
    }
}
