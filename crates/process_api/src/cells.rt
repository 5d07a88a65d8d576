//! Vectors of proposals.
ghost use Rattle.std.specs.{Prelude.{◌≡◌, ◌==◌, ◌-◌, IfOk, MatchOption, None, Some, false, get_or, length, nat_eq, replicate, true}, List.{slice_get}, Option.{option_eq}, Cmp.{Lexicographic.{pointwise}, Rules.{comparing}}};
ghost use Rattle.{std.proofs.Common.{rules}, process_api.specs.Rows.{EndsFilled, IsSomeKnown, cell}};

use crate::pid::Pid;
use std::alloc::{AllocError, Global};
use std::marker::Model;

/// For each process what is known of its proposal. Contracts see the list of cells: process k has cell k, from 1.
#[derive(Debug, Drop)]
pub struct Cells {
    // without the empty ones at the end: the last is filled
    cells: Vec<Option<u32>>,
    // how many there are, with those
    count: usize,
}

impl Model for Cells {
    ghost use Rattle.std.specs.Prelude.{ℕ, ◌-◌, ◌≤◌, ◌++◌, List, Option, None, length, replicate};
    ghost use Rattle.process_api.specs.Rows.{EndsFilled};

    ghost Value = { List (Option ℕ) };

    ghost view = { λ s. s.cells.items ++ replicate (s.count - length s.cells.items) None };

    ghost invariant = { λ s. (length s.cells.items ≤ s.count) × EndsFilled s.cells.items };
}

impl PartialEq for Cells {
    ghost eq = { pointwise (option_eq ◌==◌) };

    ghost laws = { Prim.search (comparing, rules) };

    fn eq(&self, other: &Cells) -> bool {
        if self.count != other.count {
            return false;
        }
        for place in 0..self.count {
            if self.at(place) != other.at(place) {
                return false;
            }
        }
        true
    }
}

impl Eq for Cells {
    ghost laws = { Prim.search (comparing, rules) };
}

/// Whether there are cells, and the last of them is empty.
fn ends_empty(cells: &[Option<u32>]) -> bool
    ensures yes { result ≡ true → slice_get cells.now (length cells.now - 1) ≡ Some None }
    ensures no { result ≡ false → EndsFilled cells.now }
{
    match cells.last() {
        Some(last) => last.is_none(),
        None => false,
    }
}

impl Cells {
    /// These cells, of process 1 first.
    pub fn new(cells: Vec<Option<u32>>) -> Cells
        ensures { result ≡ cells.items }
    {
        let count = cells.len();
        let mut cells = cells;
        while ends_empty(&cells) {
            let _ = cells.pop();
        }
        Cells { cells, count }
    }

    /// The cell of a process. A cell past the end is empty.
    pub fn get(&self, process: Pid) -> Option<u32>
        ensures { result ≡ cell self.now process }
    {
        self.at(usize::from(process.number()) - 1)
    }

    /// The cell at a place, from 0.
    fn at(&self, place: usize) -> Option<u32>
        ensures { result ≡ get_or self.now place None }
    {
        if place < self.cells.len() {
            self.cells[place]
        } else {
            None
        }
    }

    /// So many empty cells.
    #[inline(always)]
    pub fn empty(alloc: Global, count: usize) -> Cells
        ensures { result ≡ replicate count None }
    {
        Cells {
            cells: Vec::new(alloc),
            count,
        }
    }

    /// How many cells there are, where each is empty.
    #[inline(always)]
    pub fn all_empty(&self) -> Option<usize>
        ensures { MatchOption result (IsSomeKnown self.now) (λ count. self.now ≡ replicate count None) }
    {
        if self.cells.is_empty() {
            Some(self.count)
        } else {
            None
        }
    }

    /// How many cells there are.
    pub fn len(&self) -> usize
        ensures { result ≡ length self.now }
    {
        self.count
    }

    /// Whether there is no cell.
    pub fn is_empty(&self) -> bool
        ensures { result ≡ nat_eq (length self.now) 0 }
    {
        self.count == 0
    }

    /// The same cells, in memory of their own.
    ///
    /// # Errors
    ///
    /// `AllocError` where memory was refused.
    pub fn copy(&self) -> Result<Cells, AllocError>
        ensures { IfOk result (λ copied. copied ≡ self.now) }
    {
        let cells = Vec::from_slice(*self.cells.allocator(), &self.cells)?;
        Ok(Cells {
            cells,
            count: self.count,
        })
    }

    /// The cells, of process 1 first.
    pub fn into_vec(self) -> Result<Vec<Option<u32>>, AllocError>
        ensures { IfOk result (λ v. v.items ≡ self) }
    {
        let mut cells = self.cells;
        cells.resize(self.count, None)?;
        Ok(cells)
    }
}
