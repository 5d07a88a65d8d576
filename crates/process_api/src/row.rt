//! One round's letters of one kind.
ghost use Rattle.std.specs.{Prelude.{◌≡◌, ◌≤◌, ◌||◌, ℕ, None, OnOk, is_some, length}, Option.{option_copied}};
ghost use Rattle.std.specs.FinSet as set;
ghost use Rattle.process_api.specs.{Coordinator.{count_to}, Rows.{keep_one, cell_of, AreSenders}};

use crate::pid::Pid;
use crate::proc_set::ProcSet;
use std::alloc::{AllocError, Global};

/// The first letters of one kind in one round, by sender: a row of cells, and whose cells are filled.
#[derive(Drop)]
pub struct Row<T> {
    // process q has place q - 1
    cells: Vec<Option<T>>,
    senders: ProcSet,
    ghost counted: { AreSenders senders cells.items },
}

impl<T: Drop> Row<T> {
    ghost use Rattle.process_api.specs.Letters.{of_sender};

    /// No letters.
    pub fn new(alloc: Global) -> Row<T>
        ensures { of_sender result ≡ (λ q. None) }
    {
        Row {
            cells: Vec::new(alloc),
            senders: ProcSet::new(),
        }
    }

    /// A process's letter.
    pub fn get(&self, sender: Pid) -> Option<&T>
        ensures { option_copied result ≡ of_sender self.now sender }
    {
        let place = usize::from(sender.number()) - 1;
        if place < self.cells.len() {
            self.cells[place].as_ref()
        } else {
            None
        }
    }

    /// Whether a process has a letter.
    pub fn has(&self, sender: Pid) -> bool
        ensures { result ≡ is_some (of_sender self.now sender) }
    {
        self.senders.contains(sender)
    }

    /// Keeps a process's letter, unless it has one.
    ///
    /// # Errors
    ///
    /// `AllocError` where memory was refused.
    pub fn keep(&mut self, sender: Pid, letter: T) -> Result<(), AllocError>
        ensures { OnOk result (of_sender self.new ≡ keep_one (of_sender self.old) sender letter) }
    {
        if self.senders.contains(sender) {
            return Ok(());
        }
        let place = usize::from(sender.number()) - 1;
        widen(&mut self.cells, place + 1)?;
        self.cells[place] = Some(letter);
        self.senders.insert(sender);
        Ok(())
    }

    /// The processes with a letter, and these.
    pub fn heard_or(&self, others: &ProcSet) -> ProcSet
        ensures { (q : ℕ) → set.contains result q ≡ (is_some (of_sender self.now q) || set.contains others.now q) }
    {
        self.senders.union(others)
    }

    /// How many of processes 1 to `processes` have a letter.
    pub fn count(&self, processes: u16) -> u16
        ensures { result ≡ count_to processes (λ q. is_some (of_sender self.now q)) }
    {
        self.senders.up_to(processes).len() as u16
    }
}

/// Makes a row at least so wide, with empty cells. It grows by 64 places at least, so that it seldom grows.
fn widen<T: Drop>(cells: &mut Vec<Option<T>>, places: usize) -> Result<(), AllocError>
    ensures same { cell_of cells.new.items ≡ cell_of cells.old.items }
    ensures wide { OnOk result (places ≤ length cells.new.items) }
{
    if cells.capacity() < places {
        cells.reserve(64)?;
    }
    'wide: while cells.len() < places {
        cells.push(None)?;
    }
    Ok(())
}
