//! Vectors of proposals.
ghost use Rattle.std.specs.Prelude.{◌≡◌, ◌≤◌, ℕ, Option, nat_eq, None, Some, if◌then◌else◌, IfOk};
ghost use Rattle.process_api.specs.{Place.{most_processes}, Rows.{cell}, ConsensusS.{cells_of, first_to}};

use process_api::{Cells, Pid};
use std::alloc::{AllocError, Global};

/// The vector of `n` cells, each made from its process.
pub(crate) fn cells_by<F: Fn(Pid) -> Option<u32>>(
    alloc: Global,
    n: u16,
    cell: F,
) -> Result<Cells, AllocError>
    requires few { n ≤ most_processes }
    requires called { F.IsAlwaysCallable cell }
    ensures { IfOk result (λ c. (value_of : ℕ → Option ℕ)
        → ((k : ℕ) (value : Option ℕ) → F.post cell k value → value ≡ value_of k) → c ≡ cells_of n value_of) }
{
    let mut cells = Vec::new(alloc);
    for before in 0..n {
        cells.push(cell(Pid::after(before)))?;
    }
    Ok(Cells::new(cells))
}

/// What a process knows as it opens: its own proposal.
pub(crate) fn known_at_first(
    alloc: Global,
    n: u16,
    own: Pid,
    proposal: u32,
) -> Result<Cells, AllocError>
    requires { n ≤ most_processes }
    ensures { IfOk result (λ c. c ≡ cells_of n (λ k. if nat_eq k own then Some proposal else None)) }
{
    cells_by(alloc, n, |k| if k == own { Some(proposal) } else { None })
}

/// The first value of a vector.
pub(crate) fn first_value(cells: &Cells, n: u16) -> Option<u32>
    requires { n ≤ most_processes }
    ensures { result ≡ first_to n (cell cells.now) }
{
    for before in 0..n {
        let value = cells.get(Pid::after(before));
        if value.is_some() {
            return value;
        }
    }
    None
}
