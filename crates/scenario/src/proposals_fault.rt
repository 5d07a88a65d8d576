//! What is wrong with proposals that are refused.
ghost use Rattle.std.specs.Prelude.{◌≡◌, Some, codes, IfSome};
ghost use Rattle.toml.specs.{Data.{Members}, View.{items_view, table_view}};
ghost use Rattle.scenario.specs.{Table.{array_in}, Text.{processes_of}, Faults.{AsksForOne, Breaks, IsProposalsFault}, declared.error.ScenarioError.{ScenarioError}};

use crate::fault::ProposalsFault;
use crate::finding::Finding;
use crate::names::algorithm_of;
use crate::numbers::{lies_within, read_processes};
use crate::table::{has, inner_array, text};
use scenario_record::AlgorithmKind;
use toml::{Table, Value};

/// The first proposal among some values that is out of range.
fn bad_proposal(values: &[Value]) -> Option<ProposalsFault>
    ensures { (file : Members) → AsksForOne file → Some (items_view values.now) ≡ array_in (codes "proposals") file
        → IfSome result (IsProposalsFault file) }
{
    for i in 0..values.len() {
        let Some(value) = values[i].as_integer() else {
            continue;
        };
        if !lies_within(value, 0, u64::from(u32::MAX)) {
            let number = i as u64 + 1;
            return Some(ProposalsFault::Outside { number, value });
        }
    }
    None
}

/// What is wrong with the proposals of n processes that run an algorithm.
fn asked_fault(top: &Table, n: u16) -> Option<ProposalsFault>
    ensures { AsksForOne (table_view top.now) → n ≡ processes_of (table_view top.now)
        → IfSome result (IsProposalsFault (table_view top.now)) }
{
    if !has(top, "proposals") {
        return Some(ProposalsFault::Missing { processes: n });
    }
    let values = inner_array(top, "proposals")?;
    if values.len() != usize::from(n) {
        return Some(ProposalsFault::Count {
            count: values.len() as u64,
            processes: n,
        });
    }
    bad_proposal(values)
}

/// What is wrong with the proposals of a file.
pub(crate) fn proposals_found(top: &Table) -> Option<Finding<'static>>
    ensures { IfSome result (Breaks ScenarioError.Proposals (table_view top.now)) }
{
    let n = read_processes(top)?;
    match algorithm_of(text(top, "algorithm", ""))? {
        AlgorithmKind::Idle => {
            if !has(top, "proposals") {
                return None;
            }
            Some(Finding::Proposals(ProposalsFault::Unasked))
        }
        AlgorithmKind::Strong | AlgorithmKind::EventuallyStrong => {
            Some(Finding::Proposals(asked_fault(top, n)?))
        }
    }
}
