//! The proposals of the processes.
ghost use Rattle.std.specs.Prelude.{◌≡◌, ◌≤◌, Some, codes, is_none, IfOk, IfSome};
ghost use Rattle.toml.specs.View.{items_view, table_view};
ghost use Rattle.scenario.specs.{Table.{the_integers, has_key}, Text.{natural, algorithm_in, proposals_of, record_of}, Rules.{is_bad_proposal, proposals_refused}};
ghost use Rattle.scenario.specs.{Inside.{Private.{has_other_proposals}, Parts.{IsTop}, Proposals.{AreReadOf}}, Refusals.{Judges, when}};

use crate::error::ScenarioError;
use crate::numbers::{Top, natural};
use crate::table::{has, inner_array};
use scenario_record::AlgorithmKind;
use std::alloc::{AllocError, Global};
use toml::{Table, Value};

/// The proposal that a number is, where it is below 2^32.
fn proposal_of(number: i64) -> Option<u32>
    ensures none { is_none result ≡ is_bad_proposal number }
    ensures value { IfSome result (λ p. p ≡ natural number) }
{
    let value = natural(number)?;
    if value > u64::from(u32::MAX) {
        return None;
    }
    Some(value as u32)
}

/// The proposals among some values, where each number is below 2^32.
fn proposals_among(alloc: Global, values: &[Value]) -> Result<Option<Vec<u32>>, AllocError>
    ensures { IfOk result (AreReadOf (the_integers (items_view values.now))) }
{
    let mut found = Vec::new(alloc);
    for value in values {
        let Some(number) = value.as_integer() else {
            continue;
        };
        let Some(proposal) = proposal_of(number) else {
            return Ok(None);
        };
        found.push(proposal)?;
    }
    Ok(Some(found))
}

/// The proposals of the processes of a scenario without an algorithm: there may be none.
#[tactic(auto, using(crate::proofs::ProposalFacts::no_key))]
fn read_no_proposals(alloc: Global, top: &Table) -> Result<Vec<u32>, ScenarioError>
    ensures judged { Judges (when (has_key (codes "proposals") (table_view top.now)) ScenarioError.Proposals) result }
    ensures value { IfOk result (λ v. v.items ≡ proposals_of (table_view top.now)) }
{
    if has(top, "proposals") {
        return Err(ScenarioError::Proposals);
    }
    Ok(Vec::new(alloc))
}

/// The proposals of n processes that run an algorithm: one of each.
#[tactic(auto, using(crate::proofs::ProposalFacts::no_array, crate::proofs::ProposalFacts::bad_number, crate::proofs::ProposalFacts::integers_of_array))]
fn read_each_proposal(alloc: Global, top: &Table, n: u16) -> Result<Vec<u32>, ScenarioError>
    requires { 1 ≤ n }
    ensures judged { Judges (when (has_other_proposals n (table_view top.now)) ScenarioError.Proposals) result }
    ensures value { IfOk result (λ v. v.items ≡ proposals_of (table_view top.now)) }
{
    let Some(values) = inner_array(top, "proposals") else {
        return Err(ScenarioError::Proposals);
    };
    let Some(proposals) = proposals_among(alloc, values)? else {
        return Err(ScenarioError::Proposals);
    };
    if proposals.len() != usize::from(n) {
        return Err(ScenarioError::Proposals);
    }
    Ok(proposals)
}

/// What n processes propose, of process 1 first; nothing where there is no algorithm.
pub(crate) fn read_proposals(
    alloc: Global,
    top: &Top<'_>,
    algorithm: AlgorithmKind,
) -> Result<Vec<u32>, ScenarioError>
    requires numbers { IsTop top.now }
    requires algorithm { Some algorithm ≡ algorithm_in (table_view top.now.table.now) }
    ensures judged { Judges (when (proposals_refused (table_view top.now.table.now)) ScenarioError.Proposals) result }
    ensures value { IfOk result (λ v. v.items ≡ (record_of (table_view top.now.table.now)).proposals) }
{
    match algorithm {
        AlgorithmKind::Idle => read_no_proposals(alloc, top.table),
        AlgorithmKind::Strong | AlgorithmKind::EventuallyStrong => {
            read_each_proposal(alloc, top.table, top.numbers.processes)
        }
    }
}
