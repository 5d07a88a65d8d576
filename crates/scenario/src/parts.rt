//! The parts of a scenario that depend on the numbers of its top table.
ghost use Rattle.{std.specs.Prelude.{IfOk}, toml.specs.View.{table_view}};
ghost use Rattle.scenario.specs.{Text.{record_of}, Refusals.{Judges, first_of, part_refusals}, Inside.Parts.{AreTables, ArePartsOf, IsTop}};

use crate::below::first_below;
use crate::crashes::read_crashes;
use crate::detector::{read_detector, read_share};
use crate::error::ScenarioError;
use crate::keys::Tables;
use crate::links::read_links;
use crate::names::algorithm_of;
use crate::numbers::Top;
use crate::proposals::read_proposals;
use crate::table::text;
use process_api::DetectorNumbers;
use scenario_record::{AlgorithmKind, Link};
use std::alloc::Global;

/// The parts of a scenario that stand on the numbers of its top table, all but the outages.
#[derive(Drop)]
pub(crate) struct Parts {
    pub(crate) algorithm: AlgorithmKind,
    pub(crate) detector: DetectorNumbers,
    pub(crate) share: Option<u32>,
    pub(crate) proposals: Vec<u32>,
    pub(crate) crashes: Vec<Option<u32>>,
    pub(crate) links: Vec<Link>,
}

/// The parts of a scenario that stand on the numbers of its top table, all but the outages, where none is refused; else
/// the refusal of the first that is.
pub(crate) fn read_parts(
    alloc: Global,
    top: &Top<'_>,
    tables: &Tables<'_>,
) -> Result<Parts, ScenarioError>
    requires numbers { IsTop top.now }
    requires tables { AreTables (table_view top.now.table.now) tables.now }
    ensures judged { Judges (first_of (part_refusals (table_view top.now.table.now))) result }
    ensures value { IfOk result (ArePartsOf (record_of (table_view top.now.table.now))) }
{
    let named = algorithm_of(text(top.table, "algorithm", ""));
    let algorithm = named.ok_or(ScenarioError::AlgorithmName)?;
    let proposals = read_proposals(alloc, top, algorithm)?;
    let detector = read_detector(top.table).ok_or(ScenarioError::DetectorNumbers)?;
    let share = read_share(top.table).ok_or(ScenarioError::Share)?;
    let links = read_links(alloc, top, &tables.links)?;
    if let Some((from, to)) = first_below(top, &links) {
        return Err(ScenarioError::BelowLookahead { from, to });
    }
    let crashes = read_crashes(alloc, top, &tables.crashes)?;
    Ok(Parts {
        algorithm,
        detector,
        share,
        proposals,
        crashes,
        links,
    })
}
