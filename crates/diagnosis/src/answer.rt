//! Diagnoses of scenarios' files.
ghost use Rattle.std.specs.Prelude.{◌≡◌, IfOk, IfSome, Some, None};
ghost use Rattle.toml.specs.{View.{table_view}, Errors.{IsWithin, span_start, IsMemory as IsMemoryError}};
ghost use Rattle.scenario.specs.{Refusals.{IsAnswer, IsDocumentOf, refusal_of, is_memory as is_for_memory}, Faults.{Breaks}};
ghost use Rattle.diagnosis.specs.Diagnosis.{IsDiagnosisOf, IsPlaced, IsTableDiagnosisOf, RefusesFor, RefusesTableFor};

use crate::estimate::{Estimate, estimate_of, window_of};
use crate::keys::meant_in;
use crate::position::position_after;
use crate::told::{NotToml, Told};
use scenario::{Finding, ScenarioError, read_with_place};
use std::alloc::{AllocError, Global};
use toml::Table;

/// What an accepted file has.
#[derive(Clone, Copy)]
pub struct Accepted {
    /// How many processes there are.
    pub processes: u16,
    /// The tick at which the run ends.
    pub horizon: u32,
    /// Ticks of the longest window that a run may have.
    pub window: u32,
    /// How many entries the run may have.
    pub limit: u64,
    /// About how much the run will be.
    pub estimate: Estimate,
}

/// Why a file is refused.
#[derive(Drop)]
pub struct Refused {
    /// The refusal.
    pub refusal: ScenarioError,
    /// The line that tells it, with what is wrong and where.
    pub line: String,
}

/// What is said of a scenario's file.
#[derive(Drop)]
pub enum Diagnosis {
    /// The file is accepted.
    Accepted(Accepted),
    /// It is refused.
    Refused(Refused),
}

/// Whether a file is refused because memory was refused.
fn is_memory(refusal: &ScenarioError) -> bool
    ensures { result ≡ is_for_memory refusal.now }
{
    match refusal {
        ScenarioError::Memory => true,
        _ => false,
    }
}

/// Why a file's table is refused.
fn refused_table(
    alloc: Global,
    table: &Table,
    refusal: ScenarioError,
    finding: &Option<Finding>,
) -> Result<Refused, AllocError>
    requires applies { IsAnswer (refusal_of (table_view table.now)) refusal }
    requires finds { IfSome finding.now (Breaks refusal (table_view table.now)) }
    ensures { IfOk result (RefusesTableFor (table_view table.now)) }
{
    if is_memory(&refusal) {
        return Err(AllocError);
    }
    let name = refusal.name();
    let Some(finding) = finding else {
        let line = String::from_str(alloc, name)?;
        return Ok(Refused { refusal, line });
    };
    let meant = meant_in(alloc, finding)?;
    let told = Told { finding, meant };
    let line = format!(in alloc; "{name}: {told}")?;
    Ok(Refused { refusal, line })
}

/// Says of the table of a scenario's file what [`diagnose`] says of the file.
///
/// # Errors
///
/// Where memory was refused.
pub fn diagnose_table(alloc: Global, table: &Table) -> Result<Diagnosis, AllocError>
    ensures { IfOk result (IsTableDiagnosisOf (table_view table.now)) }
{
    match read_with_place(alloc, table) {
        Ok(scenario) => Ok(Diagnosis::Accepted(Accepted {
            processes: scenario.processes(),
            horizon: scenario.horizon(),
            window: window_of(&scenario),
            limit: scenario.limit(),
            estimate: estimate_of(&scenario),
        })),
        Err(scenario::Refused { error, finding }) => {
            let refused = refused_table(alloc, table, error, &finding)?;
            Ok(Diagnosis::Refused(refused))
        }
    }
}

/// Where and why bytes are no TOML.
fn not_toml<'a>(bytes: &[u8], error: &'a toml::de::Error) -> NotToml<'a>
    requires other { ¬ IsMemoryError error.now }
    requires within { IsWithin bytes.now error.now }
    ensures { IsPlaced bytes.now (span_start error.now) result }
{
    let place = match error.span() {
        Some(span) => span.start,
        None => 0,
    };
    let (line, column) = position_after(&bytes[..place]);
    let message = error.message();
    NotToml {
        line,
        column,
        message,
    }
}

/// Why bytes that are no TOML are refused.
fn refused_bytes(
    alloc: Global,
    bytes: &[u8],
    error: &toml::de::Error,
) -> Result<Refused, AllocError>
    requires document { IsDocumentOf bytes.now None }
    requires other { ¬ IsMemoryError error.now }
    requires within { IsWithin bytes.now error.now }
    ensures { IfOk result (RefusesFor bytes.now) }
{
    let fault = not_toml(bytes, error);
    let line = format!(in alloc; "NotToml: {fault}")?;
    Ok(Refused {
        refusal: ScenarioError::NotToml,
        line,
    })
}

/// Says of a scenario's file what it has, where it is accepted, and else its refusal, which is that of
/// [`scenario::read_scenario`], and what is wrong, and where.
///
/// # Errors
///
/// Where memory was refused.
pub fn diagnose(alloc: Global, bytes: &[u8]) -> Result<Diagnosis, AllocError>
    ensures { IfOk result (IsDiagnosisOf bytes.now) }
{
    match toml::table_from_slice(alloc, bytes) {
        Ok(table) => diagnose_table(alloc, &table),
        Err(error) if error.is_memory() => Err(AllocError),
        Err(error) => Ok(Diagnosis::Refused(refused_bytes(alloc, bytes, &error)?)),
    }
}
