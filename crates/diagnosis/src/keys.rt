//! Keys that are perhaps meant.
ghost use Rattle.std.specs.Prelude.{◌≡◌, IfOk};
ghost use Rattle.scenario.specs.Parts.{fields_of};
ghost use Rattle.diagnosis.specs.Diagnosis.{IsMeant, edits, most_edits as most_edits_of, IsMeantIn};

use scenario::{Fault, Field, Finding};
use std::alloc::{AllocError, Global};
use strsim::damerau_levenshtein;

/// How many edits away from a key a suggestion may be: one for each three bytes of the key, and one at least.
fn most_edits(key: &str) -> usize
    ensures { result ≡ most_edits_of key.now }
{
    key.len().max(3) / 3
}

/// How many edits lead from one text to the other: characters put in, taken out, changed, or two of them swapped.
///
/// # Errors
///
/// `AllocError` where memory was refused.
pub fn edits_between(alloc: Global, a: &str, b: &str) -> Result<usize, AllocError>
    ensures { IfOk result (λ d. d ≡ edits a.now b.now) }
{
    damerau_levenshtein(alloc, a, b)
}

/// The first of the nearest to a key of the keys that a table may have, if one is near enough.
fn most_alike(
    alloc: Global,
    fields: &[Field],
    key: &str,
) -> Result<Option<&'static str>, AllocError>
    ensures { IfOk result (IsMeant (fields_of fields.now) key.now) }
{
    let mut best = None;
    let mut least = most_edits(key) + 1;
    for field in fields {
        let edits = edits_between(alloc, key, field.key)?;
        if edits < least {
            best = Some(field.key);
            least = edits;
        }
    }
    Ok(best)
}

/// The key that is perhaps meant, where it is a key that is wrong.
pub(crate) fn meant_in(alloc: Global, finding: &Finding) -> Result<Option<&'static str>, AllocError>
    ensures { IfOk result (IsMeantIn finding.now) }
{
    match finding {
        Finding::At {
            fault: Fault::UnknownKey(unknown),
            ..
        } => most_alike(alloc, unknown.fields, unknown.key),
        _ => Ok(None),
    }
}
