//! Ticks that leave a part of a period out.
ghost use Rattle.std.specs.Prelude.{◌≡◌, ◌<◌, ◌≤◌, All, IfOk, get_or, length, map};
ghost use Rattle.{process_api.specs.Place.{most_ticks}, study_commands.specs.Warnings.{greatest_gap as greatest_gap_of, period_of as period_in, next_phases, phases as phases_in, uneven_in}};

use crate::first_run::FirstRun;
use process_api::DetectorNumbers;
use std::alloc::{AllocError, Global};

/// How ticks lie in a period.
#[derive(Clone, Copy)]
pub(crate) struct Spread {
    /// How many ticks the period has, 1 to 1,000,000.
    pub period: u64,
    /// How many different phases the ticks have.
    pub phases: u64,
    /// The greatest number of ticks from one phase to the next one, around the circle.
    pub gap: u64,
}

/// The different phases of ticks, in rising order.
fn phases_of(alloc: Global, period: u64, ticks: &[u64]) -> Result<Vec<u64>, AllocError>
    requires { 1 ≤ period }
    ensures phases { IfOk result (λ v. v.items ≡ phases_in period ticks.now) }
    ensures low { IfOk result (λ v. All (λ phase. phase < period) v.items) }
{
    let mut phases: Vec<u64> = ticks.iter().map(|tick| tick % period).collect(alloc)?;
    phases.sort_unstable();
    phases.dedup();
    Ok(phases)
}

/// The phase after the one at a place; after the last comes the first, a period later.
fn next_phase(period: u64, phases: &[u64], place: usize) -> u64
    requires high { period ≤ most_ticks }
    requires low { All (λ phase. phase < period) phases.now }
    requires within { place < length phases.now }
    ensures { result ≡ get_or (next_phases period phases.now) place 0 }
{
    match phases.get(place + 1) {
        Some(next) => *next,
        None => phases[0] + period,
    }
}

/// The greatest number of ticks from one of these phases to the next one, around the circle; 0 where there are none.
fn greatest_gap(period: u64, phases: &[u64]) -> u64
    requires high { period ≤ most_ticks }
    requires low { All (λ phase. phase < period) phases.now }
    ensures { result ≡ greatest_gap_of period phases.now }
{
    let mut greatest = 0;
    for (place, phase) in phases.iter().enumerate() {
        let gap = next_phase(period, phases, place).saturating_sub(*phase);
        greatest = greatest.max(gap);
    }
    greatest
}

/// How ticks lie in a period, where they leave more than twice as much of it out as its even parts would have.
fn uneven(alloc: Global, period: u64, ticks: &[u64]) -> Result<Option<Spread>, AllocError>
    requires low { 1 ≤ period }
    requires high { period ≤ most_ticks }
    ensures { IfOk result (λ o. o ≡ uneven_in period ticks.now) }
{
    let all = phases_of(alloc, period, ticks)?;
    let phases = all.len() as u64;
    let gap = greatest_gap(period, &all);
    let is_wide = gap.saturating_mul(phases) > 2 * period;
    Ok(is_wide.then_some(Spread {
        period,
        phases,
        gap,
    }))
}

/// How many ticks there are between two rounds of a detector's letters.
fn period_of(detector: DetectorNumbers) -> u32
    ensures { result ≡ period_in detector }
{
    match detector {
        DetectorNumbers::Timeout(its) => its.period,
        DetectorNumbers::Freshness(its) => its.eta,
    }
}

/// How ticks lie in the period of the detectors of each of these runs, where they are uneven there.
pub(crate) fn unevens_of(
    alloc: Global,
    runs: &[FirstRun],
    ticks: &[u64],
) -> Result<Vec<Option<Spread>>, AllocError>
    ensures { IfOk result (λ v. v.items ≡ map (λ r. uneven_in (period_in r.detector) ticks.now) runs.now) }
{
    let mut all = Vec::new(alloc);
    for run in runs {
        let period = u64::from(period_of(run.detector));
        all.push(uneven(alloc, period, ticks)?)?;
    }
    Ok(all)
}
