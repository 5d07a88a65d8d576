//! Bounds that no run of a scenario breaks, in numbers.
ghost use Rattle.std.specs.{Prelude.{◌≡◌, IfOk, count_by, filter, filter_map, map, not}, List.{list_any}};
ghost use Rattle.promised.specs.{Kept.{KeepsPromises}, Promised.{greatest, is_late, is_reliable, is_timely, latency, loses, needed, promised}};
ghost use Rattle.scenario_record.specs.Ranges.{AreInRange};

use crate::detected::detected_by;
use crate::watching::{WatchedLink, watched_links};
use process_api::DetectorNumbers;
use scenario_record::{Link, Scenario};
use std::alloc::{AllocError, Global};

/// What no run of a scenario breaks, in numbers.
#[derive(Clone, Copy, Debug, PartialEq, Eq)]
pub struct PromisedBounds {
    /// The greatest number of ticks after a crash from which on a correct process that watches suspects it to the end;
    /// with time-outs, where that took no suspicion back. None where no correct process watches one that crashes.
    pub detection: Option<u64>,
    /// Whether some of these detections lies at the horizon or later.
    pub is_late: bool,
    /// How many links are watched.
    pub watched: usize,
    /// How many of these surely bring no mistake.
    pub reliable: usize,
    /// How many of these have loss or outages.
    pub lossy: usize,
    /// The least `delta` or `timeout`, in ticks, with which each of the others surely brings no mistake; none where
    /// there are no others.
    pub needed: Option<u64>,
}

/// Whether a link may lose letters.
fn loses(link: &WatchedLink) -> bool
    ensures { result ≡ loses link.now }
{
    link.link.loss > 0 || link.has_outage
}

/// The least `delta` or `timeout` with which a detector takes no process for crashed whose letters all come.
fn needed(detector: DetectorNumbers, link: Link) -> u64
    ensures { result ≡ needed detector link }
{
    let most = u64::from(link.max);
    match detector {
        DetectorNumbers::Timeout(its) => {
            let gap = u64::from(link.max.saturating_sub(link.min)) + u64::from(its.period);
            most.max(gap)
        }
        DetectorNumbers::Freshness(_) => most,
    }
}

/// Whether a detector's `delta` or `timeout` is at least that.
fn is_timely(detector: DetectorNumbers, link: Link) -> bool
    ensures { result ≡ is_timely detector link }
{
    let has = match detector {
        DetectorNumbers::Timeout(its) => its.timeout,
        DetectorNumbers::Freshness(its) => its.delta,
    };
    needed(detector, link) <= u64::from(has)
}

/// How many ticks after its crash the sender of a link is suspected to the end, where there is one to be detected.
fn latency(detector: DetectorNumbers, link: &WatchedLink) -> Option<u64>
    requires { AreInRange detector }
    ensures { result ≡ latency detector link.now }
{
    let crash = link.crash?;
    Some(detected_by(detector, link.link, 0, crash).saturating_sub(u64::from(crash)))
}

/// Whether that tick isn't before the horizon.
fn is_late(detector: DetectorNumbers, horizon: u32, link: &WatchedLink) -> bool
    requires { AreInRange detector }
    ensures { result ≡ is_late detector horizon link.now }
{
    match link.crash {
        Some(crash) => detected_by(detector, link.link, 0, crash) >= u64::from(horizon),
        None => false,
    }
}

/// The greatest number of ticks from a crash to its detection.
fn greatest_latency(detector: DetectorNumbers, links: &[WatchedLink]) -> Option<u64>
    requires { AreInRange detector }
    ensures { result ≡ greatest (filter_map (latency detector) links.now) }
{
    links
        .iter()
        .filter_map(|link| latency(detector, link))
        .max()
}

/// The greatest of what links need that lose no letters.
fn greatest_needed(detector: DetectorNumbers, links: &[WatchedLink]) -> Option<u64>
    ensures { result ≡ greatest (map (λ w. needed detector w.link) (filter (λ w. not (loses w)) links.now)) }
{
    links
        .iter()
        .filter(|link| !loses(link))
        .map(|link| needed(detector, link.link))
        .max()
}

/// Whether some detection isn't before the horizon.
fn is_any_late(detector: DetectorNumbers, horizon: u32, links: &[WatchedLink]) -> bool
    requires { AreInRange detector }
    ensures { result ≡ list_any (is_late detector horizon) links.now }
{
    links.iter().any(|link| is_late(detector, horizon, link))
}

/// How many links surely bring no mistake.
fn count_reliable(detector: DetectorNumbers, links: &[WatchedLink]) -> usize
    ensures { result ≡ count_by (is_reliable detector) links.now }
{
    links
        .iter()
        .filter(|link| !loses(link) && is_timely(detector, link.link))
        .count()
}

/// How many links may lose letters.
fn count_lossy(links: &[WatchedLink]) -> usize
    ensures { result ≡ count_by loses links.now }
{
    links.iter().filter(|link| loses(link)).count()
}

/// What no run of a scenario breaks, in numbers; and that no trace of it does.
///
/// # Errors
///
/// Where memory was refused.
pub fn promised_bounds(alloc: Global, scenario: &Scenario) -> Result<PromisedBounds, AllocError>
    ensures value { IfOk result (λ b. b ≡ promised scenario.now) }
    ensures kept { IfOk result (λ b. KeepsPromises scenario.now b) }
{
    let detector = scenario.detector();
    let horizon = scenario.horizon();
    let links = watched_links(alloc, scenario)?;
    Ok(PromisedBounds {
        detection: greatest_latency(detector, &links),
        is_late: is_any_late(detector, horizon, &links),
        watched: links.len(),
        reliable: count_reliable(detector, &links),
        lossy: count_lossy(&links),
        needed: greatest_needed(detector, &links),
    })
}
