//! The links by which processes watch each other.
ghost use Rattle.std.specs.Prelude.{◌≡◌, ◌≤◌, ◌≢◌, ◌++◌, true, IfOk, OnOk};
ghost use Rattle.promised.specs.Promised.{crash_for, links_to, watched_link, watched_links};
ghost use Rattle.{detector_bounds.specs.Detected.{watch_of}, judges.specs.Out.{is_correct}};

use process_api::{DetectorNumbers, Pid, Watch};
use scenario_record::{Link, Scenario};
use std::alloc::{AllocError, Global};

/// A link by which one process hears from another that it watches.
#[derive(Clone, Copy, Debug, PartialEq, Eq)]
pub struct WatchedLink {
    /// What the link does to letters.
    pub link: Link,
    /// Whether the link has outages.
    pub has_outage: bool,
    /// The tick at which the watched process crashes, where that is before the horizon and its watcher is correct.
    pub crash: Option<u32>,
}

/// Whom the detectors watch.
fn watch_of(detector: DetectorNumbers) -> Watch
    ensures { result ≡ watch_of detector }
{
    match detector {
        DetectorNumbers::Timeout(its) => its.watch,
        DetectorNumbers::Freshness(its) => its.watch,
    }
}

/// Whether a process doesn't crash before the horizon.
fn is_correct(scenario: &Scenario, p: Pid) -> bool
    ensures { result ≡ is_correct scenario.now p }
{
    let horizon = scenario.horizon();
    match scenario.crash(p) {
        Some(tick) => tick >= horizon,
        None => true,
    }
}

/// The crash of a process before the horizon, where its watcher is correct.
fn crash_for(scenario: &Scenario, observer: Pid, subject: Pid) -> Option<u32>
    ensures { result ≡ crash_for scenario.now observer subject }
{
    if is_correct(scenario, observer) && !is_correct(scenario, subject) {
        scenario.crash(subject)
    } else {
        None
    }
}

/// The link by which a process watches another.
fn watched_link(scenario: &Scenario, observer: Pid, subject: Pid) -> WatchedLink
    requires different { subject ≢ observer }
    requires is_observer { observer ≤ scenario.now.processes }
    requires is_subject { subject ≤ scenario.now.processes }
    ensures { result ≡ watched_link scenario.now observer subject }
{
    WatchedLink {
        link: scenario.link(subject, observer),
        has_outage: !scenario.outages(subject, observer).is_empty(),
        crash: crash_for(scenario, observer, subject),
    }
}

/// Adds the links by which a process watches others, by their senders.
fn push_links(
    links: &mut Vec<WatchedLink>,
    scenario: &Scenario,
    observer: Pid,
) -> Result<(), AllocError>
    requires { observer ≤ scenario.now.processes }
    ensures { OnOk result (links.new.items ≡ links.old.items ++ links_to scenario.now observer) }
{
    let watch = watch_of(scenario.detector());
    let processes = scenario.processes();
    for before in 0..processes {
        let subject = Pid::after(before);
        if watch.takes_in(observer, processes, subject) {
            links.push(watched_link(scenario, observer, subject))?;
        }
    }
    Ok(())
}

/// All links by which processes watch others, by their receivers and then by their senders.
pub fn watched_links(alloc: Global, scenario: &Scenario) -> Result<Vec<WatchedLink>, AllocError>
    ensures { IfOk result (λ v. v.items ≡ watched_links scenario.now) }
{
    let mut links = Vec::new(alloc);
    for before in 0..scenario.processes() {
        push_links(&mut links, scenario, Pid::after(before))?;
    }
    Ok(links)
}
