//! The tick by which the crash of a process is detected.
ghost use Rattle.std.specs.Prelude.{◌≡◌, ◌≤◌, ◌<◌, ◌+◌, ◌^◌};
ghost use Rattle.detector_bounds.specs.Detected.{detected_by, grown, last_letter};
ghost use Rattle.{process_api.specs.Place.{most_ticks}, scenario_record.specs.Ranges.{AreInRange}};

use crate::periods::{last_before, multiple_from};
use process_api::{DetectorNumbers, TimeoutNumbers};
use scenario_record::Link;

/// The last tick at which a letter can come that a process sent before it crashed at a tick; 0 where it sent none.
fn last_letter(its: TimeoutNumbers, link: Link, crash: u32) -> u64
    requires { 1 ≤ its.period }
    ensures value { result ≡ last_letter its link crash }
    ensures soon { result ≤ crash + link.max }
{
    if crash == 0 {
        return 0;
    }
    last_before(its.period, crash) * u64::from(its.period) + u64::from(link.max)
}

/// What a time-out has grown to by so many trusts, at most.
fn grown(its: TimeoutNumbers, trusts: u32) -> u64
    requires timeout { its.timeout ≤ most_ticks }
    requires grow { its.grow ≤ most_ticks }
    ensures value { result ≡ grown its trusts }
    ensures small { result < 2 ^ 62 }
{
    u64::from(its.timeout) + u64::from(its.grow) * u64::from(trusts)
}

/// The tick from which, at the latest, a process that crashes at a tick is suspected to the end, by an observer that
/// notes so many trusts of it in the whole run.
pub fn detected_by(detector: DetectorNumbers, link: Link, trusts: u32, crash: u32) -> u64
    requires { AreInRange detector }
    ensures { result ≡ detected_by detector link trusts crash }
{
    match detector {
        DetectorNumbers::Timeout(its) => multiple_from(
            its.check,
            last_letter(its, link, crash) + grown(its, trusts),
        ),
        DetectorNumbers::Freshness(its) => (last_before(its.eta, crash) + 1) * u64::from(its.eta)
            + u64::from(its.delta),
    }
}
