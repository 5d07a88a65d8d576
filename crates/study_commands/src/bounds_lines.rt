//! Bounds that no run of a scenario breaks, in lines.
ghost use Rattle.std.specs.Prelude.{◌≡◌, IfOk, string_bytes};
ghost use Rattle.promised.specs.Promised.{promised};
ghost use Rattle.study_commands.specs.Check.{bounds_text, detection_text, key_of, lossy_text, needed_text, reliable_text, within_text};

use process_api::DetectorNumbers;
use promised::{PromisedBounds, promised_bounds};
use scenario::Scenario;
use std::alloc::{AllocError, Global};

/// The line of crashes that are not sure to be detected before the horizon.
const LATE: &str = "the detection of some crash is not promised before the horizon\n";

/// The greatest `delta` and the greatest `timeout` of a file, in ticks.
const MOST_TICKS: u64 = process_api::MOST_TICKS as u64;

/// Within how many ticks crashes are detected.
fn within_line(alloc: Global, detector: DetectorNumbers, ticks: u64) -> Result<String, AllocError>
    ensures { IfOk result (λ s. string_bytes s ≡ within_text detector ticks) }
{
    match detector {
        DetectorNumbers::Timeout(_) => format!(in alloc;
            "each correct process detects each crash of whom it watches within {ticks} ticks, \
as long as no suspicion is taken back\n"
        ),
        DetectorNumbers::Freshness(_) => format!(in alloc;
            "each correct process detects each crash of whom it watches within {ticks} ticks\n"
        ),
    }
}

/// Within how many ticks crashes are detected, where there are any that are to be.
fn detection_line(
    alloc: Global,
    detector: DetectorNumbers,
    bounds: &PromisedBounds,
) -> Result<String, AllocError>
    ensures { IfOk result (λ s. string_bytes s ≡ detection_text detector bounds.now.is_late bounds.now.detection) }
{
    if bounds.is_late {
        return String::from_str(alloc, LATE);
    }
    match bounds.detection {
        Some(ticks) => within_line(alloc, detector, ticks),
        None => Ok(String::new(alloc)),
    }
}

/// How many watched links surely bring no mistake, where any are watched.
fn reliable_line(alloc: Global, watched: usize, reliable: usize) -> Result<String, AllocError>
    ensures { IfOk result (λ s. string_bytes s ≡ reliable_text watched reliable) }
{
    if watched == 0 {
        return Ok(String::new(alloc));
    }
    format!(in alloc; "watched links that surely bring no mistake: {reliable} of {watched}\n")
}

/// Over how many watched links there may be mistakes, whatever the delays, where there are such links.
fn lossy_line(alloc: Global, lossy: usize) -> Result<String, AllocError>
    ensures { IfOk result (λ s. string_bytes s ≡ lossy_text lossy) }
{
    if lossy == 0 {
        return Ok(String::new(alloc));
    }
    format!(in alloc;
        "watched links with loss or outages, of whose mistakes nothing is promised: {lossy}\n"
    )
}

/// The key of a detector's file that says how long it waits.
fn key_of(detector: DetectorNumbers) -> &'static str
    ensures { result.now ≡ key_of detector }
{
    match detector {
        DetectorNumbers::Timeout(_) => "timeout",
        DetectorNumbers::Freshness(_) => "delta",
    }
}

/// With which numbers the links without loss and outages can bring no mistake, where there are such links.
fn needed_line(
    alloc: Global,
    detector: DetectorNumbers,
    needed: Option<u64>,
) -> Result<String, AllocError>
    ensures { IfOk result (λ s. string_bytes s ≡ needed_text (key_of detector) needed) }
{
    let key = key_of(detector);
    match needed {
        Some(ticks) if ticks <= MOST_TICKS => format!(in alloc;
            "with {key} {ticks} or more no link without loss and outages can bring a mistake\n"
        ),
        Some(_) => format!(in alloc;
            "no {key} that a file may have is sure to be enough for the links without loss and outages\n"
        ),
        None => Ok(String::new(alloc)),
    }
}

/// What no run of a scenario breaks, in lines.
pub(crate) fn bounds_lines(alloc: Global, scenario: &Scenario) -> Result<String, AllocError>
    ensures { IfOk result (λ s. string_bytes s ≡ bounds_text scenario.now.detector (promised scenario.now)) }
{
    let detector = scenario.detector();
    let bounds = promised_bounds(alloc, scenario)?;
    let detection = detection_line(alloc, detector, &bounds)?;
    let reliable = reliable_line(alloc, bounds.watched, bounds.reliable)?;
    let lossy = lossy_line(alloc, bounds.lossy)?;
    let needed = needed_line(alloc, detector, bounds.needed)?;
    format!(in alloc; "{detection}{reliable}{lossy}{needed}")
}
