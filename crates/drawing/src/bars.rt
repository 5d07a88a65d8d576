//! Stretches of ticks through which one process suspects another.
ghost use Rattle.std.specs.Prelude.{◌≡◌, IfOk};
ghost use Rattle.{judges.specs.Out.{suspects}, drawing.specs.{Suspicions.{AreBars}, Inside.Sweeping.{stretches}}};

use crate::sweep::Sweep;
use process_api::{Pid, Trace};
use std::alloc::{AllocError, Global};

/// A stretch of ticks.
#[derive(Clone, Copy, Debug, PartialEq, Eq)]
pub struct Bar {
    /// Its first tick.
    pub begin: u32,
    /// The tick after its last.
    pub end: u32,
}

/// The stretches of ticks through which an observer suspects a subject on a layer, each as long as can be within the
/// ticks from `from` to `until - 1`, in their order. A process that notes at one tick that it trusts another and that
/// it suspects it again suspects it through that tick.
///
/// # Errors
///
/// `AllocError` where memory was refused.
pub fn bars_of(
    alloc: Global,
    trace: &Trace,
    layer: u8,
    observer: Pid,
    subject: Pid,
    from: u32,
    until: u32,
) -> Result<Vec<Bar>, AllocError>
    ensures { IfOk result (λ v. AreBars (suspects layer trace.now observer subject) from until v.items) }
{
    stretches_of(alloc, trace, layer, observer, subject, from, until)
}

/// The same, as they are found.
pub(crate) fn stretches_of(
    alloc: Global,
    trace: &Trace,
    layer: u8,
    observer: Pid,
    subject: Pid,
    from: u32,
    until: u32,
) -> Result<Vec<Bar>, AllocError>
    ensures { IfOk result (λ v. v.items ≡ stretches (suspects layer trace.now observer subject) from until) }
{
    let mut sweep = Sweep::open(alloc, from);
    for entry in trace.entries() {
        sweep.feed(layer, observer, subject, until, entry)?;
    }
    sweep.close(until)
}
