//! The counts of all pairs on one layer, and the numbers that are told of them.
ghost use Rattle.std.specs.Prelude.{◌≡◌, ◌*◌, ◌++◌, ◌<◌, OnOk};
ghost use Rattle.reporting.specs.{Durations.{tally_at}, Inside.Layers.{JoinMeasures}, LayerPairs.{closed_row, metered}};

use crate::meter::{Meter, crash_between};
use crate::pair_measures::PairMeasures;
use crate::pair_tally::PairTally;
use crate::tally::Tally;
use judges::Pairs;
use std::alloc::AllocError;

/// The meter of an observer and a subject, each by how many processes come before it.
fn meter_at(pairs: &Pairs<PairTally>, row: usize, column: usize) -> Meter
    requires row { row < pairs.now.processes }
    requires column { column < pairs.now.processes }
    ensures { result ≡ metered pairs.now row column }
{
    let horizon = pairs.horizon();
    let observer_end = pairs.pair(row, row).end;
    let subject_end = pairs.pair(column, column).end;
    Meter {
        layer: pairs.layer(),
        observer: pairs.process(row),
        subject: pairs.process(column),
        horizon,
        crash: crash_between(observer_end, subject_end, horizon),
        pair: pairs.pair(row, column),
    }
}

/// Adds the measures of one observer, by how many processes come before it.
fn close_row(
    pairs: &Pairs<PairTally>,
    row: usize,
    rows: &mut Vec<PairMeasures>,
) -> Result<(), AllocError>
    requires inside { row < pairs.now.processes }
    ensures { OnOk result (rows.new.items ≡ rows.old.items ++ closed_row pairs.now row) }
{
    for column in 0..pairs.processes() {
        if column != row {
            rows.push(meter_at(pairs, row, column).close())?;
        }
    }
    Ok(())
}

/// How many pairs there are, by observer and then by subject, a process and itself too.
pub(crate) fn places(pairs: &Pairs<PairTally>) -> usize
    ensures { result ≡ pairs.now.processes * pairs.now.processes }
{
    pairs.processes() * pairs.processes()
}

/// What is counted of the pair at a place: so far, or as no entry follows.
pub(crate) fn tally_at(pairs: &Pairs<PairTally>, place: usize, closed: bool) -> Tally
    requires { place < pairs.now.processes * pairs.now.processes }
    ensures { result ≡ tally_at pairs.now closed place }
{
    let pair = pairs.pair(place / pairs.processes(), place % pairs.processes());
    if closed {
        pair.close(pairs.horizon()).tally()
    } else {
        pair.kept.tally()
    }
}

/// Adds the measures of each observer and each other subject, as no entry follows.
pub(crate) fn close_rows(
    pairs: &Pairs<PairTally>,
    rows: &mut Vec<PairMeasures>,
) -> Result<(), AllocError>
    ensures { OnOk result (JoinMeasures pairs.now rows.old.items rows.new.items) }
{
    for row in 0..pairs.processes() {
        close_row(pairs, row, rows)?;
    }
    Ok(())
}
