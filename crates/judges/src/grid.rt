//! The verdicts, from the tracks of all pairs at the horizon.

ghost use Rattle.std.specs.Prelude.{◌≡◌, ◌<◌, None, Some, if◌then◌else◌};
ghost use Rattle.judges.specs.{Track.{earliest, latest}, Verdicts.{column_right, column_suspected, column_trusted, grid_verdicts, place, row_right, row_suspected, row_trusted, counts_as_correct}};

use crate::pair::Gauge;
use crate::pairs::Pairs;
use crate::track::Track;
use crate::verdicts::Verdicts;

/// The later of two ticks, where none is later than all.
fn latest(a: Option<u32>, b: Option<u32>) -> Option<u32>
    ensures { result ≡ latest a b }
{
    match (a, b) {
        (Some(x), Some(y)) => Some(x.max(y)),
        _ => None,
    }
}

/// The earlier of two ticks.
fn earliest(a: Option<u32>, b: Option<u32>) -> Option<u32>
    ensures { result ≡ earliest a b }
{
    match (a, b) {
        (Some(x), Some(y)) => Some(x.min(y)),
        (Some(x), None) => Some(x),
        (None, b) => b,
    }
}

/// The later of two ticks, where the second counts.
fn latest_where(counts: bool, a: Option<u32>, b: Option<u32>) -> Option<u32>
    ensures { result ≡ latest a (if counts then b else Some 0) }
{
    if counts { latest(a, b) } else { a }
}

/// The earlier of two ticks, where the second counts.
fn earliest_where(counts: bool, a: Option<u32>, b: Option<u32>) -> Option<u32>
    ensures { result ≡ earliest a (if counts then b else None) }
{
    if counts { earliest(a, b) } else { a }
}

/// The track of two processes, each by how many come before it, as all ticks below the horizon are behind.
fn place<K: Gauge>(pairs: &Pairs<K>, i: usize, j: usize) -> Track
    requires row { i < pairs.now.processes }
    requires column { j < pairs.now.processes }
    ensures { result ≡ place K.passed K.seen K.fresh pairs.now i j }
{
    pairs.pair(i, j).close(pairs.horizon()).track()
}

/// Whether a process is correct: whether its own end is the horizon.
fn counts_as_correct<K: Gauge>(pairs: &Pairs<K>, i: usize) -> bool
    requires row { i < pairs.now.processes }
    ensures { result ≡ counts_as_correct K.passed K.seen K.fresh pairs.now i }
{
    pairs.pair(i, i).end == pairs.horizon()
}

/// What the tracks of a row or of a column tell.
#[derive(Clone, Copy)]
struct Line {
    /// From which tick on crashed ones are suspected.
    suspected: Option<u32>,
    /// From which tick on correct ones are trusted.
    trusted: Option<u32>,
    /// Whether there is no mistake.
    right: bool,
}

/// From which tick on a process suspects all crashed ones, from which on it trusts all correct ones, and whether it
/// made no mistake.
fn row<K: Gauge>(pairs: &Pairs<K>, i: usize) -> Line
    requires inside { i < pairs.now.processes }
    ensures suspected { result.suspected ≡ row_suspected K.passed K.seen K.fresh pairs.now i }
    ensures trusted { result.trusted ≡ row_trusted K.passed K.seen K.fresh pairs.now i }
    ensures right { result.right ≡ row_right K.passed K.seen K.fresh pairs.now i }
{
    let mut suspected = Some(0);
    let mut trusted = Some(0);
    let mut right = true;
    for j in 0..pairs.processes() {
        let track = place(pairs, i, j);
        let correct = counts_as_correct(pairs, j);
        suspected = latest_where(!correct, suspected, track.suspected_from());
        trusted = latest_where(correct, trusted, track.trusted_from());
        right &= !track.mistaken;
    }
    Line {
        suspected,
        trusted,
        right,
    }
}

/// From which tick on some correct process suspects one, from which on all correct ones trust it, and whether no
/// mistake was made of it.
fn column<K: Gauge>(pairs: &Pairs<K>, j: usize) -> Line
    requires inside { j < pairs.now.processes }
    ensures suspected { result.suspected ≡ column_suspected K.passed K.seen K.fresh pairs.now j }
    ensures trusted { result.trusted ≡ column_trusted K.passed K.seen K.fresh pairs.now j }
    ensures right { result.right ≡ column_right K.passed K.seen K.fresh pairs.now j }
{
    let mut suspected = None;
    let mut trusted = Some(0);
    let mut right = true;
    for i in 0..pairs.processes() {
        let track = place(pairs, i, j);
        let correct = counts_as_correct(pairs, i);
        suspected = earliest_where(correct, suspected, track.suspected_from());
        trusted = latest_where(correct, trusted, track.trusted_from());
        right &= !track.mistaken;
    }
    Line {
        suspected,
        trusted,
        right,
    }
}

/// All verdicts.
pub fn grid_verdicts<K: Gauge>(pairs: &Pairs<K>) -> Verdicts
    ensures { result ≡ grid_verdicts K.passed K.seen K.fresh pairs.now }
{
    let mut told = Verdicts {
        strong_completeness: Some(0),
        weak_completeness: Some(0),
        strong_accuracy: true,
        weak_accuracy: false,
        eventual_strong_accuracy: Some(0),
        eventual_weak_accuracy: None,
    };
    for i in 0..pairs.processes() {
        let row = row(pairs, i);
        let column = column(pairs, i);
        let correct = counts_as_correct(pairs, i);
        told.strong_completeness = latest_where(correct, told.strong_completeness, row.suspected);
        told.weak_completeness = latest_where(!correct, told.weak_completeness, column.suspected);
        told.strong_accuracy &= row.right;
        told.weak_accuracy |= correct & column.right;
        told.eventual_strong_accuracy = latest_where(
            correct,
            told.eventual_strong_accuracy,
            row.trusted,
        );
        told.eventual_weak_accuracy = earliest_where(
            correct,
            told.eventual_weak_accuracy,
            column.trusted,
        );
    }
    told
}
