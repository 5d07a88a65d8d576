//! How long each mistake was that ended.
ghost use Rattle.std.specs.Prelude.{◌≡◌, ℕ, ◌*◌, ◌≤◌, ◌<◌, ◌^◌, ◌++◌, ◌∷◌, [], List, length, vec_len, IfOk, OnOk};
ghost use Rattle.{process_api.specs.Order.{EntryRecord}, scenario_record.specs.Record.{Record}};
ghost use Rattle.reporting.specs.Durations.{AreCaught, caught, lists_in, ticks_between};

use crate::layer_pairs::{places, tally_at};
use crate::pair_tally::PairTally;
use crate::tally::Tally;
use judges::Pairs;
use process_api::{Entry, Pid};
use std::alloc::{AllocError, Global};

/// The ticks from a start to an end, if there are both.
fn ticks_between(started: Option<u32>, ended: Option<u32>) -> u32
    ensures { result ≡ ticks_between started ended }
{
    match (started, ended) {
        (None, _) | (_, None) => 0,
        (Some(started), Some(ended)) => ended.saturating_sub(started),
    }
}

/// One more length, where the tally has counted one more mistake that ended.
fn catch(lengths: &mut Vec<u32>, tally: &Tally) -> Result<(), AllocError>
    ensures { OnOk result (lengths.new.items ≡ caught tally.now lengths.old.items) }
{
    if (lengths.len() as u64) < tally.duration.count {
        lengths.push(ticks_between(tally.started, tally.ended))?;
    }
    Ok(())
}

/// Brings the lengths of the pairs at these places up to the tallies; once no entry follows, these are closed.
#[inline(never)]
fn catch_up(
    pairs: &mut [Vec<u32>],
    counts: &Pairs<PairTally>,
    from: usize,
    end: usize,
    closed: bool,
) -> Result<(), AllocError>
    requires order { from ≤ end }
    requires places { end ≤ length pairs.old }
    requires pairs { end ≤ counts.now.processes * counts.now.processes }
    ensures { OnOk result
        (AreCaught counts.now closed from end (lists_in pairs.old) (lists_in pairs.new)) }
{
    for place in from..end {
        catch(&mut pairs[place], &tally_at(counts, place, closed))?;
    }
    Ok(())
}

/// How long each mistake was that ended, of all pairs on one layer.
#[derive(Drop)]
pub struct Durations {
    /// How many processes there are.
    pub processes: u16,
    /// By observer and then by subject, a process and itself too: in ticks, in the order of the mistakes' ends.
    pub pairs: Vec<Vec<u32>>,
}

impl Durations {
    ghost use Rattle.reporting.specs.{Durations.{AreFollowing, lengths_of}, Inside.Layers.{AreClosed, FollowOn}};

    /// Of so many processes, whose counts were fed with nothing.
    pub(crate) fn open(alloc: Global, processes: u16) -> Result<Durations, AllocError>
        ensures { IfOk result (λ d. (S : Record) (layer : ℕ) → processes ≡ S.processes → AreFollowing S layer [] d) }
    {
        let count = usize::from(processes) * usize::from(processes);
        let mut pairs = Vec::with_capacity(alloc, count)?;
        for _ in 0..count {
            pairs.push(Vec::new(alloc))?;
        }
        Ok(Durations { processes, pairs })
    }

    /// The counts were fed with one more entry.
    #[inline(always)]
    pub(crate) fn follow(
        &mut self,
        counts: &Pairs<PairTally>,
        entry: &Entry,
    ) -> Result<(), AllocError>
        ensures { OnOk result (FollowOn counts.now entry.now self.old self.new) }
    {
        let processes = usize::from(self.processes);
        let first = (usize::from(entry.key.receiver.number()) - 1) * processes;
        let end = first + processes;
        if end <= self.pairs.len().min(places(counts)) {
            catch_up(&mut self.pairs, counts, first, end, false)?;
        }
        Ok(())
    }

    /// No entry follows.
    pub(crate) fn close(&mut self, counts: &Pairs<PairTally>) -> Result<(), AllocError>
        ensures { OnOk result (AreClosed counts.now self.old self.new) }
    {
        let end = self.pairs.len();
        if end <= places(counts) {
            catch_up(&mut self.pairs, counts, 0, end, true)?;
        }
        Ok(())
    }

    /// How long each mistake of an observer about a subject was, in ticks, in the order of their ends.
    pub fn of(&self, observer: Pid, subject: Pid) -> &[u32]
        ensures { result.now ≡ lengths_of self.now observer subject }
    {
        let row = usize::from(observer.number()) - 1;
        let column = usize::from(subject.number()) - 1;
        match self.pairs.get(row * usize::from(self.processes) + column) {
            None => &[],
            Some(lengths) => lengths.as_slice(),
        }
    }
}

/// How long each mistake of a run was that ended.
#[derive(Drop)]
pub struct RunDurations {
    /// On layer 1.
    pub first: Durations,
    /// On layer 2, where there is a reduction.
    pub second: Durations,
}
