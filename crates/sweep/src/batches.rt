//! How many runs are handed out at a time.
ghost use Rattle.std.specs.Prelude.{ℕ, ◌+◌, ◌^◌, ◌<◌, ◌≤◌, length, IfOk};
ghost use Rattle.sweep.specs.Results.{AreAnswers};

use crate::parallel::in_parallel;
use std::alloc::{AllocError, Global};
use std::io;
use std::marker::{Send, Sync};
use std::thread::Threads;
use std::time::{Clock, Instant};

/// The least that a batch should take, in milliseconds.
const SHORT: u128 = 500;

/// The most.
const LONG: u128 = 2_000;

/// How many runs a batch has at most for each thread.
const MOST_EACH: u64 = 256;

/// Batches of runs by so many threads of a host. The first has one for each thread. After one that was short the next
/// has twice as many, and after a long one half as many.
#[derive(Drop)]
pub(crate) struct Batches<'a, R> {
    rt: &'a R,
    pub alloc: Global,
    threads: u8,
    size: u64,
    ghost some: { 1 ≤ size },
    ghost few: { size ≤ 65536 },
}

/// How many milliseconds went by since then, where the clock can be read.
fn millis_since<C: Clock>(clock: &C, began: io::Result<Instant>) -> Option<u128> {
    let began = began.ok()?;
    let now = Instant::now(clock).ok()?;
    Some(now.duration_since(began).as_millis())
}

impl<'a, R: Threads + Sync + Clock> Batches<'a, R> {
    /// Batches by so many threads.
    pub fn new(rt: &'a R, alloc: Global, threads: u8) -> Batches<'a, R> {
        let threads = threads.max(1);
        Batches {
            rt,
            alloc,
            threads,
            size: u64::from(threads),
        }
    }

    /// Makes the next batch longer where this one took no time, and shorter where it took long.
    fn adapt(&mut self, took: Option<u128>) {
        let least = u64::from(self.threads).max(1);
        match took {
            Some(millis) if millis < SHORT => {
                self.size = (self.size * 2).min(least * MOST_EACH);
            }
            Some(millis) if millis > LONG => {
                self.size = (self.size / 2).max(least);
            }
            _ => {}
        }
    }

    /// What a job gives for the first of these numbers, for one at least, and not for many: what is held doesn't grow
    /// with how many there are.
    ///
    /// # Errors
    ///
    /// `AllocError` where memory was refused.
    pub fn run<T: Send + Drop, F: Fn(u64) -> T + Sync>(
        &mut self,
        first: u64,
        end: u64,
        job: &F,
    ) -> Result<Vec<T>, AllocError>
        requires some { first < end }
        requires room { end < 2 ^ 64 }
        requires accepts { (number : ℕ) → first ≤ number → number < end → F.pre job.now number }
        ensures some { IfOk result (λ v. 1 ≤ length v.items) }
        ensures within { IfOk result (λ v. first + length v.items ≤ end) }
        ensures few { IfOk result (λ v. length v.items ≤ 65536) }
        ensures answers { IfOk result (λ v. AreAnswers F.Fn job.now first (length v.items) v.items) }
    {
        let count = self.size.min(end - first);
        let began = Instant::now(self.rt);
        let answers = in_parallel(self.rt, self.alloc, first, count, self.threads, job)?;
        self.adapt(millis_since(self.rt, began));
        Ok(answers)
    }
}
