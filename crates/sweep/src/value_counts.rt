//! Values, each with how often it came.
ghost use Rattle.std.specs.{Prelude.{◌≡◌, ◌<◌, ◌≤◌, ◌^◌, ◌∷◌, [], ℕ, List, length, OnOk}, List.{cons_option}};
ghost use Rattle.sweep.specs.{Inside.Adding.{is_above}, Columns.{IsDistribution}, Fitting.{most_values}, Percentile.{IsPercentile, greater}};

use crate::columns::Distribution;
use std::alloc::{AllocError, Global};
use std::collections::BTreeMap;

/// The greater of two numbers, where there are any.
pub(crate) fn greater(first: Option<u64>, second: Option<u64>) -> Option<u64>
    ensures { result ≡ greater first second }
{
    match (first, second) {
        (None, other) | (other, None) => other,
        (Some(first), Some(second)) => Some(first.max(second)),
    }
}

/// Whether there is a first number, and it is above the second, if there is that.
pub(crate) fn is_above(first: Option<u64>, second: Option<u64>) -> bool
    ensures { result ≡ is_above first second }
{
    first > second
}

/// Values, each with how often it came. Memory grows with how many different values there are.
#[derive(Drop)]
pub(crate) struct ValueCounts {
    /// How often each value came.
    pub counts: BTreeMap<u64, u128>,
    /// How many values there are.
    pub total: u128,
    /// The greatest of them.
    pub greatest: Option<u64>,
}

impl ValueCounts {
    ghost use Rattle.sweep.specs.{Percentile.{AreCounted}, Inside.Private.{CountsMore}};

    /// No value came.
    pub(crate) fn new(alloc: Global) -> ValueCounts
        ensures { AreCounted [] result }
    {
        ValueCounts {
            counts: BTreeMap::new(alloc),
            total: 0,
            greatest: None,
        }
    }

    /// One more value.
    fn add(&mut self, value: u64) -> Result<(), AllocError>
        ensures { OnOk result (CountsMore (value ∷ []) self.old self.new) }
    {
        let had = self.counts.get(&value).copied().unwrap_or(0);
        self.counts.insert(value, had.saturating_add(1))?;
        self.total = self.total.saturating_add(1);
        self.greatest = greater(self.greatest, Some(value));
        Ok(())
    }

    /// More values.
    pub(crate) fn add_all(&mut self, more: &[u32]) -> Result<(), AllocError>
        ensures { OnOk result (CountsMore more.now self.old self.new) }
    {
        for value in more {
            self.add(u64::from(*value))?;
        }
        Ok(())
    }

    /// One more value, if there is one.
    pub(crate) fn add_if_any(&mut self, value: Option<u64>) -> Result<(), AllocError>
        ensures { OnOk result (CountsMore (cons_option value []) self.old self.new) }
    {
        match value {
            None => Ok(()),
            Some(value) => self.add(value),
        }
    }

    /// The nearest-rank percentile, where so many infinite values come last: the least of the values which at least so
    /// many hundredths of all are at most. Nothing where the rank falls on an infinite one, or where nothing came.
    fn percentile(&self, hundredths: u8, infinite: u128) -> Option<u128>
        requires low { 1 ≤ hundredths }
        requires high { hundredths ≤ 100 }
        ensures { (values : List ℕ) → length values < most_values → infinite < 2 ^ 64 → AreCounted values self.now
            → IsPercentile hundredths values infinite result }
    {
        let all = self.total.saturating_add(infinite);
        let wanted = u128::from(hundredths).saturating_mul(all);
        if wanted == 0 {
            return None;
        }
        let mut seen = 0u128;
        for (value, count) in self.counts.iter() {
            seen = seen.saturating_add(*count);
            let reached = seen.saturating_mul(100);
            if wanted <= reached {
                return Some(u128::from(*value));
            }
        }
        None
    }

    /// What is told of the values, where so many infinite ones come last.
    pub(crate) fn distribution(&self, infinite: u128) -> Distribution
        ensures { (values : List ℕ) → length values < most_values → infinite < 2 ^ 64 → AreCounted values self.now
            → IsDistribution values infinite result }
    {
        Distribution {
            count: self.total,
            p50: self.percentile(50, infinite),
            p90: self.percentile(90, infinite),
            p99: self.percentile(99, infinite),
            greatest: self.greatest.map(u128::from),
        }
    }
}
