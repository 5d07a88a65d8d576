//! Shards of a study.
ghost use Rattle.std.specs.{Prelude.{◌≡◌, ◌≤◌, ◌-◌, ◌↔◌, IsTrue, IsSome, IfSome}, List.{range_with_len}};
ghost use Rattle.study.specs.Grid.{ShardRecord, IsShard, begin_of, end_of, block, AreAll, AreEven};

use std::marker::Model;
use std::ops::Range;

/// The K-th of N consecutive blocks of a study's points.
#[derive(Clone, Copy, Debug, PartialEq, Eq)]
pub struct Shard {
    number: u32,
    of: u32,
}

impl Model for Shard {
    ghost use Rattle.study.specs.Grid.{ShardRecord, IsShard};

    ghost Value = { ShardRecord };

    ghost view = { λ s. record { number = s.number; of = s.of } };

    ghost invariant = { λ s. IsShard (record { number = s.number; of = s.of }) };

    ghost inverse = { λ s. record { number = s.number; of = s.of } };
}

impl Shard {
    /// The block of this number, from 1, of so many.
    pub fn new(number: u32, of: u32) -> Option<Shard>
        ensures range { IsSome result ↔ ((1 ≤ number) × (number ≤ of)) }
        ensures value { IfSome result (λ s. s ≡ record { number = number; of = of }) }
    {
        if 1 <= number && number <= of {
            Some(Shard { number, of })
        } else {
            None
        }
    }

    /// The one block of all points.
    pub fn whole() -> Shard
        ensures { result ≡ record { number = 1; of = 1 } }
    {
        Shard { number: 1, of: 1 }
    }

    /// Whether it is the first block.
    pub fn is_first(self) -> bool
        ensures { IsTrue result ↔ (self.number ≡ 1) }
    {
        self.number == 1
    }

    /// The block's points, of so many points from 0.
    #[tactic(auto, using(crate::proofs::Blocks::block_of_range))]
    pub fn points(self, points: u32) -> Range<u32>
        ensures begin { result.start ≡ begin_of points self }
        ensures end { result.end ≡ end_of points self }
        ensures order { result.start ≤ result.end }
        ensures within { result.end ≤ points }
        ensures block { block (range_with_len 0 points) self
            ≡ range_with_len result.start (result.end - result.start) }
    {
        let points = u64::from(points);
        let of = u64::from(self.of);
        let start = points * u64::from(self.number - 1) / of;
        let end = points * u64::from(self.number) / of;
        start as u32..end as u32
    }
}

/// The blocks of a number of shards, one after the other, are all points, each once and in order; and no block has two
/// points more than another.
#[tactic(auto, using(crate::proofs::Blocks::all_blocks, crate::proofs::Blocks::even_blocks))]
pub fn law_shards(shards: u32)
    requires { 1 ≤ shards }
    ensures whole { AreAll shards }
    ensures even { AreEven shards }
{}
