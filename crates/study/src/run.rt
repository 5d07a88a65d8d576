//! Runs of a study.
ghost use Rattle.std.specs.Prelude.{◌<◌, ◌^◌};

use crate::axis::Choice;

/// A run of a point: what is set besides the point's settings.
#[derive(Drop)]
pub struct Run<'a> {
    /// The settings of the keys whose values are added up.
    pub settings: Vec<Choice<'a>>,
    /// The seed, 0 to 9,223,372,036,854,775,807.
    pub seed: u64,
    ghost seed_high: { seed < 2 ^ 63 },
}
