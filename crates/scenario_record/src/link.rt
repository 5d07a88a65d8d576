//! Links.

/// What a link from one process to another does to letters.
#[derive(Clone, Copy, Debug, PartialEq, Eq)]
pub struct Link {
    /// The least delay, in ticks, 1 to 1,000,000.
    pub min: u32,
    /// The greatest delay, in ticks, 1 to 1,000,000.
    pub max: u32,
    /// How many of 1,000 letters are lost, 0 to 1,000.
    pub loss: u32,
}
