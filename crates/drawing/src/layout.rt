//! Where things stand in a picture, in whole user units.
ghost use Rattle.std.specs.Prelude.{◌≡◌, ◌≤◌, ◌<◌, IfSome};
ghost use Rattle.process_api.specs.Place.{last_tick};

/// The most processes that are drawn.
pub const MOST_DRAWN: u16 = 16;

/// The most letters that are drawn.
pub const MOST_LETTERS: usize = 2_000;

/// Where the first tick stands, from the left.
pub(crate) const LEFT: u32 = 88;
/// How wide the ticks asked for are.
pub(crate) const WIDTH: u32 = 800;
/// How wide the room is on the right of them.
pub(crate) const RIGHT: u32 = 40;
/// Where the first row begins, from the top.
pub(crate) const TOP: u32 = 80;
/// How high a row is.
pub(crate) const ROW: u32 = 16;
/// How high the room is below the rows of a process.
pub(crate) const GAP: u32 = 10;
/// How high the room is below the last row.
pub(crate) const BOTTOM: u32 = 28;

/// How high the room is for one text above the line of a process, in a picture of letters.
pub(crate) const REMARK: u32 = 9;
/// How high the room of a process is there, but for these texts.
pub(crate) const LANE: u32 = 36;

/// The ticks from one label of an axis to the next: 1, 2 or 5 times a power of ten.
const STEPS: [u32; 18] = [
    1, 2, 5, 10, 20, 50, 100, 200, 500, 1_000, 2_000, 5_000, 10_000, 20_000, 50_000, 100_000,
    200_000, 500_000,
];
/// The most ticks from one label to the next: no run has more than ten times as many.
const LAST_STEP: u32 = 1_000_000;

/// The least step that isn't below a number.
fn step_from(least: u32) -> Option<u32>
    ensures { IfSome result (λ step. 0 < step) }
{
    STEPS.iter().copied().find(|step| least <= *step)
}

/// Some ticks of a run that are drawn.
#[derive(Clone, Copy)]
pub(crate) struct Ticks {
    pub from: u32,
    /// The tick after the last.
    pub until: u32,
    ghost some: { from < until },
    ghost high: { until ≤ last_tick },
}

impl Ticks {
    ghost use Rattle.drawing.specs.Frame.{is_among, shown, x_of};

    /// Where a tick begins, from the left; at an edge where it isn't one of these.
    #[tactic(auto, unfolding(crate::specs::Frame::x_of))]
    pub fn x(&self, tick: u32) -> u32
        ensures value { result ≡ x_of self.now.from self.now.until tick }
        ensures inside { result ≤ 888 }
    {
        let ticks = tick.min(self.until).saturating_sub(self.from);
        let along = u64::from(ticks) * u64::from(WIDTH);
        LEFT + (along / u64::from(self.until - self.from)) as u32
    }

    /// How many ticks there are from one label of the axis to the next.
    pub fn step(&self) -> u32
        ensures { 0 < result }
    {
        let ticks = self.until - self.from;
        step_from(ticks.div_ceil(10)).unwrap_or(LAST_STEP)
    }

    /// Whether a tick is one of these.
    pub fn has(&self, tick: u32) -> bool
        ensures { result ≡ is_among self.now.from self.now.until tick }
    {
        self.from <= tick && tick < self.until
    }

    /// A tick, where it is one from the first to `end - 1`.
    pub fn shown(&self, end: u32, tick: Option<u32>) -> Option<u32>
        ensures { result ≡ shown self.now.from end tick }
    {
        tick.filter(|tick| self.from <= *tick && *tick < end)
    }
}
