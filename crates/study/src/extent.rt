//! How far a run goes.
ghost use Rattle.std.specs.Prelude.{◌≤◌};
ghost use Rattle.process_api.specs.Place.{last_tick, most_processes};

/// How far a run goes: what of it a network's draws depend on.
#[derive(Clone, Copy)]
pub(crate) struct Extent {
    pub(crate) processes: u16,
    pub(crate) horizon: u32,
    pub(crate) seed: u64,
    ghost few: { processes ≤ most_processes },
    ghost high: { horizon ≤ last_tick },
}
