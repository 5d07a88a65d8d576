//! The number of a process, and the number of all processes.
ghost use Rattle.std.specs.Prelude.{◌≡◌, ◌≤◌, ◌<◌, ◌+◌, ◌%◌};
ghost use Rattle.process_api.specs.{Place.{most_processes}, Coordinator.{coordinator as coordinator_of, is_own, majority as majority_of}};

use crate::pid::Pid;

/// A process's own number, and how many processes there are: what says who coordinates a round.
#[derive(Clone, Copy)]
pub struct Membership {
    /// The process's own number, from 1.
    pub own: Pid,
    /// How many processes there are, 1 to [`MOST_PROCESSES`](crate::MOST_PROCESSES).
    pub processes: u16,
    ghost from_one: { 1 ≤ own },
    ghost one_of_them: { own ≤ processes },
    ghost few: { processes ≤ most_processes },
}

/// The remainder of a round by a number of processes. Most rounds are less than it, and a division takes long.
#[inline(always)]
fn remainder(round: u64, processes: u16) -> u16
    requires { 1 ≤ processes }
    ensures { result ≡ round % processes }
{
    if round < u64::from(processes) {
        return round as u16;
    }
    (round % u64::from(processes)) as u16
}

impl Membership {
    /// Process `own` of so many.
    pub fn new(own: Pid, processes: u16) -> Membership
        requires one_of_them { own ≤ processes }
        requires few { processes ≤ most_processes }
        ensures own { result.own ≡ own }
        ensures processes { result.processes ≡ processes }
    {
        // this call tells the proof that a number is 1 at least
        let _from_one = own.number();
        Membership { own, processes }
    }

    /// The process with so many before it.
    pub fn process(&self, before: u16) -> Pid
        requires { before < self.now.processes }
        ensures { result ≡ before + 1 }
    {
        Pid::after(before)
    }

    /// The coordinator of a round: processes take turns.
    pub fn coordinator(&self, round: u64) -> Pid
        ensures { result ≡ coordinator_of self.now.processes round }
    {
        self.process(remainder(round, self.processes))
    }

    /// Whether the process itself is the coordinator of a round.
    pub fn is_coordinator(&self, round: u64) -> bool
        ensures { result ≡ is_own self.now.processes self.now.own round }
    {
        self.coordinator(round) == self.own
    }

    /// How many processes are a majority: more than half of them.
    pub fn majority(&self) -> u16
        ensures { result ≡ majority_of self.now.processes }
    {
        (self.processes + 2) / 2
    }
}
