//! The single event list.
ghost use Rattle.std.specs.Prelude.{◌≡◌, ◌≤◌, ◌<◌, ◌+◌, ◌^◌, [], ℕ, length, IfErr, IfOk, OnOk, IsErrOf, All, map, vec_len};
ghost use Rattle.process_api.specs.Place.{most_processes, most_step_actions, numbers_to};
ghost use Rattle.scenario_record.specs.Record.{opening_mind};
ghost use Rattle.trace_laws.specs.{History.{HasCauses, TakesOnce}, Taken.{HaveJoined}, Setting.{setting_of, IsProcess}, World.{starts, opened, IsTrace}};
ghost use Rattle.steps.specs.{Posting.{WereHeard}, Seat.{process_of, IsMindIn, IsSeated}};
ghost use Rattle.event_list.specs.{Following.{IsCutShort, IsRecorded, IsRefusal, IsTooLong, WasTold}, Inside.Standing.{posted_at, processes_of, AreSeated, ForReceiver, Stands, TookStep}};

use pending_events::Pending;
use process_api::{Action, Entry, Follower, Key, Pid, Process, RunError, StepInput, Trace};
use scenario_record::Scenario;
use std::alloc::{AllocError, Global};
use steps::{Event, Listener, Nobody, Seat};
use streams::Streams;

/// A run of the list: who sits where, what is pending, and room for what one machine answers.
#[derive(Drop)]
struct EventList<M> {
    // of process 1 first
    seats: Vec<Seat<M>>,
    pending: Pending,
    actions: Vec<Action>,
}

/// The machines, each in its seat.
fn seats_of<M: Process>(
    alloc: Global,
    scenario: &Scenario,
    machines: Vec<M>,
) -> Result<Vec<Seat<M>>, AllocError>
    requires { All (λ m. IsMindIn scenario.now (M.mind m)) machines.items }
    ensures processes { IfOk result (λ v. map (process_of M.mind) v.items ≡ map opened (map M.mind machines.items)) }
    ensures seated { IfOk result (λ v. All (IsSeated M.mind scenario.now 0) v.items) }
{
    let mut seats = Vec::new(alloc);
    for machine in machines {
        seats.push(Seat::new(alloc, scenario, machine)?)?;
    }
    Ok(seats)
}

/// The start of each process.
fn starts_of(alloc: Global, processes: u16) -> Result<Pending, AllocError>
    requires { processes ≤ most_processes }
    ensures { IfOk result (λ m. m ≡ starts processes) }
{
    let mut pending = Pending::new(alloc)?;
    for before in 0..processes {
        pending.join(Event::start(Pid::after(before)))?;
    }
    Ok(pending)
}

impl<M: Process> EventList<M> {
    /// The list at the opening of a run.
    fn open(
        alloc: Global,
        scenario: &Scenario,
        machines: Vec<M>,
    ) -> Result<EventList<M>, AllocError>
        requires { map M.mind machines.items ≡ map (opening_mind scenario.now) (numbers_to scenario.now.processes) }
        ensures seated { IfOk result (λ l. All (IsSeated M.mind scenario.now 0) l.seats.items) }
        ensures count { IfOk result (λ l. vec_len l.seats ≡ scenario.now.processes) }
        ensures opening { IfOk result (λ l.
            Stands (setting_of scenario.now) (processes_of M.mind l) l.pending [] []) }
    {
        let processes = scenario.processes();
        let seats = seats_of(alloc, scenario, machines)?;
        let pending = starts_of(alloc, processes)?;
        Ok(EventList {
            seats,
            pending,
            actions: Vec::new(alloc),
        })
    }

    /// Makes the step of an event that was taken from the pending ones: its receiver's turn, and the events that it
    /// causes join.
    fn take<L: Listener>(
        &mut self,
        streams: &Streams<'_>,
        event: (Key, StepInput),
        listener: &mut L,
    ) -> Result<Entry, AllocError>
        requires seated { (most : ℕ)
            × AreSeated M.mind streams.now most self.old × (most + most_step_actions < 2 ^ 64) }
        requires count { vec_len self.old.seats ≡ streams.now.processes }
        requires receiver { IsProcess (setting_of streams.now) event.0.receiver }
        requires own { ForReceiver M.mind self.old event
            (λ before. before.mind.lower.place.own ≡ event.0.receiver) }

        ensures count { OnOk result (vec_len self.new.seats ≡ vec_len self.old.seats) }
        ensures seated { OnOk result ((most : ℕ) → AreSeated M.mind streams.now most self.old
            → AreSeated M.mind streams.now (most + most_step_actions) self.new) }
        ensures stepped { IfOk result (λ e.
            ForReceiver M.mind self.old event (TookStep M.mind streams.now self.old self.new event e)) }
        ensures heard { OnOk result (ForReceiver M.mind self.old event (λ before.
            HaveJoined L.heard listener.old listener.new (posted_at streams.now event before))) }
    {
        let (key, input) = event;
        let place = usize::from(key.receiver.number()) - 1;
        let seat = &mut self.seats[place];
        let pending = &mut self.pending;
        let actions = &mut self.actions;
        seat.turn(streams, (key, input), actions, pending, listener)
    }
}

/// Runs machines by one event list, up to the horizon, and tells the follower of each entry as it comes, and the
/// listener of each letter to another process as it is put on its link: nothing of the trace is held. There is one
/// machine for each process, of process 1 first, and each opens as the scenario says. After what it had, the follower
/// was told the scenario's trace, in its order: keys rise, each entry but the starts has one cause, which is an earlier
/// entry, and each event that a step adds below the horizon is one entry. After what it had heard, the listener heard
/// the letters of the scenario's run. Steps come in the order of the tick of sending, then of the sender; the letters
/// of one step come in the order of its actions.
///
/// # Errors
///
/// `Limit` where the whole trace has more entries than the scenario's limit: the follower was told the first so many of
/// them. `Memory` where memory was refused; the follower and the listener are good for nothing then. The machines are
/// gone.
pub fn run_list_into<M: Process, F: Follower, L: Listener>(
    alloc: Global,
    scenario: &Scenario,
    machines: Vec<M>,
    follower: &mut F,
    listener: &mut L,
) -> Result<(), RunError>
    requires { map M.mind machines.items ≡ map (opening_mind scenario.now) (numbers_to scenario.now.processes) }

    ensures recorded { OnOk result (WasTold F.followed follower.old follower.new
        (IsRecorded (setting_of scenario.now) scenario.now.limit)) }
    ensures heard { OnOk result (WereHeard (setting_of scenario.now) L.heard listener.old listener.new) }
    ensures errors { IfErr result IsRefusal }
    ensures limit { IsErrOf result RunError.Limit → IsTooLong (setting_of scenario.now) scenario.now.limit }
    ensures front { IsErrOf result RunError.Limit → WasTold F.followed follower.old follower.new
        (IsCutShort (setting_of scenario.now) scenario.now.limit) }
{
    let streams = Streams::new(scenario);
    let limit = scenario.limit();
    let mut list = EventList::open(alloc, scenario, machines)?;
    let mut taken = 0u64;
    while let Some(event) = list.pending.take_least()? {
        if taken >= limit {
            return Err(RunError::Limit);
        }
        // the entry is read where it lies, as moving it copies it
        let Ok(entry) = &list.take(&streams, event, listener) else {
            return Err(RunError::Memory);
        };
        follower.follow(entry)?;
        taken += 1;
    }
    Ok(())
}

/// Runs machines by one event list, up to the horizon. There is one machine for each process, of process 1 first, and
/// each opens as the scenario says. In the trace each entry but the starts has one cause, an earlier entry, and each
/// event that a step adds below the horizon is one entry.
///
/// # Errors
///
/// `Limit` where the whole trace has more entries than the scenario's limit, `Memory` where memory was refused. The
/// machines are gone then, and there is no trace.
pub fn run_list<M: Process>(
    alloc: Global,
    scenario: &Scenario,
    machines: Vec<M>,
) -> Result<Trace, RunError>
    requires { map M.mind machines.items ≡ map (opening_mind scenario.now) (numbers_to scenario.now.processes) }

    ensures trace { IfOk result (λ t. IsTrace (setting_of scenario.now) t) }
    ensures cause { IfOk result (λ t. HasCauses (setting_of scenario.now) t) }
    ensures once { IfOk result (λ t. TakesOnce (setting_of scenario.now) t) }
    ensures within { IfOk result (λ t. length t ≤ scenario.now.limit) }
    ensures errors { IfErr result IsRefusal }
    ensures limit { IsErrOf result RunError.Limit → IsTooLong (setting_of scenario.now) scenario.now.limit }
{
    let mut entries = Vec::new(alloc);
    run_list_into(alloc, scenario, machines, &mut entries, &mut Nobody)?;
    Ok(Trace::new(entries))
}
