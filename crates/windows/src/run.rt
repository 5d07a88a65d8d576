//! A run by windows.
ghost use Rattle.std.specs.Prelude.{◌≡◌, ◌≤◌, ◌<◌, ◌+◌, ◌-◌, ◌^◌, ◌⊎◌, List, [], length, map, IfErr, IfOk, Ok, OnOk, OnErr, IsErrOf};
ghost use Rattle.process_api.specs.{Order.{EntryRecord}, Place.{numbers_to}};
ghost use Rattle.scenario_record.specs.Record.{opening_mind};
ghost use Rattle.trace_laws.specs.{Setting.{setting_of}, World.{IsTrace}};
ghost use Rattle.windows.specs.{Inside.Closing.{HasNextWindow, IsNextWindow, AreParts, HandedOn, TookAllBut, TookFrontOf}, Plan.{IsPlanFor}, Stage.{IsOverLimit, IsRefusal, IsRefusalOfSink, TookTrace, TookFront, TookClosed, writes_of}};

use crate::chore::Chore;
use crate::gate::Gate;
use crate::plan::Plan;
use crate::sink::Sink;
use crate::stage::{Stage, count_within};
use crate::window::run_parts;
use process_api::{Entry, Process, RunError, Trace};
use scenario_record::Scenario;
use std::alloc::Global;
use std::marker::Sync;
use std::mem::replace;
use std::sync::Wait;
use std::thread::{Threads, yield_now};
use trace_merge::Merging;

/// How many entries a piece of a window has at least, but for the last one. A piece is still in the processor's first
/// cache as it is handed on, where one of 1,024 entries is not.
const PIECE: usize = 256;

/// Merges the parts, and hands them on in pieces that rise end to end. Their memory joins that of others.
///
/// # Errors
///
/// `Memory` or `Write` where the sink refused a piece, and `Memory` where there was none to merge them.
fn hand_on<K: Sink>(
    alloc: Global,
    sink: &mut K,
    parts: Vec<Vec<Entry>>,
    rooms: &mut Vec<Vec<Entry>>,
) -> Result<(), RunError>
    requires parts { AreParts parts.items }
    requires failures { K.failed sink.old < 2 ^ 64 - 1 }
    ensures took { OnOk result (TookAllBut K.took parts.items [] sink.old sink.new) }
    ensures front { OnErr result (TookFrontOf K.took K.took_front parts.items sink.old sink.new) }
    ensures errors { IfErr result IsRefusalOfSink }
    ensures count { K.failed sink.new ≡ K.failed sink.old + writes_of result }
{
    let mut merging = Merging::new(alloc, parts)?;
    loop {
        let (piece, rest) = merging.first_piece(PIECE)?;
        if piece.is_empty() {
            rest.keep_rooms(rooms);
            return Ok(());
        }
        sink.part(piece)?;
        merging = rest;
    }
}

/// How often the starter yields its processor to the worker that it has just started.
const YIELDS: usize = 4;

/// The starter doesn't yield where no more entries than these wait.
const FEW_ENTRIES: u64 = 1023;

/// Yields to the worker that was just started, where many entries wait to be handed on. A new thread often waits behind
/// the one that started it, until the system moves one of them to a free processor some milliseconds later. In wide
/// windows the worker usually takes longer than the starter, so that the starter can wait.
fn yield_to_worker(parts: &[Vec<Entry>]) {
    if count_within(parts, FEW_ENTRIES).is_some() {
        return;
    }
    for _ in 0..YIELDS {
        yield_now();
    }
}

/// Parts that wait to be handed on, memory of those that were, and what the sink answered to these.
#[derive(Drop)]
struct Left {
    parts: Vec<Vec<Entry>>,
    rooms: Vec<Vec<Entry>>,
    told: Result<(), RunError>,
}

/// The starter hands what is left to this sink beside the workers of the next window.
#[derive(Drop)]
struct Handing<'k, K: Sink> {
    left: Left,
    // more workers may need all processors, so that the starter doesn't wait then
    one_worker: bool,
    sink: &'k mut K,
}

impl<K: Sink> Chore for Handing<'_, K> {
    ghost use Rattle.std.specs.Prelude.{◌≡◌, ◌<◌, ◌-◌, ◌^◌};
    ghost use Rattle.windows.specs.Inside.Closing.{AreParts, HandedOn};

    ghost waits = { λ h. AreParts h.left.parts.items × (K.failed h.sink.now < 2 ^ 64 - 1) };

    ghost done = { λ old new. HandedOn K.took K.took_front K.failed old.left.parts.items new.left.parts.items
        old.sink.now new.sink.now new.left.told };

    ghost place = { λ h. h.sink.ghost_name };

    fn work(&mut self, alloc: Global) {
        let parts = replace(&mut self.left.parts, Vec::new(alloc));
        if self.one_worker {
            yield_to_worker(&parts);
        }
        self.left.told = hand_on(alloc, self.sink, parts, &mut self.left.rooms);
    }

    fn rooms(&mut self, alloc: Global) -> Vec<Vec<Entry>> {
        replace(&mut self.left.rooms, Vec::new(alloc))
    }
}

/// Runs the next window of a stage, as [`run_parts`] does. Meanwhile the starter hands the parts that wait to the sink.
/// Answers what `run_parts` does, and what is left: the parts that still wait, where the window was refused before a
/// worker began, and what the sink answered.
fn run_and_hand_on<M: Process, G: Gate, K: Sink, R: Threads + Wait + Sync>(
    rt: &R,
    alloc: Global,
    stage: &mut Stage<'_, M>,
    plan: &Plan,
    gate: &G,
    sink: &mut K,
    parts: Vec<Vec<Entry>>,
) -> (Result<Vec<Vec<Entry>>, RunError>, Left)
    requires window { HasNextWindow M.mind plan.now stage.old }
    requires waiting { AreParts parts.items }
    requires failures { K.failed sink.old < 2 ^ 64 - 1 }

    ensures handed { HandedOn K.took K.took_front K.failed parts.items result.1.parts.items sink.old sink.new
        result.1.told }
    ensures window { IfOk result.0 (λ parts. IsNextWindow M.mind plan.now stage.old parts.items stage.new) }
    ensures errors { IfErr result.0 IsRefusal }
    ensures limit { IsErrOf result.0 RunError.Limit → IsOverLimit stage.old.scenario.now }
{
    let left = Left {
        parts,
        rooms: Vec::new(alloc),
        told: Ok(()),
    };
    let mut handing = Handing {
        left,
        one_worker: plan.workers() == 1,
        sink,
    };
    let ran = run_parts(rt, alloc, stage, plan, gate, &mut handing);
    let Handing {
        left,
        sink: _sink,
        ..
    } = handing;
    (ran, left)
}

/// Runs machines by windows of the plan's length, each shared by the plan's workers, up to the horizon. There is one
/// machine for each process, of process 1 first, and each opens as the scenario says; the plan's window is no longer
/// than the scenario's lookahead. When a window is closed, its entries go to the sink, in parts of whole ticks, while
/// the workers of the next window run. The sink takes the trace of the single event list, under every schedule of the
/// threads.
///
/// # Errors
///
/// `Spawn` where a thread was refused, `Memory` where memory was, and `Limit` only where the whole trace has more
/// entries than the scenario's limit; `Memory` or `Write` where the sink refused a part. The machines are gone then,
/// and the sink has a front of the trace: after `Limit` and `Spawn` the entries below some tick. No clause says which
/// tick that is; it is the end of the last window that was closed.
pub fn run_windows_into<M: Process, G: Gate, K: Sink, R: Threads + Wait + Sync>(
    rt: &R,
    alloc: Global,
    scenario: &Scenario,
    machines: Vec<M>,
    plan: &Plan,
    gate: &G,
    sink: &mut K,
) -> Result<(), RunError>
    requires machines { map M.mind machines.items
        ≡ map (opening_mind scenario.now) (numbers_to scenario.now.processes) }
    requires plan { IsPlanFor scenario.now plan.now }
    requires failures { K.failed sink.old < 2 ^ 64 - 1 }

    ensures trace { OnOk result (TookTrace K.took (setting_of scenario.now) sink.old sink.new) }
    ensures within { OnOk result ((whole : List EntryRecord)
        → IsTrace (setting_of scenario.now) whole → length whole ≤ scenario.now.limit) }
    ensures front { OnErr result (TookFront K.took (setting_of scenario.now) K.took_front sink.old sink.new) }
    ensures closed { IsErrOf result RunError.Limit ⊎ IsErrOf result RunError.Spawn
        → TookClosed K.took (setting_of scenario.now) sink.old sink.new }
    ensures count { K.failed sink.new ≡ K.failed sink.old + writes_of result }
    ensures limit { IsErrOf result RunError.Limit → IsOverLimit scenario.now }
{
    // A reader says that a window has a tick at least.
    let _window = plan.window();
    scenario.recall_ranges();
    let mut stage = Stage::open(alloc, scenario, machines)?;
    let mut parts = Vec::new(alloc);
    while !stage.finished() {
        let (ran, left) = run_and_hand_on(rt, alloc, &mut stage, plan, gate, sink, parts);
        let Left {
            parts: rest,
            mut rooms,
            told,
        } = left;
        told?;
        hand_on(alloc, sink, rest, &mut rooms)?;
        parts = ran?;
    }
    hand_on(alloc, sink, parts, &mut Vec::new(alloc))
}

/// The same, where the whole trace is kept, and answered.
///
/// # Errors
///
/// `Spawn` where a thread was refused, `Memory` where memory was, and `Limit` only where the whole trace has more
/// entries than the scenario's limit. The machines are gone then, and there is no trace.
pub fn run_windows<M: Process, G: Gate, R: Threads + Wait + Sync>(
    rt: &R,
    alloc: Global,
    scenario: &Scenario,
    machines: Vec<M>,
    plan: &Plan,
    gate: &G,
) -> Result<Trace, RunError>
    requires machines { map M.mind machines.items
        ≡ map (opening_mind scenario.now) (numbers_to scenario.now.processes) }
    requires plan { IsPlanFor scenario.now plan.now }

    ensures trace { IfOk result (λ t. IsTrace (setting_of scenario.now) t) }
    ensures within { IfOk result (λ t. length t ≤ scenario.now.limit) }
    ensures errors { IfErr result IsRefusal }
    ensures limit { IsErrOf result RunError.Limit → IsOverLimit scenario.now }
{
    scenario.recall_ranges();
    let mut entries = Vec::new(alloc);
    run_windows_into(rt, alloc, scenario, machines, plan, gate, &mut entries)?;
    Ok(Trace::new(entries))
}
