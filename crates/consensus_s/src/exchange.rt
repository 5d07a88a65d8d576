//! The exchange of vectors at one process.
ghost use Rattle.std.specs.Prelude.{◌≡◌, ◌≤◌, ◌<◌, ◌+◌, ◌++◌, false, if◌then◌else◌, is_some, None, IfOk, OnOk, length};
ghost use Rattle.std.specs.FinSet as set;
ghost use Rattle.process_api.specs.{Place.{most_processes}, Rows.{cell}};
ghost use Rattle.process_api.specs.ConsensusS.{cells_of, opening_exchange, or_else, begin as begun, decide as decided, enter as entered, gather as gathered, is_running as is_running_in, is_timely as is_timely_for, receive as received, receive_cells as received_cells};
ghost use Rattle.consensus_s.specs.State.{kept_of, missed_in, told_in, ended, exchange_of, stepped, IsOrderly};

use crate::letters::{is_missed, is_over, keep, leave, told};
use crate::vectors::{cells_by, first_value, known_at_first};
use process_api::{
    Action, Cells, Letters, Note, Payload, Pid, ProcSet, StepInput, note_that, send_to_all,
};
use scenario_record::Opening;
use std::alloc::{AllocError, Global};

/// What a process knows, and how far it is.
#[derive(Drop)]
pub(crate) struct Exchange {
    alloc: Global,
    // 0 before the start, n + 1 after the decision
    round: u64,
    // the proposals that it knows
    known: Cells,
    // of these the ones that the round before brought
    news: Cells,
    letters: Letters<Cells>,
}

impl Exchange {
    /// The exchange before its start.
    pub fn open(alloc: Global, opening: &Opening, proposal: u32) -> Result<Exchange, AllocError>
        ensures { IfOk result (λ e. exchange_of e ≡ opening_exchange opening.now.processes opening.now.own proposal) }
    {
        let known = known_at_first(alloc, opening.processes, opening.own, proposal)?;
        let news = known.copy()?;
        Ok(Exchange {
            alloc,
            round: 0,
            known,
            news,
            letters: Letters::new(alloc),
        })
    }

    /// What is known after the round: each empty cell takes what the letters tell.
    fn known_after(&self, n: u16) -> Result<Cells, AllocError>
        requires { n ≤ most_processes }
        ensures { IfOk result (λ c. c ≡ cells_of n (λ k.
            or_else (cell self.now.known k) (told_in n (kept_of self.now.letters) self.now.round k))) }
    {
        cells_by(self.alloc, n, |k| match self.known.get(k) {
            Some(value) => Some(value),
            None => told(&self.letters, n, self.round, k),
        })
    }

    /// What the round brought: what the letters tell of the empty cells.
    fn news_after(&self, n: u16) -> Result<Cells, AllocError>
        requires { n ≤ most_processes }
        ensures { IfOk result (λ c. c ≡ cells_of n (λ k.
            if is_some (cell self.now.known k) then None else told_in n (kept_of self.now.letters) self.now.round k)) }
    {
        cells_by(self.alloc, n, |k| match self.known.get(k) {
            Some(_) => None,
            None => told(&self.letters, n, self.round, k),
        })
    }

    /// What all that were heard of in the last round know.
    fn common_after(&self, n: u16) -> Result<Cells, AllocError>
        requires { n ≤ most_processes }
        ensures { IfOk result (λ c. c ≡ cells_of n (λ k.
            if missed_in n (kept_of self.now.letters) self.now.round k then None else cell self.now.known k)) }
    {
        cells_by(self.alloc, n, |k| {
            if is_missed(&self.letters, n, self.round, k) {
                None
            } else {
                self.known.get(k)
            }
        })
    }

    /// Takes what the letters of the round tell, and leaves the round.
    fn gather(&mut self, opening: &Opening) -> Result<(), AllocError>
        requires { self.old.round ≤ opening.now.processes }
        ensures { OnOk result (exchange_of self.new
            ≡ gathered opening.now.processes opening.now.own (exchange_of self.old)) }
    {
        let n = opening.processes;
        let known = self.known_after(n)?;
        let news = self.news_after(n)?;
        leave(&mut self.letters, self.round);
        self.known = known;
        self.news = news;
        Ok(())
    }

    /// Begins a round.
    fn enter(
        &mut self,
        opening: &Opening,
        round: u64,
        out: &mut Vec<Action>,
    ) -> Result<(), AllocError>
        ensures state { OnOk result (exchange_of self.new
            ≡ (entered opening.now.processes opening.now.own round (exchange_of self.old)).state) }
        ensures actions { OnOk result (out.new.items ≡ out.old.items
            ++ (entered opening.now.processes opening.now.own round (exchange_of self.old)).actions) }
    {
        let n = opening.processes;
        note_that(out, Note::Round(round))?;
        if round < u64::from(n) {
            let cells = self.news.copy()?;
            send_to_all(out, n, &Payload::Vector { round, cells })?;
        } else {
            let cells = self.known.copy()?;
            send_to_all(out, n, &Payload::Last { cells })?;
        }
        self.round = round;
        Ok(())
    }

    /// Decides after the last round.
    fn decide(&mut self, opening: &Opening, out: &mut Vec<Action>) -> Result<(), AllocError>
        requires { self.old.round ≤ opening.now.processes }
        ensures state { OnOk result (exchange_of self.new
            ≡ (decided opening.now.processes opening.now.own (exchange_of self.old)).state) }
        ensures actions { OnOk result (out.new.items ≡ out.old.items
            ++ (decided opening.now.processes opening.now.own (exchange_of self.old)).actions) }
    {
        let n = opening.processes;
        let common = self.common_after(n)?;
        let note = match first_value(&common, n) {
            Some(value) => Note::Decided(value),
            None => Note::NoValue,
        };
        note_that(out, note)?;
        leave(&mut self.letters, self.round);
        self.known = common;
        self.round = u64::from(n) + 1;
        Ok(())
    }

    /// Ends the wait of the round, if it is over.
    fn end_wait(
        &mut self,
        opening: &Opening,
        suspects: &ProcSet,
        out: &mut Vec<Action>,
    ) -> Result<(), AllocError>
        ensures state { OnOk result (exchange_of self.new ≡ (ended opening.now suspects.now self.old).state) }
        ensures actions { OnOk result (
            out.new.items ≡ out.old.items ++ (ended opening.now suspects.now self.old).actions) }
    {
        let n = opening.processes;
        if !self.is_running(opening) || !is_over(&self.letters, n, self.round, suspects) {
            return Ok(());
        }
        if self.round < u64::from(n) {
            let next = self.round + 1;
            self.gather(opening)?;
            self.enter(opening, next, out)
        } else {
            self.decide(opening, out)
        }
    }

    /// Whether the process is in a round: after its start, before its decision.
    fn is_running(&self, opening: &Opening) -> bool
        ensures { result ≡ is_running_in opening.now.processes opening.now.own (exchange_of self.now) }
    {
        1 <= self.round && self.round <= u64::from(opening.processes)
    }

    /// Whether a vector counts: of one of the n processes, of n cells, of the own round or, by another, of a later one.
    fn is_timely(&self, opening: &Opening, sender: Pid, round: u64, cells: &Cells) -> bool
        ensures { result
            ≡ is_timely_for opening.now.processes opening.now.own (exchange_of self.now) sender round cells.now }
    {
        let n = opening.processes;
        self.is_running(opening)
            && sender.number() <= n
            && cells.len() == usize::from(n)
            && self.round <= round
            && !(sender == opening.own && self.round < round)
    }

    /// Keeps a vector, if it counts.
    fn receive_cells(
        &mut self,
        opening: &Opening,
        sender: Pid,
        round: u64,
        cells: &Cells,
    ) -> Result<(), AllocError>
        ensures { OnOk result (exchange_of self.new
            ≡ received_cells opening.now.processes opening.now.own sender round cells.now (exchange_of self.old)) }
    {
        if self.is_timely(opening, sender, round, cells) {
            keep(&mut self.letters, round, sender, cells)?;
        }
        Ok(())
    }

    /// Takes a letter. One that is not the algorithm's is dropped.
    fn receive(
        &mut self,
        opening: &Opening,
        sender: Pid,
        payload: &Payload,
    ) -> Result<(), AllocError>
        ensures { OnOk result (exchange_of self.new
            ≡ received opening.now.processes opening.now.own sender payload.now (exchange_of self.old)) }
    {
        let last = u64::from(opening.processes);
        match payload {
            Payload::Vector { round, cells } => {
                let round = *round;
                if 1 <= round && round < last {
                    self.receive_cells(opening, sender, round, cells)?;
                }
                Ok(())
            }
            Payload::Last { cells } => self.receive_cells(opening, sender, last, cells),
            _ => Ok(()),
        }
    }

    /// What an input does before the wait is looked at.
    fn begin(
        &mut self,
        opening: &Opening,
        input: &StepInput,
        out: &mut Vec<Action>,
    ) -> Result<(), AllocError>
        ensures state { OnOk result (exchange_of self.new
            ≡ (begun opening.now.processes opening.now.own input.now (exchange_of self.old)).state) }
        ensures actions { OnOk result (out.new.items ≡ out.old.items
            ++ (begun opening.now.processes opening.now.own input.now (exchange_of self.old)).actions) }
    {
        match input {
            StepInput::Start => {
                if self.round == 0 {
                    self.enter(opening, 1, out)?;
                }
                Ok(())
            }
            StepInput::Letter { sender, payload } => self.receive(opening, *sender, payload),
            StepInput::Wake(_) => Ok(()),
        }
    }

    /// Takes an input, with the suspects as they are by then. At most one wait ends, because the own letter of a round
    /// that is entered comes later.
    pub fn step(
        &mut self,
        opening: &Opening,
        input: &StepInput,
        suspects: &ProcSet,
        out: &mut Vec<Action>,
    ) -> Result<(), AllocError>
        requires orderly { IsOrderly opening.now.own (exchange_of self.old) }
        requires not_itself { set.contains suspects.now opening.now.own ≡ false }
        ensures state { OnOk result (
            exchange_of self.new ≡ (stepped opening.now suspects.now input.now self.old).state) }
        ensures actions { OnOk result (
            out.new.items ≡ out.old.items ++ (stepped opening.now suspects.now input.now self.old).actions) }
        ensures orderly { OnOk result (IsOrderly opening.now.own (exchange_of self.new)) }
        ensures few { OnOk result (
            length (stepped opening.now suspects.now input.now self.old).actions ≤ opening.now.processes + 1) }
    {
        prove!(1 <= opening.own.number());
        self.begin(opening, input, out)?;
        self.end_wait(opening, suspects, out)
    }
}
