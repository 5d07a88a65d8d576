//! Accepted scenarios.
ghost use Rattle.std.specs.{Prelude.{◌≡◌, ◌≢◌, ◌≤◌, ◌<◌, ◌+◌, ◌-◌, ◌*◌, None}, List.{list_any}};
ghost use Rattle.scenario_record.specs.{Ranges.{IsInRange}, Record.{proposal, crash, link, outages_on, opening_mind, covers}, Opening.{mind_of}};

use crate::algorithm::AlgorithmKind;
use crate::link::Link;
use crate::link_outages::LinkOutages;
use crate::opening::Opening;
use crate::outage::Outage;
use process_api::{DetectorNumbers, Pid};
use std::marker::Model;

/// What a scenario has, field by field. Contracts see the record of these fields.
#[derive(Drop)]
pub struct Fields {
    /// How many processes there are.
    pub processes: u16,
    /// The tick at which the run ends.
    pub horizon: u32,
    /// How many ticks a letter to another process takes at least.
    pub lookahead: u32,
    /// How many entries the trace may have.
    pub limit: u64,
    /// The seed of all random streams.
    pub seed: u64,
    /// The algorithm that the processes run.
    pub algorithm: AlgorithmKind,
    /// The numbers of the detectors.
    pub detector: DetectorNumbers,
    /// Ticks between two shares, where there is a reduction.
    pub share: Option<u32>,
    /// What each process proposes, of process 1 first.
    pub proposals: Vec<u32>,
    /// The tick at which each process crashes, if it does, of process 1 first.
    pub crashes: Vec<Option<u32>>,
    /// The links by sender and then by receiver, each from process 1.
    pub links: Vec<Link>,
    /// The outages of each link, by sender and then by receiver; empty where no link has one.
    pub outages: Vec<LinkOutages>,
}

impl Model for Fields {
    ghost use Rattle.scenario_record.specs.Record.{Record};

    ghost Value = { Record };

    ghost view = { λ s. record {
      processes = s.processes;
      horizon = s.horizon;
      lookahead = s.lookahead;
      limit = s.limit;
      seed = s.seed;
      algorithm = s.algorithm;
      detector = s.detector;
      share = s.share;
      proposals = s.proposals.items;
      crashes = s.crashes.items;
      links = s.links.items;
      outages = s.outages.items;
    } };
}

/// An accepted scenario. Contracts see the record that the file stands for (`specs/Record.antt`), with every field
/// in its range (`specs/Ranges.antt`).
#[derive(Drop)]
pub struct Scenario {
    fields: Fields,
}

impl Model for Scenario {
    ghost use Rattle.scenario_record.specs.{Record.{Record}, Ranges.{IsInRange}};

    ghost Value = { Record };

    ghost view = { λ s. s.fields };

    ghost invariant = { λ s. IsInRange s.fields };
}

impl Scenario {
    /// The scenario with these fields.
    pub fn of(fields: Fields) -> Scenario
        requires { IsInRange fields }
        ensures { result ≡ fields }
    {
        Scenario { fields }
    }

    /// Does nothing when it runs: a proof that needs the ranges of the scenario's numbers has them from this call's
    /// contract.
    pub fn recall_ranges(&self)
        ensures { IsInRange self.now }
    {
        // What a scenario promises of its fields is known once one is read.
        let _horizon = self.fields.horizon;
    }

    /// How many processes there are, 1 to 256.
    pub fn processes(&self) -> u16
        ensures value { result ≡ self.now.processes }
        ensures ranges { IsInRange self.now }
    {
        self.fields.processes
    }

    /// The tick at which the run ends, 1 to 10,000,000. No event of this tick or a later one is taken.
    pub fn horizon(&self) -> u32
        ensures value { result ≡ self.now.horizon }
        ensures ranges { IsInRange self.now }
    {
        self.fields.horizon
    }

    /// How many ticks a letter to another process takes at least, 1 to 1,000,000.
    pub fn lookahead(&self) -> u32
        ensures value { result ≡ self.now.lookahead }
        ensures ranges { IsInRange self.now }
    {
        self.fields.lookahead
    }

    /// How many entries the trace may have, 1 to 100,000,000.
    pub fn limit(&self) -> u64
        ensures value { result ≡ self.now.limit }
        ensures ranges { IsInRange self.now }
    {
        self.fields.limit
    }

    /// The seed of all random streams, below 2^63.
    pub fn seed(&self) -> u64
        ensures value { result ≡ self.now.seed }
        ensures ranges { IsInRange self.now }
    {
        self.fields.seed
    }

    /// The algorithm that the processes run.
    pub fn algorithm(&self) -> AlgorithmKind
        ensures { result ≡ self.now.algorithm }
    {
        self.fields.algorithm
    }

    /// The numbers of the detectors.
    pub fn detector(&self) -> DetectorNumbers
        ensures value { result ≡ self.now.detector }
        ensures ranges { IsInRange self.now }
    {
        self.fields.detector
    }

    /// Ticks between two shares, 1 to 1,000,000; none where there is no reduction.
    pub fn share(&self) -> Option<u32>
        ensures value { result ≡ self.now.share }
        ensures ranges { IsInRange self.now }
    {
        self.fields.share
    }

    /// The tick at which a process crashes, 0 to 10,000,000, if it does. None above the number of processes.
    pub fn crash(&self, p: Pid) -> Option<u32>
        ensures value { result ≡ crash self.now p }
        ensures above { self.now.processes < p → result ≡ None }
    {
        let row = usize::from(p.number()) - 1;
        self.fields.crashes.get(row).copied().unwrap_or(None)
    }

    /// What a process proposes. None above the number of processes, and where there is no algorithm.
    pub fn proposal(&self, p: Pid) -> Option<u32>
        ensures value { result ≡ proposal self.now p }
        ensures above { self.now.processes < p → result ≡ None }
    {
        self.fields
            .proposals
            .get(usize::from(p.number()) - 1)
            .copied()
    }

    /// The place of a link among all, by sender and then by receiver.
    #[inline(always)]
    fn place(&self, from: Pid, to: Pid) -> usize
        requires from_one { from ≤ self.now.processes }
        requires to_one { to ≤ self.now.processes }
        ensures value { result ≡ (from - 1) * self.now.processes + (to - 1) }
        ensures within { result < self.now.processes * self.now.processes }
    {
        let row = usize::from(from.number() - 1) * usize::from(self.fields.processes);
        row + usize::from(to.number() - 1)
    }

    /// What the link between two different processes does to letters.
    pub fn link(&self, from: Pid, to: Pid) -> Link
        requires different { from ≢ to }
        requires from_one { from ≤ self.now.processes }
        requires to_one { to ≤ self.now.processes }
        ensures value { result ≡ link self.now from to }
        ensures ranges { IsInRange self.now }
    {
        self.fields.links[self.place(from, to)]
    }

    /// The outages of the link between two different processes, in the order of their tables.
    pub fn outages(&self, from: Pid, to: Pid) -> &[Outage]
        requires different { from ≢ to }
        requires from_one { from ≤ self.now.processes }
        requires to_one { to ≤ self.now.processes }
        ensures value { result.now ≡ outages_on self.now from to }
        ensures ranges { IsInRange self.now }
    {
        match self.fields.outages.get(self.place(from, to)) {
            Some(outages) => outages.tables(),
            None => &[],
        }
    }

    /// Whether a letter that is sent on the link between two different processes at a tick is lost in an outage.
    #[inline(always)]
    pub fn is_cut(&self, from: Pid, to: Pid, tick: u32) -> bool
        requires different { from ≢ to }
        requires from_one { from ≤ self.now.processes }
        requires to_one { to ≤ self.now.processes }
        ensures { result ≡ list_any (covers tick) (outages_on self.now from to) }
    {
        match self.fields.outages.get(self.place(from, to)) {
            Some(outages) => outages.covers(tick),
            None => false,
        }
    }

    /// What a process opens with, which gives its mind.
    pub fn opening(&self, p: Pid) -> Opening
        requires { p ≤ self.now.processes }
        ensures own { result.own ≡ p }
        ensures processes { result.processes ≡ self.now.processes }
        ensures horizon { result.horizon ≡ self.now.horizon }
        ensures detector { result.detector ≡ self.now.detector }
        ensures share { result.share ≡ self.now.share }
        ensures algorithm { result.algorithm ≡ self.now.algorithm }
        ensures proposal { result.proposal ≡ proposal self.now p }
        ensures mind { mind_of result ≡ opening_mind self.now p }
    {
        Opening {
            own: p,
            processes: self.fields.processes,
            horizon: self.fields.horizon,
            detector: self.fields.detector,
            share: self.fields.share,
            algorithm: self.fields.algorithm,
            proposal: self.proposal(p),
        }
    }
}
