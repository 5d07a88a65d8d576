//! The detector with freshness points: another failure detector of layer 1.
//!
//! Each process sends numbered heartbeats to all others, heartbeat i at tick `i * eta`. A process that watches another
//! fixes points in time, point i at tick `i * eta + delta`. From one point to the next only heartbeats of the point's
//! number and later ones are fresh: it suspects the other just where none of these came. Before the first point it
//! suspects nobody (Chen, Toueg and Aguilera, "On the quality of service of failure detectors", IEEE Transactions on
//! Computers 51(5), 2002).
//!
//! The one contract for the layers above is that of [`process_api::Detector`]. As plain data, [`FreshnessDetector`]
//! takes each input as `step_freshness` of `process_api/specs/Freshness.antt` says, and it opens as the scenario's
//! opening says (`base_of` of `scenario_record/specs/Opening.antt`). The definition finds the suspects from all
//! heartbeats that came; the code keeps the greatest number of each process, and the set of suspects.
//!
//! For example, there are two processes, eta is 3, delta is 2, and letters take 2 ticks. Process 2 sends heartbeat 1 at
//! tick 3 and crashes at tick 4. Process 1 reaches point 1 at tick 5, before heartbeat 1 of process 2 comes in that
//! tick: it suspects process 2, and trusts it again in the same tick. At tick 8 it reaches point 2. Heartbeat 1 is
//! stale by then, and no later one came: it suspects process 2 from then on.
#![tactic(auto)]

mod count;
mod detector;

pub use detector::FreshnessDetector;
