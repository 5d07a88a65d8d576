//! The commands of `fdstudy`: from the arguments of a command line to the texts that go out and the exit status.
//!
//! The one contract is that of [`serve::serve`]: with status 0 the outlet grows by what the arguments ask for, which
//! for `sweep` is the study's text, for `show` the run's, for `check` the lines of an accepted file, for `letters` the
//! text of the letters of its run and for `draw` a picture of it; with status 4 by a front part of it; with another
//! status by nothing, but that a `sweep` of status 3 may leave the rows of the first points. Each command has a module
//! and definitions: `specs/Sweep.antt`, `specs/Check.antt`, `specs/Draw.antt` and, of `show` and `letters`,
//! `specs/Answer.antt`. The study's text is defined by `sweep`, its grid and its arguments by `study`, letters by
//! `letters`, pictures by `drawing`, and the command line by `study_line`. The process ends with the status, by the
//! contract of `finish` of `shell`.
//!
//! A [`warned::Warned`] is told, in lines, what may mislead in a scenario or a study (`specs/Warnings.antt`,
//! `specs/WarningText.antt`), and then of the limits of each point.
//!
//! For example, the command `fdstudy sweep - --seeds 1..=20 --vary detector.timeout=5,10` prints the line of the
//! columns' names and two rows, each over 20 runs.
#![tactic(auto)]

mod adding;
mod alone;
mod assigned;
mod bounds_lines;
mod checking;
mod common_link;
mod dealt_ticks;
pub mod fault;
mod file;
mod first_run;
mod first_runs;
mod found;
mod late;
mod lettering;
mod limited_point;
mod link_keys;
mod network_reason;
mod picturing;
mod place_reason;
mod processes;
pub mod progress_line;
mod range_hint;
mod ready;
mod reckoning;
mod refused_run;
mod run_name;
mod running;
pub mod serve;
mod shared_outages;
mod showing;
mod sources;
mod spread;
mod study_check;
mod study_words;
mod sweeping;
mod unknown_column;
mod warn;
pub mod warned;
mod warning;
mod warning_line;
