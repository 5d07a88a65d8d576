//! Pictures of a run, as SVG text.
//!
//! [`draw_suspicions`] draws who suspects whom. Each process has a group of rows: one line for itself, with its crash
//! and its decision, and one for each other process that it suspects, with a bar for each stretch of ticks through
//! which it does. A stretch is as long as can be within the ticks asked for (`IsMaximal`); the bars of a pair are
//! all its stretches, each once, in the order of their ticks. The place of each mark is defined in
//! `specs/Suspicions.antt` and `specs/Frame.antt`. The text is that of a picture with just these marks
//! (`specs/Frame.antt`). No contract says where texts stand, or what legends and the labels of ticks say.
//!
//! A picture is small: it has at most [`MOST_DRAWN`] processes, and only ticks that the run has. Anything else is
//! refused by name ([`DrawError`]).
//!
//! For example, let process 2 of two crash at tick 3 of 10, and process 1 note at tick 9 that it suspects it. In the
//! picture of ticks 0 to 9 the row `1: 2` has one bar, from tick 9 to the end, and a cross at tick 3.
#![tactic(auto)]

mod arrows;
mod axis;
mod bands;
mod bars;
mod error;
mod frame;
mod groups;
mod labels;
mod lanes;
mod layout;
mod legend;
mod letters_legend;
mod letters_picture;
mod marks;
mod pairs;
mod row_shapes;
mod suspicions;
mod sweep;

pub use bars::{Bar, bars_of};
pub use error::DrawError;
pub use layout::{MOST_DRAWN, MOST_LETTERS};
pub use letters_picture::draw_letters;
pub use suspicions::{check_ticks, draw_suspicions};
