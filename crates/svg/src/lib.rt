//! Pictures as SVG text, by whole numbers alone.
//!
//! A [`Picture`] is a list of [`Shape`]s, each with whole coordinates in user units, from the top left corner, and with
//! a [`Class`], which says what it shows. [`svg_text`] gives the picture as an SVG document of its own: the text that
//! `specs/Document.antt` defines, shape by shape in their order, with the texts of captions
//! escaped. The style sheet of each document says how each class is drawn; no contract says
//! what is in it. It fits light and dark backgrounds, draws no background of its own, and takes colours that
//! colour-blind readers tell apart (those of Okabe and Ito).
//!
//! For example, a picture of 40 by 20 units with the caption `a < b` at (2, 12) has the line `<text class="label" x="2"
//! y="12" text-anchor="start">a &lt; b</text>` between its style sheet and `</svg>`.
#![tactic(auto)]

mod caption;
mod class;
mod document;
mod elements;
mod escaping;
mod shape;
mod style_sheet;

pub use caption::Caption;
pub use class::Class;
pub use document::{Picture, svg_text};
pub use shape::{Anchor, Point, Shape};
pub use style_sheet::style;
