//! Measures of worked traces; and outlets over a writer.
mod measured;
mod outlets;
