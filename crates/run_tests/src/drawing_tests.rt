//! Bars and pictures of worked traces.
mod bars;
mod letters_pictures;
mod whole;
