//! Verdicts and outcomes of worked traces.
mod decided;
mod judged;
