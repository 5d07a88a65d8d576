//! Sums and rows by hand, and sweeps of small studies.
mod groups;
mod laws;
mod parallel;
mod points;
mod studies;
mod sums;
mod sweeps;
mod times;
mod watchers;
