//! The lines of a study on standard error: warnings; on a terminal, in one line, how far a sweep has come; and the
//! points of which runs passed their limit.
ghost use Rattle.std.specs.Prelude.{◌≡◌, ◌≤◌, ◌==◌, false, not, true};

use crate::limited_point::line_of_limited;
use crate::warned::Warned;
use std::alloc::{AllocError, Global};
use std::io::Write;
use std::time::{Clock, Duration, Instant};
use study::{Grid, Sources};
use sweep::{Pass, Standing, Watcher};

/// The line is drawn anew no sooner than after so many milliseconds.
const PAUSE: u128 = 200;

/// What the line is taken away with. It has no more columns: its numbers have at most 20, 20 and 16 digits.
const BLANKS: &[u8] = &[b' '; 100];

/// How many seconds are left, where so much time went by for the first `done` of all runs, and as much for each that is
/// left.
fn seconds_left(gone: Duration, done: u64, all: u64) -> u64
    requires { 1 ≤ done }
{
    let millis = u128::from(gone.as_millis().min(u128::from(u64::MAX)) as u64);
    let left = millis * u128::from(all.saturating_sub(done)) / u128::from(done);
    (left / 1000).min(u128::from(u64::MAX)) as u64
}

/// The time in words: seconds below a minute, then minutes, and hours with minutes.
pub(crate) fn time_of(alloc: Global, seconds: u64) -> Result<String, AllocError> {
    match (seconds / 3600, seconds / 60) {
        (0, 0) => format!(in alloc; "{seconds} s"),
        (0, minutes) => format!(in alloc; "{minutes} min"),
        (hours, minutes) => format!(in alloc; "{hours} h {} min", minutes % 60),
    }
}

/// How much is done, of how much: scenarios of runs that are read, and then points whose runs are in.
fn share_of(alloc: Global, standing: &Standing) -> Result<String, AllocError> {
    match standing.pass {
        Pass::Reading => {
            let (done, all) = (standing.done, standing.points.saturating_mul(standing.runs));
            format!(in alloc; "{done} of {all} runs read")
        }
        Pass::Running => {
            let (done, all) = (standing.done / standing.runs.max(1), standing.points);
            format!(in alloc; "{done} of {all} points")
        }
    }
}

/// The line's text: how much is done, and the time left once something is.
fn text_of(alloc: Global, standing: &Standing, gone: Duration) -> Result<String, AllocError> {
    let share = share_of(alloc, standing)?;
    if standing.done == 0 {
        return Ok(share);
    }
    let all = standing.points.saturating_mul(standing.runs);
    let left = time_of(alloc, seconds_left(gone, standing.done, all))?;
    format!(in alloc; "{share}, {left} left")
}

/// Tells warnings, and of a point of which runs passed their limit, in lines of their own; and where standard error is
/// a terminal, shows there, in one line, how far a sweep has come. Where the clock can't be read, memory is refused or
/// writing fails, nothing new is shown. Where the rows go to a terminal too, which may be the same, the line is taken
/// away before they do, and put back after.
#[derive(Drop)]
pub struct ProgressLine<'a, C: Clock, W: Write + Drop> {
    clock: &'a C,
    alloc: Global,
    faults: W,
    is_terminal: bool,
    is_shared: bool,
    began: Option<Instant>,
    drawn: Option<Instant>,
    columns: usize,
    ghost silent: { is_terminal ≡ false → columns ≡ 0 },
}

impl<'a, C: Clock, W: Write + Drop> ProgressLine<'a, C, W> {
    /// A line of which nothing is shown yet, on standard error: on a terminal that the rows may share, or on none,
    /// where it never is.
    pub fn new(
        clock: &'a C,
        alloc: Global,
        faults: W,
        is_terminal: bool,
        is_shared: bool,
    ) -> ProgressLine<'a, C, W>
        ensures { result.columns ≡ 0 }
    {
        ProgressLine {
            clock,
            alloc,
            faults,
            is_terminal,
            is_shared,
            began: None,
            drawn: None,
            columns: 0,
        }
    }

    /// Whether the line stands there, drawn so short a time ago that it stays as it is.
    fn is_fresh(&self, now: Instant) -> bool {
        let is_new = |drawn: Instant| now.duration_since(drawn).as_millis() < PAUSE;
        self.columns > 0 && self.drawn.is_some_and(is_new)
    }

    /// Draws a text, over the one that stands there.
    fn draw(&mut self, text: &str)
        requires { self.old.is_terminal ≡ true }
    {
        let columns = self.columns.max(text.len());
        let Ok(line) = format!(in self.alloc; "\r{text:<columns$}") else {
            return;
        };
        let _answer = self.faults.write_all(line.as_bytes());
        self.columns = columns;
    }

    /// Takes away what is shown.
    fn clear(&mut self)
        ensures { self.new.columns ≡ 0 }
    {
        if self.columns == 0 {
            return;
        }
        let blanks = &BLANKS[..self.columns.min(BLANKS.len())];
        let _answer = self.faults.write_all(b"\r");
        let _answer = self.faults.write_all(blanks);
        let _answer = self.faults.write_all(b"\r");
        self.columns = 0;
    }
}

impl<C: Clock, W: Write + Drop> Watcher for ProgressLine<'_, C, W> {
    ghost heard = { λ _ _ _. Unit {0} };

    ghost shows = { λ l. not (l.columns == 0) };

    /// Draws the line, unless it was drawn a short time ago. The time begins to run as a pass over the runs begins.
    fn hear(&mut self, standing: Standing) {
        if !self.is_terminal {
            return;
        }
        let Ok(now) = Instant::now(self.clock) else {
            return;
        };
        let began = match self.began {
            Some(began) if standing.done > 0 => began,
            _ => now,
        };
        self.began = Some(began);
        if self.is_fresh(now) {
            return;
        }
        self.drawn = Some(now);
        if let Ok(text) = text_of(self.alloc, &standing, now.duration_since(began)) {
            self.draw(text.as_str());
        }
    }

    fn make_way(&mut self) {
        if self.is_shared {
            self.clear();
        }
    }

    fn hide(&mut self) {
        self.clear();
    }

    /// Takes away what is shown, and then writes the line of the point.
    fn limited(&mut self, sources: &Sources, grid: &Grid, point: u64, count: u64) {
        self.hide();
        if let Ok(line) = line_of_limited(self.alloc, sources, grid, point, count) {
            let _answer = self.faults.write_all(line.as_bytes());
        }
    }
}

impl<C: Clock, W: Write + Drop> Warned for ProgressLine<'_, C, W> {
    ghost warned = { λ _ _ _. Unit {0} };

    fn warn(&mut self, line: &str) {
        self.clear();
        let _answer = self.faults.write_all(line.as_bytes());
    }
}
