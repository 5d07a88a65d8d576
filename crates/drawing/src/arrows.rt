//! The arrows of letters.
ghost use Rattle.std.specs.Prelude.{◌≡◌, ◌++◌, ◌≤◌, ◌<◌, ◌*◌, ◌/◌, length, OnOk};
ghost use Rattle.{process_api.specs.Place.{last_tick}, drawing.specs.{Frame.{placeless, without_place, on_way}, LettersPicture.{class_of, count_others, is_of, sent_among}}};

use crate::frame::push_mark;
use crate::groups::Run;
use crate::lanes::line_of;
use crate::layout::{LEFT, Ticks, WIDTH};
use process_api::{Kind, Pid};
use reporting::{Letter, LetterFate};
use std::alloc::AllocError;
use svg::{Class, Point, Shape};

/// Whether a letter is one from or to these processes; where none is named, it is.
fn is_of(of: &[Pid], letter: &Letter) -> bool
    ensures { result ≡ is_of of.now letter.now }
{
    of.is_empty() || of.contains(&letter.sender) || of.contains(&letter.receiver)
}

/// How many letters of these processes are sent at some ticks.
pub(crate) fn count_sent(ticks: &Ticks, of: &[Pid], letters: &[Letter]) -> usize
    ensures { result ≡ length (sent_among of.now ticks.now.from ticks.now.until letters.now) }
{
    letters
        .iter()
        .filter(|letter| ticks.has(letter.sent) && is_of(of, letter))
        .count()
}

/// How many letters of others are sent at these ticks.
pub(crate) fn count_others(ticks: &Ticks, of: &[Pid], letters: &[Letter]) -> usize
    ensures { result ≡ count_others of.now ticks.now.from ticks.now.until letters.now }
{
    letters
        .iter()
        .filter(|letter| ticks.has(letter.sent) && !is_of(of, letter))
        .count()
}

/// Whose letter it is.
fn class_of(kind: Kind) -> Class
    ensures { result ≡ class_of kind }
{
    match kind {
        Kind::Alive
        | Kind::Heartbeat
        | Kind::Start
        | Kind::Beat
        | Kind::Check
        | Kind::Share
        | Kind::Dead => Class::Detector,
        Kind::Suspects => Class::Reduction,
        Kind::Vector | Kind::Last | Kind::Estimate | Kind::Proposal | Kind::Reply | Kind::Decide =>
            Class::Consensus,
    }
}

/// How much so many of all parts of a way are.
fn part_of(way: u32, part: u64, whole: u64) -> u32
    requires some { 0 < whole }
    requires inside { part ≤ whole }
    requires small { part ≤ last_tick }
    ensures value { result ≡ (way * part) / whole }
    ensures within { result ≤ way }
{
    (u64::from(way) * part / whole) as u32
}

/// The height after so many of all parts of the way from one height to another.
#[tactic(auto, unfolding(crate::specs::Frame::on_way))]
fn on_way(from: u32, to: u32, part: u64, whole: u64) -> u32
    requires some { 0 < whole }
    requires inside { part ≤ whole }
    requires small { part ≤ last_tick }
    ensures { result ≡ on_way from to part whole }
{
    if from <= to {
        from + part_of(to - from, part, whole)
    } else {
        from - part_of(from - to, part, whole)
    }
}

impl Run<'_> {
    ghost use Rattle.drawing.specs.{Frame.{line_of}, LettersPicture.{arriving, ending, leaving, lost, place}, Inside.Drawn.{arrows_in}};

    /// Where the line of a process is, from the top.
    fn line_of(&self, process: Pid) -> u32
        ensures { result ≡ line_of self.now.scenario.now.processes process }
    {
        line_of(self.scenario.processes(), process)
    }

    /// The place of a tick on the line of a process.
    fn place(&self, tick: u32, process: Pid) -> Point
        ensures { result ≡ place self.now.scenario.now.processes self.now.ticks.from self.now.ticks.until tick process }
    {
        Point {
            x: self.ticks.x(tick),
            y: self.line_of(process),
        }
    }

    /// The shape of a letter that is lost.
    fn lost(&self, letter: &Letter) -> Shape
        ensures { without_place result
            ≡ lost self.now.scenario.now.processes self.now.ticks.from self.now.ticks.until letter.now }
    {
        let begin = self.line_of(letter.sender);
        let end = self.line_of(letter.receiver);
        let processes = u64::from(self.scenario.processes());
        Shape::Stub {
            class: Class::Lost,
            from: self.place(letter.sent, letter.sender),
            to: Point {
                x: self.ticks.x(letter.sent) + 12,
                y: on_way(begin, end, 1, processes),
            },
        }
    }

    /// The shape of a letter that is due after these ticks.
    fn leaving(&self, letter: &Letter, due: u64) -> Shape
        requires sent { letter.now.sent < self.now.ticks.until }
        requires due { self.now.ticks.until ≤ due }
        ensures { without_place result
            ≡ leaving self.now.scenario.now.processes self.now.ticks.from self.now.ticks.until letter.now due }
    {
        let begin = self.line_of(letter.sender);
        let end = self.line_of(letter.receiver);
        let shown = u64::from(self.ticks.until - letter.sent);
        Shape::Line {
            class: Class::Late,
            from: self.place(letter.sent, letter.sender),
            to: Point {
                x: LEFT + WIDTH,
                y: on_way(begin, end, shown, due - u64::from(letter.sent)),
            },
        }
    }

    /// The shape of a letter that is due at one of these ticks.
    fn arriving(&self, letter: &Letter, due: u32) -> Shape
        ensures { without_place result
            ≡ arriving self.now.scenario.now.processes self.now.ticks.from self.now.ticks.until
            letter.now due letter.now.fate }
    {
        let from = self.place(letter.sent, letter.sender);
        let to = self.place(due, letter.receiver);
        match letter.fate {
            LetterFate::Taken => Shape::Arrow {
                class: class_of(letter.kind),
                from,
                to,
            },
            LetterFate::Dead => Shape::Line {
                class: Class::Dead,
                from,
                to,
            },
            LetterFate::Late => Shape::Line {
                class: Class::Late,
                from,
                to,
            },
            LetterFate::Lost => self.lost(letter),
        }
    }

    /// The shape of a letter.
    fn arrow(&self, letter: &Letter) -> Shape
        requires { letter.now.sent < self.now.ticks.until }
        ensures { without_place result
            ≡ ending self.now.scenario.now.processes self.now.ticks.from self.now.ticks.until
            letter.now letter.now.due }
    {
        match letter.due {
            None => self.lost(letter),
            Some(due) => {
                if due < u64::from(self.ticks.until) {
                    self.arriving(letter, due as u32)
                } else {
                    self.leaving(letter, due)
                }
            }
        }
    }

    /// Appends the shapes of the letters of these processes that are sent at these ticks.
    pub fn push_arrows(
        &self,
        shapes: &mut Vec<Shape>,
        of: &[Pid],
        letters: &[Letter],
    ) -> Result<(), AllocError>
        ensures { OnOk result (
            placeless shapes.new.items ≡ placeless shapes.old.items ++ arrows_in self.now of.now letters.now) }
    {
        for letter in letters {
            if self.ticks.has(letter.sent) && is_of(of, letter) {
                push_mark(shapes, self.arrow(letter))?;
            }
        }
        Ok(())
    }
}
