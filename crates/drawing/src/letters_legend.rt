//! The title of a picture of letters, and what its arrows and marks mean.
ghost use Rattle.std.specs.Prelude.{◌≡◌, ◌≤◌};
ghost use Rattle.drawing.specs.LettersPicture.{turn_class};

use crate::frame::Frame;
use crate::labels::title;
use crate::layout::{LEFT, Ticks};
use crate::legend::{disc, push_marks};
use std::alloc::{AllocError, Global};
use svg::{Class, Point, Shape};

/// The class of the marks of the upper layer of detectors.
pub(crate) fn turn_class(share: Option<u32>) -> Class
    ensures { result ≡ turn_class share }
{
    match share {
        None => Class::First,
        Some(_) => Class::Second,
    }
}

/// Where a line of the legend goes.
fn line_at(x: u32, width: u32) -> (Point, Point)
    requires wide { x ≤ 1000 }
    requires small { width ≤ 24 }
    ensures { (result.0.y ≡ 34) × (result.1.y ≡ 34) }
{
    (
        Point { x, y: 34 },
        Point {
            x: x + width,
            y: 34,
        },
    )
}

/// Appends how a letter is shown that is taken, and what it is.
fn push_arrow(head: &mut Frame, class: Class, x: u32, words: &str) -> Result<(), AllocError>
    requires { x ≤ 1000 }
{
    let (from, to) = line_at(x, 24);
    head.push_entry(Shape::Arrow { class, from, to }, x + 30, 38, words)
}

/// Appends how a letter is shown that comes without a head, and what it is.
fn push_line(head: &mut Frame, class: Class, x: u32, words: &str) -> Result<(), AllocError>
    requires { x ≤ 1000 }
{
    let (from, to) = line_at(x, 24);
    head.push_entry(Shape::Line { class, from, to }, x + 30, 38, words)
}

/// Appends what the arrows and lines of letters mean.
fn push_letters(head: &mut Frame) -> Result<(), AllocError> {
    push_arrow(head, Class::Detector, LEFT, "letter of a detector")?;
    push_arrow(head, Class::Reduction, LEFT + 160, "of the reduction")?;
    push_arrow(head, Class::Consensus, LEFT + 300, "of consensus")?;
    let (from, to) = line_at(LEFT + 425, 20);
    let class = Class::Lost;
    head.push_entry(Shape::Stub { class, from, to }, LEFT + 455, 38, "lost")?;
    push_line(head, Class::Dead, LEFT + 500, "to a crashed process")?;
    push_line(head, Class::Late, LEFT + 675, "due later")
}

/// The title, and what arrows and marks mean.
pub(crate) fn letters_legend(
    alloc: Global,
    ticks: &Ticks,
    share: Option<u32>,
) -> Result<Frame, AllocError> {
    let mut head = Frame::new(alloc);
    head.push(title(alloc, "What went from whom to whom", ticks)?)?;
    push_letters(&mut head)?;
    push_marks(&mut head, LEFT, 50)?;
    let turn = disc(turn_class(share), LEFT + 150, 50, 3);
    let words = "+2: suspects process 2, -2: trusts it again";
    head.push_entry(turn, LEFT + 162, 54, words)?;
    Ok(head)
}
