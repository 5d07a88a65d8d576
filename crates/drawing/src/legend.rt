//! The title of a picture, and what its marks mean.
ghost use Rattle.std.specs.Prelude.{◌≡◌, ◌≤◌, ◌∷◌, [], true};
ghost use Rattle.drawing.specs.Frame.{are_frame};

use crate::frame::Frame;
use crate::labels::title;
use crate::layout::{LEFT, Ticks};
use std::alloc::{AllocError, Global};
use svg::{Class, Point, Shape};

/// How a bar or a band is shown.
pub(crate) fn sample(class: Class, x: u32, y: u32) -> Shape
    requires { y ≤ 60 }
    ensures { are_frame (result ∷ []) ≡ true }
{
    let corner = Point { x, y };
    let (width, height) = (24, 6);
    Shape::Rect {
        class,
        corner,
        width,
        height,
    }
}

/// How a mark on a line is shown.
pub(crate) fn disc(class: Class, x: u32, y: u32, radius: u32) -> Shape
    requires low { y ≤ 60 }
    requires small { radius ≤ 4 }
    ensures { are_frame (result ∷ []) ≡ true }
{
    let center = Point { x, y };
    Shape::Disc {
        class,
        center,
        radius,
    }
}

/// Appends what the marks mean, at a height.
pub(crate) fn push_marks(head: &mut Frame, x: u32, y: u32) -> Result<(), AllocError>
    requires wide { x ≤ 1000 }
    requires low { y ≤ 60 }
{
    let class = Class::Crash;
    let center = Point { x, y };
    let crash = Shape::Cross { class, center };
    head.push_entry(crash, x + 12, y + 4, "crash")?;
    let decision = disc(Class::Decision, x + 70, y, 4);
    head.push_entry(decision, x + 82, y + 4, "decision")
}

/// The title, and what the bars and marks mean.
pub(crate) fn legend(
    alloc: Global,
    ticks: &Ticks,
    share: Option<u32>,
) -> Result<Frame, AllocError> {
    let mut head = Frame::new(alloc);
    head.push(title(alloc, "Who suspects whom", ticks)?)?;
    let first = sample(Class::First, LEFT, 34);
    head.push_entry(first, LEFT + 30, 42, "suspected by the base detector")?;
    push_marks(&mut head, LEFT + 240, 38)?;
    if share.is_some() {
        let second = sample(Class::Second, LEFT + 400, 34);
        head.push_entry(second, LEFT + 430, 42, "suspected by the reduction")?;
    }
    Ok(head)
}
