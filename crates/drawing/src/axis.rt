//! The axis of ticks.
ghost use Rattle.std.specs.Prelude.{◌≡◌, ◌≤◌, ◌∷◌, [], true};
ghost use Rattle.drawing.specs.Frame.{are_frame};

use crate::frame::Frame;
use crate::labels::text;
use crate::layout::{LEFT, TOP, Ticks, WIDTH};
use std::alloc::{AllocError, Global};
use svg::{Anchor, Class, Point, Shape};

/// A labelled tick: a line through the rows, and its number above and below them.
fn push_tick(
    alloc: Global,
    axis: &mut Frame,
    ticks: &Ticks,
    bottom: u32,
    tick: u32,
) -> Result<(), AllocError>
    requires { bottom ≤ 2000000 }
{
    let x = ticks.x(tick);
    let above = format!(in alloc; "{tick}")?;
    let below = format!(in alloc; "{tick}")?;
    axis.push(Shape::Line {
        class: Class::Grid,
        from: Point { x, y: TOP - 8 },
        to: Point { x, y: bottom },
    })?;
    axis.push(text(Class::Label, x, TOP - 12, Anchor::Middle, above))?;
    axis.push(text(Class::Label, x, bottom + 14, Anchor::Middle, below))
}

/// A line above or below the rows.
fn edge(y: u32) -> Shape
    ensures { are_frame (result ∷ []) ≡ true }
{
    Shape::Line {
        class: Class::Axis,
        from: Point { x: LEFT, y },
        to: Point { x: LEFT + WIDTH, y },
    }
}

/// The axis: its lines, and its labelled ticks.
pub(crate) fn axis(alloc: Global, ticks: &Ticks, bottom: u32) -> Result<Frame, AllocError>
    requires { bottom ≤ 2000000 }
{
    let mut axis = Frame::new(alloc);
    axis.push(edge(TOP - 8))?;
    axis.push(edge(bottom))?;
    let step = ticks.step();
    let first = ticks.from.div_ceil(step);
    let last = ticks.until / step;
    for times in first..last + 1 {
        push_tick(alloc, &mut axis, ticks, bottom, times * step)?;
    }
    Ok(axis)
}
