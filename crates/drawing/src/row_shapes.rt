//! The shapes that stand in rows.
ghost use Rattle.std.specs.Prelude.{◌≡◌, ◌+◌, ◌++◌, ◌≤◌, map, OnOk};
ghost use Rattle.drawing.specs.{Frame.{placeless, point, x_of}, Suspicions.{bar_shape, crash_shapes, decided, decision_shapes, life_line, stretch}};

use crate::bars::Bar;
use crate::frame::push_mark;
use crate::layout::{LEFT, Ticks};
use judges::{Answer, Outcome};
use std::alloc::AllocError;
use svg::{Class, Point, Shape};

/// The ticks from `begin` to `end - 1`, in a row.
pub(crate) fn stretch(
    ticks: &Ticks,
    class: Class,
    top: u32,
    height: u32,
    begin: u32,
    end: u32,
) -> Shape
    ensures { result ≡ stretch ticks.now.from ticks.now.until class top height begin end }
{
    let x = ticks.x(begin);
    Shape::Rect {
        class,
        corner: Point { x, y: top },
        width: ticks.x(end).saturating_sub(x).max(1),
        height,
    }
}

/// Appends bars.
pub(crate) fn push_bars(
    shapes: &mut Vec<Shape>,
    ticks: &Ticks,
    class: Class,
    top: u32,
    bars: &[Bar],
) -> Result<(), AllocError>
    ensures { OnOk result (placeless shapes.new.items
        ≡ placeless shapes.old.items ++ map (bar_shape ticks.now.from ticks.now.until class top) bars.now) }
{
    for bar in bars {
        push_mark(shapes, stretch(ticks, class, top, 6, bar.begin, bar.end))?;
    }
    Ok(())
}

/// The middle of a row at a tick.
fn middle(ticks: &Ticks, top: u32, tick: u32) -> Point
    requires { top ≤ 1100000 }
    ensures { result ≡ point (x_of ticks.now.from ticks.now.until tick) (top + 8) }
{
    Point {
        x: ticks.x(tick),
        y: top + 8,
    }
}

/// Appends a crash in a row, if there is one to show.
pub(crate) fn push_crash(
    shapes: &mut Vec<Shape>,
    ticks: &Ticks,
    top: u32,
    crash: Option<u32>,
) -> Result<(), AllocError>
    requires { top ≤ 1100000 }
    ensures { OnOk result (placeless shapes.new.items
        ≡ placeless shapes.old.items ++ crash_shapes ticks.now.from ticks.now.until top crash) }
{
    match crash {
        None => Ok(()),
        Some(tick) => {
            let class = Class::Crash;
            let center = middle(ticks, top, tick);
            push_mark(shapes, Shape::Cross { class, center })
        }
    }
}

/// Appends a decision in a row, if there is one to show.
pub(crate) fn push_decision(
    shapes: &mut Vec<Shape>,
    ticks: &Ticks,
    top: u32,
    decision: Option<u32>,
) -> Result<(), AllocError>
    requires { top ≤ 1100000 }
    ensures { OnOk result (placeless shapes.new.items
        ≡ placeless shapes.old.items ++ decision_shapes ticks.now.from ticks.now.until top decision) }
{
    match decision {
        None => Ok(()),
        Some(tick) => push_mark(
            shapes,
            Shape::Disc {
                class: Class::Decision,
                center: middle(ticks, top, tick),
                radius: 4,
            },
        ),
    }
}

/// A line from the first tick to another.
pub(crate) fn life_line(ticks: &Ticks, class: Class, y: u32, end: u32) -> Shape
    ensures { result ≡ life_line ticks.now.from ticks.now.until class y end }
{
    Shape::Line {
        class,
        from: Point { x: LEFT, y },
        to: Point { x: ticks.x(end), y },
    }
}

/// The tick at which a process decides a value.
pub(crate) fn decided(outcome: &Outcome) -> Option<u32>
    ensures { result ≡ decided outcome.now.value outcome.now.tick }
{
    match outcome.value {
        Answer::Value(_) => outcome.tick,
        Answer::None | Answer::NoValue => None,
    }
}
