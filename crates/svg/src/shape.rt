//! Shapes.
ghost use Rattle.std.specs.Prelude.{◌≡◌};
ghost use Rattle.svg.specs.Document.{anchor_name};

use crate::caption::Caption;
use crate::class::Class;

/// A place in a picture, in whole user units from its top left corner.
#[derive(Clone, Copy)]
pub struct Point {
    /// To the right.
    pub x: u32,
    /// Downwards.
    pub y: u32,
}

/// Which part of a text stands at its place.
#[derive(Clone, Copy)]
pub enum Anchor {
    /// Its beginning.
    Start,
    /// Its middle.
    Middle,
    /// Its end.
    End,
}

impl Anchor {
    /// The word that SVG has for it.
    pub(crate) fn name(self) -> &'static str
        ensures { result.now ≡ anchor_name self }
    {
        match self {
            Anchor::Start => "start",
            Anchor::Middle => "middle",
            Anchor::End => "end",
        }
    }
}

/// One shape of a picture. A later one is drawn over an earlier one.
#[derive(Drop)]
pub enum Shape {
    /// A filled rectangle, by its top left corner and its size.
    Rect {
        class: Class,
        corner: Point,
        width: u32,
        height: u32,
    },
    /// A line.
    Line {
        class: Class,
        from: Point,
        to: Point,
    },
    /// A line with a head at its end.
    Arrow {
        class: Class,
        from: Point,
        to: Point,
    },
    /// A line with two short lines at its end that cross.
    Stub {
        class: Class,
        from: Point,
        to: Point,
    },
    /// A disc.
    Disc {
        class: Class,
        center: Point,
        radius: u32,
    },
    /// Two short lines that cross at a point.
    Cross {
        class: Class,
        center: Point,
    },
    /// A text, whose base line goes through a point.
    Text {
        class: Class,
        at: Point,
        anchor: Anchor,
        caption: Caption,
    },
}
