//! The texts of a picture.
ghost use Rattle.std.specs.Prelude.{◌≡◌, ◌++◌, ◌∷◌, [], ◌≤◌, ◌<◌, true, IfOk, codes, decimal, string_bytes};
ghost use Rattle.drawing.specs.Frame.{are_frame, said, without_place, point};

use crate::layout::{LEFT, Ticks};
use process_api::Pid;
use std::alloc::{AllocError, Global};
use svg::{Anchor, Caption, Class, Point, Shape};

/// A text.
pub(crate) fn text(class: Class, x: u32, y: u32, anchor: Anchor, text: String) -> Shape
    ensures { result ≡ Shape.Text class (point x y) anchor (string_bytes text) }
{
    Shape::Text {
        class,
        at: Point { x, y },
        anchor,
        caption: Caption::new(text),
    }
}

/// A word that is the same in each picture.
pub(crate) fn word(alloc: Global, x: u32, y: u32, text: &str) -> Result<Shape, AllocError>
    ensures { IfOk result (λ s. are_frame (s ∷ []) ≡ true) }
{
    let caption = Caption::copied(alloc, text)?;
    Ok(Shape::Text {
        class: Class::Label,
        at: Point { x, y },
        anchor: Anchor::Start,
        caption,
    })
}

/// The name of the row of an observer and another process.
pub(crate) fn pair_name(
    alloc: Global,
    top: u32,
    observer: Pid,
    subject: Pid,
) -> Result<Shape, AllocError>
    requires { top ≤ 1100000 }
    ensures { IfOk result (λ s. without_place s
        ≡ said Class.Label (decimal observer ++ (codes ": " ++ decimal subject))) }
{
    let one = observer.number();
    let other = subject.number();
    let name = format!(in alloc; "{one}: {other}")?;
    Ok(text(Class::Label, LEFT - 10, top + 12, Anchor::End, name))
}

/// The name of the row of a process itself.
pub(crate) fn own_name(alloc: Global, top: u32, process: Pid) -> Result<Shape, AllocError>
    requires { top ≤ 1100000 }
    ensures { IfOk result (λ s. without_place s ≡ said Class.Title (codes "process " ++ decimal process)) }
{
    let number = process.number();
    let name = format!(in alloc; "process {number}")?;
    Ok(text(Class::Title, LEFT - 10, top + 12, Anchor::End, name))
}

/// The title of a picture of some ticks.
pub(crate) fn title(alloc: Global, words: &str, ticks: &Ticks) -> Result<Shape, AllocError>
    ensures { IfOk result (λ s. are_frame (s ∷ []) ≡ true) }
{
    let from = ticks.from;
    let last = ticks.until - 1;
    let name = format!(in alloc; "{words}, ticks {from} to {last}")?;
    Ok(text(Class::Title, LEFT, 20, Anchor::Start, name))
}
