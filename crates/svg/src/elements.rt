//! Shapes as elements.
ghost use Rattle.std.specs.Prelude.{◌≡◌, ◌++◌, flat_map, map, decimal, OnOk};
ghost use Rattle.svg.specs.Document.{attribute, element, line_text, opening, shape_text};

use crate::caption::Caption;
use crate::class::Class;
use crate::escaping::push_escaped;
use crate::shape::{Anchor, Point, Shape};
use itoa::Buffer;
use std::alloc::AllocError;

/// An attribute that is a number, by its name.
pub(crate) type Attribute = (&'static str, u32);

/// Appends a number.
pub(crate) fn push_number(out: &mut Vec<u8>, number: u32) -> Result<(), AllocError>
    ensures { OnOk result (out.new.items ≡ out.old.items ++ decimal number) }
{
    let mut buffer = Buffer::new();
    out.extend_from_slice(buffer.format(number).as_bytes())
}

fn push_attribute(out: &mut Vec<u8>, name: &str, number: u32) -> Result<(), AllocError>
    ensures { OnOk result (out.new.items ≡ out.old.items ++ attribute (name.now, number)) }
{
    out.extend_from_slice(b" ")?;
    out.extend_from_slice(name.as_bytes())?;
    out.extend_from_slice(b"=\"")?;
    push_number(out, number)?;
    out.extend_from_slice(b"\"")
}

/// Appends attributes in their order.
pub(crate) fn push_attributes(out: &mut Vec<u8>, numbers: &[Attribute]) -> Result<(), AllocError>
    ensures { OnOk result (out.new.items ≡ out.old.items ++ flat_map (λ a. attribute (a.0.now, a.1)) numbers.now) }
{
    for (name, number) in numbers {
        push_attribute(out, name, *number)?;
    }
    Ok(())
}

/// Appends the beginning of an element.
fn push_opening(
    out: &mut Vec<u8>,
    start: &str,
    class: Class,
    numbers: &[Attribute],
) -> Result<(), AllocError>
    ensures { OnOk result (out.new.items
        ≡ out.old.items ++ opening start.now class (map (λ a. (a.0.now, a.1)) numbers.now)) }
{
    out.extend_from_slice(start.as_bytes())?;
    out.extend_from_slice(b" class=\"")?;
    out.extend_from_slice(class.name().as_bytes())?;
    out.extend_from_slice(b"\"")?;
    push_attributes(out, numbers)?;
    Ok(())
}

/// Appends an element with nothing in it.
fn push_element(
    out: &mut Vec<u8>,
    start: &str,
    class: Class,
    numbers: &[Attribute],
) -> Result<(), AllocError>
    ensures { OnOk result (out.new.items
        ≡ out.old.items ++ element start.now class (map (λ a. (a.0.now, a.1)) numbers.now)) }
{
    push_opening(out, start, class, numbers)?;
    out.extend_from_slice(b"/>\n")
}

/// Appends an element from one point to another.
fn push_line(
    out: &mut Vec<u8>,
    start: &str,
    class: Class,
    from: Point,
    to: Point,
) -> Result<(), AllocError>
    ensures { OnOk result (out.new.items ≡ out.old.items ++ line_text start.now class from to) }
{
    let numbers = [("x1", from.x), ("y1", from.y), ("x2", to.x), ("y2", to.y)];
    push_element(out, start, class, &numbers)
}

/// Appends a rectangle.
fn push_rect(
    out: &mut Vec<u8>,
    class: Class,
    corner: Point,
    width: u32,
    height: u32,
) -> Result<(), AllocError>
    ensures { OnOk result (out.new.items ≡ out.old.items ++ shape_text (Shape.Rect class corner width height)) }
{
    let numbers = [
        ("x", corner.x),
        ("y", corner.y),
        ("width", width),
        ("height", height),
    ];
    push_element(out, "<rect", class, &numbers)
}

/// Appends a text.
fn push_text(
    out: &mut Vec<u8>,
    class: Class,
    at: Point,
    anchor: Anchor,
    caption: &Caption,
) -> Result<(), AllocError>
    ensures { OnOk result (out.new.items ≡ out.old.items ++ shape_text (Shape.Text class at anchor caption.now)) }
{
    push_opening(out, "<text", class, &[("x", at.x), ("y", at.y)])?;
    out.extend_from_slice(b" text-anchor=\"")?;
    out.extend_from_slice(anchor.name().as_bytes())?;
    out.extend_from_slice(b"\">")?;
    push_escaped(out, caption.bytes())?;
    out.extend_from_slice(b"</text>\n")?;
    Ok(())
}

/// Appends a shape.
pub(crate) fn push_shape(out: &mut Vec<u8>, shape: &Shape) -> Result<(), AllocError>
    ensures { OnOk result (out.new.items ≡ out.old.items ++ shape_text shape.now) }
{
    match shape {
        Shape::Rect {
            class,
            corner,
            width,
            height,
        } => push_rect(out, *class, *corner, *width, *height),
        Shape::Line { class, from, to } => push_line(out, "<line", *class, *from, *to),
        Shape::Arrow { class, from, to } => {
            push_line(out, "<line marker-end=\"url(#head)\"", *class, *from, *to)
        }
        Shape::Stub { class, from, to } => {
            push_line(out, "<line marker-end=\"url(#stop)\"", *class, *from, *to)
        }
        Shape::Disc {
            class,
            center,
            radius,
        } => {
            let numbers = [("cx", center.x), ("cy", center.y), ("r", *radius)];
            push_element(out, "<circle", *class, &numbers)
        }
        Shape::Cross { class, center } => {
            let numbers = [("x", center.x), ("y", center.y)];
            push_element(out, "<use href=\"#cross\"", *class, &numbers)
        }
        Shape::Text {
            class,
            at,
            anchor,
            caption,
        } => push_text(out, *class, *at, *anchor, caption),
    }
}
