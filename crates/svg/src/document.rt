//! Pictures as documents.
ghost use Rattle.std.specs.Prelude.{◌≡◌, ◌++◌, flat_map, IfOk, OnOk};
ghost use Rattle.svg.specs.Document.{IsDocument, head_text, view_box_text, shape_text};

use crate::elements::{push_attributes, push_number, push_shape};
use crate::shape::Shape;
use crate::style_sheet::style;
use std::alloc::{AllocError, Global};

/// A picture, in whole user units.
#[derive(Drop)]
pub struct Picture {
    /// How wide it is.
    pub width: u32,
    /// How high it is.
    pub height: u32,
    /// What it shows; a later shape is drawn over an earlier one.
    pub shapes: Vec<Shape>,
}

/// Appends the size of a picture in user units.
fn push_view_box(out: &mut Vec<u8>, width: u32, height: u32) -> Result<(), AllocError>
    ensures { OnOk result (out.new.items ≡ out.old.items ++ view_box_text width height) }
{
    out.extend_from_slice(b" viewBox=\"0 0 ")?;
    push_number(out, width)?;
    out.extend_from_slice(b" ")?;
    push_number(out, height)?;
    out.extend_from_slice(b"\"")?;
    Ok(())
}

/// What stands before the shapes, with a style sheet.
fn head(alloc: Global, style: &[u8], width: u32, height: u32) -> Result<Vec<u8>, AllocError>
    ensures { IfOk result (λ text. text.items ≡ head_text style.now width height) }
{
    let mut out = Vec::from_slice(
        alloc,
        b"<svg xmlns=\"http://www.w3.org/2000/svg\" role=\"img\"",
    )?;
    push_view_box(&mut out, width, height)?;
    push_attributes(&mut out, &[("width", width), ("height", height)])?;
    out.extend_from_slice(b">\n")?;
    out.extend_from_slice(style)?;
    Ok(out)
}

/// Appends shapes in their order.
fn push_shapes(out: &mut Vec<u8>, shapes: &[Shape]) -> Result<(), AllocError>
    ensures { OnOk result (out.new.items ≡ out.old.items ++ flat_map shape_text shapes.now) }
{
    for shape in shapes {
        push_shape(out, shape)?;
    }
    Ok(())
}

/// A picture as an SVG document: a head with its size and the style sheet, a line of text for each shape in their
/// order, and the end. Signs of captions that XML has for marks are escaped.
///
/// # Errors
///
/// `AllocError` where memory was refused.
pub fn svg_text(alloc: Global, picture: &Picture) -> Result<Vec<u8>, AllocError>
    ensures { IfOk result (λ text.
        IsDocument picture.now.width picture.now.height picture.now.shapes.items text.items) }
{
    let mut out = head(alloc, style(), picture.width, picture.height)?;
    push_shapes(&mut out, &picture.shapes)?;
    out.extend_from_slice(b"</svg>\n")?;
    Ok(out)
}
