//! What a picture has besides its marks, and the whole.
ghost use Rattle.std.specs.Prelude.{◌≡◌, ◌≤◌, ◌∷◌, ◌++◌, [], ℕ, true, IfOk, OnOk};
ghost use Rattle.drawing.specs.Frame.{IsPicture, Tells, are_frame, placeless, without_place};

use crate::axis::axis;
use crate::labels::{text, word};
use crate::layout::{BOTTOM, LEFT, RIGHT, Ticks, WIDTH};
use std::alloc::{AllocError, Global};
use svg::{Anchor, Class, Picture, Shape, svg_text};

/// Shapes that are no marks: texts, lines of the axis and samples.
#[derive(Drop)]
pub(crate) struct Frame {
    alloc: Global,
    pub shapes: Vec<Shape>,
    ghost frame: { are_frame shapes.items ≡ true },
}

impl Frame {
    /// No shapes.
    pub fn new(alloc: Global) -> Frame {
        let shapes = Vec::new(alloc);
        Frame { alloc, shapes }
    }

    /// One shape more.
    #[tactic(auto, using(crate::proofs::Framing::joined))]
    pub fn push(&mut self, shape: Shape) -> Result<(), AllocError>
        requires { are_frame (shape ∷ []) ≡ true }
    {
        self.shapes.push(shape)?;
        Ok(())
    }

    /// How something is shown, and what it is, in words at (`x`, `y`).
    pub fn push_entry(
        &mut self,
        sample: Shape,
        x: u32,
        y: u32,
        words: &str,
    ) -> Result<(), AllocError>
        requires { are_frame (sample ∷ []) ≡ true }
    {
        self.push(sample)?;
        self.push(word(self.alloc, x, y, words)?)
    }

    /// How many are left out, where there are any.
    #[tactic(auto, using(crate::proofs::Framing::joined), unfolding(crate::specs::Frame::placeless))]
    pub fn push_left_out(&mut self, words: &str, count: usize) -> Result<(), AllocError>
        ensures { OnOk result (Tells count self.new.shapes.items) }
    {
        if count == 0 {
            return Ok(());
        }
        let line = format!(in self.alloc; "{words}: {count}")?;
        let place = LEFT + WIDTH;
        self.shapes
            .push(text(Class::Label, place, 20, Anchor::End, line))?;
        Ok(())
    }

    /// Other shapes more.
    #[tactic(auto, using(crate::proofs::Framing::joined))]
    pub fn append(&mut self, mut others: Frame) -> Result<(), AllocError>
        ensures { OnOk result (self.new.shapes.items ≡ self.old.shapes.items ++ others.shapes.items) }
    {
        self.shapes.append(&mut others.shapes)?;
        Ok(())
    }
}

/// Appends a mark.
#[tactic(auto, unfolding(crate::specs::Frame::placeless))]
pub(crate) fn push_mark(shapes: &mut Vec<Shape>, shape: Shape) -> Result<(), AllocError>
    ensures { OnOk result (placeless shapes.new.items ≡ placeless shapes.old.items ++ without_place shape ∷ []) }
{
    shapes.push(shape)?;
    Ok(())
}

/// A picture: these marks over an axis, that over bands, and a head.
pub(crate) fn picture_text(
    ticks: &Ticks,
    bottom: u32,
    head: Frame,
    mut bands: Vec<Shape>,
    mut marks: Vec<Shape>,
) -> Result<Vec<u8>, AllocError>
    requires { bottom ≤ 2000000 }
    ensures { IfOk result (λ text. (count : ℕ) → Tells count head.shapes.items
        → IsPicture bottom count bands.items (placeless marks.items) text.items) }
{
    let alloc = head.alloc;
    let mut shapes = head.shapes;
    shapes.append(&mut bands)?;
    shapes.append(&mut axis(alloc, ticks, bottom)?.shapes)?;
    shapes.append(&mut marks)?;
    let picture = Picture {
        width: LEFT + WIDTH + RIGHT,
        height: bottom + BOTTOM,
        shapes,
    };
    svg_text(alloc, &picture)
}
