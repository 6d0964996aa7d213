//! The image of a canvas.

ghost use Rattle.std.specs.Prelude.{◌≡◌, IfOk};
ghost use Rattle.recording_writer.specs.Images.{image_of as image_of_canvas};

use recording_text::push_image_head;
use std::alloc::{AllocError, Global};
use viz_canvas::{Canvas, Rgb};

// How many bytes the head of an image has at most, if each side has four digits.
const HEAD: usize = 17;

/// The head of an image, and after it the pixels of a canvas. An error means out of memory.
pub(crate) fn image_of(alloc: Global, canvas: &Canvas<Rgb>) -> Result<Vec<u8>, AllocError>
    ensures { IfOk result (λ image. image.items ≡ image_of_canvas canvas.now) }
{
    let mut image = Vec::with_capacity(alloc, HEAD + canvas.bytes().len())?;
    push_image_head(&mut image, canvas.w(), canvas.h())?;
    image.extend_from_slice(canvas.bytes())?;
    Ok(image)
}
