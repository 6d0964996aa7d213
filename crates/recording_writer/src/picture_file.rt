//! The picture of a scene as a PNG file.

ghost use Rattle.std.specs.Prelude.{IfOk};
ghost use Rattle.thread_pieces.specs.Scenes.{scene_image};
ghost use Rattle.recording_writer.specs.Files.{IsFileOf};
ghost use Rattle.recording_writer.specs.Images.{image_of};

use recording_png::png;
use std::alloc::{AllocError, Global};
use std::thread::Threads;
use viz_canvas::{Canvas, Rgb};
use viz_painter::Painter;
use viz_scene::Scene;

// The file of the picture of a canvas.
#[tactic(auto, using(crate::proofs::PictureFiles::some_sides, crate::proofs::PictureFiles::few_pixels, crate::proofs::PictureFiles::rows_of_pixels, crate::proofs::PictureFiles::canvas_file))]
fn file_of_canvas(alloc: Global, canvas: &Canvas<Rgb>) -> Result<Vec<u8>, AllocError>
    ensures { IfOk result (λ file. IsFileOf (image_of canvas.now) file.items) }
{
    png(alloc, canvas.w(), canvas.h(), canvas.bytes())
}

/// A PNG file of the picture of a scene, which is painted in at most the given number of parts. An error means out of
/// memory.
pub fn png_of<R: Threads + Sync>(
    rt: &R,
    alloc: Global,
    scene: Scene,
    parts: usize,
) -> Result<Vec<u8>, AllocError>
    ensures { IfOk result (λ file. IsFileOf (scene_image scene) file.items) }
{
    let mut painter: Painter<Rgb> = Painter::new(alloc, 1, 1)?;
    painter.paint_in_parts(rt, scene, parts)?;
    file_of_canvas(alloc, painter.canvas())
}
