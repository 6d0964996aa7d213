//! Pictures of scenes, each as an image of its own.

ghost use Rattle.std.specs.Prelude.{◌≡◌, IfOk, OnOk};
ghost use Rattle.thread_pieces.specs.Scenes.{scene_image};
ghost use Rattle.recording_writer.specs.Images.{image_of as image_of_canvas};

use crate::image::image_of;
use std::alloc::{AllocError, Global};
use std::marker::Sync;
use std::thread::Threads;
use viz_canvas::{Canvas, Rgb};
use viz_painter::Painter;
use viz_scene::Scene;

/// A painter that gives the image of each scene away.
pub struct ImagePainter {
    painter: Painter<Rgb>,
    alloc: Global,
}

// Written out, since a derived drop is proved anew, field by field, in each function that lets one go.
impl Drop for ImagePainter {
    fn drop(self) {
        let ImagePainter {
            painter: _,
            alloc: _,
        } = self;
    }
}

impl ImagePainter {
    /// Nothing is painted yet. An error means out of memory.
    pub fn new(alloc: Global) -> Result<ImagePainter, AllocError> {
        Ok(ImagePainter {
            painter: Painter::new(alloc, 1, 1)?,
            alloc,
        })
    }

    // Paints a scene in at most the given number of parts: the canvas then has its pixels. An error means out of
    // memory.
    #[tactic(auto, using(crate::proofs::ShownImages::shown_image))]
    pub(crate) fn show<R: Threads + Sync>(
        &mut self,
        rt: &R,
        scene: Scene,
        parts: usize,
    ) -> Result<(), AllocError>
        ensures { OnOk result (image_of_canvas self.new.painter.canvas ≡ scene_image scene) }
    {
        self.painter.paint_in_parts(rt, scene, parts)?;
        Ok(())
    }

    // The canvas.
    pub(crate) fn canvas(&self) -> &Canvas<Rgb>
        ensures { result.now ≡ self.now.painter.canvas }
    {
        self.painter.canvas()
    }

    /// The image of a scene, made in at most the given number of parts, each by a thread of its own if it can be
    /// started. If there is one part, none is started. An error means out of memory.
    pub fn paint<R: Threads + Sync>(
        &mut self,
        rt: &R,
        scene: Scene,
        parts: usize,
    ) -> Result<Vec<u8>, AllocError>
        ensures { IfOk result (λ bytes. bytes.items ≡ scene_image scene) }
    {
        self.show(rt, scene, parts)?;
        image_of(self.alloc, self.painter.canvas())
    }
}
