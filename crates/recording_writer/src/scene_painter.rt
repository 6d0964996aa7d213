//! Image painters as painters of the scenes of pieces.

use crate::image_painter::ImagePainter;
use recording_text::push_image_head;
use std::alloc::{AllocError, Global};
use std::marker::Sync;
use std::thread::Threads;
use thread_pieces::ScenePainter;
use viz_scene::Scene;

impl ScenePainter for ImagePainter {
    ghost use Rattle.model_history.specs.Recordings.{image_head};

    ghost head = { λ p. image_head p.painter.canvas.w p.painter.canvas.h };

    ghost rows = { λ p. p.painter.canvas.bytes };

    fn blank(alloc: Global) -> Result<ImagePainter, AllocError> {
        ImagePainter::new(alloc)
    }

    fn paint_scene<R: Threads + Sync>(
        &mut self,
        rt: &R,
        scene: Scene,
        parts: usize,
    ) -> Result<(), AllocError> {
        self.show(rt, scene, parts)
    }

    fn push_head(&self, bytes: &mut Vec<u8>) -> Result<(), AllocError> {
        let canvas = self.canvas();
        push_image_head(bytes, canvas.w(), canvas.h())
    }

    fn pixels(&self) -> &[u8] {
        self.canvas().bytes()
    }
}
