//! The images of scenes alone, put one after another.

ghost use Rattle.std.specs.Prelude.{◌≤◌};
ghost use Rattle.thread_pieces.specs.Scenes.{scene_image};
ghost use Rattle.byte_io.specs.Pieces.{PutsAll, WriteCause};
ghost use Rattle.recording_writer.specs.Images.{scene_images};

use crate::image_painter::ImagePainter;
use byte_io::{PutFault, Sink};
use std::alloc::{AllocError, Global};
use std::marker::Sync;
use std::thread::Threads;
use viz_scene::Scene;

/// What paints images and puts each, and in how many parts each is painted at most.
#[derive(Drop)]
pub struct ImageWriter {
    painter: ImagePainter,
    parts: usize,
}

impl ImageWriter {
    /// Nothing is painted yet. Each image is to be painted in at most the given number of parts. An error means out of
    /// memory.
    pub fn new(alloc: Global, parts: usize) -> Result<ImageWriter, AllocError> {
        Ok(ImageWriter {
            painter: ImagePainter::new(alloc)?,
            parts,
        })
    }

    // Puts the image of a scene.
    #[tactic(auto, using(byte_io::proofs::Puts::puts_piece, byte_io::proofs::Puts::piece_cause))]
    fn put_scene<R: Threads + Sync, K: Sink>(
        &mut self,
        rt: &R,
        scene: Scene,
        out: &mut K,
    ) -> Result<(), PutFault>
        ensures bytes { PutsAll (K.held out.old) (K.held out.new) (scene_image scene) result }
        ensures grows { K.faults out.old ≤ K.faults out.new }
        ensures cause { WriteCause (K.faults out.old) (K.faults out.new) result }
    {
        match self.painter.paint(rt, scene, self.parts) {
            Ok(image) => out.put(&image),
            Err(refused) => Err(PutFault::Memory(refused)),
        }
    }

    /// Puts the images of scenes, one after another. If putting stops, the sink gained a prefix of them.
    pub fn put_scenes<R: Threads + Sync, K: Sink>(
        &mut self,
        rt: &R,
        scenes: Vec<Scene>,
        out: &mut K,
    ) -> Result<(), PutFault>
        ensures bytes { PutsAll (K.held out.old) (K.held out.new) (scene_images scenes.items) result }
        ensures grows { K.faults out.old ≤ K.faults out.new }
        ensures cause { WriteCause (K.faults out.old) (K.faults out.new) result }
    {
        let mut queue = scenes.into_iter();
        while let Some(scene) = queue.next() {
            if let Err(fault) = self.put_scene(rt, scene, out) {
                return Err(fault);
            }
        }
        Ok(())
    }
}
