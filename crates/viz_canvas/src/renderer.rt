//! Drawing scenes onto pictures in buffers of others.

ghost use Rattle.std.specs.Prelude.{◌≡◌, OnOk, OnErr};
ghost use Rattle.viz_canvas.specs.Buffers.{HasRows, IsDrawnIn};

use crate::drawing::{draw_rects, draw_rects_in_parts, prepare};
use crate::format::PixelFormat;
use region::Region;
use std::alloc::{AllocError, Global};
use std::marker::Sync;
use std::thread::Threads;
use viz_render::Surfaces;
use viz_scene::Scene;

/// Draws scenes onto pictures in buffers of others, and keeps from one scene to the next the memory that this takes.
///
/// Such a picture has the size of a scene. Its buffer has a row of `across` pixels for each row of the scene: those of
/// the picture, and after them a gap, which may be empty.
pub struct Renderer {
    // For scenes of the size and number of passes of the last one.
    surfaces: Vec<Surfaces>,
}

// Written out, since a derived drop is proved anew, field by field, in each function that lets one go.
impl Drop for Renderer {
    fn drop(self) {
        let Renderer { surfaces: _ } = self;
    }
}

impl Renderer {
    /// A renderer that has drawn nothing and holds no memory.
    pub fn new(alloc: Global) -> Renderer {
        Renderer {
            surfaces: Vec::new(alloc),
        }
    }

    /// Draws the part of a scene that a region covers: there each pixel is then the scene's, and all other bytes of the
    /// buffer stay. An error means out of memory, and the buffer is as it was.
    pub fn draw_region<F: PixelFormat>(
        &mut self,
        scene: &Scene,
        region: &Region,
        bytes: &mut [u8],
        across: usize,
    ) -> Result<(), AllocError>
        requires { HasRows F.DEPTH across scene.now.w scene.now.h bytes.old }
        ensures ok { OnOk result (IsDrawnIn F.DEPTH F.bytes_of scene.now across region.now bytes.old bytes.new) }
        ensures err { OnErr result (bytes.new ≡ bytes.old) }
    {
        let alloc = *self.surfaces.allocator();
        prepare(alloc, scene, region.rects(), 1, &mut self.surfaces)?;
        draw_rects::<F>(scene, bytes, across, region.rects(), &mut self.surfaces[0]);
        Ok(())
    }

    /// Draws as `draw_region` does, and each rect of the region that is large enough in at most the given number of
    /// parts of whole rows, each by a thread of its own if it can be started. If one part is enough, none is
    /// started.
    pub fn draw_region_in_parts<R: Threads + Sync, F: PixelFormat + Sync>(
        &mut self,
        rt: &R,
        scene: &Scene,
        region: &Region,
        bytes: &mut [u8],
        across: usize,
        parts: usize,
    ) -> Result<(), AllocError>
        requires { HasRows F.DEPTH across scene.now.w scene.now.h bytes.old }
        ensures ok { OnOk result (IsDrawnIn F.DEPTH F.bytes_of scene.now across region.now bytes.old bytes.new) }
        ensures err { OnErr result (bytes.new ≡ bytes.old) }
    {
        let alloc = *self.surfaces.allocator();
        prepare(alloc, scene, region.rects(), parts, &mut self.surfaces)?;
        let surfaces = self.surfaces.as_mut_slice();
        draw_rects_in_parts::<R, F>(rt, scene, bytes, across, region.rects(), surfaces);
        Ok(())
    }
}
