//! Copies of drawings.

ghost use Rattle.std.specs.Prelude.{◌≡◌, IfOk};
ghost use Rattle.viz_scene.specs.Views.{quads_view, passes_view};

use crate::drawing::Drawing;
use std::alloc::{AllocError, Global};
use viz_scene::{Quad, RenderPass, Scene};

// Copies of these quads, which share the images of tiles.
fn copied_quads(alloc: Global, quads: &[Quad]) -> Result<Vec<Quad>, AllocError>
    ensures { IfOk result (λ copies. quads_view copies.items ≡ quads_view quads.now) }
{
    let mut copies = Vec::with_capacity(alloc, quads.len())?;
    for quad in quads {
        copies.push(quad.copy()?)?;
    }
    Ok(copies)
}

// Copies of these passes.
fn copied_passes(alloc: Global, passes: &[RenderPass]) -> Result<Vec<RenderPass>, AllocError>
    ensures { IfOk result (λ copies. passes_view copies.items ≡ passes_view passes.now) }
{
    let mut copies = Vec::with_capacity(alloc, passes.len())?;
    for pass in passes {
        let quads = copied_quads(alloc, pass.quads.as_slice())?;
        copies.push(RenderPass { quads })?;
    }
    Ok(copies)
}

// A copy of a scene.
fn copied_scene(alloc: Global, scene: &Scene) -> Result<Scene, AllocError>
    ensures { IfOk result (λ copy. copy ≡ scene.now) }
{
    let passes = copied_passes(alloc, scene.passes())?;
    Ok(Scene::new(scene.w(), scene.h(), scene.background(), passes))
}

impl Drawing {
    /// The same drawing, which shares the images of its tiles: no pixel is copied. An error means out of memory.
    pub fn copy(&self, alloc: Global) -> Result<Drawing, AllocError>
        ensures { IfOk result (λ copy. copy ≡ self.now) }
    {
        let scene = copied_scene(alloc, &self.scene)?;
        let missing = self.missing.copy()?;
        Ok(Drawing { scene, missing })
    }
}
