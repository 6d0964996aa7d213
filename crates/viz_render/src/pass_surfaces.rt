//! Drawing all passes of a scene.

ghost use Rattle.std.specs.Prelude.{◌≡◌, ℕ, ◌*◌, ◌≤◌, ◌^◌, length, IfOk};
ghost use Rattle.page_display_list.specs.Bitmaps.{near, byte_count};
ghost use Rattle.viz_scene.specs.Views.{passes_view};
ghost use Rattle.viz_scene.specs.Sound.{IsIn};
ghost use Rattle.viz_render.specs.Surfaces.{ShowsArea};
ghost use Rattle.viz_render.specs.inner.Drawing.{AreRoomy, PassesCanBeDrawn};
ghost use Rattle.viz_render.specs.inner.Rooms.{HasRoom};
ghost use Rattle.viz_render.specs.inner.Shown.{ShowOpenPasses};

use crate::mask::{Mask, QuadMask};
use crate::passes::{draw_pass, draw_passes};
use crate::shown::last_group;
use crate::surface::Surface;
use geom::Rect;
use std::alloc::{AllocError, Global};
use viz_scene::{RenderPass, Scene};

/// A surface for each pass of a scene.
pub(crate) struct PassSurfaces {
    // Those of the passes before the root.
    pub(crate) passes: Vec<Surface>,
    pub(crate) root: Surface,
    // What opaque quads hide of the current one of these passes.
    pub(crate) mask: Mask,
    // What they hide of the root.
    pub(crate) root_mask: Mask,
}

// Written out, since a derived drop is proved anew, field by field, in each function that lets one go.
impl Drop for PassSurfaces {
    fn drop(self) {
        let PassSurfaces {
            passes: _,
            root: _,
            mask: _,
            root_mask: _,
        } = self;
    }
}

impl PassSurfaces {
    /// Surfaces of the given number of pixels for the passes of a scene. An error means out of memory.
    pub(crate) fn new(
        alloc: Global,
        scene: &Scene,
        pixels: usize,
    ) -> Result<PassSurfaces, AllocError>
        requires { pixels ≤ 2 ^ 60 }
        ensures { IfOk result (λ surfaces. HasRoom (4 * pixels) (length scene.now.passes) surfaces) }
    {
        let inner = scene.passes().len() - 1;
        Ok(PassSurfaces {
            passes: inner_surfaces(alloc, inner, pixels)?,
            root: Surface::new(alloc, pixels)?,
            mask: Mask::new(alloc, scene)?,
            root_mask: Mask::new(alloc, scene)?,
        })
    }
}

// The given number of surfaces of the given number of pixels.
fn inner_surfaces(alloc: Global, count: usize, pixels: usize) -> Result<Vec<Surface>, AllocError>
    requires { pixels ≤ 2 ^ 60 }
    ensures count { IfOk result (λ surfaces. length surfaces.items ≡ count) }
    ensures room { IfOk result (λ surfaces. AreRoomy (4 * pixels) surfaces.items) }
{
    let mut surfaces = Vec::new(alloc);
    for _ in 0..count {
        surfaces.push(Surface::new(alloc, pixels)?)?;
    }
    Ok(surfaces)
}

/// Draws the pixels of an area of the passes of a scene: those of the root, which are the scene's, and of the passes
/// before it at least those that are seen.
pub(crate) fn draw_scene(scene: &Scene, area: Rect, surfaces: &mut PassSurfaces)
    requires area { IsIn 2048 2048 area }
    requires low { near area.h ≤ 64 }
    requires room { HasRoom (byte_count area.w area.h) (length scene.now.passes) surfaces.old }
    ensures pixels { ShowsArea scene.now area surfaces.new.root.bytes }
    ensures room { (n : ℕ) → HasRoom n (length scene.now.passes) surfaces.old → HasRoom n (length scene.now.passes) surfaces.new }
{
    let Some((root, inner)) = scene.passes().split_last() else {
        return;
    };
    let quads = root.quads.as_slice();
    surfaces.root_mask.mark(area, quads, &surfaces.passes);
    let last = last_group(quads, inner.len(), surfaces.root_mask.highest());
    let root_group = QuadMask {
        mask: &surfaces.root_mask,
        number: last,
    };
    draw_inner(
        inner,
        area,
        &mut surfaces.passes,
        &mut surfaces.mask,
        root_group,
    );
    draw_pass(
        &mut surfaces.root,
        scene.background(),
        area,
        quads,
        &surfaces.passes,
        &surfaces.root_mask,
    );
}

// Draws the pixels of an area of the passes before the root, at least where the root's mask leaves its quad of this
// number to be seen.
fn draw_inner(
    passes: &[RenderPass],
    area: Rect,
    surfaces: &mut Vec<Surface>,
    mask: &mut Mask,
    root: QuadMask<'_>,
)
    requires area { IsIn 2048 2048 area }
    requires low { near area.h ≤ 64 }
    requires each { length surfaces.old.items ≡ length passes.now }
    requires quads { PassesCanBeDrawn (passes_view passes.now) }
    requires room { AreRoomy (byte_count area.w area.h) surfaces.old.items }
    ensures pixels { ShowOpenPasses area root.entry.mask.now.tops root.entry.number (passes_view passes.now) surfaces.new.items }
    ensures count { length surfaces.new.items ≡ length surfaces.old.items }
    ensures room { (n : ℕ) → AreRoomy n surfaces.old.items → AreRoomy n surfaces.new.items }
{
    draw_passes(passes, area, surfaces.as_mut_slice(), mask, root);
}
