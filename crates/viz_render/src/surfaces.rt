//! Surfaces that scenes are drawn into.

ghost use Rattle.std.specs.Prelude.{◌≡◌, ◌≤◌, false, length, IfOk, IsTrue};
ghost use Rattle.page_display_list.specs.Bitmaps.{near, byte_count};
ghost use Rattle.viz_scene.specs.Sound.{IsIn};
ghost use Rattle.viz_render.specs.Surfaces.{AreReady, ShowsArea};

use crate::pass_surfaces::{PassSurfaces, draw_scene};
use geom::Rect;
use std::alloc::{AllocError, Global};
use std::marker::Model;
use viz_scene::Scene;

/// The most rows of a strip.
const MOST_ROWS: usize = 64;

/// The least rows of a strip.
const LEAST_ROWS: usize = 4;

/// How many bytes the surfaces of one strip are to have together, so that they stay in a processor's cache.
const CACHED: usize = 786432;

/// Room for one strip of a scene: a surface for each of its passes. It serves for all scenes of that width and number
/// of passes, one after another.
pub struct Surfaces {
    passes: PassSurfaces,
    // How many pixels the rows of a strip have at most.
    width: usize,
    // The most rows of a strip.
    rows: usize,
}

impl Model for Surfaces {
    ghost use Rattle.std.specs.Prelude.{◌+◌, length};
    ghost use Rattle.viz_render.specs.Surfaces.{SurfacesView};
    ghost use Rattle.viz_render.specs.inner.Rooms.{AreSurfaces};

    ghost Value = { SurfacesView };

    ghost view = { λ s. record { width = s.width; passes = length s.passes.passes.items + 1; rows = s.rows; drawn = s.passes.root.bytes } };

    ghost invariant = { λ s. AreSurfaces s.width s.rows s.passes };
}

// Written out, since a derived drop is proved anew, field by field, in each function that lets one go.
impl Drop for Surfaces {
    fn drop(self) {
        let Surfaces {
            passes: _,
            width: _,
            rows: _,
        } = self;
    }
}

impl Surfaces {
    /// Takes the memory for strips of a scene. An error means out of memory.
    pub fn new(alloc: Global, scene: &Scene) -> Result<Surfaces, AllocError>
        ensures { IfOk result (AreReady scene.now) }
    {
        let width = scene.w() as usize;
        let rows = rows_of_strip(width, scene.passes().len());
        let passes = PassSurfaces::new(alloc, scene, width * rows)?;
        Ok(Surfaces {
            passes,
            width,
            rows,
        })
    }

    /// Whether there is room for strips of a scene.
    pub fn are_ready(&self, scene: &Scene) -> bool
        ensures yes { IsTrue result → AreReady scene.now self.now }
        ensures no { result ≡ false → AreReady scene.now self.now → ⊥ }
    {
        let passes = self.passes.passes.len() + 1;
        self.width == scene.w() as usize && passes == scene.passes().len()
    }

    /// Looks in which passes of a scene a mask pays, before strips of it are drawn. Without this, a strip has the
    /// same pixels, but may take longer.
    pub fn measure(&mut self, scene: &Scene)
        ensures { self.new ≡ self.old }
    {
        self.passes.mask.measure(scene);
        self.passes.root_mask.measure(scene);
    }

    /// Whether a mask pays in some pass of the scene that was measured last. Then high strips take less time than low
    /// ones, as a mask hides blocks of eight rows.
    pub fn are_masked(&self) -> bool {
        self.passes.mask.pays()
    }

    /// The most rows of a strip.
    pub fn rows(&self) -> usize
        ensures value { result ≡ self.now.rows }
        ensures some { 1 ≤ result }
    {
        self.rows
    }

    /// Draws the pixels of a scene in an area of the screen that is no larger than a strip.
    pub fn draw(&mut self, scene: &Scene, area: Rect)
        requires area { IsIn 2048 2048 area }
        requires ready { AreReady scene.now self.old }
        requires narrow { near area.w ≤ self.old.width }
        requires low { near area.h ≤ self.old.rows }
        ensures pixels { ShowsArea scene.now area self.new.drawn }
        ensures size { byte_count area.w area.h ≤ length self.new.drawn }
        ensures ready { AreReady scene.now self.new }
        ensures rows { self.new.rows ≡ self.old.rows }
    {
        draw_scene(scene, area, &mut self.passes);
    }

    /// Red, green, blue and alpha of each pixel that was drawn last, row by row from the top. The bytes after them say
    /// nothing.
    pub fn drawn(&self) -> &[u8]
        ensures { result.now ≡ self.now.drawn }
    {
        self.passes.root.bytes()
    }
}

// How many rows a strip has if the given number of surfaces of this width are drawn.
fn rows_of_strip(width: usize, surfaces: usize) -> usize
    requires width { 1 ≤ width }
    requires narrow { width ≤ 2048 }
    requires surfaces { 1 ≤ surfaces }
    ensures some { 1 ≤ result }
    ensures few { result ≤ MOST_ROWS }
{
    let rows = CACHED / (4 * width) / surfaces;
    rows.max(LEAST_ROWS).min(MOST_ROWS)
}
