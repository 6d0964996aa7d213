//! Painters.

ghost use Rattle.std.specs.Prelude.{◌≡◌, None, IfOk, OnOk, OnErr, All};
ghost use Rattle.geom.specs.Covers.{IsSound};
ghost use Rattle.viz_scene.specs.Sound.{IsSceneSide};
ghost use Rattle.viz_canvas.specs.Canvases.{IsOfSize, EachIs, black};
ghost use Rattle.viz_painter.specs.Painters.{ShowsWhole, ShowsOutside, HoldsCulled, IsKeptOutside};

use crate::held_scene::{HeldScene, is_held};
use crate::redrawing::{begin, begin_within};
use geom::Rect;
use region::Region;
use std::alloc::{AllocError, Global};
use std::marker::{Model, Sync};
use std::thread::Threads;
use viz_canvas::{Canvas, PixelFormat};
use viz_scene::Scene;

/// A canvas that shows one scene after another, and the last of them.
pub struct Painter<F: PixelFormat> {
    alloc: Global,
    canvas: Canvas<F>,
    // The scene that the canvas shows; None at first and after a refusal.
    held: Option<HeldScene>,
    // Where the last drawing may have changed the canvas.
    damage: Region,
}

impl<F: PixelFormat> Model for Painter<F> {
    ghost use Rattle.viz_painter.specs.Painters.{PainterView, IsPainter};
    ghost use Rattle.viz_painter.specs.inner.Helds.{culled_of};

    ghost Value = { PainterView };

    ghost view = { λ p. record { canvas = p.canvas; held = culled_of p.held; damage = p.damage } };

    ghost invariant = { λ p. IsPainter F.DEPTH F.bytes_of (record { canvas = p.canvas; held = culled_of p.held; damage = p.damage }) };
}

// Written out, since a derived drop is proved anew, field by field, in each function that lets one go.
impl<F: PixelFormat> Drop for Painter<F> {
    fn drop(self) {
        let Painter {
            alloc: _,
            canvas: _,
            held: _,
            damage: _,
        } = self;
    }
}

impl<F: PixelFormat> Painter<F> {
    /// A painter that holds no scene. Its canvas has these sides, 1 to 2048 pixels each, and is black and
    /// opaque. An error means out of memory.
    pub fn new(alloc: Global, w: u32, h: u32) -> Result<Painter<F>, AllocError>
        requires wide { IsSceneSide w }
        requires tall { IsSceneSide h }
        ensures size { IfOk result (λ painter. IsOfSize w h painter.canvas) }
        ensures pixels { IfOk result (λ painter. EachIs F.DEPTH (λ x y. F.bytes_of black) painter.canvas) }
        ensures held { IfOk result (λ painter. painter.held ≡ None) }
    {
        let canvas = Canvas::new(alloc, w, h)?;
        Ok(Painter {
            alloc,
            canvas,
            held: None,
            damage: Region::new(alloc),
        })
    }

    /// The canvas. It shows the scene that the painter holds, if it holds one.
    pub fn canvas(&self) -> &Canvas<F>
        ensures { result.now ≡ self.now.canvas }
    {
        &self.canvas
    }

    /// The rects, in pixels of the canvas, outside of which the last drawing that was not refused left the canvas as it
    /// was. They may overlap, and some may be empty or reach beyond the canvas.
    pub fn damage(&self) -> &[Rect]
        ensures value { result.now ≡ self.now.damage }
        ensures sound { All IsSound result.now }
    {
        self.damage.rects()
    }

    /// Draws a scene: the canvas then has the scene's size and pixels. If the painter holds that scene,
    /// nothing is drawn; if it holds another one of that size, only the damage is; else the whole is, onto
    /// a new canvas if the size differs. An error means out of memory: the painter then holds no scene, and the
    /// next one is drawn whole.
    #[tactic(auto, using(crate::proofs::Redrawn::held_shown, crate::proofs::Redrawn::kept_itself))]
    pub fn paint(&mut self, scene: Scene) -> Result<(), AllocError>
        ensures shown { OnOk result (ShowsWhole F.DEPTH F.bytes_of scene self.new.canvas) }
        ensures held { OnOk result (HoldsCulled scene self.new.held) }
        ensures kept { OnOk result (IsKeptOutside F.DEPTH self.new.damage self.old.canvas self.new.canvas) }
        ensures err { OnErr result (self.new.held ≡ None) }
    {
        if is_held(&self.held, &scene) {
            self.damage = Region::new(self.alloc);
            return Ok(());
        }
        self.draw(scene)
    }

    /// Draws a scene of which the canvas shows all but a region already, as when its maker knows what has changed: no
    /// scene is compared, and the region alone is drawn, which is then the damage. An error means out of memory: the
    /// painter then holds no scene, and the next one is drawn whole.
    #[tactic(auto, using(crate::proofs::Redrawn::redrawn, crate::proofs::Redrawn::kept_outside))]
    pub fn paint_within(&mut self, scene: Scene, region: Region) -> Result<(), AllocError>
        requires { ShowsOutside F.DEPTH F.bytes_of scene region self.old.canvas }
        ensures shown { OnOk result (ShowsWhole F.DEPTH F.bytes_of scene self.new.canvas) }
        ensures held { OnOk result (HoldsCulled scene self.new.held) }
        ensures kept { OnOk result (IsKeptOutside F.DEPTH self.new.damage self.old.canvas self.new.canvas) }
        ensures damage { OnOk result (self.new.damage ≡ region) }
        ensures err { OnErr result (self.new.held ≡ None) }
    {
        self.held = None;
        let next = begin_within(self.alloc, &self.canvas, scene, &region)?;
        self.canvas.draw_region(next.culled(), &region)?;
        self.held = Some(next);
        self.damage = region;
        Ok(())
    }

    // Draws a scene that is not held.
    #[tactic(auto, using(crate::proofs::Redrawn::redrawn, crate::proofs::Redrawn::kept_outside))]
    fn draw(&mut self, scene: Scene) -> Result<(), AllocError>
        ensures shown { OnOk result (ShowsWhole F.DEPTH F.bytes_of scene self.new.canvas) }
        ensures held { OnOk result (HoldsCulled scene self.new.held) }
        ensures kept { OnOk result (IsKeptOutside F.DEPTH self.new.damage self.old.canvas self.new.canvas) }
        ensures err { OnErr result (self.new.held ≡ None) }
    {
        let held = self.held.take();
        let (next, left) = begin(self.alloc, &mut self.canvas, held, scene)?;
        self.canvas.draw_region(next.culled(), left.rest())?;
        self.held = Some(next);
        self.damage = left.damage;
        Ok(())
    }
}

impl<F: PixelFormat + Sync> Painter<F> {
    /// Draws a scene as `paint` does, in at most the given number of parts, each by a thread of its own if
    /// it can be started. If there is one part, none is started.
    #[tactic(auto, using(crate::proofs::Redrawn::held_shown, crate::proofs::Redrawn::kept_itself))]
    pub fn paint_in_parts<R: Threads + Sync>(
        &mut self,
        rt: &R,
        scene: Scene,
        parts: usize,
    ) -> Result<(), AllocError>
        ensures shown { OnOk result (ShowsWhole F.DEPTH F.bytes_of scene self.new.canvas) }
        ensures held { OnOk result (HoldsCulled scene self.new.held) }
        ensures kept { OnOk result (IsKeptOutside F.DEPTH self.new.damage self.old.canvas self.new.canvas) }
        ensures err { OnErr result (self.new.held ≡ None) }
    {
        if is_held(&self.held, &scene) {
            self.damage = Region::new(self.alloc);
            return Ok(());
        }
        self.draw_in_parts(rt, scene, parts)
    }

    // Draws a scene that is not held, in at most the given number of parts.
    #[tactic(auto, using(crate::proofs::Redrawn::redrawn, crate::proofs::Redrawn::kept_outside))]
    fn draw_in_parts<R: Threads + Sync>(
        &mut self,
        rt: &R,
        scene: Scene,
        parts: usize,
    ) -> Result<(), AllocError>
        ensures shown { OnOk result (ShowsWhole F.DEPTH F.bytes_of scene self.new.canvas) }
        ensures held { OnOk result (HoldsCulled scene self.new.held) }
        ensures kept { OnOk result (IsKeptOutside F.DEPTH self.new.damage self.old.canvas self.new.canvas) }
        ensures err { OnErr result (self.new.held ≡ None) }
    {
        let held = self.held.take();
        let (next, left) = begin(self.alloc, &mut self.canvas, held, scene)?;
        self.canvas
            .draw_region_in_parts(rt, next.culled(), left.rest(), parts)?;
        self.held = Some(next);
        self.damage = left.damage;
        Ok(())
    }
}
