//! Redrawers.

ghost use Rattle.std.specs.Prelude.{◌≡◌, None, OnOk, OnErr, All};
ghost use Rattle.geom.specs.Covers.{IsSound};
ghost use Rattle.viz_canvas.specs.Buffers.{HasRows, AreGapsKept, ShowsScene};
ghost use Rattle.viz_painter.specs.Painters.{HoldsCulled};
ghost use Rattle.viz_painter.specs.Redrawers.{ShowsHeld, ShowsSceneOutside, IsSceneKeptOutside};

use crate::buffer_redrawing::begin_in;
use crate::held_scene::{HeldScene, is_held};
use geom::Rect;
use region::Region;
use std::alloc::{AllocError, Global};
use std::marker::{Model, PhantomData, Sync};
use std::thread::Threads;
use viz_canvas::{PixelFormat, Renderer};
use viz_scene::Scene;

/// Draws one scene after another onto a picture in a buffer of its caller's, in a pixel format.
///
/// The picture has the size of the scene. The buffer has a row of `across` pixels for each row of the scene: those of
/// the picture, and after them a gap, which may be empty and keeps its bytes. A redrawer holds the scene that it drew
/// last, and takes it that the buffer still shows it: [`forget`](Redrawer::forget) tells it otherwise, as when the
/// buffer is another one.
pub struct Redrawer<F: PixelFormat> {
    alloc: Global,
    renderer: Renderer,
    // The scene that the picture shows.
    held: Option<HeldScene>,
    // Where the last drawing may have changed the picture.
    damage: Region,
    format: PhantomData<F>,
}

impl<F: PixelFormat> Model for Redrawer<F> {
    ghost use Rattle.viz_painter.specs.Redrawers.{RedrawerView};
    ghost use Rattle.viz_painter.specs.inner.Helds.{culled_of};

    ghost Value = { RedrawerView };

    ghost view = { λ r. record { held = culled_of r.held; damage = r.damage } };
}

// Written out, since a derived drop is proved anew, field by field, in each function that lets one go.
impl<F: PixelFormat> Drop for Redrawer<F> {
    fn drop(self) {
        let Redrawer {
            alloc: _,
            renderer: _,
            held: _,
            damage: _,
            format: _,
        } = self;
    }
}

impl<F: PixelFormat> Redrawer<F> {
    /// A redrawer that holds no scene.
    pub fn new(alloc: Global) -> Redrawer<F>
        ensures { result.held ≡ None }
    {
        Redrawer {
            alloc,
            renderer: Renderer::new(alloc),
            held: None,
            damage: Region::new(alloc),
            format: PhantomData,
        }
    }

    /// Makes it hold no scene: the next one is drawn whole, whatever the buffer shows.
    pub fn forget(&mut self)
        ensures held { self.new.held ≡ None }
        ensures damage { self.new.damage ≡ self.old.damage }
    {
        self.held = None;
    }

    /// The rects, in pixels of the picture, outside of which the last drawing that was not refused left the picture as
    /// it was. They may overlap, and some may be empty or reach beyond the picture.
    pub fn damage(&self) -> &[Rect]
        ensures value { result.now ≡ self.now.damage }
        ensures sound { All IsSound result.now }
    {
        self.damage.rects()
    }

    /// Draws a scene: the picture then has the scene's pixels. If the redrawer holds that scene, nothing is drawn;
    /// if it holds another one of that size, only the damage is; else the whole is. An error means out of memory:
    /// the picture may then show a part of the scene, the redrawer holds none, and the next one is drawn whole.
    #[tactic(auto, using(crate::proofs::RedrawnIn::held_in, crate::proofs::RedrawnIn::kept_same, crate::proofs::RedrawnIn::gaps_same))]
    pub fn paint(&mut self, scene: Scene, bytes: &mut [u8], across: usize) -> Result<(), AllocError>
        requires rows { HasRows F.DEPTH across scene.w scene.h bytes.old }
        requires held { ShowsHeld F.DEPTH F.bytes_of across self.old.held bytes.old }
        ensures shown { OnOk result (ShowsScene F.DEPTH F.bytes_of across scene bytes.new) }
        ensures held { OnOk result (HoldsCulled scene self.new.held) }
        ensures ready { ShowsHeld F.DEPTH F.bytes_of across self.new.held bytes.new }
        ensures kept { OnOk result (IsSceneKeptOutside F.DEPTH across scene self.new.damage bytes.old bytes.new) }
        ensures gaps { AreGapsKept F.DEPTH across scene.w scene.h bytes.old bytes.new }
        ensures err { OnErr result (self.new.held ≡ None) }
    {
        if is_held(&self.held, &scene) {
            self.damage = Region::new(self.alloc);
            return Ok(());
        }
        self.draw(scene, bytes, across)
    }

    /// Draws a scene of which the picture shows all but a region already, as when its maker knows what has changed: no
    /// scene is compared, and the region alone is drawn, which is then the damage. An error means out of memory: the
    /// redrawer then holds no scene, and the next one is drawn whole.
    #[tactic(auto, using(crate::proofs::RedrawnIn::rows_culled, crate::proofs::RedrawnIn::within_drawn, crate::proofs::RedrawnIn::within_shown, crate::proofs::RedrawnIn::within_kept, crate::proofs::RedrawnIn::gaps_drawn, crate::proofs::RedrawnIn::gaps_same))]
    pub fn paint_within(
        &mut self,
        scene: Scene,
        region: Region,
        bytes: &mut [u8],
        across: usize,
    ) -> Result<(), AllocError>
        requires rows { HasRows F.DEPTH across scene.w scene.h bytes.old }
        requires shown { ShowsSceneOutside F.DEPTH F.bytes_of across scene region bytes.old }
        ensures shown { OnOk result (ShowsScene F.DEPTH F.bytes_of across scene bytes.new) }
        ensures held { OnOk result (HoldsCulled scene self.new.held) }
        ensures ready { ShowsHeld F.DEPTH F.bytes_of across self.new.held bytes.new }
        ensures kept { OnOk result (IsSceneKeptOutside F.DEPTH across scene self.new.damage bytes.old bytes.new) }
        ensures damage { OnOk result (self.new.damage ≡ region) }
        ensures gaps { AreGapsKept F.DEPTH across scene.w scene.h bytes.old bytes.new }
        ensures err { OnErr result (self.new.held ≡ None) }
    {
        self.held = None;
        let next = HeldScene::new(self.alloc, scene)?;
        self.renderer
            .draw_region::<F>(next.culled(), &region, bytes, across)?;
        self.held = Some(next);
        self.damage = region;
        Ok(())
    }

    // Draws a scene that is not held.
    #[tactic(auto, using(crate::proofs::RedrawnIn::drawn_in, crate::proofs::RedrawnIn::rest_drawn, crate::proofs::RedrawnIn::kept_in, crate::proofs::RedrawnIn::gaps_more))]
    fn draw(&mut self, scene: Scene, bytes: &mut [u8], across: usize) -> Result<(), AllocError>
        requires rows { HasRows F.DEPTH across scene.w scene.h bytes.old }
        requires held { ShowsHeld F.DEPTH F.bytes_of across self.old.held bytes.old }
        ensures shown { OnOk result (ShowsScene F.DEPTH F.bytes_of across scene bytes.new) }
        ensures held { OnOk result (HoldsCulled scene self.new.held) }
        ensures ready { ShowsHeld F.DEPTH F.bytes_of across self.new.held bytes.new }
        ensures kept { OnOk result (IsSceneKeptOutside F.DEPTH across scene self.new.damage bytes.old bytes.new) }
        ensures gaps { AreGapsKept F.DEPTH across scene.w scene.h bytes.old bytes.new }
        ensures err { OnErr result (self.new.held ≡ None) }
    {
        let held = self.held.take();
        let (next, left) = begin_in::<F>(self.alloc, held, scene, bytes, across)?;
        self.renderer
            .draw_region::<F>(next.culled(), left.rest(), bytes, across)?;
        self.held = Some(next);
        self.damage = left.damage;
        Ok(())
    }
}

impl<F: PixelFormat + Sync> Redrawer<F> {
    /// Draws a scene as `paint` does, in at most the given number of parts, each by a thread of its own if it can be
    /// started. If there is one part, none is started.
    #[tactic(auto, using(crate::proofs::RedrawnIn::held_in, crate::proofs::RedrawnIn::kept_same, crate::proofs::RedrawnIn::gaps_same))]
    pub fn paint_in_parts<R: Threads + Sync>(
        &mut self,
        rt: &R,
        scene: Scene,
        bytes: &mut [u8],
        across: usize,
        parts: usize,
    ) -> Result<(), AllocError>
        requires rows { HasRows F.DEPTH across scene.w scene.h bytes.old }
        requires held { ShowsHeld F.DEPTH F.bytes_of across self.old.held bytes.old }
        ensures shown { OnOk result (ShowsScene F.DEPTH F.bytes_of across scene bytes.new) }
        ensures held { OnOk result (HoldsCulled scene self.new.held) }
        ensures ready { ShowsHeld F.DEPTH F.bytes_of across self.new.held bytes.new }
        ensures kept { OnOk result (IsSceneKeptOutside F.DEPTH across scene self.new.damage bytes.old bytes.new) }
        ensures gaps { AreGapsKept F.DEPTH across scene.w scene.h bytes.old bytes.new }
        ensures err { OnErr result (self.new.held ≡ None) }
    {
        if is_held(&self.held, &scene) {
            self.damage = Region::new(self.alloc);
            return Ok(());
        }
        self.draw_in_parts(rt, scene, bytes, across, parts)
    }

    // Draws a scene that is not held, in at most the given number of parts.
    #[tactic(auto, using(crate::proofs::RedrawnIn::drawn_in, crate::proofs::RedrawnIn::rest_drawn, crate::proofs::RedrawnIn::kept_in, crate::proofs::RedrawnIn::gaps_more))]
    fn draw_in_parts<R: Threads + Sync>(
        &mut self,
        rt: &R,
        scene: Scene,
        bytes: &mut [u8],
        across: usize,
        parts: usize,
    ) -> Result<(), AllocError>
        requires rows { HasRows F.DEPTH across scene.w scene.h bytes.old }
        requires held { ShowsHeld F.DEPTH F.bytes_of across self.old.held bytes.old }
        ensures shown { OnOk result (ShowsScene F.DEPTH F.bytes_of across scene bytes.new) }
        ensures held { OnOk result (HoldsCulled scene self.new.held) }
        ensures ready { ShowsHeld F.DEPTH F.bytes_of across self.new.held bytes.new }
        ensures kept { OnOk result (IsSceneKeptOutside F.DEPTH across scene self.new.damage bytes.old bytes.new) }
        ensures gaps { AreGapsKept F.DEPTH across scene.w scene.h bytes.old bytes.new }
        ensures err { OnErr result (self.new.held ≡ None) }
    {
        let held = self.held.take();
        let (next, left) = begin_in::<F>(self.alloc, held, scene, bytes, across)?;
        self.renderer
            .draw_region_in_parts::<R, F>(rt, next.culled(), left.rest(), bytes, across, parts)?;
        self.held = Some(next);
        self.damage = left.damage;
        Ok(())
    }
}
