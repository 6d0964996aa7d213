//! Surfaces: what a host shows, in buffers of its own.

ghost use Rattle.std.specs.Prelude.{◌≡◌, List, None, OnOk, OnErr, All};
ghost use Rattle.geom.specs.Covers.{IsSound};
ghost use Rattle.viz_canvas.specs.Buffers.{HasRows, AreGapsKept, ShowsScene};
ghost use Rattle.viz_painter.specs.Painters.{HoldsCulled};
ghost use Rattle.viz_painter.specs.Redrawers.{ShowsHeld, IsSceneKeptOutside};
ghost use Rattle.model_history.specs.declared.history.Entry.{Entry};
ghost use Rattle.model_history.specs.Scripts.{ScriptModel};
ghost use Rattle.impl_core.specs.Replies.{IsPicture};
ghost use Rattle.cc_live.specs.Surfaces.{ShowsActivePage};

use geom::Rect;
use std::alloc::{AllocError, Global};
use std::marker::Model;
use viz_canvas::PixelFormat;
use viz_painter::Redrawer;
use viz_scene::Scene;

/// What a host shows: it paints one scene of a live compositor after another into a buffer of the host's, in a pixel
/// format, and draws again only what changed. Nothing of it is in the compositor, so it paints outside of the mutex;
/// two surfaces may paint at once.
///
/// The buffer has a row of `across` pixels for each row of the scene: those of the picture, and after them a gap, which
/// may be empty and keeps its bytes. A host with more than one buffer has a surface for each.
pub struct Surface<F: PixelFormat> {
    redrawer: Redrawer<F>,
}

impl<F: PixelFormat> Model for Surface<F> {
    ghost use Rattle.viz_painter.specs.Redrawers.{RedrawerView};

    ghost Value = { RedrawerView };

    ghost view = { λ s. s.redrawer };
}

impl<F: PixelFormat> Drop for Surface<F> {
    fn drop(self) {
        let Surface { redrawer: _ } = self;
    }
}

impl<F: PixelFormat> Surface<F> {
    /// A surface that holds no scene: the first one is drawn whole.
    pub fn new(alloc: Global) -> Surface<F>
        ensures { result.held ≡ None }
    {
        Surface {
            redrawer: Redrawer::new(alloc),
        }
    }

    /// Tells that the buffer shows something else now, as when it is another one: the next scene is drawn whole.
    pub fn forget(&mut self)
        ensures held { self.new.held ≡ None }
        ensures damage { self.new.damage ≡ self.old.damage }
    {
        self.redrawer.forget();
    }

    /// The rects, in pixels of the picture, outside of which the last painting that was not refused left the picture as
    /// it was. They may overlap, and some may be empty or reach beyond the picture.
    pub fn damage(&self) -> &[Rect]
        ensures value { result.now ≡ self.now.damage }
        ensures sound { All IsSound result.now }
    {
        self.redrawer.damage()
    }

    /// Paints a scene. If it is the picture of a run, as that of a draw is, each pixel is then the direct painting of
    /// the page that was active at the draw, where its scrollers stood then, with the tiles missing that were not
    /// ready. The buffer must show the scene that the surface holds: a host that changed it calls
    /// [`forget`](Surface::forget) first. If the surface holds this scene, nothing is drawn; if it holds another one of
    /// that size, only the damage is; else the whole is.
    ///
    /// An error means out of memory: the picture may then show a part of the scene, the surface holds none, and the
    /// next one is drawn whole.
    #[tactic(auto, using(crate::proofs::PaintedPages::painted_page))]
    pub fn paint(&mut self, scene: Scene, bytes: &mut [u8], across: usize) -> Result<(), AllocError>
        requires rows { HasRows F.DEPTH across scene.w scene.h bytes.old }
        requires held { ShowsHeld F.DEPTH F.bytes_of across self.old.held bytes.old }
        ensures page { (s : ScriptModel) (h : List Entry) → IsPicture s h scene → OnOk result (ShowsActivePage F.DEPTH F.bytes_of across s h bytes.new) }
        ensures shown { OnOk result (ShowsScene F.DEPTH F.bytes_of across scene bytes.new) }
        ensures held { OnOk result (HoldsCulled scene self.new.held) }
        ensures ready { ShowsHeld F.DEPTH F.bytes_of across self.new.held bytes.new }
        ensures kept { OnOk result (IsSceneKeptOutside F.DEPTH across scene self.new.damage bytes.old bytes.new) }
        ensures gaps { AreGapsKept F.DEPTH across scene.w scene.h bytes.old bytes.new }
        ensures err { OnErr result (self.new.held ≡ None) }
    {
        self.redrawer.paint(scene, bytes, across)
    }
}
