//! Scenes.

ghost use Rattle.std.specs.Prelude.{◌≡◌};
ghost use Rattle.viz_scene.specs.Views.{SceneView, passes_view};
ghost use Rattle.viz_scene.specs.Sound.{IsSceneSide, IsScene};

use crate::quad::RenderPass;
use pixel::Colour;
use std::marker::Model;

/// The passes that make one picture. The last is the root, which is drawn over the background; the others
/// begin transparent and show where a later pass draws them as a group.
///
/// Its sides are 1 to 2048 pixels long, it has at least one pass, a group is of an earlier pass than the one
/// that it stands in, each quad lies on the screen, and the part of an image that it shows in the image.
pub struct Scene {
    w: u32,
    h: u32,
    background: Colour,
    passes: Vec<RenderPass>,
}

impl Model for Scene {
    ghost use Rattle.viz_scene.specs.Views.{SceneView, passes_view};
    ghost use Rattle.viz_scene.specs.Sound.{IsScene};

    ghost Value = { SceneView };

    ghost view = { λ s. record { w = s.w; h = s.h; background = s.background; passes = passes_view s.passes.items } };

    ghost invariant = { λ s. IsScene (record { w = s.w; h = s.h; background = s.background; passes = passes_view s.passes.items }) };
}

// Written out, since a derived drop is proved anew, field by field, in each function that lets one go.
impl Drop for Scene {
    fn drop(self) {
        let Scene {
            w: _,
            h: _,
            background: _,
            passes: _,
        } = self;
    }
}

impl Scene {
    /// The scene of these passes, inner ones first.
    pub fn new(w: u32, h: u32, background: Colour, passes: Vec<RenderPass>) -> Scene
        requires { IsScene (record { w = w; h = h; background = background; passes = passes_view passes.items }) }
        ensures { result ≡ record { w = w; h = h; background = background; passes = passes_view passes.items } }
    {
        Scene {
            w,
            h,
            background,
            passes,
        }
    }

    /// The width in pixels.
    pub fn w(&self) -> u32
        ensures value { result ≡ self.now.w }
        ensures side { IsSceneSide result }
    {
        self.w
    }

    /// The height in pixels.
    pub fn h(&self) -> u32
        ensures value { result ≡ self.now.h }
        ensures side { IsSceneSide result }
    {
        self.h
    }

    /// The colour below the root.
    pub fn background(&self) -> Colour
        ensures { result ≡ self.now.background }
    {
        self.background
    }

    /// The passes, inner ones first; the last is the root.
    pub fn passes(&self) -> &[RenderPass]
        ensures value { passes_view result.now ≡ self.now.passes }
        ensures sound { IsScene self.now }
    {
        &self.passes
    }
}
