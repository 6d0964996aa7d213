//! Scenes from tested passes.

ghost use Rattle.std.specs.Prelude.{◌≡◌, ◌↔◌, All, IsTrue, MatchOption};
ghost use Rattle.viz_scene.specs.Views.{quads_view, pass_view, passes_view};
ghost use Rattle.viz_scene.specs.Sound.{QuadFits, AreSound, IsSceneSide, IsScene};

use crate::checked_quads::fits;
use crate::{Quad, RenderPass, Scene};
use pixel::Colour;

// Whether each quad may stand in the pass of this number.
fn all_fit(quads: &[Quad], w: u32, h: u32, number: usize) -> bool
    ensures { IsTrue result ↔ All (QuadFits w h number) (quads_view quads.now) }
{
    let mut rest = quads;
    while let Some((quad, after)) = rest.split_first() {
        if !fits(quad, w, h, number) {
            return false;
        }
        rest = after;
    }
    true
}

// Whether each quad of a pass of this number may stand there.
fn pass_fits(pass: &RenderPass, w: u32, h: u32, number: usize) -> bool
    ensures { IsTrue result ↔ All (QuadFits w h number) (pass_view pass.now) }
{
    all_fit(pass.quads.as_slice(), w, h, number)
}

// Whether each quad of each pass may stand there.
fn are_sound(passes: &[RenderPass], w: u32, h: u32) -> bool
    ensures { IsTrue result ↔ AreSound w h 0 (passes_view passes.now) }
{
    let mut rest = passes;
    let mut number = 0;
    while let Some((pass, after)) = rest.split_first() {
        if !pass_fits(pass, w, h, number) {
            return false;
        }
        rest = after;
        number += 1;
    }
    true
}

// Whether a number of pixels may be a side.
fn is_side(n: u32) -> bool
    ensures { IsTrue result ↔ IsSceneSide n }
{
    1 <= n && n <= 2048
}

/// The scene of these passes, inner ones first, with sides in pixels. None if the sides are not from 1 to
/// 2048, if there is no pass, or if a quad may not stand in its pass.
pub fn scene_of(w: u32, h: u32, background: Colour, passes: Vec<RenderPass>) -> Option<Scene>
    ensures { MatchOption result
        (IsScene (record { w = w; h = h; background = background; passes = passes_view passes.items }) → ⊥)
        (λ scene. scene ≡ record { w = w; h = h; background = background; passes = passes_view passes.items }) }
{
    let sides = is_side(w) && is_side(h);
    let some = !passes.is_empty();
    let sound = are_sound(passes.as_slice(), w, h);
    if sides && some && sound {
        Some(Scene::new(w, h, background, passes))
    } else {
        None
    }
}
