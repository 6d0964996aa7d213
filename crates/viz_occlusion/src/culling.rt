//! Leaving out hidden quads.

ghost use Rattle.std.specs.Prelude.{◌≡◌, false, All, List, ◌∷◌, OnOk, IsTrue, IfOk};
ghost use Rattle.viz_scene.specs.Views.{QuadView, quad_view, quads_view, passes_view};
ghost use Rattle.viz_scene.specs.Opaque.{IsHidden};
ghost use Rattle.viz_occlusion.specs.Culled.{IsKeptAs, AreKept, AreAllKept, IsCulled};
ghost use Rattle.viz_occlusion.specs.inner.Cover.{IsCover, IsFit, IsPassed};

use crate::bands::Cover;
use crate::opaque::is_opaque;
use std::alloc::{AllocError, Global};
use viz_scene::{Quad, RenderPass, Scene};

/// The scene without the tiles and solids that later opaque ones of their pass hide. It has the same pixels,
/// the same passes and groups, and the quads that stay are in order; a tile whose image has one colour becomes
/// a rect of that colour. An error means out of memory.
pub fn cull(alloc: Global, scene: &Scene) -> Result<Scene, AllocError>
    ensures { IfOk result (λ culled. IsCulled scene.now culled) }
{
    let before = scene.passes();
    let passes = kept_passes(alloc, before)?;
    let w = scene.w();
    let h = scene.h();
    let background = scene.background();
    let culled = Scene::new(w, h, background, passes);
    Ok(culled)
}

// The passes without hidden quads.
fn kept_passes(alloc: Global, passes: &[RenderPass]) -> Result<Vec<RenderPass>, AllocError>
    requires { All (All IsFit) (passes_view passes.now) }
    ensures { IfOk result (λ kept. AreAllKept (passes_view passes.now) (passes_view kept.items)) }
{
    let mut kept = Vec::with_capacity(alloc, passes.len())?;
    for pass in passes {
        let quads = kept_quads(alloc, pass.quads.as_slice())?;
        kept.push(RenderPass { quads })?;
    }
    Ok(kept)
}

// The quads that later ones do not hide.
fn kept_quads(alloc: Global, quads: &[Quad]) -> Result<Vec<Quad>, AllocError>
    requires { All IsFit (quads_view quads.now) }
    ensures { IfOk result (λ kept. AreKept (quads_view quads.now) (quads_view kept.items)) }
{
    let mut cover = Cover::new(alloc)?;
    let mut kept = Vec::with_capacity(alloc, quads.len())?;
    let mut left = quads.len();
    while left > 0 {
        left -= 1;
        keep_quad(&quads[left], &mut cover, &mut kept)?;
    }
    kept.reverse();
    Ok(kept)
}

// Keeps a quad after those that were kept, unless the area hides it, and adds what it hides.
fn keep_quad(quad: &Quad, cover: &mut Cover, kept: &mut Vec<Quad>) -> Result<(), AllocError>
    requires { IsFit (quad_view quad.now) }
    ensures { OnOk result (IsPassed (quad_view quad.now) cover.old cover.new kept.old.items kept.new.items) }
{
    if is_hidden(quad, cover) {
        return Ok(());
    }
    kept.push(kept_as(quad)?)?;
    add_cover(cover, quad)?;
    Ok(())
}

// Whether an area hides a quad.
#[tactic(auto, using(crate::proofs::BandSteps::hidden_by))]
fn is_hidden(quad: &Quad, cover: &Cover) -> bool
    requires { IsFit (quad_view quad.now) }
    ensures yes { IsTrue result → (later : List QuadView) → IsCover later cover.now → IsHidden (quad_view quad.now) later }
    ensures no { result ≡ false → (later : List QuadView) → IsCover later cover.now → IsHidden (quad_view quad.now) later → ⊥ }
{
    match quad {
        Quad::Tile { at, .. } => cover.has(*at),
        Quad::Solid { at, .. } => cover.has(*at),
        Quad::Group { .. } => false,
    }
}

// What a quad is kept as.
fn kept_as(quad: &Quad) -> Result<Quad, AllocError>
    ensures { IfOk result (λ kept. IsKeptAs (quad_view quad.now) (quad_view kept)) }
{
    match quad {
        Quad::Tile { image, at, .. } => match image.solid() {
            Some(colour) => Ok(Quad::Solid { at: *at, colour }),
            None => {
                let kept = quad.copy()?;
                Ok(kept)
            }
        },
        Quad::Solid { .. } => {
            let kept = quad.copy()?;
            Ok(kept)
        }
        Quad::Group { .. } => {
            let kept = quad.copy()?;
            Ok(kept)
        }
    }
}

// Adds what a quad hides.
fn add_cover(cover: &mut Cover, quad: &Quad) -> Result<(), AllocError>
    requires { IsFit (quad_view quad.now) }
    ensures { OnOk result ((later : List QuadView) → IsCover later cover.old → IsCover (quad_view quad.now ∷ later) cover.new) }
{
    if !is_opaque(quad) {
        return Ok(());
    }
    match quad {
        Quad::Tile { at, .. } => {
            cover.add(*at)?;
            Ok(())
        }
        Quad::Solid { at, .. } => {
            cover.add(*at)?;
            Ok(())
        }
        Quad::Group { .. } => Ok(()),
    }
}
