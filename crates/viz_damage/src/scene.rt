//! Scenes that are moved down or up, and cut to some rows.

ghost use Rattle.std.specs.Prelude.{pos, ◌≤ℤ◌, All, List, [], ◌∷◌, ◌++◌, IfOk, OnOk};
ghost use Rattle.viz_scene.specs.Views.{QuadView, quad_view, quads_view, passes_view};
ghost use Rattle.viz_damage.specs.inner.Acting.{IsCut, IsShown, ActMoved, AllActMoved, AlsoFit, AllAlsoFit, IsMoved};

use crate::moved_rows::{MovedRows, moved_quad};
use std::alloc::{AllocError, Global};
use viz_scene::{Quad, RenderPass, Scene};

/// A scene that shows between some rows what another shows the given number of rows higher. An error means
/// out of memory.
pub(crate) fn moved(alloc: Global, scene: &Scene, cut: MovedRows) -> Result<Scene, AllocError>
    requires cut { IsCut cut.by cut.top cut.end }
    requires end { cut.end ≤ℤ pos scene.now.h }
    ensures { IfOk result (λ after. IsMoved cut.by cut.top cut.end scene.now after) }
{
    let before = scene.passes();
    let passes = moved_passes(alloc, before, cut)?;
    let w = scene.w();
    let h = scene.h();
    let background = scene.background();
    let after = Scene::new(w, h, background, passes);
    Ok(after)
}

// The passes, moved and cut.
fn moved_passes(
    alloc: Global,
    passes: &[RenderPass],
    cut: MovedRows,
) -> Result<Vec<RenderPass>, AllocError>
    requires cut { IsCut cut.by cut.top cut.end }
    requires shown { All (All IsShown) (passes_view passes.now) }
    ensures act { IfOk result (λ after. AllActMoved cut.by cut.top cut.end (passes_view passes.now) (passes_view after.items)) }
    ensures fit { IfOk result (λ after. AllAlsoFit cut.end (passes_view passes.now) (passes_view after.items)) }
{
    let mut after = Vec::with_capacity(alloc, passes.len())?;
    for pass in passes {
        let quads = moved_quads(alloc, pass.quads.as_slice(), cut)?;
        after.push(RenderPass { quads })?;
    }
    Ok(after)
}

// The quads of a pass, moved and cut.
fn moved_quads(alloc: Global, quads: &[Quad], cut: MovedRows) -> Result<Vec<Quad>, AllocError>
    requires cut { IsCut cut.by cut.top cut.end }
    requires shown { All IsShown (quads_view quads.now) }
    ensures act { IfOk result (λ after. ActMoved cut.by cut.top cut.end (quads_view quads.now) (quads_view after.items)) }
    ensures fit { IfOk result (λ after. AlsoFit cut.end (quads_view quads.now) (quads_view after.items)) }
{
    let mut after = Vec::with_capacity(alloc, quads.len())?;
    for quad in quads {
        add_moved(quad, cut, &mut after)?;
    }
    Ok(after)
}

// Adds a quad that is moved and cut after others.
fn add_moved(quad: &Quad, cut: MovedRows, after: &mut Vec<Quad>) -> Result<(), AllocError>
    requires cut { IsCut cut.by cut.top cut.end }
    requires shown { IsShown (quad_view quad.now) }
    ensures act { OnOk result ((qs : List QuadView) → ActMoved cut.by cut.top cut.end qs (quads_view after.old.items) → ActMoved cut.by cut.top cut.end (qs ++ quad_view quad.now ∷ []) (quads_view after.new.items)) }
    ensures fit { OnOk result ((qs : List QuadView) → AlsoFit cut.end qs (quads_view after.old.items) → AlsoFit cut.end (qs ++ quad_view quad.now ∷ []) (quads_view after.new.items)) }
{
    match moved_quad(quad, cut)? {
        Some(moved) => {
            after.push(moved)?;
            Ok(())
        }
        None => Ok(()),
    }
}
