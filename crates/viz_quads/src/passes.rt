//! The passes of layers in nested groups.

ghost use Rattle.std.specs.Prelude.{◌≡◌, ◌≤◌, ◌+◌, ◌-◌, ◌*◌, ◌++◌, ◌∷◌, [], ℕ, All, length, IfOk, OnOk};
ghost use Rattle.std.specs.List.{prefix_len};
ghost use Rattle.geom.specs.declared.rect.Rect.{Rect as Area};
ghost use Rattle.page_layers.specs.inner.Runs.{lies_in};
ghost use Rattle.viz_scene.specs.Views.{passes_view, quads_view, grouped};
ghost use Rattle.viz_quads.specs.inner.Passes.{groups_of, IsLayer, AreBuilt};

use crate::parts::LayerParts;
use std::alloc::{AllocError, Global};
use viz_scene::{Quad, RenderPass};

// Whether the layer lies in this effect's group at this depth.
fn lies_inside(layer: &LayerParts, depth: usize, effect: u32) -> bool
    ensures { result ≡ lies_in groups_of depth effect layer.now }
{
    if depth < layer.groups.len() {
        let group = layer.groups[depth];
        effect == group.effect
    } else {
        false
    }
}

// How many layers from the first on lie in this effect's group.
fn run_len(layers: &[LayerParts], depth: usize, effect: u32) -> usize
    ensures value { result ≡ prefix_len (lies_in groups_of depth effect) layers.now }
    ensures within { result ≤ length layers.now }
{
    let mut len = 0;
    for layer in layers {
        if !lies_inside(layer, depth, effect) {
            break;
        }
        len += 1;
    }
    len
}

// Adds copies of these quads, which share the images of tiles.
fn push_copies(quads: &mut Vec<Quad>, more: &[Quad]) -> Result<(), AllocError>
    ensures { OnOk result (quads_view quads.new.items ≡ quads_view quads.old.items ++ quads_view more.now) }
{
    for quad in more {
        quads.push(quad.copy()?)?;
    }
    Ok(())
}

// Adds a pass of these quads, and a quad that draws it at this opacity.
fn push_group(
    passes: &mut Vec<RenderPass>,
    quads: &mut Vec<Quad>,
    inner: Vec<Quad>,
    opacity: u8,
) -> Result<(), AllocError>
    requires { length passes.old.items ≤ 16384 }
    ensures passes { OnOk result (passes_view passes.new.items ≡ passes_view passes.old.items ++ quads_view inner.items ∷ []) }
    ensures quads { OnOk result (quads_view quads.new.items ≡ quads_view quads.old.items ++ grouped (length passes.old.items) opacity ∷ []) }
{
    let pass = passes.len() as u32;
    passes.push(RenderPass { quads: inner })?;
    quads.push(Quad::Group { pass, opacity })?;
    Ok(())
}

/// The quads of these layers, those of one effect with their groups from a depth on. The layers that stand
/// together in a group are a pass of their own, which is added to the passes after those that its own
/// groups make, and is drawn as one quad at the group's opacity.
pub(crate) fn quads_from(
    alloc: Global,
    layers: &[LayerParts],
    depth: usize,
    passes: &mut Vec<RenderPass>,
) -> Result<Vec<Quad>, AllocError>
    requires few { All (λ l. length l.groups.items ≤ 256) layers.now }
    requires deep { depth ≤ 256 }
    requires room { length passes.old.items + length layers.now * (256 - depth) ≤ 16384 }
    ensures grown { OnOk result (length passes.new.items ≤ length passes.old.items + length layers.now * (256 - depth)) }
    ensures built { (w h : ℕ) (view : Area) → All (IsLayer w h view) layers.now →
        IfOk result (λ quads. AreBuilt w h view depth layers.now (passes_view passes.old.items) (passes_view passes.new.items) (quads_view quads.items)) }
{
    let mut quads = Vec::new(alloc);
    let mut rest = layers;
    while let Some((first, tail)) = rest.split_first() {
        if depth < first.groups.len() {
            let group = first.groups[depth];
            let (run, after) = rest.split_at(run_len(rest, depth, group.effect));
            let inner = quads_from(alloc, run, depth + 1, passes)?;
            push_group(passes, &mut quads, inner, group.opacity)?;
            rest = after;
        } else {
            push_copies(&mut quads, first.quads.as_slice())?;
            rest = tail;
        }
    }
    Ok(quads)
}
