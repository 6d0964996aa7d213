//! Tilings that are used again.

ghost use Rattle.std.specs.Prelude.{◌≡◌, ◌<◌, ℕ, All, IfSome, slice_get, Some};
ghost use Rattle.geom.specs.Sides.{IsLayerSide};
ghost use Rattle.page_layers.specs.Layers.{parts_of};
ghost use Rattle.tile_visible.specs.Visible as visible;
ghost use Rattle.impl_host.specs.Trees.{TreeModel, commit_of};
ghost use Rattle.impl_host.specs.inner.Steps.{IsTwin, IsSpareOf, Leads, AreCutAlike};

use crate::listed::{changes_nothing, step};
use crate::state::TreeState;
use geom::Grid;
use page_layers::{Layer, LayerTree};
use region::Changes;
use std::alloc::AllocError;
use tile_tiling::Tiling;
use tile_visible::grid_of;

/// A tiling with the stamps that its layer has in the active tree, if the layer is cut so there.
#[derive(Drop)]
pub(crate) struct Spare {
    /// The layer's id.
    pub(crate) layer: u32,
    /// How the tiling is cut.
    pub(crate) grid: Grid,
    /// The tiling.
    pub(crate) tiling: Tiling,
}

// The last place of a tiling of this layer that is cut so.
fn place_of(spares: &[Spare], layer: u32, grid: Grid) -> Option<usize>
    ensures { IfSome result (λ i. (s : Spare) × (slice_get spares.now i ≡ Some s) × (s.layer ≡ layer) × (s.grid ≡ grid)) }
{
    let mut left = spares.len();
    while left > 0 {
        let i = left - 1;
        if spares[i].layer == layer && spares[i].grid == grid {
            return Some(i);
        }
        left = i;
    }
    None
}

/// Takes out a tiling of this layer that is cut so, if there is one.
pub(crate) fn take(spares: &mut Vec<Spare>, layer: u32, grid: Grid) -> Option<Tiling>
    ensures left { (a : TreeModel) → All (IsSpareOf a) spares.old.items → All (IsSpareOf a) spares.new.items }
    ensures taken { (a : TreeModel) → All (IsSpareOf a) spares.old.items → IfSome result (λ t. (t.grid ≡ grid) × IsTwin a layer t) }
{
    match place_of(spares, layer, grid) {
        Some(i) => {
            let Spare { tiling, .. } = spares.remove(i);
            Some(tiling)
        }
        None => None,
    }
}

// Adds the tiling of a layer of the tree.
fn add(
    spares: &mut Vec<Spare>,
    tree: &LayerTree,
    layer: &Layer,
    tiling: Tiling,
) -> Result<(), AllocError>
    requires wide { IsLayerSide layer.now.w }
    requires tall { IsLayerSide layer.now.h }
    requires cut { tiling.grid ≡ visible.grid_of tree.now (parts_of layer.now) }
    ensures { (a : TreeModel) → IsTwin a layer.now.id tiling → All (IsSpareOf a) spares.old.items → All (IsSpareOf a) spares.new.items }
{
    let grid = grid_of(tree, layer);
    spares.push(Spare {
        layer: layer.id,
        grid,
        tiling,
    })?;
    Ok(())
}

/// Adds the tilings of a tree that lacks the commit of the active tree, once this commit is carried. None is
/// added if it retiles. An error means out of memory.
pub(crate) fn add_behind(
    spares: &mut Vec<Spare>,
    tree: &LayerTree,
    tilings: &mut Vec<Tiling>,
    active: &TreeState,
) -> Result<(), AllocError>
    requires cut { AreCutAlike tree.now tilings.old.items }
    requires leads { Leads tree.now tilings.old.items (commit_of active.now) active.now.page active.now.tilings }
    requires spares { All (IsSpareOf active.now) spares.old.items }
    ensures { All (IsSpareOf active.now) spares.new.items }
{
    if active.changes().retiled() {
        return Ok(());
    }
    let layers = tree.layers();
    tree.are_sized(layers);
    while let Some(mut tiling) = tilings.pop() {
        let layer = &layers[tilings.len()];
        step(&mut tiling, layer.id, active.changes(), active.frame());
        add(spares, tree, layer, tiling)?;
    }
    Ok(())
}

/// Adds the tilings of a tree that has one commit more than the active tree, if this commit changed
/// nothing. An error means out of memory.
pub(crate) fn add_ahead(
    spares: &mut Vec<Spare>,
    tree: &LayerTree,
    tilings: &mut Vec<Tiling>,
    changes: &Changes,
    active: &TreeState,
) -> Result<(), AllocError>
    requires cut { AreCutAlike tree.now tilings.old.items }
    requires leads { (frame : ℕ) × Leads active.now.page active.now.tilings (record { frame = frame; changed = changes.now }) tree.now tilings.old.items }
    requires spares { All (IsSpareOf active.now) spares.old.items }
    ensures { All (IsSpareOf active.now) spares.new.items }
{
    // The contract alone speaks of the active tree.
    let _ = active;
    let layers = tree.layers();
    tree.are_sized(layers);
    while let Some(tiling) = tilings.pop() {
        let layer = &layers[tilings.len()];
        if changes_nothing(changes, layer.id) {
            add(spares, tree, layer, tiling)?;
        }
    }
    Ok(())
}
