//! The tilings of the tree of a commit.

ghost use Rattle.std.specs.Prelude.{◌≡◌, [], false, All, IfOk, IfSome, OnOk};
ghost use Rattle.impl_host.specs.Trees.{AreCut, MayFollow};
ghost use Rattle.impl_host.specs.inner.Steps as spec;
ghost use Rattle.impl_host.specs.inner.Steps.{IsSpareOf, IsTwin, HasTiling, HasTilingIn, IsNextTiling, AreMade, Follows, IsRecycled};

use crate::listed::{changes_all, step};
use crate::places::place_of;
use crate::recycled::Recycled;
use crate::spare::{Spare, add_ahead, add_behind, take};
use crate::state::TreeState;
use geom::Grid;
use page_layers::LayerTree;
use region::Changes;
use std::alloc::{AllocError, Global};
use tile_tiling::Tiling;
use tile_visible::grid_of;

// A copy of the tree's tiling of a layer.
fn copy_of(last: &TreeState, layer: u32, grid: Grid) -> Result<Tiling, AllocError>
    requires { HasTiling layer grid last.now }
    ensures { IfOk result (λ t. (t.grid ≡ grid) × IsTwin last.now layer t) }
{
    // The contract alone speaks of how the layer is cut.
    let _ = grid;
    let tree = last.tree();
    tree.is_page();
    let layers = tree.layers();
    let tilings = last.tilings();
    match place_of(layers, layer) {
        Some(place) => tilings[place].copy(),
        None => unreachable!(),
    }
}

// A tiling with the stamps of the tree's tiling of a layer: a spare one, or a copy.
fn twin_of(
    spares: &mut Vec<Spare>,
    last: &TreeState,
    layer: u32,
    grid: Grid,
) -> Result<Tiling, AllocError>
    requires spares { All (IsSpareOf last.now) spares.old.items }
    requires there { HasTiling layer grid last.now }
    ensures spares { All (IsSpareOf last.now) spares.new.items }
    ensures twin { IfOk result (λ t. (t.grid ≡ grid) × IsTwin last.now layer t) }
{
    match take(spares, layer, grid) {
        Some(tiling) => Ok(tiling),
        None => copy_of(last, layer, grid),
    }
}

// The tiling of a layer that did not change whole.
fn stepped(
    spares: &mut Vec<Spare>,
    last: &TreeState,
    layer: u32,
    grid: Grid,
    changes: &Changes,
    frame: u32,
) -> Result<Tiling, AllocError>
    requires spares { All (IsSpareOf last.now) spares.old.items }
    requires part { spec.changes_all changes.now layer ≡ false }
    requires there { HasTiling layer grid last.now }
    ensures spares { All (IsSpareOf last.now) spares.new.items }
    ensures next { IfOk result (IsNextTiling (Some last.now) (record { frame = frame; changed = changes.now }) layer grid) }
{
    let mut tiling = twin_of(spares, last, layer, grid)?;
    step(&mut tiling, layer, changes, frame);
    Ok(tiling)
}

// The tiling of a layer of the tree of a commit.
fn next_tiling(
    alloc: Global,
    spares: &mut Vec<Spare>,
    last: &Option<TreeState>,
    layer: u32,
    grid: Grid,
    changes: &Changes,
    frame: u32,
) -> Result<Tiling, AllocError>
    requires spares { IfSome last.now (λ a. All (IsSpareOf a) spares.old.items) }
    requires there { spec.changes_all changes.now layer ≡ false → HasTilingIn last.now layer grid }
    ensures spares { IfSome last.now (λ a. All (IsSpareOf a) spares.new.items) }
    ensures next { IfOk result (IsNextTiling last.now (record { frame = frame; changed = changes.now }) layer grid) }
{
    if changes_all(changes, layer) {
        return Tiling::new(alloc, grid, frame);
    }
    match last {
        Some(last) => stepped(spares, last, layer, grid, changes, frame),
        None => unreachable!(),
    }
}

// If there is a tree, each of its layers has a tiling.
fn are_cut(last: &Option<TreeState>)
    ensures { IfSome last.now (λ a. AreCut a.page a.tilings) }
{
    match last {
        Some(last) => last.are_cut(),
        None => (),
    }
}

// Adds the tilings of the layers of the tree of a commit.
fn add_tilings(
    tilings: &mut Vec<Tiling>,
    spares: &mut Vec<Spare>,
    last: &Option<TreeState>,
    tree: &LayerTree,
    changes: &Changes,
    frame: u32,
) -> Result<(), AllocError>
    requires empty { tilings.old.items ≡ [] }
    requires spares { IfSome last.now (λ a. All (IsSpareOf a) spares.old.items) }
    requires follows { MayFollow last.now tree.now changes.now }
    ensures { OnOk result (AreMade last.now tree.now changes.now frame tilings.new.items) }
{
    // These tell the proof what the types keep; they do nothing when they run.
    are_cut(last);
    tree.is_page();
    let _ = changes.len();
    let alloc = *tilings.allocator();
    let layers = tree.layers();
    tree.are_sized(layers);
    for layer in layers {
        let grid = grid_of(tree, layer);
        let tiling = next_tiling(alloc, spares, last, layer.id, grid, changes, frame)?;
        tilings.push(tiling)?;
    }
    Ok(())
}

// Makes spare tilings of a tree that lacks the last commit, and answers the list that held them.
fn from_behind(
    spares: &mut Vec<Spare>,
    old: TreeState,
    active: &TreeState,
) -> Result<Vec<Tiling>, AllocError>
    requires follows { Follows old active.now }
    requires spares { All (IsSpareOf active.now) spares.old.items }
    ensures spares { All (IsSpareOf active.now) spares.new.items }
    ensures empty { IfOk result (λ tilings. tilings.items ≡ []) }
{
    let (tree, _changes, mut tilings) = old.into_parts();
    add_behind(spares, &tree, &mut tilings, active)?;
    tilings.clear();
    Ok(tilings)
}

// Makes spare tilings of a tree that was taken back, and answers the list that held them.
fn from_ahead(
    spares: &mut Vec<Spare>,
    taken: TreeState,
    active: &TreeState,
) -> Result<Vec<Tiling>, AllocError>
    requires follows { Follows active.now taken }
    requires spares { All (IsSpareOf active.now) spares.old.items }
    ensures spares { All (IsSpareOf active.now) spares.new.items }
    ensures empty { IfOk result (λ tilings. tilings.items ≡ []) }
{
    let (tree, changes, mut tilings) = taken.into_parts();
    add_ahead(spares, &tree, &mut tilings, &changes, active)?;
    tilings.clear();
    Ok(tilings)
}

// Makes spare tilings of a recycled tree, and answers the list that held them.
fn emptied(
    alloc: Global,
    spares: &mut Vec<Spare>,
    recycled: Recycled,
    active: &Option<TreeState>,
) -> Result<Vec<Tiling>, AllocError>
    requires recycled { IsRecycled active.now recycled }
    ensures spares { IfSome active.now (λ a. All (IsSpareOf a) spares.new.items) }
    ensures empty { IfOk result (λ tilings. tilings.items ≡ []) }
{
    spares.clear();
    match (recycled, active) {
        (Recycled::Behind(old), Some(active)) => from_behind(spares, old, active),
        (Recycled::Ahead(taken), Some(active)) => from_ahead(spares, taken, active),
        _ => Ok(Vec::new(alloc)),
    }
}

/// The tilings of the tree of a commit, which may follow the active one. The tilings of the recycled tree are
/// used again. An error means out of memory.
pub(crate) fn next_tilings(
    alloc: Global,
    spares: &mut Vec<Spare>,
    recycled: Recycled,
    active: &Option<TreeState>,
    tree: &LayerTree,
    changes: &Changes,
    frame: u32,
) -> Result<Vec<Tiling>, AllocError>
    requires recycled { IsRecycled active.now recycled }
    requires follows { MayFollow active.now tree.now changes.now }
    ensures { IfOk result (λ tilings. AreMade active.now tree.now changes.now frame tilings.items) }
{
    let mut tilings = emptied(alloc, spares, recycled, active)?;
    add_tilings(&mut tilings, spares, active, tree, changes, frame)?;
    Ok(tilings)
}
