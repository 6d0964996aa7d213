//! The keys of a tree, as the table writes them.

ghost use Rattle.geom.specs.Sides.{IsLayerSide};
ghost use Rattle.geom.specs.Covers.{IsSound};

use geom::{Rect, TileKey};
use impl_host::TreeState;
use page_layers::Layer;
use std::alloc::{AllocError, Global};
use test_table::{LineFault, keys_text};
use tile_tiling::Tiling;
use tile_visible::by_id;

// All of a layer.
fn whole_of(layer: &Layer) -> Rect
    requires wide { IsLayerSide layer.now.w }
    requires tall { IsLayerSide layer.now.h }
    ensures { IsSound result }
{
    Rect {
        x: 0,
        y: 0,
        w: layer.w as i32,
        h: layer.h as i32,
    }
}

// Adds the keys of a layer.
fn add_keys(keys: &mut Vec<TileKey>, layer: &Layer, tiling: &Tiling) -> Result<(), AllocError>
    requires wide { IsLayerSide layer.now.w }
    requires tall { IsLayerSide layer.now.h }
{
    let added = tiling.covering(layer.id, whole_of(layer))?;
    keys.extend_from_slice(added.as_slice())?;
    Ok(())
}

// The keys of all places of a tree, in key order: by layer, row and column.
fn keys_of(alloc: Global, state: &TreeState) -> Result<Vec<TileKey>, AllocError> {
    let mut keys = Vec::new(alloc);
    let tree = state.tree();
    let layers = tree.layers();
    tree.are_sized(layers);
    let order = by_id(alloc, layers)?;
    for one in order.as_slice() {
        if let Some(tiling) = state.tilings().get(one.index) {
            add_keys(&mut keys, one.layer, tiling)?;
        }
    }
    Ok(keys)
}

// The sum of keys.
fn sum_of(keys: &[TileKey]) -> u64 {
    let mut sum: u64 = 0;
    for key in keys {
        for number in [key.layer, key.x, key.y, key.stamp] {
            sum = sum.wrapping_mul(31).wrapping_add(number as u64);
        }
    }
    sum
}

/// The keys of a tree, in key order; `none` if there is no tree.
pub fn told_keys(alloc: Global, state: Option<&TreeState>) -> Result<String, LineFault> {
    let Some(state) = state else {
        return Ok("none".to_string(alloc)?);
    };
    let keys = keys_of(alloc, state)?;
    Ok(keys_text(alloc, keys.as_slice())?)
}

/// How many keys a tree has, and their sum; `none` if there is no tree.
pub fn told_sum(alloc: Global, state: Option<&TreeState>) -> Result<String, LineFault> {
    let Some(state) = state else {
        return Ok("none".to_string(alloc)?);
    };
    let keys = keys_of(alloc, state)?;
    let count = keys.len();
    let sum = sum_of(keys.as_slice());
    Ok(format!(in alloc; "{count} {sum}")?)
}
