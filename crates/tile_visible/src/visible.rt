//! Which tiles of a page are seen.

ghost use Rattle.std.specs.Prelude.{◌≡◌, ◌*◌, ◌++◌, neg_ℤ, map, All, FitsSigned, IfOk, OnOk};
ghost use Rattle.std.specs.List.{flat_map};
ghost use mir.Syntax.{w32};
ghost use Rattle.geom.specs.Covers.{IsSound};
ghost use Rattle.geom.specs.Gaps.{shifted};
ghost use Rattle.geom.specs.Sides.{IsLayerSide};
ghost use Rattle.page_properties.specs.OffsetMap.{offset_at, AreOffsets};
ghost use Rattle.page_properties.specs.Placement.{IsWithin};
ghost use Rattle.page_layers.specs.Layers.{parts_of};
ghost use Rattle.tile_visible.specs.Visible as spec;

use crate::order::{OrderedLayer, by_id};
use crate::screen::{clip_in, grid_of};
use geom::{Keys, Place, Point, Rect, TileKey};
use page_layers::{Layer, LayerTree};
use page_properties::Offsets;
use std::alloc::{AllocError, Global};

// The opposite of a number.
fn opposite(n: i32) -> i32
    requires { FitsSigned w32 (neg_ℤ n) }
    ensures { result ≡ neg_ℤ n }
{
    -n
}

// A rect, moved back.
fn moved_back(rect: Rect, by: Point) -> Rect
    requires sound { IsSound rect }
    requires near { IsWithin (256 * 1114112) by }
    requires result_sound { IsSound (shifted rect (record { x = neg_ℤ by.x; y = neg_ℤ by.y })) }
    ensures { result ≡ shifted rect (record { x = neg_ℤ by.x; y = neg_ℤ by.y }) }
{
    let x = opposite(by.x);
    let y = opposite(by.y);
    rect.shift(Point { x, y })
}

/// The places of a layer of the tree whose tiles are seen at these offsets, by row and then by column:
/// those whose screen rect, the layer's clip and the viewport have a common pixel, if no effect in the
/// layer's chain is 0. Each offset is from 0 to 1048576 on both axes, and both sides of the layer are 1
/// to 16384. An error means out of memory.
pub fn visible_places(
    alloc: Global,
    tree: &LayerTree,
    offsets: &Offsets,
    layer: &Layer,
) -> Result<Vec<Place>, AllocError>
    requires offsets { AreOffsets (offset_at offsets.now) }
    requires wide { IsLayerSide layer.now.w }
    requires tall { IsLayerSide layer.now.h }
    ensures { IfOk result (λ places. places.items ≡ spec.visible_places tree.now (offset_at offsets.now) (parts_of layer.now)) }
{
    tree.is_page();
    let props = tree.props();
    if !props.draws(layer.effect) {
        return Ok(Vec::new(alloc));
    }
    let grid = grid_of(tree, layer);
    let clip = clip_in(tree, offsets, layer);
    let by = props.translation(layer.transform, offsets);
    grid.places_touching(alloc, moved_back(clip, by))
}

// Adds the keys of these places of a layer.
fn push_keys(keys: &mut Keys, layer: u32, places: &[Place], stamp: u32) -> Result<(), AllocError>
    ensures { OnOk result (keys.new ≡ keys.old ++ map (spec.key_at (λ _ _. stamp) layer) places.now) }
{
    for place in places {
        let key = TileKey {
            layer,
            x: place.x,
            y: place.y,
            stamp,
        };
        if let Err((full, _)) = keys.push(key) {
            return Err(full);
        }
    }
    Ok(())
}

// The keys of the seen places of these layers, in their order.
fn keys_of(
    alloc: Global,
    tree: &LayerTree,
    offsets: &Offsets,
    layers: &[OrderedLayer<'_>],
    stamp: u32,
) -> Result<Keys, AllocError>
    requires offsets { AreOffsets (offset_at offsets.now) }
    requires sizes { All (λ o. IsLayerSide o.layer.now.w × IsLayerSide o.layer.now.h) layers.now }
    ensures { IfOk result (λ keys. keys ≡ flat_map (λ l. map (spec.key_at (λ _ _. stamp) l.id) (spec.visible_places tree.now (offset_at offsets.now) l)) (map (λ o. parts_of o.layer.now) layers.now)) }
{
    let mut keys = Keys::new(alloc);
    for one in layers {
        let places = visible_places(alloc, tree, offsets, one.layer)?;
        push_keys(&mut keys, one.layer.id, places.as_slice(), stamp)?;
    }
    Ok(keys)
}

/// The keys of all places of the tree whose tiles are seen at these offsets, with this stamp, in key
/// order. Each offset is from 0 to 1048576 on both axes. An error means out of memory.
#[tactic(auto, unfolding(crate::specs::Visible::visible_keys))]
pub fn visible_keys(
    alloc: Global,
    tree: &LayerTree,
    offsets: &Offsets,
    stamp: u32,
) -> Result<Keys, AllocError>
    requires { AreOffsets (offset_at offsets.now) }
    ensures { IfOk result (λ keys. keys ≡ spec.visible_keys tree.now (offset_at offsets.now) (λ _ _. stamp)) }
{
    let layers = tree.layers();
    tree.are_sized(layers);
    let order = by_id(alloc, layers)?;
    keys_of(alloc, tree, offsets, order.as_slice(), stamp)
}
