//! A tree that is asked for single keys.

ghost use Rattle.std.specs.Prelude.{◌≡◌, ◌==◌, ◌&&◌, IfSome, option_map};
ghost use Rattle.std.specs.List.{find};
ghost use Rattle.geom.specs.Covers.{IsSound};
ghost use Rattle.geom.specs.Grids.{has};
ghost use Rattle.geom.specs.KeyLists.{has_key};
ghost use Rattle.geom.specs.Sides.{IsLayerSide};
ghost use Rattle.page_properties.specs.OffsetMap.{offset_at, AreOffsets};
ghost use Rattle.page_layers.specs.Layers.{has_id, parts_of};
ghost use Rattle.tile_tiling.specs.Tiles.{stamp_at};
ghost use Rattle.tile_priority.specs.Tiles.{IsRankOfKey};
ghost use Rattle.tile_visible.specs.Visible as visible;
ghost use Rattle.model_history.specs.Tiles.{Tree, keys_of};
ghost use Rattle.model_history.specs.Ranking as ranking;
ghost use Rattle.model_history.specs.Ranking.{place_named};
ghost use Rattle.impl_ranks.specs.SeenTrees.{AreCut, IsPlaced};
ghost use Rattle.impl_ranks.specs.inner.Lists as spec;
ghost use Rattle.impl_ranks.specs.inner.Lists.{Found};
ghost use Rattle.impl_ranks.specs.inner.Stamped.{stamped};

use crate::found::{borders, rank_on};
use crate::layer::SeenLayer;
use geom::{Place, TileKey};
use model_history::Plan;
use page_layers::{Layer, LayerTree};
use page_properties::Offsets;
use std::marker::Model;
use tile_priority::{Borders, Rank, Side};
use tile_tiling::Tiling;
use tile_visible::grid_of;

/// A page at given offsets of its scrollers, with the stamps of its places, which is asked for single keys.
/// It takes no memory: where a layer stands on the screen is found at each question that asks for it. For many keys there
/// is [`SeenTree`](crate::SeenTree), which finds it once for each layer.
#[derive(Drop)]
pub struct PlacedTree<'a> {
    page: &'a LayerTree,
    // In the order of the page's layers.
    tilings: &'a [Tiling],
    offsets: &'a Offsets,
}

impl<'a> Model for PlacedTree<'a> {
    ghost use Rattle.page_properties.specs.OffsetMap.{offset_at, AreOffsets};
    ghost use Rattle.impl_ranks.specs.SeenTrees.{AreCut, PlacedModel};

    ghost Value = { PlacedModel };

    ghost view = { λ t. record { page = t.page.now; offsets = t.offsets.now; tilings = t.tilings.now } };

    ghost invariant = { λ t. AreOffsets (offset_at t.offsets.now) × AreCut t.page.now t.tilings.now };
}

impl<'a> PlacedTree<'a> {
    /// The page at these offsets, each of which is from 0 to 1048576 on both axes, with a tiling for each of
    /// its layers in their order.
    pub fn new(page: &'a LayerTree, tilings: &'a [Tiling], offsets: &'a Offsets) -> PlacedTree<'a>
        requires offsets { AreOffsets (offset_at offsets.now) }
        requires cut { AreCut page.now tilings.now }
        ensures { result ≡ record { page = page.now; offsets = offsets.now; tilings = tilings.now } }
    {
        PlacedTree {
            page,
            tilings,
            offsets,
        }
    }

    // The layer of an id, with the stamps of its places.
    fn layer(&self, id: u32) -> Option<(&'a Layer, &'a Tiling)>
        ensures found { (t : Tree) → IsPlaced t self.now → Found t id (find (has_id id) t.page.layers) (option_map (λ f. stamped self.now.page (offset_at self.now.offsets) (parts_of f.0.now) f.1.now) result) }
        ensures sized { IfSome result (λ f. IsLayerSide f.0.now.w × IsLayerSide f.0.now.h) }
        ensures cut { IfSome result (λ f. f.1.now.grid ≡ visible.grid_of self.now.page (parts_of f.0.now)) }
    {
        let tilings = self.tilings;
        let layers = self.page.layers();
        self.page.are_sized(layers);
        for i in 0..layers.len() {
            let layer = &layers[i];
            if layer.id == id {
                return Some((layer, &tilings[i]));
            }
        }
        None
    }

    /// Whether it has a key.
    pub fn has(&self, key: TileKey) -> bool
        ensures { (t : Tree) → IsPlaced t self.now → result ≡ has_key (keys_of t) key }
    {
        self.page.is_page();
        let found = self.layer(key.layer);
        has_stamped(self.page, self.offsets, found, key)
    }

    /// The rank of a key in the tree of this side; None exactly if the tree lacks the key, or its tile
    /// has no bin.
    pub fn rank(&self, plan: &Plan, side: Side, key: TileKey) -> Option<Rank>
        ensures value { (t : Tree) → IsPlaced t self.now → result ≡ ranking.rank_in plan.now side t key }
        ensures of_key { IsRankOfKey key result }
    {
        self.page.is_page();
        let found = self.layer(key.layer);
        let borders = borders(plan, self.page);
        rank_stamped(self.page, self.offsets, &borders, side, found, key)
    }
}

// Whether a layer has a key: one of its places with its stamp.
fn has_in(page: &LayerTree, layer: &Layer, tiling: &Tiling, key: TileKey) -> bool
    requires sized { IsLayerSide layer.now.w × IsLayerSide layer.now.h }
    requires cut { tiling.now.grid ≡ visible.grid_of page.now (parts_of layer.now) }
    ensures { result ≡ (has (visible.grid_of page.now (parts_of layer.now)) (place_named key) && (stamp_at tiling.now (place_named key) == key.stamp)) }
{
    let place = Place { x: key.x, y: key.y };
    grid_of(page, layer).has(place) && tiling.key_at(layer.id, place).stamp == key.stamp
}

// Whether a layer that may be missing has a key. It is not asked where the layer stands on the screen.
fn has_stamped(
    page: &LayerTree,
    offsets: &Offsets,
    found: Option<(&Layer, &Tiling)>,
    key: TileKey,
) -> bool
    requires sized { IfSome found (λ f. IsLayerSide f.0.now.w × IsLayerSide f.0.now.h) }
    requires cut { IfSome found (λ f. f.1.now.grid ≡ visible.grid_of page.now (parts_of f.0.now)) }
    ensures { result ≡ spec.has_on (option_map (λ f. stamped page.now (offset_at offsets.now) (parts_of f.0.now) f.1.now) found.entry) key }
{
    // The contract alone speaks of the offsets.
    let _ = offsets;
    match found {
        None => false,
        Some((layer, tiling)) => has_in(page, layer, tiling, key),
    }
}

// The rank that a layer gives a key, which it has.
fn rank_of(
    page: &LayerTree,
    offsets: &Offsets,
    borders: &Borders,
    side: Side,
    layer: &Layer,
    tiling: &Tiling,
    key: TileKey,
) -> Option<Rank>
    requires viewport { IsSound borders.now.viewport }
    requires offsets { AreOffsets (offset_at offsets.now) }
    requires sized { IsLayerSide layer.now.w × IsLayerSide layer.now.h }
    requires cut { tiling.now.grid ≡ visible.grid_of page.now (parts_of layer.now) }
    ensures { result ≡ spec.layer_rank borders.now side (stamped page.now (offset_at offsets.now) (parts_of layer.now) tiling.now) key }
{
    let seen = SeenLayer::new(page, offsets, layer, tiling);
    rank_on(borders, side, Some(&seen), key)
}

// The rank that a layer that may be missing gives a key. Where it stands on the screen is found only if it has
// the key.
fn rank_stamped(
    page: &LayerTree,
    offsets: &Offsets,
    borders: &Borders,
    side: Side,
    found: Option<(&Layer, &Tiling)>,
    key: TileKey,
) -> Option<Rank>
    requires viewport { IsSound borders.now.viewport }
    requires offsets { AreOffsets (offset_at offsets.now) }
    requires sized { IfSome found (λ f. IsLayerSide f.0.now.w × IsLayerSide f.0.now.h) }
    requires cut { IfSome found (λ f. f.1.now.grid ≡ visible.grid_of page.now (parts_of f.0.now)) }
    ensures { result ≡ spec.rank_on_layer borders.now side (option_map (λ f. stamped page.now (offset_at offsets.now) (parts_of f.0.now) f.1.now) found.entry) key }
{
    match found {
        None => None,
        Some((layer, tiling)) => {
            if has_in(page, layer, tiling, key) {
                rank_of(page, offsets, borders, side, layer, tiling, key)
            } else {
                None
            }
        }
    }
}
