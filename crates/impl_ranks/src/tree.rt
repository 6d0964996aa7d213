//! A tree as its tiles are seen.

ghost use Rattle.std.specs.Prelude.{◌≡◌, ◌++◌, not, map, filter, IfOk, OnOk};
ghost use Rattle.std.specs.List.{flat_map};
ghost use Rattle.page_layers.specs.Layers.{parts_of};
ghost use Rattle.geom.specs.KeyLists as key_lists;
ghost use Rattle.page_properties.specs.OffsetMap.{offset_at, AreOffsets};
ghost use Rattle.model_history.specs.Tiles.{Tree, keys_of, visible_in};
ghost use Rattle.model_history.specs.Ranking as ranking;
ghost use Rattle.impl_ranks.specs.SeenTrees.{AreCut, IsTiled, IsSeenTree};
ghost use Rattle.impl_ranks.specs.inner.Lists as spec;

use crate::found::{borders, has_on, rank_on};
use crate::layer::{SeenLayer, layer_at};
use crate::run::LayerRun;
use geom::{Keys, TileKey};
use model_history::Plan;
use page_layers::LayerTree;
use page_properties::Offsets;
use std::alloc::{AllocError, Global};
use std::marker::Model;
use tile_priority::{Rank, Side};
use tile_tiling::Tiling;
use tile_visible::{OrderedLayer, by_id};

/// A page at given offsets of its scrollers, with the stamps of its places: what the ranks of its tiles
/// follow from. It holds for each layer where it stands on the screen.
#[derive(Drop)]
pub struct SeenTree<'a> {
    page: &'a LayerTree,
    // In the order of the page's layers.
    layers: Vec<SeenLayer<'a>>,
}

impl<'a> Model for SeenTree<'a> {
    ghost use Rattle.impl_ranks.specs.SeenTrees.{SeenTreeModel};

    ghost Value = { SeenTreeModel };

    ghost view = { λ t. record { page = t.page.now; layers = t.layers.items } };
}

// The layers of a page at these offsets.
fn layers_of<'a>(
    alloc: Global,
    page: &LayerTree,
    tilings: &'a [Tiling],
    offsets: &Offsets,
) -> Result<Vec<SeenLayer<'a>>, AllocError>
    requires offsets { AreOffsets (offset_at offsets.now) }
    requires cut { AreCut page.now tilings.now }
    ensures { IfOk result (λ layers. spec.AreSeen page.now (offset_at offsets.now) page.now.layers tilings.now layers.items) }
{
    let all = page.layers();
    page.are_sized(all);
    let mut layers = Vec::with_capacity(alloc, all.len())?;
    for i in 0..all.len() {
        layers.push(SeenLayer::new(page, offsets, &all[i], &tilings[i]))?;
    }
    Ok(layers)
}

impl<'a> SeenTree<'a> {
    /// The page at these offsets, each of which is from 0 to 1048576 on both axes, with a tiling for each of
    /// its layers in their order. An error means out of memory.
    pub fn new(
        alloc: Global,
        page: &'a LayerTree,
        tilings: &'a [Tiling],
        offsets: &Offsets,
    ) -> Result<SeenTree<'a>, AllocError>
        requires offsets { AreOffsets (offset_at offsets.now) }
        requires cut { AreCut page.now tilings.now }
        ensures { IfOk result (λ tree. (t : Tree) → IsTiled t page.now (offset_at offsets.now) tilings.now → IsSeenTree t tree) }
    {
        let layers = layers_of(alloc, page, tilings, offsets)?;
        Ok(SeenTree { page, layers })
    }

    /// The page.
    pub(crate) fn page(&self) -> &'a LayerTree
        ensures { result.now ≡ self.now.page }
    {
        self.page
    }

    /// Its layers.
    pub(crate) fn layers(&self) -> &[SeenLayer<'a>]
        ensures { result.now ≡ self.now.layers }
    {
        self.layers.as_slice()
    }

    // Whether one of its layers has a key.
    fn layers_have(&self, key: TileKey) -> bool
        ensures { result ≡ spec.seen_has self.now.layers key }
    {
        has_on(layer_at(self.layers.as_slice(), key.layer), key)
    }

    /// Whether it has a key.
    pub fn has(&self, key: TileKey) -> bool
        ensures { (t : Tree) → IsSeenTree t self.now → result ≡ key_lists.has_key (keys_of t) key }
    {
        self.page.is_page();
        self.layers_have(key)
    }

    /// Those of the keys that it lacks, in their order. An error means out of memory.
    pub fn lacked(&self, alloc: Global, keys: &Keys) -> Result<Keys, AllocError>
        ensures { IfOk result (λ lacked. (t : Tree) → IsSeenTree t self.now → lacked ≡ filter (λ q. not (key_lists.has_key (keys_of t) q)) keys.now) }
    {
        self.page.is_page();
        keys_off(alloc, self.layers.as_slice(), keys.as_slice())
    }

    /// The rank that one of its layers gives a key.
    pub(crate) fn layers_rank(&self, plan: &Plan, side: Side, key: TileKey) -> Option<Rank>
        ensures { result ≡ spec.seen_rank (ranking.borders plan.now self.now.page) side self.now.layers key }
    {
        let layer = layer_at(self.layers.as_slice(), key.layer);
        rank_on(&borders(plan, self.page), side, layer, key)
    }

    /// The keys of its visible tiles, in key order. An error means out of memory.
    pub fn visible(&self, alloc: Global) -> Result<Keys, AllocError>
        ensures { IfOk result (λ keys. (t : Tree) → IsSeenTree t self.now → keys ≡ visible_in t) }
    {
        self.page.is_page();
        let all = self.page.layers();
        self.page.are_sized(all);
        let order = by_id(alloc, all)?;
        visible_keys(alloc, self.layers.as_slice(), order.as_slice())
    }
}

// Those of the keys that none of the layers has, in their order. Keys of one layer stand together, so that it is
// looked for once.
fn keys_off(alloc: Global, layers: &[SeenLayer<'_>], keys: &[TileKey]) -> Result<Keys, AllocError>
    ensures { IfOk result (λ lacked. lacked ≡ filter (λ q. not (spec.seen_has layers.now q)) keys.now) }
{
    let mut lacked = Keys::new(alloc);
    let mut run = LayerRun::new(layers);
    for key in keys {
        if !run.has(*key) {
            if let Err((full, _)) = lacked.push(*key) {
                return Err(full);
            }
        }
    }
    Ok(lacked)
}

// The keys of the visible tiles of layers, in the order of these.
fn visible_keys(
    alloc: Global,
    layers: &[SeenLayer<'_>],
    order: &[OrderedLayer<'_>],
) -> Result<Keys, AllocError>
    ensures { IfOk result (λ keys. keys ≡ flat_map (spec.visible_at layers.now) (map (λ o. parts_of o.layer.now) order.now)) }
{
    let mut keys = Keys::new(alloc);
    for one in order {
        push_visible(alloc, layers, one.layer.id, &mut keys)?;
    }
    Ok(keys)
}

// The keys of the visible tiles of the layer of an id, after those before.
fn push_visible(
    alloc: Global,
    layers: &[SeenLayer<'_>],
    id: u32,
    keys: &mut Keys,
) -> Result<(), AllocError>
    ensures { OnOk result (keys.new ≡ keys.old ++ spec.visible_on (spec.layer_at id layers.now)) }
{
    match layer_at(layers, id) {
        None => Ok(()),
        Some(layer) => layer.push_visible(alloc, keys),
    }
}
