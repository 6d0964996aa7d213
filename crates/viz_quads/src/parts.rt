//! The layers of a page, each with its groups and its own quads.

ghost use Rattle.std.specs.Prelude.{◌≡◌, ◌≤◌, Some, find, map, length, All, IfOk};
ghost use Rattle.geom.specs.Sides.{IsLayerSide};
ghost use Rattle.page_properties.specs.OffsetMap.{offset_at, AreOffsets};
ghost use Rattle.page_layers.specs.Layers.{parts_of, has_id};
ghost use Rattle.page_layers.specs.TreePainting.{groups_in, opacity_in};
ghost use Rattle.viz_quads.specs.ShownTiles.{tile_of, AreShownTiles};
ghost use Rattle.viz_quads.specs.inner.Joins.{ActAs};
ghost use Rattle.viz_quads.specs.inner.LayerQuads.{layer_quads};
ghost use Rattle.viz_quads.specs.inner.Passes.{groups_of, own_quads, HaveQuads, HaveOpacities};

use crate::layer_quads::{quads_on, spot_of};
use crate::shown_tile::ShownTile;
use page_layers::{Group, Layer, LayerTree};
use page_properties::Offsets;
use std::alloc::{AllocError, Global};
use viz_scene::Quad;

/// A layer's share of a scene.
#[derive(Drop)]
pub(crate) struct LayerParts {
    /// The effects below 255 that the layer lies in, the outermost first.
    pub groups: Vec<Group>,
    /// The layer's own quads.
    pub quads: Vec<Quad>,
}

// The share of one layer of the tree.
fn parts_in(
    alloc: Global,
    tree: &LayerTree,
    offsets: &Offsets,
    shown: &[ShownTile],
    layer: &Layer,
) -> Result<LayerParts, AllocError>
    requires offsets { AreOffsets (offset_at offsets.now) }
    requires right { AreShownTiles tree.now (offset_at offsets.now) (map tile_of shown.now) }
    requires there { find (has_id layer.now.id) tree.now.layers ≡ Some (parts_of layer.now) }
    requires sized { IsLayerSide layer.now.w × IsLayerSide layer.now.h }
    ensures groups { IfOk result (λ parts. groups_of parts ≡ groups_in tree.now.props.effects layer.now.effect) }
    ensures opacities { IfOk result (λ parts. All (λ g. opacity_in tree.now.props.effects g.effect ≡ g.opacity) parts.groups.items) }
    ensures few { IfOk result (λ parts. length parts.groups.items ≤ 256) }
    ensures quads { IfOk result (λ parts. ActAs (own_quads parts) (layer_quads tree.now (offset_at offsets.now) (map tile_of shown.now) (parts_of layer.now))) }
{
    tree.is_page();
    let props = tree.props();
    props.are_trees();
    let groups = page_layers::groups_of(alloc, props, layer.effect)?;
    let spot = spot_of(tree, offsets, layer);
    let quads = quads_on(alloc, &spot, layer.id, shown)?;
    Ok(LayerParts { groups, quads })
}

/// The share of each layer of the tree, in the order of painting. The offsets are from 0 to 1048576 on both
/// axes. An error means out of memory.
pub(crate) fn layer_parts(
    alloc: Global,
    tree: &LayerTree,
    offsets: &Offsets,
    shown: &[ShownTile],
) -> Result<Vec<LayerParts>, AllocError>
    requires offsets { AreOffsets (offset_at offsets.now) }
    requires right { AreShownTiles tree.now (offset_at offsets.now) (map tile_of shown.now) }
    ensures groups { IfOk result (λ parts. map groups_of parts.items ≡ map (λ l. groups_in tree.now.props.effects l.effect) tree.now.layers) }
    ensures opacities { IfOk result (λ parts. HaveOpacities (opacity_in tree.now.props.effects) parts.items) }
    ensures few { IfOk result (λ parts. All (λ l. length l.groups.items ≤ 256) parts.items) }
    ensures quads { IfOk result (λ parts. HaveQuads (map (layer_quads tree.now (offset_at offsets.now) (map tile_of shown.now)) tree.now.layers) parts.items) }
{
    tree.is_page();
    let layers = tree.layers();
    tree.are_sized(layers);
    let mut parts = Vec::new(alloc);
    for layer in layers {
        parts.push(parts_in(alloc, tree, offsets, shown, layer)?)?;
    }
    Ok(parts)
}
