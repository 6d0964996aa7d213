//! All tiles of a page that are shown, made anew.

ghost use Rattle.std.specs.Prelude.{◌≡◌, ◌++◌, ◌*◌, [], map, flat_map, All, IfOk, OnOk, IsTrue};
ghost use Rattle.geom.specs.Grids.{has};
ghost use Rattle.geom.specs.Sides.{IsLayerSide};
ghost use Rattle.page_properties.specs.OffsetMap.{offset_at, AreOffsets};
ghost use Rattle.page_layers.specs.Layers.{parts_of};
ghost use Rattle.tile_visible.specs.Visible as visible;
ghost use Rattle.viz_quads.specs.ShownTiles.{tile_of, missing_keys, AreShownTiles};
ghost use Rattle.viz_quads.specs.Made as spec;

use crate::shown_tile::ShownTile;
use geom::{Place, TileKey};
use page_layers::{Layer, LayerTree};
use page_properties::Offsets;
use std::alloc::{AllocError, Global};
use std::sync::Arc;
use tile_raster::Job;
use tile_visible::{OrderedLayer, by_id, grid_of, visible_places};

// The tile of a place of the layer.
fn made(
    alloc: Global,
    tree: &LayerTree,
    layer: &Layer,
    place: Place,
) -> Result<ShownTile, AllocError>
    requires sized { IsLayerSide layer.now.w × IsLayerSide layer.now.h }
    requires there { IsTrue (has (visible.grid_of tree.now (parts_of layer.now)) place) }
    ensures { IfOk result (λ tile. tile_of tile ≡ spec.made_tile tree.now (parts_of layer.now) place) }
{
    let key = TileKey {
        layer: layer.id,
        x: place.x,
        y: place.y,
        stamp: 0,
    };
    let list = Arc::try_clone(&layer.list)?;
    let rect = grid_of(tree, layer).rect_of(place);
    let job = Job { key, list, rect };
    match job.run(alloc) {
        Ok(image) => Ok(ShownTile {
            key,
            image: Some(image),
        }),
        Err((full, _)) => Err(full),
    }
}

// Adds the tiles of these places of the layer.
fn push_made(
    tiles: &mut Vec<ShownTile>,
    alloc: Global,
    tree: &LayerTree,
    layer: &Layer,
    places: &[Place],
) -> Result<(), AllocError>
    requires sized { IsLayerSide layer.now.w × IsLayerSide layer.now.h }
    requires there { All (λ q. IsTrue (has (visible.grid_of tree.now (parts_of layer.now)) q)) places.now }
    ensures { OnOk result (map tile_of tiles.new.items ≡ map tile_of tiles.old.items ++ map (spec.made_tile tree.now (parts_of layer.now)) places.now) }
{
    for place in places {
        tiles.push(made(alloc, tree, layer, *place)?)?;
    }
    Ok(())
}

// The tiles of these layers that are shown, in the order of the layers.
fn made_in(
    alloc: Global,
    tree: &LayerTree,
    offsets: &Offsets,
    layers: &[OrderedLayer<'_>],
) -> Result<Vec<ShownTile>, AllocError>
    requires offsets { AreOffsets (offset_at offsets.now) }
    requires sizes { All (λ o. IsLayerSide o.layer.now.w × IsLayerSide o.layer.now.h) layers.now }
    ensures { IfOk result (λ tiles. map tile_of tiles.items ≡ flat_map (spec.made_of tree.now (offset_at offsets.now)) (map (λ o. parts_of o.layer.now) layers.now)) }
{
    let mut tiles = Vec::new(alloc);
    for one in layers {
        let places = visible_places(alloc, tree, offsets, one.layer)?;
        push_made(&mut tiles, alloc, tree, one.layer, places.as_slice())?;
    }
    Ok(tiles)
}

/// Makes all tiles that a tree shows at these offsets, in key order, with the stamp 0. Each offset is from 0
/// to 1048576 on both axes. An error means out of memory.
pub fn make_all(
    alloc: Global,
    tree: &LayerTree,
    offsets: &Offsets,
) -> Result<Vec<ShownTile>, AllocError>
    requires { AreOffsets (offset_at offsets.now) }
    ensures tiles { IfOk result (λ tiles. map tile_of tiles.items ≡ spec.all_made tree.now (offset_at offsets.now)) }
    ensures right { IfOk result (λ tiles. AreShownTiles tree.now (offset_at offsets.now) (map tile_of tiles.items)) }
    ensures whole { IfOk result (λ tiles. missing_keys (map tile_of tiles.items) ≡ []) }
{
    tree.is_page();
    let layers = tree.layers();
    tree.are_sized(layers);
    let order = by_id(alloc, layers)?;
    made_in(alloc, tree, offsets, order.as_slice())
}
