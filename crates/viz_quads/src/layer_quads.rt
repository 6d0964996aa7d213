//! The quads of one layer, which show its tiles.

ghost use Rattle.std.specs.Prelude.{◌≡◌, ◌==◌, ◌*◌, ◌-ℤ◌, ◌∷◌, [], FitsSigned, IsTrue, IfOk, All, map, filter};
ghost use Rattle.std.specs.List.Sorted.{IsNonDecreasingBy};
ghost use mir.Syntax.{w32};
ghost use Rattle.geom.specs.Covers.{IsSound};
ghost use Rattle.geom.specs.Grids.{has};
ghost use Rattle.geom.specs.Sides.{IsLayerSide};
ghost use Rattle.page_properties.specs.OffsetMap.{offset_at, AreOffsets};
ghost use Rattle.page_layers.specs.Layers.{parts_of};
ghost use Rattle.viz_scene.specs.Views.{tiled, quad_view, quads_view};
ghost use Rattle.viz_quads.specs.ShownTiles.{tile_of, place_of_tile};
ghost use Rattle.viz_quads.specs.inner.Joins.{ActAs};
ghost use Rattle.viz_quads.specs.inner.LayerQuads as spec;

use crate::joining::add_quad;
use crate::shown_tile::ShownTile;
use geom::{Grid, Place, Point, Rect};
use page_layers::{Layer, LayerTree};
use page_properties::Offsets;
use pixel::Colour;
use std::alloc::{AllocError, Global};
use std::marker::Model;
use std::sync::Arc;
use tile_raster::TileImage;
use tile_visible::{clip_in, grid_of, moved_place};
use viz_scene::Quad;

/// Where a layer lies on the screen.
#[derive(Drop)]
pub(crate) struct LayerSpot {
    // Its tiles.
    grid: Grid,
    // How far it is moved.
    by: Point,
    // The part of the viewport that its clip lets through.
    clip: Rect,
    // What is drawn if a tile is missing.
    colour: Colour,
}

impl Model for LayerSpot {
    ghost use Rattle.std.specs.Prelude.{◌*◌};
    ghost use Rattle.geom.specs.Covers.{IsSound};
    ghost use Rattle.page_properties.specs.Placement.{IsWithin};
    ghost use Rattle.viz_quads.specs.inner.LayerQuads.{Spot};

    ghost Value = { Spot };

    ghost view = { λ s. record { grid = s.grid; by = s.by; clip = s.clip; colour = s.colour } };

    ghost invariant = { λ s. IsSound s.clip × IsWithin (256 * 1114112) s.by };
}

/// Where a layer of a tree lies at these offsets, each of which is from 0 to 1048576 on both axes. Both
/// sides of the layer are 1 to 16384.
pub(crate) fn spot_of(tree: &LayerTree, offsets: &Offsets, layer: &Layer) -> LayerSpot
    requires offsets { AreOffsets (offset_at offsets.now) }
    requires wide { IsLayerSide layer.now.w }
    requires tall { IsLayerSide layer.now.h }
    ensures { result ≡ spec.spot_of tree.now (offset_at offsets.now) (parts_of layer.now) }
{
    let by = tree.props().translation(layer.transform, offsets);
    LayerSpot {
        grid: grid_of(tree, layer),
        by,
        clip: clip_in(tree, offsets, layer),
        colour: layer.colour,
    }
}

// How far one coordinate lies from another.
fn beyond(at: i32, start: i32) -> i32
    requires { FitsSigned w32 (at -ℤ start) }
    ensures { result ≡ at -ℤ start }
{
    at - start
}

// How far the corner of a part lies from that of the whole.
fn corner(part: Rect, whole: Rect) -> Point
    requires part { IsSound part }
    requires whole { IsSound whole }
    ensures { result ≡ spec.corner part whole }
{
    let x = beyond(part.x, whole.x);
    let y = beyond(part.y, whole.y);
    Point { x, y }
}

// The part of an image from a pixel on, as a plain rect if the image has one colour.
#[tactic(auto, using(crate::proofs::Acts::act_plain, crate::proofs::Acts::act_same))]
fn part_of(image: &Arc<TileImage>, at: Rect, from: Point) -> Result<Quad, AllocError>
    ensures { IfOk result (λ quad. ActAs (quad_view quad ∷ []) (tiled image.now.value at from ∷ [])) }
{
    match image.solid() {
        Some(colour) => Ok(Quad::Solid { at, colour }),
        None => {
            let image = Arc::try_clone(image)?;
            Ok(Quad::Tile { image, at, from })
        }
    }
}

// The part of a tile that is drawn, or the layer's colour there if the tile is missing.
#[tactic(auto, using(crate::proofs::Acts::act_same))]
fn quad_of(spot: &LayerSpot, shown: &ShownTile) -> Result<Quad, AllocError>
    requires { IsTrue (has spot.now.grid (place_of_tile (tile_of shown.now))) }
    ensures { IfOk result (λ quad. ActAs (quad_view quad ∷ []) (spec.quad_of spot.now (tile_of shown.now) ∷ [])) }
{
    let place = Place {
        x: shown.key.x,
        y: shown.key.y,
    };
    let whole = moved_place(spot.grid, place, spot.by);
    let at = whole.intersect(spot.clip);
    let from = corner(at, whole);
    match &shown.image {
        None => Ok(Quad::Solid {
            at,
            colour: spot.colour,
        }),
        Some(image) => part_of(image, at, from),
    }
}

// The tiles of the layer with this id.
fn tiles_on(shown: &[ShownTile], id: u32) -> &[ShownTile]
    requires { IsNonDecreasingBy (λ s. s.key.layer) shown.now }
    ensures { result.now ≡ filter (λ s. s.key.layer == id) shown.now }
{
    let (_, rest) = shown.split_at(shown.partition_point(|tile| tile.key.layer < id));
    let (own, _) = rest.split_at(rest.partition_point(|tile| tile.key.layer <= id));
    own
}

// Quads that show these tiles of one layer.
fn quads_at(alloc: Global, spot: &LayerSpot, tiles: &[ShownTile]) -> Result<Vec<Quad>, AllocError>
    requires { All (λ s. IsTrue (has spot.now.grid (place_of_tile (tile_of s)))) tiles.now }
    ensures { IfOk result (λ quads. ActAs (quads_view quads.items) (map (spec.quad_of spot.now) (map tile_of tiles.now))) }
{
    let mut quads = Vec::new(alloc);
    for tile in tiles {
        add_quad(&mut quads, quad_of(spot, tile)?)?;
    }
    Ok(quads)
}

/// Quads that show the tiles of the layer with this id, which lies so; tiles of one colour that are
/// neighbours make one quad. The tiles stand by rising layer, and those of this layer are looked up among
/// them: the work grows with the logarithm of their number, and with the number of the layer's own. The
/// layer's grid is to have the places of its tiles. An error means out of memory.
pub(crate) fn quads_on(
    alloc: Global,
    spot: &LayerSpot,
    id: u32,
    shown: &[ShownTile],
) -> Result<Vec<Quad>, AllocError>
    requires order { IsNonDecreasingBy (λ s. s.key.layer) shown.now }
    requires there { All (λ s. s.key.layer ≡ id → IsTrue (has spot.now.grid (place_of_tile (tile_of s)))) shown.now }
    ensures { IfOk result (λ quads. ActAs (quads_view quads.items) (spec.quads_on spot.now id (map tile_of shown.now))) }
{
    quads_at(alloc, spot, tiles_on(shown, id))
}
