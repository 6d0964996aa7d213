//! A layer as its tiles are seen.

ghost use Rattle.std.specs.Prelude.{◌≡◌, ◌*◌, ◌++◌, neg_ℤ, true, map, IsTrue, IfOk, OnOk, All, FitsSigned, option_copied};
ghost use mir.Syntax.{w32};
ghost use Rattle.geom.specs.Covers.{IsSound};
ghost use Rattle.geom.specs.Gaps.{shifted};
ghost use Rattle.geom.specs.Grids as grids;
ghost use Rattle.geom.specs.Grids.{places_touching};
ghost use Rattle.geom.specs.Sides.{IsLayerSide};
ghost use Rattle.page_properties.specs.OffsetMap.{offset_at, AreOffsets};
ghost use Rattle.page_properties.specs.Placement.{IsWithin};
ghost use Rattle.page_layers.specs.Layers.{parts_of};
ghost use Rattle.tile_tiling.specs.Tiles.{key_of};
ghost use Rattle.tile_visible.specs.Visible as visible;
ghost use Rattle.impl_ranks.specs.SeenTrees.{IsSeenIn};
ghost use Rattle.impl_ranks.specs.inner.Lists.{back, layer_at, layer_has, tile_seen, visible_of, IsArea};
ghost use Rattle.impl_ranks.specs.inner.Pairs.{StandAlike};

use geom::{Grid, Keys, Place, Point, Rect, TileKey};
use page_layers::{Layer, LayerTree};
use page_properties::Offsets;
use std::alloc::{AllocError, Global};
use std::marker::Model;
use tile_priority::Seen;
use tile_tiling::Tiling;
use tile_visible::{clip_in, grid_of, moved_place};

/// A layer as its tiles are seen.
#[derive(Drop)]
pub(crate) struct SeenLayer<'a> {
    // Its number.
    id: u32,
    // How it is cut.
    grid: Grid,
    // How many columns and rows that makes.
    columns: u32,
    rows: u32,
    // How far it is moved on the screen.
    by: Point,
    // Its clip, cut by the viewport.
    clip: Rect,
    // The clip, moved back to the layer.
    clip_inside: Rect,
    // No effect of its chain has opacity 0.
    draws: bool,
    // The stamps of its places.
    tiling: &'a Tiling,
}

impl<'a> Model for SeenLayer<'a> {
    ghost use Rattle.std.specs.Prelude.{◌≡◌, ◌*◌};
    ghost use Rattle.geom.specs.Covers.{IsSound};
    ghost use Rattle.geom.specs.Gaps.{shifted};
    ghost use Rattle.geom.specs.Grids.{tiles};
    ghost use Rattle.page_properties.specs.Placement.{IsWithin};
    ghost use Rattle.impl_ranks.specs.SeenTrees.{SeenLayerModel};
    ghost use Rattle.impl_ranks.specs.inner.Lists.{back};

    ghost Value = { SeenLayerModel };

    ghost view = { λ l. record { id = l.id; grid = l.grid; by = l.by; clip = l.clip; draws = l.draws; stamps = l.tiling.now } };

    ghost invariant = { λ l. IsWithin (256 * 1114112) l.by × IsSound l.clip × IsSound l.clip_inside × (l.clip_inside ≡ shifted l.clip (back l.by)) × (l.tiling.now.grid ≡ l.grid) × (l.columns ≡ tiles l.grid.w l.grid.tile) × (l.rows ≡ tiles l.grid.h l.grid.tile) };
}

// The opposite of a number.
fn opposite(n: i32) -> i32
    requires { FitsSigned w32 (neg_ℤ n) }
    ensures { result ≡ neg_ℤ n }
{
    -n
}

// A rect, moved back.
fn moved_back(rect: Rect, by: Point) -> Rect
    requires sound { IsSound rect }
    requires near { IsWithin (256 * 1114112) by }
    requires result_sound { IsSound (shifted rect (back by)) }
    ensures value { result ≡ shifted rect (back by) }
    ensures sound { IsSound result }
{
    shifted_back(rect, by)
}

// The same, without saying that the result is sound.
fn shifted_back(rect: Rect, by: Point) -> Rect
    requires sound { IsSound rect }
    requires near { IsWithin (256 * 1114112) by }
    requires result_sound { IsSound (shifted rect (back by)) }
    ensures { result ≡ shifted rect (back by) }
{
    let x = opposite(by.x);
    let y = opposite(by.y);
    rect.shift(Point { x, y })
}

impl<'a> SeenLayer<'a> {
    /// A layer of a page at these offsets, with the stamps of its places.
    pub(crate) fn new(
        page: &LayerTree,
        offsets: &Offsets,
        layer: &Layer,
        tiling: &'a Tiling,
    ) -> SeenLayer<'a>
        requires offsets { AreOffsets (offset_at offsets.now) }
        requires wide { IsLayerSide layer.now.w }
        requires tall { IsLayerSide layer.now.h }
        requires cut { tiling.now.grid ≡ visible.grid_of page.now (parts_of layer.now) }
        ensures seen { IsSeenIn page.now (offset_at offsets.now) (parts_of layer.now) result }
        ensures stamps { result.stamps ≡ tiling.now }
    {
        page.is_page();
        let props = page.props();
        let clip = clip_in(page, offsets, layer);
        let by = props.translation(layer.transform, offsets);
        let clip_inside = moved_back(clip, by);
        let grid = grid_of(page, layer);
        SeenLayer {
            id: layer.id,
            grid,
            columns: grid.columns(),
            rows: grid.rows(),
            by,
            clip,
            clip_inside,
            draws: props.draws(layer.effect),
            tiling,
        }
    }

    /// Whether it has a key: one of its places with its stamp.
    pub(crate) fn has(&self, key: TileKey) -> bool
        ensures { result ≡ layer_has self.now key }
    {
        let place = Place { x: key.x, y: key.y };
        self.has_place(place) && self.tiling.key_at(self.id, place).stamp == key.stamp
    }

    // Whether its grid has a place.
    fn has_place(&self, place: Place) -> bool
        ensures { result ≡ grids.has self.now.grid place }
    {
        let across = place.x < self.columns;
        let down = place.y < self.rows;
        across && down
    }

    /// Its number.
    pub(crate) fn id(&self) -> u32
        ensures { result ≡ self.now.id }
    {
        self.id
    }

    // Whether it is moved and clipped as another layer.
    fn is_placed_as(&self, other: &SeenLayer<'_>) -> bool
        ensures by { result ≡ true → other.now.by ≡ self.now.by }
        ensures clip { result ≡ true → other.now.clip ≡ self.now.clip }
    {
        self.by == other.by && self.clip == other.clip
    }

    // Whether it is cut as another layer, and both are drawn, or neither.
    fn is_cut_as(&self, other: &SeenLayer<'_>) -> bool
        ensures grid { result ≡ true → other.now.grid ≡ self.now.grid }
        ensures draws { result ≡ true → other.now.draws ≡ self.now.draws }
    {
        self.grid == other.grid && self.draws == other.draws
    }

    /// Whether it stands on the screen as another layer, so that a tile is seen alike in both.
    pub(crate) fn stands_as(&self, other: &SeenLayer<'_>) -> bool
        ensures { result ≡ true → StandAlike self.now other.now }
    {
        let is_placed = self.is_placed_as(other);
        let is_cut = self.is_cut_as(other);
        is_placed && is_cut
    }

    /// The key of a place, which it is to have.
    pub(crate) fn key_at(&self, place: Place) -> TileKey
        requires { IsTrue (grids.has self.now.grid place) }
        ensures { result ≡ key_of self.now.stamps self.now.id place }
    {
        self.tiling.key_at(self.id, place)
    }

    /// How a tile is seen.
    pub(crate) fn seen(&self, place: Place) -> Seen
        requires { IsTrue (grids.has self.now.grid place) }
        ensures value { result ≡ tile_seen self.now place }
        ensures screen { IsSound result.screen }
        ensures clip { IsSound result.clip }
    {
        Seen {
            screen: moved_place(self.grid, place, self.by),
            clip: self.clip,
            draws: self.draws,
        }
    }
}

impl<'a> SeenLayer<'a> {
    /// The places that an area of the screen touches, by row and then by column. An error means out of
    /// memory.
    pub(crate) fn places_near(&self, alloc: Global, area: Rect) -> Result<Vec<Place>, AllocError>
        requires { IsArea area }
        ensures value { IfOk result (λ places. places.items ≡ places_touching self.now.grid (shifted area (back self.now.by))) }
        ensures there { IfOk result (λ places. All (λ p. IsTrue (grids.has self.now.grid p)) places.items) }
    {
        self.grid.places_touching(alloc, moved_back(area, self.by))
    }

    /// The keys of its visible places, after those before. An error means out of memory, and the first few
    /// were added.
    pub(crate) fn push_visible(&self, alloc: Global, keys: &mut Keys) -> Result<(), AllocError>
        ensures { OnOk result (keys.new ≡ keys.old ++ visible_of self.now) }
    {
        if !self.draws {
            return Ok(());
        }
        let places = self.grid.places_touching(alloc, self.clip_inside)?;
        push_keys(keys, self.tiling, self.id, places.as_slice())
    }
}

// The keys of these places after those before.
fn push_keys(
    keys: &mut Keys,
    tiling: &Tiling,
    layer: u32,
    places: &[Place],
) -> Result<(), AllocError>
    requires { All (λ p. IsTrue (grids.has tiling.now.grid p)) places.now }
    ensures { OnOk result (keys.new ≡ keys.old ++ map (key_of tiling.now layer) places.now) }
{
    for place in places {
        if let Err((full, _)) = keys.push(tiling.key_at(layer, *place)) {
            return Err(full);
        }
    }
    Ok(())
}

/// The layer of an id.
pub(crate) fn layer_at<'b, 'a>(layers: &'b [SeenLayer<'a>], id: u32) -> Option<&'b SeenLayer<'a>>
    ensures { option_copied result ≡ layer_at id layers.now }
{
    for layer in layers {
        if layer.id == id {
            return Some(layer);
        }
    }
    None
}
