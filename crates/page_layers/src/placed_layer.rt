//! Layers in their places on the screen.

ghost use Rattle.std.specs.Prelude.{◌≡◌, ◌≤◌, ◌*◌, ◌==◌, ◌&&◌, ℤ, pos, ◌-ℤ◌, FitsSigned, filter, IfOk, IfSome};
ghost use mir.Syntax.{w32};
ghost use Rattle.geom.specs.Covers.{covers, IsSound};
ghost use Rattle.geom.specs.Gaps.{shifted};
ghost use Rattle.geom.specs.Sides.{IsLayerSide};
ghost use Rattle.page_properties.specs.OffsetMap.{offset_at, AreOffsets};
ghost use Rattle.page_properties.specs.Placement.{IsWithin};
ghost use Rattle.page_layers.specs.Layers.{parts_of};
ghost use Rattle.page_layers.specs.TreePainting as painting;
ghost use Rattle.page_layers.specs.Paintings.{IsScreenPoint, colour_there, placed_colour};

use crate::layer::Layer;
use crate::missing::{in_row, is_among, place_at, rows_of};
use crate::tree::LayerTree;
use geom::{Point, Rect, TileKey};
use page_display_list::DisplayList;
use page_properties::Offsets;
use pixel::Colour;
use std::alloc::{AllocError, Global};
use std::marker::Model;
use std::sync::Arc;

/// A layer in its place on the screen.
pub struct PlacedLayer {
    // The part of the screen where it lies: its bounds, moved, inside its clip.
    area: Rect,
    // How far it is moved.
    by: Point,
    // What is drawn if a tile is missing.
    colour: Colour,
    list: Arc<DisplayList>,
    // The keys of its missing tiles, by rising row.
    missing: Vec<TileKey>,
}

impl Model for PlacedLayer {
    ghost use Rattle.std.specs.Prelude.{◌*◌};
    ghost use Rattle.std.specs.List.Sorted.{IsNonDecreasingBy};
    ghost use Rattle.geom.specs.Covers.{IsSound};
    ghost use Rattle.page_properties.specs.Placement.{IsWithin};
    ghost use Rattle.page_layers.specs.Paintings.{Placed};

    ghost Value = { Placed };

    ghost view = { λ l. record { area = l.area; by = l.by; colour = l.colour; items = l.list.value; missing = l.missing.items } };

    ghost invariant = { λ l. IsSound l.area × IsWithin (256 * 1114112) l.by × IsNonDecreasingBy (λ k. k.y) l.missing.items };
}

// Written out, since a derived drop is proved anew, field by field, in each function that lets one go.
impl Drop for PlacedLayer {
    fn drop(self) {
        let PlacedLayer {
            area: _,
            by: _,
            colour: _,
            list: _,
            missing: _,
        } = self;
    }
}

// A coordinate, moved back.
fn back(at: i32, by: i32) -> i32
    requires { FitsSigned w32 (at -ℤ by) }
    ensures { result ≡ at -ℤ by }
{
    at - by
}

// The bounds of a layer of this size, moved.
fn moved_bounds(w: u32, h: u32, by: Point) -> Rect
    requires wide { w ≤ 16384 }
    requires tall { h ≤ 16384 }
    requires near { IsWithin (256 * 1114112) by }
    ensures value { result ≡ shifted (record { x = pos 0; y = pos 0; w = pos w; h = pos h }) by }
    ensures sound { IsSound result }
{
    let bounds = Rect {
        x: 0,
        y: 0,
        w: w as i32,
        h: h as i32,
    };
    bounds.shift(by)
}

// The part of a rect that a clip lets through.
fn cut(rect: Rect, clip: Option<Rect>) -> Rect
    requires sound { IsSound rect }
    requires clip_sound { IfSome clip IsSound }
    ensures points { (x y : ℤ) → covers result x y ≡ (painting.lets_through clip x y && covers rect x y) }
    ensures result_sound { IsSound result }
{
    match clip {
        None => rect,
        Some(clip) => clip.intersect(rect),
    }
}

/// A layer of a tree in its place at these offsets, with the tiles of these keys missing, whatever their stamps. The
/// layer's sides are 1 to 16384. Each offset is from 0 to 1048576 on both axes. An error means out of memory.
pub fn placed(
    alloc: Global,
    tree: &LayerTree,
    offsets: &Offsets,
    missing: &[TileKey],
    layer: &Layer,
) -> Result<PlacedLayer, AllocError>
    requires offsets { AreOffsets (offset_at offsets.now) }
    requires wide { IsLayerSide layer.now.w }
    requires tall { IsLayerSide layer.now.h }
    ensures { IfOk result (λ l. (x y : ℤ) → placed_colour tree.now.view.tile x y l ≡ painting.layer_colour_at tree.now (offset_at offsets.now) missing.now x y (parts_of layer.now)) }
{
    let props = tree.props();
    let by = props.translation(layer.transform, offsets);
    let clip = props.clip_of(layer.clip, offsets);
    let area = cut(moved_bounds(layer.w, layer.h, by), clip);
    let own = rows_of(alloc, missing, layer.id)?;
    let list = Arc::try_clone(&layer.list)?;
    Ok(PlacedLayer {
        area,
        by,
        colour: layer.colour,
        list,
        missing: own,
    })
}

impl PlacedLayer {
    /// The part of the screen where the layer lies.
    pub fn area(&self) -> Rect
        ensures value { result ≡ self.now.area }
        ensures sound { IsSound result }
    {
        self.area
    }

    /// How far the layer is moved.
    pub fn by(&self) -> Point
        ensures value { result ≡ self.now.by }
        ensures near { IsWithin (256 * 1114112) result }
    {
        self.by
    }

    /// What is drawn if a tile is missing.
    pub fn colour(&self) -> Colour
        ensures { result ≡ self.now.colour }
    {
        self.colour
    }

    /// What the layer shows.
    pub fn list(&self) -> &DisplayList
        ensures { result.now ≡ self.now.items }
    {
        &self.list
    }

    /// The keys of its missing tiles of this row: two searches among all of them.
    pub fn missing_in(&self, row: u32) -> &[TileKey]
        ensures { result.now ≡ filter (λ k. k.y == row) self.now.missing }
    {
        in_row(self.missing.as_slice(), row)
    }

    // The colour at a point of the layer.
    #[tactic(auto, unfolding(crate::specs::Paintings::colour_there))]
    fn colour_there(&self, tile: u32, x: i32, y: i32) -> Colour
        requires { 1 ≤ tile }
        ensures { result ≡ colour_there tile self.now (record { x = x; y = y }) }
    {
        let place = place_at(tile, Point { x, y });
        if is_among(self.missing.as_slice(), place) {
            self.colour
        } else {
            self.list.pixel_at(x, y)
        }
    }

    /// The colour at a point of the screen, where tiles have this side.
    #[tactic(auto, unfolding(crate::specs::Paintings::placed_colour))]
    pub(crate) fn colour_at(&self, tile: u32, x: i32, y: i32) -> Colour
        requires cut { 1 ≤ tile }
        requires screen { IsScreenPoint x y }
        ensures { result ≡ placed_colour tile x y self.now }
    {
        if !self.area.contains(Point { x, y }) {
            return Colour::CLEAR;
        }
        let across = back(x, self.by.x);
        let down = back(y, self.by.y);
        self.colour_there(tile, across, down)
    }
}
