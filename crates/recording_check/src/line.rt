//! A layer laid over a row of the screen.

ghost use Rattle.std.specs.Prelude.{◌≡◌, ◌≤◌, ◌<◌, ◌*◌, ◌^◌, ℕ, pos, neg_ℤ, ◌≤ℤ◌, ◌+ℤ◌, length};
ghost use Rattle.geom.specs.Covers.{IsSound};
ghost use Rattle.pixel.specs.Colours.{blend};
ghost use Rattle.pixel.specs.Rows.{pixel, ArePremultiplied};
ghost use Rattle.page_properties.specs.Placement.{IsWithin, minus};
ghost use Rattle.page_display_list.specs.Shared.{IsShared};
ghost use Rattle.page_layers.specs.Paintings.{colour_there, placed_colour};

use crate::missing::draw_missing;
use geom::{Point, Rect};
use page_display_list::{CoveredArea, shared_part};
use page_layers::PlacedLayer;
use pixel::{Pixels, Size, image_over_area};

/// A row of the screen.
#[derive(Clone, Copy)]
pub(crate) struct ScreenRow {
    /// Which one, counted from the top.
    pub(crate) y: u32,
    /// How many of its pixels are painted, at most 2048.
    pub(crate) width: usize,
    /// The side of the tiles of the layers.
    pub(crate) tile: u32,
}

// One row of points, from a point on.
fn row_from(from: Point, width: usize) -> Rect
    requires left { neg_ℤ (pos (2 ^ 29)) ≤ℤ from.x }
    requires right { from.x ≤ℤ pos (2 ^ 29) }
    requires upper { neg_ℤ (pos (2 ^ 29)) ≤ℤ from.y }
    requires lower { from.y ≤ℤ pos (2 ^ 29) }
    requires few { width ≤ 2048 }
    ensures value { result ≡ record { x = from.x; y = from.y; w = pos width; h = pos 1 } }
    ensures sound { IsSound result }
{
    Rect {
        x: from.x,
        y: from.y,
        w: width as i32,
        h: 1,
    }
}

// Row `y` of the screen.
fn screen_row(width: usize, y: u32) -> Rect
    requires few { width ≤ 2048 }
    requires down { y ≤ 2047 }
    ensures value { result ≡ record { x = pos 0; y = pos y; w = pos width; h = pos 1 } }
    ensures sound { IsSound result }
{
    Rect {
        x: 0,
        y: y as i32,
        w: width as i32,
        h: 1,
    }
}

// Draws a row of a layer from this point of it on.
fn draw_row(layer: &PlacedLayer, tile: u32, from: Point, width: usize, row: &mut [u8])
    requires cut { 1 ≤ tile }
    requires left { neg_ℤ (pos (2 ^ 29)) ≤ℤ from.x }
    requires right { from.x ≤ℤ pos (2 ^ 29) }
    requires upper { neg_ℤ (pos (2 ^ 29)) ≤ℤ from.y }
    requires lower { from.y ≤ℤ pos (2 ^ 29) }
    requires few { width ≤ 2048 }
    requires size { length row.old ≡ 4 * width }
    ensures pixels { (k : ℕ) → k < width → pixel row.new k ≡ colour_there tile layer.now (record { x = from.x +ℤ pos k; y = from.y }) }
    ensures size { length row.new ≡ 4 * width }
    ensures premultiplied { ArePremultiplied row.new }
{
    layer.list().raster_into(row_from(from, width), row);
    draw_missing(layer, tile, from, width, row);
}

// The point of a layer that lies at a place of the screen.
fn point_at(x: usize, y: u32, by: Point) -> Point
    requires across { x ≤ 2048 }
    requires down { y ≤ 2047 }
    requires near { IsWithin (256 * 1114112) by }
    ensures value { result ≡ minus (record { x = pos x; y = pos y }) by }
    ensures left { neg_ℤ (pos (2 ^ 29)) ≤ℤ result.x }
    ensures right { result.x ≤ℤ pos (2 ^ 29) }
    ensures upper { neg_ℤ (pos (2 ^ 29)) ≤ℤ result.y }
    ensures lower { result.y ≤ℤ pos (2 ^ 29) }
{
    Point {
        x: x as i32 - by.x,
        y: y as i32 - by.y,
    }
}

// Lays a layer over the part of a row of the screen where it lies.
fn lay_part(layer: &PlacedLayer, at: ScreenRow, part: CoveredArea, row: &mut [u8], line: &mut [u8])
    requires cut { 1 ≤ at.tile }
    requires few { at.width ≤ 2048 }
    requires down { at.y ≤ 2047 }
    requires shared { IsShared layer.now.area (record { x = pos 0; y = pos at.y; w = pos at.width; h = pos 1 }) part }
    requires size { length row.old ≡ 4 * at.width }
    requires line { 4 * at.width ≤ length line.old }
    ensures pixels { (x : ℕ) → x < at.width → pixel row.new x ≡ blend (pixel row.old x) (placed_colour at.tile (pos x) (pos at.y) layer.now) }
    ensures premultiplied { ArePremultiplied row.old → ArePremultiplied row.new }
{
    let from = point_at(part.at.x, at.y, layer.by());
    let columns = &mut line[..4 * part.at.w];
    draw_row(layer, at.tile, from, part.at.w, columns);
    let size = Size {
        width: at.width,
        height: 1,
    };
    let run = Size {
        width: part.at.w,
        height: 1,
    };
    let pixels = Pixels::new(columns, run);
    image_over_area(row, size, part.at, &pixels, 0, 0);
}

/// Lays a layer over a row of the screen. What `line` holds afterwards is not said.
pub(crate) fn lay_over(layer: &PlacedLayer, at: ScreenRow, row: &mut [u8], line: &mut [u8])
    requires cut { 1 ≤ at.tile }
    requires few { at.width ≤ 2048 }
    requires down { at.y ≤ 2047 }
    requires size { length row.old ≡ 4 * at.width }
    requires line { 4 * at.width ≤ length line.old }
    ensures pixels { (x : ℕ) → x < at.width → pixel row.new x ≡ blend (pixel row.old x) (placed_colour at.tile (pos x) (pos at.y) layer.now) }
    ensures premultiplied { ArePremultiplied row.old → ArePremultiplied row.new }
{
    if let Some(part) = shared_part(layer.area(), screen_row(at.width, at.y)) {
        lay_part(layer, at, part, row, line);
    }
}
