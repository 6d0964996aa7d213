//! Drawing a part of the image of a tile.

ghost use Rattle.std.specs.Prelude.{◌≡◌, ℕ, ◌+◌, ◌*◌, ◌<◌, ◌≤◌, ◌^◌, length, pos, ◌≤ℤ◌};
ghost use Rattle.geom.specs.Covers.{IsSound};
ghost use Rattle.pixel.specs.Colours.{blend};
ghost use Rattle.pixel.specs.Rows.{ArePremultiplied};
ghost use Rattle.pixel.specs.Surfaces.{IsInside, within_rows};
ghost use Rattle.page_display_list.specs.Bitmaps.{near, byte_count};
ghost use Rattle.viz_scene.specs.Pixels.{placed_pixel};
ghost use Rattle.viz_scene.specs.Sound.{IsTaken};
ghost use Rattle.tile_raster.specs.Images.{AreSameRows};
ghost use Rattle.viz_render.specs.inner.Drawing.{IsStrip, rows_from, part_pixel, laid_on};
ghost use Rattle.viz_render.specs.inner.Masks.{EachOpen, EachOpenPoint};

use crate::mask::QuadMask;
use crate::open::paint_open;
use crate::paint::Paint;
use crate::size::{count, size_of};
use crate::solid::draw_solid;
use geom::{Point, Rect};
use page_display_list::{CoveredArea, shared_part};
use pixel::{Area, Size};
use tile_raster::TileImage;

/// Draws the part of an image from `from` on where `at` lies in an area.
pub(crate) fn draw_tile(
    surface: &mut [u8],
    area: Rect,
    image: &TileImage,
    at: Rect,
    from: Point,
    seen: QuadMask<'_>,
)
    requires area { IsStrip area }
    requires at { IsSound at }
    requires taken { IsTaken image.now at from }
    requires size { length surface.old ≡ byte_count area.w area.h }
    ensures pixels { EachOpenPoint area seen.entry.mask.now.tops seen.entry.number (laid_on at (placed_pixel image.now at from)) surface.old surface.new }
    ensures premultiplied { ArePremultiplied surface.old → ArePremultiplied surface.new }
{
    let Some(part) = shared_part(at, area) else {
        return;
    };
    if seen.mask.hides(part.at, seen.number) {
        return;
    }
    if let Some(colour) = image.solid() {
        draw_solid(surface, area, at, colour, seen);
        return;
    }
    let part = taken_part(part, from);
    draw_part(surface, size_of(area), image, part, seen);
}

// The part with its columns and rows counted in the image, of which the rect takes what is from `from` on.
pub(crate) fn taken_part(part: CoveredArea, from: Point) -> CoveredArea
    requires from_left { pos 0 ≤ℤ from.x }
    requires from_top { pos 0 ≤ℤ from.y }
    requires columns { part.left ≤ 2 ^ 29 }
    requires rows { part.above ≤ 2 ^ 29 }
    ensures { result ≡ record { at = part.at; left = part.left + near from.x; above = part.above + near from.y } }
{
    CoveredArea {
        at: part.at,
        left: later(part.left, from.x),
        above: later(part.above, from.y),
    }
}

// A place this much further to the right or downwards.
fn later(place: usize, by: i32) -> usize
    requires by { pos 0 ≤ℤ by }
    requires place { place ≤ 2 ^ 29 }
    ensures { result ≡ place + near by }
{
    place + count(by)
}

// Draws a part of an image, each row that it keeps over all rows that are equal to it.
fn draw_part(
    surface: &mut [u8],
    size: Size,
    image: &TileImage,
    part: CoveredArea,
    seen: QuadMask<'_>,
)
    requires size { length surface.old ≡ 4 * (size.width * size.height) }
    requires wide { size.width ≤ 2048 }
    requires low { size.height ≤ 64 }
    requires inside { IsInside part.at size.width size.height }
    requires columns { part.left + part.at.w ≤ near image.now.rect.w }
    requires rows { part.above + part.at.h ≤ near image.now.rect.h }
    ensures pixels { EachOpen size.width size.height seen.entry.mask.now.tops seen.entry.number (within_rows part.at part.at.h (λ x y below. blend below (part_pixel image.now part x y))) surface.old surface.new }
    ensures premultiplied { ArePremultiplied surface.old → ArePremultiplied surface.new }
{
    let mut done = 0;
    while done < part.at.h {
        done += draw_band(surface, size, image, part, done, seen);
    }
}

// The row of an image that belongs to a row of a part of it.
pub(crate) fn row_number(image: &TileImage, part: CoveredArea, row: usize) -> u32
    requires rows { part.above + part.at.h ≤ near image.now.rect.h }
    requires there { row < part.at.h }
    ensures { result ≡ part.above + row }
{
    // The rect of an image is sound, so the number fits.
    let _rect = image.rect();
    (part.above + row) as u32
}

// How many rows of an image, from a row on, are kept as that row, at most the given number.
pub(crate) fn equal_rows_at(image: &TileImage, row: u32, most: usize) -> usize
    requires row { row < near image.now.rect.h }
    requires some { 1 ≤ most }
    ensures some { 1 ≤ result }
    ensures most { result ≤ most }
    ensures equal { (k : ℕ) → k < result → AreSameRows image.now.list image.now.rect row (row + k) }
{
    let equal = image.same(row) as usize;
    equal.min(most)
}

// Draws the rows of a part of an image that are equal to its row `row`, from that one on, and returns how many they
// are.
fn draw_band(
    surface: &mut [u8],
    size: Size,
    image: &TileImage,
    part: CoveredArea,
    row: usize,
    seen: QuadMask<'_>,
) -> usize
    requires size { length surface.old ≡ 4 * (size.width * size.height) }
    requires wide { size.width ≤ 2048 }
    requires low { size.height ≤ 64 }
    requires inside { IsInside part.at size.width size.height }
    requires columns { part.left + part.at.w ≤ near image.now.rect.w }
    requires below { part.above + part.at.h ≤ near image.now.rect.h }
    requires there { row < part.at.h }
    ensures some { 1 ≤ result }
    ensures most { row + result ≤ part.at.h }
    ensures pixels { EachOpen size.width size.height seen.entry.mask.now.tops seen.entry.number (within_rows (rows_from part.at row result) result (λ x y below. blend below (part_pixel image.now part x y))) surface.old surface.new }
    ensures premultiplied { ArePremultiplied surface.old → ArePremultiplied surface.new }
{
    let number = row_number(image, part, row);
    let rows = equal_rows_at(image, number, part.at.h - row);
    let at = Area {
        x: part.at.x,
        y: part.at.y + row,
        w: part.at.w,
        h: rows,
    };
    let pixels = image.row(number);
    let band = CoveredArea {
        at,
        left: part.left,
        above: part.above + row,
    };
    paint_open(surface, size, band, &Paint::Row(pixels), seen);
    rows
}
