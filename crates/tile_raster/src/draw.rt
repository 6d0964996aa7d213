//! Drawing items into the rows that a picture keeps: each item once, with all of its rows.

ghost use Rattle.std.specs.Prelude.{◌≡◌, ℕ, ◌+◌, ◌-◌, ◌*◌, ◌<◌, ◌≤◌, pos, ◌+ℤ◌, length, slice_index};
ghost use Rattle.geom.specs.Covers.{IsSound};
ghost use Rattle.pixel.specs.Colours.{blend, clear};
ghost use Rattle.pixel.specs.Rows.{pixel, ArePremultiplied};
ghost use Rattle.pixel.specs.Surfaces.{IsInside, EachPixel, within_rows};
ghost use Rattle.page_display_list.specs.Bitmaps.{near};
ghost use Rattle.page_display_list.specs.Content.{painted, IsSoundItem};
ghost use Rattle.tile_raster.specs.inner.Bands.{IsLevel, AreLevel, AreSteps, AreKept, IsCount, place_of, kept_area};

use crate::pixels::width_of;
use geom::Rect;
use page_display_list::{Bitmap, CoveredArea, DisplayList, Item, shared_part};
use pixel::{Area, Colour, Size, colour_over_area, fill_area, image_over_area};

/// Draws what the list shows on the rect into the rows that are kept, which are transparent before.
pub(crate) fn draw_items(
    list: &DisplayList,
    rect: Rect,
    places: &[u32],
    kept: usize,
    bytes: &mut [u8],
)
    requires rect { IsSound rect }
    requires steps { AreSteps (AreLevel list.now rect) (near rect.h) places.now }
    requires kept { IsCount places.now kept }
    requires size { length bytes.old ≡ 4 * (near rect.w * kept) }
    requires blank { (k : ℕ) → k < near rect.w * kept → pixel bytes.old k ≡ clear }
    requires premultiplied { ArePremultiplied bytes.old }
    ensures { AreKept list.now rect places.now bytes.new }
{
    for item in list.items() {
        draw_item(item, rect, places, kept, bytes);
    }
}

// Draws an item into the rows that are kept.
fn draw_item(item: &Item, rect: Rect, places: &[u32], kept: usize, bytes: &mut [u8])
    requires item { IsSoundItem item.now }
    requires rect { IsSound rect }
    requires steps { AreSteps (IsLevel item.now rect) (near rect.h) places.now }
    requires kept { IsCount places.now kept }
    requires size { length bytes.old ≡ 4 * (near rect.w * kept) }
    ensures pixels { (x y : ℕ) → x < near rect.w → y < near rect.h
        → pixel bytes.new (slice_index places.now y * near rect.w + x)
        ≡ painted (rect.x +ℤ pos x) (rect.y +ℤ pos y) (pixel bytes.old (slice_index places.now y * near rect.w + x)) item.now }
    ensures premultiplied { ArePremultiplied bytes.old → ArePremultiplied bytes.new }
{
    let Some(part) = shared_part(item.rect(), rect) else {
        return;
    };
    let width = width_of(rect);
    let size = Size {
        width,
        height: kept,
    };
    let at = kept_part(part.at, places, kept);
    match item {
        Item::Rect { colour, .. } => draw_colour(bytes, size, at, *colour),
        Item::Bitmap(bitmap) => draw_bitmap(bytes, size, at, bitmap, part),
    }
}

// Lays one colour over an area of rows.
fn draw_colour(bytes: &mut [u8], size: Size, at: Area, colour: Colour)
    requires size { length bytes.old ≡ 4 * (size.width * size.height) }
    requires inside { IsInside at size.width size.height }
    ensures pixels { EachPixel size.width size.height (within_rows at at.h (λ x y below. blend below colour)) bytes.old bytes.new }
    ensures premultiplied { ArePremultiplied bytes.old → ArePremultiplied bytes.new }
{
    if colour.a() == 255 {
        fill_area(bytes, size, at, colour);
    } else {
        colour_over_area(bytes, size, at, colour);
    }
}

// Lays the part of a bitmap that the picture shows over an area of rows.
fn draw_bitmap(bytes: &mut [u8], size: Size, at: Area, bitmap: &Bitmap, part: CoveredArea)
    requires size { length bytes.old ≡ 4 * (size.width * size.height) }
    requires inside { IsInside at size.width size.height }
    requires columns { part.left + at.w ≤ near bitmap.now.rect.w }
    requires rows { part.above + at.h ≤ near bitmap.now.rect.h }
    ensures pixels { EachPixel size.width size.height
        (within_rows at at.h (λ x y below. blend below
        (pixel bitmap.now.pixels ((y - at.y + part.above) * near bitmap.now.rect.w + (x - at.x + part.left)))))
        bytes.old bytes.new }
    ensures premultiplied { ArePremultiplied bytes.old → ArePremultiplied bytes.new }
{
    let pixels = bitmap.as_pixels();
    image_over_area(bytes, size, at, &pixels, part.left, part.above);
}

// An area of the picture as an area of the rows that are kept.
fn kept_part(at: Area, places: &[u32], kept: usize) -> Area
    requires inside { at.y + at.h ≤ length places.now }
    requires rises { place_of places.now kept at.y ≤ place_of places.now kept (at.y + at.h) }
    ensures { result ≡ kept_area at places.now kept }
{
    let top = place_at(places, kept, at.y);
    let end = place_at(places, kept, at.y + at.h);
    Area {
        x: at.x,
        y: top,
        w: at.w,
        h: end - top,
    }
}

// The place of a row; after the last row, how many are kept.
fn place_at(places: &[u32], kept: usize, y: usize) -> usize
    ensures { result ≡ place_of places.now kept y }
{
    match places.get(y) {
        Some(place) => *place as usize,
        None => kept,
    }
}
