//! Drawing items into the pixels of an area.

ghost use Rattle.std.specs.Prelude.{◌≡◌, ℕ, ◌+◌, ◌-◌, ◌*◌, ◌<◌, ◌≤◌, ◌^◌, ℤ, pos, ◌+ℤ◌, ◌≤ℤ◌, length, fold, All, IfOk};
ghost use Rattle.geom.specs.Covers.{IsSound};
ghost use Rattle.pixel.specs.Colours.{blend, clear};
ghost use Rattle.pixel.specs.Rows.{pixel, ArePremultiplied};
ghost use Rattle.pixel.specs.Surfaces.{IsInside, EachPixel, within_rows};
ghost use Rattle.page_display_list.specs.Bitmaps.{near, byte_count};
ghost use Rattle.page_display_list.specs.Content.{painted, IsSoundItem};

use crate::bitmap::Bitmap;
use crate::covered_area::{CoveredArea, shared_part};
use crate::item::Item;
use geom::Rect;
use pixel::{Colour, Size, colour_over_area, fill_area, image_over_area};
use std::alloc::{AllocError, Global};

// How many pixels the side of a sound rect is long.
fn side(n: i32) -> usize
    requires { pos 0 ≤ℤ n }
    ensures { result ≡ near n }
{
    n as usize
}

/// How many columns a sound rect has.
pub(crate) fn width_of(area: Rect) -> usize
    requires { IsSound area }
    ensures { result ≡ near area.w }
{
    side(area.w)
}

/// How many rows a sound rect has.
pub(crate) fn height_of(area: Rect) -> usize
    requires { IsSound area }
    ensures { result ≡ near area.h }
{
    side(area.h)
}

/// The given number of transparent pixels.
pub(crate) fn clear_pixels(alloc: Global, count: usize) -> Result<Vec<u8>, AllocError>
    requires { count ≤ 2 ^ 60 }
    ensures size { IfOk result (λ bytes. length bytes.items ≡ 4 * count) }
    ensures pixels { IfOk result (λ bytes. (k : ℕ) → k < count → pixel bytes.items k ≡ clear) }
    ensures premultiplied { IfOk result (λ bytes. ArePremultiplied bytes.items) }
{
    vec![in alloc; 0u8; 4 * count]
}

// Draws one colour into a part of an area's pixels.
fn draw_colour(surface: &mut [u8], size: Size, part: CoveredArea, colour: Colour)
    requires size { length surface.old ≡ 4 * (size.width * size.height) }
    requires inside { IsInside part.at size.width size.height }
    ensures pixels { EachPixel size.width size.height (within_rows part.at part.at.h (λ x y below. blend below colour)) surface.old surface.new }
    ensures premultiplied { ArePremultiplied surface.old → ArePremultiplied surface.new }
{
    if colour.a() == 255 {
        fill_area(surface, size, part.at, colour);
    } else {
        colour_over_area(surface, size, part.at, colour);
    }
}

// Draws a bitmap into the part of an area's pixels that it covers.
fn draw_bitmap(surface: &mut [u8], size: Size, part: CoveredArea, bitmap: &Bitmap)
    requires size { length surface.old ≡ 4 * (size.width * size.height) }
    requires inside { IsInside part.at size.width size.height }
    requires columns { part.left + part.at.w ≤ near bitmap.now.rect.w }
    requires rows { part.above + part.at.h ≤ near bitmap.now.rect.h }
    ensures pixels { EachPixel size.width size.height
        (within_rows part.at part.at.h (λ x y below. blend below
        (pixel bitmap.now.pixels ((y - part.at.y + part.above) * near bitmap.now.rect.w + (x - part.at.x + part.left)))))
        surface.old surface.new }
    ensures premultiplied { ArePremultiplied surface.old → ArePremultiplied surface.new }
{
    let pixels = bitmap.as_pixels();
    image_over_area(surface, size, part.at, &pixels, part.left, part.above);
}

// Draws an item into the pixels of an area.
fn draw(item: &Item, surface: &mut [u8], area: Rect)
    requires item { IsSoundItem item.now }
    requires area { IsSound area }
    requires size { length surface.old ≡ byte_count area.w area.h }
    ensures pixels { EachPixel (near area.w) (near area.h) (λ x y below. painted (area.x +ℤ pos x) (area.y +ℤ pos y) below item.now) surface.old surface.new }
    ensures premultiplied { ArePremultiplied surface.old → ArePremultiplied surface.new }
{
    let Some(part) = shared_part(item.rect(), area) else {
        return;
    };
    let width = width_of(area);
    let height = height_of(area);
    let size = Size { width, height };
    match item {
        Item::Rect { colour, .. } => draw_colour(surface, size, part, *colour),
        Item::Bitmap(bitmap) => draw_bitmap(surface, size, part, bitmap),
    }
}

/// Draws items into the pixels of an area, in order.
pub(crate) fn draw_items(items: &[Item], surface: &mut [u8], area: Rect)
    requires items { All IsSoundItem items.now }
    requires area { IsSound area }
    requires size { length surface.old ≡ byte_count area.w area.h }
    ensures pixels { EachPixel (near area.w) (near area.h) (λ x y below. fold (painted (area.x +ℤ pos x) (area.y +ℤ pos y)) below items.now) surface.old surface.new }
    ensures premultiplied { ArePremultiplied surface.old → ArePremultiplied surface.new }
{
    for item in items {
        draw(item, surface, area);
    }
}
