//! Whether a quad is opaque.

ghost use Rattle.std.specs.Prelude.{◌≡◌, ◌≢◌, ◌↔◌, ◌+◌, ◌*◌, ◌<◌, ◌≤◌, ◌^◌, ℕ, pos, ◌≤ℤ◌, false, length, IsTrue, MatchOption};
ghost use Rattle.pixel.specs.Rows.{pixel};
ghost use Rattle.page_display_list.specs.Bitmaps.{near};
ghost use Rattle.viz_scene.specs.Views.{quad_view, tiled};
ghost use Rattle.viz_scene.specs.Opaque.{IsOpaque};
ghost use Rattle.viz_scene.specs.Sound.{IsTaken};
ghost use Rattle.viz_scene.specs.Areas.{IsOnScreen};
ghost use Rattle.viz_occlusion.specs.inner.Cover.{HidesNothing, IsFit, IsOpaquePart, HasOtherAlpha};

use geom::{Point, Rect};
use pixel::{Colour, blocks};
use tile_raster::TileImage;
use viz_scene::Quad;

/// Whether a quad is opaque. One that lies on no point may be called either.
pub(crate) fn is_opaque(quad: &Quad) -> bool
    requires { IsFit (quad_view quad.now) }
    ensures yes { IsTrue result → IsOpaque (quad_view quad.now) }
    ensures no { result ≡ false → HidesNothing (quad_view quad.now) }
{
    match quad {
        Quad::Tile { image, at, from } => is_opaque_tile(image, *at, *from),
        Quad::Solid { colour, .. } => is_opaque_colour(*colour),
        Quad::Group { .. } => false,
    }
}

// Whether a colour hides what lies below it.
fn is_opaque_colour(colour: Colour) -> bool
    ensures { IsTrue result ↔ (colour.a ≡ 255) }
{
    colour.a() == 255
}

// Whether the part of an image that lies on a rect is opaque.
fn is_opaque_tile(image: &TileImage, at: Rect, from: Point) -> bool
    requires at { IsOnScreen at }
    requires taken { IsTaken image.now at from }
    ensures yes { IsTrue result → IsOpaque (tiled image.now at from) }
    ensures no { result ≡ false → HidesNothing (tiled image.now at from) }
{
    match image.solid() {
        Some(colour) => is_opaque_colour(colour),
        None => is_opaque_part(image, part_of(at, from)),
    }
}

/// A part of an image: the columns from `left` and the rows from `top` on.
#[derive(Clone, Copy)]
pub(crate) struct ImagePart {
    pub(crate) left: usize,
    pub(crate) top: usize,
    pub(crate) w: usize,
    pub(crate) h: usize,
}

// The part of an image as large as a rect, from a pixel on.
fn part_of(at: Rect, from: Point) -> ImagePart
    requires at { IsOnScreen at }
    requires left { pos 0 ≤ℤ from.x }
    requires top { pos 0 ≤ℤ from.y }
    ensures left { result.left ≡ near from.x }
    ensures top { result.top ≡ near from.y }
    ensures w { result.w ≡ near at.w }
    ensures h { result.h ≡ near at.h }
{
    ImagePart {
        left: count(from.x),
        top: count(from.y),
        w: count(at.w),
        h: count(at.h),
    }
}

// A number that is not negative as a count.
fn count(n: i32) -> usize
    requires { pos 0 ≤ℤ n }
    ensures { result ≡ near n }
{
    n as usize
}

// Whether a part of an image is opaque.
fn is_opaque_part(image: &TileImage, part: ImagePart) -> bool
    requires across { part.left + part.w ≤ near image.now.rect.w }
    requires down { part.top + part.h ≤ near image.now.rect.h }
    requires far { part.top < 2 ^ 31 }
    requires tall { part.h ≤ 2048 }
    ensures yes { IsTrue result → IsOpaquePart image.now part }
    ensures no { result ≡ false → HasOtherAlpha image.now part }
{
    if image.is_opaque() {
        return true;
    }
    let mut y = 0;
    while y < part.h {
        let place = (part.top + y) as u32;
        if let Some(_column) = first_other(image.row(place), part.left, part.left + part.w) {
            return false;
        }
        y += image.same(place) as usize;
    }
    true
}

// The first pixel of some columns of a row whose alpha is not 255.
fn first_other(row: &[u8], left: usize, right: usize) -> Option<usize>
    requires order { left ≤ right }
    requires inside { 4 * right ≤ length row.now }
    ensures { MatchOption result
        ((k : ℕ) → left ≤ k → k < right → (pixel row.now k).a ≡ 255)
        (λ k. (left ≤ k) × (k < right) × ((pixel row.now k).a ≢ 255)) }
{
    for k in opaque_until(row, left, right)..right {
        if row[4 * k + 3] != 255 {
            return Some(k);
        }
    }
    None
}

// A column from `left` on before which the pixels of a row are opaque, found by sixteens.
#[inline(always)]
fn opaque_until(row: &[u8], left: usize, right: usize) -> usize
    requires order { left ≤ right }
    requires inside { 4 * right ≤ length row.now }
    ensures low { left ≤ result }
    ensures high { result ≤ right }
    ensures opaque { (k : ℕ) → left ≤ k → k < result → (pixel row.now k).a ≡ 255 }
{
    let mut k = left;
    while k + 16 <= right && blocks::is_opaque(row, 4 * k) {
        k += 16;
    }
    k
}
