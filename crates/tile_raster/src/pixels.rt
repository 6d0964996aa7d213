//! The bytes of rows, and whether their pixels have one colour.

ghost use Rattle.std.specs.Prelude.{◌≡◌, ◌≢◌, ◌↔◌, ℕ, ◌<◌, ◌≤◌, ◌*◌, ◌+◌, ◌/◌, ◌≤ℤ◌, pos, length, IsTrue, MatchOption};
ghost use Rattle.geom.specs.Covers.{IsSound};
ghost use Rattle.pixel.specs.Rows.{pixel, ArePremultiplied};
ghost use Rattle.page_display_list.specs.Bitmaps.{near};
ghost use Rattle.tile_raster.specs.Images.{IsRow, row_bytes};
ghost use Rattle.tile_raster.specs.inner.Bands.{AreKept, AreEnds, IsSolid};

use crate::picture_rows::{PictureRows, end_of, place_of};
use geom::Rect;
use page_display_list::DisplayList;
use pixel::{Colour, colour_at};
use std::alloc::Global;

/// The bytes of the row at a place among rows of `width` pixels.
pub(crate) fn row_at(bytes: &[u8], width: usize, place: usize) -> &[u8]
    requires { 4 * (width * place) + 4 * width ≤ length bytes.now }
    ensures { result.now ≡ row_bytes width place bytes.now }
{
    let start = 4 * (width * place);
    &bytes[start..start + 4 * width]
}

/// The colour of all pixels of a picture; None if two differ, and the transparent colour if there is no pixel.
pub(crate) fn one_colour(list: &DisplayList, rect: Rect, rows: &PictureRows) -> Option<Colour>
    requires sound { IsSound rect }
    requires kept { AreKept list.now rect rows.now.places.items rows.now.bytes.items }
    requires ends { AreEnds (near rect.h) rows.now.places.items rows.now.ends.items }
    ensures { IsSolid list.now rect result }
{
    let height = height_of(rect);
    if width_of(rect) == 0 || height == 0 {
        return Some(Colour::CLEAR);
    }
    let first = colour_at(row_of(list, rect, rows, 0), 0);
    let mut y = 0;
    while y < height {
        if let Some(_other) = first_other(row_of(list, rect, rows, y), first) {
            return None;
        }
        y = end_of(rows, height, y) as usize;
    }
    Some(first)
}

/// Row y of the picture that shows this list on this rect.
pub(crate) fn row_of<'a>(
    _list: &DisplayList,
    rect: Rect,
    rows: &'a PictureRows,
    y: usize,
) -> &'a [u8]
    requires sound { IsSound rect }
    requires kept { AreKept _list.now rect rows.now.places.items rows.now.bytes.items }
    requires inside { y < near rect.h }
    ensures { IsRow _list.now rect y result.now }
{
    row_at(&rows.bytes, width_of(rect), place_of(rows, y))
}

// The first pixel of a row that has another colour.
fn first_other(row: &[u8], colour: Colour) -> Option<usize>
    requires { ArePremultiplied row.now }
    ensures { MatchOption result
        ((k : ℕ) → k < length row.now / 4 → pixel row.now k ≡ colour)
        (λ k. (k < length row.now / 4) × (pixel row.now k ≢ colour)) }
{
    for k in 0..row.len() / 4 {
        if !is_same_colour(colour_at(row, k), colour) {
            return Some(k);
        }
    }
    None
}

/// Whether two colours are equal.
pub(crate) fn is_same_colour(a: Colour, b: Colour) -> bool
    ensures { IsTrue result ↔ (a ≡ b) }
{
    a == b
}

/// How many columns a rect has.
pub(crate) fn width_of(rect: Rect) -> usize
    requires { IsSound rect }
    ensures { result ≡ near rect.w }
{
    count(rect.w)
}

/// How many rows a rect has.
pub(crate) fn height_of(rect: Rect) -> usize
    requires { IsSound rect }
    ensures { result ≡ near rect.h }
{
    count(rect.h)
}

// A length as a count.
fn count(n: i32) -> usize
    requires { pos 0 ≤ℤ n }
    ensures { result ≡ near n }
{
    n as usize
}
