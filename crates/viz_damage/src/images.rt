//! Whether two images of tiles show the same.

ghost use Rattle.std.specs.Prelude.{◌≡◌, ◌<◌, true, IsTrue};
ghost use Rattle.geom.specs.Covers.{IsSound};
ghost use Rattle.page_display_list.specs.Content.{IsSoundItem};
ghost use Rattle.tile_raster.specs.Images.{ShowAlike};
ghost use Rattle.viz_damage.specs.inner.Alike.{PaintAlike, PaintsNothing, AreSameImages};

use geom::{Point, Rect};
use page_display_list::{Bitmap, DisplayList, Item};
use pixel::Colour;
use tile_raster::TileImage;

/// How many bytes of the rows of two images are compared in the time in which one item of their lists is: the lists lie
/// in a processor's cache, as all images of a layer share them, and the rows do not.
const BYTES_OF_ITEM: usize = 8;

/// Whether two images have one rect and show the same there. Their rows are compared if they are few, else their
/// display lists, without the bytes of bitmaps. If the lists do not tell, the rows are compared after all, unless the
/// stamps say that the picture was made anew: a tile costs its items and its own bytes, whatever its bitmaps have.
pub(crate) fn are_same_images(a: &TileImage, b: &TileImage) -> bool
    ensures { IsTrue result → AreSameImages a.now b.now }
{
    let rect = a.rect();
    if !is_same_rect(rect, b.rect()) {
        return false;
    }
    if has_few_bytes(a) {
        return a.has_same_rows(b);
    }
    if show_alike(a.list(), b.list(), rect) {
        return true;
    }
    a.key().stamp == b.key().stamp && a.has_same_rows(b)
}

// Whether the rows of an image are compared sooner than the items of its list.
fn has_few_bytes(image: &TileImage) -> bool {
    image.solid().is_some() || image.kept_bytes() / BYTES_OF_ITEM <= image.list().items().len()
}

// Whether two lists show the same on a rect, as far as their items tell without the bytes of bitmaps.
fn show_alike(a: &DisplayList, b: &DisplayList, rect: Rect) -> bool
    requires { IsSound rect }
    ensures { IsTrue result → ShowAlike rect a.now b.now }
{
    let items = a.items();
    let others = b.items();
    if items.len() != others.len() {
        return false;
    }
    for place in 0..items.len() {
        if !paint_alike(&items[place], &others[place], rect) {
            return false;
        }
    }
    true
}

// Whether two items paint the same on a rect: one rect of one colour does, and so do items that lie outside. Bitmaps
// that lie on the rect are not compared.
fn paint_alike(a: &Item, b: &Item, rect: Rect) -> bool
    requires sound { IsSoundItem a.now }
    requires other_sound { IsSoundItem b.now }
    requires rect { IsSound rect }
    ensures { IsTrue result → PaintAlike rect a.now b.now }
{
    // Two rects of one colour are told sooner than where they lie.
    if are_one_fill(a, b) {
        return true;
    }
    lies_outside(a, rect) && lies_outside(b, rect)
}

// Whether an item has no point of a rect.
fn lies_outside(item: &Item, rect: Rect) -> bool
    requires sound { IsSoundItem item.now }
    requires rect { IsSound rect }
    ensures { IsTrue result → PaintsNothing rect item.now }
{
    !item.rect().touches(rect)
}

/// Whether two items are one.
pub(crate) fn is_same_item(a: &Item, b: &Item) -> bool
    ensures { IsTrue result → a.now ≡ b.now }
{
    are_one_fill(a, b) || are_one_bitmap(a, b)
}

// Whether two items are one rect of one colour.
fn are_one_fill(a: &Item, b: &Item) -> bool
    ensures { IsTrue result → a.now ≡ b.now }
{
    match (a, b) {
        (
            Item::Rect { rect, colour },
            Item::Rect {
                rect: other,
                colour: second,
            },
        ) => is_same_rect(*rect, *other) && is_same_colour(*colour, *second),
        _ => false,
    }
}

// Whether two items are one bitmap.
fn are_one_bitmap(a: &Item, b: &Item) -> bool
    ensures { IsTrue result → a.now ≡ b.now }
{
    match (a, b) {
        (Item::Bitmap(bitmap), Item::Bitmap(other)) => is_same_bitmap(bitmap, other),
        _ => false,
    }
}

// Whether two bitmaps are one.
fn is_same_bitmap(a: &Bitmap, b: &Bitmap) -> bool
    ensures { IsTrue result → a.now ≡ b.now }
{
    is_same_rect(a.rect(), b.rect()) && are_same_bytes(a.pixels(), b.pixels())
}

// Whether two texts of bytes are one.
fn are_same_bytes(a: &[u8], b: &[u8]) -> bool
    ensures { IsTrue result → a.now ≡ b.now }
{
    a == b
}

/// Whether two colours are one.
pub(crate) fn is_same_colour(a: Colour, b: Colour) -> bool
    ensures { IsTrue result → a ≡ b }
{
    a == b
}

/// Whether two rects are one.
#[tactic(auto, using(crate::proofs::QuadSteps::same_rects))]
pub(crate) fn is_same_rect(a: Rect, b: Rect) -> bool
    ensures { IsTrue result → a ≡ b }
{
    if !is_same_number(a.x, b.x) || !is_same_number(a.y, b.y) {
        return false;
    }
    is_same_number(a.w, b.w) && is_same_number(a.h, b.h)
}

/// Whether two points are one.
pub(crate) fn is_same_point(a: Point, b: Point) -> bool
    ensures { IsTrue result → a ≡ b }
{
    is_same_number(a.x, b.x) && is_same_number(a.y, b.y)
}

/// Whether two numbers are one.
pub(crate) fn is_same_number(a: i32, b: i32) -> bool
    ensures { IsTrue result → a ≡ b }
{
    a == b
}
