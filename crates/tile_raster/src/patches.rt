//! The parts of a picture that items of one colour cover, and drawing the rows that they make.

ghost use Rattle.std.specs.Prelude.{◌≡◌, ℕ, ◌*◌, ◌+◌, ◌-◌, ◌<◌, ◌≤◌, pos, ◌+ℤ◌, true, false, length, slice_index, IsTrue, IfOk, IfSome, OnOk};
ghost use Rattle.geom.specs.Covers.{IsSound};
ghost use Rattle.pixel.specs.Rows.{ArePremultiplied};
ghost use Rattle.page_display_list.specs.Bitmaps.{near};
ghost use Rattle.page_display_list.specs.Content.{painted, IsSoundItem};
ghost use Rattle.tile_raster.specs.inner.Bands.{IsRepeated, AreSteps, AreKept, IsCount};
ghost use Rattle.tile_raster.specs.inner.Patches.{patched, patches_show, spans_show, ShowList, AreDrawnTo};

use crate::pixels::{height_of, width_of};
use crate::spans::{Span, draw_spans};
use geom::Rect;
use page_display_list::{DisplayList, Item, shared_part};
use pixel::{Area, Colour, Size};
use std::alloc::{AllocError, Global};

/// The part of a picture that an item of one colour covers.
#[derive(Clone, Copy)]
pub(crate) struct Patch {
    /// Its columns.
    pub(crate) span: Span,
    /// The first row.
    pub(crate) top: usize,
    /// The row after the last.
    pub(crate) bottom: usize,
}

/// The parts of a picture that the items of a list cover; None if one of them is a bitmap.
pub(crate) fn patches_of(
    alloc: Global,
    list: &DisplayList,
    rect: Rect,
) -> Result<Option<Vec<Patch>>, AllocError>
    requires { IsSound rect }
    ensures { IfOk result (λ found. IfSome found (λ patches. ShowList list.now rect patches.items)) }
{
    let mut patches = Vec::new(alloc);
    for item in list.items() {
        if !put_patch(&mut patches, item, rect)? {
            return Ok(None);
        }
    }
    Ok(Some(patches))
}

// Adds the part of a picture that an item covers, if it covers one; false if a bitmap does.
fn put_patch(patches: &mut Vec<Patch>, item: &Item, rect: Rect) -> Result<bool, AllocError>
    requires item { IsSoundItem item.now }
    requires rect { IsSound rect }
    ensures { IfOk result (λ put. put ≡ true → (x y : ℕ) → x < near rect.w → y < near rect.h
        → patches_show patches.new.items x y
        ≡ painted (rect.x +ℤ pos x) (rect.y +ℤ pos y) (patches_show patches.old.items x y) item.now) }
{
    let Some(part) = shared_part(item.rect(), rect) else {
        return Ok(true);
    };
    match item {
        Item::Rect { colour, .. } => {
            patches.push(patch_of(part.at, *colour, rect))?;
            Ok(true)
        }
        Item::Bitmap(_) => Ok(false),
    }
}

// The patch of an area of a picture.
fn patch_of(at: Area, colour: Colour, _rect: Rect) -> Patch
    requires rect { IsSound _rect }
    requires across { at.x + at.w ≤ near _rect.w }
    requires down { at.y + at.h ≤ near _rect.h }
    ensures { result ≡ record { span = record { left = at.x; right = at.x + at.w; colour = colour }; top = at.y; bottom = at.y + at.h } }
{
    Patch {
        span: Span {
            left: at.x,
            right: at.x + at.w,
            colour,
        },
        top: at.y,
        bottom: at.y + at.h,
    }
}

/// Draws the rows that are kept of a picture, of which patches show what its list shows. An error means out of memory.
pub(crate) fn draw_patches(
    alloc: Global,
    _list: &DisplayList,
    rect: Rect,
    patches: &[Patch],
    places: &[u32],
    kept: usize,
    bytes: &mut [u8],
) -> Result<(), AllocError>
    requires rect { IsSound rect }
    requires shows { ShowList _list.now rect patches.now }
    requires steps { AreSteps (IsRepeated _list.now rect) (near rect.h) places.now }
    requires kept { IsCount places.now kept }
    requires size { length bytes.old ≡ 4 * (near rect.w * kept) }
    requires premultiplied { ArePremultiplied bytes.old }
    ensures { OnOk result (AreKept _list.now rect places.now bytes.new) }
{
    let mut spans = Vec::new(alloc);
    for y in 0..height_of(rect) {
        draw_row(_list, rect, patches, places, kept, y, &mut spans, bytes)?;
    }
    Ok(())
}

// Draws row y of a picture, of which the rows above are drawn: nothing if it has the place of the row above it.
fn draw_row(
    _list: &DisplayList,
    rect: Rect,
    patches: &[Patch],
    places: &[u32],
    kept: usize,
    y: usize,
    spans: &mut Vec<Span>,
    bytes: &mut [u8],
) -> Result<(), AllocError>
    requires rect { IsSound rect }
    requires shows { ShowList _list.now rect patches.now }
    requires steps { AreSteps (IsRepeated _list.now rect) (near rect.h) places.now }
    requires kept { IsCount places.now kept }
    requires size { length bytes.old ≡ 4 * (near rect.w * kept) }
    requires inside { y < near rect.h }
    requires drawn { AreDrawnTo _list.now rect places.now y bytes.old }
    ensures drawn { OnOk result (AreDrawnTo _list.now rect places.now (y + 1) bytes.new) }
    ensures premultiplied { OnOk result (ArePremultiplied bytes.old → ArePremultiplied bytes.new) }
{
    if is_first(places, y) {
        return draw_first(_list, rect, patches, places, kept, y, spans, bytes);
    }
    Ok(())
}

// Draws row y of a picture, which is the first of its place.
fn draw_first(
    _list: &DisplayList,
    rect: Rect,
    patches: &[Patch],
    places: &[u32],
    kept: usize,
    y: usize,
    spans: &mut Vec<Span>,
    bytes: &mut [u8],
) -> Result<(), AllocError>
    requires rect { IsSound rect }
    requires shows { ShowList _list.now rect patches.now }
    requires steps { AreSteps (IsRepeated _list.now rect) (near rect.h) places.now }
    requires kept { IsCount places.now kept }
    requires size { length bytes.old ≡ 4 * (near rect.w * kept) }
    requires inside { y < near rect.h }
    requires drawn { AreDrawnTo _list.now rect places.now y bytes.old }
    requires first { 0 < y → slice_index places.now (y - 1) ≡ slice_index places.now y → ⊥ }
    ensures drawn { OnOk result (AreDrawnTo _list.now rect places.now (y + 1) bytes.new) }
    ensures premultiplied { OnOk result (ArePremultiplied bytes.old → ArePremultiplied bytes.new) }
{
    put_spans(spans, patches, y)?;
    let place = places[y] as usize;
    let size = Size {
        width: width_of(rect),
        height: kept,
    };
    draw_spans(bytes, size, place, spans.as_slice());
    Ok(())
}

// Whether a row of a picture is the first of its place.
fn is_first(places: &[u32], y: usize) -> bool
    requires { y < length places.now }
    ensures yes { IsTrue result → 0 < y → slice_index places.now (y - 1) ≡ slice_index places.now y → ⊥ }
    ensures no { result ≡ false → (0 < y) × (slice_index places.now (y - 1) ≡ slice_index places.now y) }
{
    if y == 0 {
        return true;
    }
    places[y - 1] != places[y]
}

// Puts the spans of the patches that have a row in place of others.
fn put_spans(spans: &mut Vec<Span>, patches: &[Patch], y: usize) -> Result<(), AllocError>
    ensures { OnOk result ((x : ℕ) → spans_show spans.new.items x ≡ patches_show patches.now x y) }
{
    spans.clear();
    for patch in patches {
        put_span(spans, patch, y)?;
    }
    Ok(())
}

// Adds the span of a patch, if the patch has row y.
fn put_span(spans: &mut Vec<Span>, patch: &Patch, y: usize) -> Result<(), AllocError>
    ensures { OnOk result ((x : ℕ) → spans_show spans.new.items x ≡ patched x y (spans_show spans.old.items x) patch.now) }
{
    let has_row = patch.top <= y && y < patch.bottom;
    if has_row {
        spans.push(patch.span)?;
    }
    Ok(())
}
