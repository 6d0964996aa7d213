//! The rows that a picture keeps: of equal rows that follow one another only the first.
//!
//! # What
//!
//! A picture is what a display list shows on the rect of a tile. [`PictureRows`] has the bytes of the rows that are
//! kept, and for each row of the rect its place among them: row y shows the kept row `places[y]`. `ends[y]` is the row
//! after the last that has the same place, so that copying and blending take a whole band at a time. A picture whose
//! rows are all equal, as one of a single colour is, keeps one row, and no places or ends.
//!
//! ```text
//!    row    place    end                 kept
//!     0       0       3      +------>   0  ..........
//!     1       0       3      |          1  ..####....
//!     2       0       3   ---+          2  ..####.##.
//!     3       1       4
//!     4       2       6
//!     5       2       6
//! ```
//!
//! # How
//!
//! 1. A row may differ from the row above only where an item begins or ends, or has pixels of its own (`changes.rt`).
//!    Each other row takes the place of the row above.
//! 2. If no item on the rect is a bitmap, the items are patches: parts of the picture of one colour (`patches.rt`).
//!    Each kept row is then drawn run by run: from a column on, the topmost opaque patch and those above it tell the
//!    colour, and how many columns have it (`spans.rt`). Each pixel is written once, and what is hidden is never
//!    blended.
//! 3. Otherwise, and if so many patches lie above one another that it takes less time (`ways.rt`), the kept rows are
//!    drawn item by item, from the lowest on, each over what is there (`draw.rt`).
//! 4. The ends follow from the places.
//!
//! # Cost
//!
//! Memory: four bytes for each pixel of a kept row, and eight for each row of the rect if more than one is kept. A tile
//! of flat rects keeps a few rows, however tall it is; under a bitmap each row is kept. Time: the items once for the
//! marks; then for patches the pixels of the kept rows, each once, and in each of them each run times each patch; item
//! by item the pixels of each item in each kept row. The lesser of the two is what patches cost. Memory is taken for the marks, the patches, the places and ends, and the rows; an error means that it ran out.
//!
//! # Limits
//!
//! Only neighbours are found equal: of two equal rows with another between them both are kept. Rows are told equal by
//! where items begin and end, not by their pixels: an item that begins below an opaque one makes a row that is kept,
//! though it shows the same. One bitmap anywhere on the rect has all of it drawn item by item. The contracts say that
//! each row has the bytes of what the list shows there (`AreKept`), and that an end is the first row with another place
//! (`AreEnds`); that few rows are kept is not claimed.

ghost use Rattle.std.specs.Prelude.{◌≡◌, ℕ, ◌+◌, ◌*◌, ◌<◌, ◌≤◌, ◌^◌, length, true, false, cond, slice_index, slice_index_or, IsTrue, IfOk, ⊤};
ghost use Rattle.geom.specs.Covers.{IsSound};
ghost use Rattle.pixel.specs.Colours.{clear};
ghost use Rattle.pixel.specs.Rows.{pixel, ArePremultiplied};
ghost use Rattle.page_display_list.specs.Bitmaps.{near};
ghost use Rattle.tile_raster.specs.inner.Bands.{AreLevel, IsRepeated, AreSteps, AreKept, IsEnd, AreEnds, IsCount};
ghost use Rattle.tile_raster.specs.inner.Patches.{ShowList};

use crate::changes::{changing_patches, changing_rows};
use crate::draw::draw_items;
use crate::patches::{Patch, draw_patches, patches_of};
use crate::pixels::width_of;
use crate::ways::are_faster_as_items;
use geom::Rect;
use page_display_list::DisplayList;
use std::alloc::{AllocError, Global};

/// The rows of a picture.
#[derive(Drop)]
pub(crate) struct PictureRows {
    /// The bytes of the rows that are kept.
    pub(crate) bytes: Vec<u8>,
    /// For each row of the picture the place of its bytes among the rows that are kept. None if one row is kept
    /// for all.
    pub(crate) places: Vec<u32>,
    /// For each row of the picture the row after the last that is kept as it. None if one row is kept for all.
    pub(crate) ends: Vec<u32>,
}

/// The rows of what the list shows on the rect.
pub(crate) fn kept_rows(
    alloc: Global,
    list: &DisplayList,
    rect: Rect,
) -> Result<PictureRows, AllocError>
    requires { IsSound rect }
    ensures kept { IfOk result (λ rows. AreKept list.now rect rows.places.items rows.bytes.items) }
    ensures ends { IfOk result (λ rows. AreEnds (near rect.h) rows.places.items rows.ends.items) }
{
    let Some(patches) = patches_of(alloc, list, rect)? else {
        return rows_of_items(alloc, list, rect);
    };
    if are_faster_as_items(alloc, patches.as_slice(), rect)? {
        return rows_of_items(alloc, list, rect);
    }
    rows_of_patches(alloc, list, rect, patches.as_slice())
}

// The rows of what the list shows on the rect, if patches show it.
fn rows_of_patches(
    alloc: Global,
    list: &DisplayList,
    rect: Rect,
    patches: &[Patch],
) -> Result<PictureRows, AllocError>
    requires rect { IsSound rect }
    requires shows { ShowList list.now rect patches.now }
    ensures kept { IfOk result (λ rows. AreKept list.now rect rows.places.items rows.bytes.items) }
    ensures ends { IfOk result (λ rows. AreEnds (near rect.h) rows.places.items rows.ends.items) }
{
    let changes = changing_patches(alloc, patches, rect)?;
    let places = places_of(alloc, &changes)?;
    let bytes = drawn_patches(alloc, list, rect, patches, &places)?;
    with_ends(alloc, list, rect, places, bytes)
}

// The rows of what the list shows on the rect, drawn item by item.
fn rows_of_items(alloc: Global, list: &DisplayList, rect: Rect) -> Result<PictureRows, AllocError>
    requires { IsSound rect }
    ensures kept { IfOk result (λ rows. AreKept list.now rect rows.places.items rows.bytes.items) }
    ensures ends { IfOk result (λ rows. AreEnds (near rect.h) rows.places.items rows.ends.items) }
{
    let changes = changing_rows(alloc, list, rect)?;
    let places = places_of(alloc, &changes)?;
    let bytes = drawn_items(alloc, list, rect, &places)?;
    with_ends(alloc, list, rect, places, bytes)
}

// The rows of a picture with these places and bytes; if one row is kept for all, it needs no places.
fn with_ends(
    alloc: Global,
    _list: &DisplayList,
    rect: Rect,
    places: Vec<u32>,
    bytes: Vec<u8>,
) -> Result<PictureRows, AllocError>
    requires rect { IsSound rect }
    requires steps { AreSteps (λ y. ⊤) (near rect.h) places.items }
    requires kept { AreKept _list.now rect places.items bytes.items }
    ensures kept { IfOk result (λ rows. AreKept _list.now rect rows.places.items rows.bytes.items) }
    ensures ends { IfOk result (λ rows. AreEnds (near rect.h) rows.places.items rows.ends.items) }
{
    if kept_count(&places) <= 1 {
        return Ok(PictureRows {
            bytes,
            places: Vec::new(alloc),
            ends: Vec::new(alloc),
        });
    }
    let ends = ends_of(alloc, &places)?;
    Ok(PictureRows {
        bytes,
        places,
        ends,
    })
}

// The place of each row: that of the row above if the row is not marked, else the next.
fn places_of(alloc: Global, changes: &[bool]) -> Result<Vec<u32>, AllocError>
    requires { length changes.now ≤ 2 ^ 29 }
    ensures { IfOk result (λ places. AreSteps (λ y. slice_index_or changes.now (y + 1) true ≡ false) (length changes.now) places.items) }
{
    let mut places = Vec::with_capacity(alloc, changes.len())?;
    while places.len() < changes.len() {
        let place = next_place(&places, changes);
        places.push(place)?;
    }
    Ok(places)
}

// The place of the row after those that have one.
fn next_place(places: &[u32], changes: &[bool]) -> u32
    requires small { (k : ℕ) → k < length places.now → slice_index places.now k ≤ k }
    requires left { length places.now < length changes.now }
    requires few { length changes.now < 2 ^ 32 }
    ensures first { length places.now ≡ 0 → result ≡ 0 }
    ensures next { (k : ℕ) → k + 1 ≡ length places.now → result ≡ slice_index places.now k + cond (slice_index_or changes.now (k + 1) true) 1 0 }
{
    let changed = changes[places.len()];
    match places.last() {
        Some(last) if changed => *last + 1,
        Some(last) => *last,
        None => 0,
    }
}

// The end of each row: rows that have one place have one end.
fn ends_of(alloc: Global, places: &[u32]) -> Result<Vec<u32>, AllocError>
    requires { length places.now ≤ 2 ^ 29 }
    ensures { IfOk result (λ ends. AreEnds (length places.now) places.now ends.items) }
{
    let mut ends = Vec::with_capacity(alloc, places.len())?;
    while ends.len() < places.len() {
        let row = ends.len();
        let end = row + equal_places_at(places, row);
        ends.resize(end, end as u32)?;
    }
    Ok(ends)
}

// How many rows from row y on have the place of row y.
fn equal_places_at(places: &[u32], y: usize) -> usize
    requires { y < length places.now }
    ensures some { 1 ≤ result }
    ensures inside { y + result ≤ length places.now }
    ensures equal { (k : ℕ) → k < result → slice_index places.now (y + k) ≡ slice_index places.now y }
{
    let first = places[y];
    let mut rows = 1;
    while y + rows < places.len() && places[y + rows] == first {
        rows += 1;
    }
    rows
}

// The bytes of the rows that are kept, each pixel drawn once.
fn drawn_patches(
    alloc: Global,
    list: &DisplayList,
    rect: Rect,
    patches: &[Patch],
    places: &[u32],
) -> Result<Vec<u8>, AllocError>
    requires rect { IsSound rect }
    requires shows { ShowList list.now rect patches.now }
    requires steps { AreSteps (IsRepeated list.now rect) (near rect.h) places.now }
    ensures { IfOk result (λ bytes. AreKept list.now rect places.now bytes.items) }
{
    let kept = kept_count(places);
    let mut bytes = clear_rows(alloc, width_of(rect), kept)?;
    draw_patches(
        alloc,
        list,
        rect,
        patches,
        places,
        kept,
        bytes.as_mut_slice(),
    )?;
    Ok(bytes)
}

// The bytes of the rows that are kept, drawn item by item.
fn drawn_items(
    alloc: Global,
    list: &DisplayList,
    rect: Rect,
    places: &[u32],
) -> Result<Vec<u8>, AllocError>
    requires rect { IsSound rect }
    requires steps { AreSteps (AreLevel list.now rect) (near rect.h) places.now }
    ensures { IfOk result (λ bytes. AreKept list.now rect places.now bytes.items) }
{
    let kept = kept_count(places);
    let mut bytes = clear_rows(alloc, width_of(rect), kept)?;
    draw_items(list, rect, places, kept, bytes.as_mut_slice());
    Ok(bytes)
}

// How many rows are kept.
fn kept_count(places: &[u32]) -> usize
    requires { (k : ℕ) → k < length places.now → slice_index places.now k ≤ k }
    ensures last { IsCount places.now result }
    ensures few { result ≤ length places.now }
{
    match places.last() {
        Some(last) => *last as usize + 1,
        None => 0,
    }
}

// The given number of rows of transparent pixels.
fn clear_rows(alloc: Global, width: usize, rows: usize) -> Result<Vec<u8>, AllocError>
    requires width { width ≤ 2 ^ 29 }
    requires rows { rows ≤ 2 ^ 29 }
    ensures size { IfOk result (λ bytes. length bytes.items ≡ 4 * (width * rows)) }
    ensures pixels { IfOk result (λ bytes. (k : ℕ) → k < width * rows → pixel bytes.items k ≡ clear) }
    ensures premultiplied { IfOk result (λ bytes. ArePremultiplied bytes.items) }
{
    vec![in alloc; 0u8; 4 * (width * rows)]
}

/// The place of the bytes of row y among the rows that are kept.
pub(crate) fn place_of(rows: &PictureRows, y: usize) -> usize
    ensures { result ≡ slice_index rows.now.places.items y }
{
    match rows.places.get(y) {
        Some(place) => *place as usize,
        None => 0,
    }
}

/// The row after the last that is kept as row y, in a picture of the given number of rows.
pub(crate) fn end_of(rows: &PictureRows, height: usize, y: usize) -> u32
    requires ends { AreEnds height rows.now.places.items rows.now.ends.items }
    requires inside { y < height }
    requires few { height ≤ 2 ^ 29 }
    ensures { IsEnd height rows.now.places.items y result }
{
    match rows.ends.get(y) {
        Some(end) => *end,
        None => height as u32,
    }
}

/// Whether two pictures keep the same rows.
pub(crate) fn are_same_rows(a: &PictureRows, b: &PictureRows) -> bool
    ensures places { IsTrue result → a.now.places.items ≡ b.now.places.items }
    ensures bytes { IsTrue result → a.now.bytes.items ≡ b.now.bytes.items }
{
    a.places == b.places && a.bytes == b.bytes
}
