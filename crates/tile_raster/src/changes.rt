//! The rows of a picture that may differ from the row above: where an item begins or ends.

ghost use Rattle.std.specs.Prelude.{◌≡◌, ◌≢◌, ℕ, ◌+◌, ◌<◌, ◌≤◌, ◌⊎◌, true, false, length, slice_index_or, IfOk};
ghost use Rattle.geom.specs.Covers.{IsSound};
ghost use Rattle.pixel.specs.Colours.{Parts};
ghost use Rattle.page_display_list.specs.Bitmaps.{near};
ghost use Rattle.page_display_list.specs.Content.{IsSoundItem};
ghost use Rattle.tile_raster.specs.inner.Bands.{IsLevel, AreLevel};
ghost use Rattle.tile_raster.specs.inner.Patches.{patched, AreLevelPatches};

use crate::patches::Patch;
use crate::pixels::height_of;
use geom::Rect;
use page_display_list::{DisplayList, Item, shared_part};
use std::alloc::{AllocError, Global};

/// For each row of a rect whether an item of the list begins there, ends there, or has pixels of its own.
pub(crate) fn changing_rows(
    alloc: Global,
    list: &DisplayList,
    rect: Rect,
) -> Result<Vec<bool>, AllocError>
    requires { IsSound rect }
    ensures count { IfOk result (λ rows. length rows.items ≡ near rect.h) }
    ensures level { IfOk result (λ rows. (y : ℕ) → y + 1 < near rect.h → slice_index_or rows.items (y + 1) true ≡ false → AreLevel list.now rect y) }
{
    let mut rows = vec![in alloc; false; height_of(rect)]?;
    mark_items(rows.as_mut_slice(), list, rect);
    Ok(rows)
}

// Marks the rows at which an item of the list begins, ends, or has pixels of its own.
fn mark_items(rows: &mut [bool], list: &DisplayList, rect: Rect)
    requires rect { IsSound rect }
    requires count { length rows.old ≡ near rect.h }
    ensures { (y : ℕ) → y + 1 < near rect.h → slice_index_or rows.new (y + 1) true ≡ false → AreLevel list.now rect y }
{
    for item in list.items() {
        mark_item(rows, item, rect);
    }
}

// Marks the rows at which an item begins, ends, or has pixels of its own.
fn mark_item(rows: &mut [bool], item: &Item, rect: Rect)
    requires item { IsSoundItem item.now }
    requires rect { IsSound rect }
    ensures kept { (y : ℕ) → slice_index_or rows.new y true ≡ false → slice_index_or rows.old y true ≡ false }
    ensures level { (y : ℕ) → y + 1 < near rect.h → slice_index_or rows.new (y + 1) true ≡ false → IsLevel item.now rect y }
{
    let Some(part) = shared_part(item.rect(), rect) else {
        return;
    };
    let top = part.at.y;
    let end = top + part.at.h;
    match item {
        Item::Rect { .. } => {
            mark_row(rows, top);
            mark_row(rows, end);
        }
        Item::Bitmap(_) => mark_rows(rows, top, end + 1),
    }
}

/// For each row of a rect whether a patch begins or ends there.
pub(crate) fn changing_patches(
    alloc: Global,
    patches: &[Patch],
    rect: Rect,
) -> Result<Vec<bool>, AllocError>
    requires { IsSound rect }
    ensures count { IfOk result (λ rows. length rows.items ≡ near rect.h) }
    ensures level { IfOk result (λ rows. (y : ℕ) → slice_index_or rows.items (y + 1) true ≡ false → AreLevelPatches patches.now y) }
{
    let mut rows = vec![in alloc; false; height_of(rect)]?;
    mark_patches(rows.as_mut_slice(), patches);
    Ok(rows)
}

// Marks the rows at which a patch begins or ends.
fn mark_patches(rows: &mut [bool], patches: &[Patch])
    ensures { (y : ℕ) → slice_index_or rows.new (y + 1) true ≡ false → AreLevelPatches patches.now y }
{
    for patch in patches {
        mark_patch(rows, patch);
    }
}

// Marks the rows at which a patch begins or ends.
fn mark_patch(rows: &mut [bool], patch: &Patch)
    ensures kept { (y : ℕ) → slice_index_or rows.new y true ≡ false → slice_index_or rows.old y true ≡ false }
    ensures level { (y : ℕ) → slice_index_or rows.new (y + 1) true ≡ false
        → (x : ℕ) (below : Parts) → patched x y below patch.now ≡ patched x (y + 1) below patch.now }
{
    mark_row(rows, patch.top);
    mark_row(rows, patch.bottom);
}

// Marks a row, if there is such a row.
fn mark_row(rows: &mut [bool], y: usize)
    ensures { (k : ℕ) → slice_index_or rows.new k true ≡ false → (slice_index_or rows.old k true ≡ false) × (k ≢ y) }
{
    if y < rows.len() {
        rows[y] = true;
    }
}

// Marks the rows from `from` up to but without `to`, as far as there are such rows.
fn mark_rows(rows: &mut [bool], from: usize, to: usize)
    ensures { (y : ℕ) → slice_index_or rows.new y true ≡ false → (slice_index_or rows.old y true ≡ false) × ((y < from) ⊎ (to ≤ y)) }
{
    let end = to.min(rows.len());
    for y in from..end {
        rows[y] = true;
    }
}
