//! Whether all pixels of a picture are opaque.

ghost use Rattle.std.specs.Prelude.{◌≡◌, ◌⊎◌, ℕ, ◌<◌, ◌≤◌, ◌/◌, false, length, IsTrue};
ghost use Rattle.geom.specs.Covers.{IsSound};
ghost use Rattle.pixel.specs.Rows.{pixel};
ghost use Rattle.page_display_list.specs.Bitmaps.{near};
ghost use Rattle.tile_raster.specs.inner.Bands.{AreKept, AreEnds, TellsOpaque, IsAlphaIn, HasTranslucentIn};

use crate::picture_rows::{PictureRows, end_of};
use crate::pixels::{height_of, row_of};
use geom::Rect;
use page_display_list::DisplayList;

/// Whether all pixels of a picture are opaque.
pub(crate) fn are_all_opaque(list: &DisplayList, rect: Rect, rows: &PictureRows) -> bool
    requires sound { IsSound rect }
    requires kept { AreKept list.now rect rows.now.places.items rows.now.bytes.items }
    requires ends { AreEnds (near rect.h) rows.now.places.items rows.now.ends.items }
    ensures { TellsOpaque list.now rect result }
{
    let height = height_of(rect);
    let mut y = 0;
    while y < height {
        if !is_opaque_row(row_of(list, rect, rows, y)) {
            return false;
        }
        y = end_of(rows, height, y) as usize;
    }
    true
}

// Whether all pixels of a row are opaque.
fn is_opaque_row(row: &[u8]) -> bool
    ensures yes { IsTrue result → (k : ℕ) → k < length row.now / 4 → (pixel row.now k).a ≡ 255 }
    ensures no { result ≡ false → HasTranslucentIn row.now }
{
    least_alpha(row) == 255
}

// The least alpha of a row; 255 if there is no pixel.
fn least_alpha(row: &[u8]) -> u8
    ensures least { (k : ℕ) → k < length row.now / 4 → (result ≤ (pixel row.now k).a) × ((pixel row.now k).a ≤ 255) }
    ensures there { (result ≡ 255) ⊎ IsAlphaIn row.now result }
{
    let mut least = 255;
    for k in 0..row.len() / 4 {
        least = row[4 * k + 3].min(least);
    }
    least
}
