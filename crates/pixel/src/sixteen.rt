//! Whether sixteen pixels of a row are opaque, or clear, and how many are opaque.

ghost use Rattle.std.specs.Prelude.{◌≡◌, ℕ, ◌+◌, ◌*◌, ◌<◌, ◌≤◌, IsTrue, length};
ghost use Rattle.pixel.specs.Colours.{Parts, blend, clear};
ghost use Rattle.pixel.specs.Rows.{pixel, ArePremultiplied};

use crate::blocks::{is_clear, is_opaque};
use crate::four::four_at;
use crate::lanes::are_clear;

/// Whether sixteen pixels of a row, from pixel `k` on, are opaque.
#[inline(always)]
pub fn are_sixteen_opaque(row: &[u8], k: usize) -> bool
    requires inside { 4 * (k + 16) ≤ length row.now }
    requires premultiplied { ArePremultiplied row.now }
    ensures { IsTrue result → (j : ℕ) → j < 16 → (below : Parts) → pixel row.now (k + j) ≡ blend below (pixel row.now (k + j)) }
{
    is_opaque(row, 4 * k)
}

/// How many pixels of a row, from pixel `k` on and at most the given number, are opaque, counted by sixteens.
pub(crate) fn opaque_run(row: &[u8], k: usize, most: usize) -> usize
    requires inside { 4 * (k + most) ≤ length row.now }
    requires premultiplied { ArePremultiplied row.now }
    ensures most { result ≤ most }
    ensures opaque { (j : ℕ) → j < result → (below : Parts) → pixel row.now (k + j) ≡ blend below (pixel row.now (k + j)) }
{
    let mut run = 0;
    while run + 16 <= most {
        if !are_sixteen_opaque(row, k + run) {
            return run;
        }
        run += 16;
    }
    run
}

/// Whether sixteen pixels of a row, from pixel `k` on, are clear.
#[inline(always)]
pub(crate) fn are_sixteen_clear(row: &[u8], k: usize) -> bool
    requires inside { 4 * (k + 16) ≤ length row.now }
    requires premultiplied { ArePremultiplied row.now }
    ensures { IsTrue result → (j : ℕ) → j < 16 → pixel row.now (k + j) ≡ clear }
{
    // Most that are asked for are not clear, and the first four tell it soonest.
    are_clear(four_at(row, k)) && is_clear(row, 4 * k)
}
