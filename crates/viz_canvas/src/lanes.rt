//! Four pixels at a time.

ghost use Rattle.std.specs.Prelude.{◌≡◌, ℕ, ◌+◌, ◌*◌, ◌<◌, ◌≤◌, length};
ghost use Rattle.pixel.specs.Rows.{pixel};
ghost use Rattle.viz_canvas.specs.inner.Packing.{IsRgb, ArePacked};

use std::simd::prelude::*;

/// How many bytes are taken at a time, and written.
pub(crate) const LANES: usize = 16;

// Red, green and blue of four pixels, and after them their alphas.
#[inline(always)]
fn colours_first(v: u8x16) -> u8x16
    requires { length v ≡ 16 }
    ensures len { length result ≡ 16 }
    ensures colours { (j : ℕ) → j < 4 → IsRgb (pixel v j) j result }
{
    v.swizzle([0, 1, 2, 4, 5, 6, 8, 9, 10, 12, 13, 14, 3, 7, 11, 15])
}

/// Packs the four pixels of a row from one on. The four bytes after them take any value.
#[inline(always)]
pub(crate) fn pack_four(packed: &mut [u8], row: &[u8], place: usize)
    requires given { 4 * place + 16 ≤ length row.now }
    requires room { 3 * place + 16 ≤ length packed.old }
    ensures { ArePacked place 4 row.now packed.old packed.new }
{
    let pixels = u8x16::from_slice(&row[4 * place..]);
    colours_first(pixels).copy_to_slice(&mut packed[3 * place..]);
}

/// How many pixels are packed at a time if that many are left.
pub(crate) const BLOCK: usize = 16;

/// How many bytes they are written to.
pub(crate) const ROOM: usize = 52;

/// Packs the sixteen pixels of a row from one on. The four bytes after them take any value.
#[inline(always)]
pub(crate) fn pack_sixteen(packed: &mut [u8], row: &[u8], place: usize)
    requires given { 4 * place + 64 ≤ length row.now }
    requires room { 3 * place + 52 ≤ length packed.old }
    ensures { ArePacked place 16 row.now packed.old packed.new }
{
    pack_block(
        &mut packed[3 * place..3 * place + 52],
        &row[4 * place..4 * place + 64],
    );
}

// Packs a row of sixteen pixels.
#[inline(always)]
fn pack_block(packed: &mut [u8], row: &[u8])
    requires given { length row.now ≡ 64 }
    requires room { length packed.old ≡ 52 }
    ensures { (j : ℕ) → j < 16 → IsRgb (pixel row.now j) j packed.new }
{
    pack_four(packed, row, 0);
    pack_four(packed, row, 4);
    pack_four(packed, row, 8);
    pack_four(packed, row, 12);
}
