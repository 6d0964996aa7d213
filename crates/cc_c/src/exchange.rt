//! Pixels with red and blue exchanged.

ghost use Rattle.std.specs.Prelude.{◌≡◌, ℕ, ◌+◌, ◌*◌, ◌/◌, ◌%◌, ◌<◌, ◌≤◌, true, length};
ghost use Rattle.pixel.specs.Rows.{pixel};
ghost use Rattle.cc_c.specs.Copies.{HasParts, IsRowCopied, ArePut};

use std::simd::prelude::*;

// How many pixels are exchanged at a time.
const FOUR: usize = 4;

// Four pixels, with red and blue exchanged.
#[inline(always)]
fn exchanged(v: u8x16) -> u8x16
    requires { length v ≡ 16 }
    ensures len { length result ≡ 16 }
    ensures pixels { (j : ℕ) → j < 4 → HasParts true (pixel v j) (4 * j) result }
{
    v.swizzle([2, 1, 0, 3, 6, 5, 4, 7, 10, 9, 8, 11, 14, 13, 12, 15])
}

// Puts four pixels of a row, from one on, to a buffer.
#[inline(always)]
fn put_four(to: &mut [u8], at: usize, row: &[u8], place: usize)
    requires given { 4 * place + 16 ≤ length row.now }
    requires room { at + 16 ≤ length to.old }
    ensures pixels { ArePut true 4 at place row.now to.old to.new }
    ensures length { length to.new ≡ length to.old }
{
    let pixels = u8x16::from_slice(&row[4 * place..]);
    exchanged(pixels).copy_to_slice(&mut to[at..]);
}

// Puts a pixel of a row to a buffer.
fn put_one(to: &mut [u8], at: usize, row: &[u8], place: usize)
    requires given { 4 * place + 4 ≤ length row.now }
    requires room { at + 4 ≤ length to.old }
    ensures pixels { ArePut true 1 at place row.now to.old to.new }
    ensures length { length to.new ≡ length to.old }
{
    let from = 4 * place;
    to[at] = row[from + 2];
    to[at + 1] = row[from + 1];
    to[at + 2] = row[from];
    to[at + 3] = row[from + 3];
}

/// Copies a row, with red and blue exchanged.
pub(crate) fn copy_exchanged(to: &mut [u8], at: usize, row: &[u8])
    requires whole { length row.now % 4 ≡ 0 }
    requires room { at + length row.now ≤ length to.old }
    ensures row { IsRowCopied true (length row.now / 4) at row.now to.old to.new }
    ensures length { length to.new ≡ length to.old }
{
    let count = row.len() / 4;
    let mut place = 0;
    'fours: while place + FOUR <= count {
        put_four(to, at + 4 * place, row, place);
        place += FOUR;
    }
    'ones: while place < count {
        put_one(to, at + 4 * place, row, place);
        place += 1;
    }
}
