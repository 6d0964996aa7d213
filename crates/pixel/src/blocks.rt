//! Sixty-four bytes of a row at a time: sixteen pixels.

ghost use Rattle.std.specs.Prelude.{◌≡◌, ℕ, ◌+◌, ◌<◌, ◌≤◌, ◌%◌, IsTrue, length, slice_index};
ghost use Rattle.pixel.specs.Rows.{ArePremultiplied, IsLaid, IsFilled, AreOpaque, AreClear};

use crate::colour::Colour;
use crate::lanes::{are_clear, are_opaque, copy_lanes, fill_lanes, over_lanes};
use std::simd::prelude::*;

/// How many bytes are taken at a time.
pub(crate) const BLOCK: usize = 64;

// The lesser of the two bytes in each lane.
#[inline(always)]
fn lesser(a: u8x16, b: u8x16) -> u8x16
    requires a { length a ≡ 16 }
    requires b { length b ≡ 16 }
    ensures len { length result ≡ 16 }
    ensures lanes { (j : ℕ) → j < 16 → (slice_index result j ≤ slice_index a j) × (slice_index result j ≤ slice_index b j) }
{
    a.simd_min(b)
}

// The greater of the two bytes in each lane.
#[inline(always)]
fn greater(a: u8x16, b: u8x16) -> u8x16
    requires a { length a ≡ 16 }
    requires b { length b ≡ 16 }
    ensures len { length result ≡ 16 }
    ensures lanes { (j : ℕ) → j < 16 → (slice_index a j ≤ slice_index result j) × (slice_index b j ≤ slice_index result j) }
{
    a.simd_max(b)
}

// Of the four bytes in each lane's column of sixty-four bytes of a row, the least.
#[inline(always)]
fn least(row: &[u8], at: usize) -> u8x16
    requires { at + 64 ≤ length row.now }
    ensures len { length result ≡ 16 }
    ensures lanes { (i : ℕ) → i < 64 → slice_index result (i % 16) ≤ slice_index row.now (at + i) }
{
    let first = u8x16::from_slice(&row[at..]);
    let second = u8x16::from_slice(&row[at + 16..]);
    let third = u8x16::from_slice(&row[at + 32..]);
    let fourth = u8x16::from_slice(&row[at + 48..]);
    lesser(lesser(first, second), lesser(third, fourth))
}

// Of the four bytes in each lane's column of sixty-four bytes of a row, the greatest.
#[inline(always)]
fn greatest(row: &[u8], at: usize) -> u8x16
    requires { at + 64 ≤ length row.now }
    ensures len { length result ≡ 16 }
    ensures lanes { (i : ℕ) → i < 64 → slice_index row.now (at + i) ≤ slice_index result (i % 16) }
{
    let first = u8x16::from_slice(&row[at..]);
    let second = u8x16::from_slice(&row[at + 16..]);
    let third = u8x16::from_slice(&row[at + 32..]);
    let fourth = u8x16::from_slice(&row[at + 48..]);
    greater(greater(first, second), greater(third, fourth))
}

/// Whether the sixteen pixels of sixty-four bytes of a row, from byte `at` on, are opaque.
#[inline(always)]
pub fn is_opaque(row: &[u8], at: usize) -> bool
    requires inside { at + 64 ≤ length row.now }
    requires whole { at % 4 ≡ 0 }
    ensures { IsTrue result → AreOpaque at 64 row.now }
{
    are_opaque(least(row, at))
}

/// Whether sixty-four bytes of a row, from byte `at` on, are all 0.
#[inline(always)]
pub fn is_clear(row: &[u8], at: usize) -> bool
    requires { at + 64 ≤ length row.now }
    ensures { IsTrue result → AreClear at 64 row.now }
{
    are_clear(greatest(row, at))
}

// Copies the sixty-four bytes of `src`, whose pixels are opaque.
#[inline(always)]
fn copy_block(dst: &mut [u8], src: &[u8], at: usize)
    requires same { length dst.old ≡ length src.now }
    requires inside { at + 64 ≤ length src.now }
    requires whole { at % 4 ≡ 0 }
    requires opaque { AreOpaque at 64 src.now }
    ensures { IsLaid at 64 src.now dst.old dst.new }
{
    copy_lanes(dst, src, at);
    copy_lanes(dst, src, at + 16);
    copy_lanes(dst, src, at + 32);
    copy_lanes(dst, src, at + 48);
}

// Lays the sixty-four bytes of `src` over those of `dst`.
#[inline(always)]
fn blend_block(dst: &mut [u8], src: &[u8], at: usize)
    requires same { length dst.old ≡ length src.now }
    requires inside { at + 64 ≤ length src.now }
    requires whole { at % 4 ≡ 0 }
    requires premultiplied { ArePremultiplied src.now }
    ensures { IsLaid at 64 src.now dst.old dst.new }
{
    over_lanes(dst, src, at);
    over_lanes(dst, src, at + 16);
    over_lanes(dst, src, at + 32);
    over_lanes(dst, src, at + 48);
}

/// Lays sixty-four bytes of `src` over those of `dst`: opaque pixels are copied, clear ones left out.
#[inline(always)]
pub(crate) fn over_block(dst: &mut [u8], src: &[u8], at: usize)
    requires same { length dst.old ≡ length src.now }
    requires inside { at + 64 ≤ length src.now }
    requires whole { at % 4 ≡ 0 }
    requires premultiplied { ArePremultiplied src.now }
    ensures { IsLaid at 64 src.now dst.old dst.new }
{
    if is_opaque(src, at) {
        copy_block(dst, src, at);
    } else if !is_clear(src, at) {
        blend_block(dst, src, at);
    }
}

/// Gives the sixteen pixels of sixty-four bytes of a row one colour.
#[inline(always)]
pub(crate) fn fill_block(row: &mut [u8], at: usize, colour: Colour)
    requires inside { at + 64 ≤ length row.old }
    requires whole { at % 4 ≡ 0 }
    ensures { IsFilled at 64 colour row.old row.new }
{
    fill_lanes(row, at, colour);
    fill_lanes(row, at + 16, colour);
    fill_lanes(row, at + 32, colour);
    fill_lanes(row, at + 48, colour);
}
