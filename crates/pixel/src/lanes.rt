//! Sixteen bytes of a row at a time, two of them in each lane of sixteen bits.

ghost use Rattle.std.specs.Prelude.{◌≡◌, ℕ, ◌+◌, ◌-◌, ◌*◌, ◌/◌, ◌%◌, ◌<◌, ◌≤◌, ◌↔◌, IsTrue, length, slice_index};
ghost use Rattle.pixel.specs.Colours.{times_255};
ghost use Rattle.pixel.specs.Rows.{alpha_place, ArePremultiplied, IsLaid, IsFaded, IsFilled, component_of, AreOpaque, AreClear};
ghost use Rattle.pixel.specs.LaneBytes.{IsBytes, AreParts};

use crate::colour::Colour;
use std::simd::prelude::*;

/// How many bytes are taken at a time.
pub(crate) const LANES: usize = 16;

// The bytes at even places.
#[inline(always)]
fn low_bytes(v: u8x16) -> u16x8
    requires { IsBytes v }
    ensures len { length result ≡ 8 }
    ensures lanes { (j : ℕ) → j < 8 → slice_index result j ≡ slice_index v (2 * j) }
{
    u16x8::from_le_bytes(v) & u16x8::splat(255)
}

// The bytes at odd places.
#[inline(always)]
fn high_bytes(v: u8x16) -> u16x8
    requires { IsBytes v }
    ensures len { length result ≡ 8 }
    ensures lanes { (j : ℕ) → j < 8 → slice_index result j ≡ slice_index v (2 * j + 1) }
{
    u16x8::from_le_bytes(v) >> u16x8::splat(8)
}

// How much of what stands below each lane's pixel shows through: 255 minus its alpha.
#[inline(always)]
fn kept(v: u8x16) -> u16x8
    requires { IsBytes v }
    ensures len { length result ≡ 8 }
    ensures lanes { (j : ℕ) → j < 8 → slice_index result j ≡ 255 - slice_index v (alpha_place (2 * j)) }
{
    u16x8::splat(255) - high_bytes(v).swizzle([1, 1, 3, 3, 5, 5, 7, 7])
}

// The upper sixteen bits of the products of the lanes by 257. A processor has one instruction for it.
#[inline(always)]
fn upper_halves(v: u16x8) -> u16x8
    requires { length v ≡ 8 }
    ensures len { length result ≡ 8 }
    ensures lanes { (j : ℕ) → j < 8 → slice_index result j ≡ slice_index v j * 257 / 65536 }
{
    let products = v.cast::<u32>() * u32x8::splat(257);
    (products >> u32x8::splat(16)).cast::<u16>()
}

// The products of two parts of 255 as parts of 255.
#[inline(always)]
fn products(x: u16x8, y: u16x8) -> u16x8
    requires x { AreParts x }
    requires y { AreParts y }
    ensures parts { AreParts result }
    ensures lanes { (j : ℕ) → j < 8 → slice_index result j ≡ times_255 (slice_index x j) (slice_index y j) }
{
    upper_halves(x * y + u16x8::splat(128))
}

// The bytes of the lanes, those of `low` at even places and those of `high` at odd places.
#[inline(always)]
fn bytes_of(low: u16x8, high: u16x8) -> u8x16
    requires low { AreParts low }
    requires high { AreParts high }
    ensures len { length result ≡ 16 }
    ensures even { (j : ℕ) → j < 8 → slice_index result (2 * j) ≡ slice_index low j }
    ensures odd { (j : ℕ) → j < 8 → slice_index result (2 * j + 1) ≡ slice_index high j }
{
    let raised = high
        .to_le_bytes()
        .swizzle([1, 0, 3, 2, 5, 4, 7, 6, 9, 8, 11, 10, 13, 12, 15, 14]);
    low.to_le_bytes() + raised
}

/// Each byte of `dst` times what shows through of the pixel of `src`.
#[inline(always)]
pub fn shown(dst: u8x16, src: u8x16) -> u8x16
    requires dst { IsBytes dst }
    requires src { IsBytes src }
    ensures len { length result ≡ 16 }
    ensures lanes { (i : ℕ) → i < 16 → slice_index result i ≡ times_255 (slice_index dst i) (255 - slice_index src (alpha_place i)) }
    ensures low { (i : ℕ) → i < 16 → slice_index result i ≤ 255 - slice_index src (alpha_place i) }
{
    let kept = kept(src);
    bytes_of(
        products(low_bytes(dst), kept),
        products(high_bytes(dst), kept),
    )
}

/// Each byte of `v` faded to an opacity.
#[inline(always)]
pub fn faded(v: u8x16, opacity: u8) -> u8x16
    requires { IsBytes v }
    ensures len { length result ≡ 16 }
    ensures lanes { (i : ℕ) → i < 16 → slice_index result i ≡ times_255 (slice_index v i) opacity }
{
    let part = u16x8::splat(opacity as u16);
    bytes_of(products(low_bytes(v), part), products(high_bytes(v), part))
}

/// Lays sixteen bytes of `src` over those of `dst`.
#[inline(always)]
pub(crate) fn over_lanes(dst: &mut [u8], src: &[u8], at: usize)
    requires same { length dst.old ≡ length src.now }
    requires inside { at + 16 ≤ length src.now }
    requires whole { at % 4 ≡ 0 }
    requires premultiplied { ArePremultiplied src.now }
    ensures { IsLaid at 16 src.now dst.old dst.new }
{
    let over = u8x16::from_slice(&src[at..]);
    let below = u8x16::from_slice(&dst[at..]);
    (over + shown(below, over)).copy_to_slice(&mut dst[at..]);
}

/// Copies sixteen bytes of `src`, whose pixels are opaque.
#[inline(always)]
pub(crate) fn copy_lanes(dst: &mut [u8], src: &[u8], at: usize)
    requires same { length dst.old ≡ length src.now }
    requires inside { at + 16 ≤ length src.now }
    requires opaque { AreOpaque at 16 src.now }
    ensures { IsLaid at 16 src.now dst.old dst.new }
{
    u8x16::from_slice(&src[at..]).copy_to_slice(&mut dst[at..]);
}

/// Whether four pixels are opaque.
#[inline(always)]
pub fn are_opaque(v: u8x16) -> bool
    requires { IsBytes v }
    ensures { IsTrue result ↔ AreOpaque 0 16 v }
{
    let opaque = [0, 0, 0, 255, 0, 0, 0, 255, 0, 0, 0, 255, 0, 0, 0, 255];
    v.simd_lt(u8x16::from_array(opaque)).to_bitmask() == 0
}

/// Whether sixteen bytes are all 0.
#[inline(always)]
pub fn are_clear(v: u8x16) -> bool
    requires { IsBytes v }
    ensures { IsTrue result ↔ AreClear 0 16 v }
{
    v.simd_ne(u8x16::splat(0)).to_bitmask() == 0
}

/// Fades sixteen bytes of a row to an opacity.
#[inline(always)]
pub(crate) fn fade_lanes(row: &mut [u8], at: usize, opacity: u8)
    requires { at + 16 ≤ length row.old }
    ensures { IsFaded at 16 opacity row.old row.new }
{
    let v = u8x16::from_slice(&row[at..]);
    faded(v, opacity).copy_to_slice(&mut row[at..]);
}

/// Four pixels of one colour.
#[inline(always)]
pub fn four_pixels(colour: Colour) -> u8x16
    ensures len { length result ≡ 16 }
    ensures lanes { (i : ℕ) → i < 16 → slice_index result i ≡ component_of colour (i % 4) }
{
    let (r, g, b, a) = (colour.r(), colour.g(), colour.b(), colour.a());
    u8x16::from_array([r, g, b, a, r, g, b, a, r, g, b, a, r, g, b, a])
}

/// Gives four pixels of a row one colour.
#[inline(always)]
pub(crate) fn fill_lanes(row: &mut [u8], at: usize, colour: Colour)
    requires inside { at + 16 ≤ length row.old }
    requires whole { at % 4 ≡ 0 }
    ensures { IsFilled at 16 colour row.old row.new }
{
    four_pixels(colour).copy_to_slice(&mut row[at..]);
}
