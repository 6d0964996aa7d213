//! Rows of pixels as bytes: red, green, blue and alpha of each pixel in turn.

ghost use Rattle.std.specs.Prelude.{◌≡◌, ℕ, ◌+◌, ◌<◌, ◌≤◌, ◌%◌, ◌/◌, length, slice_index, MatchOption};
ghost use Rattle.pixel.specs.Colours.{is_colour, above, times_255};
ghost use Rattle.pixel.specs.Rows.{pixel, ArePremultiplied, IsFirstBadPixel, IsFilled, alpha_place};

use crate::blocks::{BLOCK, fill_block, over_block};
use crate::colour::Colour;
use crate::lanes::{LANES, fade_lanes, fill_lanes, over_lanes};
use crate::plain::{fade_byte, over_byte};

/// Pixel `i` of a row of premultiplied pixels.
pub fn colour_at(row: &[u8], i: usize) -> Colour
    requires inside { i < length row.now / 4 }
    requires premultiplied { ArePremultiplied row.now }
    ensures { result ≡ pixel row.now i }
{
    let at = 4 * i;
    Colour::of_parts(row[at], row[at + 1], row[at + 2], row[at + 3])
}

// Whether red, green and blue are at most alpha.
fn is_premultiplied(r: u8, g: u8, b: u8, a: u8) -> bool
    ensures { result ≡ is_colour (record { r = r; g = g; b = b; a = a }) }
{
    let low = r <= a && g <= a;
    low && b <= a
}

/// The first pixel of a row of whole pixels that is not premultiplied; `None` if all are.
pub fn first_wrong(row: &[u8]) -> Option<usize>
    requires { length row.now % 4 ≡ 0 }
    ensures { MatchOption result (ArePremultiplied row.now) (λ k. IsFirstBadPixel row.now k) }
{
    let count = row.len() / 4;
    for k in 0..count {
        let at = 4 * k;
        if !is_premultiplied(row[at], row[at + 1], row[at + 2], row[at + 3]) {
            return Some(k);
        }
    }
    None
}

// Gives the pixel that begins at a byte a colour.
fn put_pixel(row: &mut [u8], at: usize, colour: Colour)
    requires inside { at + 4 ≤ length row.old }
    requires whole { at % 4 ≡ 0 }
    ensures { IsFilled at 4 colour row.old row.new }
{
    row[at] = colour.r();
    row[at + 1] = colour.g();
    row[at + 2] = colour.b();
    row[at + 3] = colour.a();
}

/// Gives each pixel of a row of whole pixels one colour.
#[tactic(auto, using(crate::proofs::Fills::filled_pixel, crate::proofs::Fills::filled_premultiplied))]
pub fn fill_row(dst: &mut [u8], colour: Colour)
    requires { length dst.old % 4 ≡ 0 }
    ensures pixels { (k : ℕ) → k < length dst.old / 4 → pixel dst.new k ≡ colour }
    ensures premultiplied { ArePremultiplied dst.new }
{
    let mut at = 0;
    'sixty_fours: while at + BLOCK <= dst.len() {
        fill_block(dst, at, colour);
        at += BLOCK;
    }
    'sixteens: while at + LANES <= dst.len() {
        fill_lanes(dst, at, colour);
        at += LANES;
    }
    'pixels: while at < dst.len() {
        put_pixel(dst, at, colour);
        at += 4;
    }
}

/// Lays each pixel of `src` over that of `dst`: rows of whole pixels, of one length.
pub fn over_row(dst: &mut [u8], src: &[u8])
    requires same { length dst.old ≡ length src.now }
    requires whole { length src.now % 4 ≡ 0 }
    requires premultiplied { ArePremultiplied src.now }
    ensures bytes { (i : ℕ) → i < length dst.old
        → slice_index dst.new i ≡ above (slice_index dst.old i) (slice_index src.now i) (slice_index src.now (alpha_place i)) }
    ensures premultiplied { ArePremultiplied dst.old → ArePremultiplied dst.new }
{
    let mut at = 0;
    'sixty_fours: while at + BLOCK <= dst.len() {
        over_block(dst, src, at);
        at += BLOCK;
    }
    'sixteens: while at + LANES <= dst.len() {
        over_lanes(dst, src, at);
        at += LANES;
    }
    'ones: while at < dst.len() {
        over_byte(dst, src, at);
        at += 1;
    }
}

/// Fades each pixel of a row to an opacity of 0 (transparent) to 255 (unchanged).
pub fn scale_row(row: &mut [u8], opacity: u8)
    ensures bytes { (i : ℕ) → i < length row.old → slice_index row.new i ≡ times_255 (slice_index row.old i) opacity }
    ensures premultiplied { ArePremultiplied row.old → ArePremultiplied row.new }
{
    let mut at = 0;
    'sixteens: while at + LANES <= row.len() {
        fade_lanes(row, at, opacity);
        at += LANES;
    }
    'ones: while at < row.len() {
        fade_byte(row, at, opacity);
        at += 1;
    }
}
