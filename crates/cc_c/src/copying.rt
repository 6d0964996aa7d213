//! Copying a frame out.

ghost use Rattle.std.specs.Prelude.{◌≡◌, ◌≤◌, ◌<◌, ◌+◌, ◌-◌, ◌*◌, ◌/◌, ◌%◌, ℕ, true, false, length};
ghost use Rattle.pixel.specs.Rows.{pixel};
ghost use Rattle.cc_c.specs.Copies.{IsRowCopied, HoldsRows, KeepsBetween, HasRoom, frame_pixel};

use crate::exchange::copy_exchanged;
use viz_canvas::{Canvas, Rgba};

// Copies a row as it is.
fn copy_same(to: &mut [u8], at: usize, row: &[u8])
    requires whole { length row.now % 4 ≡ 0 }
    requires room { at + length row.now ≤ length to.old }
    ensures row { IsRowCopied false (length row.now / 4) at row.now to.old to.new }
    ensures length { length to.new ≡ length to.old }
{
    to[at..at + row.len()].copy_from_slice(row);
}

// Copies a row, as it is or with red and blue exchanged.
fn copy_row(to: &mut [u8], at: usize, row: &[u8], bgra: bool)
    requires whole { length row.now % 4 ≡ 0 }
    requires room { at + length row.now ≤ length to.old }
    ensures row { IsRowCopied bgra (length row.now / 4) at row.now to.old to.new }
    ensures length { length to.new ≡ length to.old }
{
    match bgra {
        true => copy_exchanged(to, at, row),
        false => copy_same(to, at, row),
    }
}

// A row of a frame.
fn row_of(frame: &Canvas<Rgba>, y: u32) -> &[u8]
    requires { y < frame.now.h }
    ensures length { length result.now ≡ 4 * frame.now.w }
    ensures pixels { (x : ℕ) → x < frame.now.w → pixel result.now x ≡ frame_pixel frame.now x y }
{
    let width = frame.w() as usize;
    let from = y as usize * width;
    &frame.bytes()[4 * from..4 * (from + width)]
}

// Whether a buffer of this length has room for the given number of rows.
fn has_room(len: usize, rows: u32, width: usize, stride: usize) -> bool
    requires { 1 ≤ rows }
    ensures yes { result ≡ true → (rows - 1) * stride + width ≤ len }
    ensures no { result ≡ false → len < (rows - 1) * stride + width }
{
    match (rows as usize - 1).checked_mul(stride) {
        Some(last) => fits_from(last, width, len),
        None => false,
    }
}

// Whether a row that begins with a byte lies in a buffer of this length.
fn fits_from(start: usize, width: usize, len: usize) -> bool
    ensures yes { result ≡ true → start + width ≤ len }
    ensures no { result ≡ false → len < start + width }
{
    if len < start {
        return false;
    }
    width <= len - start
}

// Where a row begins.
fn row_start(y: u32, rows: u32, width: usize, stride: usize, len: usize) -> usize
    requires row { y < rows }
    requires room { (rows - 1) * stride + width ≤ len }
    ensures start { result ≡ y * stride }
    ensures room { result + width ≤ len }
{
    y as usize * stride
}

// Copies rows, of which there is at least one, to a buffer that has room for them.
fn copy_rows(frame: &Canvas<Rgba>, bgra: bool, top: u32, bottom: u32, stride: usize, to: &mut [u8])
    requires some { top < bottom }
    requires there { bottom ≤ frame.now.h }
    requires apart { 4 * frame.now.w ≤ stride }
    requires room { (bottom - top - 1) * stride + 4 * frame.now.w ≤ length to.old }
    ensures rows { HoldsRows frame.now bgra top bottom stride to.new }
    ensures between { KeepsBetween (4 * frame.now.w) top bottom stride to.old to.new }
    ensures length { length to.new ≡ length to.old }
{
    let width = 4 * frame.w() as usize;
    for y in top..bottom {
        let start = row_start(y - top, bottom - top, width, stride, to.len());
        copy_row(to, start, row_of(frame, y), bgra);
    }
}

/// Copies rows of a frame to a buffer whose rows begin `stride` bytes apart, as they are or with red and blue
/// exchanged. False if the frame lacks one of them, or the buffer has no room for them; nothing is copied then.
#[tactic(auto, using(crate::proofs::CopiedRows::no_row, crate::proofs::CopiedRows::no_gap, crate::proofs::CopiedRows::no_end))]
pub fn copied(
    frame: &Canvas<Rgba>,
    bgra: bool,
    top: u32,
    bottom: u32,
    stride: usize,
    to: &mut [u8],
) -> bool
    ensures done { result ≡ true → HoldsRows frame.now bgra top bottom stride to.new }
    ensures between { result ≡ true → KeepsBetween (4 * frame.now.w) top bottom stride to.old to.new }
    ensures room { result ≡ true → HasRoom frame.now top bottom stride (length to.old) }
    ensures no_room { result ≡ false → HasRoom frame.now top bottom stride (length to.old) → ⊥ }
    ensures short { result ≡ false → to.new ≡ to.old }
{
    let width = 4 * frame.w() as usize;
    if bottom > frame.h() {
        return false;
    }
    if stride < width {
        return false;
    }
    if top >= bottom {
        return true;
    }
    if !has_room(to.len(), bottom - top, width, stride) {
        return false;
    }
    copy_rows(frame, bgra, top, bottom, stride, to);
    true
}
