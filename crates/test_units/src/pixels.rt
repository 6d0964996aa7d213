//! Rows worked by hand, and the kernels beside the plain loops.

ghost use Rattle.std.specs.Prelude.{◌*◌, ◌≤◌, length};

use pixel::{Colour, fill_row, first_wrong, over_row, over_row_plain, scale_row, scale_row_plain};
use std::alloc::{AllocError, Global};
use test_table::{Checks, LineFault};

/// Half-transparent red over white, at lengths on both sides of the kernels' sixteen bytes.
pub fn half_red_over_white(alloc: Global, checks: &mut Checks) -> Result<(), LineFault> {
    let red = Colour::new(0x80, 0, 0, 0x80).unwrap_or(Colour::CLEAR);
    let white = Colour::new(0xff, 0xff, 0xff, 0xff).unwrap_or(Colour::CLEAR);
    for count in [1usize, 4, 7, 33] {
        let mut src = vec![in alloc; 0u8; 4 * count]?;
        let mut dst = vec![in alloc; 0u8; 4 * count]?;
        fill_row(src.as_mut_slice(), red);
        fill_row(dst.as_mut_slice(), white);
        over_row(dst.as_mut_slice(), src.as_slice());
        for (i, byte) in dst.iter().enumerate() {
            let want = if i % 4 == 1 || i % 4 == 2 { 0x7f } else { 0xff };
            checks.same("a byte of the row", byte, &want);
        }
    }
    let pink = Colour::new(0xff, 0x7f, 0x7f, 0xff);
    checks.same("one pixel", &Some(white.over(red)), &pink);
    checks.same("no colour", &Colour::new(1, 0, 2, 1), &None);
    Ok(())
}

/// Writes premultiplied pixels of many alphas, beginning with this one.
fn write_pixels(row: &mut [u8], alpha: u8) {
    let mut a = alpha;
    for byte in row.iter_mut().enumerate() {
        let (i, byte) = byte;
        *byte = match i % 4 {
            0 => a,
            1 => a / 2,
            2 => a / 3,
            _ => a,
        };
        if i % 4 == 3 {
            a = a.wrapping_add(7);
        }
    }
}

/// Whether the kernels and the plain loops lay and fade the given number of pixels to the same bytes.
fn is_same(alloc: Global, src: &mut [u8], count: usize, alpha: u8) -> Result<bool, AllocError>
    requires { 4 * count ≤ length src.old }
{
    write_pixels(src, alpha);
    let over = &src[..4 * count];
    if let Some(_wrong) = first_wrong(over) {
        return Ok(false);
    }
    let mut first = vec![in alloc; alpha; 4 * count]?;
    let mut second = vec![in alloc; alpha; 4 * count]?;
    over_row(first.as_mut_slice(), over);
    over_row_plain(second.as_mut_slice(), over);
    let laid = first.as_slice() == second.as_slice();
    scale_row(first.as_mut_slice(), alpha);
    scale_row_plain(second.as_mut_slice(), alpha);
    Ok(laid && first.as_slice() == second.as_slice())
}

/// The kernels and the plain loops write the same bytes, at all lengths up to 70 pixels and all alphas.
pub fn kernels_as_plain_loops(alloc: Global, checks: &mut Checks) -> Result<(), LineFault> {
    let mut bytes = vec![in alloc; 0u8; 280]?;
    let src = bytes.as_mut_slice();
    for count in 0usize..71 {
        for alpha in 0u8..=255 {
            let same = is_same(alloc, src, count, alpha)?;
            checks.holds("both write the same bytes", same);
        }
    }
    Ok(())
}
