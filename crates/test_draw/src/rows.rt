//! The jobs on one row.

ghost use Rattle.std.specs.Prelude.{◌≡◌, ◌*◌, ◌≤◌, IfOk};
ghost use Rattle.std.specs.Vec.{vec_len};
ghost use Rattle.pixel.specs.Rows.{ArePremultiplied};

use pixel::{Colour, fill_row, over_row, scale_row};
use std::alloc::{AllocError, Global};

/// The sum of some bytes.
pub(crate) fn sum_of(bytes: &[u8]) -> u64 {
    let mut sum = 0u64;
    for byte in bytes {
        sum = sum.wrapping_add(*byte as u64);
    }
    sum
}

/// The grey of an opacity, as transparent as it is dark.
pub(crate) fn grey(level: u8) -> Colour {
    match Colour::new(level, level, level, level) {
        Some(colour) => colour,
        None => Colour::CLEAR,
    }
}

/// A row of one colour.
fn row_of(alloc: Global, pixels: usize, colour: Colour) -> Result<Vec<u8>, AllocError>
    requires { pixels ≤ 65536 }
    ensures size { IfOk result (λ row. vec_len row ≡ 4 * pixels) }
    ensures premultiplied { IfOk result (λ row. ArePremultiplied row.items) }
{
    let mut row = vec![in alloc; 0u8; 4 * pixels]?;
    fill_row(row.as_mut_slice(), colour);
    Ok(row)
}

/// Lays a row of a quarter's opacity over an opaque one.
pub(crate) fn over(alloc: Global, pixels: usize, times: u32) -> Result<u64, AllocError>
    requires { pixels ≤ 65536 }
{
    let src = row_of(alloc, pixels, grey(64))?;
    let mut dst = row_of(alloc, pixels, grey(255))?;
    for _turn in 0..times {
        over_row(dst.as_mut_slice(), src.as_slice());
    }
    Ok(sum_of(dst.as_slice()))
}

/// Fades an opaque row a little each time.
pub(crate) fn scale(alloc: Global, pixels: usize, times: u32) -> Result<u64, AllocError>
    requires { pixels ≤ 65536 }
{
    let mut row = row_of(alloc, pixels, grey(255))?;
    for turn in 0..times {
        scale_row(row.as_mut_slice(), (turn % 255 + 1) as u8);
    }
    Ok(sum_of(row.as_slice()))
}

/// Gives a row another colour each time.
pub(crate) fn fill(alloc: Global, pixels: usize, times: u32) -> Result<u64, AllocError>
    requires { pixels ≤ 65536 }
{
    let mut row = row_of(alloc, pixels, Colour::CLEAR)?;
    for turn in 0..times {
        fill_row(row.as_mut_slice(), grey((turn % 256) as u8));
    }
    Ok(sum_of(row.as_slice()))
}
