//! Blue, green, red and alpha.

ghost use Rattle.std.specs.Prelude.{◌+◌, ◌*◌, ◌≤◌, [], ◌∷◌, length};
ghost use Rattle.viz_canvas.specs.inner.Packing.{AreTurned};

use crate::format::PixelFormat;

/// Blue, green, red and alpha of each pixel, as most screens have them.
#[derive(Drop)]
pub struct Bgra;

impl PixelFormat for Bgra {
    ghost use Rattle.std.proofs.Common.{arith};

    ghost DEPTH = { 4 };

    ghost bytes_of = { λ c. c.b ∷ c.g ∷ c.r ∷ c.a ∷ [] };

    ghost some = { Prim.omega arith };

    ghost few = { Prim.omega arith };

    const DEPTH: usize = 4;

    fn write_row(bytes: &mut [u8], drawn: &[u8]) {
        for place in 0..drawn.len() / 4 {
            turn_pixel(bytes, drawn, place);
        }
    }
}

// Writes one pixel, if those before it are written.
#[inline(always)]
fn turn_pixel(bytes: &mut [u8], drawn: &[u8], place: usize)
    requires given { 4 * place + 4 ≤ length drawn.now }
    requires room { 4 * place + 4 ≤ length bytes.old }
    requires before { AreTurned place drawn.now bytes.old }
    ensures { AreTurned (place + 1) drawn.now bytes.new }
{
    let at = 4 * place;
    bytes[at] = drawn[at + 2];
    bytes[at + 1] = drawn[at + 1];
    bytes[at + 2] = drawn[at];
    bytes[at + 3] = drawn[at + 3];
}
