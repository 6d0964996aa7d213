//! Red, green and blue.

ghost use Rattle.std.specs.Prelude.{[], ◌∷◌};

use crate::format::PixelFormat;
use crate::row::pack_row;

/// Red, green and blue of each pixel, as portable pixmaps have them.
#[derive(Drop)]
pub struct Rgb;

impl PixelFormat for Rgb {
    ghost use Rattle.std.proofs.Common.{arith};

    ghost DEPTH = { 3 };

    ghost bytes_of = { λ c. c.r ∷ c.g ∷ c.b ∷ [] };

    ghost some = { Prim.omega arith };

    ghost few = { Prim.omega arith };

    const DEPTH: usize = 3;

    fn write_row(bytes: &mut [u8], drawn: &[u8]) {
        pack_row(bytes, drawn);
    }
}
