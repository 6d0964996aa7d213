//! Red, green, blue and alpha.

ghost use Rattle.std.specs.Prelude.{[], ◌∷◌};

use crate::format::PixelFormat;

/// Red, green, blue and alpha of each pixel.
#[derive(Drop)]
pub struct Rgba;

impl PixelFormat for Rgba {
    ghost use Rattle.std.proofs.Common.{arith};

    ghost DEPTH = { 4 };

    ghost bytes_of = { λ c. c.r ∷ c.g ∷ c.b ∷ c.a ∷ [] };

    ghost some = { Prim.omega arith };

    ghost few = { Prim.omega arith };

    const DEPTH: usize = 4;

    fn write_row(bytes: &mut [u8], drawn: &[u8]) {
        bytes.copy_from_slice(drawn);
    }
}
