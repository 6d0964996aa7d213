//! Runs of pixels in a picture.

ghost use Rattle.std.specs.Prelude.{◌+◌, ◌*◌, ◌≤◌, length};
ghost use Rattle.pixel.specs.Rows.{pixel};
ghost use Rattle.viz_canvas.specs.Formats.{bytes_at};
ghost use Rattle.viz_canvas.specs.inner.Parts.{PartOf};

use crate::copying::copy_bytes;
use crate::format::PixelFormat;

/// Writes `n` pixels of a surface, from its pixel `from` on, over those of a picture from its pixel `k` on.
pub(crate) fn write_run<F: PixelFormat>(
    bytes: &mut [u8],
    k: usize,
    n: usize,
    drawn: &[u8],
    from: usize,
)
    requires there { F.DEPTH * (k + n) ≤ length bytes.old }
    requires given { 4 * (from + n) ≤ length drawn.now }
    ensures { PartOf (bytes_at F.DEPTH) k n (λ j below. F.bytes_of (pixel drawn.now (from + j))) bytes.old bytes.new }
{
    let depth = F::DEPTH;
    F::write_row(
        &mut bytes[depth * k..depth * (k + n)],
        &drawn[4 * from..4 * (from + n)],
    );
}

/// Gives `n` pixels of a picture, from its pixel `to` on, those that stand from its pixel `from` on. They may overlap.
pub(crate) fn copy_run<F: PixelFormat>(bytes: &mut [u8], from: usize, to: usize, n: usize)
    requires given { F.DEPTH * (from + n) ≤ length bytes.old }
    requires there { F.DEPTH * (to + n) ≤ length bytes.old }
    ensures { PartOf (bytes_at F.DEPTH) to n (λ j below. bytes_at F.DEPTH bytes.old (from + j)) bytes.old bytes.new }
{
    let depth = F::DEPTH;
    copy_bytes(bytes, depth * from, depth * to, depth * n);
}
