//! Rows of pixels, packed.

ghost use Rattle.std.specs.Prelude.{◌≡◌, ℕ, ◌+◌, ◌*◌, ◌/◌, ◌%◌, ◌<◌, ◌≤◌, length};
ghost use Rattle.pixel.specs.Rows.{pixel};
ghost use Rattle.viz_canvas.specs.inner.Packing.{IsRgb, ArePacked};

use crate::lanes::{BLOCK, LANES, ROOM, pack_four, pack_sixteen};

// Packs one pixel of a row.
fn pack_pixel(packed: &mut [u8], row: &[u8], place: usize)
    requires given { 4 * place + 4 ≤ length row.now }
    requires room { 3 * place + 3 ≤ length packed.old }
    ensures { ArePacked place 1 row.now packed.old packed.new }
{
    let (to, from) = (3 * place, 4 * place);
    packed[to] = row[from];
    packed[to + 1] = row[from + 1];
    packed[to + 2] = row[from + 2];
}

/// Packs a row of whole pixels: red, green and blue of each pixel, in order.
pub(crate) fn pack_row(packed: &mut [u8], row: &[u8])
    requires whole { length row.now % 4 ≡ 0 }
    requires room { length packed.old ≡ 3 * (length row.now / 4) }
    ensures { (k : ℕ) → k < length row.now / 4 → IsRgb (pixel row.now k) k packed.new }
{
    let mut place = 0;
    'sixteens: while 3 * place + ROOM <= packed.len() {
        pack_sixteen(packed, row, place);
        place += BLOCK;
    }
    'fours: while 3 * place + LANES <= packed.len() {
        pack_four(packed, row, place);
        place += 4;
    }
    'ones: while 3 * place < packed.len() {
        pack_pixel(packed, row, place);
        place += 1;
    }
}
