//! The rows' calls byte by byte.

ghost use Rattle.std.specs.Prelude.{◌≡◌, ℕ, ◌+◌, ◌*◌, ◌<◌, ◌%◌, ◌/◌, length, slice_index};
ghost use Rattle.pixel.specs.Colours.{above, times_255};
ghost use Rattle.pixel.specs.Rows.{alpha_place, ArePremultiplied, IsLaid, IsFaded};

use crate::colour::mul255;

/// Lays one byte of `src` over that of `dst`.
pub(crate) fn over_byte(dst: &mut [u8], src: &[u8], at: usize)
    requires same { length dst.old ≡ length src.now }
    requires inside { at < length src.now }
    requires whole { length src.now % 4 ≡ 0 }
    requires premultiplied { ArePremultiplied src.now }
    ensures { IsLaid at 1 src.now dst.old dst.new }
{
    let alpha = src[at / 4 * 4 + 3];
    dst[at] = src[at] + mul255(dst[at], 255 - alpha);
}

/// Lays each pixel of `src` over that of `dst`, as `over_row` does, byte by byte.
pub fn over_row_plain(dst: &mut [u8], src: &[u8])
    requires same { length dst.old ≡ length src.now }
    requires whole { length src.now % 4 ≡ 0 }
    requires premultiplied { ArePremultiplied src.now }
    ensures bytes { (i : ℕ) → i < length dst.old
        → slice_index dst.new i ≡ above (slice_index dst.old i) (slice_index src.now i) (slice_index src.now (alpha_place i)) }
    ensures premultiplied { ArePremultiplied dst.old → ArePremultiplied dst.new }
{
    let mut at = 0;
    while at < dst.len() {
        over_byte(dst, src, at);
        at += 1;
    }
}

/// Fades one byte of a row.
pub(crate) fn fade_byte(row: &mut [u8], at: usize, opacity: u8)
    requires { at < length row.old }
    ensures { IsFaded at 1 opacity row.old row.new }
{
    row[at] = mul255(row[at], opacity);
}

/// Fades each pixel of a row to an opacity, as `scale_row` does, byte by byte.
pub fn scale_row_plain(row: &mut [u8], opacity: u8)
    ensures bytes { (i : ℕ) → i < length row.old → slice_index row.new i ≡ times_255 (slice_index row.old i) opacity }
    ensures premultiplied { ArePremultiplied row.old → ArePremultiplied row.new }
{
    for byte in row.iter_mut() {
        *byte = mul255(*byte, opacity);
    }
}
