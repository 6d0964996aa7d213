//! Four pixels in a vector.

ghost use Rattle.std.specs.Prelude.{◌≡◌, ℕ, ◌<◌, length, slice_index};
ghost use Rattle.pixel.specs.Colours.{above, times_255};
ghost use Rattle.pixel.specs.Rows.{alpha_place, ArePremultiplied};
ghost use Rattle.pixel.specs.LaneBytes.{IsBytes};

use crate::lanes::{faded, shown};
use std::simd::prelude::*;

/// Four pixels laid over four others.
#[inline(always)]
pub fn laid(below: u8x16, over: u8x16) -> u8x16
    requires below { IsBytes below }
    requires over { IsBytes over }
    requires premultiplied { ArePremultiplied over }
    ensures len { length result ≡ 16 }
    ensures lanes { (i : ℕ) → i < 16 → slice_index result i ≡ above (slice_index below i) (slice_index over i) (slice_index over (alpha_place i)) }
{
    over + shown(below, over)
}

/// Four pixels faded to an opacity.
#[inline(always)]
pub fn scaled(pixels: u8x16, opacity: u8) -> u8x16
    requires pixels { IsBytes pixels }
    requires premultiplied { ArePremultiplied pixels }
    ensures bytes { IsBytes result }
    ensures lanes { (i : ℕ) → i < 16 → slice_index result i ≡ times_255 (slice_index pixels i) opacity }
    ensures premultiplied { ArePremultiplied result }
{
    faded(pixels, opacity)
}
