//! Four pixels of a surface at a time, and one.

ghost use Rattle.std.specs.Prelude.{◌≡◌, ℕ, ◌+◌, ◌*◌, ◌<◌, ◌≤◌, length};
ghost use Rattle.pixel.specs.Colours.{blend};
ghost use Rattle.pixel.specs.Rows.{pixel, ArePremultiplied};
ghost use Rattle.pixel.specs.LaneBytes.{IsBytes};
ghost use Rattle.pixel.specs.Surfaces.{IsPart};

use crate::colour::Colour;
use crate::lanes::four_pixels;
use crate::row::{fill_row, over_row};
use crate::vectors::laid;
use std::simd::prelude::*;

/// The four pixels of a row from pixel `k` on.
#[inline(always)]
pub fn four_at(row: &[u8], k: usize) -> u8x16
    requires inside { 4 * (k + 4) ≤ length row.now }
    requires premultiplied { ArePremultiplied row.now }
    ensures bytes { IsBytes result }
    ensures pixels { (j : ℕ) → j < 4 → pixel result j ≡ pixel row.now (k + j) }
    ensures premultiplied { ArePremultiplied result }
{
    u8x16::from_slice(&row[4 * k..])
}

/// Gives the four pixels of a surface from pixel `k` on those of a vector.
#[inline(always)]
pub fn put_four(surface: &mut [u8], k: usize, pixels: u8x16)
    requires inside { 4 * (k + 4) ≤ length surface.old }
    requires bytes { IsBytes pixels }
    requires premultiplied { ArePremultiplied pixels }
    ensures { IsPart k 4 (λ j below. pixel pixels j) surface.old surface.new }
{
    pixels.copy_to_slice(&mut surface[4 * k..]);
}

/// Lays the four pixels of a vector over those of a surface from pixel `k` on.
#[inline(always)]
pub fn lay_four(surface: &mut [u8], k: usize, pixels: u8x16)
    requires inside { 4 * (k + 4) ≤ length surface.old }
    requires bytes { IsBytes pixels }
    requires premultiplied { ArePremultiplied pixels }
    ensures { IsPart k 4 (λ j below. blend below (pixel pixels j)) surface.old surface.new }
{
    let below = u8x16::from_slice(&surface[4 * k..]);
    laid(below, pixels).copy_to_slice(&mut surface[4 * k..]);
}

/// Lays a colour over pixel `k` of a surface.
#[inline(always)]
pub fn lay_one(surface: &mut [u8], k: usize, colour: Colour)
    requires { 4 * (k + 1) ≤ length surface.old }
    ensures { IsPart k 1 (λ j below. blend below colour) surface.old surface.new }
{
    let mut pixel = [0u8; 4];
    fill_row(&mut pixel, colour);
    over_row(&mut surface[4 * k..4 * (k + 1)], &pixel);
}

/// Four pixels of one colour.
#[inline(always)]
pub fn four_of(colour: Colour) -> u8x16
    ensures bytes { IsBytes result }
    ensures pixels { (j : ℕ) → j < 4 → pixel result j ≡ colour }
    ensures premultiplied { ArePremultiplied result }
{
    four_pixels(colour)
}
