//! Surfaces: rows of pixels one under another, and drawing into an area of one.

ghost use Rattle.std.specs.Prelude.{◌≡◌, ◌+◌, ◌-◌, ◌*◌, ◌<◌, ◌≤◌, ◌^◌, length};
ghost use Rattle.pixel.specs.Colours.{blend};
ghost use Rattle.pixel.specs.Rows.{ArePremultiplied};
ghost use Rattle.pixel.specs.Surfaces.{IsPart, IsInside, EachPixel, within_rows};
ghost use Rattle.pixel.specs.Views.{pixel_in};

use crate::colour::Colour;
use crate::four::{four_of, lay_four, lay_one};
use crate::row::fill_row;
use crate::rows::row_over_run;
use crate::view::{Pixels, Size};

/// A rect of the pixels of a surface, counted from the surface's top left corner.
#[derive(Clone, Copy, Debug, PartialEq, Eq)]
pub struct Area {
    /// The leftmost column.
    pub x: usize,
    /// The uppermost row.
    pub y: usize,
    /// How many columns.
    pub w: usize,
    /// How many rows.
    pub h: usize,
}

// Gives `n` pixels from pixel `k` on one colour.
fn fill_part(surface: &mut [u8], k: usize, n: usize, colour: Colour)
    requires { 4 * (k + n) ≤ length surface.old }
    ensures { IsPart k n (λ j below. colour) surface.old surface.new }
{
    fill_row(&mut surface[4 * k..4 * (k + n)], colour);
}

// Lays one colour over `n` pixels from pixel `k` on.
fn colour_over_part(surface: &mut [u8], k: usize, n: usize, colour: Colour)
    requires { 4 * (k + n) ≤ length surface.old }
    ensures { IsPart k n (λ j below. blend below colour) surface.old surface.new }
{
    let pixels = four_of(colour);
    let mut done = 0;
    'fours: while done + 4 <= n {
        lay_four(surface, k + done, pixels);
        done += 4;
    }
    'ones: while done < n {
        lay_one(surface, k + done, colour);
        done += 1;
    }
}

/// Gives each pixel of an area of a surface of this size one colour.
pub fn fill_area(surface: &mut [u8], size: Size, at: Area, colour: Colour)
    requires size { length surface.old ≡ 4 * (size.width * size.height) }
    requires inside { IsInside at size.width size.height }
    ensures pixels { EachPixel size.width size.height (within_rows at at.h (λ x y below. colour)) surface.old surface.new }
    ensures premultiplied { ArePremultiplied surface.old → ArePremultiplied surface.new }
{
    for row in 0..at.h {
        let place = size.place_of(at.x, at.y + row, at.w);
        fill_part(surface, place, at.w, colour);
    }
}

/// Lays one colour over each pixel of an area of a surface of this size.
pub fn colour_over_area(surface: &mut [u8], size: Size, at: Area, colour: Colour)
    requires size { length surface.old ≡ 4 * (size.width * size.height) }
    requires inside { IsInside at size.width size.height }
    ensures pixels { EachPixel size.width size.height (within_rows at at.h (λ x y below. blend below colour)) surface.old surface.new }
    ensures premultiplied { ArePremultiplied surface.old → ArePremultiplied surface.new }
{
    for row in 0..at.h {
        let place = size.place_of(at.x, at.y + row, at.w);
        colour_over_part(surface, place, at.w, colour);
    }
}

/// Lays the pixels of an image over an area of a surface of this size: those from column `from_x` and row `from_y` of
/// the image on.
pub fn image_over_area(
    surface: &mut [u8],
    size: Size,
    at: Area,
    image: &Pixels<'_>,
    from_x: usize,
    from_y: usize,
)
    requires size { length surface.old ≡ 4 * (size.width * size.height) }
    requires inside { IsInside at size.width size.height }
    requires columns { from_x + at.w ≤ image.now.size.width }
    requires rows { from_y + at.h ≤ image.now.size.height }
    ensures pixels { EachPixel size.width size.height
        (within_rows at at.h (λ x y below. blend below (pixel_in image.now (x - at.x + from_x) (y - at.y + from_y))))
        surface.old surface.new }
    ensures premultiplied { ArePremultiplied surface.old → ArePremultiplied surface.new }
{
    let pixels = image.bytes();
    for row in 0..at.h {
        let place = size.place_of(at.x, at.y + row, at.w);
        let from = image.size().place_of(from_x, from_y + row, at.w);
        row_over_run(surface, place, at.w, pixels, from);
    }
}
