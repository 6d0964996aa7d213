//! Pixels in memory, row by row from the top.

ghost use Rattle.std.specs.Prelude.{◌≡◌, ◌+◌, ◌*◌, ◌<◌, ◌≤◌, ◌^◌, length};
ghost use Rattle.pixel.specs.Rows.{ArePremultiplied};

use std::marker::Model;

/// How many pixels a row of a surface has, and how many rows there are.
#[derive(Clone, Copy, Debug, PartialEq, Eq)]
pub struct Size {
    /// How many columns.
    pub width: usize,
    /// How many rows.
    pub height: usize,
}

impl Size {
    /// Where a run of `run` pixels stands that begins in column `x` of row `y`: how many pixels stand before it, row by
    /// row from the top.
    pub fn place_of(self, x: usize, y: usize, run: usize) -> usize
        requires across { x + run ≤ self.width }
        requires down { y < self.height }
        requires small { self.width * self.height < 2 ^ 64 }
        ensures value { result ≡ y * self.width + x }
        ensures inside { result + run ≤ self.width * self.height }
    {
        y * self.width + x
    }
}

/// Premultiplied pixels that are read, row by row from the top: red, green, blue and alpha of each. Bytes may stand
/// after them, which say nothing.
#[derive(Drop)]
pub struct Pixels<'a> {
    bytes: &'a [u8],
    size: Size,
}

impl<'a> Model for Pixels<'a> {
    ghost use Rattle.pixel.specs.Views.{PixelsView, ArePixels};

    ghost Value = { PixelsView };

    ghost view = { λ p. record { bytes = p.bytes.now; size = p.size } };

    ghost invariant = { λ p. ArePixels (record { bytes = p.bytes.now; size = p.size }) };
}

impl<'a> Pixels<'a> {
    /// As many pixels as this size has, from the start of some bytes.
    pub fn new(bytes: &'a [u8], size: Size) -> Pixels<'a>
        requires room { 4 * (size.width * size.height) ≤ length bytes.now }
        requires premultiplied { ArePremultiplied bytes.now }
        ensures { result ≡ record { bytes = bytes.now; size = size } }
    {
        Pixels { bytes, size }
    }

    /// How many pixels a row has, and how many rows there are.
    pub fn size(&self) -> Size
        ensures value { result ≡ self.now.size }
        ensures room { 4 * (self.now.size.width * self.now.size.height) ≤ length self.now.bytes }
    {
        self.size
    }

    /// The bytes of the pixels, and those after them.
    pub fn bytes(&self) -> &'a [u8]
        ensures value { result.now ≡ self.now.bytes }
        ensures premultiplied { ArePremultiplied self.now.bytes }
    {
        self.bytes
    }
}
