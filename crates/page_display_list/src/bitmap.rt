//! Bitmaps: rects whose pixels are given one by one.

ghost use Rattle.std.specs.Prelude.{◌≡◌, ◌+◌, ◌*◌, ◌<◌, ◌-ℤ◌, true, false, MatchOption, MatchResult, IfOk};
ghost use Rattle.geom.specs.Covers.{covers, within, IsSound, IsSpan};
ghost use Rattle.page_display_list.specs.Bitmaps.{BitmapModel, IsBitmap, bitmap_pixel, has_sides, byte_count, near};
ghost use Rattle.page_display_list.specs.Causes.{IsBitmapCause};

use geom::Rect;
use pixel::{Colour, Pixels, Size, colour_at, first_wrong};
use std::alloc::AllocError;
use std::marker::Model;
use std::sync::Arc;

/// A rect with its pixels: sides of 1 to 256 pixels, four bytes a pixel, each pixel premultiplied. Copies of a bitmap
/// share the pixels.
pub struct Bitmap {
    rect: Rect,
    pixels: Arc<Vec<u8>>,
}

impl Model for Bitmap {
    ghost use Rattle.page_display_list.specs.Bitmaps.{BitmapModel, IsBitmap};

    ghost Value = { BitmapModel };

    ghost view = { λ b. record { rect = b.rect; pixels = b.pixels.value.items } };

    ghost invariant = { λ b. IsBitmap (record { rect = b.rect; pixels = b.pixels.value.items }) };
}

// Written out, since a derived drop is proved anew, field by field, in each function that lets one go.
impl Drop for Bitmap {
    fn drop(self) {
        let Bitmap { rect: _, pixels: _ } = self;
    }
}

/// What is wrong with the bytes of a bitmap: the first cause that applies, in this order.
#[derive(Clone, Copy, Debug, PartialEq, Eq)]
pub enum BitmapCause {
    /// A side of the rect is not 1 to 256.
    Side,
    /// The bytes are not four for each pixel of the rect.
    Length {
        /// How many bytes were given.
        given: usize,
        /// How many the rect takes.
        wanted: usize,
    },
    /// This pixel is the first, from 0, whose red, green or blue exceeds its alpha.
    Pixel {
        /// The pixel's number, row by row from the top.
        place: usize,
    },
}

/// Bytes that are no bitmap, handed back with the cause.
#[derive(Drop)]
pub struct BadBitmap {
    /// The bytes as they were given.
    pub pixels: Arc<Vec<u8>>,
    /// What is wrong with them.
    pub cause: BitmapCause,
}

/// How many bytes the pixels of a bitmap of these sides take; `None` if a side is not 1 to 256.
#[tactic(auto, unfolding(crate::specs::Bitmaps::has_sides))]
fn bytes_of(w: i32, h: i32) -> Option<usize>
    ensures { MatchOption result (has_sides w h ≡ false) (λ n. (has_sides w h ≡ true) × (n ≡ byte_count w h)) }
{
    let across = 1 <= w && w <= 256;
    let down = 1 <= h && h <= 256;
    if across && down {
        Some(4 * (w as usize * h as usize))
    } else {
        None
    }
}

/// How far after the start of a span one of its numbers lies.
#[tactic(auto, unfolding(geom::specs::Covers::within))]
fn distance_in(at: i32, len: i32, p: i32) -> usize
    requires span { IsSpan at len }
    requires inside { within at len p ≡ true }
    ensures value { result ≡ near (p -ℤ at) }
    ensures below { result < near len }
{
    (p - at) as usize
}

/// The place of a pixel in rows of `w`.
fn place_of(row: usize, column: usize, w: i32, h: i32) -> usize
    requires low { row < near h }
    requires left { column < near w }
    requires sides { has_sides w h ≡ true }
    ensures value { result ≡ row * near w + column }
    ensures below { result < near w * near h }
{
    row * w as usize + column
}

impl Bitmap {
    /// The bitmap of these bytes, or the bytes with the first cause that applies.
    pub(crate) fn new(rect: Rect, pixels: Arc<Vec<u8>>) -> Result<Bitmap, BadBitmap>
        ensures { MatchResult result
            (λ b. (b ≡ record { rect = rect; pixels = pixels.value.items }) × IsBitmap b)
            (λ e. (e.pixels ≡ pixels) × IsBitmapCause rect pixels.value.items e.cause) }
    {
        let Some(wanted) = bytes_of(rect.w, rect.h) else {
            return Err(BadBitmap {
                pixels,
                cause: BitmapCause::Side,
            });
        };
        let given = pixels.len();
        if given != wanted {
            return Err(BadBitmap {
                pixels,
                cause: BitmapCause::Length { given, wanted },
            });
        }
        match first_wrong(pixels.as_slice()) {
            Some(place) => Err(BadBitmap {
                pixels,
                cause: BitmapCause::Pixel { place },
            }),
            None => Ok(Bitmap { rect, pixels }),
        }
    }

    /// Where the bitmap lies.
    pub fn rect(&self) -> Rect
        ensures value { result ≡ self.now.rect }
        ensures sides { has_sides result.w result.h ≡ true }
    {
        self.rect
    }

    /// The pixels, row by row from the top, each row from the left: red, green, blue and alpha.
    pub fn pixels(&self) -> &[u8]
        ensures value { result.now ≡ self.now.pixels }
        ensures right { IsBitmap self.now }
    {
        self.pixels.as_slice()
    }

    /// The pixels, with their size.
    pub fn as_pixels(&self) -> Pixels<'_>
        ensures { result ≡ record { bytes = self.now.pixels; size = record { width = near self.now.rect.w; height = near self.now.rect.h } } }
    {
        let size = Size {
            width: self.width(),
            height: self.height(),
        };
        Pixels::new(self.pixels(), size)
    }

    // How many pixels a row of the bitmap has.
    #[tactic(auto, unfolding(crate::specs::Bitmaps::has_sides))]
    fn width(&self) -> usize
        ensures { result ≡ near self.now.rect.w }
    {
        let side = self.rect.w;
        side as usize
    }

    // How many rows the bitmap has.
    #[tactic(auto, unfolding(crate::specs::Bitmaps::has_sides))]
    fn height(&self) -> usize
        ensures { result ≡ near self.now.rect.h }
    {
        let side = self.rect.h;
        side as usize
    }

    /// A copy of the bitmap, which shares its pixels.
    pub(crate) fn copy(&self) -> Result<Bitmap, AllocError>
        ensures { IfOk result (λ b. b ≡ self.now) }
    {
        let pixels = Arc::try_clone(&self.pixels)?;
        Ok(Bitmap {
            rect: self.rect,
            pixels,
        })
    }

    /// The pixel at a point that the rect covers.
    #[tactic(auto, unfolding(crate::specs::Bitmaps::bitmap_pixel))]
    pub(crate) fn colour_at(&self, x: i32, y: i32) -> Colour
        requires sound { IsSound self.now.rect }
        requires covered { covers self.now.rect x y ≡ true }
        ensures { result ≡ bitmap_pixel self.now x y }
    {
        let rect = self.rect;
        let column = distance_in(rect.x, rect.w, x);
        let row = distance_in(rect.y, rect.h, y);
        colour_at(
            self.pixels.as_slice(),
            place_of(row, column, rect.w, rect.h),
        )
    }
}
