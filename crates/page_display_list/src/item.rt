//! The items of a display list.

ghost use Rattle.std.specs.Prelude.{◌≡◌, MatchResult, IfOk};
ghost use Rattle.page_display_list.specs.Bitmaps.{BitmapModel, IsBitmap};
ghost use Rattle.page_display_list.specs.Causes.{IsBitmapCause};
ghost use Rattle.page_display_list.specs.Content.{rect_of_item, painted, IsSoundItem};

use crate::bitmap::{BadBitmap, Bitmap};
use geom::{Point, Rect};
use pixel::Colour;
use std::alloc::AllocError;
use std::sync::Arc;

/// One thing to paint.
#[derive(Drop)]
pub enum Item {
    /// A rect of one colour.
    Rect {
        /// Where it lies.
        rect: Rect,
        /// Its colour.
        colour: Colour,
    },
    /// A rect with its own pixels.
    Bitmap(Bitmap),
}

impl Item {
    /// A bitmap item of these bytes, which it shares: four a pixel of the rect, row by row from the top.
    ///
    /// An error hands the bytes back with the first cause that applies: a side that is not 1 to 256,
    /// a wrong count of bytes, a pixel that is not premultiplied.
    pub fn bitmap(rect: Rect, pixels: Arc<Vec<u8>>) -> Result<Item, BadBitmap>
        ensures { MatchResult result
            (λ item. let picture : BitmapModel = record { rect = rect; pixels = pixels.value.items } in (item ≡ Item.Bitmap picture) × IsBitmap picture)
            (λ e. (e.pixels ≡ pixels) × IsBitmapCause rect pixels.value.items e.cause) }
    {
        match Bitmap::new(rect, pixels) {
            Ok(bitmap) => Ok(Item::Bitmap(bitmap)),
            Err(bad) => Err(bad),
        }
    }

    /// Where the item lies.
    pub fn rect(&self) -> Rect
        ensures { result ≡ rect_of_item self.now }
    {
        match self {
            Item::Rect { rect, .. } => *rect,
            Item::Bitmap(bitmap) => bitmap.rect(),
        }
    }

    /// A copy of the item, which shares its pixels.
    pub fn copy(&self) -> Result<Item, AllocError>
        ensures { IfOk result (λ item. item ≡ self.now) }
    {
        match self {
            Item::Rect { rect, colour } => Ok(Item::Rect {
                rect: *rect,
                colour: *colour,
            }),
            Item::Bitmap(bitmap) => Ok(Item::Bitmap(bitmap.copy()?)),
        }
    }

    /// The item laid over a colour at a point.
    pub(crate) fn painted(&self, below: Colour, x: i32, y: i32) -> Colour
        requires { IsSoundItem self.now }
        ensures { result ≡ painted x y below self.now }
    {
        if !self.rect().contains(Point { x, y }) {
            return below;
        }
        match self {
            Item::Rect { colour, .. } => below.over(*colour),
            Item::Bitmap(bitmap) => below.over(bitmap.colour_at(x, y)),
        }
    }
}
