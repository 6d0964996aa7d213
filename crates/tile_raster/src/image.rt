//! The picture of one tile.

ghost use Rattle.std.specs.Prelude.{◌≡◌, ℕ, ◌+◌, ◌<◌, ◌≤◌, false, IfOk, IsTrue, MatchOption};
ghost use Rattle.geom.specs.Covers.{IsSound};
ghost use Rattle.page_display_list.specs.Bitmaps.{near};
ghost use Rattle.tile_raster.specs.Images.{Image, IsRow, IsOneColour, HasTwoColours};
ghost use Rattle.tile_raster.specs.Images.{AreSameRows, AreAllOpaque, HasTranslucentPixel, ShowAlike};

use crate::opaque::are_all_opaque;
use crate::picture_rows::{PictureRows, are_same_rows, end_of, kept_rows, place_of};
use crate::pixels::{height_of, is_same_colour, one_colour, row_at, width_of};
use geom::{Rect, TileKey};
use page_display_list::DisplayList;
use pixel::Colour;
use std::alloc::{AllocError, Global};
use std::marker::Model;
use std::sync::Arc;

/// The picture of a tile: what its display list shows on its rect.
pub struct TileImage {
    // The fields keep this order in memory: what a draw reads stands first, beside the count of the `Arc` that holds
    // the picture, so that a small tile costs a draw one cache miss.
    //
    // The colour of all pixels, if they have one.
    solid: Option<Colour>,
    // Whether all pixels are opaque.
    is_opaque: bool,
    rect: Rect,
    // The rows, of which equal ones that follow one another are kept once.
    rows: PictureRows,
    key: TileKey,
    list: Arc<DisplayList>,
}

impl Model for TileImage {
    ghost use Rattle.geom.specs.Covers.{IsSound};
    ghost use Rattle.page_display_list.specs.Bitmaps.{near};
    ghost use Rattle.tile_raster.specs.Images.{Image};
    ghost use Rattle.tile_raster.specs.inner.Bands.{AreKept, AreEnds, IsSolid, TellsOpaque};

    ghost Value = { Image };

    ghost view = { λ i. record { key = i.key; rect = i.rect; list = i.list.value } };

    ghost invariant = { λ i. IsSound i.rect × AreKept i.list.value i.rect i.rows.places.items i.rows.bytes.items × AreEnds (near i.rect.h) i.rows.places.items i.rows.ends.items × IsSolid i.list.value i.rect i.solid × TellsOpaque i.list.value i.rect i.is_opaque };
}

// Written out, since a derived drop is proved anew, field by field, in each function that lets one go.
impl Drop for TileImage {
    fn drop(self) {
        let TileImage {
            solid: _,
            is_opaque: _,
            rect: _,
            rows: _,
            key: _,
            list: _,
        } = self;
    }
}

impl TileImage {
    // The picture of this list on this rect.
    pub(crate) fn of_list(
        alloc: Global,
        key: TileKey,
        list: Arc<DisplayList>,
        rect: Rect,
    ) -> Result<TileImage, AllocError>
        requires { IsSound rect }
        ensures { IfOk result (λ image. image ≡ record { key = key; rect = rect; list = list.value }) }
    {
        let rows = kept_rows(alloc, &list, rect)?;
        let solid = one_colour(&list, rect, &rows);
        let is_opaque = are_all_opaque(&list, rect, &rows);
        Ok(TileImage {
            solid,
            is_opaque,
            rect,
            rows,
            key,
            list,
        })
    }

    /// The key of the tile.
    pub fn key(&self) -> TileKey
        ensures { result ≡ self.now.key }
    {
        self.key
    }

    /// The rect of the tile, in pixels of its layer.
    pub fn rect(&self) -> Rect
        ensures value { result ≡ self.now.rect }
        ensures sound { IsSound result }
    {
        self.rect
    }

    /// The display list that the picture shows.
    pub fn list(&self) -> &DisplayList
        ensures { result.now ≡ self.now.list }
    {
        &self.list
    }

    /// The bytes r, g, b, a of each pixel of row `y`, counted from the top of the rect and below its height.
    pub fn row(&self, y: u32) -> &[u8]
        requires { y < near self.now.rect.h }
        ensures { IsRow self.now.list self.now.rect y result.now }
    {
        let place = place_of(&self.rows, y as usize);
        row_at(&self.rows.bytes, width_of(self.rect), place)
    }

    /// How many rows from row `y` on are kept as that row: at least one, and all of them equal.
    pub fn same(&self, y: u32) -> u32
        requires { y < near self.now.rect.h }
        ensures some { 1 ≤ result }
        ensures inside { y + result ≤ near self.now.rect.h }
        ensures equal { (k : ℕ) → k < result → AreSameRows self.now.list self.now.rect y (y + k) }
    {
        end_of(&self.rows, height_of(self.rect), y as usize) - y
    }

    /// How many bytes the rows have that are kept.
    pub fn kept_bytes(&self) -> usize {
        self.rows.bytes.len()
    }

    /// Whether another picture of the same rect keeps the same rows, or has the same one colour. If it does not, the
    /// two may still show the same.
    pub fn has_same_rows(&self, other: &TileImage) -> bool
        requires { self.now.rect ≡ other.now.rect }
        ensures { IsTrue result → ShowAlike self.now.rect self.now.list other.now.list }
    {
        match (self.solid, other.solid) {
            (Some(colour), Some(second)) => is_same_colour(colour, second),
            (None, None) => are_same_rows(&self.rows, &other.rows),
            _ => false,
        }
    }

    /// The colour of all pixels; None exactly if two of them differ. A picture without pixels answers
    /// the transparent colour.
    pub fn solid(&self) -> Option<Colour>
        ensures { MatchOption result (HasTwoColours self.now.list self.now.rect) (λ c. IsOneColour self.now.list self.now.rect c) }
    {
        self.solid
    }

    /// Whether all pixels are opaque; true if there is none. It is known, so that no pixel is read.
    pub fn is_opaque(&self) -> bool
        ensures yes { IsTrue result → AreAllOpaque self.now.list self.now.rect }
        ensures no { result ≡ false → HasTranslucentPixel self.now.list self.now.rect }
    {
        self.is_opaque
    }
}
