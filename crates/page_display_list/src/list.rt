//! Display lists.

ghost use Rattle.std.specs.Prelude.{◌≡◌, ◌*◌, ◌<◌, ◌≤◌, List, [], length, insert, remove, slice_set, slice_index_or, All, MatchOption, IfErr, IfOk, OnOk, Option};
ghost use Rattle.geom.specs.Covers.{IsSound};
ghost use Rattle.page_display_list.specs.Bitmaps.{byte_count};
ghost use Rattle.page_display_list.specs.Content.{content, IsSoundItem, IsRaster};

use crate::item::Item;
use crate::raster::{clear_pixels, draw_items, height_of, width_of};
use geom::Rect;
use pixel::{Colour, fill_row};
use std::alloc::{AllocError, Global};
use std::marker::Model;
use std::mem;

/// Items in painting order: each is laid over those before it. At most 256 of them, with sound rects.
pub struct DisplayList {
    items: Vec<Item>,
}

impl Model for DisplayList {
    ghost use Rattle.page_display_list.specs.declared.item.Item.{Item};
    ghost use Rattle.page_display_list.specs.Content.{IsSoundItem};
    ghost use Rattle.std.specs.Prelude.{List, All, ◌≤◌, length};

    ghost Value = { List Item };

    ghost view = { λ l. l.items.items };

    ghost invariant = { λ l. All IsSoundItem l.items.items × (length l.items.items ≤ 256) };
}

// Written out, since a derived drop is proved anew, field by field, in each function that lets one go.
impl Drop for DisplayList {
    fn drop(self) {
        let DisplayList { items: _ } = self;
    }
}

impl DisplayList {
    /// The empty list, which keeps this allocator.
    pub fn new(alloc: Global) -> DisplayList
        ensures { result ≡ [] }
    {
        DisplayList {
            items: Vec::new(alloc),
        }
    }

    /// How many items there are.
    pub fn len(&self) -> usize
        ensures value { result ≡ length self.now }
        ensures few { result ≤ 256 }
    {
        self.items.len()
    }

    /// The item at a place from 0 on; `None` exactly if `at` is not below `len`.
    pub fn item(&self, at: usize) -> Option<&Item>
        ensures { MatchOption result (length self.now ≤ at) (λ item. (at < length self.now) × (item.now ≡ slice_index_or self.now at item.now) × IsSoundItem item.now) }
    {
        self.items.get(at)
    }

    /// The items in painting order.
    pub fn items(&self) -> &[Item]
        ensures value { result.now ≡ self.now }
        ensures sound { All IsSoundItem result.now }
        ensures few { length result.now ≤ 256 }
    {
        self.items.as_slice()
    }

    /// Puts an item before that at `at`, or after the last.
    ///
    /// Running out of memory hands the item back and leaves the list as it was.
    pub fn insert(&mut self, at: usize, item: Item) -> Result<(), (AllocError, Item)>
        requires place { at ≤ length self.old }
        requires room { length self.old < 256 }
        requires sound { IsSoundItem item }
        ensures ok { OnOk result (self.new ≡ insert self.old at item) }
        ensures err { IfErr result (λ e. (self.new ≡ self.old) × (e.1 ≡ item)) }
    {
        if let Err(failed) = self.items.insert(at, item) {
            return Err((AllocError, failed.value));
        }
        Ok(())
    }

    /// Takes an item out.
    pub fn remove(&mut self, at: usize) -> Item
        requires { at < length self.old }
        ensures value { result ≡ slice_index_or self.old at result }
        ensures after { self.new ≡ remove self.old at }
        ensures sound { IsSoundItem result }
    {
        self.items.remove(at)
    }

    /// Puts an item in the place of another, which is handed back.
    pub fn replace(&mut self, at: usize, item: Item) -> Item
        requires place { at < length self.old }
        requires sound { IsSoundItem item }
        ensures value { result ≡ slice_index_or self.old at result }
        ensures after { self.new ≡ slice_set self.old at item }
        ensures sound { IsSoundItem result }
    {
        mem::replace(&mut self.items[at], item)
    }

    /// What the list shows at a point.
    pub fn pixel_at(&self, x: i32, y: i32) -> Colour
        ensures { result ≡ content self.now x y }
    {
        let mut pixel = Colour::CLEAR;
        for item in self.items.iter() {
            pixel = item.painted(pixel, x, y);
        }
        pixel
    }

    /// The pixels that the list shows in an area, row by row from the top: four bytes a pixel.
    pub fn raster(&self, area: Rect) -> Result<Vec<u8>, AllocError>
        requires { IsSound area }
        ensures { IfOk result (λ bytes. IsRaster self.now area bytes.items) }
    {
        let alloc = *self.items.allocator();
        let width = width_of(area);
        let mut bytes = clear_pixels(alloc, width * height_of(area))?;
        draw_items(self.items.as_slice(), bytes.as_mut_slice(), area);
        Ok(bytes)
    }

    /// Writes the pixels that the list shows in an area, row by row from the top: four bytes a pixel.
    pub fn raster_into(&self, area: Rect, bytes: &mut [u8])
        requires area { IsSound area }
        requires size { length bytes.old ≡ byte_count area.w area.h }
        ensures { IsRaster self.now area bytes.new }
    {
        fill_row(bytes, Colour::CLEAR);
        draw_items(self.items.as_slice(), bytes, area);
    }
}

/// A clone is on the same allocator, and shares the pixels of the bitmaps.
impl Clone for DisplayList {
    ghost use Rattle.std.specs.Prelude.{◌≡◌};

    ghost is_clone = { λ list clone. clone ≡ list };

    fn clone(&self) -> Result<DisplayList, AllocError> {
        let mut items = Vec::with_capacity(*self.items.allocator(), self.items.len())?;
        for item in self.items.iter() {
            items.push(item.copy()?)?;
        }
        Ok(DisplayList { items })
    }
}
