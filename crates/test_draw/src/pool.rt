//! Images for random scenes.

ghost use Rattle.geom.specs.Covers.{IsSound};
ghost use Rattle.page_display_list.specs.Content.{IsSoundItem};

use crate::images;
use crate::images::{add_item, shared};
use geom::{Rect, TileKey};
use page_display_list::{DisplayList, Item};
use pixel::Colour;
use std::alloc::{AllocError, Global};
use std::sync::Arc;
use test_table::Dice;
use tile_raster::TileImage;

/// How many images there are.
pub(crate) const IMAGES: u32 = 24;

/// A colour: half of them are opaque.
pub(crate) fn colour_of(dice: &mut Dice) -> Colour {
    let level = dice.throw() % 256;
    let a = if dice.throw() % 2 == 0 { 255 } else { level };
    let part = (dice.throw() % (a + 1)) as u8;
    Colour::new(part, part / 2, part / 3, a as u8).unwrap_or(Colour::CLEAR)
}

/// A rect of 1 to 16 by 1 to 16 pixels that begins on an image.
fn rect_of(dice: &mut Dice) -> Rect
    ensures { IsSound result }
{
    Rect {
        x: (dice.throw() % 16) as i32,
        y: (dice.throw() % 16) as i32,
        w: (1 + dice.throw() % 16) as i32,
        h: (1 + dice.throw() % 16) as i32,
    }
}

/// An item over the whole image, or a small one.
fn item_of(dice: &mut Dice) -> Item
    ensures { IsSoundItem result }
{
    let colour = colour_of(dice);
    let mut rect = rect_of(dice);
    if dice.throw() % 2 == 0 {
        rect = IMAGE;
    }
    Item::Rect { rect, colour }
}

/// The rect of each image.
const IMAGE: Rect = Rect {
    x: 0,
    y: 0,
    w: 16,
    h: 16,
};

/// A list of up to three items.
fn list_of(alloc: Global, dice: &mut Dice) -> Result<DisplayList, AllocError> {
    let mut list = DisplayList::new(alloc);
    for _item in 0..dice.throw() % 4 {
        add_item(&mut list, item_of(dice))?;
    }
    Ok(list)
}

/// The image of a number. Two that follow one another show the same; two of a key may show different things.
fn image_of(alloc: Global, number: u32) -> Result<Arc<TileImage>, AllocError> {
    let mut dice = Dice::new(number as u64 / 2);
    let list = shared(alloc, list_of(alloc, &mut dice)?)?;
    let key = TileKey {
        layer: number % 5,
        x: 0,
        y: 0,
        stamp: number / 5,
    };
    images::image_of(alloc, key, list, IMAGE)
}

/// All images.
pub(crate) fn pool_of(alloc: Global) -> Result<Vec<Arc<TileImage>>, AllocError> {
    let mut pool = Vec::new(alloc);
    for number in 0..IMAGES {
        pool.push(image_of(alloc, number)?)?;
    }
    Ok(pool)
}
