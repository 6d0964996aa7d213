//! The jobs on a tile.

ghost use Rattle.std.specs.Prelude.{◌≤◌, IfOk};
ghost use Rattle.page_display_list.specs.Content.{IsSoundItem};

use crate::images::{add_item, image_of, shared};
use crate::job::ItemKind;
use crate::rows::grey;
use geom::{Rect, TileKey};
use page_display_list::{DisplayList, Item};
use std::alloc::{AllocError, Global};
use std::sync::Arc;

/// The tile, which each item covers.
const TILE: Rect = Rect {
    x: 0,
    y: 0,
    w: 256,
    h: 256,
};

/// The key of the tile.
const KEY: TileKey = TileKey {
    layer: 1,
    x: 0,
    y: 0,
    stamp: 0,
};

/// The given number of bytes of one value.
fn bytes_of(alloc: Global, value: u8, count: usize) -> Result<Vec<u8>, AllocError> {
    vec![in alloc; value; count]
}

/// One item of a kind, as dark as its level.
fn item_of(alloc: Global, kind: ItemKind, level: u8) -> Result<Item, AllocError>
    ensures { IfOk result IsSoundItem }
{
    match kind {
        ItemKind::Opaque => Ok(Item::Rect {
            rect: TILE,
            colour: grey(255),
        }),
        ItemKind::Translucent => Ok(Item::Rect {
            rect: TILE,
            colour: grey(level),
        }),
        ItemKind::Bitmap => {
            let pixels = Arc::new(alloc, bytes_of(alloc, level, 262144)?)?;
            match Item::bitmap(TILE, pixels) {
                Ok(item) => Ok(item),
                Err(_) => Err(AllocError),
            }
        }
    }
}

/// A list of the given number of items of a kind.
fn list_of(alloc: Global, kind: ItemKind, items: usize) -> Result<DisplayList, AllocError>
    requires { items ≤ 256 }
{
    let mut list = DisplayList::new(alloc);
    for _turn in 0..items {
        add_item(&mut list, item_of(alloc, kind, 64)?)?;
    }
    Ok(list)
}

/// Makes the picture of a tile, and gives the red of its one colour.
fn red_of(alloc: Global, list: &Arc<DisplayList>) -> Result<u64, AllocError> {
    let image = image_of(alloc, KEY, Arc::try_clone(list)?, TILE)?;
    match image.solid() {
        Some(colour) => Ok(u64::from(colour.r())),
        None => Ok(0),
    }
}

/// Makes the picture of a tile of a list of items the given number of times, as the program does, and adds up
/// the red of its pixels' one colour.
pub(crate) fn raster(
    alloc: Global,
    kind: ItemKind,
    items: usize,
    times: u32,
) -> Result<u64, AllocError>
    requires { items ≤ 256 }
{
    let list = shared(alloc, list_of(alloc, kind, items)?)?;
    let mut sum = 0u64;
    for _turn in 0..times {
        sum = sum.wrapping_add(red_of(alloc, &list)?);
    }
    Ok(sum)
}
