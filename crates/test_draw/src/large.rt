//! Large scenes: 1024 by 1024 pixels, of many layers, each of 25 tiles.

ghost use Rattle.std.specs.Prelude.{IfOk, IfSome};
ghost use Rattle.geom.specs.Covers.{IsSound};
ghost use Rattle.test_draw.specs.Jobs.{IsLarge};

use crate::images;
use crate::images::{add_item, shared};
use crate::pool::colour_of;
use geom::{Point, Rect, TileKey};
use page_display_list::{DisplayList, Item};
use pixel::Colour;
use std::alloc::{AllocError, Global};
use std::sync::Arc;
use test_table::Dice;
use tile_raster::TileImage;
use viz_scene::{Quad, RenderPass, Scene, scene_of};

/// The side of the screen.
const SIDE: i32 = 1024;

/// The side of a tile.
const TILE: i32 = 256;

/// How far the grid of tiles begins left and above of the screen.
const BEFORE: i32 = 128;

// The part of a tile's side that lies on the screen: where it begins, and how long it is.
fn shown(place: i32) -> (i32, i32) {
    let start = place.saturating_mul(TILE).saturating_sub(BEFORE);
    let end = start.saturating_add(TILE).min(SIDE);
    let at = start.max(0);
    (at, end.saturating_sub(at))
}

// The quad of the tile of a place, which shows an image.
fn tile_at(image: &Arc<TileImage>, column: i32, row: i32) -> Result<Quad, AllocError> {
    let (x, w) = shown(column);
    let (y, h) = shown(row);
    let from_x = if column == 0 { BEFORE } else { 0 };
    let from_y = if row == 0 { BEFORE } else { 0 };
    Ok(Quad::Tile {
        image: Arc::try_clone(image)?,
        at: Rect { x, y, w, h },
        from: Point {
            x: from_x,
            y: from_y,
        },
    })
}

// A rect on a tile, or one that begins a little left or above of it.
fn rect_of(dice: &mut Dice) -> Rect
    ensures { IsSound result }
{
    Rect {
        x: (dice.throw() % 256) as i32 - 10,
        y: (dice.throw() % 256) as i32 - 10,
        w: (4 + dice.throw() % 196) as i32,
        h: (4 + dice.throw() % 196) as i32,
    }
}

// A list of eight items.
fn list_of(alloc: Global, dice: &mut Dice) -> Result<DisplayList, AllocError> {
    let mut list = DisplayList::new(alloc);
    for _item in 0..8 {
        let rect = rect_of(dice);
        let colour = colour_of(dice);
        add_item(&mut list, Item::Rect { rect, colour })?;
    }
    Ok(list)
}

// The image of a layer's tiles.
fn image_of(alloc: Global, layer: u32) -> Result<Arc<TileImage>, AllocError> {
    let mut dice = Dice::new(layer as u64);
    let list = shared(alloc, list_of(alloc, &mut dice)?)?;
    let key = TileKey {
        layer,
        x: 0,
        y: 0,
        stamp: 0,
    };
    let rect = Rect {
        x: 0,
        y: 0,
        w: TILE,
        h: TILE,
    };
    images::image_of(alloc, key, list, rect)
}

// Adds the tiles of a layer, of which the one in the middle shows an image of its own.
fn add_layer(
    alloc: Global,
    layer: u32,
    middle: u32,
    quads: &mut Vec<Quad>,
) -> Result<(), AllocError> {
    let image = image_of(alloc, layer)?;
    let other = image_of(alloc, middle)?;
    for place in 0..25i32 {
        let image = if place == 12 { &other } else { &image };
        quads.push(tile_at(image, place % 5, place / 5)?)?;
    }
    Ok(())
}

/// A scene of the given number of layers, of which the last has an image of this number in its middle. None
/// if that is no scene.
pub(crate) fn layered(alloc: Global, layers: u32, middle: u32) -> Result<Option<Scene>, AllocError>
    ensures { IfOk result (λ scene. IfSome scene IsLarge) }
{
    let mut quads = Vec::new(alloc);
    for layer in 0..layers {
        let last = layer.saturating_add(1) == layers;
        let other = if last { middle } else { layer };
        add_layer(alloc, layer, other, &mut quads)?;
    }
    let mut passes = Vec::new(alloc);
    passes.push(RenderPass { quads })?;
    Ok(scene_of(1024, 1024, Colour::CLEAR, passes))
}
