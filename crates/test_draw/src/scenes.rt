//! The jobs on a scene of 1024 by 1024 pixels, in tiles of 256.

ghost use Rattle.std.specs.Prelude.{◌≡◌, ◌<◌, ◌+◌, ◌*◌, ℕ, pos, IfOk, OnOk};
ghost use Rattle.page_display_list.specs.Content.{IsSoundItem};
ghost use Rattle.viz_scene.specs.Views.{quad_view};
ghost use Rattle.viz_scene.specs.Sound.{QuadFits, IsIn};
ghost use Rattle.geom.specs.Covers.{IsSound};
ghost use Rattle.test_draw.specs.Jobs.{IsLarge, CanBeAnywhere};

use crate::images::{add_item, image_of, shared};
use geom::{Point, Rect, TileKey};
use page_display_list::{DisplayList, Item};
use pixel::Colour;
use std::alloc::{AllocError, Global};
use std::sync::Arc;
use test_table::Dice;
use viz_canvas::{Canvas, Rgb};
use viz_scene::{Quad, RenderPass, Scene};

/// A translucent item.
fn item_of(dice: &mut Dice) -> Item
    ensures { IsSoundItem result }
{
    let a = 20 + dice.throw() % 235;
    let part = (a - dice.throw() % 20) as u8;
    let colour = Colour::new(part, part / 2, part / 3, a as u8).unwrap_or(Colour::CLEAR);
    let rect = rect_of(dice.throw(), dice.throw(), dice.throw(), dice.throw());
    Item::Rect { rect, colour }
}

/// A rect of up to 200 by 200 pixels that begins on the screen or just left or above of it.
fn rect_of(x: u32, y: u32, w: u32, h: u32) -> Rect
    ensures { IsSound result }
{
    Rect {
        x: (x % 1024) as i32 - 10,
        y: (y % 1024) as i32 - 10,
        w: (4 + w % 196) as i32,
        h: (4 + h % 196) as i32,
    }
}

/// A list of the given number of items.
fn list_of(alloc: Global, dice: &mut Dice, items: usize) -> Result<Arc<DisplayList>, AllocError> {
    let mut list = DisplayList::new(alloc);
    for _turn in 0..items {
        add_item(&mut list, item_of(dice))?;
    }
    shared(alloc, list)
}

/// The rect of the tile of a place below 16.
fn tile_rect(place: u32) -> Rect
    requires { place < 16 }
    ensures inside { IsIn 1024 1024 result }
    ensures side { (result.w ≡ pos 256) × (result.h ≡ pos 256) }
    ensures sound { IsSound result }
{
    Rect {
        x: 256 * (place % 4) as i32,
        y: 256 * (place / 4) as i32,
        w: 256,
        h: 256,
    }
}

/// The quad of the tile of a place below 16, with its image.
fn tile_of(alloc: Global, list: &Arc<DisplayList>, place: u32) -> Result<Quad, AllocError>
    requires { place < 16 }
    ensures { IfOk result (λ quad. (i : ℕ) → QuadFits 1024 1024 i (quad_view quad)) }
{
    let at = tile_rect(place);
    let key = TileKey {
        layer: 1,
        x: place % 4,
        y: place / 4,
        stamp: 0,
    };
    let image = image_of(alloc, key, Arc::try_clone(list)?, at)?;
    Ok(Quad::Tile {
        image,
        at,
        from: Point { x: 0, y: 0 },
    })
}

/// Adds the quads of a layer of the given number of items.
fn add_layer(
    alloc: Global,
    dice: &mut Dice,
    items: usize,
    quads: &mut Vec<Quad>,
) -> Result<(), AllocError>
    requires { CanBeAnywhere quads.old.items }
    ensures { OnOk result (CanBeAnywhere quads.new.items) }
{
    let list = list_of(alloc, dice, items)?;
    for place in 0..16u32 {
        quads.push(tile_of(alloc, &list, place)?)?;
    }
    Ok(())
}

/// A scene of the given number of layers, side by side in one pass.
fn flat(alloc: Global, items: usize, layers: u32) -> Result<Scene, AllocError>
    ensures { IfOk result IsLarge }
{
    let mut dice = Dice::new(7);
    let mut quads = Vec::new(alloc);
    for _layer in 0..layers {
        add_layer(alloc, &mut dice, items, &mut quads)?;
    }
    let mut passes = Vec::new(alloc);
    passes.push(RenderPass { quads })?;
    Ok(Scene::new(1024, 1024, Colour::CLEAR, passes))
}

/// A scene of the given number of layers, each in a group of its own of opacity 128.
fn grouped(alloc: Global, items: usize, layers: u32) -> Result<Scene, AllocError>
    ensures { IfOk result IsLarge }
{
    let mut dice = Dice::new(7);
    let mut passes = Vec::new(alloc);
    let mut root = Vec::new(alloc);
    for pass in 0..layers {
        let mut quads = Vec::new(alloc);
        add_layer(alloc, &mut dice, items, &mut quads)?;
        passes.push(RenderPass { quads })?;
        root.push(Quad::Group { pass, opacity: 128 })?;
    }
    passes.push(RenderPass { quads: root })?;
    Ok(Scene::new(1024, 1024, Colour::CLEAR, passes))
}

/// Draws a scene of the given number of layers the given number of times, and gives the first byte.
pub(crate) fn draw(
    alloc: Global,
    in_groups: bool,
    items: usize,
    layers: u32,
    times: u32,
) -> Result<u64, AllocError> {
    let scene = if in_groups {
        grouped(alloc, items, layers)?
    } else {
        flat(alloc, items, layers)?
    };
    let mut canvas = Canvas::<Rgb>::new(alloc, 1024, 1024)?;
    for _turn in 0..times {
        canvas.draw(&scene)?;
    }
    match canvas.bytes().first() {
        Some(first) => Ok(*first as u64),
        None => Ok(0),
    }
}
