//! A page like a long text: sections that scroll below a header, and a side bar that they shine through.
//!
//! The screen has 1024 by 1024 pixels, and tiles have 128 by 128. A section is 1024 by 500 pixels large and has
//! 16 boxes and 240 words.

ghost use Rattle.std.specs.Prelude.{◌<◌, ◌≤ℤ◌, pos};
ghost use Rattle.geom.specs.Covers.{IsSound};

use crate::images;
use crate::images::{add_item, shared};
use crate::pool::colour_of;
use crate::showing::shows;
use geom::{Point, Rect, TileKey};
use page_display_list::{DisplayList, Item};
use pixel::Colour;
use std::alloc::{AllocError, Global};
use std::sync::Arc;
use test_table::Dice;
use tile_raster::TileImage;
use viz_scene::{Quad, RenderPass, Scene, scene_of};

/// How many sections the page has.
const SECTIONS: u32 = 8;

/// The height of the header.
const TOP: i32 = 40;

/// The height of the screen.
const BOTTOM: i32 = 1024;

// A rect that lies in a section, or sticks out a little.
fn box_of(dice: &mut Dice) -> Rect
    ensures { IsSound result }
{
    Rect {
        x: (dice.throw() % 1000) as i32 - 10,
        y: (dice.throw() % 480) as i32 - 10,
        w: (4 + dice.throw() % 296) as i32,
        h: (4 + dice.throw() % 296) as i32,
    }
}

// The rect of a word: 20 lines of 12 words.
fn word_of(dice: &mut Dice, place: u32) -> Rect
    requires { place < 240 }
    ensures { IsSound result }
{
    Rect {
        x: (20 + place % 12 * 80 + dice.throw() % 20) as i32,
        y: (6 + place / 12 * 24) as i32,
        w: (30 + dice.throw() % 45) as i32,
        h: 16,
    }
}

// Adds a rect of a random colour.
fn add_rect(list: &mut DisplayList, dice: &mut Dice, rect: Rect) -> Result<(), AllocError>
    requires { IsSound rect }
{
    let colour = colour_of(dice);
    add_item(list, Item::Rect { rect, colour })
}

// What a section shows.
fn list_of(alloc: Global, section: u32) -> Result<Arc<DisplayList>, AllocError> {
    let mut dice = Dice::new(section as u64);
    let mut list = DisplayList::new(alloc);
    for _box in 0..16u32 {
        let rect = box_of(&mut dice);
        add_rect(&mut list, &mut dice, rect)?;
    }
    for place in 0..240u32 {
        let rect = word_of(&mut dice, place);
        add_rect(&mut list, &mut dice, rect)?;
    }
    shared(alloc, list)
}

// The height of a tile of a section, whose last row of eight ends with the section.
fn tile_height(place: u32) -> i32
    ensures low { pos 0 ≤ℤ result }
    ensures high { result ≤ℤ pos 128 }
{
    if place < 24 { 128 } else { 116 }
}

// The rect of a tile of a section: four rows of eight.
fn tile_rect(place: u32) -> Rect
    requires { place < 32 }
    ensures { IsSound result }
{
    Rect {
        x: 128 * (place % 8) as i32,
        y: 128 * (place / 8) as i32,
        w: 128,
        h: tile_height(place),
    }
}

// The image of a tile of a section.
fn image_of(
    alloc: Global,
    list: &Arc<DisplayList>,
    section: u32,
    place: u32,
) -> Result<Arc<TileImage>, AllocError>
    requires { place < 32 }
{
    let key = TileKey {
        layer: section,
        x: place % 8,
        y: place / 8,
        stamp: 0,
    };
    images::image_of(alloc, key, Arc::try_clone(list)?, tile_rect(place))
}

// The images of all sections.
fn images_of(alloc: Global) -> Result<Vec<Arc<TileImage>>, AllocError> {
    let mut images = Vec::new(alloc);
    for section in 0..SECTIONS {
        let list = list_of(alloc, section)?;
        for place in 0..32u32 {
            images.push(image_of(alloc, &list, section, place)?)?;
        }
    }
    Ok(images)
}

// Adds the part of a tile that lies between header and end of the screen; its section begins at `top`.
fn add_tile(image: &Arc<TileImage>, top: i32, quads: &mut Vec<Quad>) -> Result<(), AllocError> {
    let rect = image.rect();
    let y = top.saturating_add(rect.y);
    let start = y.max(TOP);
    let end = y.saturating_add(rect.h).min(BOTTOM);
    if start < end {
        let image = Arc::try_clone(image)?;
        quads.push(Quad::Tile {
            image,
            at: Rect {
                x: rect.x,
                y: start,
                w: rect.w,
                h: end.saturating_sub(start),
            },
            from: Point {
                x: 0,
                y: start.saturating_sub(y),
            },
        })?;
    }
    Ok(())
}

// A rect of one colour.
fn solid_of(at: Rect, level: u8, a: u8) -> Quad {
    let colour = Colour::new(level, level, level, a).unwrap_or(Colour::CLEAR);
    Quad::Solid { at, colour }
}

// The header.
fn header() -> Quad {
    let at = Rect {
        x: 0,
        y: 0,
        w: 1024,
        h: TOP,
    };
    solid_of(at, 40, 255)
}

// The side bar.
fn side_bar() -> Quad {
    let at = Rect {
        x: 800,
        y: TOP,
        w: 224,
        h: BOTTOM - TOP,
    };
    solid_of(at, 64, 192)
}

// The quads of the page if it is scrolled this far down.
fn quads_at(alloc: Global, images: &[Arc<TileImage>], down: i32) -> Result<Vec<Quad>, AllocError> {
    let mut quads = Vec::new(alloc);
    let mut place = 0i32;
    for image in images {
        let top = (place / 32)
            .saturating_mul(500)
            .saturating_add(TOP)
            .saturating_sub(down);
        add_tile(image, top, &mut quads)?;
        place = place.saturating_add(1);
    }
    quads.push(header())?;
    quads.push(side_bar())?;
    Ok(quads)
}

// The scene of the page if it is scrolled this far down; None if that is no scene.
fn scene_at(
    alloc: Global,
    images: &[Arc<TileImage>],
    down: i32,
) -> Result<Option<Scene>, AllocError> {
    let quads = quads_at(alloc, images, down)?;
    let mut passes = Vec::new(alloc);
    passes.push(RenderPass { quads })?;
    let white = Colour::new(255, 255, 255, 255).unwrap_or(Colour::CLEAR);
    Ok(scene_of(1024, 1024, white, passes))
}

/// Shows the page alternately where it is not scrolled and where it is scrolled the given number of pixels
/// down, the given number of times, and gives a sum of what came out.
pub(crate) fn sum_of(alloc: Global, down: u32, times: u32) -> Result<u64, AllocError> {
    let images = images_of(alloc)?;
    let down = i32::try_from(down).unwrap_or(0);
    match (
        scene_at(alloc, &images, 0)?,
        scene_at(alloc, &images, down)?,
    ) {
        (Some(first), Some(second)) => shows(alloc, &first, &second, times),
        _ => Ok(0),
    }
}
