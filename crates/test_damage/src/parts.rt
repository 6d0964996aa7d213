//! Images and scenes from their texts.

ghost use Rattle.std.specs.Prelude.{IfOk};
ghost use Rattle.geom.specs.Covers.{IsSound};
ghost use Rattle.page_display_list.specs.Content.{IsSoundItem};

use crate::words::{byte, colour, point, rect};
use geom::{Rect, TileKey};
use page_display_list::{DisplayList, Item};
use std::alloc::{AllocError, Global};
use std::sync::Arc;
use test_table::{LineFault, numbers, whole, wholes};
use tile_raster::{Job, TileImage};
use viz_scene::{Quad, RenderPass, Scene, scene_of};

// An item of one colour.
fn item_of(text: &str) -> Result<Item, LineFault>
    ensures { IfOk result IsSoundItem }
{
    let [x, y, w, h, r, g, b, a] = numbers::<8>(text)?;
    let rect = rect([x, y, w, h])?;
    let colour = colour([r, g, b, a])?;
    Ok(Item::Rect { rect, colour })
}

// Adds the item of a text to a list.
fn push_item(list: &mut DisplayList, text: &str) -> Result<(), LineFault> {
    let item = item_of(text)?;
    let at = list.len();
    if at >= 256 {
        return Err(LineFault::NoNumber);
    }
    match list.insert(at, item) {
        Ok(()) => Ok(()),
        Err((full, _item)) => Err(LineFault::Memory(full)),
    }
}

// The list of some items.
fn list_of(alloc: Global, items: &str) -> Result<DisplayList, LineFault> {
    let mut list = DisplayList::new(alloc);
    for item in items.split("; ") {
        push_item(&mut list, item)?;
    }
    Ok(list)
}

// The key and the rect of an image: `LAYER COLUMN ROW STAMP W H`.
fn head_of(text: &str) -> Result<(TileKey, Rect), LineFault>
    ensures { IfOk result (λ head. IsSound head.1) }
{
    let [layer, x, y, stamp, w, h] = wholes::<6>(text, ' ')?;
    let rect = rect([0, 0, i64::from(w), i64::from(h)])?;
    Ok((TileKey { layer, x, y, stamp }, rect))
}

// The image of a tile that shows a list.
fn image_under(
    alloc: Global,
    key: TileKey,
    list: DisplayList,
    rect: Rect,
) -> Result<Arc<TileImage>, AllocError>
    requires { IsSound rect }
{
    let Ok(list) = Arc::new(alloc, list) else {
        return Err(AllocError);
    };
    match (Job { key, list, rect }).run(alloc) {
        Ok(image) => Ok(image),
        Err((full, _job)) => Err(full),
    }
}

/// The image of a text: `LAYER COLUMN ROW STAMP W H; ITEM; ..`.
pub fn image_of(alloc: Global, text: &str) -> Result<Arc<TileImage>, LineFault> {
    let Some((head, items)) = text.split_once("; ") else {
        return Err(LineFault::NoForm);
    };
    let (key, rect) = head_of(head)?;
    let list = list_of(alloc, items)?;
    Ok(image_under(alloc, key, list, rect)?)
}

// The quad of a tile.
fn tile_of(images: &[Arc<TileImage>], text: &str) -> Result<Quad, LineFault> {
    let [image, x, y, w, h, from_x, from_y] = numbers::<7>(text)?;
    let at = rect([x, y, w, h])?;
    let from = point([from_x, from_y])?;
    let Some(image) = images.get(whole(image)? as usize) else {
        return Err(LineFault::NoNumber);
    };
    let image = Arc::try_clone(image)?;
    Ok(Quad::Tile { image, at, from })
}

// The quad of a rect of one colour.
fn solid_of(text: &str) -> Result<Quad, LineFault> {
    let [x, y, w, h, r, g, b, a] = numbers::<8>(text)?;
    let at = rect([x, y, w, h])?;
    let colour = colour([r, g, b, a])?;
    Ok(Quad::Solid { at, colour })
}

// The quad of a group.
fn group_of(text: &str) -> Result<Quad, LineFault> {
    let [pass, opacity] = wholes::<2>(text, ' ')?;
    let opacity = byte(i64::from(opacity))?;
    Ok(Quad::Group { pass, opacity })
}

// The quad of a part.
fn quad_of(images: &[Arc<TileImage>], text: &str) -> Result<Quad, LineFault> {
    match text.split_once(' ') {
        Some(("tile", rest)) => tile_of(images, rest),
        Some(("solid", rest)) => solid_of(rest),
        Some(("group", rest)) => group_of(rest),
        _ => Err(LineFault::NoForm),
    }
}

// Adds the quad of a part; if it is empty, or `nothing`, it has none.
fn add_quad(images: &[Arc<TileImage>], part: &str, quads: &mut Vec<Quad>) -> Result<(), LineFault> {
    if part.is_empty() || part == "nothing" {
        return Ok(());
    }
    let quad = quad_of(images, part)?;
    quads.push(quad)?;
    Ok(())
}

// The pass of some parts.
fn pass_of(alloc: Global, images: &[Arc<TileImage>], parts: &str) -> Result<RenderPass, LineFault> {
    let mut quads = Vec::new(alloc);
    for part in parts.split("; ") {
        add_quad(images, part, &mut quads)?;
    }
    Ok(RenderPass { quads })
}

// Adds the pass of some parts.
fn add_pass(
    alloc: Global,
    images: &[Arc<TileImage>],
    parts: &str,
    passes: &mut Vec<RenderPass>,
) -> Result<(), LineFault> {
    let pass = pass_of(alloc, images, parts)?;
    passes.push(pass)?;
    Ok(())
}

// The passes of some parts, with `end` between.
fn passes_of(
    alloc: Global,
    images: &[Arc<TileImage>],
    parts: &str,
) -> Result<Vec<RenderPass>, LineFault> {
    let mut passes = Vec::new(alloc);
    for parts in parts.split("end") {
        add_pass(alloc, images, parts, &mut passes)?;
    }
    Ok(passes)
}

/// The scene of a text: `W H COLOUR; PART; ..`.
pub fn scene_of_text(
    alloc: Global,
    images: &[Arc<TileImage>],
    text: &str,
) -> Result<Scene, LineFault> {
    let Some((head, parts)) = text.split_once("; ") else {
        return Err(LineFault::NoForm);
    };
    let [w, h, r, g, b, a] = numbers::<6>(head)?;
    let (w, h) = (whole(w)?, whole(h)?);
    let background = colour([r, g, b, a])?;
    let passes = passes_of(alloc, images, parts)?;
    scene_of(w, h, background, passes).ok_or(LineFault::NoScene)
}
