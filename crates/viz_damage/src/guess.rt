//! Guessing how far a page was scrolled.

ghost use Rattle.std.specs.Prelude.{◌≡◌, ◌≤◌, IfSome};
ghost use Rattle.viz_damage.specs.Moved.{IsShift};

use crate::shift::Shift;
use geom::{Point, Rect};
use page_display_list::Item;
use tile_raster::TileImage;
use viz_scene::{Quad, RenderPass, Scene};

// How many tiles of a pass are looked for in the other scene.
const PROBES: usize = 16;

// The most quads of a scene of which rows are moved: of more, comparing them costs what drawing them does.
const MOST_QUADS: usize = 2048;

/// The rows of a scene that seem to stand in another scene of the same height, higher or lower; None if none do.
pub fn shift_of(old: &Scene, new: &Scene) -> Option<Shift>
    requires { old.now.h ≡ new.now.h }
    ensures { IfSome result (λ shift. IsShift new.now.h shift) }
{
    let (before, after) = (old.passes(), new.passes());
    if count_of_quads(before) > MOST_QUADS || count_of_quads(after) > MOST_QUADS {
        return None;
    }
    let by = distance_of(before, after)?;
    if show_bitmaps(after) {
        return None;
    }
    let height = new.h();
    shift_by(old, new, by, height)
}

// How many quads some passes have.
fn count_of_quads(passes: &[RenderPass]) -> usize {
    let mut count = 0usize;
    for pass in passes {
        count = count.saturating_add(pass.quads.len());
    }
    count
}

// Whether the layers of tiles have bitmaps. Such lists do not tell that two tiles are equal: rows would be compared.
fn show_bitmaps(passes: &[RenderPass]) -> bool {
    let mut last = None;
    for pass in passes {
        for quad in &pass.quads {
            if let Quad::Tile { image, .. } = quad {
                let layer = image.key().layer;
                if last != Some(layer) && has_bitmap(image) {
                    return true;
                }
                last = Some(layer);
            }
        }
    }
    false
}

// Whether the display list of a tile has a bitmap.
fn has_bitmap(image: &TileImage) -> bool {
    for item in image.list().items() {
        if let Item::Bitmap(_) = item {
            return true;
        }
    }
    false
}

// The rows that stand this much lower in another scene.
fn shift_by(old: &Scene, new: &Scene, by: i32, height: u32) -> Option<Shift>
    requires { height ≤ 2048 }
    ensures { IfSome result (λ shift. IsShift height shift) }
{
    let before = port_of(old.passes(), height as i32);
    let after = port_of(new.passes(), height as i32);
    let top = after.top.max(before.top.saturating_add(by));
    let end = after.end.min(before.end.saturating_add(by));
    let from = count_of(top.saturating_sub(by));
    let to = count_of(top);
    shift_within(from, to, count_of(end.saturating_sub(top)), height)
}

// The given number of rows, from a row on and to a row; None if there are none or they are not a screen's.
fn shift_within(from: u32, to: u32, count: u32, height: u32) -> Option<Shift>
    ensures { IfSome result (λ shift. IsShift height shift) }
{
    if count == 0 || from > height || to > height {
        return None;
    }
    if count > height - from || count > height - to {
        return None;
    }
    Some(Shift { from, to, count })
}

// A number as a count; 0 if it is negative.
fn count_of(n: i32) -> u32 {
    n.max(0) as u32
}

// How many rows lower a tile stands in the passes of another scene; None if none does.
fn distance_of(old: &[RenderPass], new: &[RenderPass]) -> Option<i32> {
    for pass in 0..old.len().min(new.len()) {
        let by = distance_in(old[pass].quads.as_slice(), new[pass].quads.as_slice());
        if by != 0 {
            return Some(by);
        }
    }
    None
}

// How many rows lower a tile stands in another pass; 0 if none stands lower or higher.
fn distance_in(old: &[Quad], new: &[Quad]) -> i32 {
    for probe in 0..PROBES {
        let place = old.len() * probe / PROBES;
        if place < old.len() {
            let by = distance_from(&old[place], place, new);
            if by != 0 {
                return by;
            }
        }
    }
    0
}

// How many rows lower a tile stands in another pass; 0 if it is not there.
fn distance_from(quad: &Quad, place: usize, new: &[Quad]) -> i32 {
    match quad {
        Quad::Tile { image, at, from } => {
            if place < new.len() {
                if let Some(by) = distance_to(image, *at, *from, &new[place]) {
                    return by;
                }
            }
            for other in new {
                if let Some(by) = distance_to(image, *at, *from, other) {
                    return by;
                }
            }
            0
        }
        _ => 0,
    }
}

// How many rows lower another quad is, if it is a tile of the same place of a layer in the same column.
fn distance_to(image: &TileImage, at: Rect, from: Point, other: &Quad) -> Option<i32> {
    match other {
        Quad::Tile {
            image: second,
            at: place,
            from: start,
        } => {
            let key = image.key();
            let next = second.key();
            if key.layer != next.layer || key.x != next.x || key.y != next.y {
                return None;
            }
            if at.x.wrapping_sub(from.x) != place.x.wrapping_sub(start.x) {
                return None;
            }
            let before = at.y.wrapping_sub(from.y);
            let after = place.y.wrapping_sub(start.y);
            Some(after.wrapping_sub(before))
        }
        _ => None,
    }
}

// The rows that what is scrolled is cut to.
#[derive(Clone, Copy)]
struct Port {
    top: i32,
    end: i32,
}

// The rows between the highest cut through the top of a tile and the lowest through the bottom of one; the screen's
// where no tile is cut.
fn port_of(passes: &[RenderPass], h: i32) -> Port {
    let mut top = h;
    let mut end = 0;
    for pass in passes {
        for quad in &pass.quads {
            if let Quad::Tile { image, at, from } = quad {
                if from.y > 0 {
                    top = top.min(at.y);
                }
                if from.y.wrapping_add(at.h) < image.rect().h {
                    end = end.max(at.y.wrapping_add(at.h));
                }
            }
        }
    }
    Port {
        top: if top == h { 0 } else { top },
        end: if end == 0 { h } else { end },
    }
}
