//! Sketches of scenes: random, and changed by a few random steps.

use crate::pool::{IMAGES, colour_of};
use geom::{Point, Rect};
use pixel::Colour;
use std::alloc::{AllocError, Global};
use std::sync::Arc;
use test_table::Dice;
use tile_raster::TileImage;
use viz_scene::{Quad, RenderPass, Scene, scene_of};

/// The side of the screen, in pixels.
const SIDE: u32 = 32;

/// A quad, or the end of a pass.
#[derive(Clone, Copy)]
pub(crate) enum SketchPart {
    /// A part of an image of the pool.
    Tile {
        /// The number of the image.
        image: u32,
        /// Where it lies.
        at: Rect,
        /// From which pixel of the image on.
        from: Point,
    },
    /// A rect of one colour.
    Solid {
        /// Where it lies.
        at: Rect,
        /// Its colour.
        colour: Colour,
    },
    /// A pass as a whole.
    Group {
        /// Its number.
        pass: u32,
        /// What it is faded to.
        opacity: u8,
    },
    /// The end of a pass.
    End,
}

/// A scene by its parts, which may be none.
pub(crate) struct Sketch {
    background: Colour,
    parts: Vec<SketchPart>,
}

// Written out, since a derived drop is proved anew, field by field, in each function that lets one go.
impl Drop for Sketch {
    fn drop(self) {
        let Sketch {
            background: _,
            parts: _,
        } = self;
    }
}

// A rect of a cell of the screen, or any on it.
fn place_of(dice: &mut Dice) -> Rect {
    if dice.throw() % 2 == 0 {
        return Rect {
            x: 16 * (dice.throw() % 2) as i32,
            y: 16 * (dice.throw() % 2) as i32,
            w: 16,
            h: 16,
        };
    }
    Rect {
        x: (dice.throw() % 17) as i32,
        y: (dice.throw() % 17) as i32,
        w: (dice.throw() % 17) as i32,
        h: (dice.throw() % 17) as i32,
    }
}

// A pixel of an image from which as much as a rect can be taken.
fn start_of(dice: &mut Dice, at: Rect) -> Point {
    let across = 16i32.saturating_sub(at.w).saturating_add(1).max(1) as u32;
    let down = 16i32.saturating_sub(at.h).saturating_add(1).max(1) as u32;
    Point {
        x: (dice.throw() % across) as i32,
        y: (dice.throw() % down) as i32,
    }
}

// A quad of the pass of this number.
fn part_of(dice: &mut Dice, number: u32) -> SketchPart {
    let at = place_of(dice);
    match dice.throw() % 8 {
        0 | 1 if number > 0 => SketchPart::Group {
            pass: dice.throw() % number,
            opacity: (dice.throw() % 256) as u8,
        },
        2 | 3 => SketchPart::Solid {
            at,
            colour: colour_of(dice),
        },
        _ => SketchPart::Tile {
            image: dice.throw() % IMAGES,
            at,
            from: start_of(dice, at),
        },
    }
}

// A part that is moved a little, or shows something else.
fn changed(dice: &mut Dice, part: SketchPart) -> SketchPart {
    match part {
        SketchPart::Tile { image, at, from } => match dice.throw() % 3 {
            0 => SketchPart::Tile {
                image: dice.throw() % IMAGES,
                at,
                from,
            },
            1 => SketchPart::Tile {
                image: image ^ 1,
                at,
                from,
            },
            _ => SketchPart::Tile {
                image,
                at: moved(dice, at),
                from,
            },
        },
        SketchPart::Solid { at, colour } => match dice.throw() % 2 {
            0 => SketchPart::Solid {
                at,
                colour: colour_of(dice),
            },
            _ => SketchPart::Solid {
                at: moved(dice, at),
                colour,
            },
        },
        SketchPart::Group { pass, .. } => SketchPart::Group {
            pass,
            opacity: (dice.throw() % 256) as u8,
        },
        SketchPart::End => SketchPart::End,
    }
}

// A rect moved by up to two pixels.
fn moved(dice: &mut Dice, at: Rect) -> Rect {
    let dx = (dice.throw() % 5) as i32 - 2;
    let dy = (dice.throw() % 5) as i32 - 2;
    Rect {
        x: at.x.saturating_add(dx),
        y: at.y.saturating_add(dy),
        w: at.w,
        h: at.h,
    }
}

// Adds the given number of quads of the pass of this number, and its end.
fn add_pass(
    dice: &mut Dice,
    number: u32,
    count: u32,
    parts: &mut Vec<SketchPart>,
) -> Result<(), AllocError> {
    for _quad in 0..count {
        parts.push(part_of(dice, number))?;
    }
    parts.push(SketchPart::End)?;
    Ok(())
}

// The parts of a scene of up to three passes.
fn parts_of(alloc: Global, dice: &mut Dice) -> Result<Vec<SketchPart>, AllocError> {
    let mut parts = Vec::new(alloc);
    for number in 0..1 + dice.throw() % 3 {
        let count = 1 + dice.throw() % 6;
        add_pass(dice, number, count, &mut parts)?;
    }
    Ok(parts)
}

// Some parts, of which one is gone, is another one, or has another one before it.
fn with_change(
    alloc: Global,
    dice: &mut Dice,
    parts: &[SketchPart],
) -> Result<Vec<SketchPart>, AllocError> {
    let place = dice.throw() as usize % parts.len().max(1);
    let kind = dice.throw() % 6;
    let mut after = Vec::new(alloc);
    for at in 0..parts.len() {
        let part = parts[at];
        if at != place {
            after.push(part)?;
        } else {
            change_at(dice, kind, part, &mut after)?;
        }
    }
    Ok(after)
}

// What stands in the place of a part.
fn change_at(
    dice: &mut Dice,
    kind: u32,
    part: SketchPart,
    after: &mut Vec<SketchPart>,
) -> Result<(), AllocError> {
    if kind == 0 {
        return Ok(());
    }
    if kind == 1 {
        after.push(part_of(dice, 1))?;
        after.push(part)?;
        return Ok(());
    }
    after.push(changed(dice, part))?;
    Ok(())
}

// Some parts, whose tiles all lie this much higher.
fn scrolled(alloc: Global, parts: &[SketchPart], by: i32) -> Result<Vec<SketchPart>, AllocError> {
    let mut after = Vec::new(alloc);
    for part in parts {
        after.push(scrolled_part(*part, by))?;
    }
    Ok(after)
}

// A tile that lies this much higher; all else stays.
fn scrolled_part(part: SketchPart, by: i32) -> SketchPart {
    match part {
        SketchPart::Tile { image, at, from } => SketchPart::Tile {
            image,
            at: Rect {
                x: at.x,
                y: at.y.saturating_sub(by),
                w: at.w,
                h: at.h,
            },
            from,
        },
        other => other,
    }
}

impl Sketch {
    /// A random sketch.
    pub(crate) fn thrown(alloc: Global, dice: &mut Dice) -> Result<Sketch, AllocError> {
        let background = colour_of(dice);
        let parts = parts_of(alloc, dice)?;
        Ok(Sketch { background, parts })
    }

    /// A sketch that follows on this one: mostly with up to three changes.
    pub(crate) fn next(&self, alloc: Global, dice: &mut Dice) -> Result<Sketch, AllocError> {
        if dice.throw() % 16 == 0 {
            return Sketch::thrown(alloc, dice);
        }
        let parts = parts_after(alloc, dice, self.parts.as_slice())?;
        Ok(Sketch {
            background: self.background,
            parts,
        })
    }

    /// This sketch with its tiles up to sixteen pixels higher or lower, and with up to two changes.
    pub(crate) fn shifted(&self, alloc: Global, dice: &mut Dice) -> Result<Sketch, AllocError> {
        let by = (dice.throw() % 33) as i32 - 16;
        let parts = scrolled(alloc, self.parts.as_slice(), by)?;
        Ok(Sketch {
            background: self.background,
            parts: with_changes(alloc, dice, parts)?,
        })
    }

    /// The scene of this sketch. None if its parts make none.
    pub(crate) fn scene(
        &self,
        alloc: Global,
        pool: &[Arc<TileImage>],
    ) -> Result<Option<Scene>, AllocError> {
        let passes = passes_of(alloc, self.parts.as_slice(), pool)?;
        Ok(scene_of(SIDE, SIDE, self.background, passes))
    }
}

// Some parts with a few changes.
fn parts_after(
    alloc: Global,
    dice: &mut Dice,
    parts: &[SketchPart],
) -> Result<Vec<SketchPart>, AllocError> {
    let after = if dice.throw() % 4 == 0 {
        let by = (dice.throw() % 3) as i32;
        scrolled(alloc, parts, by)?
    } else {
        with_change(alloc, dice, parts)?
    };
    with_changes(alloc, dice, after)
}

// Some parts with up to two changes.
fn with_changes(
    alloc: Global,
    dice: &mut Dice,
    parts: Vec<SketchPart>,
) -> Result<Vec<SketchPart>, AllocError> {
    let mut after = parts;
    for _change in 0..dice.throw() % 3 {
        after = with_change(alloc, dice, after.as_slice())?;
    }
    Ok(after)
}

// The passes of some parts.
fn passes_of(
    alloc: Global,
    parts: &[SketchPart],
    pool: &[Arc<TileImage>],
) -> Result<Vec<RenderPass>, AllocError> {
    let mut passes = Vec::new(alloc);
    let mut quads = Vec::new(alloc);
    for part in parts {
        match quad_of(*part, pool)? {
            Some(quad) => quads.push(quad)?,
            None => {
                let done = std::mem::replace(&mut quads, Vec::new(alloc));
                passes.push(RenderPass { quads: done })?;
            }
        }
    }
    Ok(passes)
}

// The quad of a part; None at the end of a pass.
fn quad_of(part: SketchPart, pool: &[Arc<TileImage>]) -> Result<Option<Quad>, AllocError> {
    match part {
        SketchPart::Tile { image, at, from } => match pool.get(image as usize) {
            Some(image) => Ok(Some(Quad::Tile {
                image: Arc::try_clone(image)?,
                at,
                from,
            })),
            None => Ok(None),
        },
        SketchPart::Solid { at, colour } => Ok(Some(Quad::Solid { at, colour })),
        SketchPart::Group { pass, opacity } => Ok(Some(Quad::Group { pass, opacity })),
        SketchPart::End => Ok(None),
    }
}
