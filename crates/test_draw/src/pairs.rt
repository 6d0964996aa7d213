//! Pairs of random scenes: the damage from one to the other is drawn over the picture of the first, and a painter
//! shows both.

ghost use Rattle.std.specs.Prelude.{◌≡◌, IsTrue, IfOk};
ghost use Rattle.viz_canvas.specs.Canvases.{IsOfSize};

use crate::pool::pool_of;
use crate::sketch::Sketch;
use geom::Point;
use region::Region;
use std::alloc::{AllocError, Global};
use std::io;
use std::sync::Arc;
use test_table::{Answer, Dice};
use tile_raster::TileImage;
use viz_canvas::{Canvas, Rgba};
use viz_damage::damage_of;
use viz_occlusion::cull;
use viz_painter::Painter;
use viz_scene::Scene;

/// How the second sketch of a pair comes from the first.
#[derive(Clone, Copy)]
pub(crate) enum PairKind {
    /// By a few changes, or it has nothing to do with the first.
    Changed,
    /// By a scroll, and by a few changes.
    Shifted,
}

/// What came out of some pairs.
#[derive(Clone, Copy)]
struct PairCounts {
    /// How many pairs were tried.
    pairs: u64,
    /// How many sketches made no scene.
    skipped: u64,
    /// How many pairs have another picture than that of the second scene after its damage was drawn.
    wrong: u64,
    /// How many a painter shows otherwise.
    shown_otherwise: u64,
    /// How many points the damage of all pairs has.
    damaged: u64,
    /// How many points of all pairs have another colour.
    changed: u64,
    /// How many points the damage of culled scenes has.
    culled: u64,
}

// What came out of one pair.
#[derive(Clone, Copy)]
struct PairResult {
    is_right: bool,
    damaged: u64,
    changed: u64,
}

// The picture of a scene.
fn drawn(alloc: Global, scene: &Scene) -> Result<Canvas<Rgba>, AllocError>
    ensures { IfOk result (λ canvas. IsOfSize scene.now.w scene.now.h canvas) }
{
    let mut canvas = Canvas::new(alloc, scene.w(), scene.h())?;
    canvas.draw(scene)?;
    Ok(canvas)
}

// The points of a region on a canvas.
fn area_of(region: &Region, canvas: &Canvas<Rgba>) -> u64 {
    let mut area = 0u64;
    for y in 0..canvas.h() {
        for x in 0..canvas.w() {
            let at = Point {
                x: x as i32,
                y: y as i32,
            };
            if region.covers(at) {
                area = area.wrapping_add(1);
            }
        }
    }
    area
}

// A byte of a picture.
fn byte_at(bytes: &[u8], at: usize) -> u8 {
    match bytes.get(at) {
        Some(byte) => *byte,
        None => 0,
    }
}

// In how many pixels two pictures differ.
fn differing(a: &[u8], b: &[u8]) -> u64 {
    let mut count = 0u64;
    let mut differs = false;
    for at in 0..a.len() {
        if byte_at(a, at) != byte_at(b, at) {
            differs = true;
        }
        if at % 4 == 3 {
            if differs {
                count = count.wrapping_add(1);
            }
            differs = false;
        }
    }
    count
}

// Draws the damage of the second scene over the picture of the first.
fn try_damage(alloc: Global, old: &Scene, new: &Scene) -> Result<PairResult, AllocError>
    requires wide { old.now.w ≡ new.now.w }
    requires tall { old.now.h ≡ new.now.h }
{
    let before = drawn(alloc, old)?;
    let after = drawn(alloc, new)?;
    let mut canvas = drawn(alloc, old)?;
    let region = damage_of(alloc, old, new)?;
    canvas.draw_region(new, &region)?;
    Ok(PairResult {
        is_right: canvas.bytes() == after.bytes(),
        damaged: area_of(&region, &after),
        changed: differing(before.bytes(), after.bytes()),
    })
}

// Whether a painter that shows the scene has the right picture.
fn shows(alloc: Global, painter: &mut Painter<Rgba>, scene: Scene) -> Result<bool, AllocError> {
    let wanted = drawn(alloc, &scene)?;
    painter.paint(scene)?;
    Ok(painter.canvas().bytes() == wanted.bytes())
}

// Whether two scenes are of one size.
fn are_of_one_size(a: &Scene, b: &Scene) -> bool
    ensures wide { IsTrue result → a.now.w ≡ b.now.w }
    ensures tall { IsTrue result → a.now.h ≡ b.now.h }
{
    a.w() == b.w() && a.h() == b.h()
}

impl PairCounts {
    /// Nothing was tried.
    const NONE: PairCounts = PairCounts {
        pairs: 0,
        skipped: 0,
        wrong: 0,
        shown_otherwise: 0,
        damaged: 0,
        changed: 0,
        culled: 0,
    };

    /// Counts a pair.
    fn count(&mut self, trial: PairResult, culled: PairResult, is_shown: bool) {
        self.pairs = self.pairs.wrapping_add(1);
        if !trial.is_right || !culled.is_right {
            self.wrong = self.wrong.wrapping_add(1);
        }
        if !is_shown {
            self.shown_otherwise = self.shown_otherwise.wrapping_add(1);
        }
        self.damaged = self.damaged.wrapping_add(trial.damaged);
        self.changed = self.changed.wrapping_add(trial.changed);
        self.culled = self.culled.wrapping_add(culled.damaged);
    }
}

// The same trial of both scenes without their hidden quads.
fn try_culled(alloc: Global, old: &Scene, new: &Scene) -> Result<PairResult, AllocError>
    requires wide { old.now.w ≡ new.now.w }
    requires tall { old.now.h ≡ new.now.h }
{
    let before = cull(alloc, old)?;
    let after = cull(alloc, new)?;
    try_damage(alloc, &before, &after)
}

// Tries a pair in each way.
fn try_pair(
    alloc: Global,
    painter: &mut Painter<Rgba>,
    old: Scene,
    new: Scene,
    figures: &mut PairCounts,
) -> Result<(), AllocError> {
    if !are_of_one_size(&old, &new) {
        figures.skipped = figures.skipped.wrapping_add(1);
        return Ok(());
    }
    let trial = try_damage(alloc, &old, &new)?;
    let culled = try_culled(alloc, &old, &new)?;
    let first = shows(alloc, painter, old)?;
    let second = shows(alloc, painter, new)?;
    figures.count(trial, culled, first && second);
    Ok(())
}

// Throws a sketch and one that follows on it, and tries their scenes.
fn try_throw(
    alloc: Global,
    pool: &[Arc<TileImage>],
    painter: &mut Painter<Rgba>,
    kind: PairKind,
    seed: u64,
    figures: &mut PairCounts,
) -> Result<(), AllocError> {
    let mut dice = Dice::new(seed);
    let sketch = Sketch::thrown(alloc, &mut dice)?;
    let next = match kind {
        PairKind::Changed => sketch.next(alloc, &mut dice)?,
        PairKind::Shifted => sketch.shifted(alloc, &mut dice)?,
    };
    match (sketch.scene(alloc, pool)?, next.scene(alloc, pool)?) {
        (Some(old), Some(new)) => try_pair(alloc, painter, old, new, figures),
        _ => {
            figures.skipped = figures.skipped.wrapping_add(1);
            Ok(())
        }
    }
}

// What comes out of the given number of pairs.
fn figures_of(
    alloc: Global,
    kind: PairKind,
    count: u32,
    seed: u32,
) -> Result<PairCounts, AllocError> {
    let pool = pool_of(alloc)?;
    let mut painter = Painter::new(alloc, 1, 1)?;
    let mut figures = PairCounts::NONE;
    for turn in 0..u32::MAX {
        if figures.pairs >= count as u64 {
            break;
        }
        let number = (seed as u64) << 32 | turn as u64;
        try_throw(
            alloc,
            pool.as_slice(),
            &mut painter,
            kind,
            number,
            &mut figures,
        )?;
    }
    Ok(figures)
}

/// Tries the given number of pairs of scenes, and adds to an answer how many are wrong.
pub(crate) fn say_wrong(
    alloc: Global,
    count: u32,
    seed: u32,
    answer: &mut Answer,
) -> Result<(), AllocError> {
    let figures = figures_of(alloc, PairKind::Changed, count, seed)?;
    answer.say("pairs", &[i64::try_from(figures.pairs).unwrap_or(i64::MAX)]);
    answer.say("wrong", &[i64::try_from(figures.wrong).unwrap_or(i64::MAX)]);
    let otherwise = i64::try_from(figures.shown_otherwise).unwrap_or(i64::MAX);
    answer.say("shown otherwise", &[otherwise]);
    Ok(())
}

/// Tries the given number of pairs of scenes and tells what came out: how many are wrong, and how many points
/// are damaged and how many have another colour, in all.
pub(crate) fn tell(rt: &HostRuntime, kind: PairKind, count: u32, seed: u32) -> io::Result<()> {
    let figures = figures_of(rt.alloc(), kind, count, seed)?;
    let (pairs, skipped) = (figures.pairs, figures.skipped);
    let (wrong, otherwise) = (figures.wrong, figures.shown_otherwise);
    let (damaged, changed, culled) = (figures.damaged, figures.changed, figures.culled);
    println!(rt; "{pairs} pairs of scenes, {skipped} sketches made none")?;
    println!(rt; "{wrong} wrong, {otherwise} shown otherwise")?;
    println!(rt; "points: {damaged} damaged, {culled} without hidden quads, {changed} changed")?;
    Ok(())
}
