//! What is done with a large scene, again and again.

ghost use Rattle.test_draw.specs.Jobs.{IsLarge};

use crate::large::layered;
use std::alloc::{AllocError, Global};
use viz_canvas::Rgb;
use viz_damage::damage_of;
use viz_occlusion::cull;
use viz_painter::Painter;
use viz_scene::{Quad, RenderPass, Scene, scene_of};

/// What is done.
#[derive(Clone, Copy)]
pub(crate) enum Act {
    /// The scene is copied.
    Copy,
    /// Its hidden quads are left out.
    Cull,
    /// It is compared with its equal.
    Damage,
    /// A painter shows copies of it.
    Show,
    /// A painter shows copies of it, and between them of one that differs in a tile.
    Tile,
}

// The quads of a pass once more, which share their images.
fn copied_pass(alloc: Global, pass: &RenderPass) -> Result<RenderPass, AllocError> {
    let mut quads = Vec::with_capacity(alloc, pass.quads.len())?;
    for quad in pass.quads.as_slice() {
        quads.push(quad.copy()?)?;
    }
    Ok(RenderPass { quads })
}

// The scene once more.
fn copied(alloc: Global, scene: &Scene) -> Result<Option<Scene>, AllocError> {
    let mut passes = Vec::new(alloc);
    for pass in scene.passes() {
        passes.push(copied_pass(alloc, pass)?)?;
    }
    Ok(scene_of(scene.w(), scene.h(), scene.background(), passes))
}

// How many quads a scene has.
fn quad_count(scene: &Scene) -> u64 {
    let mut count = 0u64;
    for pass in scene.passes() {
        count = count.wrapping_add(pass.quads.len() as u64);
    }
    count
}

// Copies a scene the given number of times.
fn copies(alloc: Global, scene: &Scene, times: u32) -> Result<u64, AllocError> {
    let mut sum = 0u64;
    for _turn in 0..times {
        if let Some(copy) = copied(alloc, scene)? {
            sum = sum.wrapping_add(quad_count(&copy));
        }
    }
    Ok(sum)
}

// Leaves the hidden quads of a scene out the given number of times.
fn culls(alloc: Global, scene: &Scene, times: u32) -> Result<u64, AllocError> {
    let mut sum = 0u64;
    for _turn in 0..times {
        let culled = cull(alloc, scene)?;
        sum = sum.wrapping_add(quad_count(&culled));
    }
    Ok(sum)
}

// Compares two scenes the given number of times.
fn damages(alloc: Global, old: &Scene, new: &Scene, times: u32) -> Result<u64, AllocError>
    requires old { IsLarge old.now }
    requires new { IsLarge new.now }
{
    let mut sum = 0u64;
    for _turn in 0..times {
        let region = damage_of(alloc, old, new)?;
        sum = sum.wrapping_add(region.rects().len() as u64);
    }
    Ok(sum)
}

// Shows a copy of a scene, and gives the first byte of the canvas.
fn show_copy(alloc: Global, painter: &mut Painter<Rgb>, scene: &Scene) -> Result<u64, AllocError> {
    let Some(copy) = copied(alloc, scene)? else {
        return Ok(0);
    };
    painter.paint(copy)?;
    match painter.canvas().bytes().first() {
        Some(first) => Ok(*first as u64),
        None => Ok(0),
    }
}

/// Shows copies of two scenes alternately, the given number of times, and gives a sum of the first bytes.
pub(crate) fn shows(
    alloc: Global,
    first: &Scene,
    second: &Scene,
    times: u32,
) -> Result<u64, AllocError> {
    let mut painter = Painter::new(alloc, 1024, 1024)?;
    let mut sum = 0u64;
    for turn in 0..times {
        let scene = if turn % 2 == 0 { first } else { second };
        sum = sum.wrapping_add(show_copy(alloc, &mut painter, scene)?);
    }
    Ok(sum)
}

// Does something with two scenes.
fn sum_over(
    alloc: Global,
    act: Act,
    first: &Scene,
    second: &Scene,
    times: u32,
) -> Result<u64, AllocError>
    requires first { IsLarge first.now }
    requires second { IsLarge second.now }
{
    match act {
        Act::Copy => copies(alloc, first, times),
        Act::Cull => culls(alloc, first, times),
        Act::Damage => damages(alloc, first, second, times),
        Act::Show => shows(alloc, first, second, times),
        Act::Tile => shows(alloc, first, second, times),
    }
}

/// Does something with scenes of the given number of layers the given number of times, and gives a sum of
/// what came out.
pub(crate) fn sum_of(alloc: Global, act: Act, layers: u32, times: u32) -> Result<u64, AllocError> {
    let last = layers.saturating_sub(1);
    let middle = match act {
        Act::Tile => layers,
        _ => last,
    };
    match (
        layered(alloc, layers, last)?,
        layered(alloc, layers, middle)?,
    ) {
        (Some(first), Some(second)) => sum_over(alloc, act, &first, &second, times),
        _ => Ok(0),
    }
}
