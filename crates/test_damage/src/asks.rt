//! What is asked of scenes.

ghost use Rattle.std.specs.Prelude.{◌≡◌, ◌+◌, ◌*◌, ◌≤◌, [], ◌∷◌, length, IsTrue};
ghost use Rattle.viz_painter.specs.Redrawers.{ShowsHeld};

use crate::pictures::{differing, drawn, point_count, say_pixels};
use std::alloc::Global;
use test_table::{Answer, LineFault};
use tile_raster::TileImage;
use viz_canvas::Rgba;
use viz_damage::damage_of;
use viz_occlusion::cull;
use viz_painter::{Painter, Redrawer};
use viz_scene::{Quad, Scene};

// Whether two scenes are of one size.
fn are_of_one_size(a: &Scene, b: &Scene) -> bool
    ensures wide { IsTrue result → a.now.w ≡ b.now.w }
    ensures tall { IsTrue result → a.now.h ≡ b.now.h }
{
    a.w() == b.w() && a.h() == b.h()
}

/// Says where two scenes differ.
pub fn damage(
    alloc: Global,
    old: &Scene,
    new: &Scene,
    answer: &mut Answer,
) -> Result<(), LineFault> {
    if !are_of_one_size(old, new) {
        return Err(LineFault::OtherSize);
    }
    let region = damage_of(alloc, old, new)?;
    for rect in region.rects() {
        answer.say_rect("rect", *rect);
    }
    let before = drawn(alloc, old)?;
    let after = drawn(alloc, new)?;
    answer.say("points", &[point_count(&region, &after)]);
    answer.say("differ", &[differing(before.bytes(), after.bytes())]);
    Ok(())
}

/// Says where two scenes without their hidden quads differ, which is what a painter draws again.
pub fn painted(
    alloc: Global,
    old: &Scene,
    new: &Scene,
    answer: &mut Answer,
) -> Result<(), LineFault> {
    let before = cull(alloc, old)?;
    let after = cull(alloc, new)?;
    damage(alloc, &before, &after, answer)
}

/// Says the old picture in which the damage was drawn again.
pub fn redrawn(
    alloc: Global,
    old: &Scene,
    new: &Scene,
    answer: &mut Answer,
) -> Result<(), LineFault> {
    if !are_of_one_size(old, new) {
        return Err(LineFault::OtherSize);
    }
    let mut canvas = drawn(alloc, old)?;
    let region = damage_of(alloc, old, new)?;
    canvas.draw_region(new, &region)?;
    say_pixels(answer, canvas.bytes());
    Ok(())
}

/// Shows a scene, and says its picture.
pub fn show(
    painter: &mut Painter<Rgba>,
    scene: Scene,
    answer: &mut Answer,
) -> Result<(), LineFault> {
    painter.paint(scene)?;
    say_pixels(answer, painter.canvas().bytes());
    Ok(())
}

/// Draws a scene of this size into a buffer of rows with a gap of one pixel, and says all pixels of the buffer.
pub fn redraw(
    redrawer: &mut Redrawer<Rgba>,
    scene: Scene,
    w: u32,
    h: u32,
    buffer: &mut [u8],
    answer: &mut Answer,
) -> Result<(), LineFault>
    requires small { w ≤ 2048 }
    requires size { length buffer.old ≡ 4 * ((w + 1) * h) }
    requires held { ShowsHeld 4 (λ c. c.r ∷ c.g ∷ c.b ∷ c.a ∷ []) (w + 1) redrawer.old.held buffer.old }
    ensures { ShowsHeld 4 (λ c. c.r ∷ c.g ∷ c.b ∷ c.a ∷ []) (w + 1) redrawer.new.held buffer.new }
{
    if scene.w() != w || scene.h() != h {
        return Err(LineFault::OtherSize);
    }
    redrawer.paint(scene, buffer, w as usize + 1)?;
    say_pixels(answer, buffer);
    Ok(())
}

// Says a quad.
fn say_quad(quad: &Quad, answer: &mut Answer) {
    match quad {
        Quad::Tile { at, .. } => answer.say_rect("tile", *at),
        Quad::Solid { at, colour } => {
            answer.say_rect("solid", *at);
            answer.say_colour("of", *colour);
        }
        Quad::Group { pass, opacity } => {
            answer.say("group", &[i64::from(*pass), i64::from(*opacity)]);
        }
    }
}

/// Says the quads of a scene that are not hidden.
pub fn culled(alloc: Global, scene: &Scene, answer: &mut Answer) -> Result<(), LineFault> {
    let culled = cull(alloc, scene)?;
    for pass in culled.passes() {
        answer.say("pass", &[]);
        for quad in pass.quads.as_slice() {
            say_quad(quad, answer);
        }
    }
    Ok(())
}

/// Says the colour of an image, if it has only one.
pub fn colour(image: &TileImage, answer: &mut Answer) {
    match image.solid() {
        Some(colour) => answer.say_colour("one", colour),
        None => answer.say("many", &[]),
    }
}
