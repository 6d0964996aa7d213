//! Drawing what some rects of a picture cover.

ghost use Rattle.std.specs.Prelude.{◌≡◌, ◌≤◌, pos, [], All, OnOk, IsTrue};
ghost use Rattle.geom.specs.Covers.{IsSound};
ghost use Rattle.viz_render.specs.Surfaces.{AreReady};
ghost use Rattle.viz_canvas.specs.Buffers.{HasRows, IsDrawnIn};
ghost use Rattle.viz_canvas.specs.inner.Bands.{AreAllReady, IsRectDrawn};

use crate::band::{BandArea, band_of};
use crate::format::PixelFormat;
use crate::parts::{draw_parts, parts_of, pixels_of};
use crate::pieces::draw_area;
use geom::Rect;
use page_display_list::shared_part;
use std::alloc::{AllocError, Global};
use std::marker::Sync;
use std::thread::Threads;
use viz_render::Surfaces;
use viz_scene::Scene;

/// Makes surfaces ready for drawing what some rects cover of a scene in at most the given number of parts. They stay
/// if they are enough, and of the scene's size and number of passes; else new ones are taken. An error means out of
/// memory.
pub(crate) fn prepare(
    alloc: Global,
    scene: &Scene,
    rects: &[Rect],
    most: usize,
    surfaces: &mut Vec<Surfaces>,
) -> Result<(), AllocError>
    requires { All IsSound rects.now }
    ensures { OnOk result (AreAllReady scene.now surfaces.new.items) }
{
    let parts = parts_of(scene, most_pixels(scene, rects), most);
    if surfaces.len() < parts || !are_all_ready(surfaces, scene) {
        surfaces.clear();
        return take_surfaces(alloc, scene, parts, surfaces);
    }
    measure_all(surfaces.as_mut_slice(), scene);
    Ok(())
}

// Whether all surfaces have room for strips of a scene.
fn are_all_ready(surfaces: &[Surfaces], scene: &Scene) -> bool
    ensures { IsTrue result → All (AreReady scene.now) surfaces.now }
{
    surfaces.iter().all(|each| each.are_ready(scene))
}

// Takes the given number of surfaces.
fn take_surfaces(
    alloc: Global,
    scene: &Scene,
    parts: usize,
    surfaces: &mut Vec<Surfaces>,
) -> Result<(), AllocError>
    requires some { 1 ≤ parts }
    requires none { surfaces.old.items ≡ [] }
    ensures { OnOk result (AreAllReady scene.now surfaces.new.items) }
{
    for _ in 0..parts {
        surfaces.push(Surfaces::new(alloc, scene)?)?;
    }
    Ok(())
}

// Looks for each of some surfaces in which passes of a scene a mask pays.
fn measure_all(surfaces: &mut [Surfaces], scene: &Scene)
    ensures { surfaces.new ≡ surfaces.old }
{
    for place in 0..surfaces.len() {
        surfaces[place].measure(scene);
    }
}

// How many pixels of a scene the largest of some rects has.
fn most_pixels(scene: &Scene, rects: &[Rect]) -> usize
    requires { All IsSound rects.now }
{
    let mut most = 0;
    for rect in rects {
        most = pixel_count(scene, *rect).max(most);
    }
    most
}

// How many pixels of a scene a rect has.
fn pixel_count(scene: &Scene, rect: Rect) -> usize
    requires { IsSound rect }
{
    match shared_part(rect, screen_of(scene)) {
        Some(part) => pixels_of(part.at),
        None => 0,
    }
}

/// Draws the pixels of a scene that some of the rects cover into its picture, which lies in a buffer with `across`
/// pixels from row to row; all other bytes stay.
pub(crate) fn draw_rects<F: PixelFormat>(
    scene: &Scene,
    bytes: &mut [u8],
    across: usize,
    rects: &[Rect],
    surfaces: &mut Surfaces,
)
    requires rects { All IsSound rects.now }
    requires rows { HasRows F.DEPTH across scene.now.w scene.now.h bytes.old }
    requires ready { AreReady scene.now surfaces.old }
    ensures { IsDrawnIn F.DEPTH F.bytes_of scene.now across rects.now bytes.old bytes.new }
{
    for rect in rects {
        draw_rect::<F>(scene, bytes, across, *rect, surfaces);
    }
}

// Draws the pixels of a scene that a rect covers.
fn draw_rect<F: PixelFormat>(
    scene: &Scene,
    bytes: &mut [u8],
    across: usize,
    rect: Rect,
    surfaces: &mut Surfaces,
)
    requires rect { IsSound rect }
    requires rows { HasRows F.DEPTH across scene.now.w scene.now.h bytes.old }
    requires ready { AreReady scene.now surfaces.old }
    ensures drawn { IsRectDrawn F.DEPTH F.bytes_of scene.now across rect bytes.old bytes.new }
    ensures ready { AreReady scene.now surfaces.new }
{
    if let Some(part) = shared_part(rect, screen_of(scene)) {
        let band = band_of(scene, across);
        draw_area::<F>(scene, bytes, band, part.at, surfaces);
    }
}

/// Draws as `draw_rects` does, and each rect in at most as many parts as there are surfaces.
pub(crate) fn draw_rects_in_parts<R: Threads + Sync, F: PixelFormat + Sync>(
    rt: &R,
    scene: &Scene,
    bytes: &mut [u8],
    across: usize,
    rects: &[Rect],
    surfaces: &mut [Surfaces],
)
    requires rects { All IsSound rects.now }
    requires rows { HasRows F.DEPTH across scene.now.w scene.now.h bytes.old }
    requires ready { AreAllReady scene.now surfaces.old }
    ensures { IsDrawnIn F.DEPTH F.bytes_of scene.now across rects.now bytes.old bytes.new }
{
    for rect in rects {
        draw_rect_in_parts::<R, F>(rt, scene, bytes, across, *rect, surfaces);
    }
}

// Draws the pixels of a scene that a rect covers, in at most as many parts as there are surfaces.
fn draw_rect_in_parts<R: Threads + Sync, F: PixelFormat + Sync>(
    rt: &R,
    scene: &Scene,
    bytes: &mut [u8],
    across: usize,
    rect: Rect,
    surfaces: &mut [Surfaces],
)
    requires rect { IsSound rect }
    requires rows { HasRows F.DEPTH across scene.now.w scene.now.h bytes.old }
    requires ready { AreAllReady scene.now surfaces.old }
    ensures drawn { IsRectDrawn F.DEPTH F.bytes_of scene.now across rect bytes.old bytes.new }
    ensures ready { AreAllReady scene.now surfaces.new }
{
    if let Some(part) = shared_part(rect, screen_of(scene)) {
        let place = BandArea {
            band: band_of(scene, across),
            at: part.at,
        };
        draw_parts::<R, F>(rt, scene, place, bytes, surfaces);
    }
}

/// The rect of the screen that a scene is of.
pub(crate) fn screen_of(scene: &Scene) -> Rect
    ensures value { result ≡ record { x = pos 0; y = pos 0; w = pos scene.now.w; h = pos scene.now.h } }
    ensures sound { IsSound result }
    ensures wide { scene.now.w ≤ 2048 }
    ensures tall { scene.now.h ≤ 2048 }
{
    Rect {
        x: 0,
        y: 0,
        w: scene.w() as i32,
        h: scene.h() as i32,
    }
}
