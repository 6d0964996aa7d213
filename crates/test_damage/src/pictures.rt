//! Pictures: what is drawn of scenes, as text.

ghost use Rattle.std.specs.Prelude.{IfOk};
ghost use Rattle.viz_canvas.specs.Canvases.{IsOfSize};

use geom::Point;
use region::Region;
use std::alloc::{AllocError, Global};
use test_table::Answer;
use viz_canvas::{Canvas, Rgba};
use viz_scene::Scene;

/// The picture of a scene.
pub fn drawn(alloc: Global, scene: &Scene) -> Result<Canvas<Rgba>, AllocError>
    ensures { IfOk result (λ canvas. IsOfSize scene.now.w scene.now.h canvas) }
{
    let mut canvas = Canvas::new(alloc, scene.w(), scene.h())?;
    canvas.draw(scene)?;
    Ok(canvas)
}

// Adds a colour, and how many pixels in a row have it.
fn say_run(answer: &mut Answer, pixel: [u8; 4], count: i64) {
    let [r, g, b, a] = pixel;
    answer.say(
        "pixels",
        &[
            i64::from(r),
            i64::from(g),
            i64::from(b),
            i64::from(a),
            count,
        ],
    );
}

// A byte of a picture.
fn byte_at(bytes: &[u8], at: usize) -> u8 {
    match bytes.get(at) {
        Some(byte) => *byte,
        None => 0,
    }
}

// Red, green, blue and alpha of a pixel.
fn pixel_at(bytes: &[u8], place: usize) -> [u8; 4] {
    let at = place.saturating_mul(4);
    [
        byte_at(bytes, at),
        byte_at(bytes, at.saturating_add(1)),
        byte_at(bytes, at.saturating_add(2)),
        byte_at(bytes, at.saturating_add(3)),
    ]
}

/// Adds the colours of a picture, row by row, each with how many pixels in a row have it.
pub fn say_pixels(answer: &mut Answer, bytes: &[u8]) {
    let mut last = [0u8; 4];
    let mut count = 0i64;
    for place in 0..bytes.len() / 4 {
        let pixel = pixel_at(bytes, place);
        if count > 0 && pixel != last {
            say_run(answer, last, count);
            count = 0;
        }
        last = pixel;
        count = count.saturating_add(1);
    }
    if count > 0 {
        say_run(answer, last, count);
    }
}

/// How many points of a canvas a region covers.
pub fn point_count(region: &Region, canvas: &Canvas<Rgba>) -> i64 {
    let mut count = 0i64;
    for y in 0..canvas.h() {
        for x in 0..canvas.w() {
            let at = Point {
                x: x as i32,
                y: y as i32,
            };
            if region.covers(at) {
                count = count.saturating_add(1);
            }
        }
    }
    count
}

/// In how many pixels two pictures of one size differ.
pub fn differing(first: &[u8], second: &[u8]) -> i64 {
    let mut count = 0i64;
    for place in 0..first.len() / 4 {
        if pixel_at(first, place) != pixel_at(second, place) {
            count = count.saturating_add(1);
        }
    }
    count
}
