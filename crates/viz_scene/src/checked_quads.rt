//! Whether a quad may stand in a pass.

ghost use Rattle.std.specs.Prelude.{◌≡◌, ◌↔◌, pos, ◌+ℤ◌, ◌&&◌, IsTrue};
ghost use Rattle.viz_scene.specs.Views.{quad_view};
ghost use Rattle.viz_scene.specs.Sound.{QuadFits, IsIn, IsTaken};
ghost use Rattle.viz_scene.specs.inner.Tests;

use crate::Quad;
use geom::{Point, Rect};
use tile_raster::TileImage;

// The number after a span.
fn end_of(at: i32, len: i32) -> i64
    ensures { result ≡ at +ℤ len }
{
    at as i64 + len as i64
}

// Whether a span lies between 0 and a side.
#[tactic(auto, unfolding(crate::specs::inner::Tests::is_span_in))]
fn is_span_in(at: i32, len: i32, side: u32) -> bool
    ensures { result ≡ Tests.is_span_in at len (pos side) }
{
    let end = end_of(at, len);
    let long = 0 <= len && end <= side as i64;
    0 <= at && long
}

// Whether this much from a number on lies in a length.
#[tactic(auto, unfolding(crate::specs::inner::Tests::is_part_of))]
fn is_part_of(from: i32, len: i32, whole: i32) -> bool
    ensures { result ≡ Tests.is_part_of from len whole }
{
    let end = end_of(from, len);
    0 <= from && end <= whole as i64
}

// Whether a rect lies inside a screen.
fn is_in(at: Rect, w: u32, h: u32) -> bool
    ensures value { result ≡ (Tests.is_span_in at.x at.w (pos w) && Tests.is_span_in at.y at.h (pos h)) }
    ensures decides { IsTrue result ↔ IsIn w h at }
{
    let across = is_span_in(at.x, at.w, w);
    let down = is_span_in(at.y, at.h, h);
    across && down
}

// Whether the part of an image from a pixel on, as large as a rect, lies inside the image.
fn is_taken(image: &TileImage, at: Rect, from: Point) -> bool
    ensures value { result ≡ (Tests.is_part_of from.x at.w image.now.rect.w && Tests.is_part_of from.y at.h image.now.rect.h) }
    ensures decides { IsTrue result ↔ IsTaken image.now at from }
{
    let rect = image.rect();
    let across = is_part_of(from.x, at.w, rect.w);
    let down = is_part_of(from.y, at.h, rect.h);
    across && down
}

/// Whether a quad may stand in the pass of this number on a screen of these sides in pixels: a tile or a solid
/// lies on the screen, the part of an image that a tile shows lies in the image, and a group is of an earlier
/// pass.
pub(crate) fn fits(quad: &Quad, w: u32, h: u32, number: usize) -> bool
    ensures { IsTrue result ↔ QuadFits w h number (quad_view quad.now) }
{
    match quad {
        Quad::Tile { image, at, from } => {
            let placed = is_in(*at, w, h);
            let taken = is_taken(image, *at, *from);
            placed && taken
        }
        Quad::Solid { at, .. } => is_in(*at, w, h),
        Quad::Group { pass, .. } => (*pass as usize) < number,
    }
}
