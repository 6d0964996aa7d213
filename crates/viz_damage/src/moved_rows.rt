//! What is left of a quad that is moved down or up, and cut to some rows.

ghost use Rattle.std.specs.Prelude.{◌≡◌, pos, ◌+ℤ◌, ◌-ℤ◌, ◌≤ℤ◌, IfOk};
ghost use Rattle.std.specs.Int.{int_max, int_min};
ghost use Rattle.geom.specs.Covers.{IsSound};
ghost use Rattle.viz_scene.specs.Areas.{IsOnScreen};
ghost use Rattle.viz_scene.specs.Views.{quad_view};
ghost use Rattle.viz_damage.specs.inner.Acting.{IsCut, IsCutTo, IsShown, IsMovedTo};

use geom::{Point, Rect};
use std::alloc::AllocError;
use std::sync::Arc;
use viz_scene::Quad;

/// How far something is moved, and between which rows it is kept.
#[derive(Clone, Copy)]
pub(crate) struct MovedRows {
    /// How many rows down.
    pub(crate) by: i32,
    /// The first row that is kept.
    pub(crate) top: i32,
    /// The row after the last that is kept.
    pub(crate) end: i32,
}

/// What is left of a quad once it is moved and cut; None if nothing is. An error means out of memory.
pub(crate) fn moved_quad(quad: &Quad, cut: MovedRows) -> Result<Option<Quad>, AllocError>
    requires cut { IsCut cut.by cut.top cut.end }
    requires shown { IsShown (quad_view quad.now) }
    ensures { IfOk result (λ moved. IsMovedTo cut.by cut.top cut.end (quad_view quad.now) moved) }
{
    match quad {
        Quad::Tile { image, at, from } => match rest_of(*at, cut) {
            Some(place) => {
                let whole = image.rect();
                let image = Arc::try_clone(image)?;
                let from = start_of(*from, *at, cut, place, whole);
                Ok(Some(Quad::Tile {
                    image,
                    at: place,
                    from,
                }))
            }
            None => Ok(None),
        },
        Quad::Solid { at, colour } => match rest_of(*at, cut) {
            Some(place) => Ok(Some(Quad::Solid {
                at: place,
                colour: *colour,
            })),
            None => Ok(None),
        },
        Quad::Group { pass, opacity } => Ok(Some(Quad::Group {
            pass: *pass,
            opacity: *opacity,
        })),
    }
}

// The pixel of an image that lies at the top left corner of what is left.
fn start_of(from: Point, at: Rect, cut: MovedRows, place: Rect, whole: Rect) -> Point
    requires from_low { pos 0 ≤ℤ from.y }
    requires from_high { from.y ≤ℤ whole.h }
    requires at_low { pos 0 ≤ℤ at.y }
    requires at_high { at.y ≤ℤ pos 2048 }
    requires above { (at.y +ℤ cut.by) ≤ℤ place.y }
    requires place { place.y ≤ℤ pos 2048 }
    requires by { pos 0 ≤ℤ (cut.by +ℤ pos 2048) }
    requires down { cut.by ≤ℤ pos 2048 }
    requires whole { IsSound whole }
    ensures x { result.x ≡ from.x }
    ensures y { result.y ≡ from.y +ℤ (place.y -ℤ (at.y +ℤ cut.by)) }
{
    Point {
        x: from.x,
        y: start_row(from.y, at.y, cut.by, place.y),
    }
}

// The row of an image that lies at a row, where row `from` lies at row `at`, moved `by` rows down.
fn start_row(from: i32, at: i32, by: i32, row: i32) -> i32
    requires from_low { pos 0 ≤ℤ from }
    requires from_high { from ≤ℤ pos 536870912 }
    requires at_low { pos 0 ≤ℤ at }
    requires at_high { at ≤ℤ pos 2048 }
    requires above { (at +ℤ by) ≤ℤ row }
    requires row { row ≤ℤ pos 2048 }
    requires by { pos 0 ≤ℤ (by +ℤ pos 2048) }
    requires down { by ≤ℤ pos 2048 }
    ensures { result ≡ from +ℤ (row -ℤ (at +ℤ by)) }
{
    from + (row - (at + by))
}

// What of a rect lies between the rows once it is moved; None if nothing does.
fn rest_of(at: Rect, cut: MovedRows) -> Option<Rect>
    requires cut { IsCut cut.by cut.top cut.end }
    requires at { IsOnScreen at }
    ensures { IsCutTo cut.by cut.top cut.end at result }
{
    let start = first_row(at.y, cut.by, cut.top);
    let stop = last_row(at.y, at.h, cut.by, cut.end);
    if start < stop {
        Some(rect_of(at, start, stop))
    } else {
        None
    }
}

// The rect with these rows.
fn rect_of(at: Rect, start: i32, stop: i32) -> Rect
    requires start { pos 0 ≤ℤ start }
    requires stop { start ≤ℤ stop }
    requires end { stop ≤ℤ pos 2048 }
    ensures x { result.x ≡ at.x }
    ensures y { result.y ≡ start }
    ensures w { result.w ≡ at.w }
    ensures h { result.h ≡ stop -ℤ start }
{
    Rect {
        x: at.x,
        y: start,
        w: at.w,
        h: stop - start,
    }
}

// The first row of a span that is moved and cut.
fn first_row(at: i32, by: i32, top: i32) -> i32
    requires low { pos 0 ≤ℤ at }
    requires high { at ≤ℤ pos 2048 }
    requires by { pos 0 ≤ℤ (by +ℤ pos 2048) }
    requires down { by ≤ℤ pos 2048 }
    ensures { result ≡ int_max (at +ℤ by) top }
{
    (at + by).max(top)
}

// The row after the last of a span that is moved and cut.
fn last_row(at: i32, len: i32, by: i32, end: i32) -> i32
    requires low { pos 0 ≤ℤ at }
    requires len { pos 0 ≤ℤ len }
    requires high { (at +ℤ len) ≤ℤ pos 2048 }
    requires by { pos 0 ≤ℤ (by +ℤ pos 2048) }
    requires down { by ≤ℤ pos 2048 }
    ensures { result ≡ int_min (at +ℤ len +ℤ by) end }
{
    (at + len + by).min(end)
}
