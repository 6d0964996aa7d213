//! Drawing a scene in parts, each by a thread of its own.

ghost use Rattle.std.specs.Prelude.{◌≡◌, ◌+◌, ◌*◌, ◌<◌, ◌≤◌, ◌^◌};
ghost use Rattle.std.specs.Thread.{IsSync};
ghost use Rattle.viz_canvas.specs.inner.Bands.{IsInBand, IsBandDrawn, AreAllReady};
ghost use Rattle.viz_canvas.specs.inner.Halves.{upper_place, lower_place};

use crate::band::{Band, BandArea};
use crate::format::PixelFormat;
use crate::pieces::draw_area;
use pixel::Area;
use std::marker::Sync;
use std::thread::{Threads, join_mut};
use viz_render::Surfaces;
use viz_scene::Scene;

/// The least pixels of a part, counted once for each pass: fewer are drawn before a thread has started.
const LEAST_PIXELS: usize = 196608;

/// In how many parts an area of the given number of pixels of a scene is drawn, at most the given number and at least
/// one.
pub(crate) fn parts_of(scene: &Scene, pixels: usize, most: usize) -> usize
    ensures { 1 ≤ result }
{
    most.min(parts_worth(scene, pixels)).max(1)
}

/// How many pixels an area has.
pub(crate) fn pixels_of(at: Area) -> usize {
    at.w.saturating_mul(at.h)
}

// How many parts are worth a thread each if the given number of pixels of a scene are drawn.
fn parts_worth(scene: &Scene, pixels: usize) -> usize {
    pixels.saturating_mul(scene.passes().len()) / LEAST_PIXELS
}

// How many of some rows the first of the given number of parts have.
fn share_of(rows: usize, parts: usize, first: usize) -> usize
    requires some { 1 ≤ parts }
    requires first { first ≤ parts }
    ensures { result ≤ rows }
{
    rows / parts * first
}

// Where a row of some begins.
fn start_of<F: PixelFormat>(across: usize, row: usize, rows: usize) -> usize
    requires there { row ≤ rows }
    requires small { F.DEPTH * (across * rows) < 2 ^ 64 }
    ensures value { result ≡ F.DEPTH * (across * row) }
    ensures there { result ≤ F.DEPTH * (across * rows) }
{
    F::DEPTH * (across * row)
}

// The first rows of an area, in a band that ends with them.
fn upper_of(band: Band, at: Area, rows: usize) -> BandArea
    requires { at.y + rows ≤ 2048 }
    ensures { result ≡ upper_place band at rows }
{
    BandArea {
        band: Band {
            top: band.top,
            rows: at.y + rows,
            across: band.across,
        },
        at: Area {
            x: at.x,
            y: at.y,
            w: at.w,
            h: rows,
        },
    }
}

// The rows of an area after the first, in a band that begins with them.
fn lower_of(band: Band, at: Area, rows: usize) -> BandArea
    requires end { band.top + band.rows ≤ 2048 }
    requires inside { at.y + at.h ≤ band.rows }
    requires rows { rows ≤ at.h }
    ensures { result ≡ lower_place band at rows }
{
    let top = at.y + rows;
    BandArea {
        band: Band {
            top: band.top + top,
            rows: band.rows - top,
            across: band.across,
        },
        at: Area {
            x: at.x,
            y: 0,
            w: at.w,
            h: at.h - rows,
        },
    }
}

/// Draws the pixels of a scene in an area of the bytes of a band, in at most as many parts as there are surfaces, each
/// by a thread of its own if it can be started; the other pixels stay.
#[cycle(halves)]
pub(crate) fn draw_parts<R: Threads + Sync, F: PixelFormat + Sync>(
    rt: &R,
    scene: &Scene,
    place: BandArea,
    bytes: &mut [u8],
    surfaces: &mut [Surfaces],
)
    requires place { IsInBand F.DEPTH scene.now place.band place.at bytes.old }
    requires ready { AreAllReady scene.now surfaces.old }
    ensures drawn { IsBandDrawn F.DEPTH F.bytes_of scene.now place.band place.at bytes.old bytes.new }
    ensures ready { AreAllReady scene.now surfaces.new }
{
    let BandArea { band, at } = place;
    let parts = surfaces.len().min(parts_worth(scene, pixels_of(at)));
    if parts < 2 {
        draw_area::<F>(scene, bytes, band, at, &mut surfaces[0]);
        return;
    }
    let rows = share_of(at.h, parts, parts / 2);
    let start = start_of::<F>(band.across, at.y + rows, band.rows);
    let (above, below) = bytes.split_at_mut(start);
    let (first, second) = surfaces.split_at_mut(parts / 2);
    let upper = upper_of(band, at, rows);
    let lower = lower_of(band, at, rows);
    draw_halves::<R, F>(rt, scene, upper, above, first, lower, below, second);
}

// Draws two parts side by side.
#[cycle(halves)]
fn draw_halves<R: Threads + Sync, F: PixelFormat + Sync>(
    rt: &R,
    scene: &Scene,
    upper: BandArea,
    above: &mut [u8],
    first: &mut [Surfaces],
    lower: BandArea,
    below: &mut [u8],
    second: &mut [Surfaces],
)
    requires upper { IsInBand F.DEPTH scene.now upper.band upper.at above.old }
    requires first { AreAllReady scene.now first.old }
    requires lower { IsInBand F.DEPTH scene.now lower.band lower.at below.old }
    requires second { AreAllReady scene.now second.old }
    ensures upper { IsBandDrawn F.DEPTH F.bytes_of scene.now upper.band upper.at above.old above.new }
    ensures first { AreAllReady scene.now first.new }
    ensures lower { IsBandDrawn F.DEPTH F.bytes_of scene.now lower.band lower.at below.old below.new }
    ensures second { AreAllReady scene.now second.new }
{
    let mut front = ||
        requires { IsSync R.row × IsSync F.row × IsInBand F.DEPTH scene.now upper.band upper.at above.now × AreAllReady scene.now first.now }
        ensures { IsBandDrawn F.DEPTH F.bytes_of scene.entry.now upper.band upper.at above.entry.now above.exit.now × AreAllReady scene.entry.now first.exit.now }
    { draw_parts::<R, F>(rt, scene, upper, above, first) };
    let mut back = ||
        requires { IsSync R.row × IsSync F.row × IsInBand F.DEPTH scene.now lower.band lower.at below.now × AreAllReady scene.now second.now }
        ensures { IsBandDrawn F.DEPTH F.bytes_of scene.entry.now lower.band lower.at below.entry.now below.exit.now × AreAllReady scene.entry.now second.exit.now }
    { draw_parts::<R, F>(rt, scene, lower, below, second) };
    join_mut(rt, &mut front, &mut back);
}
