//! The stamps of a grid's places, by row and then by column.

ghost use Rattle.std.specs.Prelude.{◌≡◌, ◌<◌, ◌≤◌, ◌*◌, [], ◌&&◌, IfOk, All, length, map, slice_index, vec_capacity};
ghost use Rattle.geom.specs.Covers.{IsSound};
ghost use Rattle.geom.specs.Common.{meets};
ghost use Rattle.geom.specs.Grids.{tiles, rect_of_place};
ghost use Rattle.region.specs.Points.{touched};
ghost use Rattle.tile_tiling.specs.Tiles.{key_of, index_of, IsWhole};
ghost use Rattle.tile_tiling.specs.inner.Kept.{stamps_of, IsKept};
ghost use Rattle.tile_tiling.specs.inner.Writes.{WritesPlaces, WritesCells, WritesRow, in_run};

use crate::sweep::sweep_rects;
use geom::{Grid, IndexRange, Place, Rect, TileKey};
use std::alloc::{AllocError, Global};

/// The least rects for which a sweep over the rows of places is thought of.
const LEAST_RECTS: usize = 16;

/// How many stamps are written in the time in which a sweep looks at one rect in one row.
const WRITES_OF_LOOK: usize = 32;

/// How many stamps are written in the time in which a sweep goes past one place.
const WRITES_OF_STEP: usize = 8;

// How many places the grid has.
fn place_count(grid: Grid) -> usize
    ensures { result ≡ tiles grid.w grid.tile * tiles grid.h grid.tile }
{
    grid.columns() as usize * grid.rows() as usize
}

/// No stamps, with room for one for each place of the grid. An error means out of memory.
pub(crate) fn room_for(alloc: Global, grid: Grid) -> Result<Vec<u32>, AllocError>
    ensures none { IfOk result (λ stamps. stamps.items ≡ []) }
    ensures room { IfOk result (λ stamps. tiles grid.w grid.tile * tiles grid.h grid.tile ≤ vec_capacity stamps) }
{
    Vec::with_capacity(alloc, place_count(grid))
}

/// Gives each place a stamp of its own, if one stands for all. There is room: it takes no memory.
pub(crate) fn spread(stamps: &mut Vec<u32>, grid: Grid, base: u32)
    requires { IsKept grid stamps.old.items (vec_capacity stamps.old) }
    ensures whole { IsWhole grid stamps.new.items }
    ensures same { stamps.new.items ≡ stamps_of grid base stamps.old.items }
{
    if stamps.is_empty() {
        match stamps.resize(place_count(grid), base) {
            Ok(()) => (),
            Err(_) => unreachable!(),
        }
    }
}

// The stamp of a place, 0 if the grid does not have it. While there are no stamps, `base` stands for all.
fn stamp_in(stamps: &[u32], base: u32, grid: Grid, place: Place) -> u32
    ensures { result ≡ slice_index (stamps_of grid base stamps.now) (index_of grid place) }
{
    let index = place.y as usize * grid.columns() as usize + place.x as usize;
    if !stamps.is_empty() {
        stamps.get(index).copied().unwrap_or(0)
    } else if index < place_count(grid) {
        base
    } else {
        0
    }
}

/// The keys of these places. An error means out of memory.
pub(crate) fn keys_in(
    alloc: Global,
    stamps: &[u32],
    base: u32,
    grid: Grid,
    layer: u32,
    places: &[Place],
) -> Result<Vec<TileKey>, AllocError>
    ensures { IfOk result (λ keys. keys.items ≡ map (key_of (record { grid = grid; stamps = stamps_of grid base stamps.now }) layer) places.now) }
{
    let mut keys = Vec::with_capacity(alloc, places.len())?;
    for place in places {
        let stamp = stamp_in(stamps, base, grid, *place);
        keys.push(TileKey {
            layer,
            x: place.x,
            y: place.y,
            stamp,
        })?;
    }
    Ok(keys)
}

/// Writes the stamp at the places that the rects touch.
pub(crate) fn stamp_rects(stamps: &mut Vec<u32>, grid: Grid, rects: &[Rect], stamp: u32)
    requires whole { IsWhole grid stamps.old.items }
    requires sound { All IsSound rects.now }
    ensures { WritesPlaces grid stamps.old.items stamps.new.items (λ p. touched rects.now (rect_of_place grid p)) stamp }
{
    if share_many(grid, rects) {
        sweep_rects(stamps, grid, rects, stamp);
    } else {
        stamp_each(stamps, grid, rects, stamp);
    }
}

// Whether rects touch so many places together that a sweep over the rows takes less time than the places of each rect.
fn share_many(grid: Grid, rects: &[Rect]) -> bool
    requires { All IsSound rects.now }
{
    if rects.len() < LEAST_RECTS {
        return false;
    }
    let mut places = 0usize;
    for rect in rects {
        places = places.saturating_add(places_of(grid, rect));
    }
    let looks = rects.len().saturating_mul(grid.rows() as usize);
    let steps = place_count(grid).saturating_mul(WRITES_OF_STEP);
    places > looks.saturating_mul(WRITES_OF_LOOK).saturating_add(steps)
}

// How many places a rect touches.
fn places_of(grid: Grid, rect: &Rect) -> usize
    requires { IsSound rect.now }
{
    let columns = grid.columns_touching(*rect);
    let rows = grid.rows_touching(*rect);
    let across = (columns.end - columns.first) as usize;
    across.saturating_mul((rows.end - rows.first) as usize)
}

// Writes the stamp at the places that each rect touches.
fn stamp_each(stamps: &mut Vec<u32>, grid: Grid, rects: &[Rect], stamp: u32)
    requires whole { IsWhole grid stamps.old.items }
    requires sound { All IsSound rects.now }
    ensures { WritesPlaces grid stamps.old.items stamps.new.items (λ p. touched rects.now (rect_of_place grid p)) stamp }
{
    for rect in rects {
        stamp_rect(stamps, grid, rect, stamp);
    }
}

// Writes the stamp at the places that the rect touches.
#[tactic(auto, using(crate::proofs::Cells::rows_fit, crate::proofs::Cells::rect_written))]
fn stamp_rect(stamps: &mut Vec<u32>, grid: Grid, rect: &Rect, stamp: u32)
    requires whole { IsWhole grid stamps.old.items }
    requires sound { IsSound rect.now }
    ensures { WritesPlaces grid stamps.old.items stamps.new.items (λ p. meets (rect_of_place grid p) rect.now) stamp }
{
    let columns = grid.columns_touching(*rect);
    let rows = grid.rows_touching(*rect);
    stamp_block(stamps, grid.columns(), columns, rows, stamp);
}

// Writes the stamp in these columns of these rows, if each row has `wide` stamps.
#[tactic(auto, using(crate::proofs::Cells::row_behind))]
fn stamp_block(stamps: &mut Vec<u32>, wide: u32, columns: IndexRange, rows: IndexRange, stamp: u32)
    requires few { wide ≤ 16384 }
    requires in_row { columns.end ≤ wide }
    requires columns_ordered { columns.first ≤ columns.end }
    requires rows_ordered { rows.first ≤ rows.end }
    requires in_all { rows.end * wide ≤ length stamps.old.items }
    ensures { WritesCells wide stamps.old.items stamps.new.items (λ x y. in_run columns x && in_run rows y) stamp }
{
    for y in rows.first..rows.end {
        let start = y as usize * wide as usize;
        let from = start + columns.first as usize;
        let to = start + columns.end as usize;
        stamp_row(stamps, from, to, stamp);
    }
}

/// Writes the stamp from one index on and below another.
pub(crate) fn stamp_row(stamps: &mut Vec<u32>, from: usize, to: usize, stamp: u32)
    requires ordered { from ≤ to }
    requires inside { to ≤ length stamps.old.items }
    ensures { WritesRow stamps.old.items stamps.new.items from to stamp }
{
    for i in from..to {
        stamps[i] = stamp;
    }
}
