//! Stamping the places that many rects touch, one row of places after another.
//!
//! For each column it is kept how far the rects reach that touch the row and begin there; one walk along the row then
//! tells which of its places are touched. So a row takes a step for each rect and one for each place, however many places
//! the rects share.

ghost use Rattle.std.specs.Prelude.{◌≡◌, ◌≢◌, ℕ, ◌<◌, ◌≤◌, ◌+◌, ◌*◌, max, nat_eq, nat_lt, cond, Bool, ◌&&◌, ◌||◌, All, length, slice_index};
ghost use Rattle.geom.specs.Covers.{IsSound};
ghost use Rattle.geom.specs.Common.{meets};
ghost use Rattle.geom.specs.Grids.{tiles, rect_of_place};
ghost use Rattle.region.specs.Points.{touched};
ghost use Rattle.tile_tiling.specs.Tiles.{IsWhole};
ghost use Rattle.tile_tiling.specs.inner.Reach.{Reach};
ghost use Rattle.tile_tiling.specs.inner.Writes.{WritesPlaces, WritesCells, in_run};

use crate::stamps::stamp_row;
use geom::{Grid, IndexRange, Rect};

/// The most columns of a grid.
const MOST_COLUMNS: usize = 16384;

/// Writes the stamp at the places that the rects touch.
pub(crate) fn sweep_rects(stamps: &mut Vec<u32>, grid: Grid, rects: &[Rect], stamp: u32)
    requires whole { IsWhole grid stamps.old.items }
    requires sound { All IsSound rects.now }
    ensures { WritesPlaces grid stamps.old.items stamps.new.items (λ p. touched rects.now (rect_of_place grid p)) stamp }
{
    let mut reach = [0u32; MOST_COLUMNS];
    for y in 0..grid.rows() {
        sweep_row(stamps, grid, rects, y, &mut reach, stamp);
    }
}

// Writes the stamp at the places of one row that the rects touch.
fn sweep_row(
    stamps: &mut Vec<u32>,
    grid: Grid,
    rects: &[Rect],
    y: u32,
    reach: &mut [u32],
    stamp: u32,
)
    requires whole { IsWhole grid stamps.old.items }
    requires sound { All IsSound rects.now }
    requires row { y < tiles grid.h grid.tile }
    requires room { length reach.old ≡ MOST_COLUMNS }
    ensures room { length reach.new ≡ MOST_COLUMNS }
    ensures writes { WritesPlaces grid stamps.old.items stamps.new.items (λ p. nat_eq p.y y && touched rects.now (rect_of_place grid p)) stamp }
{
    reach_rects(reach, grid, rects, y);
    stamp_reached(stamps, grid.columns(), y, reach, stamp);
}

// Keeps how far the rects reach that touch a row.
fn reach_rects(reach: &mut [u32], grid: Grid, rects: &[Rect], y: u32)
    requires sound { All IsSound rects.now }
    requires room { length reach.old ≡ MOST_COLUMNS }
    ensures room { length reach.new ≡ MOST_COLUMNS }
    ensures reach { Reach reach.new (tiles grid.w grid.tile) (λ x. touched rects.now (rect_of_place grid (record { x = x; y = y }))) }
{
    fill_zeros(reach);
    for rect in rects {
        reach_rect(reach, grid, rect, y);
    }
}

// Gives all numbers 0.
fn fill_zeros(numbers: &mut [u32])
    ensures size { length numbers.new ≡ length numbers.old }
    ensures none { (i : ℕ) → slice_index numbers.new i ≤ 0 }
{
    numbers.fill(0);
}

// Keeps how far a rect reaches, if it touches a row.
fn reach_rect(reach: &mut [u32], grid: Grid, rect: &Rect, y: u32)
    requires sound { IsSound rect.now }
    requires room { length reach.old ≡ MOST_COLUMNS }
    ensures room { length reach.new ≡ MOST_COLUMNS }
    ensures reach { (test : ℕ → Bool) → Reach reach.old (tiles grid.w grid.tile) test
        → Reach reach.new (tiles grid.w grid.tile) (λ x. test x || meets (rect_of_place grid (record { x = x; y = y })) rect.now) }
{
    let rows = grid.rows_touching(*rect);
    if is_in_run(rows, y) {
        let columns = grid.columns_touching(*rect);
        // A grid has few columns.
        let _columns = grid.columns();
        reach_out(reach, columns);
    }
}

// Whether a number is one of a run.
fn is_in_run(run: IndexRange, n: u32) -> bool
    ensures { result ≡ in_run run n }
{
    run.first <= n && n < run.end
}

// Keeps how far a run of columns reaches.
fn reach_out(reach: &mut [u32], columns: IndexRange)
    requires { columns.end ≤ length reach.old }
    ensures room { length reach.new ≡ length reach.old }
    ensures reach { (wide : ℕ) (test : ℕ → Bool) → Reach reach.old wide test → Reach reach.new wide (λ x. test x || in_run columns x) }
{
    if columns.first < columns.end {
        raise(reach, columns.first as usize, columns.end);
    }
}

// Makes the number at a place at least this one.
fn raise(numbers: &mut [u32], place: usize, least: u32)
    requires { place < length numbers.old }
    ensures size { length numbers.new ≡ length numbers.old }
    ensures there { slice_index numbers.new place ≡ max (slice_index numbers.old place) least }
    ensures others { (i : ℕ) → i ≢ place → slice_index numbers.new i ≡ slice_index numbers.old i }
{
    numbers[place] = numbers[place].max(least);
}

// Writes the stamp at the places of row y that something reaches, if each row has `wide` stamps.
fn stamp_reached(stamps: &mut Vec<u32>, wide: u32, y: u32, reach: &[u32], stamp: u32)
    requires few { wide ≤ length reach.now }
    requires inside { y * wide + wide ≤ length stamps.old.items }
    ensures { (test : ℕ → Bool) → Reach reach.now wide test → WritesCells wide stamps.old.items stamps.new.items (λ x r. nat_eq r y && test x) stamp }
{
    let start = y as usize * wide as usize;
    let mut far = 0u32;
    for x in 0..wide as usize {
        far = far.max(reach[x]);
        let from = start + x;
        let to = from + one_before(x, far);
        stamp_row(stamps, from, to, stamp);
    }
}

// 1 if a column lies before another, else 0.
fn one_before(x: usize, far: u32) -> usize
    ensures { result ≡ cond (nat_lt x far) 1 0 }
{
    if x < far as usize { 1 } else { 0 }
}
