//! The missing tiles of a layer, drawn over what its items show.
//!
//! The keys of a layer stand by rising row of its tiles. For each row of pixels those of its row of tiles are
//! searched once, and one look for each tile that the row of pixels crosses fills all of its columns.

ghost use Rattle.std.specs.Prelude.{◌≡◌, ◌≤◌, ◌<◌, ◌+◌, ◌*◌, ◌/◌, ◌^◌, ◌⊎◌, ℕ, pos, neg_ℤ, ◌≤ℤ◌, ◌+ℤ◌, ◌==◌, cond, unsigned_abs, length};
ghost use Rattle.std.specs.List.{list_any};
ghost use Rattle.pixel.specs.Rows.{pixel, ArePremultiplied};
ghost use Rattle.recording_check.specs.inner.Sheets.{patched};

use geom::{Point, TileKey};
use page_layers::{PlacedLayer, place_at};
use pixel::{Area, Colour, Size, fill_area};

// Whether one of the keys stands in this column of tiles.
fn has_column(keys: &[TileKey], column: u32) -> bool
    ensures { result ≡ list_any (λ k. k.x == column) keys.now }
{
    keys.iter().any(|key| key.x == column)
}

// The given number of points of a layer, from this one on to the right, lie in one tile: all up to the tile's
// edge if the point is right of the layer's origin, and at most `most`.
fn run_in_tile(tile: u32, at: Point, most: usize) -> usize
    requires cut { 1 ≤ tile }
    requires any { 1 ≤ most }
    ensures some { 1 ≤ result }
    ensures within { result ≤ most }
    ensures same { (j : ℕ) → j < result → unsigned_abs (at.x +ℤ pos j) / tile ≡ unsigned_abs at.x / tile }
{
    if at.x < 0 {
        return 1;
    }
    let left = tile - at.x.unsigned_abs() % tile;
    most.min(left as usize)
}

/// A run of pixels of a row.
#[derive(Clone, Copy)]
struct Run {
    first: usize,
    len: usize,
}

// Gives a run of pixels of a row a colour.
fn fill_run(row: &mut [u8], width: usize, run: Run, colour: Colour)
    requires size { length row.old ≡ 4 * width }
    requires inside { run.first + run.len ≤ width }
    ensures there { (j : ℕ) → run.first ≤ j → j < run.first + run.len → pixel row.new j ≡ colour }
    ensures others { (j : ℕ) → j < width → (j < run.first) ⊎ (run.first + run.len ≤ j) → pixel row.new j ≡ pixel row.old j }
    ensures premultiplied { ArePremultiplied row.old → ArePremultiplied row.new }
{
    let at = Area {
        x: run.first,
        y: 0,
        w: run.len,
        h: 1,
    };
    fill_area(row, Size { width, height: 1 }, at, colour);
}

// Gives a run of pixels of a row a colour if one of the keys stands in this column of tiles.
fn draw_run(keys: &[TileKey], column: u32, colour: Colour, row: &mut [u8], width: usize, run: Run)
    requires size { length row.old ≡ 4 * width }
    requires inside { run.first + run.len ≤ width }
    ensures there { (j : ℕ) → run.first ≤ j → j < run.first + run.len → pixel row.new j ≡ cond (list_any (λ k. k.x == column) keys.now) colour (pixel row.old j) }
    ensures others { (j : ℕ) → j < width → (j < run.first) ⊎ (run.first + run.len ≤ j) → pixel row.new j ≡ pixel row.old j }
    ensures premultiplied { ArePremultiplied row.old → ArePremultiplied row.new }
{
    if has_column(keys, column) {
        fill_run(row, width, run, colour);
    }
}

// The point `k` columns to the right of a point.
fn right_of(from: Point, k: usize) -> Point
    requires low { neg_ℤ (pos (2 ^ 29)) ≤ℤ from.x }
    requires high { from.x ≤ℤ pos (2 ^ 29) }
    requires near { k < 2048 }
    ensures { result ≡ record { x = from.x +ℤ pos k; y = from.y } }
{
    Point {
        x: from.x + k as i32,
        y: from.y,
    }
}

/// Draws those pixels of a row of a layer, from this point of it on, that lie in its missing tiles.
pub(crate) fn draw_missing(
    layer: &PlacedLayer,
    tile: u32,
    from: Point,
    width: usize,
    row: &mut [u8],
)
    requires cut { 1 ≤ tile }
    requires low { neg_ℤ (pos (2 ^ 29)) ≤ℤ from.x }
    requires high { from.x ≤ℤ pos (2 ^ 29) }
    requires few { width ≤ 2048 }
    requires size { length row.old ≡ 4 * width }
    ensures pixels { (k : ℕ) → k < width → pixel row.new k ≡ patched tile layer.now (record { x = from.x +ℤ pos k; y = from.y }) (pixel row.old k) }
    ensures premultiplied { ArePremultiplied row.old → ArePremultiplied row.new }
{
    let keys = layer.missing_in(place_at(tile, from).y);
    if keys.is_empty() {
        return;
    }
    let mut k = 0;
    while k < width {
        let at = right_of(from, k);
        let n = run_in_tile(tile, at, width - k);
        let run = Run { first: k, len: n };
        draw_run(keys, place_at(tile, at).x, layer.colour(), row, width, run);
        k += n;
    }
}
