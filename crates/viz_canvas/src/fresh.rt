//! Marking the rows of a scene that may differ from the row above.

ghost use Rattle.std.specs.Prelude.{◌≡◌, ℕ, ◌+◌, ◌<◌, ◌≤◌, ◌^◌, pos, ◌≤ℤ◌, All, length, slice_index};
ghost use Rattle.geom.specs.Covers.{IsSound};
ghost use Rattle.page_display_list.specs.Bitmaps.{near};
ghost use Rattle.tile_raster.specs.Images.{AreSameRows};
ghost use Rattle.viz_scene.specs.Views.{tiled, quad_view, quads_view, passes_view};
ghost use Rattle.viz_scene.specs.Sound.{IsTaken};
ghost use Rattle.viz_canvas.specs.inner.Fresh.{ShowsRowsAbove, IsPlaced, IsEven, ActsAlike, AreStale, StaysMarked, AreBands};

use geom::{Point, Rect};
use page_display_list::{CoveredArea, shared_part};
use tile_raster::TileImage;
use viz_scene::{Quad, RenderPass, Scene};

/// Marks by 1 the rows of an area of a scene that may differ from the row above, and by 0 the others, which show in
/// each column of the area what the row above them shows.
pub(crate) fn mark_fresh(fresh: &mut [u8], scene: &Scene, area: Rect)
    requires area { IsSound area }
    requires room { near area.h ≤ length fresh.old }
    ensures size { length fresh.new ≡ length fresh.old }
    ensures alike { ShowsRowsAbove scene.now area fresh.new }
{
    fresh.fill(0);
    mark_passes(fresh, scene.passes(), area);
}

/// Marks all rows.
pub(crate) fn mark_all(fresh: &mut [u8])
    ensures size { length fresh.new ≡ length fresh.old }
    ensures marked { (i : ℕ) → i < length fresh.old → slice_index fresh.new i ≡ 1 }
{
    fresh.fill(1);
}

// Marks where the quads of some passes change.
fn mark_passes(fresh: &mut [u8], passes: &[RenderPass], area: Rect)
    requires area { IsSound area }
    requires room { near area.h ≤ length fresh.old }
    requires placed { All (All IsPlaced) (passes_view passes.now) }
    ensures size { length fresh.new ≡ length fresh.old }
    ensures alike { AreStale area fresh.new (λ y. All (All (ActsAlike area y)) (passes_view passes.now)) }
{
    for pass in passes {
        mark_quads(fresh, pass.quads.as_slice(), area);
    }
}

// Marks where some quads change.
fn mark_quads(fresh: &mut [u8], quads: &[Quad], area: Rect)
    requires area { IsSound area }
    requires room { near area.h ≤ length fresh.old }
    requires placed { All IsPlaced (quads_view quads.now) }
    ensures size { length fresh.new ≡ length fresh.old }
    ensures keeps { StaysMarked fresh.old fresh.new }
    ensures alike { AreStale area fresh.new (λ y. All (ActsAlike area y) (quads_view quads.now)) }
{
    for quad in quads {
        mark_quad(fresh, quad, area);
    }
}

// Marks where one quad changes.
fn mark_quad(fresh: &mut [u8], quad: &Quad, area: Rect)
    requires area { IsSound area }
    requires room { near area.h ≤ length fresh.old }
    requires placed { IsPlaced (quad_view quad.now) }
    ensures size { length fresh.new ≡ length fresh.old }
    ensures keeps { StaysMarked fresh.old fresh.new }
    ensures alike { AreStale area fresh.new (λ y. ActsAlike area y (quad_view quad.now)) }
{
    match quad {
        Quad::Tile { image, at, from } => mark_tile(fresh, image, *at, *from, area),
        Quad::Solid { at, .. } => mark_solid(fresh, *at, area),
        Quad::Group { .. } => {}
    }
}

// Marks where a rect begins and ends.
fn mark_solid(fresh: &mut [u8], at: Rect, area: Rect)
    requires area { IsSound area }
    requires at { IsSound at }
    requires room { near area.h ≤ length fresh.old }
    ensures size { length fresh.new ≡ length fresh.old }
    ensures keeps { StaysMarked fresh.old fresh.new }
    ensures alike { AreStale area fresh.new (λ y. IsEven area at y) }
{
    if let Some(part) = shared_part(at, area) {
        mark_ends(fresh, part.at.y, part.at.h);
    }
}

// Marks the first of some rows and the one after the last.
fn mark_ends(fresh: &mut [u8], first: usize, rows: usize)
    requires { first + rows < 2 ^ 64 }
    ensures size { length fresh.new ≡ length fresh.old }
    ensures keeps { StaysMarked fresh.old fresh.new }
    ensures first { first < length fresh.old → slice_index fresh.new first ≡ 0 → ⊥ }
    ensures end { first + rows < length fresh.old → slice_index fresh.new (first + rows) ≡ 0 → ⊥ }
{
    mark_row(fresh, first);
    mark_row(fresh, first + rows);
}

// Marks a row, if it is there.
fn mark_row(fresh: &mut [u8], row: usize)
    ensures size { length fresh.new ≡ length fresh.old }
    ensures there { row < length fresh.old → slice_index fresh.new row ≡ 0 → ⊥ }
    ensures keeps { StaysMarked fresh.old fresh.new }
{
    if row < fresh.len() {
        fresh[row] = 1;
    }
}

// Marks where a tile begins and ends, and where its rows change.
fn mark_tile(fresh: &mut [u8], image: &TileImage, at: Rect, from: Point, area: Rect)
    requires area { IsSound area }
    requires at { IsSound at }
    requires taken { IsTaken image.now at from }
    requires room { near area.h ≤ length fresh.old }
    ensures size { length fresh.new ≡ length fresh.old }
    ensures keeps { StaysMarked fresh.old fresh.new }
    ensures alike { AreStale area fresh.new (λ y. ActsAlike area y (tiled image.now at from)) }
{
    if let Some(part) = shared_part(at, area) {
        mark_ends(fresh, part.at.y, part.at.h);
        mark_bands(fresh, image, part, row_of(from));
    }
}

/// The column of a point that does not lie to the left of all columns.
pub(crate) fn column_of(from: Point) -> usize
    requires { pos 0 ≤ℤ from.x }
    ensures { result ≡ near from.x }
{
    count(from.x)
}

/// The row of a point that does not lie above all rows.
pub(crate) fn row_of(from: Point) -> usize
    requires { pos 0 ≤ℤ from.y }
    ensures { result ≡ near from.y }
{
    count(from.y)
}

// A number that is not negative as a count.
fn count(n: i32) -> usize
    requires { pos 0 ≤ℤ n }
    ensures { result ≡ near n }
{
    n as usize
}

// Marks where the rows of a part of an image change, which takes what is `down` rows lower.
fn mark_bands(fresh: &mut [u8], image: &TileImage, part: CoveredArea, down: usize)
    requires rows { part.above + down + part.at.h ≤ near image.now.rect.h }
    requires down { part.at.y + part.at.h ≤ length fresh.old }
    ensures size { length fresh.new ≡ length fresh.old }
    ensures keeps { StaysMarked fresh.old fresh.new }
    ensures bands { AreBands image.now part down part.at.h fresh.new }
{
    // The rect of an image is sound, so the numbers fit.
    let _rect = image.rect();
    let mut done = 0;
    while done < part.at.h {
        mark_row(fresh, part.at.y + done);
        done += same_rows(image, part.above + down + done);
    }
}

// How many rows of an image, from a row on, are equal.
fn same_rows(image: &TileImage, row: usize) -> usize
    requires { row < near image.now.rect.h }
    ensures some { 1 ≤ result }
    ensures inside { row + result ≤ near image.now.rect.h }
    ensures equal { (k : ℕ) → k < result → AreSameRows image.now.list image.now.rect row (row + k) }
{
    // The rect of an image is sound, so the number fits.
    let _rect = image.rect();
    image.same(row as u32) as usize
}
