//! Copying rows of a picture to other rows of it.

ghost use Rattle.std.specs.Prelude.{◌≡◌, ℕ, ◌+◌, ◌*◌, ◌<◌, ◌≤◌, ◌^◌, length};
ghost use Rattle.pixel.specs.Surfaces.{IsInside};
ghost use Rattle.viz_canvas.specs.Buffers.{HasRows, EachPixelIs, AreGapsKept, pixel_at};
ghost use Rattle.viz_canvas.specs.CopiedRows.{row_before};
ghost use Rattle.viz_canvas.specs.Formats.{bytes_at};
ghost use Rattle.viz_canvas.specs.inner.MovedAreas.{IsAreaMoved};
ghost use Rattle.viz_canvas.specs.inner.Parts.{PartOf};

use crate::band::{Band, band_of};
use crate::format::PixelFormat;
use crate::runs::copy_run;
use pixel::{Area, Size};
use viz_scene::Scene;

/// Gives `count` rows from row `to` on of a picture of a scene's size the pixels that as many rows from row `from` on
/// had. The picture lies in a buffer with `across` pixels from row to row, of which all other bytes stay.
pub fn copy_rows<F: PixelFormat>(
    scene: &Scene,
    bytes: &mut [u8],
    across: usize,
    from: u32,
    to: u32,
    count: u32,
)
    requires rows { HasRows F.DEPTH across scene.now.w scene.now.h bytes.old }
    requires from { from + count ≤ scene.now.h }
    requires to { to + count ≤ scene.now.h }
    ensures pixels { EachPixelIs F.DEPTH across scene.now.w scene.now.h (λ x y. pixel_at F.DEPTH across bytes.old x (row_before from to count y)) bytes.new }
    ensures gaps { AreGapsKept F.DEPTH across scene.now.w scene.now.h bytes.old bytes.new }
{
    let (first, place, rows) = (from as usize, to as usize, count as usize);
    let width = scene.w() as usize;
    if across == width {
        move_rows::<F>(bytes, across, scene.h() as usize, first, place, rows);
        return;
    }
    let band = band_of(scene, across);
    move_area::<F>(bytes, band, rows_of(scene, place, rows), first);
}

// The given number of rows of the picture of a scene from row `first` on.
fn rows_of(scene: &Scene, first: usize, rows: usize) -> Area
    ensures { result ≡ record { x = 0; y = first; w = scene.now.w; h = rows } }
{
    Area {
        x: 0,
        y: first,
        w: scene.w() as usize,
        h: rows,
    }
}

/// Gives `count` rows from row `to` on the pixels that as many rows from row `from` on had; the other rows stay.
pub(crate) fn move_rows<F: PixelFormat>(
    bytes: &mut [u8],
    across: usize,
    height: usize,
    from: usize,
    to: usize,
    count: usize,
)
    requires size { length bytes.old ≡ F.DEPTH * (across * height) }
    requires small { across * height < 2 ^ 64 }
    requires from { from + count ≤ height }
    requires to { to + count ≤ height }
    ensures { (x y : ℕ) → x < across → y < height → bytes_at F.DEPTH bytes.new (y * across + x) ≡ bytes_at F.DEPTH bytes.old (row_before from to count y * across + x) }
{
    let first = start_of(across, height, from, count);
    let place = start_of(across, height, to, count);
    let pixels = pixels_of(across, height, count);
    copy_run::<F>(bytes, first, place, pixels);
}

// How many pixels stand before a row, after which the given number of rows follow.
fn start_of(across: usize, height: usize, row: usize, count: usize) -> usize
    requires small { across * height < 2 ^ 64 }
    requires rows { row + count ≤ height }
    ensures value { result ≡ row * across }
    ensures inside { result + count * across ≤ across * height }
{
    row * across
}

// How many pixels the given number of rows have.
fn pixels_of(across: usize, height: usize, count: usize) -> usize
    requires small { across * height < 2 ^ 64 }
    requires rows { count ≤ height }
    ensures { result ≡ count * across }
{
    count * across
}

// Gives the rows of an area the pixels of the same columns in as many rows from row `from` on; all other pixels stay.
fn move_area<F: PixelFormat>(bytes: &mut [u8], band: Band, at: Area, from: usize)
    requires size { length bytes.old ≡ F.DEPTH * (band.across * band.rows) }
    requires inside { IsInside at band.across band.rows }
    requires from { from + at.h ≤ band.rows }
    ensures { IsAreaMoved F.DEPTH band at from bytes.old bytes.new }
{
    if at.y <= from {
        move_up::<F>(bytes, band, at, from);
    } else {
        move_down::<F>(bytes, band, at, from);
    }
}

// Does so if the rows go up or stay, the first row first.
fn move_up<F: PixelFormat>(bytes: &mut [u8], band: Band, at: Area, from: usize)
    requires size { length bytes.old ≡ F.DEPTH * (band.across * band.rows) }
    requires inside { IsInside at band.across band.rows }
    requires from { from + at.h ≤ band.rows }
    requires order { at.y ≤ from }
    ensures { IsAreaMoved F.DEPTH band at from bytes.old bytes.new }
{
    for row in 0..at.h {
        copy_row::<F>(bytes, band, at, row, from + row);
    }
}

// Does so if the rows go down, the last row first.
fn move_down<F: PixelFormat>(bytes: &mut [u8], band: Band, at: Area, from: usize)
    requires size { length bytes.old ≡ F.DEPTH * (band.across * band.rows) }
    requires inside { IsInside at band.across band.rows }
    requires from { from + at.h ≤ band.rows }
    requires order { from < at.y }
    ensures { IsAreaMoved F.DEPTH band at from bytes.old bytes.new }
{
    let mut left = at.h;
    while left > 0 {
        left -= 1;
        copy_row::<F>(bytes, band, at, left, from + left);
    }
}

/// Gives row `row` of an area the pixels of the same columns in row `source` of its picture.
pub(crate) fn copy_row<F: PixelFormat>(
    bytes: &mut [u8],
    band: Band,
    at: Area,
    row: usize,
    source: usize,
)
    requires size { length bytes.old ≡ F.DEPTH * (band.across * band.rows) }
    requires inside { IsInside at band.across band.rows }
    requires there { row < at.h }
    requires source { source < band.rows }
    ensures { PartOf (bytes_at F.DEPTH) ((at.y + row) * band.across + at.x) at.w (λ j below. bytes_at F.DEPTH bytes.old (source * band.across + (at.x + j))) bytes.old bytes.new }
{
    let size = Size {
        width: band.across,
        height: band.rows,
    };
    let place = size.place_of(at.x, at.y + row, at.w);
    let given = size.place_of(at.x, source, at.w);
    copy_run::<F>(bytes, given, place, at.w);
}
