//! Drawing a scene onto a picture, strip by strip.

ghost use Rattle.std.specs.Prelude.{◌≡◌, ◌+◌, ◌-◌, ◌*◌, ◌<◌, ◌≤◌, ◌^◌, length};
ghost use Rattle.pixel.specs.Rows.{pixel};
ghost use Rattle.pixel.specs.Surfaces.{IsInside};
ghost use Rattle.viz_render.specs.Surfaces.{AreReady};
ghost use Rattle.viz_canvas.specs.Formats.{bytes_at};
ghost use Rattle.viz_canvas.specs.inner.Bands.{IsInBand, IsBandDrawn, rect_in_band};
ghost use Rattle.viz_canvas.specs.inner.Fresh.{ShowsRowsAbove};
ghost use Rattle.viz_canvas.specs.inner.Parts.{PartOf, EachOf, only_in};

use crate::band::{Band, BandArea};
use crate::format::PixelFormat;
use crate::fresh::{mark_all, mark_fresh};
use crate::moving::copy_row;
use crate::runs::write_run;
use geom::Rect;
use pixel::{Area, Size};
use viz_render::Surfaces;
use viz_scene::Scene;

/// How many rows are marked at once: those of the tallest scene.
const MOST_ROWS: usize = 2048;

/// The least rows that are copied together from the row above them, if no quad has to be visited for a strip.
const LEAST_COPIES: usize = 4;

/// How many pixels of a row are drawn in the time in which a quad is visited.
const PIXELS_OF_VISIT: usize = 16;

/// Draws the pixels of a scene in an area of a band of its picture, which counts its rows from the band's first; the
/// other pixels stay. Each strip goes through surfaces; rows that show what the row above them shows are copied if
/// that takes less time.
pub(crate) fn draw_strips<F: PixelFormat>(
    scene: &Scene,
    bytes: &mut [u8],
    band: Band,
    at: Area,
    surfaces: &mut Surfaces,
)
    requires place { IsInBand F.DEPTH scene.now band at bytes.old }
    requires ready { AreReady scene.now surfaces.old }
    ensures drawn { IsBandDrawn F.DEPTH F.bytes_of scene.now band at bytes.old bytes.new }
    ensures ready { AreReady scene.now surfaces.new }
{
    let copies = copies_worth(scene, surfaces, at.w);
    let mut fresh = [0u8; MOST_ROWS];
    mark_rows(&mut fresh, scene, band, at, copies);
    let place = BandArea { band, at };
    draw_rows::<F>(scene, bytes, place, surfaces, &fresh, copies);
}

// How many rows that are copied are worth a strip that ends above them; if strips are to be high, none are.
fn copies_worth(scene: &Scene, surfaces: &Surfaces, width: usize) -> usize {
    if surfaces.are_masked() {
        return MOST_ROWS;
    }
    let mut quads = 0usize;
    for pass in scene.passes() {
        quads = quads.saturating_add(pass.quads.len());
    }
    let visits = quads.saturating_mul(PIXELS_OF_VISIT) / width.max(1);
    visits.saturating_add(LEAST_COPIES)
}

// Marks the rows of an area that may differ from the row above; all if they are too few for a copy.
fn mark_rows(fresh: &mut [u8], scene: &Scene, band: Band, at: Area, copies: usize)
    requires inside { IsInside at scene.now.w band.rows }
    requires end { band.top + band.rows ≤ 2048 }
    requires room { length fresh.old ≡ 2048 }
    ensures size { length fresh.new ≡ 2048 }
    ensures alike { ShowsRowsAbove scene.now (rect_in_band band at) fresh.new }
{
    if at.h <= copies {
        mark_all(fresh);
        return;
    }
    mark_fresh(fresh, scene, rect_of(band, at, scene));
}

// Draws the rows of an area, and copies those without a mark if the given number or more of them follow one another.
fn draw_rows<F: PixelFormat>(
    scene: &Scene,
    bytes: &mut [u8],
    place: BandArea,
    surfaces: &mut Surfaces,
    fresh: &[u8],
    copies: usize,
)
    requires place { IsInBand F.DEPTH scene.now place.band place.at bytes.old }
    requires ready { AreReady scene.now surfaces.old }
    requires room { length fresh.now ≡ 2048 }
    requires alike { ShowsRowsAbove scene.now (rect_in_band place.band place.at) fresh.now }
    ensures drawn { IsBandDrawn F.DEPTH F.bytes_of scene.now place.band place.at bytes.old bytes.new }
    ensures ready { AreReady scene.now surfaces.new }
{
    let BandArea { band, at } = place;
    let mut done = 0;
    while done < at.h {
        if done > 0 && fresh[done] == 0 {
            copy_down::<F>(bytes, band, at, done);
            done += 1;
        } else {
            let most = surfaces.rows().min(at.h - done);
            let rows = rows_to_draw(fresh, done, most, copies);
            draw_strip::<F>(scene, bytes, band, strip_of(at, done, rows), surfaces);
            done += rows;
        }
    }
}

// How many rows from row `from` on are drawn in one strip, at most the given number: up to where so many have no mark
// that they are copied.
fn rows_to_draw(fresh: &[u8], from: usize, most: usize, copies: usize) -> usize
    requires some { 1 ≤ most }
    requires there { from + most ≤ length fresh.now }
    ensures some { 1 ≤ result }
    ensures most { result ≤ most }
{
    let mut rows = 1;
    let mut alike = 0;
    while rows + alike < most && alike < copies {
        if fresh[from + rows + alike] == 0 {
            alike += 1;
        } else {
            rows += alike + 1;
            alike = 0;
        }
    }
    rows
}

/// The given number of rows of an area from row `first` on.
pub(crate) fn strip_of(at: Area, first: usize, rows: usize) -> Area
    requires { at.y + first < 2 ^ 64 }
    ensures { result ≡ record { x = at.x; y = at.y + first; w = at.w; h = rows } }
{
    Area {
        x: at.x,
        y: at.y + first,
        w: at.w,
        h: rows,
    }
}

// Gives the columns of an area in its row `row` the pixels of the row above.
fn copy_down<F: PixelFormat>(bytes: &mut [u8], band: Band, at: Area, row: usize)
    requires size { length bytes.old ≡ F.DEPTH * (band.across * band.rows) }
    requires inside { IsInside at band.across band.rows }
    requires some { 1 ≤ row }
    requires there { row < at.h }
    ensures { PartOf (bytes_at F.DEPTH) ((at.y + row) * band.across + at.x) at.w (λ j below. bytes_at F.DEPTH bytes.old ((at.y + row - 1) * band.across + (at.x + j))) bytes.old bytes.new }
{
    copy_row::<F>(bytes, band, at, row, at.y + row - 1);
}

// Draws the pixels of a scene in one strip of its picture.
fn draw_strip<F: PixelFormat>(
    scene: &Scene,
    bytes: &mut [u8],
    band: Band,
    at: Area,
    surfaces: &mut Surfaces,
)
    requires place { IsInBand F.DEPTH scene.now band at bytes.old }
    requires low { at.h ≤ surfaces.old.rows }
    requires ready { AreReady scene.now surfaces.old }
    ensures drawn { IsBandDrawn F.DEPTH F.bytes_of scene.now band at bytes.old bytes.new }
    ensures ready { AreReady scene.now surfaces.new }
{
    surfaces.draw(scene, rect_of(band, at, scene));
    let size = Size {
        width: band.across,
        height: band.rows,
    };
    write_area::<F>(bytes, size, at, surfaces.drawn());
}

/// The rect of the screen that an area of a band is.
pub(crate) fn rect_of(band: Band, at: Area, scene: &Scene) -> Rect
    requires inside { IsInside at scene.now.w band.rows }
    requires end { band.top + band.rows ≤ 2048 }
    ensures value { result ≡ rect_in_band band at }
    ensures wide { scene.now.w ≤ 2048 }
{
    // A scene has at most 2048 columns, so the numbers fit.
    let _width = scene.w();
    Rect {
        x: at.x as i32,
        y: (band.top + at.y) as i32,
        w: at.w as i32,
        h: at.h as i32,
    }
}

/// Writes the pixels of an area of a picture of this size, row by row from the top.
pub(crate) fn write_area<F: PixelFormat>(bytes: &mut [u8], size: Size, at: Area, drawn: &[u8])
    requires size { length bytes.old ≡ F.DEPTH * (size.width * size.height) }
    requires inside { IsInside at size.width size.height }
    requires given { 4 * (at.w * at.h) ≤ length drawn.now }
    ensures { EachOf (bytes_at F.DEPTH) size.width size.height (only_in at at.h (λ x y below. F.bytes_of (pixel drawn.now ((y - at.y) * at.w + (x - at.x))))) bytes.old bytes.new }
{
    let strip = Size {
        width: at.w,
        height: at.h,
    };
    for row in 0..at.h {
        let place = size.place_of(at.x, at.y + row, at.w);
        let from = strip.place_of(0, row, at.w);
        write_run::<F>(bytes, place, at.w, drawn, from);
    }
}
