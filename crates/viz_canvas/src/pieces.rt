//! Drawing an area piece by piece, cut along the quads that are seen in it.

ghost use Rattle.std.specs.Prelude.{◌≡◌, ◌+◌, ◌-◌, ◌*◌, ◌^◌, ◌≤◌, ◌<◌, ◌++◌, ◌∷◌, [], All, length, IfSome, IsTrue, pos, ◌≤ℤ◌};
ghost use Rattle.geom.specs.Covers.{IsSound};
ghost use Rattle.pixel.specs.Surfaces.{IsInside};
ghost use Rattle.page_display_list.specs.Bitmaps.{near};
ghost use Rattle.page_display_list.specs.Shared.{IsOutside};
ghost use Rattle.tile_raster.specs.Images.{IsRow, AreAllOpaque};
ghost use Rattle.viz_scene.specs.Views.{quad_view, quads_view};
ghost use Rattle.viz_render.specs.Surfaces.{AreReady};
ghost use Rattle.viz_render.specs.inner.Drawing.{columns_from};
ghost use Rattle.viz_render.specs.inner.Shown.{Misses};
ghost use Rattle.viz_canvas.specs.inner.Bands.{IsInBand, IsBandDrawn, rect_in_band};
ghost use Rattle.viz_canvas.specs.inner.Fresh.{IsPlaced};
ghost use Rattle.viz_canvas.specs.inner.Pieces.{ShowsOnly, ShowAlike, IsReached, IsTop, IsTopTile, IsImageWritten};

use crate::band::{Band, BandArea};
use crate::format::PixelFormat;
use crate::fresh::{column_of, row_of};
use crate::runs::write_run;
use crate::strip::{draw_strips, rect_of, strip_of};
use geom::{Point, Rect};
use page_display_list::{CoveredArea, shared_part};
use pixel::{Area, Size};
use tile_raster::TileImage;
use viz_render::Surfaces;
use viz_scene::{Quad, Scene};

/// The least pixels of a piece that one quad covers: the pieces around a smaller one would take more time.
const LEAST_PIXELS: usize = 2048;

/// How many pixels of a piece are worth a look at one quad.
const PIXELS_OF_VISIT: usize = 16;

/// Draws the pixels of a scene in an area of a band of its picture, which counts its rows from the band's first; the
/// other pixels stay. If an opaque tile of the root pass is seen, its image's rows are written at once.
pub(crate) fn draw_area<F: PixelFormat>(
    scene: &Scene,
    bytes: &mut [u8],
    band: Band,
    at: Area,
    surfaces: &mut Surfaces,
)
    requires place { IsInBand F.DEPTH scene.now band at bytes.old }
    requires ready { AreReady scene.now surfaces.old }
    ensures drawn { IsBandDrawn F.DEPTH F.bytes_of scene.now band at bytes.old bytes.new }
    ensures ready { AreReady scene.now surfaces.new }
{
    match scene.passes().split_last() {
        Some((root, _)) => {
            let quads = root.quads.as_slice();
            draw_below::<F>(scene, quads, bytes, band, at, surfaces);
        }
        None => draw_strips::<F>(scene, bytes, band, at, surfaces),
    }
}

// Draws an area in which a scene shows these quads of its root alone.
#[cycle(pieces)]
fn draw_below<F: PixelFormat>(
    scene: &Scene,
    quads: &[Quad],
    bytes: &mut [u8],
    band: Band,
    at: Area,
    surfaces: &mut Surfaces,
)
    requires place { IsInBand F.DEPTH scene.now band at bytes.old }
    requires ready { AreReady scene.now surfaces.old }
    requires placed { All IsPlaced (quads_view quads.now) }
    requires shown { ShowsOnly scene.now band at (quads_view quads.now) }
    ensures drawn { IsBandDrawn F.DEPTH F.bytes_of scene.now band at bytes.old bytes.new }
    ensures ready { AreReady scene.now surfaces.new }
{
    if at.w == 0 || at.h == 0 {
        return;
    }
    if !some_are_written(quads) {
        draw_strips::<F>(scene, bytes, band, at, surfaces);
        return;
    }
    let area = rect_of(band, at, scene);
    let seen = seen_quads(quads, area);
    let Some((top, below)) = seen.split_last() else {
        draw_strips::<F>(scene, bytes, band, at, surfaces);
        return;
    };
    let Some(part) = large_part(top, area, quads.len()) else {
        draw_strips::<F>(scene, bytes, band, at, surfaces);
        return;
    };
    let top = Topmost {
        quad: top,
        part,
        below,
    };
    draw_pieces::<F>(scene, top, bytes, BandArea { band, at }, surfaces);
}

/// The topmost of the quads that may draw in an area.
#[derive(Clone, Copy)]
pub(crate) struct Topmost<'a> {
    pub(crate) quad: &'a Quad,
    /// The part of the area that it covers.
    pub(crate) part: CoveredArea,
    /// The quads below it, which are drawn where it does not cover them.
    pub(crate) below: &'a [Quad],
}

// Draws the part of an area that the topmost of its quads covers, and the rows above and below that part.
#[cycle(pieces)]
fn draw_pieces<F: PixelFormat>(
    scene: &Scene,
    top: Topmost<'_>,
    bytes: &mut [u8],
    place: BandArea,
    surfaces: &mut Surfaces,
)
    requires place { IsInBand F.DEPTH scene.now place.band place.at bytes.old }
    requires ready { AreReady scene.now surfaces.old }
    requires top { IsPlaced (quad_view top.quad.now) }
    requires below { All IsPlaced (quads_view top.below.now) }
    requires part { IsReached (quad_view top.quad.now) (rect_in_band place.band place.at) top.part }
    requires shown { ShowsOnly scene.now place.band place.at (quads_view top.below.now ++ quad_view top.quad.now ∷ []) }
    ensures drawn { IsBandDrawn F.DEPTH F.bytes_of scene.now place.band place.at bytes.old bytes.new }
    ensures ready { AreReady scene.now surfaces.new }
{
    let BandArea { band, at } = place;
    let Topmost { part, below, .. } = top;
    let end = part.at.y + part.at.h;
    let above = strip_of(at, 0, part.at.y);
    let beside = strip_of(at, part.at.y, part.at.h);
    let under = strip_of(at, end, at.h - end);
    draw_below::<F>(scene, below, bytes, band, above, surfaces);
    let rows = BandArea { band, at: beside };
    draw_beside::<F>(scene, top, bytes, rows, surfaces);
    draw_below::<F>(scene, below, bytes, band, under, surfaces);
}

// Draws the rows of an area that the part has that the topmost of its quads covers.
#[cycle(pieces)]
fn draw_beside<F: PixelFormat>(
    scene: &Scene,
    top: Topmost<'_>,
    bytes: &mut [u8],
    place: BandArea,
    surfaces: &mut Surfaces,
)
    requires place { IsInBand F.DEPTH scene.now place.band place.at bytes.old }
    requires ready { AreReady scene.now surfaces.old }
    requires below { All IsPlaced (quads_view top.below.now) }
    requires inside { top.part.at.x + top.part.at.w ≤ place.at.w }
    requires here { IsTop scene.now place.band (columns_from place.at top.part.at.x top.part.at.w) top.part (quad_view top.quad.now) }
    requires left { ShowsOnly scene.now place.band (columns_from place.at 0 top.part.at.x) (quads_view top.below.now) }
    requires right { ShowsOnly scene.now place.band (columns_from place.at (top.part.at.x + top.part.at.w) (place.at.w - (top.part.at.x + top.part.at.w))) (quads_view top.below.now) }
    ensures drawn { IsBandDrawn F.DEPTH F.bytes_of scene.now place.band place.at bytes.old bytes.new }
    ensures ready { AreReady scene.now surfaces.new }
{
    let BandArea { band, at } = place;
    let Topmost { quad, part, below } = top;
    let end = part.at.x + part.at.w;
    let left = columns_of(at, 0, part.at.x);
    let here = columns_of(at, part.at.x, part.at.w);
    let right = columns_of(at, end, at.w - end);
    draw_below::<F>(scene, below, bytes, band, left, surfaces);
    let covered = BandArea { band, at: here };
    draw_top::<F>(scene, quad, part, bytes, covered, surfaces);
    draw_below::<F>(scene, below, bytes, band, right, surfaces);
}

// The given number of columns of an area from column `first` on.
fn columns_of(at: Area, first: usize, columns: usize) -> Area
    requires { at.x + first < 2 ^ 64 }
    ensures { result ≡ columns_from at first columns }
{
    Area {
        x: at.x + first,
        y: at.y,
        w: columns,
        h: at.h,
    }
}

// Whether some of the quads are tiles whose images are written.
fn some_are_written(quads: &[Quad]) -> bool {
    for quad in quads {
        if let Quad::Tile { image, at, .. } = quad {
            if pixels_of(*at) >= LEAST_PIXELS && is_written(image) {
                return true;
            }
        }
    }
    false
}

// Whether an image is written where it is seen: it is opaque, and keeps all of its rows, as those of bitmaps do. Rows
// that are equal to the one above are copied in the picture in less time.
fn is_written(image: &TileImage) -> bool
    ensures { IsTrue result → AreAllOpaque image.now.list image.now.rect }
{
    image.is_opaque() && image.kept_bytes() / 4 >= pixels_of(image.rect())
}

// How many pixels a rect has.
fn pixels_of(rect: Rect) -> usize {
    let width = rect.w.max(0) as usize;
    let height = rect.h.max(0) as usize;
    width.saturating_mul(height)
}

// The quads up to the last that may draw in an area.
fn seen_quads(quads: &[Quad], area: Rect) -> &[Quad]
    requires area { IsSound area }
    requires placed { All IsPlaced (quads_view quads.now) }
    ensures few { length result.now ≤ length quads.now }
    ensures placed { All IsPlaced (quads_view result.now) }
    ensures alike { ShowAlike area (quads_view quads.now) (quads_view result.now) }
{
    let mut rest = quads;
    while let Some((top, below)) = rest.split_last() {
        if !misses(top, area) {
            return rest;
        }
        rest = below;
    }
    rest
}

// Whether a tile or a solid lies on no pixel of an area.
fn misses(quad: &Quad, area: Rect) -> bool
    requires area { IsSound area }
    requires quad { IsPlaced (quad_view quad.now) }
    ensures { IsTrue result → Misses area (quad_view quad.now) }
{
    match quad {
        Quad::Tile { at, .. } => is_outside(*at, area),
        Quad::Solid { at, .. } => is_outside(*at, area),
        Quad::Group { .. } => false,
    }
}

// Whether a rect covers no pixel of an area.
fn is_outside(rect: Rect, area: Rect) -> bool
    requires area { IsSound area }
    requires rect { IsSound rect }
    ensures { IsTrue result → IsOutside rect area }
{
    match shared_part(rect, area) {
        Some(_part) => false,
        None => true,
    }
}

// The part of an area that a tile or a solid covers, if it is worth a piece of its own.
fn large_part(quad: &Quad, area: Rect, quads: usize) -> Option<CoveredArea>
    requires area { IsSound area }
    requires quad { IsPlaced (quad_view quad.now) }
    ensures { IfSome result (λ part. IsReached (quad_view quad.now) area part) }
{
    let part = covered_part(quad, area)?;
    let least = quads.saturating_mul(PIXELS_OF_VISIT).max(LEAST_PIXELS);
    if part.at.w.saturating_mul(part.at.h) < least {
        return None;
    }
    Some(part)
}

// The part of an area that a tile or a solid covers.
fn covered_part(quad: &Quad, area: Rect) -> Option<CoveredArea>
    requires area { IsSound area }
    requires quad { IsPlaced (quad_view quad.now) }
    ensures { IfSome result (λ part. IsReached (quad_view quad.now) area part) }
{
    match quad {
        Quad::Tile { at, .. } => shared_part(*at, area),
        Quad::Solid { at, .. } => shared_part(*at, area),
        Quad::Group { .. } => None,
    }
}

// Draws an area that the topmost of its quads covers.
fn draw_top<F: PixelFormat>(
    scene: &Scene,
    top: &Quad,
    part: CoveredArea,
    bytes: &mut [u8],
    place: BandArea,
    surfaces: &mut Surfaces,
)
    requires place { IsInBand F.DEPTH scene.now place.band place.at bytes.old }
    requires ready { AreReady scene.now surfaces.old }
    requires top { IsTop scene.now place.band place.at part (quad_view top.now) }
    ensures drawn { IsBandDrawn F.DEPTH F.bytes_of scene.now place.band place.at bytes.old bytes.new }
    ensures ready { AreReady scene.now surfaces.new }
{
    match top {
        Quad::Tile { image, from, .. } => {
            let tile = TopTile {
                image,
                part,
                from: *from,
            };
            draw_top_tile::<F>(scene, tile, bytes, place, surfaces);
        }
        Quad::Solid { .. } => draw_strips::<F>(scene, bytes, place.band, place.at, surfaces),
        Quad::Group { .. } => draw_strips::<F>(scene, bytes, place.band, place.at, surfaces),
    }
}

/// A tile with no quad over it: which part of its rect is an area, and from where on the rect takes its image.
#[derive(Clone, Copy)]
pub(crate) struct TopTile<'a> {
    pub(crate) image: &'a TileImage,
    pub(crate) part: CoveredArea,
    pub(crate) from: Point,
}

// Draws an area that a tile covers, with no quad over it.
fn draw_top_tile<F: PixelFormat>(
    scene: &Scene,
    tile: TopTile<'_>,
    bytes: &mut [u8],
    place: BandArea,
    surfaces: &mut Surfaces,
)
    requires place { IsInBand F.DEPTH scene.now place.band place.at bytes.old }
    requires ready { AreReady scene.now surfaces.old }
    requires left { pos 0 ≤ℤ tile.from.x }
    requires top { pos 0 ≤ℤ tile.from.y }
    requires tile { IsTopTile scene.now place.band place.at (tile.part.left + near tile.from.x) (tile.part.above + near tile.from.y) tile.image.now }
    ensures drawn { IsBandDrawn F.DEPTH F.bytes_of scene.now place.band place.at bytes.old bytes.new }
    ensures ready { AreReady scene.now surfaces.new }
{
    let BandArea { band, at } = place;
    let TopTile { image, part, from } = tile;
    if !is_written(image) {
        draw_strips::<F>(scene, bytes, band, at, surfaces);
        return;
    }
    // The rect of an image is sound, so the numbers fit.
    let _rect = image.rect();
    let left = part.left + column_of(from);
    let above = part.above + row_of(from);
    write_image::<F>(image, left, above, bytes, band, at);
}

// Writes the pixels of an image from its column `left` and its row `above` on over those of an area.
fn write_image<F: PixelFormat>(
    image: &TileImage,
    left: usize,
    above: usize,
    bytes: &mut [u8],
    band: Band,
    at: Area,
)
    requires size { length bytes.old ≡ F.DEPTH * (band.across * band.rows) }
    requires inside { IsInside at band.across band.rows }
    requires columns { left + at.w ≤ near image.now.rect.w }
    requires rows { above + at.h ≤ near image.now.rect.h }
    ensures { IsImageWritten F.DEPTH F.bytes_of image.now left above band at bytes.old bytes.new }
{
    let size = Size {
        width: band.across,
        height: band.rows,
    };
    for row in 0..at.h {
        let place = size.place_of(at.x, at.y + row, at.w);
        let pixels = image_row(image, above, row);
        write_run::<F>(bytes, place, at.w, pixels, left);
    }
}

// The bytes of a row of an image, which is `row` rows below another.
fn image_row(image: &TileImage, above: usize, row: usize) -> &[u8]
    requires { above + row < near image.now.rect.h }
    ensures { IsRow image.now.list image.now.rect (above + row) result.now }
{
    // The rect of an image is sound, so the number fits.
    let _rect = image.rect();
    image.row((above + row) as u32)
}
