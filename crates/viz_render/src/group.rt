//! Drawing another pass, faded.

ghost use Rattle.std.specs.Prelude.{◌≡◌, ◌+◌, ◌-◌, ◌*◌, ◌≤◌, length};
ghost use Rattle.pixel.specs.Colours.{blend, scaled};
ghost use Rattle.pixel.specs.Rows.{pixel, ArePremultiplied};
ghost use Rattle.pixel.specs.Surfaces.{IsPart, IsInside, EachPixel, within_rows};
ghost use Rattle.pixel.specs.Views.{pixel_in};
ghost use Rattle.page_display_list.specs.Bitmaps.{near, byte_count};
ghost use Rattle.viz_render.specs.inner.Drawing.{IsStrip, colour_of};
ghost use Rattle.viz_render.specs.inner.Masks.{EachOpenPoint};

use crate::mask::QuadMask;
use crate::open::paint_open;
use crate::paint::Paint;
use crate::size::size_of;
use crate::surface::Surface;
use geom::Rect;
use page_display_list::{CoveredArea, shared_part};
use pixel::{Pixels, Size, faded_over};

/// Lays the colours of a pass, faded to an opacity, over the pixels of an area.
pub(crate) fn draw_group(
    surface: &mut [u8],
    area: Rect,
    pass: &Surface,
    opacity: u8,
    seen: QuadMask<'_>,
)
    requires area { IsStrip area }
    requires size { length surface.old ≡ byte_count area.w area.h }
    ensures pixels { EachOpenPoint area seen.entry.mask.now.tops seen.entry.number (λ x y below. blend below (scaled (colour_of pass.now x y) opacity)) surface.old surface.new }
    ensures premultiplied { ArePremultiplied surface.old → ArePremultiplied surface.new }
{
    if let Some(part) = shared_part(pass.rect(), area) {
        let paint = Paint::Pass {
            pixels: pass.pixels(),
            opacity,
        };
        paint_open(surface, size_of(area), part, &paint, seen);
    }
}

/// Lays the pixels of a part of a pass, faded, over those of the part's area.
pub(crate) fn fade_part(
    surface: &mut [u8],
    size: Size,
    pass: &Pixels<'_>,
    part: CoveredArea,
    opacity: u8,
)
    requires size { length surface.old ≡ 4 * (size.width * size.height) }
    requires inside { IsInside part.at size.width size.height }
    requires columns { part.left + part.at.w ≤ pass.now.size.width }
    requires rows { part.above + part.at.h ≤ pass.now.size.height }
    ensures pixels { EachPixel size.width size.height
        (within_rows part.at part.at.h (λ x y below. blend below (scaled (pixel_in pass.now (x - part.at.x + part.left) (y - part.at.y + part.above)) opacity)))
        surface.old surface.new }
    ensures premultiplied { ArePremultiplied surface.old → ArePremultiplied surface.new }
{
    let pixels = pass.bytes();
    for row in 0..part.at.h {
        let place = size.place_of(part.at.x, part.at.y + row, part.at.w);
        let from = pass.size().place_of(part.left, part.above + row, part.at.w);
        fade_run(surface, place, part.at.w, pixels, from, opacity);
    }
}

// Lays `n` pixels of a pass from its pixel `from` on, faded, over those from pixel `k` on.
fn fade_run(surface: &mut [u8], k: usize, n: usize, pass: &[u8], from: usize, opacity: u8)
    requires there { 4 * (k + n) ≤ length surface.old }
    requires given { 4 * (from + n) ≤ length pass.now }
    requires premultiplied { ArePremultiplied pass.now }
    ensures { IsPart k n (λ j below. blend below (scaled (pixel pass.now (from + j)) opacity)) surface.old surface.new }
{
    faded_over(
        &mut surface[4 * k..4 * (k + n)],
        &pass[4 * from..4 * (from + n)],
        opacity,
    );
}
