//! What is laid over a part of an area.

ghost use Rattle.std.specs.Prelude.{◌≡◌, ◌*◌, length};
ghost use Rattle.pixel.specs.Rows.{ArePremultiplied};
ghost use Rattle.pixel.specs.Surfaces.{IsInside, EachPixel, within_rows};
ghost use Rattle.viz_render.specs.inner.Paints.{painted, CanPaint};

use crate::group::fade_part;
use page_display_list::CoveredArea;
use pixel::{Colour, Pixels, Size, colour_over_area, fill_area, rows_over_area};

/// What the pixels of a part of an area are given.
#[derive(Drop)]
pub(crate) enum Paint<'a> {
    /// One colour in place of what is below.
    Fill(Colour),
    /// One colour, over what is below.
    Colour(Colour),
    /// One row of pixels, over each row.
    Row(&'a [u8]),
    /// The pixels of a pass, faded to an opacity.
    Pass { pixels: Pixels<'a>, opacity: u8 },
}

/// Paints a part of an area.
pub(crate) fn paint_part(surface: &mut [u8], size: Size, part: CoveredArea, paint: &Paint<'_>)
    requires size { length surface.old ≡ 4 * (size.width * size.height) }
    requires inside { IsInside part.at size.width size.height }
    requires paint { CanPaint paint.now part }
    ensures pixels { EachPixel size.width size.height (within_rows part.at part.at.h (painted paint.now part)) surface.old surface.new }
    ensures premultiplied { ArePremultiplied surface.old → ArePremultiplied surface.new }
{
    match paint {
        Paint::Fill(colour) => fill_area(surface, size, part.at, *colour),
        Paint::Colour(colour) => colour_over_area(surface, size, part.at, *colour),
        Paint::Row(row) => rows_over_area(surface, size, part.at, row, part.left),
        Paint::Pass { pixels, opacity } => fade_part(surface, size, pixels, part, *opacity),
    }
}
