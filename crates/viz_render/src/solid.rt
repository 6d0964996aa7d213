//! Drawing a rect of one colour.

ghost use Rattle.std.specs.Prelude.{◌≡◌, ℕ, ◌≤◌, length, IsTrue};
ghost use Rattle.geom.specs.Covers.{IsSound};
ghost use Rattle.pixel.specs.Colours.{Parts, blend, clear};
ghost use Rattle.pixel.specs.Rows.{ArePremultiplied};
ghost use Rattle.page_display_list.specs.Bitmaps.{near, byte_count};
ghost use Rattle.page_display_list.specs.declared.CoveredArea.{CoveredArea};
ghost use Rattle.viz_render.specs.inner.Drawing.{IsStrip, laid_on};
ghost use Rattle.viz_render.specs.inner.Masks.{EachOpenPoint};
ghost use Rattle.viz_render.specs.inner.Paints.{painted, CanPaint};

use crate::mask::QuadMask;
use crate::open::paint_open;
use crate::paint::Paint;
use crate::size::size_of;
use geom::Rect;
use page_display_list::shared_part;
use pixel::Colour;

/// Draws one colour where `at` lies in an area.
pub(crate) fn draw_solid(
    surface: &mut [u8],
    area: Rect,
    at: Rect,
    colour: Colour,
    seen: QuadMask<'_>,
)
    requires area { IsStrip area }
    requires at { IsSound at }
    requires size { length surface.old ≡ byte_count area.w area.h }
    ensures pixels { EachOpenPoint area seen.entry.mask.now.tops seen.entry.number (laid_on at (λ x y. colour)) surface.old surface.new }
    ensures premultiplied { ArePremultiplied surface.old → ArePremultiplied surface.new }
{
    if is_clear(colour) {
        return;
    }
    let Some(part) = shared_part(at, area) else {
        return;
    };
    paint_open(surface, size_of(area), part, &paint_of(colour), seen);
}

// The paint of a colour.
fn paint_of(colour: Colour) -> Paint<'static>
    ensures can { (part : CoveredArea) → CanPaint result part }
    ensures value { (part : CoveredArea) (x y : ℕ) (below : Parts) → painted result part x y below ≡ blend below colour }
{
    if colour.a() == 255 {
        Paint::Fill(colour)
    } else {
        Paint::Colour(colour)
    }
}

// Whether the colour is transparent, so that laying it over another changes nothing.
fn is_clear(colour: Colour) -> bool
    ensures { IsTrue result → colour ≡ clear }
{
    colour == Colour::CLEAR
}
