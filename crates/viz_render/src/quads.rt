//! Drawing quads into the pixels of an area.

ghost use Rattle.std.specs.Prelude.{◌≡◌, ◌≤◌, length, All};
ghost use Rattle.pixel.specs.Rows.{ArePremultiplied};
ghost use Rattle.page_display_list.specs.Bitmaps.{near, byte_count};
ghost use Rattle.viz_scene.specs.Views.{quad_view, quads_view};
ghost use Rattle.viz_scene.specs.Pixels.{quad_over};
ghost use Rattle.viz_render.specs.inner.Drawing.{IsStrip, colours, CanBeDrawn};
ghost use Rattle.viz_render.specs.inner.Masks.{AreMarked, EachOpenPoint};
ghost use Rattle.viz_render.specs.inner.Shown.{ShowsSeen};

use crate::beside::lies_beside;
use crate::blank::fill_open;
use crate::group::draw_group;
use crate::mask::{Mask, QuadMask};
use crate::size::size_of;
use crate::solid::draw_solid;
use crate::surface::Surface;
use crate::tile::draw_tile;
use geom::Rect;
use pixel::Colour;
use viz_scene::Quad;

/// Draws quads over a colour into the pixels of an area, each over those before it, but for what later ones hide. A
/// group is one of the passes, which have surfaces.
pub(crate) fn draw_quads(
    surface: &mut [u8],
    below: Colour,
    area: Rect,
    quads: &[Quad],
    passes: &[Surface],
    mask: &Mask,
)
    requires area { IsStrip area }
    requires size { length surface.old ≡ byte_count area.w area.h }
    requires quads { All (CanBeDrawn (length passes.now)) (quads_view quads.now) }
    requires marked { AreMarked area quads.now mask.now.tops }
    ensures pixels { ShowsSeen (length quads.now) area mask.now.tops passes.now below (quads_view quads.now) surface.new }
    ensures size { length surface.new ≡ length surface.old }
    ensures premultiplied { ArePremultiplied surface.old → ArePremultiplied surface.new }
{
    fill_open(surface, size_of(area), below, mask);
    for (k, quad) in quads.iter().enumerate() {
        let seen = QuadMask {
            mask,
            number: k + 1,
        };
        draw_quad(surface, area, quad, passes, seen);
    }
}

// Draws one quad.
#[inline(always)]
fn draw_quad(surface: &mut [u8], area: Rect, quad: &Quad, passes: &[Surface], seen: QuadMask<'_>)
    requires area { IsStrip area }
    requires size { length surface.old ≡ byte_count area.w area.h }
    requires quad { CanBeDrawn (length passes.now) (quad_view quad.now) }
    ensures pixels { EachOpenPoint area seen.entry.mask.now.tops seen.entry.number (λ x y below. quad_over (colours passes.now x y) x y below (quad_view quad.now)) surface.old surface.new }
    ensures premultiplied { ArePremultiplied surface.old → ArePremultiplied surface.new }
{
    if lies_beside(quad, area, passes.len()) {
        return;
    }
    match quad {
        Quad::Tile { image, at, from } => draw_tile(surface, area, image, *at, *from, seen),
        Quad::Solid { at, colour } => draw_solid(surface, area, *at, *colour, seen),
        Quad::Group { pass, opacity } => {
            let pass = &passes[*pass as usize];
            draw_group(surface, area, pass, *opacity, seen);
        }
    }
}
