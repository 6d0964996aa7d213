//! Quads whose rows miss those of an area.

ghost use Rattle.std.specs.Prelude.{◌≡◌, ℕ, ◌<◌, pos, ◌+ℤ◌, false, IsTrue};
ghost use Rattle.geom.specs.Covers.{within, IsSpan, IsSound};
ghost use Rattle.page_display_list.specs.Bitmaps.{near};
ghost use Rattle.viz_scene.specs.Views.{quad_view};
ghost use Rattle.viz_render.specs.inner.Drawing.{CanBeDrawn};
ghost use Rattle.viz_render.specs.inner.Shown.{Misses};

use geom::Rect;
use viz_scene::Quad;

/// Whether a tile or a solid lies above or below all rows of an area, so that it changes nothing there. Most quads of a
/// pass lie beside a strip, and this is told sooner than which part of the strip they cover. There are surfaces for the
/// given number of passes.
#[inline(always)]
pub(crate) fn lies_beside(quad: &Quad, area: Rect, passes: usize) -> bool
    requires area { IsSound area }
    requires quad { CanBeDrawn passes (quad_view quad.now) }
    ensures { IsTrue result → Misses area (quad_view quad.now) }
{
    match quad {
        Quad::Tile { at, .. } => are_apart(at.y, at.h, area.y, area.h),
        Quad::Solid { at, .. } => are_apart(at.y, at.h, area.y, area.h),
        Quad::Group { .. } => false,
    }
}

// Whether two spans have no number in common.
#[inline(always)]
fn are_apart(at: i32, len: i32, from: i32, count: i32) -> bool
    requires span { IsSpan at len }
    requires axis { IsSpan from count }
    ensures { IsTrue result → (n : ℕ) → n < near count → within at len (from +ℤ pos n) ≡ false }
{
    at + len <= from || from + count <= at
}
