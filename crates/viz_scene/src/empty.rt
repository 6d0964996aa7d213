//! Rects without points.

ghost use Rattle.std.specs.Prelude.{◌≡◌, ◌≤ℤ◌, ◌<ℤ◌, pos, false, IsTrue};
ghost use Rattle.viz_scene.specs.Areas.{HasNoPoint};

use geom::Rect;

/// Whether a rect has no point.
pub fn is_empty(r: Rect) -> bool
    ensures yes { IsTrue result → HasNoPoint r }
    ensures no { result ≡ false → (pos 0 <ℤ r.w) × (pos 0 <ℤ r.h) }
{
    lacks_numbers(r.w) || lacks_numbers(r.h)
}

// Whether a span of this length has no number.
fn lacks_numbers(len: i32) -> bool
    ensures yes { IsTrue result → len ≤ℤ pos 0 }
    ensures no { result ≡ false → pos 0 <ℤ len }
{
    len <= 0
}
