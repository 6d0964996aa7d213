//! The last group of a pass.

ghost use Rattle.std.specs.Prelude.{◌≡◌, ◌≤◌, false, All, length, drop};
ghost use Rattle.viz_scene.specs.Views.{quad_view, quads_view};
ghost use Rattle.viz_render.specs.inner.Drawing.{CanBeDrawn};
ghost use Rattle.viz_render.specs.inner.Shown.{IsGroup, HaveNoGroup};

use viz_scene::Quad;

/// The number of the last group among some quads, counted from 1; 0 if there is none. There are surfaces for the
/// given number of passes. If the quads' mask hides none of them, as its highest number is 0, the groups are not looked
/// for: the number is that of the last quad.
pub(crate) fn last_group(quads: &[Quad], passes: usize, highest: usize) -> usize
    requires { All (CanBeDrawn passes) (quads_view quads.now) }
    ensures few { result ≤ length quads.now }
    ensures after { HaveNoGroup (quads_view (drop result quads.now)) }
{
    if passes == 0 {
        return 0;
    }
    if highest == 0 {
        return quads.len();
    }
    let mut number = quads.len();
    while number > 0 {
        if is_group(&quads[number - 1]) {
            return number;
        }
        number -= 1;
    }
    number
}

// Whether a quad is a group.
fn is_group(quad: &Quad) -> bool
    ensures { result ≡ false → IsGroup (quad_view quad.now) → ⊥ }
{
    match quad {
        Quad::Tile { .. } => false,
        Quad::Solid { .. } => false,
        Quad::Group { .. } => true,
    }
}
