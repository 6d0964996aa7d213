//! Drawing the passes of a scene into the pixels of an area.

ghost use Rattle.std.specs.Prelude.{◌≡◌, ℕ, ◌≤◌, length, All};
ghost use Rattle.pixel.specs.Rows.{ArePremultiplied};
ghost use Rattle.page_display_list.specs.Bitmaps.{near, byte_count};
ghost use Rattle.viz_scene.specs.Views.{quads_view, passes_view};
ghost use Rattle.viz_scene.specs.Sound.{IsIn};
ghost use Rattle.viz_render.specs.inner.Drawing.{IsStrip, IsDrawable, CanBeDrawn, AreRoomy, PassesCanBeDrawn, ShowsPass};
ghost use Rattle.viz_render.specs.inner.Masks.{AreMarked};
ghost use Rattle.viz_render.specs.inner.Shown.{ShowsSeen, ShowsOpenPass, ShowOpenPasses};

use crate::hull::hull_of;
use crate::mask::{Mask, QuadMask};
use crate::quads::draw_quads;
use crate::size::{height_of, width_of};
use crate::surface::Surface;
use geom::Rect;
use pixel::Colour;
use viz_scene::{Quad, RenderPass};

/// Draws the pixels of an area of each pass before the root into its surface, inner passes first, at least where the
/// root's mask lets this quad of the root be seen.
pub(crate) fn draw_passes(
    passes: &[RenderPass],
    area: Rect,
    surfaces: &mut [Surface],
    mask: &mut Mask,
    root: QuadMask<'_>,
)
    requires area { IsIn 2048 2048 area }
    requires low { near area.h ≤ 64 }
    requires each { length surfaces.old ≡ length passes.now }
    requires quads { PassesCanBeDrawn (passes_view passes.now) }
    requires room { AreRoomy (byte_count area.w area.h) surfaces.old }
    ensures pixels { ShowOpenPasses area root.entry.mask.now.tops root.entry.number (passes_view passes.now) surfaces.new }
    ensures room { (n : ℕ) → AreRoomy n surfaces.old → AreRoomy n surfaces.new }
{
    let is_little = !passes.is_empty() && root.mask.hides_most(area, root.number);
    let seen = SeenPasses {
        group: root,
        is_little,
    };
    for (i, pass) in passes.iter().enumerate() {
        let (before, rest) = surfaces.split_at_mut(i);
        let surface = &mut rest[0];
        draw_inner_pass(surface, area, &pass.quads, before, mask, seen);
    }
}

/// What is seen of the passes before the root.
#[derive(Clone, Copy)]
struct SeenPasses<'a> {
    // The last group of the root: no pass is seen where the root's mask hides it.
    group: QuadMask<'a>,
    // Whether that is most of the area, so that it pays to draw only the rest.
    is_little: bool,
}

// Draws the pixels of an area of one pass before the root, at least where the pass is seen.
fn draw_inner_pass(
    surface: &mut Surface,
    area: Rect,
    quads: &[Quad],
    passes: &[Surface],
    mask: &mut Mask,
    seen: SeenPasses<'_>,
)
    requires { IsDrawable area (quads_view quads.now) passes.now surface.old }
    ensures pixels { ShowsOpenPass area seen.entry.group.mask.now.tops seen.entry.group.number passes.now (quads_view quads.now) surface.new }
    ensures size { length surface.new.bytes ≡ length surface.old.bytes }
{
    if seen.is_little {
        draw_open_pass(surface, area, quads, passes, mask, seen.group);
    } else {
        draw_whole_pass(surface, area, quads, passes, mask);
    }
}

// Draws the pixels of an area of one pass before the root: only where the root's mask leaves its quad of this number to
// be seen.
fn draw_open_pass(
    surface: &mut Surface,
    area: Rect,
    quads: &[Quad],
    passes: &[Surface],
    mask: &mut Mask,
    root: QuadMask<'_>,
)
    requires { IsDrawable area (quads_view quads.now) passes.now surface.old }
    ensures pixels { ShowsOpenPass area root.entry.mask.now.tops root.entry.number passes.now (quads_view quads.now) surface.new }
    ensures size { length surface.new.bytes ≡ length surface.old.bytes }
{
    mask.mark_open(area, quads, passes, root);
    draw_pass(surface, Colour::CLEAR, area, quads, passes, mask);
}

// Draws the pixels of an area of one pass before the root: only where its quads draw.
fn draw_whole_pass(
    surface: &mut Surface,
    area: Rect,
    quads: &[Quad],
    passes: &[Surface],
    mask: &mut Mask,
)
    requires { IsDrawable area (quads_view quads.now) passes.now surface.old }
    ensures pixels { ShowsPass area passes.now (quads_view quads.now) surface.new }
    ensures size { length surface.new.bytes ≡ length surface.old.bytes }
{
    let hull = hull_of(quads, area, passes);
    mask.mark(hull, quads, passes);
    draw_pass(surface, Colour::CLEAR, hull, quads, passes, mask);
}

/// Draws the pixels of a pass on a rect over a colour, but for what the mask of its quads hides. The passes before it
/// have surfaces.
pub(crate) fn draw_pass(
    surface: &mut Surface,
    below: Colour,
    area: Rect,
    quads: &[Quad],
    passes: &[Surface],
    mask: &Mask,
)
    requires area { IsStrip area }
    requires quads { All (CanBeDrawn (length passes.now)) (quads_view quads.now) }
    requires marked { AreMarked area quads.now mask.now.tops }
    requires room { byte_count area.w area.h ≤ length surface.old.bytes }
    ensures rect { surface.new.rect ≡ area }
    ensures pixels { ShowsSeen (length quads.now) area mask.now.tops passes.now below (quads_view quads.now) surface.new.bytes }
    ensures size { length surface.new.bytes ≡ length surface.old.bytes }
{
    draw_over(
        surface.bytes.as_mut_slice(),
        below,
        area,
        quads,
        passes,
        mask,
    );
    surface.rect = area;
}

/// Draws quads over a colour into the first of some bytes, but for what their mask hides. The passes before theirs have
/// surfaces.
pub(crate) fn draw_over(
    bytes: &mut [u8],
    below: Colour,
    area: Rect,
    quads: &[Quad],
    passes: &[Surface],
    mask: &Mask,
)
    requires area { IsStrip area }
    requires quads { All (CanBeDrawn (length passes.now)) (quads_view quads.now) }
    requires marked { AreMarked area quads.now mask.now.tops }
    requires room { byte_count area.w area.h ≤ length bytes.old }
    ensures pixels { ShowsSeen (length quads.now) area mask.now.tops passes.now below (quads_view quads.now) bytes.new }
    ensures premultiplied { ArePremultiplied bytes.old → ArePremultiplied bytes.new }
{
    let size = 4 * (width_of(area) * height_of(area));
    let surface = &mut bytes[..size];
    draw_quads(surface, below, area, quads, passes, mask);
}
