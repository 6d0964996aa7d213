//! The part of an area that quads draw in.

ghost use Rattle.std.specs.Prelude.{◌≡◌, ℕ, ◌+◌, ◌-◌, ◌^◌, ◌<◌, ◌≤◌, ℤ, pos, ◌+ℤ◌, ◌≤ℤ◌, true, false, length, All};
ghost use Rattle.geom.specs.Covers.{covers, within, IsSound};
ghost use Rattle.pixel.specs.Colours.{clear};
ghost use Rattle.pixel.specs.Surfaces.{holds};
ghost use Rattle.page_display_list.specs.Bitmaps.{near};
ghost use Rattle.viz_scene.specs.Views.{quad_view, quads_view};
ghost use Rattle.viz_scene.specs.Pixels.{quad_over, quads_over};
ghost use Rattle.viz_scene.specs.Sound.{IsIn};
ghost use Rattle.viz_render.specs.inner.Drawing.{colours, CanBeDrawn};
ghost use Rattle.viz_render.specs.inner.Hulls.{between, in_hull, IsHullIn};

use crate::beside::lies_beside;
use crate::size::{height_of, width_of};
use crate::surface::Surface;
use geom::Rect;
use page_display_list::shared_part;
use pixel::Area;
use viz_scene::Quad;

/// Columns and rows of an area, counted from its top left corner; none if an end is not after its start.
#[derive(Clone, Copy)]
pub(crate) struct Hull {
    pub(crate) left: usize,
    pub(crate) top: usize,
    pub(crate) right: usize,
    pub(crate) bottom: usize,
}

/// The least rect of an area outside of which quads leave transparent pixels transparent. The passes before
/// theirs have surfaces.
pub(crate) fn hull_of(quads: &[Quad], area: Rect, passes: &[Surface]) -> Rect
    requires area { IsIn 2048 2048 area }
    requires quads { All (CanBeDrawn (length passes.now)) (quads_view quads.now) }
    ensures sound { IsSound result }
    ensures narrow { near result.w ≤ near area.w }
    ensures low { near result.h ≤ near area.h }
    ensures outside { (x y : ℤ) → covers area x y ≡ true → covers result x y ≡ false → quads_over (colours passes.now x y) x y clear (quads_view quads.now) ≡ clear }
{
    let mut hull = Hull {
        left: width_of(area),
        top: height_of(area),
        right: 0,
        bottom: 0,
    };
    for quad in quads {
        hull = with_quad(hull, quad, area, passes);
    }
    rect_in(area, hull)
}

// The hull that takes in what a quad draws too.
#[inline(always)]
fn with_quad(hull: Hull, quad: &Quad, area: Rect, passes: &[Surface]) -> Hull
    requires area { IsSound area }
    requires hull { IsHullIn area hull }
    requires quad { CanBeDrawn (length passes.now) (quad_view quad.now) }
    ensures inside { IsHullIn area result }
    ensures before { (x y : ℕ) → in_hull result x y ≡ false → in_hull hull x y ≡ false }
    ensures outside { (x y : ℕ) → x < near area.w → y < near area.h → in_hull result x y ≡ false → quad_over (colours passes.now (area.x +ℤ pos x) (area.y +ℤ pos y)) (area.x +ℤ pos x) (area.y +ℤ pos y) clear (quad_view quad.now) ≡ clear }
{
    if lies_beside(quad, area, passes.len()) {
        return hull;
    }
    let rect = quad_rect(quad, passes);
    match shared_part(rect, area) {
        Some(part) => joined(hull, part.at),
        None => hull,
    }
}

// A rect outside of which a quad leaves transparent pixels transparent.
pub(crate) fn quad_rect(quad: &Quad, passes: &[Surface]) -> Rect
    requires { CanBeDrawn (length passes.now) (quad_view quad.now) }
    ensures sound { IsSound result }
    ensures outside { (x y : ℤ) → covers result x y ≡ false → quad_over (colours passes.now x y) x y clear (quad_view quad.now) ≡ clear }
{
    match quad {
        Quad::Tile { at, .. } => *at,
        Quad::Solid { at, .. } => *at,
        Quad::Group { pass, .. } => {
            let pass = &passes[*pass as usize];
            pass.rect()
        }
    }
}

// The hull that takes in an area too.
fn joined(hull: Hull, at: Area) -> Hull
    requires across { at.x + at.w < 2 ^ 64 }
    requires down { at.y + at.h < 2 ^ 64 }
    ensures right { (n : ℕ) → hull.right ≤ n → at.x + at.w ≤ n → result.right ≤ n }
    ensures bottom { (n : ℕ) → hull.bottom ≤ n → at.y + at.h ≤ n → result.bottom ≤ n }
    ensures outside { (x y : ℕ) → in_hull result x y ≡ false → (in_hull hull x y ≡ false) × (holds at x y ≡ false) }
{
    let left = hull.left.min(at.x);
    let top = hull.top.min(at.y);
    let right = hull.right.max(at.x + at.w);
    let bottom = hull.bottom.max(at.y + at.h);
    Hull {
        left,
        top,
        right,
        bottom,
    }
}

// The columns and rows of an area as a rect.
fn rect_in(area: Rect, hull: Hull) -> Rect
    requires area { IsIn 2048 2048 area }
    requires hull { IsHullIn area hull }
    ensures sound { IsSound result }
    ensures narrow { near result.w ≤ near area.w }
    ensures low { near result.h ≤ near area.h }
    ensures points { (x y : ℕ) → covers result (area.x +ℤ pos x) (area.y +ℤ pos y) ≡ in_hull hull x y }
{
    let x = start_in(area.x, hull.left, hull.right);
    let y = start_in(area.y, hull.top, hull.bottom);
    let w = len_of(hull.left, hull.right);
    let h = len_of(hull.top, hull.bottom);
    Rect { x, y, w, h }
}

// Where the part of a span from its place `start` to before its place `end` begins.
fn start_in(at: i32, start: usize, end: usize) -> i32
    requires low { pos 0 ≤ℤ at }
    requires high { at ≤ℤ pos 2048 }
    requires end { end ≤ 2048 }
    ensures low { pos 0 ≤ℤ result }
    ensures high { result ≤ℤ pos 4096 }
    ensures points { (n : ℕ) → within result (pos (end - start)) (at +ℤ pos n) ≡ between start end n }
{
    let first = start.min(end);
    moved(at, first)
}

// A number this much further on.
fn moved(at: i32, by: usize) -> i32
    requires low { pos 0 ≤ℤ at }
    requires high { at ≤ℤ pos 2048 }
    requires by { by ≤ 2048 }
    ensures { result ≡ at +ℤ pos by }
{
    at + by as i32
}

// How many numbers there are from `start` to before `end`.
fn len_of(start: usize, end: usize) -> i32
    requires { end ≤ 2048 }
    ensures { result ≡ pos (end - start) }
{
    let len = end.saturating_sub(start);
    len as i32
}
