//! Points and rects of whole pixels.

ghost use Rattle.std.specs.Prelude.{◌≡◌, ◌↔◌, ℤ, ◌+ℤ◌, ◌&&◌, IsTrue};
ghost use Rattle.geom.specs.Covers.{covers, IsSound};
ghost use Rattle.geom.specs.Common.{common, meets, empty_rect, Meet};
ghost use Rattle.geom.specs.Gaps.{distance, shifted};

use crate::span::{common_span, gap, have_common, is_within, moved, rect_of_spans};

/// A point of whole pixels: `x` to the right, `y` downwards.
#[derive(Clone, Copy, PartialEq, Eq, Debug)]
pub struct Point {
    /// How far to the right of the origin.
    pub x: i32,
    /// How far below the origin.
    pub y: i32,
}

/// The points from `(x, y)` on, `w` to the right and `h` downwards.
///
/// A rect is sound if `x` and `y` are at most 2^29 in absolute value, and `w` and `h` from 0 to 2^29.
#[derive(Clone, Copy, PartialEq, Eq, Debug)]
pub struct Rect {
    /// The leftmost column.
    pub x: i32,
    /// The uppermost row.
    pub y: i32,
    /// How many columns.
    pub w: i32,
    /// How many rows.
    pub h: i32,
}

impl Rect {
    /// Whether the rect covers the point: `x <= p.x < x + w` and `y <= p.y < y + h`.
    pub fn contains(self, p: Point) -> bool
        requires { IsSound self }
        ensures { result ≡ covers self p.x p.y }
    {
        let across = is_within(self.x, self.w, p.x);
        let down = is_within(self.y, self.h, p.y);
        across && down
    }

    /// The rect of the points that both cover; the rect (0, 0, 0, 0) if there are none.
    pub fn intersect(self, other: Rect) -> Rect
        requires sound { IsSound self }
        requires other_sound { IsSound other }
        ensures points { (x y : ℤ) → covers result x y ≡ (covers self x y && covers other x y) }
        ensures none { (Meet self other → ⊥) → result ≡ empty_rect }
        ensures sound { IsSound result }
        ensures value { result ≡ common self other }
    {
        let across = common_span(self.x, self.w, other.x, other.w);
        let down = common_span(self.y, self.h, other.y, other.h);
        rect_of_spans(across, down)
    }

    /// Whether there is a point that both cover.
    pub fn touches(self, other: Rect) -> bool
        requires sound { IsSound self }
        requires other_sound { IsSound other }
        ensures points { IsTrue result ↔ Meet self other }
        ensures value { result ≡ meets self other }
    {
        let across = have_common(self.x, self.w, other.x, other.w);
        let down = have_common(self.y, self.h, other.y, other.h);
        across && down
    }

    /// The rect moved by `by`. The result is to be sound too.
    pub fn shift(self, by: Point) -> Rect
        requires sound { IsSound self }
        requires result_sound { IsSound (shifted self by) }
        ensures points { (x y : ℤ) → covers result (x +ℤ by.x) (y +ℤ by.y) ≡ covers self x y }
        ensures value { result ≡ shifted self by }
    {
        let x = moved(self.x, by.x);
        let y = moved(self.y, by.y);
        Rect {
            x,
            y,
            w: self.w,
            h: self.h,
        }
    }

    /// How far the rects lie apart: the larger of the gaps of the two axes, in pixels. The gap of an
    /// axis is 0 if the spans overlap or one begins where the other ends.
    pub fn distance(self, other: Rect) -> u32
        requires sound { IsSound self }
        requires other_sound { IsSound other }
        ensures { result ≡ distance self other }
    {
        let across = gap(self.x, self.w, other.x, other.w);
        let down = gap(self.y, self.h, other.y, other.h);
        across.max(down)
    }
}
