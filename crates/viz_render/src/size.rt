//! The sides of rects as counts.

ghost use Rattle.std.specs.Prelude.{◌≡◌, pos, ◌≤ℤ◌};
ghost use Rattle.geom.specs.Covers.{IsSound};
ghost use Rattle.page_display_list.specs.Bitmaps.{near};

use geom::Rect;
use pixel::Size;

/// A number from 0 on as a count.
pub(crate) fn count(n: i32) -> usize
    requires { pos 0 ≤ℤ n }
    ensures { result ≡ near n }
{
    n as usize
}

/// How many columns a rect has.
pub(crate) fn width_of(rect: Rect) -> usize
    requires { IsSound rect }
    ensures { result ≡ near rect.w }
{
    count(rect.w)
}

/// How many rows a rect has.
pub(crate) fn height_of(rect: Rect) -> usize
    requires { IsSound rect }
    ensures { result ≡ near rect.h }
{
    count(rect.h)
}

/// How many columns and rows a rect has.
pub(crate) fn size_of(rect: Rect) -> Size
    requires { IsSound rect }
    ensures { result ≡ record { width = near rect.w; height = near rect.h } }
{
    let width = width_of(rect);
    let height = height_of(rect);
    Size { width, height }
}
