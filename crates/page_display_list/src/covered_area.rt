//! The part of an area that a rect covers.

ghost use Rattle.std.specs.Prelude.{◌≡◌, ℤ, pos, ◌+ℤ◌, ◌≤ℤ◌, MatchOption};
ghost use Rattle.geom.specs.Covers.{IsSpan, IsSound};
ghost use Rattle.page_display_list.specs.Shared.{IsRun, IsApart, IsOutside, IsShared};

use geom::Rect;
use pixel::Area;

/// The places of an axis of an area that a span covers.
#[derive(Clone, Copy)]
pub(crate) struct CoveredSpan {
    /// The first of them.
    pub(crate) at: usize,
    /// How many.
    pub(crate) len: usize,
    /// How many numbers of the span come before the first.
    pub(crate) skipped: usize,
}

/// The part of an area that a rect covers.
#[derive(Clone, Copy)]
pub struct CoveredArea {
    /// The part, counted from the area's top left corner.
    pub at: Area,
    /// How many columns of the rect lie left of it.
    pub left: usize,
    /// How many rows of the rect lie above it.
    pub above: usize,
}

/// The number after the last of a span.
fn end_of(at: i32, len: i32) -> i32
    requires { IsSpan at len }
    ensures { result ≡ at +ℤ len }
{
    at + len
}

/// How far a number is after another.
fn gap(from: i32, to: i32) -> usize
    requires { from ≤ℤ to }
    ensures { from +ℤ pos result ≡ to }
{
    (to as i64 - from as i64) as usize
}

/// The places of the `count` numbers from `from` on that the span of `len` numbers from `at` on covers.
fn shared_run(at: i32, len: i32, from: i32, count: i32) -> Option<CoveredSpan>
    requires span { IsSpan at len }
    requires axis { IsSpan from count }
    ensures { MatchOption result (IsApart at len from count) (λ run. IsRun at len from count run) }
{
    let start = at.max(from);
    let end = end_of(at, len).min(end_of(from, count));
    if start < end {
        Some(CoveredSpan {
            at: gap(from, start),
            len: gap(start, end),
            skipped: gap(at, start),
        })
    } else {
        None
    }
}

/// The part of an area that a rect covers; `None` exactly if it covers no point of it.
pub fn shared_part(rect: Rect, area: Rect) -> Option<CoveredArea>
    requires rect { IsSound rect }
    requires area { IsSound area }
    ensures { MatchOption result (IsOutside rect area) (λ part. IsShared rect area part) }
{
    let Some(across) = shared_run(rect.x, rect.w, area.x, area.w) else {
        return None;
    };
    let Some(down) = shared_run(rect.y, rect.h, area.y, area.h) else {
        return None;
    };
    let at = Area {
        x: across.at,
        y: down.at,
        w: across.len,
        h: down.len,
    };
    Some(CoveredArea {
        at,
        left: across.skipped,
        above: down.skipped,
    })
}
