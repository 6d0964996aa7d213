//! The rect that holds two others.

ghost use Rattle.std.specs.Prelude.{◌≡◌, ◌⊎◌, ℤ, pos, ◌+ℤ◌, ◌-ℤ◌, ◌≤ℤ◌, IfSome, None};
ghost use Rattle.std.specs.Bool.{Decides};
ghost use Rattle.std.specs.Int.{int_max, int_min};
ghost use Rattle.viz_scene.specs.Areas.{IsOnScreen, Holds, IsUnion, HaveNoGap, AreBeside, AreStacked};
ghost use Rattle.viz_scene.specs.inner.Boths;

use crate::empty::is_empty;
use geom::Rect;

/// The least rect that holds two others; the other one if one has no point.
pub fn hull(a: Rect, b: Rect) -> Rect
    requires first { IsOnScreen a }
    requires second { IsOnScreen b }
    ensures first { Holds result a }
    ensures second { Holds result b }
    ensures inside { IsOnScreen result }
{
    if is_empty(a) {
        return b;
    }
    if is_empty(b) {
        return a;
    }
    rect_of_both(a, b)
}

/// The union of two rects, if they have the same rows or the same columns and no gap lies between them; None
/// exactly elsewhere.
pub fn union_of(a: Rect, b: Rect) -> Option<Rect>
    requires first { IsOnScreen a }
    requires second { IsOnScreen b }
    ensures union { IfSome result (λ r. IsUnion a b r) }
    ensures some { IfSome result (λ r. AreBeside a b ⊎ AreStacked a b) }
    ensures none { result ≡ None → AreBeside a b ⊎ AreStacked a b → ⊥ }
    ensures inside { IfSome result (λ r. IsOnScreen r) }
{
    if lie_beside(a, b) {
        return Some(rect_of_both(a, b));
    }
    if lie_stacked(a, b) {
        return Some(rect_of_both(a, b));
    }
    None
}

// Whether two rects have the same rows and no gap between them.
fn lie_beside(a: Rect, b: Rect) -> bool
    requires first { IsOnScreen a }
    requires second { IsOnScreen b }
    ensures { Decides result (AreBeside a b) }
{
    is_same_span(a.y, a.h, b.y, b.h) && have_no_gap(a.x, a.w, b.x, b.w)
}

// Whether two rects have the same columns and no gap between them.
fn lie_stacked(a: Rect, b: Rect) -> bool
    requires first { IsOnScreen a }
    requires second { IsOnScreen b }
    ensures { Decides result (AreStacked a b) }
{
    is_same_span(a.x, a.w, b.x, b.w) && have_no_gap(a.y, a.h, b.y, b.h)
}

// The rect from the lesser start to the greater end along each axis.
fn rect_of_both(a: Rect, b: Rect) -> Rect
    requires first { IsOnScreen a }
    requires second { IsOnScreen b }
    ensures value { result ≡ Boths.rect_of_both a b }
    ensures first { Holds result a }
    ensures second { Holds result b }
    ensures inside { IsOnScreen result }
{
    Rect {
        x: start_of_both(a.x, b.x),
        y: start_of_both(a.y, b.y),
        w: length_of_both(a.x, a.w, b.x, b.w),
        h: length_of_both(a.y, a.h, b.y, b.h),
    }
}

// The lesser start.
fn start_of_both(at: i32, other_at: i32) -> i32
    ensures { result ≡ int_min at other_at }
{
    at.min(other_at)
}

// The length from the lesser start to the greater end.
fn length_of_both(at: i32, len: i32, other_at: i32, other_len: i32) -> i32
    requires start { pos 0 ≤ℤ at }
    requires end { (at +ℤ len) ≤ℤ pos 2048 }
    requires len { pos 0 ≤ℤ len }
    requires other_start { pos 0 ≤ℤ other_at }
    requires other_end { (other_at +ℤ other_len) ≤ℤ pos 2048 }
    requires other_len { pos 0 ≤ℤ other_len }
    ensures { result ≡ int_max (at +ℤ len) (other_at +ℤ other_len) -ℤ int_min at other_at }
{
    let end = (at + len).max(other_at + other_len);
    let start = at.min(other_at);
    end - start
}

// Whether two spans are one.
fn is_same_span(at: i32, len: i32, other_at: i32, other_len: i32) -> bool
    ensures { Decides result ((at ≡ other_at) × (len ≡ other_len)) }
{
    at == other_at && len == other_len
}

// Whether a span starts no later than another ends.
fn starts_in_time(at: i32, other_at: i32, other_len: i32) -> bool
    requires start { pos 0 ≤ℤ other_at }
    requires end { (other_at +ℤ other_len) ≤ℤ pos 2048 }
    requires len { pos 0 ≤ℤ other_len }
    ensures { Decides result (at ≤ℤ (other_at +ℤ other_len)) }
{
    let end = other_at + other_len;
    at <= end
}

// Whether neither of two spans starts after the end of the other.
fn have_no_gap(at: i32, len: i32, other_at: i32, other_len: i32) -> bool
    requires start { pos 0 ≤ℤ at }
    requires end { (at +ℤ len) ≤ℤ pos 2048 }
    requires len { pos 0 ≤ℤ len }
    requires other_start { pos 0 ≤ℤ other_at }
    requires other_end { (other_at +ℤ other_len) ≤ℤ pos 2048 }
    requires other_len { pos 0 ≤ℤ other_len }
    ensures { Decides result (HaveNoGap at len other_at other_len) }
{
    starts_in_time(at, other_at, other_len) && starts_in_time(other_at, at, len)
}
