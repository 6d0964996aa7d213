//! The few rects that damage is kept as.

ghost use Rattle.std.specs.Prelude.{◌<◌, ◌∷◌, pos, ◌+ℤ◌, ◌≤ℤ◌, All, length, IsTrue, IfSome, OnOk};
ghost use Rattle.viz_scene.specs.Areas.{IsOnScreen, Holds};
ghost use Rattle.viz_damage.specs.inner.Areas.{HoldAll};

use geom::Rect;
use std::alloc::AllocError;
use viz_scene::{hull, is_empty};

// How many rects damage is kept as at most.
const MOST_RECTS: usize = 16;

// The same if rows of tiles are added.
const MOST_ROWS: usize = 64;

/// Adds an area to damage, unless a rect of it holds the area. It is joined with what it costs least to join
/// with, as long as that costs nothing or there are too many rects.
pub(crate) fn add_area(damage: &mut Vec<Rect>, area: Rect) -> Result<(), AllocError>
    requires damage { All IsOnScreen damage.old.items }
    requires area { IsOnScreen area }
    ensures held { OnOk result (HoldAll damage.new.items (area ∷ damage.old.items)) }
    ensures damage { All IsOnScreen damage.new.items }
{
    if is_empty(area) || is_held(damage, area) {
        return Ok(());
    }
    let mut whole = area;
    while let Some(place) = partner_of(damage, whole) {
        let other = damage.remove(place);
        whole = hull(whole, other);
    }
    damage.push(whole)?;
    Ok(())
}

/// Adds some rows to damage: to the rect that stands left of them on the same rows, else as a rect of its own, as long
/// as there are few. `hint` is where that rect is looked for first, and then the place after it: the rows of a tile are
/// added in the order in which those of the tile left of it were.
pub(crate) fn add_rows(
    damage: &mut Vec<Rect>,
    hint: &mut usize,
    rows: Rect,
) -> Result<(), AllocError>
    requires damage { All IsOnScreen damage.old.items }
    requires rows { IsOnScreen rows }
    ensures held { OnOk result (HoldAll damage.new.items (rows ∷ damage.old.items)) }
    ensures damage { All IsOnScreen damage.new.items }
{
    if is_empty(rows) {
        return Ok(());
    }
    if let Some(place) = place_beside(damage, *hint, rows) {
        damage[place] = hull(damage[place], rows);
        *hint = place + 1;
        return Ok(());
    }
    if damage.len() < MOST_ROWS {
        damage.push(rows)?;
        return Ok(());
    }
    add_area(damage, rows)
}

// Which rect of the same rows ends where some rows begin; looked for at a place first.
fn place_beside(damage: &[Rect], hint: usize, rows: Rect) -> Option<usize>
    ensures { IfSome result (λ place. place < length damage.now) }
{
    if hint < damage.len() && is_beside(damage[hint], rows) {
        return Some(hint);
    }
    for place in 0..damage.len() {
        if is_beside(damage[place], rows) {
            return Some(place);
        }
    }
    None
}

// Whether some rows begin where a rect of the same rows ends.
fn is_beside(rect: Rect, rows: Rect) -> bool {
    rect.y == rows.y && rect.h == rows.h && rect.x.saturating_add(rect.w) == rows.x
}

// Whether one of some rects holds an area.
fn is_held(rects: &[Rect], area: Rect) -> bool
    requires rects { All IsOnScreen rects.now }
    requires area { IsOnScreen area }
    ensures { IsTrue result → HoldAll rects.now (area ∷ rects.now) }
{
    for rect in rects {
        if holds(*rect, area) {
            return true;
        }
    }
    false
}

// Whether a rect holds an area.
fn holds(rect: Rect, area: Rect) -> bool
    requires rect { IsOnScreen rect }
    requires area { IsOnScreen area }
    ensures { IsTrue result → Holds rect area }
{
    let across = has_span(rect.x, rect.w, area.x, area.w);
    let down = has_span(rect.y, rect.h, area.y, area.h);
    across && down
}

// Whether a span has all numbers of another.
fn has_span(at: i32, len: i32, other_at: i32, other_len: i32) -> bool
    requires start { pos 0 ≤ℤ at }
    requires end { (at +ℤ len) ≤ℤ pos 2048 }
    requires len { pos 0 ≤ℤ len }
    requires other_start { pos 0 ≤ℤ other_at }
    requires other_end { (other_at +ℤ other_len) ≤ℤ pos 2048 }
    requires other_len { pos 0 ≤ℤ other_len }
    ensures start { IsTrue result → at ≤ℤ other_at }
    ensures end { IsTrue result → (other_at +ℤ other_len) ≤ℤ (at +ℤ len) }
{
    let end = at + len;
    let other_end = other_at + other_len;
    at <= other_at && other_end <= end
}

// The rect that an area is to be joined with.
fn partner_of(rects: &[Rect], area: Rect) -> Option<usize>
    ensures { IfSome result (λ place. place < length rects.now) }
{
    let mut best = None;
    let mut least = i32::MAX;
    for place in 0..rects.len() {
        let waste = waste_of(area, rects[place]);
        if waste <= least {
            least = waste;
            best = Some(place);
        }
    }
    if least <= 0 || rects.len() >= MOST_RECTS {
        best
    } else {
        None
    }
}

// How many more pixels the rect of both has than they have one by one; both lie on the screen, so that nothing wraps.
fn waste_of(a: Rect, b: Rect) -> i32 {
    let across = span_of_both(a.x, a.w, b.x, b.w);
    let down = span_of_both(a.y, a.h, b.y, b.h);
    across
        .wrapping_mul(down)
        .wrapping_sub(a.w.wrapping_mul(a.h))
        .wrapping_sub(b.w.wrapping_mul(b.h))
}

// How far it is from the begin of the first of two spans to the end of the last.
fn span_of_both(at: i32, len: i32, other_at: i32, other_len: i32) -> i32 {
    let end = at.wrapping_add(len);
    let other_end = other_at.wrapping_add(other_len);
    end.max(other_end).wrapping_sub(at.min(other_at))
}
