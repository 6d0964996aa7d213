//! Damage as C sees it.

ghost use Rattle.std.specs.Prelude.{◌≡◌, ◌<◌, ◌+◌, pos, ◌≤ℤ◌, [], length};
ghost use Rattle.std.specs.List.{cons_option};
ghost use Rattle.viz_scene.specs.Sound.{IsSceneSide};
ghost use Rattle.cc_c.specs.Damages as spec;

use geom::Rect;
use viz_canvas::{Canvas, Rgba};

/// A rect of the frame: it has at least one pixel, and none that the frame lacks.
#[repr(C)]
#[derive(Clone, Copy)]
pub struct DamageRect {
    /// The leftmost column.
    pub x: i32,
    /// The uppermost row.
    pub y: i32,
    /// How many columns.
    pub w: i32,
    /// How many rows.
    pub h: i32,
}

/// Pixels of a side of the frame that follow one another.
#[derive(Clone, Copy)]
pub struct Span {
    /// The first.
    pub at: i32,
    /// How many.
    pub len: i32,
}

// Where the part of a span ends that a side has.
fn end_in(side: i32, at: i32, len: i32) -> i32
    requires { pos 0 ≤ℤ side }
    ensures end { result ≡ spec.end_in side at len }
    ensures low { pos 0 ≤ℤ result }
{
    at.saturating_add(len).max(0).min(side)
}

// The pixels of a span that a side has; None exactly if there are none.
#[tactic(auto, unfolding(crate::specs::Damages::span_in))]
fn span_in(side: u32, at: i32, len: i32) -> Option<Span>
    requires { IsSceneSide side }
    ensures { result ≡ spec.span_in side at len }
{
    let start = at.max(0);
    let end = end_in(side as i32, at, len);
    if start >= end {
        return None;
    }
    Some(Span {
        at: start,
        len: end - start,
    })
}

// The points of a rect that a frame of this size has; None exactly if there are none.
#[tactic(auto, unfolding(crate::specs::Damages::part_in))]
fn part_in(w: u32, h: u32, rect: Rect) -> Option<DamageRect>
    requires wide { IsSceneSide w }
    requires tall { IsSceneSide h }
    ensures { result ≡ spec.part_in w h rect }
{
    let across = span_in(w, rect.x, rect.w)?;
    let down = span_in(h, rect.y, rect.h)?;
    Some(DamageRect {
        x: across.at,
        y: down.at,
        w: across.len,
        h: down.len,
    })
}

// Puts a rect, if there is one, after this many, if it fits, and tells how many there are then.
#[tactic(auto, using(crate::proofs::WrittenRects::put_past))]
fn put_part(part: Option<DamageRect>, to: &mut [DamageRect], count: usize) -> usize
    requires { count < 18446744073709551615 }
    ensures count { result ≡ count + length (cons_option part []) }
    ensures rects { to.new ≡ spec.put_at count part to.old }
{
    let Some(rect) = part else {
        return count;
    };
    if count < to.len() {
        to[count] = rect;
    }
    count + 1
}

// Puts the part of a rect that a frame has, if it has one.
fn put_rect(frame: &Canvas<Rgba>, rect: Rect, to: &mut [DamageRect], count: usize) -> usize
    requires { count < 18446744073709551615 }
    ensures count { result ≡ count + length (cons_option (spec.part_in frame.now.w frame.now.h rect) []) }
    ensures rects { to.new ≡ spec.put_at count (spec.part_in frame.now.w frame.now.h rect) to.old }
{
    put_part(part_in(frame.w(), frame.h(), rect), to, count)
}

/// Writes the parts of some rects that a frame has, as many as fit, and tells how many there are. Rects that lie beyond
/// the frame, or have no point, are left out.
pub fn told_damage(frame: &Canvas<Rgba>, damage: &[Rect], to: &mut [DamageRect]) -> usize
    ensures count { result ≡ length (spec.parts_in frame.now.w frame.now.h damage.now) }
    ensures rects { to.new ≡ spec.written (spec.parts_in frame.now.w frame.now.h damage.now) to.old }
{
    let mut count = 0;
    for rect in damage {
        count = put_rect(frame, *rect, to, count);
    }
    count
}
