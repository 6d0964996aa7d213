//! Rects of one colour that go on in one another, drawn as one.

ghost use Rattle.std.specs.Prelude.{◌≡◌, ◌*◌, ◌+◌, ◌-◌, ◌<◌, ◌+ℤ◌, ◌++◌, ◌∷◌, [], length, take, IsTrue, IfSome, OnOk};
ghost use Rattle.viz_scene.specs.Views.{quad_view, quads_view};
ghost use Rattle.viz_quads.specs.inner.Joins.{ActAs, IsBeside, IsBelow, AreOne};

use geom::Rect;
use pixel::Colour;
use std::alloc::AllocError;
use viz_scene::Quad;

/// Adds a quad after others, as part of the last ones if they are together one rect of one colour. An
/// error means out of memory.
pub(crate) fn add_quad(quads: &mut Vec<Quad>, quad: Quad) -> Result<(), AllocError>
    ensures { OnOk result (ActAs (quads_view quads.new.items) (quads_view quads.old.items ++ quad_view quad ∷ [])) }
{
    let mut whole = quad;
    while let Some(union) = joined_last(quads, &whole) {
        quads.pop();
        whole = union;
    }
    quads.push(whole)?;
    Ok(())
}

// One quad for the last of these and the quad after them.
fn joined_last(quads: &[Quad], quad: &Quad) -> Option<Quad>
    ensures some { IfSome result (λ union. 0 < length quads.now) }
    ensures acts { IfSome result (λ union. ActAs (quads_view (take (length quads.now - 1) quads.now) ++ quad_view union ∷ []) (quads_view quads.now ++ quad_view quad.now ∷ [])) }
{
    let (last, _) = quads.split_last()?;
    joined(last, quad)
}

// One quad for two.
fn joined(first: &Quad, second: &Quad) -> Option<Quad>
    ensures { IfSome result (λ union. ActAs (quad_view union ∷ []) (quad_view first.now ∷ quad_view second.now ∷ [])) }
{
    let Quad::Solid { at, colour } = first else {
        return None;
    };
    let Quad::Solid {
        at: next,
        colour: other,
    } = second
    else {
        return None;
    };
    if !is_same_colour(*colour, *other) {
        return None;
    }
    let union = joined_rect(*at, *next)?;
    Some(Quad::Solid {
        at: union,
        colour: *colour,
    })
}

// Whether two colours are one.
fn is_same_colour(colour: Colour, other: Colour) -> bool
    ensures { IsTrue result → colour ≡ other }
{
    colour == other
}

// One rect for two.
fn joined_rect(first: Rect, second: Rect) -> Option<Rect>
    ensures { IfSome result (λ union. AreOne first second union) }
{
    if let Some(union) = joined_beside(first, second) {
        return Some(union);
    }
    joined_below(first, second)
}

// One rect for two, of which the second begins where the first ends, in the same rows.
fn joined_beside(first: Rect, second: Rect) -> Option<Rect>
    ensures { IfSome result (λ union. IsBeside first second union) }
{
    if !is_same_span(first.y, first.h, second.y, second.h) {
        return None;
    }
    let w = joined_len(first.x, first.w, second.x, second.w)?;
    Some(Rect {
        x: first.x,
        y: first.y,
        w,
        h: first.h,
    })
}

// One rect for two, of which the second begins where the first ends, in the same columns.
fn joined_below(first: Rect, second: Rect) -> Option<Rect>
    ensures { IfSome result (λ union. IsBelow first second union) }
{
    if !is_same_span(first.x, first.w, second.x, second.w) {
        return None;
    }
    let h = joined_len(first.y, first.h, second.y, second.h)?;
    Some(Rect {
        x: first.x,
        y: first.y,
        w: first.w,
        h,
    })
}

// Whether two spans are one.
fn is_same_span(at: i32, len: i32, other_at: i32, other_len: i32) -> bool
    ensures { IsTrue result → (other_at ≡ at) × (other_len ≡ len) }
{
    at == other_at && len == other_len
}

// The length of two spans of which the second begins where the first ends.
fn joined_len(at: i32, len: i32, next_at: i32, next_len: i32) -> Option<i32>
    ensures { IfSome result (λ both. (next_at ≡ at +ℤ len) × (both ≡ len +ℤ next_len)) }
{
    let end = at.checked_add(len)?;
    if end != next_at {
        return None;
    }
    len.checked_add(next_len)
}
