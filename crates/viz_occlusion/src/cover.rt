//! Rects that cover an area together.

ghost use Rattle.std.specs.Prelude.{◌≡◌, ◌<◌, ℤ, pos, ◌+ℤ◌, ◌<ℤ◌, ◌≤ℤ◌, true, false, ◌||◌, All, IsTrue, IfSome, OnOk, MatchOption};
ghost use Rattle.geom.specs.Covers.{covers, IsSound};
ghost use Rattle.region.specs.Points.{covered};
ghost use Rattle.viz_scene.specs.Areas.{IsOnScreen};
ghost use Rattle.viz_occlusion.specs.inner.Cover.{IsBlock, IsOpen, IsJoint, IsRectAt};

use geom::{Point, Rect};
use std::alloc::AllocError;
use viz_scene::union_of;

/// Adds the points of a rect.
pub(crate) fn add_rect(cover: &mut Vec<Rect>, rect: Rect) -> Result<(), AllocError>
    requires cover { All IsOnScreen cover.old.items }
    requires rect { IsOnScreen rect }
    ensures points { OnOk result ((x y : ℤ) → covered cover.new.items x y ≡ (covered cover.old.items x y || covers rect x y)) }
    ensures cover { All IsOnScreen cover.new.items }
{
    let mut whole = rect;
    while let Some(joint) = joint_of(cover, whole) {
        cover.swap_remove(joint.place);
        whole = joint.union;
    }
    cover.push(whole)?;
    Ok(())
}

/// A rect of a list that makes one rect with another.
#[derive(Clone, Copy)]
pub(crate) struct Joint {
    /// Its place in the list.
    pub(crate) place: usize,
    /// The rect that both make.
    pub(crate) union: Rect,
}

// The first rect of a list that makes one rect with another.
fn joint_of(cover: &[Rect], rect: Rect) -> Option<Joint>
    requires cover { All IsOnScreen cover.now }
    requires rect { IsOnScreen rect }
    ensures { IfSome result (λ joint. IsJoint cover.now rect joint) }
{
    for place in 0..cover.len() {
        if let Some(union) = union_of(cover[place], rect) {
            return Some(Joint { place, union });
        }
    }
    None
}

/// The number after a span.
pub(crate) fn end_of(at: i32, len: i32) -> i32
    requires start { pos 0 ≤ℤ at }
    requires end { (at +ℤ len) ≤ℤ pos 2048 }
    requires len { pos 0 ≤ℤ len }
    ensures { result ≡ at +ℤ len }
{
    at + len
}

/// Whether rects cover each point of some columns and rows.
pub(crate) fn are_rows_covered(left: i32, right: i32, top: i32, bottom: i32, cover: &[Rect]) -> bool
    requires { All IsOnScreen cover.now }
    ensures yes { IsTrue result → IsBlock cover.now left right top bottom }
    ensures no { result ≡ false → IsOpen cover.now left right top bottom }
{
    let mut y = top;
    while y < bottom {
        let Some(end) = covered_until(left, right, y, bottom, cover) else {
            return false;
        };
        y = end;
    }
    true
}

// A row up to which the columns are covered from a row on; None if a point of that row is not covered.
fn covered_until(left: i32, right: i32, y: i32, bottom: i32, cover: &[Rect]) -> Option<i32>
    requires some { y <ℤ bottom }
    requires cover { All IsOnScreen cover.now }
    ensures { MatchOption result (IsOpen cover.now left right y bottom) (λ end. (y <ℤ end) × (end ≤ℤ bottom) × IsBlock cover.now left right y end) }
{
    let mut x = left;
    let mut end = bottom;
    while x < right {
        let Some(rect) = rect_at(x, y, cover) else {
            return None;
        };
        x = end_of(rect.x, rect.w);
        end = end.min(end_of(rect.y, rect.h));
    }
    Some(end)
}

// A rect that covers a point.
fn rect_at(x: i32, y: i32, cover: &[Rect]) -> Option<Rect>
    requires { All IsOnScreen cover.now }
    ensures { MatchOption result (covered cover.now x y ≡ false) (λ rect. IsRectAt cover.now x y rect) }
{
    for rect in cover {
        if has_point(*rect, x, y) {
            return Some(*rect);
        }
    }
    None
}

// Whether a rect covers a point; its row is looked at first, as most rects of a list lie below: quads are gone through
// from the last to the first.
#[inline(always)]
#[tactic(auto, unfolding(geom::specs::Covers::within))]
fn has_point(rect: Rect, x: i32, y: i32) -> bool
    requires { IsSound rect }
    ensures { result ≡ covers rect x y }
{
    rect.y <= y && rect.contains(Point { x, y })
}
