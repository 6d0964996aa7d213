//! What the scrollers under a point take of a wheel, and what they leave.

ghost use Rattle.std.specs.Prelude.{◌≡◌, ◌≤◌, ◌^◌, ℤ, pos, ◌+ℤ◌, ◌-ℤ◌, ◌≤ℤ◌, map, IfOk, Some};
ghost use Rattle.page_properties.specs.OffsetMap.{offset_at};
ghost use Rattle.page_layers.specs.Axes.{across, down};
ghost use Rattle.page_layers.specs.Scrolls.{clamp_to as clamp, IsInRange};
ghost use Rattle.page_layers.specs.Wheels as spec;
ghost use Rattle.page_hit_test.specs.Wheels.{part_move, AreWithinRanges, IsAmount, IsWheel};

use crate::chains::chain;
use crate::parts::{WheelParts, push_moving};
use crate::targets::{back, target};
use geom::Point;
use page_layers::LayerTree;
use page_properties::{Offsets, ScrollNode};
use std::alloc::{AllocError, Global};

/// What a wheel at a point of the screen does.
pub struct Wheel {
    /// The layer that it hits; 0 if there is none.
    pub target: u32,
    /// What the scrollers of its chain take, the nearest first; no part is (0, 0).
    pub parts: WheelParts,
    /// What none of them takes.
    pub rest: Point,
}

// Written out, since a derived drop is proved anew, field by field, in each function that lets one go.
impl Drop for Wheel {
    fn drop(self) {
        let Wheel {
            target: _,
            parts: _,
            rest: _,
        } = self;
    }
}

// A number clamped to a range from 0 to its end.
#[tactic(auto, unfolding(page_layers::specs::Scrolls::clamp_to))]
fn clamp_to(most: u32, value: i32) -> i32
    requires { most ≤ 2 ^ 20 }
    ensures value { result ≡ clamp most value }
    ensures low { pos 0 ≤ℤ result }
    ensures high { result ≤ℤ pos (2 ^ 20) }
{
    value.min(most as i32).max(0)
}

// How far a number moves if this much is asked, in a range with this end.
fn moved_within(most: u32, at: i32, asked: i32) -> i32
    requires range { most ≤ 2 ^ 20 }
    requires low { pos 0 ≤ℤ at }
    requires high { at ≤ℤ pos most }
    requires amount { IsAmount asked }
    ensures value { result ≡ clamp most (at +ℤ asked) -ℤ at }
    ensures left { IsAmount (asked -ℤ result) }
{
    let to = clamp_to(most, at + asked);
    back(to, at)
}

// A coordinate of a point.
fn x_of(p: Point) -> i32
    ensures { result ≡ p.x }
{
    p.x
}

// The other coordinate.
fn y_of(p: Point) -> i32
    ensures { result ≡ p.y }
{
    p.y
}

// What a scroller that stands at a point of its range takes of an amount along each axis.
fn taken_by(node: &ScrollNode, at: Point, asked_x: i32, asked_y: i32) -> Point
    requires range_x { IsInRange node.now.max_x at.x }
    requires range_y { IsInRange node.now.max_y at.y }
    requires across { IsAmount asked_x }
    requires down { IsAmount asked_y }
    ensures x { result.x ≡ clamp node.now.max_x (at.x +ℤ asked_x) -ℤ at.x }
    ensures y { result.y ≡ clamp node.now.max_y (at.y +ℤ asked_y) -ℤ at.y }
    ensures left_x { IsAmount (asked_x -ℤ result.x) }
    ensures left_y { IsAmount (asked_y -ℤ result.y) }
{
    let x = moved_within(node.max_x, x_of(at), asked_x);
    let y = moved_within(node.max_y, y_of(at), asked_y);
    Point { x, y }
}

// What a scroller takes of an amount along each axis.
fn taken(tree: &LayerTree, offsets: &Offsets, scroller: u32, asked_x: i32, asked_y: i32) -> Point
    requires ranges { AreWithinRanges tree.now (offset_at offsets.now) }
    requires across { IsAmount asked_x }
    requires down { IsAmount asked_y }
    ensures x { result.x ≡ spec.takes_at tree.now (offset_at offsets.now) scroller across asked_x }
    ensures y { result.y ≡ spec.takes_at tree.now (offset_at offsets.now) scroller down asked_y }
    ensures left_x { IsAmount (asked_x -ℤ result.x) }
    ensures left_y { IsAmount (asked_y -ℤ result.y) }
{
    let Some(node) = tree.props().scroller(scroller) else {
        return Point { x: 0, y: 0 };
    };
    taken_by(node, offsets.get(scroller), asked_x, asked_y)
}

// What the scrollers of a chain take in turn, and what they leave. An error means out of memory.
fn parts_along(
    alloc: Global,
    tree: &LayerTree,
    offsets: &Offsets,
    chain: &[u32],
    asked_x: i32,
    asked_y: i32,
) -> Result<(WheelParts, Point), AllocError>
    requires ranges { AreWithinRanges tree.now (offset_at offsets.now) }
    requires across { IsAmount asked_x }
    requires down { IsAmount asked_y }
    ensures parts { IfOk result (λ r. map part_move r.0 ≡ spec.chain_parts (spec.takes_at tree.now (offset_at offsets.now)) chain.now asked_x asked_y) }
    ensures rest_x { IfOk result (λ r. r.1.x ≡ spec.chain_rest (spec.takes_at tree.now (offset_at offsets.now)) across chain.now asked_x) }
    ensures rest_y { IfOk result (λ r. r.1.y ≡ spec.chain_rest (spec.takes_at tree.now (offset_at offsets.now)) down chain.now asked_y) }
{
    let mut parts = WheelParts::new(alloc);
    let mut left_x = asked_x;
    let mut left_y = asked_y;
    for &scroller in chain {
        let by = taken(tree, offsets, scroller, left_x, left_y);
        push_moving(&mut parts, scroller, by.x, by.y)?;
        left_x -= by.x;
        left_y -= by.y;
    }
    Ok((
        parts,
        Point {
            x: left_x,
            y: left_y,
        },
    ))
}

/// What a wheel of this much at a point of the screen does: the layer that it hits, and what the scrollers
/// of its chain take in turn. Each offset is in its scroller's range, and at most 1048576 is asked along
/// each axis, in either direction. An error means out of memory.
pub fn wheel_parts(
    alloc: Global,
    tree: &LayerTree,
    offsets: &Offsets,
    p: Point,
    asked: Point,
) -> Result<Wheel, AllocError>
    requires ranges { AreWithinRanges tree.now (offset_at offsets.now) }
    requires across { IsAmount asked.x }
    requires down { IsAmount asked.y }
    ensures { IfOk result (IsWheel tree.now (offset_at offsets.now) p.x p.y asked.x asked.y) }
{
    let target = target(tree, offsets, p);
    let chain = chain(alloc, tree, target)?;
    let (parts, rest) = parts_along(alloc, tree, offsets, chain.as_slice(), asked.x, asked.y)?;
    Ok(Wheel {
        target,
        parts,
        rest,
    })
}
