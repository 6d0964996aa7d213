//! Where nodes are placed: translations, clips, and what is drawn at all.
//!
//! Each goes up the chain of a node from parent to parent. A parent was there before its child, so that the root is met.

ghost use Rattle.std.specs.Prelude.{◌≡◌, ◌*◌, ◌+ℤ◌, ◌-ℤ◌, Some, IfSome, FitsSigned};
ghost use Rattle.geom.specs.Covers.{IsSound};
ghost use Rattle.geom.specs.Gaps.{shifted};
ghost use Rattle.page_properties.specs.OffsetMap.{offset_at, AreOffsets, IsOffset};
ghost use Rattle.page_properties.specs.Placement.{both, clip_of, draws, own_translation, plus, scrolled, translation, IsWithin};
ghost use Rattle.page_properties.specs.Trees.{AreClips, AreEffects, AreTransforms, IsClip, IsTransform};
ghost use mir.Syntax.{w32};

use crate::family::Family;
use crate::nodes::{ClipNode, EffectNode, TransformNode};
use crate::offsets::Offsets;
use crate::tables::clip_by_table;
use geom::{Point, Rect};

/// The translation of a transform; (0, 0) for the root.
pub fn translation_in(nodes: &Family<TransformNode>, mut transform: u32, offsets: &Offsets) -> Point
    requires family { AreTransforms nodes.now }
    requires offsets { AreOffsets (offset_at offsets.now) }
    ensures value { result ≡ translation (offset_at offsets.now) nodes.now transform }
    ensures near { IsWithin (256 * 1114112) result }
{
    let mut sum = Point { x: 0, y: 0 };
    while let Some(node) = nodes.get(transform) {
        sum = node.added_to(sum, offsets);
        transform = node.parent;
    }
    sum
}

impl TransformNode {
    /// A translation, with this transform's own added to it: its place, minus the offset of the scroller that it names.
    pub fn added_to(&self, sum: Point, offsets: &Offsets) -> Point
        requires near { IsWithin (256 * 1114112) sum }
        requires in_range { IsTransform self.now }
        requires offsets { AreOffsets (offset_at offsets.now) }
        ensures { result ≡ plus sum (own_translation (offset_at offsets.now) self.now) }
    {
        let offset = scroll_offset(offsets, self.scroller);
        let x = added(sum.x, self.x, offset.x);
        let y = added(sum.y, self.y, offset.y);
        Point { x, y }
    }
}

// The offset of a scroller that a transform names; (0, 0) if it names none.
fn scroll_offset(offsets: &Offsets, scroller: u32) -> Point
    requires { AreOffsets (offset_at offsets.now) }
    ensures value { result ≡ scrolled (offset_at offsets.now) scroller }
    ensures in_range { IsOffset result }
{
    if scroller == 0 {
        Point { x: 0, y: 0 }
    } else {
        offsets.get(scroller)
    }
}

// A coordinate of a sum, with that of a place after an offset added.
fn added(sum: i32, at: i32, offset: i32) -> i32
    requires own { FitsSigned w32 (at -ℤ offset) }
    requires all { FitsSigned w32 (sum +ℤ (at -ℤ offset)) }
    ensures { result ≡ sum +ℤ (at -ℤ offset) }
{
    sum + (at - offset)
}

// How many clips of a chain are placed without a table: for so few it costs more than it saves.
const FEW_CLIPS: u32 = 4;

/// The clip of a clip node; None if `clip` is the root.
pub fn clip_in(
    nodes: &Family<ClipNode>,
    transforms: &Family<TransformNode>,
    mut clip: u32,
    offsets: &Offsets,
) -> Option<Rect>
    requires family { AreClips nodes.now }
    requires transforms { AreTransforms transforms.now }
    requires offsets { AreOffsets (offset_at offsets.now) }
    ensures value { result ≡ clip_of (offset_at offsets.now) transforms.now nodes.now clip }
    ensures sound { IfSome result IsSound }
{
    let mut inner = None;
    for _ in 0..FEW_CLIPS {
        let Some(node) = nodes.get(clip) else {
            return inner;
        };
        let by = translation_in(transforms, node.transform, offsets);
        inner = Some(narrowed(node, by, inner));
        clip = node.parent;
    }
    clip_by_table(nodes, transforms, clip, offsets, inner)
}

/// The part of a moved clip that the clips below it leave.
pub(crate) fn narrowed(node: &ClipNode, by: Point, inner: Option<Rect>) -> Rect
    requires in_range { IsClip node.now }
    requires near { IsWithin (256 * 1114112) by }
    requires inner_sound { IfSome inner IsSound }
    ensures value { Some result ≡ both (Some (shifted node.now.rect by)) inner }
    ensures sound { IsSound result }
{
    let moved = node.rect.shift(by);
    match inner {
        Some(inner) => moved.intersect(inner),
        None => moved,
    }
}

/// Whether neither an effect nor one above it has opacity 0.
pub fn draws_in(nodes: &Family<EffectNode>, mut effect: u32) -> bool
    requires { AreEffects nodes.now }
    ensures { result ≡ draws nodes.now effect }
{
    while let Some(node) = nodes.get(effect) {
        if node.opacity == 0 {
            return false;
        }
        effect = node.parent;
    }
    true
}
