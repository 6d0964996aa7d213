//! Long chains of clips. Each clip has a transform; a table of where transforms stand saves going up from one twice.
//!
//! A table has 256 entries, each an id and where that transform stands; at first each is the root's. The entry of a
//! transform is at its place in the family, so that no two transforms share one.

ghost use Rattle.std.specs.Prelude.{◌≡◌, ◌<◌, ◌*◌, ℕ, length, IfSome};
ghost use Rattle.geom.specs.declared.rect.Point.{Point as Place};
ghost use Rattle.geom.specs.Covers.{IsSound};
ghost use Rattle.page_properties.specs.OffsetMap.{offset_at, origin, AreOffsets};
ghost use Rattle.page_properties.specs.Placement.{both, clip_of, translation, IsWithin};
ghost use Rattle.page_properties.specs.Trees.{AreClips, AreTransforms};
ghost use Rattle.page_properties.specs.inner.Tables.{IsTable};

use crate::family::Family;
use crate::nodes::{ClipNode, TransformNode};
use crate::offsets::Offsets;
use crate::placement::narrowed;
use geom::{Point, Rect};

// A table that knows where the root stands.
fn root_table() -> [(u32, Point); 256]
    ensures { (f : ℕ → Place) → f 0 ≡ origin → IsTable f result }
{
    [(0, Point { x: 0, y: 0 }); 256]
}

// Where the transform of an id stands, if the entry at this place tells.
fn found(table: &[(u32, Point)], place: usize, id: u32) -> Option<Point>
    requires { place < length table.now }
    ensures { (f : ℕ → Place) → IsTable f table.now → IfSome result (λ p. p ≡ f id) }
{
    let entry = table[place];
    if entry.0 == id { Some(entry.1) } else { None }
}

// Keeps where the transform of an id stands.
fn keep(table: &mut [(u32, Point)], place: usize, id: u32, found: Point)
    requires { place < length table.old }
    ensures { (f : ℕ → Place) → IsTable f table.old → found ≡ f id → IsTable f table.new }
{
    table[place] = (id, found);
}

// The translation of a transform, (0, 0) for the root. The table then tells of it, and of those above it.
fn translation_by_table(
    nodes: &Family<TransformNode>,
    transform: u32,
    offsets: &Offsets,
    table: &mut [(u32, Point)],
) -> Point
    requires family { AreTransforms nodes.now }
    requires offsets { AreOffsets (offset_at offsets.now) }
    requires table { IsTable (translation (offset_at offsets.now) nodes.now) table.old }
    ensures value { result ≡ translation (offset_at offsets.now) nodes.now transform }
    ensures near { IsWithin (256 * 1114112) result }
    ensures table { IsTable (translation (offset_at offsets.now) nodes.now) table.new }
{
    let Some((place, node)) = nodes.entry(transform) else {
        return Point { x: 0, y: 0 };
    };
    if let Some(sum) = found(table, place, transform) {
        return sum;
    }
    let above = translation_by_table(nodes, node.parent, offsets, table);
    let sum = node.added_to(above, offsets);
    keep(table, place, transform, sum);
    sum
}

/// The common part of the clip of a clip node and of what the clips below it leave.
#[inline(never)]
pub(crate) fn clip_by_table(
    nodes: &Family<ClipNode>,
    transforms: &Family<TransformNode>,
    mut clip: u32,
    offsets: &Offsets,
    below: Option<Rect>,
) -> Option<Rect>
    requires family { AreClips nodes.now }
    requires transforms { AreTransforms transforms.now }
    requires offsets { AreOffsets (offset_at offsets.now) }
    requires below { IfSome below IsSound }
    ensures value { result ≡ both (clip_of (offset_at offsets.now) transforms.now nodes.now clip) below }
    ensures sound { IfSome result IsSound }
{
    let mut table = root_table();
    let mut inner = below;
    while let Some(node) = nodes.get(clip) {
        let by = translation_by_table(transforms, node.transform, offsets, &mut table);
        inner = Some(narrowed(node, by, inner));
        clip = node.parent;
    }
    inner
}
