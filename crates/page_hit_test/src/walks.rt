//! What holds of a node by those above it: where a transform stands, whether a clip lets a point through, whether
//! an effect is drawn. Each call looks a node up once, unless its table tells of it, so that the layers of a page
//! ask for each node once.

ghost use Rattle.std.specs.Prelude.{◌≡◌, ◌==◌, ◌&&◌, not, ◌*◌};
ghost use Rattle.geom.specs.Covers.{covers};
ghost use Rattle.geom.specs.Gaps.{shifted};
ghost use Rattle.page_properties.specs.OffsetMap.{offset_at, AreOffsets};
ghost use Rattle.page_properties.specs.Placement as placement;
ghost use Rattle.page_properties.specs.Placement.{IsWithin};
ghost use Rattle.page_properties.specs.Trees.{IsTrees, IsClip};
ghost use Rattle.page_properties.specs.inner.Tables.{IsTable};
ghost use Rattle.page_hit_test.specs.inner.Found.{is_open_at};

use crate::found::{found, keep};
use geom::Point;
use page_properties::{ClipNode, EffectNode, Offsets, PropertyTrees};

/// The translation of a transform.
pub(crate) fn translation(
    props: &PropertyTrees,
    offsets: &Offsets,
    places: &mut [(u32, Point)],
    transform: u32,
) -> Point
    requires trees { IsTrees props.now }
    requires offsets { AreOffsets (offset_at offsets.now) }
    requires places { IsTable (placement.translation (offset_at offsets.now) props.now.transforms) places.old }
    ensures value { result ≡ placement.translation (offset_at offsets.now) props.now.transforms transform }
    ensures places { IsTable (placement.translation (offset_at offsets.now) props.now.transforms) places.new }
{
    if let Some(place) = found(places, transform) {
        return place;
    }
    let Some(node) = props.transform(transform) else {
        return Point { x: 0, y: 0 };
    };
    let above = translation(props, offsets, places, node.parent);
    let place = node.added_to(above, offsets);
    keep(places, transform, place);
    place
}

// Whether a clip's own rect, moved, covers a point.
fn is_in_rect(node: &ClipNode, by: Point, p: Point) -> bool
    requires in_range { IsClip node.now }
    requires near { IsWithin (256 * 1114112) by }
    ensures { result ≡ covers (shifted node.now.rect by) p.x p.y }
{
    let moved = node.rect.shift(by);
    moved.contains(p)
}

// Whether both hold.
fn are_both(first: bool, second: bool) -> bool
    ensures { result ≡ first && second }
{
    first && second
}

/// Whether the clip of a clip node lets a point through.
pub(crate) fn is_let_through(
    props: &PropertyTrees,
    offsets: &Offsets,
    p: Point,
    places: &mut [(u32, Point)],
    clips: &mut [(u32, bool)],
    clip: u32,
) -> bool
    requires trees { IsTrees props.now }
    requires offsets { AreOffsets (offset_at offsets.now) }
    requires places { IsTable (placement.translation (offset_at offsets.now) props.now.transforms) places.old }
    requires clips { IsTable (is_open_at (offset_at offsets.now) props.now p) clips.old }
    ensures value { result ≡ is_open_at (offset_at offsets.now) props.now p clip }
    ensures places { IsTable (placement.translation (offset_at offsets.now) props.now.transforms) places.new }
    ensures clips { IsTable (is_open_at (offset_at offsets.now) props.now p) clips.new }
{
    if let Some(is_open) = found(clips, clip) {
        return is_open;
    }
    let Some(node) = props.clip(clip) else {
        return true;
    };
    let above = is_let_through(props, offsets, p, places, clips, node.parent);
    let by = translation(props, offsets, places, node.transform);
    let own = is_in_rect(node, by, p);
    let is_open = are_both(above, own);
    keep(clips, clip, is_open);
    is_open
}

// Whether an effect is drawn if what is above it is or is not.
fn is_visible(node: &EffectNode, above: bool) -> bool
    ensures { result ≡ not (node.now.opacity == 0) && above }
{
    node.opacity != 0 && above
}

/// Whether neither an effect nor one above it has opacity 0.
pub(crate) fn is_drawn(props: &PropertyTrees, effects: &mut [(u32, bool)], effect: u32) -> bool
    requires trees { IsTrees props.now }
    requires effects { IsTable (placement.draws props.now.effects) effects.old }
    ensures value { result ≡ placement.draws props.now.effects effect }
    ensures effects { IsTable (placement.draws props.now.effects) effects.new }
{
    if let Some(is_drawn) = found(effects, effect) {
        return is_drawn;
    }
    let Some(node) = props.effect(effect) else {
        return true;
    };
    let above = is_drawn(props, effects, node.parent);
    let drawn = is_visible(node, above);
    keep(effects, effect, drawn);
    drawn
}
