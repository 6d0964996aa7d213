//! What is known of the frame and of the pages after scrolls.

ghost use Rattle.std.specs.Prelude.{◌≡◌, [], true, Some, map, IfSome, IsTrue};
ghost use Rattle.page_properties.specs.OffsetMap.{origin};
ghost use Rattle.page_hit_test.specs.Wheels.{part_move};

use geom::Point;
use page_hit_test::WheelPart;
use region::Region;
use std::alloc::Global;

/// Whether the frame shows the active page, if it does so outside of some rects, if they are known.
pub(crate) fn is_shown(unshown: &Option<Region>) -> bool
    ensures { IsTrue result → unshown.now ≡ Some [] }
{
    match unshown {
        Some(region) => region.rects().is_empty(),
        None => false,
    }
}

/// Where the pages may look otherwise after both took the same moves: nowhere, if they were one; else it is not known.
pub(crate) fn edited_after_moves(alloc: Global, is_committed: bool) -> Option<Region>
    ensures { IfSome result (λ rects. is_committed ≡ true) }
{
    if is_committed {
        return Some(Region::new(alloc));
    }
    None
}

/// Where the frame may not show the active page after a scroll by this much: where it did not, if nothing moved; else
/// it is not known.
pub(crate) fn unshown_after(unshown: Option<Region>, by: Point) -> Option<Region>
    ensures { IfSome result (λ rects. (unshown ≡ Some rects) × (by ≡ origin)) }
{
    let across = by.x == 0;
    let down = by.y == 0;
    if across && down {
        return unshown;
    }
    None
}

/// The same after a wheel with these parts.
pub(crate) fn unshown_after_parts(unshown: Option<Region>, parts: &[WheelPart]) -> Option<Region>
    ensures { IfSome result (λ rects. (unshown ≡ Some rects) × (map part_move parts.now ≡ [])) }
{
    if parts.is_empty() {
        return unshown;
    }
    None
}
