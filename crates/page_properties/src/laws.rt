//! Laws of placement, which do nothing when they run.

ghost use Rattle.page_properties.specs.Laws.{FollowTheParent};

/// What is known of a node follows from its parent: its translation is its parent's plus its own
/// place, minus the offset of its scroller; its clip is what its parent's clip leaves of its own
/// rect; it is drawn if its parent is and its own opacity is not 0. The root is at (0, 0),
/// restricts nothing and is drawn.
pub fn nodes_follow_their_parents()
    ensures { FollowTheParent }
{}
