//! The bin and the rank of one tile in one tree.

ghost use Rattle.std.specs.Prelude.{◌≡◌, ◌↔◌, true, IsTrue, IsNone, None};
ghost use Rattle.geom.specs.Covers.{IsSound};
ghost use Rattle.geom.specs.Common.{Meet};
ghost use Rattle.tile_priority.specs.Bins.{bin_at, bin_of, rank_of};
ghost use Rattle.tile_priority.specs.Bins as bins;

use crate::rank::{Bin, Rank, Side};
use crate::tree_priority::TreePriority;
use geom::{Rect, TileKey};

/// By what the tiles of one tree are ranked.
#[derive(Clone, Copy, PartialEq, Eq, Debug)]
pub struct Borders {
    /// The viewport of this tree, in screen pixels.
    pub viewport: Rect,
    /// Up to which distance a tile is SOON, in pixels.
    pub soon: u32,
    /// Up to which distance a tile is EVENTUALLY, in pixels.
    pub eventually: u32,
    /// Which of the two trees comes first.
    pub priority: TreePriority,
}

/// How a tile is seen in a tree.
#[derive(Clone, Copy, PartialEq, Eq, Debug)]
pub struct Seen {
    /// The rect of the tile, in screen pixels.
    pub screen: Rect,
    /// The clip of its layer, cut by the viewport.
    pub clip: Rect,
    /// No effect of its layer's chain has opacity 0.
    pub draws: bool,
}

/// Whether a pixel of the tile shows.
pub fn is_visible(seen: &Seen) -> bool
    requires screen { IsSound seen.now.screen }
    requires clip { IsSound seen.now.clip }
    ensures points { IsTrue result ↔ ((seen.now.draws ≡ true) × Meet seen.now.screen seen.now.clip) }
    ensures value { result ≡ bins.is_visible seen.now }
{
    seen.draws && seen.screen.touches(seen.clip)
}

/// The rank of the tile with this key in the tree of this side; None exactly if the tile has no bin: it
/// is not visible, and further from the viewport than the eventually border.
pub fn rank_in(borders: &Borders, side: Side, seen: &Seen, key: TileKey) -> Option<Rank>
    requires viewport { IsSound borders.now.viewport }
    requires screen { IsSound seen.now.screen }
    requires clip { IsSound seen.now.clip }
    ensures none { IsNone result ↔ (bin_of borders.now seen.now ≡ None) }
    ensures value { result ≡ rank_of borders.now side seen.now key }
{
    let distance = seen.screen.distance(borders.viewport);
    let bin = if is_visible(seen) {
        Bin::Now
    } else {
        bin_at(borders, distance)?
    };
    let tree = tree_number(borders.priority, side);
    Some(Rank {
        bin,
        tree,
        distance,
        key,
    })
}

// The bin of a tile that is not visible, by its distance to the viewport.
fn bin_at(borders: &Borders, distance: u32) -> Option<Bin>
    ensures { result ≡ bin_at borders.now distance }
{
    if distance <= borders.soon {
        Some(Bin::Soon)
    } else if distance <= borders.eventually {
        Some(Bin::Eventually)
    } else {
        None
    }
}

// 0 if the tiles of this tree come first or both trees are alike, else 1
fn tree_number(priority: TreePriority, side: Side) -> u8
    ensures { result ≡ bins.tree_number priority side }
{
    match (priority, side) {
        (TreePriority::Smooth, Side::Pending) | (TreePriority::New, Side::Active) => 1,
        _ => 0,
    }
}
