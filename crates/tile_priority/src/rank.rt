//! Bins, and the ranks by which tiles are chosen.

ghost use Rattle.std.specs.Prelude.{◌≡◌, ◌↔◌, IsNone};
ghost use Rattle.tile_priority.specs.Ranks.{bin_number};
ghost use Rattle.tile_priority.specs.Ranks as ranks;
ghost use Rattle.tile_priority.specs.Choice as choosing;

use geom::TileKey;
use std::cmp::Ordering;

/// How soon a tile is needed. Earlier ones come first.
#[derive(Clone, Copy, PartialEq, Eq, Debug)]
pub enum Bin {
    /// The tile is visible.
    Now,
    /// The tile is not visible, and its distance to the viewport is at most the soon border.
    Soon,
    /// The tile is further away than that, and its distance is at most the eventually border.
    Eventually,
}

impl Bin {
    // The place of the bin in the order.
    fn number(self) -> u8
        ensures { result ≡ bin_number self }
    {
        match self {
            Bin::Now => 0,
            Bin::Soon => 1,
            Bin::Eventually => 2,
        }
    }

    /// Whether it is the bin of visible tiles.
    pub fn is_now(self) -> bool
        ensures { result ≡ choosing.is_now self }
    {
        match self {
            Bin::Now => true,
            Bin::Soon | Bin::Eventually => false,
        }
    }
}

impl Ord for Bin {
    ghost use Rattle.std.proofs.Common.{rules};
    ghost use Rattle.std.specs.Cmp.Rules.{comparing};
    ghost use Rattle.tile_priority.specs.Ranks.{bin_cmp};

    ghost cmp = { bin_cmp };

    ghost total = { Prim.search (comparing, rules) depth 9 };

    ghost matches_partial_cmp = { Prim.search (comparing, rules) depth 9 };

    ghost matches_eq = { Prim.search (comparing, rules) depth 9 };

    fn cmp(&self, other: &Bin) -> Ordering {
        self.number().cmp(&other.number())
    }
}

impl PartialOrd for Bin {
    ghost use Rattle.std.proofs.Common.{rules};
    ghost use Rattle.std.specs.Cmp.{partial_order_from_own_ties};
    ghost use Rattle.std.specs.Cmp.Rules.{comparing};
    ghost use Rattle.std.specs.Ordering.{as_partial_cmp};
    ghost use Rattle.tile_priority.specs.Ranks.{bin_cmp};

    ghost partial_cmp = { as_partial_cmp bin_cmp };

    ghost laws = { partial_order_from_own_ties (Prim.search (comparing, rules) depth 9) (Prim.search (comparing, rules) depth 9) };

    fn partial_cmp(&self, other: &Bin) -> Option<Ordering> {
        Some(self.cmp(other))
    }
}

/// Which of the two trees.
#[derive(Clone, Copy, PartialEq, Eq, Debug)]
pub enum Side {
    /// The tree that is drawn.
    Active,
    /// The tree that was committed and is not drawn yet.
    Pending,
}

/// How good a tile's claim is in a tree. Ranks are ordered by bin, tree, distance and key; the least is
/// the best.
#[derive(Clone, Copy, PartialEq, Eq, Debug)]
pub struct Rank {
    /// How soon the tile is needed.
    pub bin: Bin,
    /// 0 if the tree's tiles come first or both trees are alike, else 1
    pub tree: u8,
    /// How far the tile lies from the tree's viewport, in pixels.
    pub distance: u32,
    /// The key of the tile.
    pub key: TileKey,
}

impl Ord for Rank {
    ghost use Rattle.std.proofs.Common.{rules};
    ghost use Rattle.std.specs.Cmp.Rules.{comparing};
    ghost use Rattle.tile_priority.specs.Ranks.{rank_cmp};

    ghost cmp = { rank_cmp };

    ghost total = { Prim.search (comparing, rules) depth 12 };

    ghost matches_partial_cmp = { Prim.search (comparing, rules) depth 12 };

    ghost matches_eq = { Prim.search (comparing, rules) depth 12 };

    fn cmp(&self, other: &Rank) -> Ordering {
        let near = self
            .distance
            .cmp(&other.distance)
            .then(self.key.cmp(&other.key));
        self.bin
            .cmp(&other.bin)
            .then(self.tree.cmp(&other.tree).then(near))
    }
}

impl PartialOrd for Rank {
    ghost use Rattle.std.proofs.Common.{rules};
    ghost use Rattle.std.specs.Cmp.{partial_order_from_own_ties};
    ghost use Rattle.std.specs.Cmp.Rules.{comparing};
    ghost use Rattle.std.specs.Ordering.{as_partial_cmp};
    ghost use Rattle.tile_priority.specs.Ranks.{rank_cmp};

    ghost partial_cmp = { as_partial_cmp rank_cmp };

    ghost laws = { partial_order_from_own_ties (Prim.search (comparing, rules) depth 12) (Prim.search (comparing, rules) depth 12) };

    fn partial_cmp(&self, other: &Rank) -> Option<Ordering> {
        Some(self.cmp(other))
    }
}

/// The better of two ranks, each of which may be missing; None exactly if both are missing.
pub fn least(a: Option<Rank>, b: Option<Rank>) -> Option<Rank>
    ensures none { IsNone result ↔ (IsNone a × IsNone b) }
    ensures value { result ≡ ranks.least a b }
{
    match (a, b) {
        (Some(a), Some(b)) => Some(if b < a { b } else { a }),
        (Some(a), None) => Some(a),
        (None, b) => b,
    }
}

/// Whether a tile of this rank is visible. One that has no rank is not.
pub fn is_visible_rank(rank: Option<Rank>) -> bool
    ensures { result ≡ choosing.is_visible_rank rank }
{
    match rank {
        None => false,
        Some(rank) => rank.bin.is_now(),
    }
}
