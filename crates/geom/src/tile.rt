//! The places and keys of tiles.

use std::cmp::Ordering;

/// A tile's place in its layer: column `x` and row `y`, both from 0.
#[derive(Clone, Copy, PartialEq, Eq, Debug)]
pub struct Place {
    /// The column.
    pub x: u32,
    /// The row.
    pub y: u32,
}

/// Names one picture of a tile: its layer, its place there, and the commit that last changed what
/// it shows.
///
/// Keys are ordered by layer, row, column and stamp.
#[derive(Clone, Copy, PartialEq, Eq, Debug)]
pub struct TileKey {
    /// The layer's number.
    pub layer: u32,
    /// The column of the place.
    pub x: u32,
    /// The row of the place.
    pub y: u32,
    /// The number of the commit that last changed what the tile shows.
    pub stamp: u32,
}

impl Ord for TileKey {
    ghost use Rattle.std.proofs.Common.{rules};
    ghost use Rattle.std.specs.Cmp.Rules.{comparing};
    ghost use Rattle.geom.specs.KeyOrder.{key_cmp};

    ghost cmp = { key_cmp };

    ghost total = { Prim.search (comparing, rules) depth 9 };

    ghost matches_partial_cmp = { Prim.search (comparing, rules) depth 9 };

    ghost matches_eq = { Prim.search (comparing, rules) depth 9 };

    fn cmp(&self, other: &TileKey) -> Ordering {
        let place = self
            .y
            .cmp(&other.y)
            .then(self.x.cmp(&other.x).then(self.stamp.cmp(&other.stamp)));
        self.layer.cmp(&other.layer).then(place)
    }
}

impl PartialOrd for TileKey {
    ghost use Rattle.std.proofs.Common.{rules};
    ghost use Rattle.std.specs.Cmp.{partial_order_from_own_ties};
    ghost use Rattle.std.specs.Cmp.Rules.{comparing};
    ghost use Rattle.std.specs.Ordering.{as_partial_cmp};
    ghost use Rattle.geom.specs.KeyOrder.{key_cmp};

    ghost partial_cmp = { as_partial_cmp key_cmp };

    ghost laws = { partial_order_from_own_ties (Prim.search (comparing, rules) depth 9) (Prim.search (comparing, rules) depth 9) };

    fn partial_cmp(&self, other: &TileKey) -> Option<Ordering> {
        Some(self.cmp(other))
    }
}
