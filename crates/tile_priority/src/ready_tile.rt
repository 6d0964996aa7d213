//! A tile whose picture is there.

use crate::rank::Rank;
use geom::TileKey;
use std::marker::Model;

/// A tile whose picture is there, with its present rank, if it has one, and whether the picture must stay.
/// A rank that it has is of its key.
#[derive(Clone, Copy, PartialEq, Eq, Debug)]
pub struct ReadyTile {
    /// The key of the tile.
    pub key: TileKey,
    /// Its rank; None if it has no bin in either tree.
    pub rank: Option<Rank>,
    /// The tile was required when the active tree was activated, so it is never evicted.
    pub pinned: bool,
}

impl Model for ReadyTile {
    ghost use Rattle.tile_priority.specs.Tiles.{Tile, IsRankOfKey};

    ghost Value = { Tile };

    ghost view = { λ t. record { key = t.key; rank = t.rank; pinned = t.pinned } };

    ghost invariant = { λ t. IsRankOfKey t.key t.rank };

    ghost inverse = { λ t. record { key = t.key; rank = t.rank; pinned = t.pinned } };
}
