//! The ready tiles that may be evicted, the worst first.

ghost use Rattle.std.specs.Prelude.{◌≡◌, ◌<◌, false};
ghost use Rattle.tile_queue.specs.inner.Orders.{stays};
ghost use Rattle.tile_queue.specs.inner.Evictables.{tile_of, key_of, is_worse_than};

use crate::ranked::front_of;
use geom::TileKey;
use std::cmp::Reverse;
use tile_priority::{Bin, Rank, ReadyTile};

/// A ready tile that may be evicted, by what orders it: the worst comes first. Tiles without a rank come
/// before the others, by falling key; those follow by falling rank.
#[derive(Clone, Copy, PartialEq, Eq, PartialOrd, Ord, Debug)]
pub(crate) enum Evictable {
    /// It has no bin in either tree.
    Unranked(Reverse<TileKey>),
    /// It has this rank.
    Ranked(Reverse<Rank>),
}

impl Evictable {
    /// A ready tile that may be evicted, as the choice orders it.
    pub(crate) fn of(tile: &ReadyTile) -> Evictable
        ensures { stays tile.now ≡ false → tile_of result ≡ tile.now }
    {
        match tile.rank {
            None => Evictable::Unranked(Reverse(tile.key)),
            Some(rank) => Evictable::Ranked(Reverse(rank)),
        }
    }

    /// The key of the tile.
    pub(crate) fn key(&self) -> TileKey
        ensures { result ≡ key_of self.now }
    {
        match self {
            Evictable::Unranked(key) => key.0,
            Evictable::Ranked(rank) => rank.0.key,
        }
    }

    // What orders most evictable tiles, in one number.
    pub(crate) fn front(&self) -> u64
        ensures { result < 4398046511104 }
    {
        match self {
            Evictable::Unranked(_) => 0,
            Evictable::Ranked(rank) => 4398046511103 - front_of(&rank.0),
        }
    }

    /// Whether the tile may be evicted for one of this bin: its own is worse, or it has none.
    pub(crate) fn gives_way(&self, bin: Bin) -> bool
        ensures { result ≡ is_worse_than bin self.now }
    {
        match self {
            Evictable::Unranked(_) => true,
            Evictable::Ranked(rank) => rank.0.bin > bin,
        }
    }
}
