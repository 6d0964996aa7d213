//! A ready tile, by its ranks in two trees.

ghost use Rattle.std.specs.Prelude.{◌≡◌};
ghost use Rattle.tile_priority.specs.Ranks as ranks;
ghost use Rattle.tile_priority.specs.Tiles.{IsRankOfKey};

use geom::TileKey;
use tile_priority::{Rank, ReadyTile, least};

/// A ready tile with the better of its ranks in an active and a pending tree, and whether it must stay.
pub(crate) fn ready_tile(
    key: TileKey,
    in_active: Option<Rank>,
    in_pending: Option<Rank>,
    pinned: bool,
) -> ReadyTile
    requires active { IsRankOfKey key in_active }
    requires pending { IsRankOfKey key in_pending }
    ensures { result ≡ record { key = key; rank = ranks.least in_active in_pending; pinned = pinned } }
{
    ReadyTile {
        key,
        rank: least(in_active, in_pending),
        pinned,
    }
}
