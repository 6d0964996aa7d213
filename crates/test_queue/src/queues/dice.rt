//! Ranks and ready tiles that look random.

ghost use Rattle.std.specs.Prelude.{◌≡◌};

use geom::TileKey;
use test_table::Dice;
use tile_priority::{Bin, Rank, ReadyTile};

/// A bin.
fn bin(dice: &mut Dice) -> Bin {
    match dice.below(3) {
        0 => Bin::Now,
        1 => Bin::Soon,
        _ => Bin::Eventually,
    }
}

/// A rank of a key. Bins and distances are few, so that many ranks differ in the key alone.
pub(crate) fn rank(dice: &mut Dice, key: TileKey) -> Rank
    ensures { result.key ≡ key }
{
    Rank {
        bin: bin(dice),
        tree: if dice.below(2) == 0 { 0 } else { 1 },
        distance: dice.below(3),
        key,
    }
}

/// A ready tile of a key: one of five has no rank, and one of five is pinned.
pub(crate) fn tile(dice: &mut Dice, key: TileKey) -> ReadyTile {
    let pinned = dice.below(5) == 0;
    let rank = if dice.below(5) == 0 {
        None
    } else {
        Some(rank(dice, key))
    };
    ReadyTile { key, rank, pinned }
}
