//! Ranks of tiles worked by hand.

ghost use Rattle.std.specs.Prelude.{pos, ◌≤ℤ◌};
ghost use Rattle.geom.specs.Covers.{IsSound};

use geom::{Rect, TileKey};
use test_table::Checks;
use tile_priority::{Bin, Borders, Rank, Seen, Side, TreePriority, is_visible, least, rank_in};

/// The tile.
const KEY: TileKey = TileKey {
    layer: 1,
    y: 0,
    x: 0,
    stamp: 0,
};

/// Bins by the distance from the viewport, with borders at 16 and 32 pixels.
pub fn bins_by_distance(checks: &mut Checks) {
    let near = rank_at(32);
    checks.same("near", &near.map(|r| r.distance), &Some(16));
    checks.same("soon", &near.map(|r| r.bin), &Some(Bin::Soon));
    let further = rank_at(33);
    checks.same("further", &further.map(|r| r.distance), &Some(17));
    checks.same("later", &further.map(|r| r.bin), &Some(Bin::Eventually));
    checks.same("far", &rank_at(48).map(|r| r.distance), &Some(32));
    checks.same("too far", &rank_at(49), &None);
    checks.same("now", &rank_at(0).map(|r| r.bin), &Some(Bin::Now));
    checks.same("the least", &least(further, near), &near);
}

/// A tile that is clipped away is made soon.
pub fn clipped_away_is_soon(checks: &mut Checks) {
    let seen = Seen {
        screen: square(0),
        clip: Rect {
            x: 0,
            y: 0,
            w: 0,
            h: 0,
        },
        draws: true,
    };
    checks.holds("it is not seen", !is_visible(&seen));
    let rank = rank_in(&borders(), Side::Pending, &seen, KEY);
    let soon = Rank {
        bin: Bin::Soon,
        tree: 1,
        distance: 0,
        key: KEY,
    };
    checks.same("soon", &rank, &Some(soon));
}

/// The rank of a tile at this distance from the left.
fn rank_at(x: i32) -> Option<Rank>
    requires low { pos 0 ≤ℤ x }
    requires high { x ≤ℤ pos 100 }
{
    let seen = Seen {
        screen: square(x),
        clip: square(0),
        draws: true,
    };
    rank_in(&borders(), Side::Active, &seen, KEY)
}

/// A tile at this distance from the left.
fn square(x: i32) -> Rect
    requires low { pos 0 ≤ℤ x }
    requires high { x ≤ℤ pos 100 }
    ensures { IsSound result }
{
    Rect {
        x,
        y: 0,
        w: 16,
        h: 16,
    }
}

/// The viewport of one tile, and the borders around it.
fn borders() -> Borders
    ensures { IsSound result.viewport }
{
    Borders {
        viewport: square(0),
        soon: 16,
        eventually: 32,
        priority: TreePriority::Smooth,
    }
}
