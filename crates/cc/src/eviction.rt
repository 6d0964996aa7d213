//! Dropping tiles that a draw did not use.

ghost use Rattle.std.specs.Prelude.{◌≡◌, nat_le, filter};
ghost use Rattle.cc.specs.KeptTiles.{AreKeptFor, AreCurrent};

use crate::kept_tile::KeptTile;
use page_layers::LayerTree;

// If tiles take too many bytes, those go first that none of the last 64 draws used, then those that none of the last
// 32 used, and so on.
const AGES: [u64; 7] = [64, 32, 16, 8, 4, 2, 0];

// How many bytes the rows of the tiles have that were last used before this draw.
fn unused_bytes(kept: &[KeptTile], draw: u64) -> usize {
    let mut bytes = 0usize;
    for one in kept {
        if one.used < draw {
            bytes = bytes.saturating_add(one.image.kept_bytes());
        }
    }
    bytes
}

// Drops the tiles that no draw used from this one on.
fn drop_used_before(kept: &mut Vec<KeptTile>, oldest: u64)
    ensures { kept.new.items ≡ filter (λ k. nat_le oldest k.used) kept.old.items }
{
    kept.retain(|one| one.used >= oldest);
}

/// Drops the tiles that no draw used from this one on. What is kept for the pages stays so.
pub(crate) fn drop_unused(
    active: &LayerTree,
    main: &LayerTree,
    kept: &mut Vec<KeptTile>,
    oldest: u64,
)
    requires kept { AreKeptFor active.now kept.old.items }
    requires current { AreCurrent main.now kept.old.items }
    ensures kept { AreKeptFor active.now kept.new.items }
    ensures current { AreCurrent main.now kept.new.items }
{
    drop_used_before(kept, oldest);
}

/// Drops tiles that this draw did not use, first those that were not used lately, until the others that it did not
/// use take at most as many bytes as the budget has.
pub(crate) fn evict(
    active: &LayerTree,
    main: &LayerTree,
    kept: &mut Vec<KeptTile>,
    budget: usize,
    draw: u64,
)
    requires kept { AreKeptFor active.now kept.old.items }
    requires current { AreCurrent main.now kept.old.items }
    ensures kept { AreKeptFor active.now kept.new.items }
    ensures current { AreCurrent main.now kept.new.items }
{
    for age in AGES {
        if unused_bytes(kept.as_slice(), draw) <= budget {
            return;
        }
        drop_unused(active, main, kept, draw.saturating_sub(age));
    }
}
