//! Where a key stands in a list of held keys.

ghost use Rattle.std.specs.Prelude.{◌≡◌, ◌≤◌, true, length, take, drop, IfOk, IfErr};
ghost use Rattle.impl_tiles.specs.inner.TileTables.{Before, After, Rises, StandsAt, IsGapFor};

use crate::held::KeyedPlace;
use geom::TileKey;
use std::cmp::Ordering;

/// The index of the key; an error is where it would go.
pub(crate) fn search(held: &[KeyedPlace], key: TileKey) -> Result<usize, usize>
    requires { Rises held.now }
    ensures found { IfOk result (StandsAt held.now key) }
    ensures absent { IfErr result (IsGapFor held.now key) }
{
    held.binary_search_by_key(&key, |held| held.key)
}

// Whether the keys before this index are below the key, which the last of them tells.
fn are_below(held: &[KeyedPlace], at: usize, key: TileKey) -> bool
    requires { Rises held.now }
    ensures bound { result ≡ true → at ≤ length held.now }
    ensures before { result ≡ true → Before key (take at held.now) }
{
    if at == 0 {
        return true;
    }
    match held.get(at - 1) {
        Some(one) => one.key.cmp(&key) == Ordering::Less,
        None => false,
    }
}

// Whether the keys from this index on are above the key, which the first of them tells.
fn are_above(held: &[KeyedPlace], at: usize, key: TileKey) -> bool
    requires { Rises held.now }
    ensures { result ≡ true → After key (drop at held.now) }
{
    match held.get(at) {
        Some(one) => key.cmp(&one.key) == Ordering::Less,
        None => true,
    }
}

/// Whether the key is seen to be missing: it would go to this index.
pub(crate) fn is_gap(held: &[KeyedPlace], at: usize, key: TileKey) -> bool
    requires { Rises held.now }
    ensures { result ≡ true → IsGapFor held.now key at }
{
    are_below(held, at, key) && are_above(held, at, key)
}
