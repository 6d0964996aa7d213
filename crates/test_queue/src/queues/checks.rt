//! Whether a call of the queue may be made: its conditions, tested on the choice that the queue represents.

ghost use Rattle.std.specs.Prelude.{◌≡◌, ◌≤◌, ◌++◌, map, IsTrue, IfOk, IfSome, OnOk};
ghost use Rattle.geom.specs.KeyLists.{has_key, AreDistinctKeys};
ghost use Rattle.tile_queue.specs.Queues.{rank_key, tile_key, EachKeyOnce, IsNew};
ghost use Rattle.test_queue.specs.Checks.{all_keys};

use crate::choice::PlainChoice;
use geom::TileKey;
use std::alloc::{AllocError, Global};
use tile_priority::{Rank, ReadyTile};

/// Whether a list has this key.
fn has(keys: &[TileKey], key: TileKey) -> bool
    ensures { result ≡ has_key keys.now key }
{
    keys.iter().any(|own| *own == key)
}

/// Appends the keys of ranks.
fn add_wanted(keys: &mut Vec<TileKey>, wanted: &[Rank]) -> Result<(), AllocError>
    ensures { OnOk result (keys.new.items ≡ keys.old.items ++ map rank_key wanted.now) }
{
    for rank in wanted {
        keys.push(rank.key)?;
    }
    Ok(())
}

/// Appends the keys of ready tiles.
fn add_ready(keys: &mut Vec<TileKey>, ready: &[ReadyTile]) -> Result<(), AllocError>
    ensures { OnOk result (keys.new.items ≡ keys.old.items ++ map tile_key ready.now) }
{
    for tile in ready {
        keys.push(tile.key)?;
    }
    Ok(())
}

/// The keys that are wanted, and those that are ready.
fn keys_of(alloc: Global, plain: &PlainChoice) -> Result<Vec<TileKey>, AllocError>
    ensures { IfOk result (λ keys. keys.items ≡ all_keys plain.now) }
{
    let mut keys = Vec::new(alloc);
    add_wanted(&mut keys, plain.wanted())?;
    add_ready(&mut keys, plain.ready())?;
    Ok(keys)
}

/// Whether no key stands twice.
fn are_distinct(keys: &[TileKey]) -> bool
    ensures { IsTrue result → AreDistinctKeys keys.now }
{
    let mut rest = keys;
    while let Some((key, later)) = rest.split_first() {
        if has(later, *key) {
            return false;
        }
        rest = later;
    }
    true
}

/// Whether a queue may represent this choice: no key stands twice in its lists. An error means out of memory.
#[tactic(auto, using(crate::proofs::KeyTests::each_once))]
pub(crate) fn has_each_key_once(alloc: Global, plain: &PlainChoice) -> Result<bool, AllocError>
    ensures { IfOk result (λ yes. IsTrue yes → EachKeyOnce plain.now.wanted plain.now.ready) }
{
    let keys = keys_of(alloc, plain)?;
    let yes = are_distinct(keys.as_slice());
    Ok(yes)
}

/// Whether a key is neither wanted nor ready. An error means out of memory.
#[tactic(auto, using(crate::proofs::KeyTests::new_key))]
fn is_new(alloc: Global, plain: &PlainChoice, key: TileKey) -> Result<bool, AllocError>
    ensures { IfOk result (λ yes. IsTrue yes → IsNew plain.now key) }
{
    let keys = keys_of(alloc, plain)?;
    let there = has(keys.as_slice(), key);
    Ok(!there)
}

/// Whether the tile of a start may be made, and is this one. An error means out of memory.
pub(crate) fn may_finish(
    alloc: Global,
    plain: &PlainChoice,
    tile: Option<ReadyTile>,
) -> Result<bool, AllocError>
    ensures some { IfOk result (λ yes. IsTrue yes → 1 ≤ plain.now.in_flight) }
    ensures new { IfOk result (λ yes. IsTrue yes → IfSome tile (λ t. IsNew plain.now t.key)) }
{
    if plain.in_flight() == 0 {
        return Ok(false);
    }
    match tile {
        None => Ok(true),
        Some(tile) => is_new(alloc, plain, tile.key),
    }
}

/// Whether a key is wanted. An error means out of memory.
pub(crate) fn is_wanted(
    alloc: Global,
    plain: &PlainChoice,
    key: TileKey,
) -> Result<bool, AllocError>
    ensures { IfOk result (λ yes. yes ≡ has_key (map rank_key plain.now.wanted) key) }
{
    let mut keys = Vec::new(alloc);
    add_wanted(&mut keys, plain.wanted())?;
    let yes = has(keys.as_slice(), key);
    Ok(yes)
}
