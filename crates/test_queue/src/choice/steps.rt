//! The lists after a start, and after the end of one.

ghost use Rattle.std.specs.Prelude.{◌≡◌, not, filter, filter_map, IfOk};
ghost use Rattle.geom.specs.KeyLists.{has_key};
ghost use Rattle.tile_priority.specs.Alike as alike;
ghost use Rattle.tile_priority.specs.Alike.{is_of, is_among, tile_rank};

use geom::{Keys, TileKey};
use std::alloc::{AllocError, Global};
use tile_priority::{Rank, ReadyTile};

// Whether a list has this key.
fn has(keys: &Keys, key: TileKey) -> bool
    ensures { result ≡ has_key keys.now key }
{
    keys.as_slice().iter().any(|own| *own == key)
}

/// The ranks without those of a key. An error means out of memory.
pub(crate) fn without(alloc: Global, ranks: &[Rank], key: TileKey) -> Result<Vec<Rank>, AllocError>
    ensures { IfOk result (λ rest. rest.items ≡ filter (λ r. not (is_of key r)) ranks.now) }
{
    ranks
        .iter()
        .filter(|rank| rank.key != key)
        .copied()
        .collect(alloc)
}

/// The ranks of those of the tiles whose keys are evicted. An error means out of memory.
pub(crate) fn evicted_ranks(
    alloc: Global,
    ready: &[ReadyTile],
    evicted: &Keys,
) -> Result<Vec<Rank>, AllocError>
    ensures { IfOk result (λ ranks. ranks.items ≡ filter_map tile_rank (filter (is_among evicted.now) ready.now)) }
{
    ready
        .iter()
        .filter(|tile| has(evicted, tile.key))
        .filter_map(|tile| tile.rank)
        .collect(alloc)
}

/// The tiles whose keys are not evicted. An error means out of memory.
pub(crate) fn staying(
    alloc: Global,
    ready: &[ReadyTile],
    evicted: &Keys,
) -> Result<Vec<ReadyTile>, AllocError>
    ensures { IfOk result (λ rest. rest.items ≡ filter (λ t. not (is_among evicted.now t)) ready.now) }
{
    ready
        .iter()
        .filter(|tile| !has(evicted, tile.key))
        .copied()
        .collect(alloc)
}

/// The tiles with one more, if there is one. An error means out of memory.
pub(crate) fn with_ready(
    alloc: Global,
    tile: Option<ReadyTile>,
    ready: &[ReadyTile],
) -> Result<Vec<ReadyTile>, AllocError>
    ensures { IfOk result (λ all. all.items ≡ alike.with_ready tile ready.now) }
{
    let mut all = Vec::new(alloc);
    if let Some(tile) = tile {
        all.push(tile)?;
    }
    all.extend_from_slice(ready)?;
    Ok(all)
}
