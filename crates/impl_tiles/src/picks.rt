//! What is wanted and what is ready, by the ranks of the live keys.
//!
//! Ranks, ready keys and pinned keys stand in key order, or nearly so, and are looked for in each other in that
//! order: a key next to the one before it, or a few after it, is found or missed without a search.

ghost use Rattle.std.specs.Prelude.{◌≡◌, ◌≤◌, ◌<◌, ℕ, List, true, false, not, ◌&&◌, Some, None, length, get_or, map, filter, IfOk};
ghost use Rattle.std.specs.declared.cmp.Ordering.TheVariants.{Less, Greater};
ghost use Rattle.std.specs.List.Sorted.{IsSorted, IsSortedByKey, IsPermutation};
ghost use Rattle.geom.specs.declared.tile.TileKey.{TileKey as Key};
ghost use Rattle.geom.specs.KeyLists.{has_key, AreDistinctKeys};
ghost use Rattle.geom.specs.KeyOrder.{key_cmp};
ghost use Rattle.tile_priority.specs.declared.rank.Rank.{Rank as Ranking};
ghost use Rattle.tile_priority.specs.Ordered.{SameMembers};
ghost use Rattle.tile_priority.specs.Tiles.{IsRankOfKey};
ghost use Rattle.impl_tiles.specs.Stores.{is_in_flight};
ghost use Rattle.tile_queue.specs.Queues.{rank_key};
ghost use Rattle.impl_tiles.specs.Choices.{rank_among, tile_among};
ghost use Rattle.impl_tiles.specs.inner.Places.{IsRankAmong, IsRankAt};

use crate::TileStore;
use crate::near::has_near;
use crate::pins::Pins;
use geom::TileKey;
use std::alloc::{AllocError, Global};
use std::cmp::Ordering;
use tile_priority::{Rank, ReadyTile};

/// How many ranks in a row are passed before the next key is searched for.
const STEPS: usize = 8;

/// These ranks in the order of their keys.
pub(crate) fn in_key_order(ranks: Vec<Rank>) -> Vec<Rank>
    ensures order { IsSortedByKey rank_key key_cmp result.items }
    ensures same { IsPermutation ranks.items result.items }
{
    let mut ordered = ranks;
    ordered.sort_unstable_by_key(|rank| rank.key);
    ordered
}

/// Whether a key is being made, of which there are the given number.
pub(crate) fn is_made_now(store: &TileStore, in_flight: u32, key: TileKey) -> bool
    requires { in_flight ≡ 0 → is_in_flight store.now key ≡ false }
    ensures { result ≡ is_in_flight store.now key }
{
    if in_flight == 0 {
        return false;
    }
    store.in_flight(key)
}

/// Ranks in two parts.
#[derive(Drop)]
pub(crate) struct PartedRanks {
    /// Those whose keys are neither ready nor being made.
    pub(crate) missing: Vec<Rank>,
    /// Those whose keys are ready.
    pub(crate) ready: Vec<Rank>,
}

/// The ranks whose keys are neither ready, which are these keys in key order, nor being made, of which there are the
/// given number, and the ranks whose keys are ready. An error means out of memory.
pub(crate) fn parted(
    alloc: Global,
    store: &TileStore,
    in_flight: u32,
    keys: &[TileKey],
    ranks: &[Rank],
) -> Result<PartedRanks, AllocError>
    requires order { IsSorted key_cmp keys.now }
    requires none { in_flight ≡ 0 → (q : Key) → is_in_flight store.now q ≡ false }
    ensures missing { IfOk result (λ parts. parts.missing.items ≡ filter (λ r. not (has_key keys.now r.key) && not (is_in_flight store.now r.key)) ranks.now) }
    ensures ready { IfOk result (λ parts. parts.ready.items ≡ filter (λ r. has_key keys.now r.key) ranks.now) }
{
    let mut missing = Vec::with_capacity(alloc, ranks.len())?;
    let mut ready = Vec::with_capacity(alloc, keys.len())?;
    let mut near = 0;
    for rank in ranks {
        if has_near(keys, &mut near, rank.key) {
            ready.push(*rank)?;
        } else if !is_made_now(store, in_flight, rank.key) {
            missing.push(*rank)?;
        }
    }
    Ok(PartedRanks { missing, ready })
}

// Where the rank of a key stands among ranks in the order of their keys.
fn place_of(ranks: &[Rank], key: TileKey) -> Option<usize>
    requires { IsSortedByKey rank_key key_cmp ranks.now }
    ensures { IsRankAt ranks.now key result }
{
    ranks.binary_search_by_key(&key, |rank| rank.key).ok()
}

// Whether the rank at a place is of this key.
fn is_at(ranks: &[Rank], at: usize, key: TileKey) -> bool
    ensures { result ≡ true → IsRankAt ranks.now key (Some at) }
{
    match ranks.get(at) {
        Some(rank) => rank.key == key,
        None => false,
    }
}

// The order of the key of the rank at this place to another; past the end every key is greater.
fn order_at(ranks: &[Rank], at: usize, key: TileKey) -> Ordering
    ensures there { (d : Ranking) → at < length ranks.now → key_cmp (get_or ranks.now at d).key key ≡ result }
    ensures end { length ranks.now ≤ at → result ≡ Greater }
{
    match ranks.get(at) {
        Some(rank) => rank.key.cmp(&key),
        None => Ordering::Greater,
    }
}

// A place at `near` or a few after it: those between are of keys that are less.
fn passed(ranks: &[Rank], near: usize, key: TileKey) -> usize {
    let mut at = near;
    for _ in 0..STEPS {
        if order_at(ranks, at, key) != Ordering::Less {
            break;
        }
        at = at.wrapping_add(1);
    }
    at
}

// Whether the keys before this place are less, which the last of them tells.
fn are_less_before(ranks: &[Rank], at: usize, key: TileKey) -> bool
    requires { IsSortedByKey rank_key key_cmp ranks.now }
    ensures { result ≡ true → (i : ℕ) (d : Ranking) → i < at → key_cmp (get_or ranks.now i d).key key ≡ Less }
{
    if at == 0 {
        return true;
    }
    order_at(ranks, at - 1, key) == Ordering::Less
}

// Whether the keys from this place on are greater, which the first of them tells.
fn are_greater_from(ranks: &[Rank], at: usize, key: TileKey) -> bool
    requires { IsSortedByKey rank_key key_cmp ranks.now }
    ensures { result ≡ true → (i : ℕ) (d : Ranking) → at ≤ i → i < length ranks.now → key_cmp (get_or ranks.now i d).key key ≡ Greater }
{
    order_at(ranks, at, key) == Ordering::Greater
}

// Whether no rank is seen to be of the key: it would stand at this place.
fn is_missing_at(ranks: &[Rank], at: usize, key: TileKey) -> bool
    requires { IsSortedByKey rank_key key_cmp ranks.now }
    ensures { result ≡ true → IsRankAt ranks.now key None }
{
    let before = are_less_before(ranks, at, key);
    let after = are_greater_from(ranks, at, key);
    before && after
}

// The same as `place_of`; at `near` the rank is found or missed without a search.
fn place_near(ranks: &[Rank], near: usize, key: TileKey) -> Option<usize>
    requires { IsSortedByKey rank_key key_cmp ranks.now }
    ensures { IsRankAt ranks.now key result }
{
    if is_at(ranks, near, key) {
        return Some(near);
    }
    if is_missing_at(ranks, near, key) {
        return None;
    }
    place_of(ranks, key)
}

// The rank at the place of a key, if there is one.
fn rank_at(ranks: &[Rank], key: TileKey, place: Option<usize>) -> Option<Rank>
    requires { IsRankAt ranks.now key place }
    ensures among { IsRankAmong ranks.now key result }
    ensures of_key { IsRankOfKey key result }
{
    // The contract alone speaks of the key.
    let _ = key;
    match place {
        Some(at) => Some(ranks[at]),
        None => None,
    }
}

// A ready key with its rank, which is looked for at `near` first and a few places after it, and whether it is
// pinned. `near` is set to the place after the rank, or where it would stand.
fn ready_tile(ranks: &[Rank], near: &mut usize, key: TileKey, pinned: bool) -> ReadyTile
    requires { IsSortedByKey rank_key key_cmp ranks.now }
    ensures { (rs : List Ranking) → AreDistinctKeys (map rank_key rs) → SameMembers ranks.now rs → result ≡ record { key = key; rank = rank_among rs key; pinned = pinned } }
{
    if !is_at(ranks, *near, key) {
        *near = passed(ranks, *near, key);
    }
    let place = place_near(ranks, *near, key);
    if let Some(at) = place {
        *near = at.wrapping_add(1);
    }
    let rank = rank_at(ranks, key, place);
    ReadyTile { key, rank, pinned }
}

/// The ready keys, which are these, with their ranks, each with whether it is pinned. The ranks stand in the
/// order of their keys. An error means out of memory.
pub(crate) fn ready_tiles(
    alloc: Global,
    ranks: &[Rank],
    keys: &[TileKey],
    pins: &Pins,
) -> Result<Vec<ReadyTile>, AllocError>
    requires { IsSortedByKey rank_key key_cmp ranks.now }
    ensures { IfOk result (λ ready. (rs : List Ranking) → AreDistinctKeys (map rank_key rs) → SameMembers ranks.now rs → ready.items ≡ map (tile_among rs pins.now) keys.now) }
{
    let mut ready = Vec::with_capacity(alloc, keys.len())?;
    let mut rank_place = 0;
    let mut pin_place = 0;
    for key in keys {
        let pinned = pins.has_near(&mut pin_place, *key);
        ready.push(ready_tile(ranks, &mut rank_place, *key, pinned))?;
    }
    Ok(ready)
}
