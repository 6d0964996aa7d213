//! How many of the ready tiles may be evicted, without a list of them.

ghost use Rattle.std.specs.Prelude.{◌≡◌, not, ◌&&◌, filter, length};
ghost use Rattle.std.specs.FinMap as fin;
ghost use Rattle.geom.specs.KeyLists.{has_key};
ghost use Rattle.impl_tiles.specs.Choices.{stays_for};

use crate::TileStore;
use crate::pins::Pins;
use tile_priority::{Bin, Rank};

/// How many keys are ready.
pub(crate) fn ready_count(store: &TileStore) -> u32
    ensures { result ≡ fin.len store.now.ready }
{
    // There are no more, so that the count fits.
    let _ = store.used();
    let mut count = 0;
    let mut keys = store.each_ready();
    while let Some(_) = keys.next() {
        count += 1;
    }
    count
}

/// How many of the ready keys are not pinned.
pub(crate) fn unpinned(store: &TileStore, pins: &Pins) -> usize
    ensures { result ≡ length (filter (λ q. not (has_key pins.now q)) (fin.keys store.now.ready)) }
{
    // There are no more, so that the count fits.
    let _ = store.used();
    let mut count = 0;
    let mut near = 0;
    let mut keys = store.each_ready();
    while let Some(key) = keys.next() {
        if !pins.has_near(&mut near, key) {
            count += 1;
        }
    }
    count
}

// Whether the rank is of a ready key that is not pinned, and of this bin or a better one. The key is looked for among
// the pinned keys at `pin_near` first, and among the ready keys at `near`.
fn stays(
    store: &TileStore,
    near: &mut usize,
    pins: &Pins,
    pin_near: &mut usize,
    rank: Rank,
    bin: Bin,
) -> bool
    ensures { result ≡ stays_for store.now pins.now bin rank }
{
    rank.bin <= bin
        && !pins.has_near(pin_near, rank.key)
        && store.ready_near(near, rank.key).is_some()
}

/// How many of the ranks are of ready keys that are not pinned and still stay for a tile of this bin.
pub(crate) fn staying(store: &TileStore, pins: &Pins, ranks: &[Rank], bin: Bin) -> usize
    ensures { result ≡ length (filter (stays_for store.now pins.now bin) ranks.now) }
{
    let mut count = 0;
    let mut near = 0;
    let mut pin_near = 0;
    for at in 0..ranks.len() {
        if stays(store, &mut near, pins, &mut pin_near, ranks[at], bin) {
            count += 1;
        }
    }
    count
}
