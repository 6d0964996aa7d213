//! The keys that are missing.

ghost use Rattle.std.specs.Prelude.{◌≡◌, filter, IfOk};
ghost use Rattle.impl_tiles.specs.Choices.{store_lacks};

use crate::TileStore;
use geom::{Keys, TileKey};
use std::alloc::{AllocError, Global};

// Whether a key is neither ready, which is looked for at `near` first, nor being made.
fn is_missing(store: &TileStore, near: &mut usize, key: TileKey) -> bool
    ensures { result ≡ store_lacks store.now key }
{
    let is_ready = store.ready_near(near, key).is_some();
    !is_ready && !store.in_flight(key)
}

/// Those of the keys that are neither ready nor being made, in their order. An error means out of memory.
pub(crate) fn missing_keys(
    alloc: Global,
    store: &TileStore,
    keys: &[TileKey],
) -> Result<Keys, AllocError>
    ensures { IfOk result (λ missing. missing ≡ filter (store_lacks store.now) keys.now) }
{
    let mut missing = Keys::new(alloc);
    let mut near = 0;
    for key in keys {
        if is_missing(store, &mut near, *key) {
            if let Err((full, _)) = missing.push(*key) {
                return Err(full);
            }
        }
    }
    Ok(missing)
}
