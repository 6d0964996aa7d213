//! The tile store.

ghost use Rattle.std.specs.Prelude.{◌≡◌, ◌≤◌, ◌+◌, true, IfOk, OnOk, OnErr, option_map};
ghost use Rattle.std.specs.FinMap as map;
ghost use Rattle.impl_tiles.specs.Stores.{image_of, is_in_flight, store_used, empty_store, MayStart, started, done_with, without};

use crate::ready_keys::ReadyKeys;
use crate::tile_table::TileTable;
use geom::{Keys, TileKey};
use std::alloc::{AllocError, Global};
use std::marker::Model;
use std::sync::Arc;
use tile_raster::TileImage;

/// The tiles that the compositor has: the ready keys with their images, and the keys in flight, whose images
/// are being made.
///
/// Contracts also see a number, `spare`: the given number of starts need no memory.
pub struct TileStore {
    table: TileTable,
    alloc: Global,
}

impl Model for TileStore {
    ghost use Rattle.geom.specs.contracts.tile.TileKey as the_key;
    ghost use Rattle.tile_raster.specs.contracts.image.TileImage as the_image;
    ghost use Rattle.impl_tiles.specs.inner.Rows.{ready_of, flying_of};
    ghost use Rattle.impl_tiles.specs.Stores.{Store, store_code};

    ghost Value = { Store };

    ghost coded = { store_code the_key.the_row.coded the_image.the_row.coded };

    ghost view = { λ s. record {
      ready = ready_of s.table.held;
      in_flight = flying_of s.table.held;
      spare = s.table.spare;
    } };
}

// Written out, since a derived drop is proved anew, field by field, in each function that lets one go.
impl Drop for TileStore {
    fn drop(self) {
        let TileStore { table: _, alloc: _ } = self;
    }
}

impl TileStore {
    /// A store without keys, which takes its memory from `alloc`.
    pub fn new(alloc: Global) -> TileStore
        ensures { result ≡ empty_store result.spare }
    {
        TileStore {
            table: TileTable::new(alloc),
            alloc,
        }
    }

    /// Makes room for one start and its end; all else stays. An error means out of memory, and the store
    /// is as it was. A store that holds 2^32 - 1 keys has no more room.
    pub fn reserve(&mut self) -> Result<(), AllocError>
        ensures room { OnOk result (1 ≤ self.new.spare) }
        ensures store { self.new ≡ record self.old { spare = self.new.spare } }
        ensures spare { self.old.spare ≤ self.new.spare }
        ensures refused { OnErr result (self.new ≡ self.old) }
    {
        self.table.reserve()
    }

    /// The ready keys, in their order. An error means out of memory.
    pub fn ready_keys(&self) -> Result<Keys, AllocError>
        ensures { IfOk result (λ keys. keys ≡ map.keys self.now.ready) }
    {
        self.table.ready_keys(self.alloc)
    }

    /// The ready keys, in their order, one after another. Takes no memory.
    pub fn each_ready(&self) -> ReadyKeys<'_>
        ensures { result ≡ map.keys self.now.ready }
    {
        self.table.each_ready()
    }

    /// Starts `key`: it is in flight, and the evicted keys are not ready. There must be room, the key must
    /// be neither ready nor in flight, and the evicted keys ready. Takes no memory.
    pub fn start(&mut self, key: TileKey, evicted: &Keys)
        requires { MayStart self.old key evicted.now }
        ensures store { self.new ≡ started self.old key evicted.now self.new.spare }
        ensures spare { self.old.spare ≤ self.new.spare + 1 }
    {
        self.table.remove_all(evicted.as_slice());
        self.table.put(key);
    }

    /// Ends the making of an image, whose key must be in flight. The key is ready exactly if it is
    /// live; else the image is dropped. Takes no memory.
    pub fn done(&mut self, image: Arc<TileImage>, live: bool)
        requires { is_in_flight self.old image.value.key ≡ true }
        ensures store { self.new ≡ done_with self.old image.value live self.new.spare }
        ensures spare { self.old.spare ≤ self.new.spare }
    {
        if live {
            self.table.set(image);
        } else {
            self.table.remove(image.key());
        }
    }

    /// Drops the ready keys that are in `dead`, whatever its order. Keys in flight stay. Takes no memory.
    pub fn give_up(&mut self, dead: &Keys)
        ensures store { self.new ≡ without self.old dead.now self.new.spare }
        ensures spare { self.old.spare ≤ self.new.spare }
    {
        self.table.give_up(dead.as_slice());
    }

    /// The image of a key; None exactly if it is not ready. To have the image for longer, take a second
    /// owner by `Arc::try_clone`.
    pub fn ready(&self, key: TileKey) -> Option<&Arc<TileImage>>
        ensures { option_map (λ image. image.now.value) result ≡ image_of self.now key }
    {
        self.ready_near(&mut 0, key)
    }

    /// The same. If keys are asked for in their order, `near` carries the place from one question to the
    /// next: nearly every key that stands next to the one before it, or would, is found or missed without a search.
    /// The answer doesn't depend on it; 0 is as good a beginning as any.
    #[inline]
    pub fn ready_near(&self, near: &mut usize, key: TileKey) -> Option<&Arc<TileImage>>
        ensures { option_map (λ image. image.now.value) result ≡ image_of self.now key }
    {
        match self.table.get_near(near, key) {
            Some(tile) => tile.image.as_ref(),
            None => None,
        }
    }

    /// Whether the image of the key is being made.
    pub fn in_flight(&self, key: TileKey) -> bool
        ensures { result ≡ is_in_flight self.now key }
    {
        match self.table.get(key) {
            Some(tile) => tile.image.is_none(),
            None => false,
        }
    }

    /// How many keys are ready or in flight.
    pub fn used(&self) -> u32
        ensures { result ≡ store_used self.now }
    {
        self.table.len()
    }
}
