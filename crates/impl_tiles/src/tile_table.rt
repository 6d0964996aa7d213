//! The held keys with their tiles.

ghost use Rattle.std.specs.Prelude.{◌≡◌, ◌≤◌, ◌+◌, not, false, Some, None, IsSome, IfOk, OnOk, OnErr, option_map};
ghost use Rattle.geom.specs.declared.tile.TileKey.{TileKey};
ghost use Rattle.std.specs.FinMap as fin;
ghost use Rattle.std.specs.Ordering.{eq_by_cmp};
ghost use Rattle.geom.specs.KeyOrder.{key_cmp};
ghost use Rattle.geom.specs.KeyLists.{has_key};
ghost use Rattle.impl_tiles.specs.inner.Rows.{ready_of, has_image, if_live, if_not_named};
ghost use Rattle.impl_tiles.specs.inner.TileTables.{shown, is_unnamed};

use crate::chunks::Chunks;
use crate::each_held::EachHeld;
use crate::held::{KeyedPlace, Tile};
use crate::ready_keys::ReadyKeys;
use crate::spots::{find, find_near, number_of, one_at, spot_of};
use crate::tiles::give;
use geom::{Keys, TileKey};
use slab::Slab;
use std::alloc::{AllocError, Global};
use std::marker::Model;
use std::sync::Arc;
use tile_raster::TileImage;

/// The most keys.
const MOST: usize = u32::MAX as usize;

/// Keys with their tiles, which contracts see as a map from each key to its image, or to none while that is
/// being made.
pub(crate) struct TileTable {
    // In the order of the keys.
    held: Chunks,
    tiles: Slab<Tile>,
}

impl Model for TileTable {
    ghost use Rattle.std.specs.FinMap as fin;
    ghost use Rattle.slab.specs.Slab.{get, slab_len};
    ghost use Rattle.geom.specs.contracts.tile.TileKey as the_key;
    ghost use Rattle.tile_raster.specs.contracts.image.TileImage as the_image;
    ghost use Rattle.impl_tiles.specs.inner.Chunked.{flat};
    ghost use Rattle.impl_tiles.specs.inner.TileTables.{TileTableModel, table_code, rows, room, IsTileTable};

    ghost Value = { TileTableModel };

    ghost coded = { table_code the_key.the_row.coded the_image.the_row.coded };

    ghost view = { λ s. record {
      held = fin.from_sorted (rows (get s.tiles) (flat s.held.chunks));
      spare = room s.held.spare s.tiles.capacity (slab_len s.tiles);
    } };

    ghost invariant = { λ s. IsTileTable s.tiles (flat s.held.chunks) };
}

// Written out, since a derived drop is proved anew, field by field, in each function that lets one go.
impl Drop for TileTable {
    fn drop(self) {
        let TileTable { held: _, tiles: _ } = self;
    }
}

impl TileTable {
    /// No key, and memory from `alloc` later.
    pub(crate) fn new(alloc: Global) -> TileTable
        ensures { result.held ≡ fin.empty }
    {
        TileTable {
            held: Chunks::new(alloc),
            tiles: Slab::new(alloc),
        }
    }

    /// How many keys there are.
    pub(crate) fn len(&self) -> u32
        ensures { result ≡ fin.len self.now.held }
    {
        self.tiles.len() as u32
    }

    /// Makes room for one more key. An error means out of memory, or 2^32 - 1 keys; there is then as much
    /// room as before.
    pub(crate) fn reserve(&mut self) -> Result<(), AllocError>
        ensures room { OnOk result (1 ≤ self.new.spare) }
        ensures held { self.new.held ≡ self.old.held }
        ensures spare { self.old.spare ≤ self.new.spare }
        ensures refused { OnErr result (self.new.spare ≡ self.old.spare) }
    {
        // Never so in a run: beyond its budget it holds the visible tiles alone, at most 64 layers of 16,384.
        if self.tiles.len() >= MOST {
            return Err(AllocError);
        }
        self.held.reserve()?;
        match self.tiles.reserve(1) {
            Ok(()) => Ok(()),
            // The slab leaves open whether a refused call made room: if it did, there is room.
            Err(_) if self.tiles.len() < self.tiles.capacity() => Ok(()),
            Err(refused) => Err(refused),
        }
    }

    /// The tile of a key.
    pub(crate) fn get(&self, key: TileKey) -> Option<&Tile>
        ensures { option_map (λ t. shown t.now) result ≡ fin.get self.now.held key }
    {
        self.get_away(&mut 0, key)
    }

    /// The same. `near` is if the tile is looked for first, and is set to the place after it.
    #[inline]
    pub(crate) fn get_near(&self, near: &mut usize, key: TileKey) -> Option<&Tile>
        ensures { option_map (λ t. shown t.now) result ≡ fin.get self.now.held key }
    {
        if let Some(one) = one_at(self.held.as_slice(), spot_of(*near), key) {
            *near = near.wrapping_add(1);
            return self.tiles.get(one.place);
        }
        self.get_away(near, key)
    }

    // The same for a key that does not stand where it is looked for first: apart, so that the rest is small enough to
    // stand in loops over keys.
    #[inline(never)]
    fn get_away(&self, near: &mut usize, key: TileKey) -> Option<&Tile>
        ensures { option_map (λ t. shown t.now) result ≡ fin.get self.now.held key }
    {
        match find_near(self.held.as_slice(), spot_of(*near), key) {
            Ok(spot) => {
                *near = number_of(spot).wrapping_add(1);
                self.tiles.get(self.held.at(spot).place)
            }
            Err(spot) => {
                *near = number_of(spot);
                None
            }
        }
    }

    /// Adds a key, whose image is being made.
    pub(crate) fn put(&mut self, key: TileKey)
        requires room { 1 ≤ self.old.spare }
        requires absent { fin.get self.old.held key ≡ None }
        ensures held { self.new.held ≡ fin.insert self.old.held key None }
        ensures spare { self.old.spare ≤ self.new.spare + 1 }
    {
        self.held.has_room_for_one();
        if let Err(spot) = find(self.held.as_slice(), key) {
            let place = self.tiles.insert_reserved(Tile { key, image: None });
            self.held.insert(spot, KeyedPlace { key, place });
        }
    }

    /// Gives a key its image.
    pub(crate) fn set(&mut self, image: Arc<TileImage>)
        requires { IsSome (fin.get self.old.held image.value.key) }
        ensures held { self.new.held ≡ fin.insert self.old.held image.value.key (Some image.value) }
        ensures spare { self.new.spare ≡ self.old.spare }
    {
        let key = image.key();
        if let Ok(spot) = find(self.held.as_slice(), key) {
            give(&mut self.tiles, self.held.at(spot).place, key, image);
        }
    }

    /// Drops a key with its tile, if it is held.
    pub(crate) fn remove(&mut self, key: TileKey)
        ensures held { self.new.held ≡ fin.remove self.old.held key }
        ensures spare { self.old.spare ≤ self.new.spare }
    {
        if let Ok(spot) = find(self.held.as_slice(), key) {
            let one = self.held.remove(spot);
            drop(self.tiles.try_remove(one.place));
        }
    }

    /// Drops these keys with their tiles, if they are held.
    pub(crate) fn remove_all(&mut self, keys: &[TileKey])
        ensures held { (q : TileKey) → fin.get self.new.held q ≡ if_not_named (has_key keys.now q) (fin.get self.old.held q) }
        ensures spare { self.old.spare ≤ self.new.spare }
    {
        for key in keys {
            self.remove(*key);
        }
    }

    // Whether a key has an image.
    fn is_made(&self, key: TileKey) -> bool
        ensures { result ≡ has_image (fin.get self.now.held key) }
    {
        match self.get(key) {
            Some(tile) => tile.image.is_some(),
            None => false,
        }
    }

    // Drops the image of a key with the key, if it has one.
    fn give_up_one(&mut self, key: TileKey)
        ensures held { (q : TileKey) → fin.get self.new.held q ≡ if_live (not (eq_by_cmp key_cmp q key)) (fin.get self.old.held q) }
        ensures spare { self.old.spare ≤ self.new.spare }
    {
        if self.is_made(key) {
            self.remove(key);
        }
    }

    /// Drops the images of the keys that are in `dead`, whatever its order, with these keys. Keys whose images are being
    /// made stay.
    pub(crate) fn give_up(&mut self, dead: &[TileKey])
        ensures held { (q : TileKey) → fin.get self.new.held q ≡ if_live (is_unnamed dead.now q) (fin.get self.old.held q) }
        ensures spare { self.old.spare ≤ self.new.spare }
    {
        for key in dead {
            self.give_up_one(*key);
        }
    }

    /// The keys that have an image, in their order. An error means out of memory.
    pub(crate) fn ready_keys(&self, alloc: Global) -> Result<Keys, AllocError>
        ensures { IfOk result (λ keys. keys ≡ fin.keys (ready_of self.now.held)) }
    {
        let mut keys = Keys::new(alloc);
        let mut all = self.each_ready();
        while let Some(key) = all.next() {
            if let Err((full, _)) = keys.push(key) {
                return Err(full);
            }
        }
        Ok(keys)
    }

    /// The keys that have an image, in their order, one after another.
    pub(crate) fn each_ready(&self) -> ReadyKeys<'_>
        ensures { result ≡ fin.keys (ready_of self.now.held) }
    {
        ReadyKeys {
            rest: EachHeld::new(self.held.as_slice()),
            tiles: &self.tiles,
        }
    }
}
