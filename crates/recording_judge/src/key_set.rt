//! A set of tile keys.

ghost use Rattle.std.specs.Prelude.{◌≡◌, [], not, ◌&&◌, ◌||◌, filter, IfOk, OnOk};
ghost use Rattle.std.specs.List.{list_all};
ghost use Rattle.geom.specs.declared.tile.TileKey.{TileKey as Key};
ghost use Rattle.geom.specs.KeyLists.{same_key, has_key, AreDistinctKeys};
ghost use Rattle.geom.specs.KeyOrder.{key_cmp};
ghost use Rattle.tile_priority.specs.Ordered.{IsInOrder};

use geom::{Keys, TileKey};
use std::alloc::{AllocError, Global};
use std::collections::BTreeSet;
use std::marker::Model;

/// Tile keys, each once. Contracts see their list, in key order.
#[derive(Drop)]
pub(crate) struct KeySet {
    keys: BTreeSet<TileKey>,
}

impl Model for KeySet {
    ghost use Rattle.std.specs.Prelude.{List};
    ghost use Rattle.geom.specs.declared.tile.TileKey.{TileKey};

    ghost Value = { List TileKey };

    ghost view = { λ s. s.keys.keys };
}

// The keys of a tree as a list.
fn keys_of(alloc: Global, tree: &BTreeSet<TileKey>) -> Result<Keys, AllocError>
    ensures { IfOk result (λ keys. keys ≡ tree.now.keys) }
{
    let mut keys = Keys::new(alloc);
    for key in tree.iter() {
        if let Err(refused) = keys.push(*key) {
            return Err(refused.0);
        }
    }
    Ok(keys)
}

// A tree has its keys in order, each once. A law that does nothing when it runs.
fn is_rising(tree: &BTreeSet<TileKey>)
    ensures order { IsInOrder key_cmp tree.now.keys }
    ensures once { AreDistinctKeys tree.now.keys }
{
    let _ = tree.len();
}

impl KeySet {
    /// No key. Later calls take their memory from `alloc`.
    pub(crate) fn new(alloc: Global) -> KeySet
        ensures { result ≡ [] }
    {
        KeySet {
            keys: BTreeSet::new(alloc),
        }
    }

    /// These keys, in whatever order they stand. An error means out of memory.
    pub(crate) fn of(alloc: Global, keys: &[TileKey]) -> Result<KeySet, AllocError>
        ensures { IfOk result (λ set. (q : Key) → has_key set q ≡ has_key keys.now q) }
    {
        let mut set = KeySet::new(alloc);
        for key in keys {
            set.insert(*key)?;
        }
        Ok(set)
    }

    /// Whether the key is one of them.
    pub(crate) fn has(&self, key: TileKey) -> bool
        ensures { result ≡ has_key self.now key }
    {
        self.keys.contains(&key)
    }

    /// Whether all of these keys are among them.
    pub(crate) fn has_all(&self, keys: &Keys) -> bool
        ensures { result ≡ list_all (has_key self.now) keys.now }
    {
        for key in keys.as_slice() {
            if !self.has(*key) {
                return false;
            }
        }
        true
    }

    /// Those of the keys that are not among them, in their order. An error means out of memory.
    pub(crate) fn lacking(&self, alloc: Global, keys: &Keys) -> Result<Keys, AllocError>
        ensures { IfOk result (λ lacking. lacking ≡ filter (λ q. not (has_key self.now q)) keys.now) }
    {
        let mut lacking = Keys::new(alloc);
        for key in keys.as_slice() {
            if !self.has(*key) {
                if let Err(refused) = lacking.push(*key) {
                    return Err(refused.0);
                }
            }
        }
        Ok(lacking)
    }

    /// The keys as a list. An error means out of memory.
    pub(crate) fn list(&self, alloc: Global) -> Result<Keys, AllocError>
        ensures { IfOk result (λ keys. keys ≡ self.now) }
    {
        keys_of(alloc, &self.keys)
    }

    /// The keys stand in key order, each once. A law that does nothing when it runs.
    pub(crate) fn is_in_order(&self)
        ensures order { IsInOrder key_cmp self.now }
        ensures once { AreDistinctKeys self.now }
    {
        is_rising(&self.keys);
    }

    /// Adds a key, if it is not there. An error means out of memory, and nothing was added.
    pub(crate) fn insert(&mut self, key: TileKey) -> Result<(), AllocError>
        ensures { OnOk result ((q : Key) → has_key self.new q ≡ (same_key key q || has_key self.old q)) }
    {
        self.keys.insert(key)?;
        Ok(())
    }

    /// Takes a key away, if it is there.
    pub(crate) fn remove(&mut self, key: TileKey)
        ensures { (q : Key) → has_key self.new q ≡ (has_key self.old q && not (same_key key q)) }
    {
        let _ = self.keys.remove(&key);
    }

    /// Takes these keys away, if they are there.
    pub(crate) fn remove_all(&mut self, keys: &[TileKey])
        ensures { (q : Key) → has_key self.new q ≡ (has_key self.old q && not (has_key keys.now q)) }
    {
        for key in keys {
            self.remove(*key);
        }
    }
}
