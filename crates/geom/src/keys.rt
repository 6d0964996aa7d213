//! A list of tile keys.

ghost use Rattle.std.specs.Prelude.{◌≡◌, ◌++◌, ◌∷◌, [], length, slice_get, if◌then◌else◌, is_ok, IfErr, IfOk};
ghost use Rattle.std.specs.Option.{option_copied};

use crate::tile::TileKey;
use std::alloc::{AllocError, Global};
use std::marker::Model;

/// A list of tile keys, which contracts see as the list of its elements.
#[derive(Drop)]
pub struct Keys {
    keys: Vec<TileKey>,
}

impl Model for Keys {
    ghost use Rattle.std.specs.Prelude.{List};
    ghost use Rattle.geom.specs.declared.tile.TileKey.{TileKey};

    ghost Value = { List TileKey };

    ghost view = { λ k. k.keys.items };
}

impl Keys {
    /// An empty list, which takes its memory from `alloc`.
    pub fn new(alloc: Global) -> Keys
        ensures { result ≡ [] }
    {
        Keys {
            keys: Vec::new(alloc),
        }
    }

    /// Appends `key`. An error means out of memory: it gives the key back, and the list is as it was.
    pub fn push(&mut self, key: TileKey) -> Result<(), (AllocError, TileKey)>
        ensures keys { self.new ≡ (if is_ok result then self.old ++ key ∷ [] else self.old) }
        ensures given_back { IfErr result (λ e. e.1 ≡ key) }
    {
        match self.keys.push(key) {
            Ok(()) => Ok(()),
            Err(full) => Err((AllocError, full.value)),
        }
    }

    /// A list of the same keys. An error means out of memory.
    pub fn copy(&self) -> Result<Keys, AllocError>
        ensures { IfOk result (λ k. k ≡ self.now) }
    {
        let keys = self.keys.clone()?;
        Ok(Keys { keys })
    }

    /// How many keys there are.
    pub fn len(&self) -> usize
        ensures { result ≡ length self.now }
    {
        self.keys.len()
    }

    /// The key at place `i`, counted from 0; None exactly if `i` is not below `len`.
    pub fn at(&self, i: usize) -> Option<&TileKey>
        ensures { option_copied result ≡ slice_get self.now i }
    {
        self.keys.get(i)
    }

    /// The keys, the first of them first.
    pub fn as_slice(&self) -> &[TileKey]
        ensures { result.now ≡ self.now }
    {
        self.keys.as_slice()
    }
}
