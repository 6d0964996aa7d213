//! Keys that are not to be evicted.

ghost use Rattle.std.specs.Prelude.{◌≡◌, [], IfOk};
ghost use Rattle.geom.specs.declared.tile.TileKey.{TileKey as Key};
ghost use Rattle.geom.specs.KeyLists.{has_key};

use crate::near::has_near;
use geom::{Keys, TileKey};
use std::alloc::{AllocError, Global};
use std::marker::Model;

/// Keys that are not to be evicted, in their order.
#[derive(Drop)]
pub struct Pins {
    keys: Vec<TileKey>,
}

impl Model for Pins {
    ghost use Rattle.std.specs.Prelude.{List};
    ghost use Rattle.std.specs.List.Sorted.{IsSorted};
    ghost use Rattle.geom.specs.declared.tile.TileKey.{TileKey};
    ghost use Rattle.geom.specs.KeyOrder.{key_cmp};

    ghost Value = { List TileKey };

    ghost view = { λ p. p.keys.items };

    ghost invariant = { λ p. IsSorted key_cmp p.keys.items };
}

impl Pins {
    /// No key.
    pub fn new(alloc: Global) -> Pins
        ensures { result ≡ [] }
    {
        Pins {
            keys: Vec::new(alloc),
        }
    }

    /// These keys, in whatever order they stand. An error means out of memory.
    pub fn of(alloc: Global, keys: &Keys) -> Result<Pins, AllocError>
        ensures { IfOk result (λ pins. (q : Key) → has_key pins q ≡ has_key keys.now q) }
    {
        let mut keys = Vec::from_slice(alloc, keys.as_slice())?;
        keys.sort_unstable();
        Ok(Pins { keys })
    }

    /// Whether the key is one of them.
    pub fn has(&self, key: TileKey) -> bool
        ensures { result ≡ has_key self.now key }
    {
        self.has_near(&mut 0, key)
    }

    /// The same. `near` is as that of [`has_near`].
    pub fn has_near(&self, near: &mut usize, key: TileKey) -> bool
        ensures { result ≡ has_key self.now key }
    {
        has_near(self.keys.as_slice(), near, key)
    }
}
