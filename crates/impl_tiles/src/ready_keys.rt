//! The ready keys, one after another.

ghost use Rattle.std.specs.Prelude.{◌≡◌, ◌∷◌, [], IsNone, IfSome};

use crate::each_held::EachHeld;
use crate::held::Tile;
use crate::tiles::is_made;
use geom::TileKey;
use slab::Slab;
use std::marker::Model;

/// Ready keys of a store in their order, which are asked for one after another. Takes no memory.
///
/// Contracts see the keys that are left.
#[derive(Drop)]
pub struct ReadyKeys<'a> {
    pub(crate) rest: EachHeld<'a>,
    pub(crate) tiles: &'a Slab<Tile>,
}

impl<'a> Model for ReadyKeys<'a> {
    ghost use Rattle.std.specs.Prelude.{List};
    ghost use Rattle.slab.specs.Slab.{get};
    ghost use Rattle.geom.specs.declared.tile.TileKey.{TileKey};
    ghost use Rattle.impl_tiles.specs.inner.TileTables.{made_keys};

    ghost Value = { List TileKey };

    ghost view = { λ k. made_keys (get k.tiles.now) k.rest };
}

impl<'a> ReadyKeys<'a> {
    /// The next key; None exactly if none is left.
    pub fn next(&mut self) -> Option<TileKey>
        ensures none { IsNone result → self.old ≡ [] }
        ensures some { IfSome result (λ key. self.old ≡ key ∷ self.new) }
    {
        while let Some(one) = self.rest.next() {
            if is_made(self.tiles, one.place) {
                return Some(one.key);
            }
        }
        None
    }
}
