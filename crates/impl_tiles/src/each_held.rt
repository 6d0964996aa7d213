//! The held keys, one after another.

ghost use Rattle.std.specs.Prelude.{◌≡◌, ◌∷◌, [], IsNone, IfSome};
ghost use Rattle.impl_tiles.specs.inner.Chunked.{flat};

use crate::chunk::Chunk;
use crate::held::KeyedPlace;
use std::marker::Model;

/// The keys of chunks in their order, which are asked for one after another. Takes no memory.
///
/// Contracts see the keys that are left.
#[derive(Drop)]
pub(crate) struct EachHeld<'a> {
    // Those of the chunk at hand.
    rest: &'a [KeyedPlace],
    // The chunks after it.
    chunks: &'a [Chunk],
}

impl<'a> Model for EachHeld<'a> {
    ghost use Rattle.std.specs.Prelude.{List, ◌++◌};
    ghost use Rattle.impl_tiles.specs.declared.held.KeyedPlace.{KeyedPlace};
    ghost use Rattle.impl_tiles.specs.inner.Chunked.{flat};

    ghost Value = { List KeyedPlace };

    ghost view = { λ e. e.rest.now ++ flat e.chunks.now };
}

impl<'a> EachHeld<'a> {
    /// The keys of these chunks.
    pub(crate) fn new(chunks: &'a [Chunk]) -> EachHeld<'a>
        ensures { result ≡ flat chunks.now }
    {
        EachHeld { rest: &[], chunks }
    }

    /// The next key; None exactly if none is left.
    pub(crate) fn next(&mut self) -> Option<KeyedPlace>
        ensures none { IsNone result → self.old ≡ [] }
        ensures some { IfSome result (λ one. self.old ≡ one ∷ self.new) }
    {
        loop {
            if let Some((one, others)) = self.rest.split_first() {
                self.rest = others;
                return Some(*one);
            }
            let (chunk, after) = self.chunks.split_first()?;
            self.rest = chunk.as_slice();
            self.chunks = after;
        }
    }
}
