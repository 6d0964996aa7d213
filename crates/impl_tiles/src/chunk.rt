//! A chunk of held keys.

ghost use Rattle.std.specs.Prelude.{◌≡◌, ◌≤◌, ◌<◌, [], length, take, drop, slice_index_or, IfOk};
ghost use Rattle.std.specs.List.{insert, remove};

use crate::held::KeyedPlace;
use std::alloc::{AllocError, Global};
use std::marker::Model;

/// At most this many keys stand in a chunk.
pub(crate) const MOST: usize = 64;

/// Held keys in a row, at most [`MOST`], with room for that many. Contracts see them as a list.
#[derive(Drop)]
pub(crate) struct Chunk {
    held: Vec<KeyedPlace>,
}

impl Model for Chunk {
    ghost use Rattle.std.specs.Prelude.{◌≤◌, List, length, vec_capacity};
    ghost use Rattle.impl_tiles.specs.declared.held.KeyedPlace.{KeyedPlace};

    ghost Value = { List KeyedPlace };

    ghost view = { λ c. c.held.items };

    ghost invariant = { λ c. (length c.held.items ≤ 64) × (64 ≤ vec_capacity c.held) };
}

impl Chunk {
    /// No key. An error means out of memory.
    pub(crate) fn new(alloc: Global) -> Result<Chunk, AllocError>
        ensures { IfOk result (λ chunk. chunk ≡ []) }
    {
        Ok(Chunk {
            held: Vec::with_capacity(alloc, MOST)?,
        })
    }

    /// Its keys.
    pub(crate) fn as_slice(&self) -> &[KeyedPlace]
        ensures { result.now ≡ self.now }
    {
        self.held.as_slice()
    }

    /// How many keys it has.
    pub(crate) fn len(&self) -> usize
        ensures value { result ≡ length self.now }
        ensures few { result ≤ 64 }
    {
        self.held.len()
    }

    /// Puts a key at an index, if there is room for it. Takes no memory.
    pub(crate) fn insert(&mut self, at: usize, one: KeyedPlace)
        requires bound { at ≤ length self.old }
        requires room { length self.old < 64 }
        ensures { self.new ≡ insert self.old at one }
    {
        drop(self.held.insert(at, one));
    }

    /// Takes out the key at an index.
    pub(crate) fn remove(&mut self, at: usize) -> KeyedPlace
        requires { at < length self.old }
        ensures value { result ≡ slice_index_or self.old at result }
        ensures held { self.new ≡ remove self.old at }
    {
        self.held.remove(at)
    }

    /// Moves the keys from an index on to a chunk that has none. Takes no memory.
    pub(crate) fn move_tail(&mut self, at: usize, upper: &mut Chunk)
        requires bound { at ≤ length self.old }
        requires empty { upper.old ≡ [] }
        ensures lower { self.new ≡ take at self.old }
        ensures upper { upper.new ≡ drop at self.old }
    {
        let (_, tail) = self.held.as_slice().split_at(at);
        drop(upper.held.extend_from_slice(tail));
        self.held.truncate(at);
    }
}
