//! Held keys in chunks.
//!
//! They stand in their order. A key that comes or goes moves the keys of its own chunk alone.

ghost use Rattle.std.specs.Prelude.{◌≡◌, ◌≤◌, ◌<◌, ◌+◌, ◌++◌, ◌∷◌, [], length, take, drop, get_or, set, All, OnOk, OnErr};
ghost use Rattle.std.specs.List.{insert, remove};
ghost use Rattle.impl_tiles.specs.inner.Chunked.{flat, index_of, IsSpot, IsGap};

use crate::chunk::{Chunk, MOST};
use crate::held::{KeyedPlace, Spot};
use std::alloc::{AllocError, Global};
use std::marker::Model;

/// Held keys in chunks, none of which is empty. Contracts see the chunks, and for how many keys more there is room.
#[derive(Drop)]
pub(crate) struct Chunks {
    chunks: Vec<Chunk>,
    // An empty one, of which the next chunk is made.
    spare: Option<Chunk>,
}

impl Model for Chunks {
    ghost use Rattle.std.specs.Prelude.{◌≡◌, ◌<◌, [], All, IfSome, length, is_some, vec_len, vec_capacity};
    ghost use Rattle.impl_tiles.specs.inner.Chunked.{ChunksModel, chunk_room};

    ghost Value = { ChunksModel };

    ghost view = { λ c. record { chunks = c.chunks.items; spare = chunk_room (is_some c.spare) (vec_capacity c.chunks) (vec_len c.chunks) } };

    ghost invariant = { λ c. All (λ chunk. 0 < length chunk) c.chunks.items × IfSome c.spare (λ chunk. chunk ≡ []) };
}

impl Chunks {
    /// No key, and memory from `alloc` later.
    pub(crate) fn new(alloc: Global) -> Chunks
        ensures { flat result.chunks ≡ [] }
    {
        Chunks {
            chunks: Vec::new(alloc),
            spare: None,
        }
    }

    /// Makes room for one more key. An error means out of memory, and there is as much room as before.
    pub(crate) fn reserve(&mut self) -> Result<(), AllocError>
        ensures room { OnOk result (1 ≤ self.new.spare) }
        ensures chunks { self.new.chunks ≡ self.old.chunks }
        ensures spare { self.old.spare ≤ self.new.spare }
        ensures refused { OnErr result (self.new.spare ≡ self.old.spare) }
    {
        self.chunks.reserve(1)?;
        if self.spare.is_none() {
            let chunk = Chunk::new(*self.chunks.allocator())?;
            self.spare = Some(chunk);
        }
        Ok(())
    }

    /// One empty chunk is kept at most, so that there is room for one key at most. A law that does nothing when it runs.
    pub(crate) fn has_room_for_one(&self)
        ensures { self.now.spare ≤ 1 }
    {
        // This read tells the proof what the type keeps; it does nothing when it runs.
        let _ = &self.spare;
    }

    /// The chunks.
    pub(crate) fn as_slice(&self) -> &[Chunk]
        ensures chunks { result.now ≡ self.now.chunks }
        ensures full { All (λ c. 0 < length c) result.now }
    {
        self.chunks.as_slice()
    }

    /// The key at a spot.
    pub(crate) fn at(&self, spot: Spot) -> KeyedPlace
        requires { IsSpot self.now.chunks spot }
        ensures { result ≡ get_or (get_or self.now.chunks spot.chunk []) spot.at result }
    {
        self.chunks[spot.chunk].as_slice()[spot.at]
    }

    // Puts a key as a chunk of its own. There must be room. Takes no memory.
    fn insert_chunk(&mut self, chunk: usize, one: KeyedPlace)
        requires room { 1 ≤ self.old.spare }
        requires bound { chunk ≤ length self.old.chunks }
        ensures chunks { self.new.chunks ≡ insert self.old.chunks chunk (one ∷ []) }
    {
        if let Some(mut alone) = self.spare.take() {
            alone.insert(0, one);
            drop(self.chunks.insert(chunk, alone));
        }
    }

    // Parts a full chunk at a spot, where a key is put at the end of the first part. There must be room. Takes no
    // memory.
    fn part(&mut self, spot: Spot, one: KeyedPlace)
        requires room { 1 ≤ self.old.spare }
        requires chunk { spot.chunk < length self.old.chunks }
        requires at { spot.at < length (get_or self.old.chunks spot.chunk []) }
        requires few { spot.at < 64 }
        ensures chunks { self.new.chunks ≡ insert (set self.old.chunks spot.chunk (take spot.at (get_or self.old.chunks spot.chunk []) ++ one ∷ [])) (spot.chunk + 1) (drop spot.at (get_or self.old.chunks spot.chunk [])) }
    {
        if let Some(mut upper) = self.spare.take() {
            let lower = &mut self.chunks[spot.chunk];
            lower.move_tail(spot.at, &mut upper);
            lower.insert(spot.at, one);
            drop(self.chunks.insert(spot.chunk + 1, upper));
        }
    }

    // Puts a key into a chunk, which is there, or into a new one if that is full.
    fn insert_in(&mut self, spot: Spot, one: KeyedPlace)
        requires room { 1 ≤ self.old.spare }
        requires chunk { spot.chunk < length self.old.chunks }
        requires gap { IsGap self.old.chunks spot }
        ensures held { flat self.new.chunks ≡ insert (flat self.old.chunks) (index_of self.old.chunks spot) one }
    {
        let len = self.chunks[spot.chunk].len();
        if len < MOST {
            self.chunks[spot.chunk].insert(spot.at, one);
        } else if spot.at < len {
            self.part(spot, one);
        } else {
            self.insert_chunk(spot.chunk + 1, one);
        }
    }

    /// Puts a key at a spot. There must be room. Takes no memory.
    pub(crate) fn insert(&mut self, spot: Spot, one: KeyedPlace)
        requires room { 1 ≤ self.old.spare }
        requires gap { IsGap self.old.chunks spot }
        ensures held { flat self.new.chunks ≡ insert (flat self.old.chunks) (index_of self.old.chunks spot) one }
    {
        if spot.chunk < self.chunks.len() {
            self.insert_in(spot, one);
        } else {
            self.insert_chunk(spot.chunk, one);
        }
    }

    /// Takes out the key at a spot.
    pub(crate) fn remove(&mut self, spot: Spot) -> KeyedPlace
        requires { IsSpot self.old.chunks spot }
        ensures value { result ≡ get_or (get_or self.old.chunks spot.chunk []) spot.at result }
        ensures held { flat self.new.chunks ≡ remove (flat self.old.chunks) (index_of self.old.chunks spot) }
        ensures spare { self.old.spare ≤ self.new.spare }
    {
        let one = self.chunks[spot.chunk].remove(spot.at);
        if self.chunks[spot.chunk].len() == 0 {
            drop(self.chunks.remove(spot.chunk));
        }
        one
    }
}
