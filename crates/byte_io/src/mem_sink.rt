//! A sink in memory.
ghost use Rattle.std.specs.Prelude.{Some, [], ◌≡◌, ◌≤◌};

use crate::writing::{PutFault, Sink};
use std::alloc::{AllocError, Global};

/// A sink that keeps the bytes, up to a limit, and fails at the calls that it was told.
pub struct MemSink {
    bytes: Vec<u8>,
    /// How many bytes it takes at most; no limit if `None`.
    limit: Option<u64>,
    /// The numbers of the puts that fail, counted from 0.
    fails: Vec<u64>,
    /// The number of the next put.
    puts: u64,
    faults: u64,
    refusals: u64,
}

// Written out, since a derived drop is proved anew, field by field, in each function that lets one go.
impl Drop for MemSink {
    fn drop(self) {
        let MemSink {
            bytes: _,
            limit: _,
            fails: _,
            puts: _,
            faults: _,
            refusals: _,
        } = self;
    }
}

impl MemSink {
    ghost use Rattle.byte_io.specs.Memory.{IsEndless, room_for};

    /// A sink that takes at most `limit` bytes. A put whose number, counted from 0, stands in
    /// `fails` appends nothing and fails. A put that would pass the limit appends up to it and
    /// fails. No other put fails or raises the count of faults. A number stays at 2^64 - 1 once it
    /// is reached.
    pub fn new(alloc: Global, limit: u64, fails: Vec<u64>) -> MemSink
        ensures empty { result.bytes.items ≡ [] }
        ensures told { (result.limit ≡ Some limit) × (result.fails ≡ fails) }
        ensures counts { (result.puts ≡ 0) × (result.faults ≡ 0) × (result.refusals ≡ 0) }
    {
        MemSink {
            bytes: Vec::new(alloc),
            limit: Some(limit),
            fails,
            puts: 0,
            faults: 0,
            refusals: 0,
        }
    }

    /// A sink that never answers `Failed`.
    pub fn endless(alloc: Global) -> MemSink
        ensures empty { result.bytes.items ≡ [] }
        ensures endless { IsEndless result }
        ensures counts { (result.puts ≡ 0) × (result.faults ≡ 0) × (result.refusals ≡ 0) }
    {
        MemSink {
            bytes: Vec::new(alloc),
            limit: None,
            fails: Vec::new(alloc),
            puts: 0,
            faults: 0,
            refusals: 0,
        }
    }

    /// The bytes that it holds.
    pub fn bytes(&self) -> &[u8]
        ensures { result.now ≡ self.now.bytes.items }
    {
        &self.bytes
    }

    /// How many of `wanted` more bytes it takes.
    fn room(&self, wanted: usize) -> usize
        ensures { result ≡ room_for self.now wanted }
    {
        match self.limit {
            Some(limit) => wanted.min((limit as usize).saturating_sub(self.bytes.len())),
            None => wanted,
        }
    }
}

impl Sink for MemSink {
    ghost use Rattle.byte_io.specs.Pieces.{NotFailed, PutAppends, PutCause};
    ghost use Rattle.byte_io.specs.Counts.{raised};
    ghost use Rattle.byte_io.specs.Memory.{IsEndless, PutExactly, SameTold};

    type Place = ();

    ghost held = { λ s. Some s.bytes.items };

    ghost faults = { λ s. s.faults };

    ghost refusals = { λ s. s.refusals };

    ghost place = { λ _. tt };

    fn put(&mut self, piece: &[u8]) -> Result<(), PutFault>
        ensures bytes { PutAppends (Some self.old.bytes.items) (Some self.new.bytes.items) piece.now result }
        ensures grows { self.old.faults ≤ self.new.faults }
        ensures refused { self.old.refusals ≤ self.new.refusals }
        ensures cause { PutCause self.old.faults self.new.faults self.old.refusals self.new.refusals result }
        ensures exactly { PutExactly self.old self.new piece.now result }
        ensures same { SameTold self.old self.new }
        ensures endless { IsEndless self.old → IsEndless self.new × NotFailed result }
        ensures number { self.new.puts ≡ raised self.old.puts }
    {
        let number = self.puts;
        self.puts = number.saturating_add(1);
        if self.fails.contains(&number) {
            self.faults = self.faults.saturating_add(1);
            return Err(PutFault::Failed);
        }
        let taken = self.room(piece.len());
        if self.bytes.extend_from_slice(&piece[..taken]).is_err() {
            self.refusals = self.refusals.saturating_add(1);
            return Err(PutFault::Memory(AllocError));
        }
        if taken < piece.len() {
            self.faults = self.faults.saturating_add(1);
            return Err(PutFault::Failed);
        }
        Ok(())
    }
}
