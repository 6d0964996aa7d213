//! A sink that counts.

ghost use Rattle.std.specs.Prelude.{◌≡◌, ◌+◌, ◌++◌, ◌%◌, ◌^◌, [], length};
ghost use Rattle.byte_io.specs.Sums.{byte_sum};

use crate::sums::sum_behind;
use crate::{PutFault, Sink};
use ghost_list::GhostList;
use std::alloc::AllocError;

/// A sink that keeps no byte: it counts what is put, and sums it up. Only clauses see the bytes themselves.
#[derive(Drop)]
pub struct SumSink {
    /// How many bytes were put.
    bytes: u64,
    /// Their sum modulo 2^64.
    sum: u64,
    /// How many puts were refused.
    refused: u64,
    /// All bytes that were put, for clauses alone.
    taken: GhostList<u8>,
    ghost counted: { bytes ≡ length taken.items },
    ghost summed: { sum ≡ byte_sum taken.items % 2 ^ 64 },
}

impl SumSink {
    /// A sink into which nothing was put.
    pub fn new() -> SumSink
        ensures { result.taken.items ≡ [] }
    {
        SumSink {
            bytes: 0,
            sum: 0,
            refused: 0,
            taken: GhostList::new(),
        }
    }

    // Takes a piece, with which this is the number of all bytes.
    fn take(&mut self, piece: &[u8], bytes: u64)
        requires { bytes ≡ self.old.bytes + length piece.now }
        ensures taken { self.new.taken.items ≡ self.old.taken.items ++ piece.now }
        ensures refused { self.new.refused ≡ self.old.refused }
    {
        self.bytes = bytes;
        self.sum = sum_behind(self.sum, piece);
        self.taken = self.taken.with_all(piece);
    }

    /// How many bytes were put.
    pub fn bytes(&self) -> u64
        ensures { result ≡ length self.now.taken.items }
    {
        self.bytes
    }

    /// The sum of all bytes that were put, modulo 2^64.
    pub fn sum(&self) -> u64
        ensures { result ≡ byte_sum self.now.taken.items % 2 ^ 64 }
    {
        self.sum
    }
}

impl Sink for SumSink {
    ghost use Rattle.std.specs.Prelude.{Some, ◌≤◌};
    ghost use Rattle.byte_io.specs.Pieces.{NotFailed, PutAppends, PutCause};

    type Place = ();

    ghost held = { λ s. Some s.taken.items };

    ghost faults = { λ _. 0 };

    ghost refusals = { λ s. s.refused };

    ghost place = { λ _. tt };

    /// Never answers `Failed`. A piece is refused only if the count would not fit: 2^64 bytes take centuries to put.
    fn put(&mut self, piece: &[u8]) -> Result<(), PutFault>
        ensures bytes { PutAppends (Some self.old.taken.items) (Some self.new.taken.items) piece.now result }
        ensures grows { 0 ≤ 0 }
        ensures refused { self.old.refused ≤ self.new.refused }
        ensures cause { PutCause 0 0 self.old.refused self.new.refused result }
        ensures answers { NotFailed result }
    {
        let Some(bytes) = self.bytes.checked_add(piece.len() as u64) else {
            self.refused = self.refused.saturating_add(1);
            return Err(PutFault::Memory(AllocError));
        };
        self.take(piece, bytes);
        Ok(())
    }
}
