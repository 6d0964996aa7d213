//! Where bytes go.
ghost use Rattle.std.specs.Prelude.{ℕ, List, Option, None, ◌≡◌, ◌≤◌};

use std::alloc::AllocError;

/// Why not all bytes were put. What a sink gained then is a prefix of them.
#[derive(Clone, Copy, Debug, Drop, PartialEq)]
pub enum PutFault {
    /// The sink failed.
    Failed,
    /// There was no memory, for the sink or for what was to be put.
    Memory(AllocError),
}

/// A sink of bytes.
///
/// For clauses alone it may tell the bytes that it holds (`held`), it counts its faults (`faults`)
/// and its refusals for lack of memory (`refusals`), each at most 2^64 - 1, and it has a place
/// (`place`) by which generic code still knows which sink it has after a call. The place is the
/// unit type wherever nobody has to know that.
pub trait Sink {
    ghost use Rattle.byte_io.specs.Pieces.{PutAppends, PutCause};

    /// What tells this sink from others, in clauses alone.
    type Place;

    ghost held: { Self → Option (List ℕ) } = { λ _. None };

    ghost faults: { Self → ℕ };

    ghost refusals: { Self → ℕ };

    ghost place: { Self → Self.Place };

    /// Appends the whole piece.
    ///
    /// `Failed` comes only if the count of faults rose, or stands at its last value; a prefix of
    /// the piece was appended. `Memory` comes only if the count of refusals rose, or stands at
    /// its last value; nothing was appended.
    fn put(&mut self, piece: &[u8]) -> Result<(), PutFault>
        ensures bytes { PutAppends (held self.old) (held self.new) piece.now result }
        ensures grows { faults self.old ≤ faults self.new }
        ensures refused { refusals self.old ≤ refusals self.new }
        ensures cause { PutCause (faults self.old) (faults self.new) (refusals self.old) (refusals self.new) result }
        ensures place { place self.new ≡ place self.old };

    /// Appends the whole piece, as `put` does. A sink that keeps its pieces keeps this one, without
    /// a copy.
    fn put_owned(&mut self, piece: Vec<u8>) -> Result<(), PutFault>
        ensures bytes { PutAppends (held self.old) (held self.new) piece.items result }
        ensures grows { faults self.old ≤ faults self.new }
        ensures refused { refusals self.old ≤ refusals self.new }
        ensures cause { PutCause (faults self.old) (faults self.new) (refusals self.old) (refusals self.new) result }
        ensures place { place self.new ≡ place self.old }
    {
        self.put(&piece)
    }
}
