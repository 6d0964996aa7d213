//! A sink over std's `Write`.
ghost use Rattle.std.specs.Prelude.{◌≡◌, ◌≤◌, [], is_err, Some};
ghost use Rattle.std.specs.Io.{WritesAtMost};
ghost use Rattle.std.specs.Io.KnownBytes.{WriteAppends};
ghost use Rattle.byte_io.specs.Counts.{raised_if};
ghost use Rattle.byte_io.specs.Pieces.{PutAppends, PutCause};

use crate::writing::{PutFault, Sink};
use ghost_list::GhostList;
use std::io::{Error, ErrorKind, Write};

/// A sink over a writer. It tells the bytes that the writer took, whatever that one tells, takes no memory, and so
/// never answers `Memory`.
#[derive(Drop)]
pub struct StdSink<W> {
    writer: W,
    /// How many puts failed. An interrupted call that was repeated is no fault.
    faults: u64,
    /// All bytes that the writer answered it took, for clauses alone.
    taken: GhostList<u8>,
}

impl<W: Write> StdSink<W> {
    /// A sink that hands its pieces to `writer`.
    pub fn new(writer: W) -> StdSink<W>
        ensures { (result.writer ≡ writer) × (result.faults ≡ 0) × (result.taken.items ≡ []) }
    {
        StdSink {
            writer,
            faults: 0,
            taken: GhostList::new(),
        }
    }

    // Hands bytes to the writer once.
    fn hand(&mut self, bytes: &[u8]) -> Result<usize, Error>
        ensures bound { WritesAtMost result bytes.now }
        ensures bytes { WriteAppends (Some self.old.taken.items) (Some self.new.taken.items) result bytes.now }
        ensures writer { WriteAppends (W.contents self.old.writer) (W.contents self.new.writer) result bytes.now }
        ensures faults { self.new.faults ≡ self.old.faults }
    {
        match self.writer.write(bytes) {
            Ok(count) => {
                self.taken = self.taken.with_all(&bytes[..count]);
                Ok(count)
            }
            Err(error) => Err(error),
        }
    }
}

impl<W: Write> Sink for StdSink<W> {
    type Place = ();

    ghost held = { λ s. Some s.taken.items };

    ghost faults = { λ s. s.faults };

    ghost refusals = { λ _. 0 };

    ghost place = { λ _. tt };

    /// Writes on if the writer took a part or was interrupted. A writer that takes nothing of
    /// what is left has failed.
    fn put(&mut self, piece: &[u8]) -> Result<(), PutFault>
        ensures bytes { PutAppends (Some self.old.taken.items) (Some self.new.taken.items) piece.now result }
        ensures writer { PutAppends (W.contents self.old.writer) (W.contents self.new.writer) piece.now result }
        ensures grows { self.old.faults ≤ self.new.faults }
        ensures cause { PutCause self.old.faults self.new.faults 0 0 result }
        ensures count { self.new.faults ≡ raised_if (is_err result) self.old.faults }
    {
        let mut rest = piece;
        for _ in 0..u64::MAX {
            if rest.is_empty() {
                return Ok(());
            }
            match self.hand(rest) {
                Ok(0) => break,
                Ok(count) => rest = &rest[count..],
                Err(error) if error.kind() == ErrorKind::Interrupted => {}
                Err(_) => break,
            }
        }
        self.faults = self.faults.saturating_add(1);
        Err(PutFault::Failed)
    }
}
