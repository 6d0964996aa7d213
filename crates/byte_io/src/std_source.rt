//! A source over std's `Read`.
ghost use Rattle.std.specs.Prelude.{◌≡◌, ◌≤◌, [], OnErr, is_err, false, length};
ghost use Rattle.std.specs.Io.{ReadsAtMost};
ghost use Rattle.std.specs.Io.KnownBytes.{ReadConsumes};
ghost use Rattle.byte_io.specs.Counts.{Rose, raised_if};
ghost use Rattle.byte_io.specs.Logs.{Gives, ends_by};

use crate::reading::{Failed, Source};
use ghost_list::GhostList;
use std::io::{ErrorKind, Read};

/// A source over a reader. It tells what it gave, whatever the reader tells.
#[derive(Drop)]
pub struct StdSource<R> {
    reader: R,
    /// How many reads failed. An interrupted call that was repeated is no fault.
    faults: u64,
    /// Whether the last read failed.
    failed: bool,
    /// Whether the last read answered 0 bytes for a buffer with room.
    ended: bool,
    /// All bytes that it has given, for clauses alone.
    given: GhostList<u8>,
}

impl<R: Read> StdSource<R> {
    /// A source that gives what `reader` gives.
    pub fn new(reader: R) -> StdSource<R>
        ensures { (result.reader ≡ reader) × (result.faults ≡ 0) × (result.failed ≡ false) × (result.ended ≡ false) × (result.given.items ≡ []) }
    {
        StdSource {
            reader,
            faults: 0,
            failed: false,
            ended: false,
            given: GhostList::new(),
        }
    }
}

impl<R: Read> Source for StdSource<R> {
    ghost given = { λ s. s.given.items };

    ghost has_ended = { λ s. s.ended };

    ghost faults = { λ s. s.faults };

    ghost has_failed = { λ s. s.failed };

    /// Reads again if the reader was interrupted.
    fn read(&mut self, buf: &mut [u8]) -> Result<usize, Failed>
        ensures bound { ReadsAtMost result buf.new }
        ensures bytes { Gives self.old.given.items self.new.given.items result buf.new }
        ensures end { self.new.ended ≡ ends_by result (length buf.old) }
        ensures reader { ReadConsumes (R.remaining self.old.reader) (R.remaining self.new.reader) result buf.new }
        ensures grows { self.old.faults ≤ self.new.faults }
        ensures cause { OnErr result (Rose self.old.faults self.new.faults) }
        ensures count { self.new.faults ≡ raised_if (is_err result) self.old.faults }
        ensures last { self.new.failed ≡ is_err result }
    {
        self.failed = false;
        self.ended = false;
        for _ in 0..u64::MAX {
            match self.reader.read(buf) {
                Ok(count) => {
                    self.ended = count == 0 && !buf.is_empty();
                    self.given = self.given.with_all(&buf[..count]);
                    return Ok(count);
                }
                Err(error) if error.kind() == ErrorKind::Interrupted => {}
                Err(_) => break,
            }
        }
        self.faults = self.faults.saturating_add(1);
        self.failed = true;
        Err(Failed)
    }
}
