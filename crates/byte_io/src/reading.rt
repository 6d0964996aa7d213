//! Where bytes come from.
ghost use Rattle.std.specs.Prelude.{◌≡◌, ℕ, Bool, List, OnErr, is_err, ◌≤◌, length};
ghost use Rattle.std.specs.Io.{ReadsAtMost};
ghost use Rattle.byte_io.specs.Logs.{Gives, ends_by};
ghost use Rattle.byte_io.specs.Counts.{Rose, raised_if};

/// A read was refused, and nothing was taken.
#[derive(Clone, Copy, Debug, Drop, PartialEq)]
pub struct Failed;

/// A source of bytes.
///
/// For clauses alone it tells all bytes that it has given (`given`), whether its last read said that no more come
/// (`has_ended`), whether its last read failed (`has_failed`), and how many failed (`faults`), at most 2^64 - 1. It
/// need not know what it will give. By the last two a caller can promise that it does not call a source again
/// that has failed.
pub trait Source {
    ghost given: { Self → List ℕ };

    ghost has_ended: { Self → Bool };

    ghost faults: { Self → ℕ };

    ghost has_failed: { Self → Bool };

    /// Gives the next bytes into the start of `buf` and answers their number. The answer 0 for a
    /// `buf` that is not empty is the end. Bytes of `buf` after that number mean nothing.
    ///
    /// `Failed` raises the count of faults by one, up to its last value, and no other answer changes
    /// it. Then nothing was taken, and a later call may go on.
    fn read(&mut self, buf: &mut [u8]) -> Result<usize, Failed>
        ensures bound { ReadsAtMost result buf.new }
        ensures bytes { Gives (given self.old) (given self.new) result buf.new }
        ensures end { has_ended self.new ≡ ends_by result (length buf.old) }
        ensures grows { faults self.old ≤ faults self.new }
        ensures cause { OnErr result (Rose (faults self.old) (faults self.new)) }
        ensures count { faults self.new ≡ raised_if (is_err result) (faults self.old) }
        ensures last { has_failed self.new ≡ is_err result };
}
