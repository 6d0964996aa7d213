//! The other side of a session.

ghost use Rattle.std.specs.Prelude.{◌≡◌, ℕ, Bool, List, Option, None, OnErr, ◌≤◌, is_err, length};
ghost use Rattle.std.specs.Io.{ReadsAtMost};
ghost use Rattle.byte_io.specs.Counts.{Rose, raised_if};
ghost use Rattle.player_lines.specs.Sessions.{Act};
ghost use Rattle.player_lines.specs.inner.Pasts.{ReadAdds, DataAdds, TextAdds};

/// A call of a client failed.
#[derive(Clone, Copy, Debug, Drop, PartialEq)]
pub struct Failed;

/// The other side of a session: it gives the bytes of lines and takes the bytes of answers.
///
/// For clauses alone it may tell what passed (`past`), the newest act first, whether its last read failed
/// (`has_failed`), and it counts the puts that failed (`put_faults`), at most 2^64 - 1.
pub trait Client {
    ghost use Rattle.player_lines.specs.Sessions.{Act};
    ghost use Rattle.player_lines.specs.inner.Pasts.{ReadAdds, DataAdds, TextAdds};

    ghost past: { Self → Option (List Act) } = { λ _. None };

    ghost has_failed: { Self → Bool };

    ghost put_faults: { Self → ℕ };

    /// Gives bytes that are there, waiting for at least one; 0 bytes mean the end.
    fn read(&mut self, buf: &mut [u8]) -> Result<usize, Failed>
        requires room { 1 ≤ length buf.old }
        ensures bound { ReadsAtMost result buf.new }
        ensures adds { ReadAdds (past self.old) (past self.new) result buf.new }
        ensures last { has_failed self.new ≡ is_err result }
        ensures puts { put_faults self.new ≡ put_faults self.old };

    /// Takes a piece of data, after a line that tells how many bytes it has, and hands both on at once.
    fn put_data(&mut self, piece: &[u8]) -> Result<(), Failed>
        ensures adds { DataAdds (past self.old) (past self.new) piece.now result }
        ensures grows { put_faults self.old ≤ put_faults self.new }
        ensures cause { OnErr result (Rose (put_faults self.old) (put_faults self.new)) }
        ensures count { put_faults self.new ≡ raised_if (is_err result) (put_faults self.old) }
        ensures reads { has_failed self.new ≡ has_failed self.old };

    /// Takes text of the last line of an answer, and hands it on at once.
    fn put_text(&mut self, text: &[u8]) -> Result<(), Failed>
        ensures adds { TextAdds (past self.old) (past self.new) text.now result }
        ensures grows { put_faults self.old ≤ put_faults self.new }
        ensures cause { OnErr result (Rose (put_faults self.old) (put_faults self.new)) }
        ensures count { put_faults self.new ≡ raised_if (is_err result) (put_faults self.old) }
        ensures reads { has_failed self.new ≡ has_failed self.old };
}
