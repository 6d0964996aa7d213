//! A source in memory.
ghost use Rattle.std.specs.Prelude.{◌≡◌, ◌≤◌, ◌-◌, drop, take, length, min, is_err, true, false, OnErr, IfOk, vec_len};
ghost use Rattle.std.specs.Io.{ReadsAtMost};
ghost use Rattle.byte_io.specs.Counts.{Rose, raised, raised_if, is_numbered};
ghost use Rattle.byte_io.specs.Logs.{Gives, ends_by};

use crate::reading::{Failed, Source};

/// A source that gives the bytes of a list in steps, and fails at the calls that it was told.
pub struct MemSource {
    bytes: Vec<u8>,
    /// How many of the bytes were given.
    given: usize,
    /// The largest number of bytes of one call, at least 1.
    step: u32,
    /// The numbers of the calls that fail, counted from 0.
    fails: Vec<u64>,
    /// The number of the next call.
    calls: u64,
    faults: u64,
    /// Whether the last call failed.
    failed: bool,
    /// Whether the last call answered 0 for a buffer with room.
    ended: bool,
    ghost within: { given ≤ vec_len bytes },
    ghost whole: { ended ≡ true → given ≡ vec_len bytes },
    ghost moves: { 1 ≤ step },
}

// Written out, since a derived drop is proved anew, field by field, in each function that lets one go.
impl Drop for MemSource {
    fn drop(self) {
        let MemSource {
            bytes: _,
            given: _,
            step: _,
            fails: _,
            calls: _,
            faults: _,
            failed: _,
            ended: _,
        } = self;
    }
}

/// Copies the first `count` bytes into the start of `buf`.
fn copy_front(bytes: &[u8], buf: &mut [u8], count: usize)
    requires enough { count ≤ length bytes.now }
    requires fits { count ≤ length buf.old }
    ensures { take count buf.new ≡ take count bytes.now }
{
    buf[..count].copy_from_slice(&bytes[..count]);
}

impl MemSource {
    /// A source of `bytes` that gives at most `step` of them a call. Exactly the calls whose
    /// numbers, counted from 0, stand in `fails` fail, and only they raise the count of faults. A
    /// number stays at 2^64 - 1 once it is reached.
    pub fn new(bytes: Vec<u8>, step: u32, fails: Vec<u64>) -> MemSource
        requires { 1 ≤ step }
        ensures bytes { (result.bytes ≡ bytes) × (result.given ≡ 0) }
        ensures told { (result.step ≡ step) × (result.fails ≡ fails) }
        ensures counts { (result.calls ≡ 0) × (result.faults ≡ 0) × (result.failed ≡ false) × (result.ended ≡ false) }
    {
        MemSource {
            bytes,
            given: 0,
            step,
            fails,
            calls: 0,
            faults: 0,
            failed: false,
            ended: false,
        }
    }
}

impl Source for MemSource {
    ghost given = { λ s. take s.given s.bytes.items };

    ghost has_ended = { λ s. s.ended };

    ghost faults = { λ s. s.faults };

    ghost has_failed = { λ s. s.failed };

    fn read(&mut self, buf: &mut [u8]) -> Result<usize, Failed>
        ensures bound { ReadsAtMost result buf.new }
        ensures bytes { Gives (take self.old.given self.old.bytes.items) (take self.new.given self.new.bytes.items) result buf.new }
        ensures end { self.new.ended ≡ ends_by result (length buf.old) }
        ensures grows { self.old.faults ≤ self.new.faults }
        ensures cause { OnErr result (Rose self.old.faults self.new.faults) }
        ensures exactly { is_err result ≡ is_numbered self.old.calls self.old.fails.items }
        ensures count { self.new.faults ≡ raised_if (is_err result) self.old.faults }
        ensures last { self.new.failed ≡ is_err result }
        ensures number { self.new.calls ≡ raised self.old.calls }
        ensures most { IfOk result (λ n. n ≡ min (min (vec_len self.old.bytes - self.old.given) (length buf.old)) self.old.step) }
        ensures same { (self.new.bytes ≡ self.old.bytes) × (self.new.step ≡ self.old.step) × (self.new.fails ≡ self.old.fails) }
    {
        let number = self.calls;
        self.calls = number.saturating_add(1);
        self.ended = false;
        self.failed = self.fails.contains(&number);
        if self.failed {
            self.faults = self.faults.saturating_add(1);
            return Err(Failed);
        }
        let rest = &self.bytes[self.given..];
        let count = rest.len().min(buf.len()).min(self.step as usize);
        copy_front(rest, buf, count);
        self.given += count;
        self.ended = count == 0 && !buf.is_empty();
        Ok(count)
    }
}
