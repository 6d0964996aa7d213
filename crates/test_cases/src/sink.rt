//! A sink that waits for workers.

ghost use Rattle.std.specs.Prelude.{◌≡◌, ◌≤◌, false, None, Some};
ghost use Rattle.byte_io.specs.Pieces.{PutAppends, PutCause};

use crate::meeting::Meeting;
use byte_io::{MemSink, PutFault, Sink};

/// What a sink waits for, and what it tells.
#[derive(Drop)]
pub struct SinkWait {
    /// It waits once: at the put after which it holds this text.
    pub mark: String,
    /// It waits until the given number of workers have come to the gate.
    pub workers: u64,
    /// After that it tells the meeting when it holds all of these texts.
    pub texts: Vec<String>,
}

/// A sink in memory that may wait for workers.
#[derive(Drop)]
pub struct WaitingSink<'a> {
    out: MemSink,
    meeting: &'a Meeting,
    wait: Option<&'a SinkWait>,
    has_waited: bool,
}

impl<'a> WaitingSink<'a> {
    /// A sink that hands on what it is given, and waits if there is something to wait for.
    pub fn new(out: MemSink, meeting: &'a Meeting, wait: Option<&'a SinkWait>) -> WaitingSink<'a>
        ensures out { result.out ≡ out }
        ensures wait { result.wait ≡ wait.entry }
        ensures new { result.has_waited ≡ false }
    {
        WaitingSink {
            out,
            meeting,
            wait,
            has_waited: false,
        }
    }

    /// The sink in memory again.
    pub fn into_out(self) -> MemSink
        ensures { result ≡ self.entry.out }
    {
        let WaitingSink { out, .. } = self;
        out
    }

    // Whether it holds a text that has some bytes.
    fn holds(&self, text: &[u8]) -> bool {
        self.out
            .bytes()
            .windows(text.len().max(1))
            .any(|bytes| bytes == text)
    }

    // Whether it holds all of these.
    fn holds_all(&self, texts: &[String]) -> bool {
        for text in texts {
            if !self.holds(text.as_bytes()) {
                return false;
            }
        }
        true
    }
}

impl<'a> Sink for WaitingSink<'a> {
    type Place = ();

    ghost faults = { λ s. s.out.faults };

    ghost refusals = { λ s. s.out.refusals };

    ghost place = { λ _. tt };

    fn put(&mut self, piece: &[u8]) -> Result<(), PutFault>
        ensures bytes { PutAppends None None piece.now result }
        ensures gains { PutAppends (Some self.old.out.bytes.items) (Some self.new.out.bytes.items) piece.now result }
        ensures grows { self.old.out.faults ≤ self.new.out.faults }
        ensures refused { self.old.out.refusals ≤ self.new.out.refusals }
        ensures cause { PutCause self.old.out.faults self.new.out.faults self.old.out.refusals self.new.out.refusals result }
    {
        let answer = self.out.put(piece);
        if let Some(wait) = self.wait {
            if !self.has_waited && self.holds(wait.mark.as_bytes()) {
                self.has_waited = true;
                self.meeting.wait_for_workers(wait.workers);
            }
            if self.has_waited && self.holds_all(wait.texts.as_slice()) {
                self.meeting.takes();
            }
        }
        answer
    }
}
