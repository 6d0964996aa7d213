//! Who answers lines, and how a session ends.

ghost use Rattle.std.specs.Prelude.{◌≡◌, ℕ, ◌≤◌, List, false, OnErr, OnOk, length};
ghost use Rattle.player_lines.specs.Sessions.{HasFailed};
ghost use Rattle.player_lines.specs.inner.Pasts.{Answered};

use crate::client::{Client, Failed};
use crate::session::Session;
use std::thread::Threads;

/// Why a session ended before its input did.
#[derive(Clone, Copy, Debug, Drop, PartialEq)]
pub enum Stop {
    /// The client could not be read. All lines that had come were answered.
    Read,
    /// The client took no more. What went are the first answers, the last of them maybe in part.
    Write,
    /// There was no memory for a buffer; or there were 2^64 lines, or bytes came 2^64 times: never so in a session.
    Memory,
}

/// Why a line was not kept.
#[derive(Clone, Copy, Debug, Drop, PartialEq)]
pub enum Unkept {
    /// It is longer than the answerer takes.
    TooLong,
    /// There was no memory for its bytes.
    Memory,
}

/// Somebody who answers lines.
pub trait Answerer {
    ghost use Rattle.std.specs.Thread.{IsSync};
    ghost use Rattle.player_lines.specs.Sessions.{HasFailed};
    ghost use Rattle.player_lines.specs.inner.Pasts.{Answered};
    ghost use Rattle.player_lines.specs.inner.Reading.{IsUnkept};

    /// Which bytes are an answer to the line of a number, counted from 0.
    ghost answers: { Self → ℕ → List ℕ → List ℕ → Type 0 };

    /// How many bytes a line may have.
    ghost most: { Self → ℕ };

    /// How many bytes a line may have.
    fn most(&self) -> usize
        ensures { result ≡ most self.now };

    /// Answers the line of this number; it may start threads by `rt`. If the client fails, it is not called again.
    fn answer<R: Threads + Sync, C: Client>(
        &self,
        rt: &R,
        session: &mut Session<C>,
        number: u64,
        line: &[u8],
    ) -> Result<(), Failed>
        requires sync { IsSync R.row }
        requires short { length line.now ≤ most self.now }
        requires whole { session.old.torn ≡ false }
        ensures answered { Answered (answers self.now number line.now) (C.past session.old.client) (C.past session.new.client) result }
        ensures whole { OnOk result (session.new.torn ≡ false) }
        ensures grows { C.put_faults session.old.client ≤ C.put_faults session.new.client }
        ensures cause { OnErr result (HasFailed (C.put_faults session.old.client) (C.put_faults session.new.client) session.new.torn) };

    /// Answers the line of this number, which was not kept.
    fn refuse<C: Client>(
        &self,
        session: &mut Session<C>,
        number: u64,
        why: Unkept,
    ) -> Result<(), Failed>
        requires whole { session.old.torn ≡ false }
        ensures answered { (line : List ℕ) → IsUnkept (most self.now) why line → Answered (answers self.now number line) (C.past session.old.client) (C.past session.new.client) result }
        ensures whole { OnOk result (session.new.torn ≡ false) }
        ensures grows { C.put_faults session.old.client ≤ C.put_faults session.new.client }
        ensures cause { OnErr result (HasFailed (C.put_faults session.old.client) (C.put_faults session.new.client) session.new.torn) };
}
