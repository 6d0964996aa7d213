//! A client of which the two directions are a source and a sink.

ghost use Rattle.std.specs.Prelude.{◌≡◌, ◌++◌, [], codes, Some, false, OnErr, ◌≤◌, is_err};
ghost use Rattle.std.specs.Io.{ReadsAtMost};
ghost use Rattle.byte_io.specs.Counts.{Rose, raised_if};
ghost use Rattle.byte_io.specs.Logs.{Gives};
ghost use Rattle.player_lines.specs.Passings.{acts};
ghost use Rattle.player_lines.specs.Sessions.{frame};
ghost use Rattle.player_lines.specs.inner.Pasts.{DataAdds, Gains, HasRefused, ReadAdds, TextAdds};

use crate::client::{Client, Failed};
use crate::passed::Passed;
use byte_io::{PutFault, Sink, Source};
use ghost_list::GhostList;
use itoa::Buffer;

/// A source that gives the bytes of a client, and a sink that takes those for it. Their calls are logged in order, so
/// as a client they tell the whole past, whatever they tell apart.
#[derive(Drop)]
pub struct Ends<S, K> {
    source: S,
    out: K,
    /// Whether the last read failed.
    failed: bool,
    /// How many puts failed.
    put_faults: u64,
    /// What passed, the oldest act first, for clauses alone.
    passed: GhostList<Passed>,
}

// Puts a piece.
fn put_piece<K: Sink>(out: &mut K, piece: &[u8]) -> Result<(), Failed>
    ensures bytes { Gains (K.held out.old) (K.held out.new) piece.now result }
    ensures grows { K.faults out.old ≤ K.faults out.new }
    ensures refused { K.refusals out.old ≤ K.refusals out.new }
    ensures cause { OnErr result (HasRefused (K.faults out.old) (K.faults out.new) (K.refusals out.old) (K.refusals out.new)) }
{
    match out.put(piece) {
        Ok(()) => Ok(()),
        Err(PutFault::Failed) => Err(Failed),
        Err(PutFault::Memory(_)) => Err(Failed),
    }
}

// Puts two pieces, one after the other.
#[tactic(auto, using(crate::proofs::Gained::gains_then, crate::proofs::Gained::gains_early, crate::proofs::Gained::refused_later))]
fn put_both<K: Sink>(out: &mut K, first: &[u8], second: &[u8]) -> Result<(), Failed>
    ensures bytes { Gains (K.held out.old) (K.held out.new) (first.now ++ second.now) result }
    ensures grows { K.faults out.old ≤ K.faults out.new }
    ensures refused { K.refusals out.old ≤ K.refusals out.new }
    ensures cause { OnErr result (HasRefused (K.faults out.old) (K.faults out.new) (K.refusals out.old) (K.refusals out.new)) }
{
    match put_piece(out, first) {
        Ok(()) => put_piece(out, second),
        Err(failed) => Err(failed),
    }
}

// Puts the line before a piece: the digits of the number of its bytes.
#[tactic(auto, using(crate::proofs::Gained::gains_then, crate::proofs::Gained::gains_early, crate::proofs::Gained::refused_later))]
fn put_line<K: Sink>(out: &mut K, digits: &[u8]) -> Result<(), Failed>
    ensures bytes { Gains (K.held out.old) (K.held out.new) ((codes "data " ++ digits.now) ++ codes "\n") result }
    ensures grows { K.faults out.old ≤ K.faults out.new }
    ensures refused { K.refusals out.old ≤ K.refusals out.new }
    ensures cause { OnErr result (HasRefused (K.faults out.old) (K.faults out.new) (K.refusals out.old) (K.refusals out.new)) }
{
    match put_both(out, b"data ", digits) {
        Ok(()) => put_piece(out, b"\n"),
        Err(failed) => Err(failed),
    }
}

/// Puts a piece of data in its frame: a line with the number of its bytes, and the piece. If the sink fails, or has
/// no memory for a piece, it has gained a prefix of the frame.
#[tactic(auto, using(crate::proofs::Gained::gains_then, crate::proofs::Gained::gains_early, crate::proofs::Gained::refused_later))]
pub fn put_frame<K: Sink>(out: &mut K, piece: &[u8]) -> Result<(), Failed>
    ensures bytes { Gains (K.held out.old) (K.held out.new) (frame piece.now) result }
    ensures grows { K.faults out.old ≤ K.faults out.new }
    ensures refused { K.refusals out.old ≤ K.refusals out.new }
    ensures cause { OnErr result (HasRefused (K.faults out.old) (K.faults out.new) (K.refusals out.old) (K.refusals out.new)) }
{
    let mut buffer = Buffer::new();
    match put_line(out, buffer.format(piece.len() as u64).as_bytes()) {
        Ok(()) => put_piece(out, piece),
        Err(failed) => Err(failed),
    }
}

impl<S: Source, K: Sink> Ends<S, K> {
    /// A client that gives what the source gives, and hands to the sink what it takes.
    pub fn new(source: S, out: K) -> Ends<S, K>
        ensures { (result.source ≡ source) × (result.out ≡ out) × (result.failed ≡ false) × (result.put_faults ≡ 0) × (result.passed.items ≡ []) }
    {
        Ends {
            source,
            out,
            failed: false,
            put_faults: 0,
            passed: GhostList::new(),
        }
    }

    /// The sink again.
    pub fn into_out(self) -> K
    where
        S: Drop,
        ensures { result ≡ self.out }
    {
        let Ends { out, source: _, .. } = self;
        out
    }
}

impl<S: Source, K: Sink> Client for Ends<S, K> {
    ghost past = { λ s. Some (acts s.passed.items) };

    ghost has_failed = { λ s. s.failed };

    ghost put_faults = { λ s. s.put_faults };

    fn read(&mut self, buf: &mut [u8]) -> Result<usize, Failed>
        ensures bound { ReadsAtMost result buf.new }
        ensures adds { ReadAdds (Some (acts self.old.passed.items)) (Some (acts self.new.passed.items)) result buf.new }
        ensures bytes { Gives (S.given self.old.source) (S.given self.new.source) result buf.new }
        ensures stays { self.new.out ≡ self.old.out }
        ensures last { self.new.failed ≡ is_err result }
        ensures puts { self.new.put_faults ≡ self.old.put_faults }
    {
        match self.source.read(buf) {
            Ok(count) => {
                let passed = Passed::Got(GhostList::of(&buf[..count]));
                self.passed = self.passed.and(&passed);
                self.failed = false;
                Ok(count)
            }
            Err(_) => {
                let passed = Passed::NotGot;
                self.passed = self.passed.and(&passed);
                self.failed = true;
                Err(Failed)
            }
        }
    }

    fn put_data(&mut self, piece: &[u8]) -> Result<(), Failed>
        ensures adds { DataAdds (Some (acts self.old.passed.items)) (Some (acts self.new.passed.items)) piece.now result }
        ensures bytes { Gains (K.held self.old.out) (K.held self.new.out) (frame piece.now) result }
        ensures stays { self.new.source ≡ self.old.source }
        ensures grows { self.old.put_faults ≤ self.new.put_faults }
        ensures cause { OnErr result (Rose self.old.put_faults self.new.put_faults) }
        ensures count { self.new.put_faults ≡ raised_if (is_err result) self.old.put_faults }
        ensures reads { self.new.failed ≡ self.old.failed }
    {
        match put_frame(&mut self.out, piece) {
            Ok(()) => {
                let passed = Passed::Data(GhostList::of(piece));
                self.passed = self.passed.and(&passed);
                Ok(())
            }
            Err(failed) => {
                let passed = Passed::TornData(GhostList::of(piece), 0);
                self.passed = self.passed.and(&passed);
                self.put_faults = self.put_faults.saturating_add(1);
                Err(failed)
            }
        }
    }

    fn put_text(&mut self, text: &[u8]) -> Result<(), Failed>
        ensures adds { TextAdds (Some (acts self.old.passed.items)) (Some (acts self.new.passed.items)) text.now result }
        ensures bytes { Gains (K.held self.old.out) (K.held self.new.out) text.now result }
        ensures stays { self.new.source ≡ self.old.source }
        ensures grows { self.old.put_faults ≤ self.new.put_faults }
        ensures cause { OnErr result (Rose self.old.put_faults self.new.put_faults) }
        ensures count { self.new.put_faults ≡ raised_if (is_err result) self.old.put_faults }
        ensures reads { self.new.failed ≡ self.old.failed }
    {
        match put_piece(&mut self.out, text) {
            Ok(()) => {
                let passed = Passed::Text(GhostList::of(text));
                self.passed = self.passed.and(&passed);
                Ok(())
            }
            Err(failed) => {
                let passed = Passed::TornText(GhostList::of(text), 0);
                self.passed = self.passed.and(&passed);
                self.put_faults = self.put_faults.saturating_add(1);
                Err(failed)
            }
        }
    }
}
