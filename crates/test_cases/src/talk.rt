//! A client in memory that tells what passed.

ghost use Rattle.std.specs.Prelude.{◌≡◌, ◌≤◌, ◌-◌, [], false, drop, vec_len, Some, OnOk, IfErr};
ghost use Rattle.player_lines.specs.Sessions.{AreAnswers, AtOnce, lines_of};
ghost use Rattle.player_lines.specs.inner.Reading.{ClientCause, StoppedBy};
ghost use Rattle.player_lines.specs.Passings.{acts};
ghost use Rattle.test_cases.specs.Talks.{IsTold};

use byte_io::{MemSink, MemSource, Sink, Source};
use ghost_list::GhostList;
use player_lines::{Answerer, Client, Failed, Passed, Session, Stop, put_frame, serve};
use std::alloc::Global;
use std::marker::Sync;
use std::thread::Threads;

/// A client that gives the bytes of an input and keeps the answers, both in memory.
#[derive(Drop)]
pub struct Talk {
    source: MemSource,
    out: MemSink,
    /// Whether the last read failed.
    failed: bool,
    /// How many puts failed.
    put_faults: u64,
    /// What passed, the oldest act first, for clauses alone.
    passed: GhostList<Passed>,
    ghost tells: { IsTold (acts passed.items) (drop source.given source.bytes.items) source.bytes.items out.bytes.items },
}

// How many bytes a sink took since it held the given number.
fn taken_since(out: &MemSink, before: usize) -> usize
    ensures { result ≡ vec_len out.now.bytes - before }
{
    out.bytes().len().saturating_sub(before)
}

impl Talk {
    /// A client of which the input has not been read. At most `step` of its bytes come at a time, and it takes at most
    /// `room` bytes of answers.
    pub fn new(alloc: Global, input: Vec<u8>, step: u32, room: u64) -> Talk
        requires { 1 ≤ step }
        ensures new { result.passed.items ≡ [] }
        ensures input { result.source.bytes ≡ input }
        ensures limits { (result.source.step ≡ step) × (result.out.limit ≡ Some room) }
    {
        Talk {
            source: MemSource::new(input, step, Vec::new(alloc)),
            out: MemSink::new(alloc, room, Vec::new(alloc)),
            failed: false,
            put_faults: 0,
            passed: GhostList::new(),
        }
    }

    /// The bytes that went to it.
    pub fn answers(&self) -> &[u8]
        ensures { result.now ≡ self.now.out.bytes.items }
    {
        self.out.bytes()
    }

    /// Serves a session with such a client, with which nothing has passed. Whenever bytes were asked for, all lines
    /// that had come were answered. If the session ends well, the client's answers are those to all lines of its
    /// input, each by what the answerer says of that line alone. If it stops early, the lines that had come whole
    /// are answered, or what went is a prefix of the answers; a fault comes only if a call of the client failed.
    pub fn serve<R: Threads + Sync, A: Answerer>(
        rt: &R,
        alloc: Global,
        answerer: &A,
        session: &mut Session<Talk>,
    ) -> Result<(), Stop>
        requires whole { session.old.torn ≡ false }
        requires new { session.old.client.passed.items ≡ [] }
        ensures at_once { AtOnce (A.answers answerer.now) (acts session.new.client.passed.items) }
        ensures ends { OnOk result (AreAnswers (A.answers answerer.now) (lines_of session.new.client.source.bytes.items) session.new.client.out.bytes.items) }
        ensures stops { IfErr result (λ why. StoppedBy (A.answers answerer.now) why (acts session.new.client.passed.items)) }
        ensures grows { session.old.client.put_faults ≤ session.new.client.put_faults }
        ensures cause { ClientCause session.old.client.put_faults session.new.client.put_faults session.new.torn session.new.client.failed result }
    {
        match serve(rt, alloc, answerer, session) {
            Ok(()) => Ok(()),
            Err(stop) => Err(stop),
        }
    }
}

impl Client for Talk {
    ghost past = { λ t. Some (acts t.passed.items) };

    ghost has_failed = { λ t. t.failed };

    ghost put_faults = { λ t. t.put_faults };

    fn read(&mut self, buf: &mut [u8]) -> Result<usize, Failed> {
        match self.source.read(buf) {
            Ok(count) => {
                let passed = Passed::Got(GhostList::of(&buf[..count]));
                self.passed = self.passed.and(&passed);
                self.failed = false;
                Ok(count)
            }
            Err(_) => {
                let passed = Passed::NotGot;
                self.passed = self.passed.and(&passed);
                self.failed = true;
                Err(Failed)
            }
        }
    }

    fn put_data(&mut self, piece: &[u8]) -> Result<(), Failed> {
        let before = self.out.bytes().len();
        match put_frame(&mut self.out, piece) {
            Ok(()) => {
                let passed = Passed::Data(GhostList::of(piece));
                self.passed = self.passed.and(&passed);
                Ok(())
            }
            Err(failed) => {
                let passed = Passed::TornData(GhostList::of(piece), taken_since(&self.out, before));
                self.passed = self.passed.and(&passed);
                self.put_faults = self.put_faults.saturating_add(1);
                Err(failed)
            }
        }
    }

    fn put_text(&mut self, text: &[u8]) -> Result<(), Failed> {
        let before = self.out.bytes().len();
        match self.out.put(text) {
            Ok(()) => {
                let passed = Passed::Text(GhostList::of(text));
                self.passed = self.passed.and(&passed);
                Ok(())
            }
            Err(_) => {
                let passed = Passed::TornText(GhostList::of(text), taken_since(&self.out, before));
                self.passed = self.passed.and(&passed);
                self.put_faults = self.put_faults.saturating_add(1);
                Err(Failed)
            }
        }
    }
}
