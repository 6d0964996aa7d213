//! The answers of the sources and sinks, call by call, each through its trait.
ghost use Rattle.std.specs.Prelude.{◌≤◌, IfOk};

use crate::cases::Cases;
use byte_io::{
    Failed, Gate, MemSink, MemSource, OpenGate, PutFault, Sink, Source, StdSink, StdSource,
};
use std::alloc::{AllocError, Global};
use std::io::{Error, ErrorKind, Read, Write};
use test_table::LineFault;

/// What one call of a fake reader or writer does.
#[derive(Clone, Copy)]
enum Step {
    /// Moves the given number of bytes.
    Moves(usize),
    Fails(ErrorKind),
}

/// A reader that gives sevens, and a writer, by a list of steps; after its end
/// they move nothing.
#[derive(Drop)]
struct Scripted {
    steps: Vec<Step>,
    next: usize,
}

impl Scripted {
    fn step(&mut self, room: usize) -> std::io::Result<usize>
        ensures { IfOk result (λ n. n ≤ room) }
    {
        let Some(step) = self.steps.get(self.next) else {
            return Ok(0);
        };
        self.next = self.next.saturating_add(1);
        match *step {
            Step::Moves(count) => Ok(count.min(room)),
            Step::Fails(kind) => Err(Error::from(kind)),
        }
    }
}

impl Read for Scripted {
    fn read(&mut self, buf: &mut [u8]) -> std::io::Result<usize> {
        let count = self.step(buf.len())?;
        buf[..count].fill(7);
        Ok(count)
    }
}

impl Write for Scripted {
    fn write(&mut self, buf: &[u8]) -> std::io::Result<usize> {
        self.step(buf.len())
    }

    fn flush(&mut self) -> std::io::Result<()> {
        Ok(())
    }
}

fn read_once<S: Source>(source: &mut S, buf: &mut [u8]) -> Result<usize, Failed> {
    source.read(buf)
}

fn put_once<K: Sink>(sink: &mut K, piece: &[u8]) -> Result<(), PutFault> {
    sink.put(piece)
}

fn put_owned_once<K: Sink>(sink: &mut K, piece: Vec<u8>) -> Result<(), PutFault> {
    sink.put_owned(piece)
}

/// Reads five bytes from a source that gives two a call and fails at its second.
fn read_in_steps(source: &mut MemSource, cases: &mut Cases) {
    let mut buf = [0; 3];
    let read = read_once(source, &mut buf);
    cases.same("two bytes a call", &read, &Ok(2));
    cases.same("the first two", &buf, &[1, 2, 0]);
    let read = read_once(source, &mut buf);
    cases.same("the second call fails", &read, &Err(Failed));
    let read = read_once(source, &mut buf[..1]);
    cases.same("as many as asked", &read, &Ok(1));
    cases.same("the third", &buf, &[3, 2, 0]);
    let read = read_once(source, &mut buf);
    cases.same("the last two", &read, &Ok(2));
    cases.same("the fourth and the fifth", &buf, &[4, 5, 0]);
    cases.same("no more", &read_once(source, &mut buf), &Ok(0));
}

/// A source in memory gives in steps, and fails as told.
pub fn memory_gives_in_steps(alloc: Global, cases: &mut Cases) -> Result<(), LineFault> {
    cases.begin("memory source");
    let fails = vec![in alloc; 1]?;
    let bytes = vec![in alloc; 1, 2, 3, 4, 5]?;
    read_in_steps(&mut MemSource::new(bytes, 2, fails), cases);
    Ok(())
}

/// Puts into a sink that takes 495 bytes and fails at its second put.
fn put_up_to_limit(sink: &mut MemSink, cases: &mut Cases) {
    let piece = [7; 248];
    cases.same("there is room", &put_once(sink, &piece), &Ok(()));
    let put = put_once(sink, &piece);
    cases.same("the second put fails", &put, &Err(PutFault::Failed));
    cases.same("as before", &sink.bytes().len(), &248);
    let put = put_once(sink, &piece);
    cases.same("a prefix fits", &put, &Err(PutFault::Failed));
    cases.same("up to the limit", &sink.bytes().len(), &495);
    cases.same("nothing fits", &put_once(sink, &[]), &Ok(()));
}

/// Puts three pieces into an endless sink, the last of its own.
fn put_endless(alloc: Global, cases: &mut Cases) -> Result<(), LineFault> {
    let own = vec![in alloc; 4, 5]?;
    let mut endless = MemSink::endless(alloc);
    cases.same("endless", &put_once(&mut endless, &[1, 2]), &Ok(()));
    cases.same("one more", &put_once(&mut endless, &[3]), &Ok(()));
    let put = put_owned_once(&mut endless, own);
    cases.same("a piece of its own", &put, &Ok(()));
    let bytes = endless.bytes();
    cases.same("all in order", &bytes, &[1, 2, 3, 4, 5].as_slice());
    Ok(())
}

/// A sink in memory takes up to its limit, and fails as told.
pub fn memory_takes_up_to_its_limit(alloc: Global, cases: &mut Cases) -> Result<(), LineFault> {
    cases.begin("memory sink");
    let fails = vec![in alloc; 1]?;
    put_up_to_limit(&mut MemSink::new(alloc, 495, fails), cases);
    put_endless(alloc, cases)
}

/// Reads through an adapter over a reader that is interrupted, and later fails.
fn read_adapted(steps: Vec<Step>, cases: &mut Cases) {
    let mut source = StdSource::new(Scripted { steps, next: 0 });
    let mut buf = [0; 3];
    let read = read_once(&mut source, &mut buf);
    cases.same("after an interrupt", &read, &Ok(2));
    let read = read_once(&mut source, &mut buf);
    cases.same("a failure", &read, &Err(Failed));
    cases.same("after it", &read_once(&mut source, &mut buf), &Ok(1));
    cases.same("no more", &read_once(&mut source, &mut buf), &Ok(0));
}

/// Puts through an adapter over a writer that writes in parts, and later fails.
fn put_adapted(steps: Vec<Step>, cases: &mut Cases) {
    let mut sink = StdSink::new(Scripted { steps, next: 0 });
    let put = put_once(&mut sink, &[1, 2, 3]);
    cases.same("after a short write", &put, &Ok(()));
    let put = put_once(&mut sink, &[4, 5]);
    cases.same("no room for all", &put, &Err(PutFault::Failed));
    let put = put_once(&mut sink, &[6]);
    cases.same("failed before", &put, &Err(PutFault::Failed));
    cases.same("nothing to write", &put_once(&mut sink, &[]), &Ok(()));
}

/// Adapters go on after interrupts and short writes.
pub fn adapters_go_on(alloc: Global, cases: &mut Cases) -> Result<(), LineFault> {
    cases.begin("adapters");
    let steps = vec![in alloc;
        Step::Fails(ErrorKind::Interrupted),
        Step::Moves(2),
        Step::Fails(ErrorKind::BrokenPipe),
        Step::Moves(1),
    ]?;
    read_adapted(steps, cases);
    let steps = vec![in alloc;
        Step::Moves(2),
        Step::Fails(ErrorKind::Interrupted),
        Step::Moves(1),
        Step::Moves(1),
        Step::Fails(ErrorKind::BrokenPipe),
    ]?;
    put_adapted(steps, cases);
    Ok(())
}

/// An open gate lets everybody through.
pub fn open_gate(cases: &mut Cases) {
    cases.begin("open gate");
    cases.same("through", &OpenGate.between(1, 2, 3, 4), &());
}
