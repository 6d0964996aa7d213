//! Rings from end to end, over sinks in memory.
ghost use Rattle.std.specs.Prelude.{◌<◌};
ghost use Rattle.thread_pieces.specs.Ring.{SameSink};

use crate::cases::Cases;
use byte_io::{MemSink, PutFault, Sink};
use std::alloc::{AllocError, Global};
use std::sync::Wait;
use std::thread::{Threads, join_mut};
use test_table::LineFault;
use thread_pieces::{Painters, RingSink, ScenePainter, SceneSink, finish, present_from, ring};
use viz_scene::Scene;

/// A painter that never finds memory.
#[derive(Drop)]
pub(crate) struct Refuser;

impl ScenePainter for Refuser {
    ghost use Rattle.std.specs.Prelude.{[]};

    ghost head = { λ _. [] };

    ghost rows = { λ _. [] };

    fn blank(_alloc: Global) -> Result<Refuser, AllocError> {
        Ok(Refuser)
    }

    fn paint_scene<R: Threads + Sync>(
        &mut self,
        _rt: &R,
        _scene: Scene,
        _parts: usize,
    ) -> Result<(), AllocError> {
        Err(AllocError)
    }

    fn push_head(&self, _bytes: &mut Vec<u8>) -> Result<(), AllocError> {
        Err(AllocError)
    }

    fn pixels(&self) -> &[u8] {
        &[]
    }
}

/// Puts the bytes 1 to 5, one by one.
fn put_five(sink: &mut RingSink, cases: &mut Cases)
    ensures { SameSink sink.old sink.new }
{
    cases.same("1", &sink.put(&[1]), &Ok(()));
    cases.same("2", &sink.put(&[2]), &Ok(()));
    cases.same("3", &sink.put(&[3]), &Ok(()));
    cases.same("4", &sink.put(&[4]), &Ok(()));
    cases.same("5", &sink.put(&[5]), &Ok(()));
}

/// The bytes 1 to 5, put one by one, through a ring into `out`.
fn five_through<R: Threads + Wait + Sync>(
    rt: &R,
    alloc: Global,
    cases: &mut Cases,
    out: &mut MemSink,
) -> Result<Result<(), PutFault>, AllocError> {
    let (sink, presenter) = ring(alloc)?;
    let mut sink = sink;
    let mut presenter = presenter;
    put_five(&mut sink, cases);
    let mut painters: Painters<Refuser> = Painters::new(alloc, 2);
    let (served, ()) = join_mut(
        rt,
        &mut || presenter.serve(rt, &mut painters, out),
        &mut || sink.end(),
    );
    Ok(finish(rt, sink, presenter, served, &mut painters, out))
}

/// `count` pieces of 1 to `longest` bytes; their lengths go round in steps.
fn pieces_of(alloc: Global, count: u32, step: u32, longest: u32) -> Result<Vec<Vec<u8>>, AllocError>
    requires { 0 < longest }
{
    let mut pieces = Vec::new(alloc);
    for i in 0..count {
        let length = 1 + i.wrapping_mul(step) % longest;
        pieces.push(vec![in alloc; (i % 251) as u8; length as usize]?)?;
    }
    Ok(pieces)
}

/// The bytes of the first `count` pieces.
fn joined(alloc: Global, pieces: &[Vec<u8>], count: usize) -> Result<Vec<u8>, AllocError> {
    let mut bytes = Vec::new(alloc);
    for piece in pieces.iter().take(count) {
        bytes.extend_from_slice(piece)?;
    }
    Ok(bytes)
}

/// Five pieces go through in order; of a sink that takes two, two do.
pub fn five_pieces_in_order<R: Threads + Wait + Sync>(
    rt: &R,
    alloc: Global,
    cases: &mut Cases,
) -> Result<(), LineFault> {
    cases.begin("five pieces");
    let mut endless = MemSink::endless(alloc);
    let presented = five_through(rt, alloc, cases, &mut endless)?;
    cases.same("to an endless sink", &presented, &Ok(()));
    let bytes = endless.bytes();
    cases.same("all in order", &bytes, &[1, 2, 3, 4, 5].as_slice());
    let mut limited = MemSink::new(alloc, 2, Vec::new(alloc));
    let presented = five_through(rt, alloc, cases, &mut limited)?;
    cases.same("to a limited sink", &presented, &Err(PutFault::Failed));
    cases.same("two in order", &limited.bytes(), &[1, 2].as_slice());
    Ok(())
}

/// Puts 70 pieces of one byte, more than the ring has places for, and ends.
fn put_seventy(sink: &mut RingSink, cases: &mut Cases) {
    for byte in 1..=70 {
        cases.same("a piece", &sink.put(&[byte]), &Ok(()));
        sink.pass_on();
    }
    sink.end();
}

/// What is in the ring is served before the end is seen.
pub fn served_before_the_end<R: Threads + Wait + Sync>(
    rt: &R,
    alloc: Global,
    cases: &mut Cases,
) -> Result<(), LineFault> {
    cases.begin("served before the end");
    let (mut sink, mut presenter) = ring(alloc)?;
    let mut painters: Painters<Refuser> = Painters::new(alloc, 1);
    put_seventy(&mut sink, cases);
    let mut out = MemSink::endless(alloc);
    let served = presenter.serve(rt, &mut painters, &mut out);
    cases.same("what was passed on", &served, &Ok(()));
    cases.same("64 pieces", &out.bytes().len(), &64);
    sink.pass_on();
    let served = presenter.serve(rt, &mut painters, &mut out);
    cases.same("the rest", &served, &Ok(()));
    cases.same("all pieces", &out.bytes().len(), &70);
    Ok(())
}

/// Puts 1, then 2 and 3 and then nothing as pieces of their own, then 4.
fn put_owned_pieces(
    alloc: Global,
    sink: &mut RingSink,
    cases: &mut Cases,
) -> Result<(), LineFault> {
    let own = vec![in alloc; 2, 3]?;
    cases.same("1", &sink.put(&[1]), &Ok(()));
    cases.same("two of its own", &sink.put_owned(own), &Ok(()));
    let put = sink.put_owned(Vec::new(alloc));
    cases.same("none of its own", &put, &Ok(()));
    cases.same("4", &sink.put(&[4]), &Ok(()));
    Ok(())
}

/// Owned pieces go in their turn.
pub fn owned_pieces_in_their_turn<R: Threads + Wait + Sync>(
    rt: &R,
    alloc: Global,
    cases: &mut Cases,
) -> Result<(), LineFault> {
    cases.begin("owned pieces");
    let (mut sink, mut presenter) = ring(alloc)?;
    let put = put_owned_pieces(alloc, &mut sink, cases);
    sink.end();
    let mut out = MemSink::endless(alloc);
    let mut painters: Painters<Refuser> = Painters::new(alloc, 1);
    let served = presenter.serve(rt, &mut painters, &mut out);
    cases.same("all", &served, &Ok(()));
    cases.same("in their turn", &out.bytes(), &[1, 2, 3, 4].as_slice());
    put
}

/// What is put after the presenter was refused a put is refused.
pub fn refused_after_the_presenter<R: Threads + Wait + Sync>(
    rt: &R,
    alloc: Global,
    cases: &mut Cases,
) -> Result<(), LineFault> {
    cases.begin("refused later");
    let (mut sink, mut presenter) = ring(alloc)?;
    cases.same("before", &sink.put(&[1]), &Ok(()));
    sink.end();
    let mut out = MemSink::new(alloc, 0, Vec::new(alloc));
    let mut painters: Painters<Refuser> = Painters::new(alloc, 1);
    let served = presenter.serve(rt, &mut painters, &mut out);
    cases.same("the sink fails", &served, &Err(PutFault::Failed));
    let later = sink.put(&[2]);
    cases.same("later", &later, &Err(PutFault::Memory(AllocError)));
    Ok(())
}

/// A thousand pieces go through.
pub fn thousand_pieces<R: Threads + Wait + Sync>(
    rt: &R,
    alloc: Global,
    cases: &mut Cases,
) -> Result<(), LineFault> {
    cases.begin("thousand pieces");
    let pieces = pieces_of(alloc, 1000, 2741, 5000)?;
    let mut out = MemSink::endless(alloc);
    let mut painters: Painters<Refuser> = Painters::new(alloc, 2);
    let presented = present_from(rt, alloc, &pieces, &mut painters, &mut out);
    cases.same("all", &presented, &Ok(()));
    let wanted = joined(alloc, &pieces, 1000)?;
    cases.holds("many bytes", wanted.len() > 2_000_000);
    cases.holds("each byte", out.bytes() == wanted.as_slice());
    Ok(())
}

/// A piece that is large enough to go alone.
pub(crate) fn large(alloc: Global, byte: u8) -> Result<Vec<u8>, AllocError> {
    Ok(vec![in alloc; byte; 70_000]?)
}

/// Puts a large piece of this byte.
fn put_large(
    alloc: Global,
    sink: &mut RingSink,
    byte: u8,
    what: &str,
    cases: &mut Cases,
) -> Result<(), AllocError>
    ensures { SameSink sink.old sink.new }
{
    let piece = large(alloc, byte)?;
    cases.same(what, &sink.put(&piece), &Ok(()));
    Ok(())
}

/// Puts four large pieces.
fn put_four(alloc: Global, sink: &mut RingSink, cases: &mut Cases) -> Result<(), AllocError>
    ensures { SameSink sink.old sink.new }
{
    put_large(alloc, sink, 0, "piece 0", cases)?;
    put_large(alloc, sink, 1, "piece 1", cases)?;
    put_large(alloc, sink, 2, "piece 2", cases)?;
    put_large(alloc, sink, 3, "piece 3", cases)
}

/// Four large pieces, through a ring into `out`.
fn four_through<R: Threads + Sync>(
    rt: &R,
    alloc: Global,
    cases: &mut Cases,
    out: &mut MemSink,
) -> Result<Result<(), PutFault>, AllocError> {
    let (sink, presenter) = ring(alloc)?;
    let mut sink = sink;
    let put = put_four(alloc, &mut sink, cases);
    let mut painters: Painters<Refuser> = Painters::new(alloc, 2);
    let served = Ok(());
    let answer = finish(rt, sink, presenter, served, &mut painters, out);
    match put {
        Ok(()) => Ok(answer),
        Err(refused) => Err(refused),
    }
}

/// Tries a sink that fails at a put, which is to have the large pieces before it. They are in `before`, to which the
/// next one is added.
fn try_failing<R: Threads + Sync>(
    rt: &R,
    alloc: Global,
    failing: u8,
    before: &mut Vec<u8>,
    cases: &mut Cases,
) -> Result<(), AllocError> {
    let mut out = MemSink::new(alloc, 1_000_000, vec![in alloc; failing as u64]?);
    let answer = four_through(rt, alloc, cases, &mut out)?;
    cases.same("it fails", &answer, &Err(PutFault::Failed));
    cases.holds("the pieces before it", out.bytes() == before.as_slice());
    before.extend_from_slice(&large(alloc, failing)?)
}

/// A sink may fail at any piece: it has those before it.
pub fn sink_fails_at_any_piece<R: Threads + Wait + Sync>(
    rt: &R,
    alloc: Global,
    cases: &mut Cases,
) -> Result<(), LineFault> {
    cases.begin("failing sink");
    let mut before = Vec::new(alloc);
    for failing in 0..4_u8 {
        try_failing(rt, alloc, failing, &mut before, cases)?;
    }
    Ok(())
}
