//! The whole life of a ring, for a list of pieces.
ghost use Rattle.std.specs.Prelude.{ℕ, List, [], Option, Some, ◌≡◌, ◌≤◌};
ghost use Rattle.thread_pieces.specs.Ring.{OneRing, SameSink, bytes_taken, joined, whole};
ghost use Rattle.byte_io.specs.Pieces.{NotFailed, PutsAll, WriteCause};
ghost use Rattle.thread_pieces.specs.Answers.{Blames, answer_for_all};

use crate::ends::{Presenter, RingSink, ring};
use crate::rest::finish;
use crate::{Painters, ScenePainter};
use byte_io::{PutFault, Sink};
use std::alloc::Global;
use std::marker::Send;
use std::sync::Wait;
use std::thread::{Threads, join_mut};

/// Puts the pieces into `out` by a ring: one thread puts them into the ring and ends, another serves
/// `out`. If no thread can be made, the calling one puts them all and then serves.
///
/// Ok: `out` gained all pieces, in order. `Failed` comes only if the count of faults of
/// `out` rose in this call, or stands at its last value; `Memory` if the ring, its pieces or `out`
/// found none. In both `out` gained a prefix of them.
pub fn present_from<R: Threads + Wait + Sync, K: Sink + Send, P: ScenePainter>(
    rt: &R,
    alloc: Global,
    pieces: &[Vec<u8>],
    painters: &mut Painters<P>,
    out: &mut K,
) -> Result<(), PutFault>
    ensures bytes { PutsAll (K.held out.old) (K.held out.new) (joined pieces.now) result }
    ensures cause { WriteCause (K.faults out.old) (K.faults out.new) result }
    ensures place { K.place out.new ≡ K.place out.old }
{
    match ring(alloc) {
        Ok((sink, presenter)) => {
            let ran = run(rt, pieces, sink, presenter, painters, out);
            settle(rt, ran, painters, out)
        }
        Err(refused) => Err(PutFault::Memory(refused)),
    }
}

/// What both threads left.
#[derive(Drop)]
struct RingRun {
    sink: RingSink,
    presenter: Presenter,
    /// What `serve` answered.
    served: Result<(), PutFault>,
    /// Whether all pieces went into the ring or its kept list.
    put: Result<(), PutFault>,
}

/// Puts the pieces into a new ring while another thread serves `out`.
fn run<R: Threads + Wait + Sync, K: Sink + Send, P: ScenePainter>(
    rt: &R,
    pieces: &[Vec<u8>],
    sink: RingSink,
    presenter: Presenter,
    painters: &mut Painters<P>,
    out: &mut K,
) -> RingRun
    requires ring { OneRing sink presenter }
    requires empty { (whole sink ≡ []) × (bytes_taken presenter ≡ []) }
    ensures ring { OneRing result.sink result.presenter }
    ensures put { PutsAll (Some []) (Some (whole result.sink)) (joined pieces.now) result.put }
    ensures memory { NotFailed result.put }
    ensures bytes { PutsAll (K.held out.old) (K.held out.new) (bytes_taken result.presenter) result.served }
    ensures faults { K.faults out.old ≤ K.faults out.new }
    ensures cause { WriteCause (K.faults out.old) (K.faults out.new) result.served }
    ensures place { K.place out.new ≡ K.place out.old }
{
    let mut sink = sink;
    let mut presenter = presenter;
    let (served, put) = join_mut(
        rt,
        &mut || presenter.serve(rt, painters, out),
        &mut || fill(pieces, &mut sink),
    );
    RingRun {
        sink,
        presenter,
        served,
        put,
    }
}

/// Puts what is left into `out`, and answers for all the pieces.
fn settle<R: Threads + Sync, K: Sink, P: ScenePainter>(
    rt: &R,
    ran: RingRun,
    painters: &mut Painters<P>,
    out: &mut K,
) -> Result<(), PutFault>
    requires ring { OneRing ran.sink ran.presenter }
    requires memory { NotFailed ran.put }
    ensures bytes { (first : Option (List ℕ)) (bytes : List ℕ) → PutsAll (Some []) (Some (whole ran.sink)) bytes ran.put → PutsAll first (K.held out.old) (bytes_taken ran.presenter) ran.served → PutsAll first (K.held out.new) bytes result }
    ensures cause { Blames ran.served result (K.faults out.old) (K.faults out.new) }
    ensures place { K.place out.new ≡ K.place out.old }
{
    let finished = finish(rt, ran.sink, ran.presenter, ran.served, painters, out);
    both_answer(finished, ran.put)
}

/// Puts the pieces and ends. After a refusal it puts no more.
fn fill(pieces: &[Vec<u8>], sink: &mut RingSink) -> Result<(), PutFault>
    ensures ring { SameSink sink.old sink.new }
    ensures bytes { PutsAll (Some (whole sink.old)) (Some (whole sink.new)) (joined pieces.now) result }
    ensures memory { NotFailed result }
{
    let put = put_each(pieces, sink);
    sink.end();
    put
}

fn put_each(pieces: &[Vec<u8>], sink: &mut RingSink) -> Result<(), PutFault>
    ensures ring { SameSink sink.old sink.new }
    ensures bytes { PutsAll (Some (whole sink.old)) (Some (whole sink.new)) (joined pieces.now) result }
    ensures memory { NotFailed result }
{
    for piece in pieces {
        if let Err(fault) = sink.put(piece) {
            return Err(fault);
        }
    }
    Ok(())
}

/// The answer for all pieces, where `put` tells whether all went into the ring.
fn both_answer(finished: Result<(), PutFault>, put: Result<(), PutFault>) -> Result<(), PutFault>
    ensures { result ≡ answer_for_all finished put }
{
    match finished {
        Ok(()) => put,
        Err(fault) => Err(fault),
    }
}
