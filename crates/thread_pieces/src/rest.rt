//! What is left once both ends are in one thread.
ghost use Rattle.std.specs.Prelude.{ℕ, List, Option, ◌≡◌, ◌≤◌, length, IfOk};
ghost use Rattle.rtrb.specs.Ring.{known_items};
ghost use Rattle.byte_io.specs.Pieces.{PutsAll};
ghost use Rattle.thread_pieces.specs.Shots.{all_shown, shown};
ghost use Rattle.thread_pieces.specs.Ring.{OneRing, bytes_taken, whole};
ghost use Rattle.thread_pieces.specs.Answers.{Blames, Presents, Stops};

use crate::ends::{Presenter, RingSink};
use crate::serving::{present, without_memory};
use crate::{Painters, ScenePainter, Shot};
use byte_io::{PutFault, Sink};
use rtrb::Consumer;
use std::alloc::{AllocError, Global};
use std::collections::VecDeque;
use std::marker::Sync;
use std::thread::Threads;

/// Puts what is left in the ring and in the sink into `out`, with the images of its scenes, if `serve` answered
/// Ok or was never called (`served` is then Ok); else it puts nothing and answers `served`. Both ends are of one ring.
///
/// Ok: `out` gained in all exactly what the sink holds. `Failed` comes only if the count of
/// faults of `out` rose in this call, or stands at its last value, or `served` is `Failed`; `Memory`
/// if `out` or a painter found none or `served` is `Memory`. In both `out` gained in all a prefix of what the
/// sink holds.
pub fn finish<R: Threads + Sync, K: Sink, P: ScenePainter>(
    rt: &R,
    sink: RingSink,
    presenter: Presenter,
    served: Result<(), PutFault>,
    painters: &mut Painters<P>,
    out: &mut K,
) -> Result<(), PutFault>
    requires { OneRing sink presenter }
    ensures bytes { (first : Option (List ℕ)) → PutsAll first (K.held out.old) (bytes_taken presenter) served → PutsAll first (K.held out.new) (whole sink) result }
    ensures faults { K.faults out.old ≤ K.faults out.new }
    ensures refusals { K.refusals out.old ≤ K.refusals out.new }
    ensures stops { Stops served result out.old out.new }
    ensures cause { Blames served result (K.faults out.old) (K.faults out.new) }
    ensures place { K.place out.new ≡ K.place out.old }
{
    let RingSink {
        mut producer,
        kept,
        lines,
        alloc,
        ..
    } = sink;
    let Presenter { mut consumer, .. } = presenter;
    let count = consumer.slots_beside(&mut producer);
    let state = empty(rt, alloc, &mut consumer, count, served, painters, out);
    let state = put_kept(rt, alloc, kept, state, painters, out);
    put_lines(lines.as_slice(), state, out)
}

// A list of one piece.
fn one(alloc: Global, piece: Shot) -> Result<Vec<Shot>, AllocError>
    ensures { IfOk result (λ pieces. all_shown pieces.items ≡ shown piece) }
{
    let mut pieces = Vec::new(alloc);
    pieces.push(piece)?;
    Ok(pieces)
}

// Puts a piece, unless an earlier one was refused, and answers for both.
fn present_one<R: Threads + Sync, K: Sink, P: ScenePainter>(
    rt: &R,
    alloc: Global,
    piece: Shot,
    served: Result<(), PutFault>,
    painters: &mut Painters<P>,
    out: &mut K,
) -> Result<(), PutFault>
    ensures { Presents K.Sink served result out.old out.new (shown piece) }
{
    match one(alloc, piece) {
        Ok(pieces) => present(rt, served, pieces, painters, out),
        Err(refused) => without_memory(served, refused, out),
    }
}

/// Puts the `count` pieces that are known to be in the ring.
fn empty<R: Threads + Sync, K: Sink, P: ScenePainter>(
    rt: &R,
    alloc: Global,
    consumer: &mut Consumer<Shot>,
    count: usize,
    served: Result<(), PutFault>,
    painters: &mut Painters<P>,
    out: &mut K,
) -> Result<(), PutFault>
    requires { count ≡ length (known_items consumer.old) }
    ensures { Presents K.Sink served result out.old out.new (all_shown (known_items consumer.old)) }
{
    let mut state = served;
    for _ in 0..count {
        let piece = consumer.pop_known();
        state = present_one(rt, alloc, piece, state, painters, out);
    }
    state
}

/// Puts the pieces that the ring had no place for, in order.
fn put_kept<R: Threads + Sync, K: Sink, P: ScenePainter>(
    rt: &R,
    alloc: Global,
    kept: VecDeque<Shot>,
    served: Result<(), PutFault>,
    painters: &mut Painters<P>,
    out: &mut K,
) -> Result<(), PutFault>
    ensures { Presents K.Sink served result out.old out.new (all_shown kept.items) }
{
    let mut state = served;
    for piece in kept {
        state = present_one(rt, alloc, piece, state, painters, out);
    }
    state
}

/// Puts the bytes after the last piece.
fn put_lines<K: Sink>(
    lines: &[u8],
    served: Result<(), PutFault>,
    out: &mut K,
) -> Result<(), PutFault>
    ensures { Presents K.Sink served result out.old out.new lines.now }
{
    match served {
        Ok(()) => out.put(lines),
        Err(fault) => Err(fault),
    }
}
