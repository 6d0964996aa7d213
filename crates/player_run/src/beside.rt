//! The compositor on the calling thread, and the presenter beside it.

ghost use Rattle.std.specs.Prelude.{◌≡◌, ◌≤◌, ℕ, List, [], Option, Some};
ghost use Rattle.std.specs.Thread.{IsSync};
ghost use Rattle.thread_pieces.specs.Ring.{OneRing, SameSink, bytes_taken, whole};
ghost use Rattle.byte_io.specs.Pieces.{WriteCause};
ghost use Rattle.impl_core.specs.Origins.{Origin};
ghost use Rattle.proxy_threads.specs.Seats.{Of, OfBoth, Seat};
ghost use Rattle.proxy_threads.specs.Writing.{FaultCause};
ghost use Rattle.player_uses.specs.Faults.{Causes};
ghost use Rattle.player_run.specs.inner.Actors.{Drove, HasRun, IsFirst, PlayEnds, ended_as, joint_outcome};

use byte_io::{PutFault, Sink};
use impl_core::Core;
use player_uses::Outcome;
use proxy_threads::{CompActor, Turned, drive_compositor};
use recording_writer::ImagePainter;
use std::alloc::Global;
use std::marker::Send;
use std::sync::Wait;
use std::thread::{Threads, join_mut};
use thread_bell::Bell;
use thread_lock::{Pass, TurnLock};
use thread_pieces::{Painters, Presenter, RingSink, SceneSink, finish};

/// What the compositor and the presenter left.
#[derive(Drop)]
pub(crate) struct Remains {
    pub(crate) sink: RingSink,
    pub(crate) presenter: Presenter,
    pub(crate) pass: Pass<Core>,
    pub(crate) served: Result<(), PutFault>,
    pub(crate) ending: Ending,
}

/// How the compositor's turns ended.
#[derive(Clone, Copy, Drop)]
pub(crate) struct Ending {
    pub(crate) last: Turned,
    /// Whether the run was played to its end.
    pub(crate) over: bool,
}

/// Makes the borrow end here.
pub(crate) fn take_back<T>(x: &mut T)
    ensures { x.new ≡ x.old }
{}

// The compositor's turns up to the last.
fn compose<R: Wait, K: SceneSink>(
    rt: &R,
    alloc: Global,
    lock: &TurnLock<Core>,
    bell: &Bell,
    pass: Pass<Core>,
    sink: &mut K,
) -> (Pass<Core>, Ending)
    requires { IsFirst lock.now.id pass }
    ensures drove { Drove pass result.0 (K.held sink.old) (K.held sink.new) result.1 }
    ensures cause { FaultCause (K.faults sink.old) (K.faults sink.new) result.1.last }
    ensures place { K.place sink.new ≡ K.place sink.old }
{
    let mut comp = CompActor::new(alloc, pass, sink);
    let last = drive_compositor(rt, lock, bell, &mut comp);
    let over = comp.is_over();
    let (pass, sink) = comp.pass();
    take_back(sink);
    (pass, Ending { last, over })
}

// The same with the ring's end, and with the pass in its place. Once the presenter has taken all that the ring had no
// place for, the end mark is raised.
fn compose_all<R: Wait>(
    rt: &R,
    alloc: Global,
    lock: &TurnLock<Core>,
    bell: &Bell,
    place: &mut Option<Pass<Core>>,
    sink: &mut RingSink,
) -> Ending
    requires { Of place.old (IsFirst lock.now.id) }
    ensures drove { OfBoth place.old place.new (λ p q. Drove p q (Some (whole sink.old)) (Some (whole sink.new)) result) }
    ensures calm { FaultCause 0 0 result.last }
    ensures ring { SameSink sink.old sink.new }
{
    let Some(pass) = place.take() else {
        unreachable!()
    };
    let (pass, ending) = compose(rt, alloc, lock, bell, pass, sink);
    *place = Some(pass);
    sink.drain(rt);
    sink.end();
    ending
}

/// Runs the compositor on the calling thread, and the presenter beside it, with at most the given number of painters.
pub(crate) fn run_beside<R: Threads + Wait + Sync, K: Sink + Send>(
    rt: &R,
    alloc: Global,
    lock: &TurnLock<Core>,
    bell: &Bell,
    pass: Pass<Core>,
    ends: (RingSink, Presenter),
    most: usize,
    out: &mut K,
) -> Remains
    requires first { IsFirst lock.now.id pass }
    requires ring { OneRing ends.0 ends.1 }
    requires none { bytes_taken ends.1 ≡ [] }
    ensures ran { HasRun pass (whole ends.0) result (K.held out.old) (K.held out.new) }
    ensures grows { K.faults out.old ≤ K.faults out.new }
    ensures cause { WriteCause (K.faults out.old) (K.faults out.new) result.served }
{
    let (mut sink, mut presenter) = ends;
    let mut painters: Painters<ImagePainter> = Painters::new(alloc, most);
    let mut place = Some(pass);
    let (served, ending) = join_mut(
        rt,
        &mut || presenter.serve(rt, &mut painters, out),
        &mut || -> Ending
            requires sync { IsSync R.row }
            requires first { Of place (IsFirst lock.now.id) }
            ensures drove { OfBoth place.entry place.exit (λ p q. Drove p q (Some (whole sink.entry)) (Some (whole sink.exit)) result) }
            ensures calm { FaultCause 0 0 result.last }
            ensures ring { SameSink sink.entry sink.exit }
        { compose_all(rt, alloc, lock, bell, &mut place, &mut sink) },
    );
    let Some(pass) = place else { unreachable!() };
    Remains {
        sink,
        presenter,
        pass,
        served,
        ending,
    }
}

// How the run ended, if all that the compositor wrote was put.
fn ended(ending: Ending) -> Outcome
    ensures { result ≡ ended_as ending }
{
    match ending.last {
        Turned::Ended if ending.over => Outcome::Done,
        _ => Outcome::Memory,
    }
}

// How the run ended.
fn told(presented: Result<(), PutFault>, ending: Ending) -> Outcome
    ensures { result ≡ joint_outcome presented ending }
{
    match presented {
        Ok(()) => ended(ending),
        Err(fault) => Outcome::from(fault),
    }
}

/// Puts what is left, with at most the given number of painters, and tells how the run ended.
pub(crate) fn join_outcomes<R: Threads + Sync, K: Sink>(
    rt: &R,
    alloc: Global,
    ran: Remains,
    most: usize,
    out: &mut K,
) -> Outcome
    requires { OneRing ran.sink ran.presenter }
    ensures ends { (p : Seat) (o : Origin) (before : List ℕ) (first : Option (List ℕ)) → p.stem ≡ Some o → HasRun p before ran first (K.held out.old) → PlayEnds o before first (K.held out.new) result }
    ensures grows { K.faults out.old ≤ K.faults out.new }
    ensures cause { (count : ℕ) → count ≤ K.faults out.old → WriteCause count (K.faults out.old) ran.served → Causes 0 0 count (K.faults out.new) result }
{
    let Remains {
        sink,
        presenter,
        served,
        ending,
        ..
    } = ran;
    let mut painters: Painters<ImagePainter> = Painters::new(alloc, most);
    let presented = finish(rt, sink, presenter, served, &mut painters, out);
    told(presented, ending)
}
