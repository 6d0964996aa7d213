//! Turns, one after another.

ghost use Rattle.std.specs.Prelude.{◌≡◌, ◌≤◌};
ghost use Rattle.proxy_threads.specs.Seats.{Of};
ghost use Rattle.proxy_threads.specs.Writing.{Drives, FaultCause, KnowsEnd, MayTurn};
ghost use Rattle.proxy_threads.specs.MainTurns.{MainIsReady};
ghost use Rattle.proxy_threads.specs.WorkTurns.{WorkIsReady};

use crate::compositor::CompActor;
use crate::main_actor::MainActor;
use crate::raster_actor::RasterActor;
use crate::turned::Turned;
use crate::wakes::Wakes;
use byte_io::Gate;
use impl_core::Core;
use std::sync::Wait;
use thread_bell::{Bell, Post, Rung};
use thread_lock::TurnLock;
use thread_pieces::SceneSink;

// Says whether a tile may start, and wakes the others up that have something to do.
fn wake(bell: &Bell, wakes: Wakes) {
    bell.tell_work(wakes.may_start);
    if wakes.main {
        bell.ring(Post::MainSide);
    }
    if wakes.workers {
        bell.ring(Post::Workers);
    }
}

// The same, and sleeps until another rings for the compositor, or has since the count was read.
fn wake_and_sleep<R: Wait>(rt: &R, bell: &Bell, wakes: Wakes, rung: Rung) {
    wake(bell, wakes);
    bell.wait(rt, rung);
}

/// Turns of the compositor on the calling thread, until one answers `Ended`, `Memory` or `WriteFault`, which is
/// the answer. The others take their turns on threads of their own. The compositor rings the bell for the main side
/// when it has sent a frame, and for the workers when it has begun a draw or is blocked, and a tile may start.
/// When it is blocked, it sleeps at the bell until another has entered an event, or the sink rings. The bell tells of
/// work while a tile may start as far as the compositor knows.
pub fn drive_compositor<R: Wait, K: SceneSink>(
    rt: &R,
    lock: &TurnLock<Core>,
    bell: &Bell,
    comp: &mut CompActor<K>,
) -> Turned
    requires { Of comp.old.pass (MayTurn lock.now.id comp.old.lines.written) }
    ensures turns { Drives comp.old.pass comp.new.pass comp.old.lines.written (K.held comp.old.out.now) (K.held comp.new.out.now) result }
    ensures over { KnowsEnd comp.new.pass comp.new.lines.over result }
    ensures grows { K.faults comp.old.out.now ≤ K.faults comp.new.out.now }
    ensures cause { FaultCause (K.faults comp.old.out.now) (K.faults comp.new.out.now) result }
    ensures place { K.place comp.new.out.now ≡ K.place comp.old.out.now }
    ensures same_reference { comp.new.out.ghost_name ≡ comp.old.out.ghost_name }
{
    for _ in rt.forever() {
        let rung = bell.rung(Post::Compositor);
        match comp.turn(rt, lock) {
            Turned::Went => wake(bell, comp.wakes()),
            Turned::Blocked => wake_and_sleep(rt, bell, comp.wakes(), rung),
            Turned::Ended => return Turned::Ended,
            Turned::Memory => return Turned::Memory,
            Turned::WriteFault => return Turned::WriteFault,
        }
    }
    unreachable!()
}

// Wakes the compositor up, and sleeps until it has sent another frame, or has since the count was read.
fn ring_and_sleep<R: Wait>(rt: &R, bell: &Bell, rung: Rung) {
    bell.ring(Post::Compositor);
    bell.wait(rt, rung);
}

// Sleeps until its post is rung, or was since the count was read.
fn sleep<R: Wait>(rt: &R, bell: &Bell, rung: Rung) {
    bell.wait(rt, rung);
}

/// Turns of the main side, until the bell is closed, or one answers `Ended` or `Memory`. It rings the bell for the
/// compositor when it has entered an event. Then, and when it is blocked, it sleeps at the bell: the next frame is
/// sent after the end of this one, so it rings again.
pub fn drive_main<R: Wait>(rt: &R, lock: &TurnLock<Core>, bell: &Bell, main: &mut MainActor)
    requires { Of main.old.pass (MainIsReady lock.now.id main.old.host) }
    ensures { Of main.new.pass (MainIsReady lock.now.id main.new.host) }
{
    for _ in rt.forever() {
        let rung = bell.rung(Post::MainSide);
        if bell.is_closed() {
            return;
        }
        match main.turn(rt, lock) {
            Turned::Went => ring_and_sleep(rt, bell, rung),
            Turned::Blocked => sleep(rt, bell, rung),
            Turned::Memory => return bell.ring_all(),
            Turned::Ended | Turned::WriteFault => return,
        }
    }
    unreachable!()
}

// A turn of a worker, if the bell tells of work. If it does not, the answer is that of a worker that might start
// no tile, which it then does not ask.
fn seek<R: Wait, G: Gate>(
    rt: &R,
    lock: &TurnLock<Core>,
    bell: &Bell,
    worker: &mut RasterActor<G>,
) -> Turned
    requires { Of worker.old.pass (WorkIsReady lock.now.id worker.old.worker) }
    ensures { Of worker.new.pass (WorkIsReady lock.now.id worker.new.worker) }
{
    if !bell.has_work() {
        return Turned::Blocked;
    }
    worker.turn(rt, lock, bell)
}

/// Turns of a worker, until the bell is closed, or one answers `Ended` or `Memory`. It rings the bell for the
/// compositor when it has entered an event: after its start, in the turn, and after its done. When it is blocked, and
/// when the bell tells of no work, it sleeps at the bell.
pub fn drive_worker<R: Wait, G: Gate>(
    rt: &R,
    lock: &TurnLock<Core>,
    bell: &Bell,
    worker: &mut RasterActor<G>,
)
    requires { Of worker.old.pass (WorkIsReady lock.now.id worker.old.worker) }
    ensures { Of worker.new.pass (WorkIsReady lock.now.id worker.new.worker) }
{
    for _ in rt.forever() {
        let rung = bell.rung(Post::Workers);
        if bell.is_closed() {
            return;
        }
        match seek(rt, lock, bell, worker) {
            Turned::Went => bell.ring(Post::Compositor),
            Turned::Blocked => sleep(rt, bell, rung),
            Turned::Memory => return bell.ring_all(),
            Turned::Ended | Turned::WriteFault => return,
        }
    }
    unreachable!()
}
