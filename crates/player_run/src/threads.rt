//! The threads of a run.

ghost use Rattle.std.specs.Prelude.{◌≡◌, ◌≤◌, [], Some, All, MatchOption, IfSome};
ghost use Rattle.thread_pieces.specs.Ring.{OneRing, bytes_taken, whole};
ghost use Rattle.byte_io.specs.Pieces.{WriteCause};
ghost use Rattle.impl_core.specs.Origins.{Origin};
ghost use Rattle.proxy_threads.specs.Seats.{Of};
ghost use Rattle.proxy_threads.specs.MainTurns.{MainIsReady};
ghost use Rattle.proxy_threads.specs.WorkTurns.{WorkIsReady};
ghost use Rattle.player_uses.specs.Faults.{Causes};
ghost use Rattle.player_run.specs.inner.Actors.{HasRun, IsFirst, IsReady, PlayEnds};

use crate::beside::{Remains, join_outcomes, run_beside, take_back};
use crate::crew::Crew;
use byte_io::{Gate, Sink};
use impl_core::Core;
use player_uses::Outcome;
use proxy_threads::{MainActor, RasterActor, drive_main, drive_worker};
use std::alloc::Global;
use std::marker::Send;
use std::sync::Wait;
use std::thread;
use std::thread::{Scope, Threads};
use thread_bell::Bell;
use thread_lock::{Pass, TurnLock};
use thread_pieces::{Presenter, RingSink};

/// Those who take turns at a run, before their first, and the two ends of its ring.
#[derive(Drop)]
struct Staff<'g, G: Gate> {
    // The compositor's pass.
    pass: Pass<Core>,
    main: MainActor,
    workers: Vec<RasterActor<'g, G>>,
    ends: (RingSink, Presenter),
}

// The turns of the main side.
fn work_main<R: Wait>(rt: &R, lock: &TurnLock<Core>, bell: &Bell, main: MainActor)
    requires { Of main.pass (MainIsReady lock.now.id main.host) }
{
    let mut main = main;
    drive_main(rt, lock, bell, &mut main);
}

// The turns of a worker.
fn work_tiles<R: Wait, G: Gate>(rt: &R, lock: &TurnLock<Core>, bell: &Bell, worker: RasterActor<G>)
    requires { Of worker.pass (WorkIsReady lock.now.id worker.worker) }
{
    let mut worker = worker;
    drive_worker(rt, lock, bell, &mut worker);
}

// Starts the main side and the workers, each on a thread of its own. An answer of false is that one could not
// be started.
fn start<'s, E, R: Wait + Sync, G: Gate + Sync>(
    scope: &'s Scope<'s, E>,
    rt: &'s R,
    lock: &'s TurnLock<Core>,
    bell: &'s Bell,
    main: MainActor,
    workers: Vec<RasterActor<'s, G>>,
) -> bool
    requires main { Of main.pass (MainIsReady lock.now.id main.host) }
    requires workers { All (λ worker. Of worker.pass (WorkIsReady lock.now.id worker.worker)) workers.items }
{
    if scope
        .spawn(move || work_main(rt, lock, bell, main))
        .is_err()
    {
        return false;
    }
    let mut workers = workers;
    while let Some(worker) = workers.pop() {
        if scope
            .spawn(move || work_tiles(rt, lock, bell, worker))
            .is_err()
        {
            return false;
        }
    }
    true
}

// Starts the others, and runs the compositor and the presenter. An answer of None is that one could not be
// started, and nothing was written.
fn run_started<'s, E, R: Threads + Wait + Sync, G: Gate + Sync, K: Sink + Send>(
    scope: &'s Scope<'s, E>,
    rt: &'s R,
    alloc: Global,
    lock: &'s TurnLock<Core>,
    bell: &'s Bell,
    staff: Staff<'s, G>,
    out: &mut K,
) -> Option<Remains>
    requires { IsReady lock.now.id staff }
    ensures ran { MatchOption result (out.new ≡ out.old) (λ ran. HasRun staff.entry.pass (whole staff.entry.ends.0) ran (K.held out.old) (K.held out.new)) }
    ensures grows { K.faults out.old ≤ K.faults out.new }
    ensures cause { IfSome result (λ ran. WriteCause (K.faults out.old) (K.faults out.new) ran.served) }
{
    let Staff {
        pass,
        main,
        workers,
        ends,
    } = staff;
    let most = workers.len();
    if !start(scope, rt, lock, bell, main, workers) {
        bell.close();
        return None;
    }
    let ran = run_beside(rt, alloc, lock, bell, pass, ends, most, out);
    bell.close();
    Some(ran)
}

// Runs the actors on threads, which sleep at the bell of the ring. An answer of None is that a thread could not be
// started or memory was refused, and nothing was written.
fn run_scope<'g, R: Threads + Wait + Sync, G: Gate + Sync, K: Sink + Send>(
    rt: &R,
    alloc: Global,
    lock: &TurnLock<Core>,
    staff: Staff<'g, G>,
    out: &mut K,
) -> Option<Remains>
    requires { IsReady lock.now.id staff }
    ensures ran { MatchOption result (out.new ≡ out.old) (λ ran. HasRun staff.entry.pass (whole staff.entry.ends.0) ran (K.held out.old) (K.held out.new)) }
    ensures grows { K.faults out.old ≤ K.faults out.new }
    ensures cause { IfSome result (λ ran. WriteCause (K.faults out.old) (K.faults out.new) ran.served) }
{
    let Ok(bell) = staff.ends.0.bell() else {
        return None;
    };
    let bell = &*bell;
    let (out, ran) = thread::scope(
        thread::scope_env(),
        rt,
        move |scope| -> (&mut K, Option<Remains>)
            requires { IsReady lock.now.id staff }
            ensures same_reference { result.0.ghost_name ≡ out.entry.ghost_name }
            ensures ran { MatchOption result.1 (result.0.now ≡ out.entry.now) (λ ran. HasRun staff.entry.pass (whole staff.entry.ends.0) ran (K.held out.entry.now) (K.held result.0.now)) }
            ensures grows { K.faults out.entry.now ≤ K.faults result.0.now }
            ensures cause { IfSome result.1 (λ ran. WriteCause (K.faults out.entry.now) (K.faults result.0.now) ran.served) }
        {
            let ran = run_started(scope, rt, alloc, lock, bell, staff, out);
            (out, ran)
        },
    );
    take_back(out);
    ran
}

/// Runs the actors on threads, and writes after what the ring has. An answer of None is that a thread could not
/// be started, and nothing was written.
pub(crate) fn run_crew<'g, R: Threads + Wait + Sync, G: Gate + Sync, K: Sink + Send>(
    rt: &R,
    alloc: Global,
    crew: Crew<'g, G>,
    ends: (RingSink, Presenter),
    out: &mut K,
) -> Option<Outcome>
    requires first { IsFirst crew.lock.id crew.pass }
    requires main { Of crew.main.pass (MainIsReady crew.lock.id crew.main.host) }
    requires workers { All (λ worker. Of worker.pass (WorkIsReady crew.lock.id worker.worker)) crew.workers.items }
    requires ring { OneRing ends.0 ends.1 }
    requires none { bytes_taken ends.1 ≡ [] }
    ensures ends { MatchOption result (out.new ≡ out.old) (λ outcome. (o : Origin) → crew.entry.pass.stem ≡ Some o → PlayEnds o (whole ends.0) (K.held out.old) (K.held out.new) outcome) }
    ensures grows { K.faults out.old ≤ K.faults out.new }
    ensures cause { IfSome result (λ outcome. Causes 0 0 (K.faults out.old) (K.faults out.new) outcome) }
{
    let Crew {
        lock,
        pass,
        main,
        workers,
    } = crew;
    let most = workers.len();
    let staff = Staff {
        pass,
        main,
        workers,
        ends,
    };
    let ran = run_scope(rt, alloc, &lock, staff, out)?;
    Some(join_outcomes(rt, alloc, ran, most, out))
}
