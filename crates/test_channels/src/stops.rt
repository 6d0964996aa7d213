//! Actors that find the run stopped.

ghost use Rattle.std.specs.Prelude.{◌≡◌, ◌<◌, Some, None, IfOk};
ghost use Rattle.model_history.specs.Scans.{held};
ghost use Rattle.proxy_threads.specs.Seats.{past_of};
ghost use Rattle.thread_lock.specs.PassModels.{IsOf};
ghost use Rattle.test_channels.specs.Passes.{IsBegun, IsFree, IsFresh, IsStill};

use crate::cases::Cases;
use crate::lines_sink::LinesSink;
use crate::trio::{Trio, trio_of};
use byte_io::{MemSink, OpenGate};
use impl_core::Core;
use main_host::MainHost;
use model_history::{Event, Script};
use proxy_threads::{CompActor, MainActor, RasterActor, Turned};
use std::alloc::{AllocError, Global};
use std::sync::{Arc, Wait};
use test_table::LineFault;
use thread_bell::Bell;
use thread_lock::{HeldTurn, Pass, TurnLock};
use thread_pieces::SceneSink;

/// The core goes back as it was.
fn leave(lock: &TurnLock<Core>, held: HeldTurn<Core>)
    requires { held.pass.lock ≡ lock.now.id }
{
    let (core, empty) = held.take();
    empty.put(lock, core);
}

/// Enters the stop of worker 0 under the turn.
fn stop<R: Wait>(rt: &R, lock: &TurnLock<Core>, pass: Pass<Core>) -> Result<Pass<Core>, LineFault>
    requires { IsFresh lock.now 2 pass }
    ensures same { IfOk result (λ stopped. IsStill pass stopped) }
    ensures free { IfOk result (λ stopped. held 0 (past_of stopped.mine) ≡ None) }
{
    let held = lock.enter(rt, pass);
    let found = held.value();
    if found.ended() || found.workers() != 1 {
        leave(lock, held);
        return Err(LineFault::CallRefused);
    }
    let (mut core, empty) = held.take();
    core.stop(2);
    Ok(empty.put(lock, core))
}

/// One turn of the compositor.
fn comp_turn<R: Wait, K: SceneSink>(
    rt: &R,
    alloc: Global,
    lock: &TurnLock<Core>,
    pass: Pass<Core>,
    out: &mut K,
) -> (Pass<Core>, Turned)
    requires { IsFresh lock.now 0 pass }
    ensures { IsStill pass result.0 }
{
    let mut comp = CompActor::new(alloc, pass, out);
    let answer = comp.turn(rt, lock);
    let (pass, _) = comp.pass();
    (pass, answer)
}

/// One turn of the main side.
fn main_turn<R: Wait>(
    rt: &R,
    alloc: Global,
    lock: &TurnLock<Core>,
    pass: Pass<Core>,
    script: Arc<Script>,
) -> (Pass<Core>, Turned)
    requires pass { IsFresh lock.now 1 pass }
    requires script { pass.stem ≡ Some (record { script = script.value; workers = 1 }) }
    ensures { IsStill pass result.0 }
{
    let mut main = MainActor::new(pass, MainHost::new(alloc, script));
    let answer = main.turn(rt, lock);
    (main.pass(), answer)
}

/// One turn of worker 0.
fn work_turn<R: Wait>(
    rt: &R,
    alloc: Global,
    lock: &TurnLock<Core>,
    pass: Pass<Core>,
) -> (Pass<Core>, Turned)
    requires { IsFree lock.now pass }
    ensures { IsStill pass result.0 }
{
    let mut worker = RasterActor::new(alloc, pass, 0, &OpenGate);
    let answer = worker.turn(rt, lock, &Bell::new());
    (worker.pass(), answer)
}

/// The lock and the passes of the three actors, after turns.
#[derive(Drop)]
struct Left {
    lock: TurnLock<Core>,
    comp: Pass<Core>,
    main: Pass<Core>,
    worker: Pass<Core>,
}

/// One turn of the compositor, which is to answer as given, and then one of the main side, for which the run has
/// ended.
fn two_turns<R: Wait>(
    rt: &R,
    alloc: Global,
    trio: Trio,
    out: &mut LinesSink,
    wanted: Turned,
    cases: &mut Cases,
) -> Left
    requires begun { IsBegun trio }
    ensures lock { result.lock ≡ trio.lock }
    ensures comp { IsOf result.lock result.comp }
    ensures main { IsOf result.lock result.main }
    ensures worker { result.worker ≡ trio.worker }
{
    let Trio {
        lock,
        comp,
        main,
        worker,
        script,
    } = trio;
    let (comp, composed) = comp_turn(rt, alloc, &lock, comp, out);
    let (main, hosted) = main_turn(rt, alloc, &lock, main, script);
    cases.same("the compositor", &composed, &wanted);
    cases.same("the main side", &hosted, &Turned::Ended);
    Left {
        lock,
        comp,
        main,
        worker,
    }
}

/// Whether an event is the stop of this actor.
fn is_stop(event: &Event, actor: u32) -> bool {
    match event {
        Event::Stop { actor: by } => *by == actor,
        _ => false,
    }
}

/// Whether the history is nothing but the events before the stop of this actor, and that.
fn is_stopped(core: &Core, before: usize, actor: u32) -> bool {
    let history = core.history();
    history.len() == before.saturating_add(1)
        && history
            .get(before)
            .is_some_and(|last| last.actor == actor && is_stop(&last.event, actor))
}

/// Whether the history, once all passes have come back, is nothing but the events before the stop of this actor, and
/// that.
fn ends_with_stop(alloc: Global, left: Left, before: usize, actor: u32) -> Result<bool, LineFault>
    requires comp { IsOf left.lock left.comp }
    requires main { IsOf left.lock left.main }
    requires worker { IsOf left.lock left.worker }
{
    let Left {
        lock,
        comp,
        main,
        worker,
    } = left;
    let passes = vec![in alloc; comp, main, worker]?;
    match lock.close(passes) {
        Ok(core) => Ok(is_stopped(&core, before, actor)),
        Err(_) => Err(LineFault::CallRefused),
    }
}

/// The actors of a new run in which worker 0 has entered its stop.
fn stopped_trio<R: Wait>(rt: &R, alloc: Global) -> Result<Trio, LineFault>
    ensures begun { IfOk result IsBegun }
    ensures worker { IfOk result (λ trio. IsFree trio.lock trio.worker) }
{
    let Trio {
        lock,
        comp,
        main,
        worker,
        script,
    } = trio_of(rt, alloc)?;
    match stop(rt, &lock, worker) {
        Ok(worker) => Ok(Trio {
            lock,
            comp,
            main,
            worker,
            script,
        }),
        Err(fault) => Err(fault),
    }
}

/// The worker's turn after a stop, for which the run has ended.
fn worker_ends<R: Wait>(rt: &R, alloc: Global, left: Left, cases: &mut Cases) -> Left
    requires worker { IsFree left.lock left.worker }
    ensures lock { result.lock ≡ left.lock }
    ensures comp { result.comp ≡ left.comp }
    ensures main { result.main ≡ left.main }
    ensures worker { IsOf result.lock result.worker }
{
    let Left {
        lock,
        comp,
        main,
        worker,
    } = left;
    let (worker, worked) = work_turn(rt, alloc, &lock, worker);
    cases.same("the worker", &worked, &Turned::Ended);
    Left {
        lock,
        comp,
        main,
        worker,
    }
}

/// A stop ends the turns of all.
pub fn stop_ends_all_turns<R: Wait>(
    rt: &R,
    alloc: Global,
    cases: &mut Cases,
) -> Result<(), LineFault> {
    cases.begin("stop");
    let trio = stopped_trio(rt, alloc)?;
    let mut out = LinesSink {
        out: MemSink::endless(alloc),
    };
    let left = two_turns(rt, alloc, trio, &mut out, Turned::Ended, cases);
    let left = worker_ends(rt, alloc, left, cases);
    cases.same("its line", &out.out.bytes(), &b"stop 2\n".as_slice());
    cases.holds("ends with it", ends_with_stop(alloc, left, 0, 2)?);
    Ok(())
}

/// A sink that fails at its first put.
fn failing_sink(alloc: Global) -> Result<MemSink, AllocError> {
    let fails = vec![in alloc; 0]?;
    Ok(MemSink::new(alloc, 1000, fails))
}

/// A compositor whose sink fails stops the run.
pub fn failed_put_stops_the_run<R: Wait>(
    rt: &R,
    alloc: Global,
    cases: &mut Cases,
) -> Result<(), LineFault> {
    cases.begin("failed put");
    let mut out = LinesSink {
        out: failing_sink(alloc)?,
    };
    let trio = trio_of(rt, alloc)?;
    let left = two_turns(rt, alloc, trio, &mut out, Turned::WriteFault, cases);
    cases.holds("no byte", out.out.bytes().is_empty());
    cases.holds("ends with a stop", ends_with_stop(alloc, left, 1, 0)?);
    Ok(())
}
