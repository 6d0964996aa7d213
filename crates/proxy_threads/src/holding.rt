//! Taking the turn, and giving it up.

ghost use Rattle.std.specs.Prelude.{◌≡◌, ◌+◌, ◌<◌};
ghost use Rattle.proxy_threads.specs.inner.Holdings.{CanPut, Finds, Holding, Puts};
ghost use Rattle.proxy_threads.specs.inner.Steps.{HasSeat, StopsIfFailed, Stops};

use crate::turned::Turned;
use impl_core::Core;
use std::sync::Wait;
use thread_lock::{Empty, Pass, TurnLock};

/// Takes the turn, and takes the core out. It waits while another pass holds the turn.
pub(crate) fn take_turn<R: Wait>(
    rt: &R,
    lock: &TurnLock<Core>,
    pass: Pass<Core>,
) -> (Core, Empty<Core>)
    requires { pass.lock ≡ lock.now.id }
    ensures { Finds pass result.1 result.0 }
{
    let held = lock.enter(rt, pass);
    let (core, empty) = held.take();
    core.is_legal();
    (core, empty)
}

/// Puts the core back, to which the actor has entered one event or none, and gives the turn up.
pub(crate) fn put_back(lock: &TurnLock<Core>, empty: Empty<Core>, core: Core) -> Pass<Core>
    requires lock { empty.lock ≡ lock.now.id }
    requires put { CanPut empty core }
    ensures { Puts empty core result }
{
    core.is_legal();
    empty.put(lock, core)
}

// Enters the stop of an actor, unless the run has ended.
fn stop_going(core: &mut Core, actor: u32)
    requires { actor < 2 + core.old.workers }
    ensures { Stops actor core.old core.new }
{
    if !core.ended() {
        core.stop(actor);
    }
}

/// Takes the turn once, and enters the actor's stop, unless the run has ended.
pub(crate) fn stop<R: Wait>(rt: &R, lock: &TurnLock<Core>, pass: Pass<Core>) -> Pass<Core>
    requires lock { pass.lock ≡ lock.now.id }
    requires seat { HasSeat pass }
    ensures { Holding pass result (Stops pass.actor) }
{
    let actor = pass.actor();
    let (mut core, empty) = take_turn(rt, lock, pass);
    stop_going(&mut core, actor);
    put_back(lock, empty, core)
}

/// Gives up if the answer says so.
pub(crate) fn stop_if_failed<R: Wait>(
    rt: &R,
    lock: &TurnLock<Core>,
    pass: Pass<Core>,
    answer: Turned,
) -> Pass<Core>
    requires lock { pass.lock ≡ lock.now.id }
    requires seat { HasSeat pass }
    ensures { StopsIfFailed answer pass result }
{
    match answer {
        Turned::Memory | Turned::WriteFault => stop(rt, lock, pass),
        _ => pass,
    }
}
