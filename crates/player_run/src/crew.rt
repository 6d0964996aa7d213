//! The actors of a run, before their first turns.

ghost use Rattle.std.specs.Prelude.{◌≡◌, ◌+◌, ◌≤◌, Some, IfSome, All};
ghost use Rattle.impl_core.specs.Origins.{Origin};
ghost use Rattle.proxy_threads.specs.Seats.{Of};
ghost use Rattle.proxy_threads.specs.MainTurns.{MainIsReady};
ghost use Rattle.proxy_threads.specs.WorkTurns.{WorkIsReady};
ghost use Rattle.player_run.specs.inner.Actors.{IsFirst, IsSame, IsSplitOf};

use byte_io::Gate;
use impl_core::Core;
use main_host::MainHost;
use model_history::Script;
use proxy_threads::{MainActor, RasterActor};
use std::alloc::{AllocError, Global};
use std::sync::{Arc, Wait};
use thread_lock::{Pass, TurnLock};

/// A lock around a new core, and those who take turns with it.
#[derive(Drop)]
pub(crate) struct Crew<'g, G: Gate> {
    pub(crate) lock: TurnLock<Core>,
    /// The compositor's pass.
    pub(crate) pass: Pass<Core>,
    pub(crate) main: MainActor,
    pub(crate) workers: Vec<RasterActor<'g, G>>,
}

// The next pass of a lock, if it is this actor's.
fn pass_of<R: Wait>(
    rt: &R,
    lock: &TurnLock<Core>,
    first: &mut Pass<Core>,
    actor: u32,
) -> Option<Pass<Core>>
    requires { first.old.lock ≡ lock.now.id }
    ensures given { IsSame first.old first.new }
    ensures made { IfSome result (IsSplitOf first.old actor) }
{
    match lock.split(rt, first) {
        Ok(pass) if pass.actor() == actor => Some(pass),
        _ => None,
    }
}

// The workers, each with its pass. An answer of None means out of memory, or a pass of another number.
#[tactic(auto, using(crate::proofs::BeginsOfRuns::same_again))]
fn workers_of<'g, R: Wait, G: Gate>(
    rt: &R,
    alloc: Global,
    lock: &TurnLock<Core>,
    first: &mut Pass<Core>,
    count: u32,
    gate: &'g G,
) -> Option<Vec<RasterActor<'g, G>>>
    requires lock { first.old.lock ≡ lock.now.id }
    requires most { count ≤ 16 }
    requires few { (o : Origin) × (first.old.stem ≡ Some o) × (count ≤ o.workers) }
    ensures given { IsSame first.old first.new }
    ensures ready { IfSome result (λ workers. All (λ worker. Of worker.pass (WorkIsReady lock.now.id worker.worker)) workers.items) }
{
    let mut workers = Vec::new(alloc);
    for worker in 0..count {
        let pass = pass_of(rt, lock, first, 2 + worker)?;
        let actor = RasterActor::new(alloc, pass, worker, gate);
        workers.push(actor).ok()?;
    }
    Some(workers)
}

// A lock around a new core of a script, and its first pass.
fn lock_of(alloc: Global, script: Arc<Script>, count: u32) -> Option<(TurnLock<Core>, Pass<Core>)>
    requires { count ≤ 16 }
    ensures first { IfSome result (λ made. IsFirst made.0.id made.1) }
    ensures stem { IfSome result (λ made. made.1.stem ≡ Some (record { script = script.value; workers = count })) }
{
    let core = Core::new(alloc, script, count).ok()?;
    TurnLock::new(alloc, core, count + 2).ok()
}

// The main side of a script, with its pass.
fn main_of<R: Wait>(
    rt: &R,
    alloc: Global,
    lock: &TurnLock<Core>,
    first: &mut Pass<Core>,
    script: Arc<Script>,
) -> Option<MainActor>
    requires lock { first.old.lock ≡ lock.now.id }
    requires script { (o : Origin) × (first.old.stem ≡ Some o) × (script.value ≡ o.script) }
    ensures given { IsSame first.old first.new }
    ensures ready { IfSome result (λ main. Of main.pass (MainIsReady lock.now.id main.host)) }
{
    let pass = pass_of(rt, lock, first, 1)?;
    Some(MainActor::new(pass, MainHost::new(alloc, script)))
}

/// The actors of a script with the given number of workers. An answer of None means out of memory, or a pass
/// of another number.
pub(crate) fn crew_of<'g, R: Wait, G: Gate>(
    rt: &R,
    alloc: Global,
    script: &Arc<Script>,
    count: u32,
    gate: &'g G,
) -> Option<Crew<'g, G>>
    requires { count ≤ 16 }
    ensures pass { IfSome result (λ crew. IsFirst crew.lock.id crew.pass) }
    ensures stem { IfSome result (λ crew. crew.pass.stem ≡ Some (record { script = script.now.value; workers = count })) }
    ensures main { IfSome result (λ crew. Of crew.main.pass (MainIsReady crew.lock.id crew.main.host)) }
    ensures workers { IfSome result (λ crew. All (λ worker. Of worker.pass (WorkIsReady crew.lock.id worker.worker)) crew.workers.items) }
{
    let (lock, mut pass) = lock_of(alloc, Arc::try_clone(script).ok()?, count)?;
    let main = main_of(rt, alloc, &lock, &mut pass, Arc::try_clone(script).ok()?)?;
    let workers = workers_of(rt, alloc, &lock, &mut pass, count, gate)?;
    Some(Crew {
        lock,
        pass,
        main,
        workers,
    })
}
