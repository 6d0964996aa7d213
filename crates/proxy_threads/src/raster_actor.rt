//! A raster worker.

ghost use Rattle.std.specs.Prelude.{◌≡◌, ◌+◌, ◌<◌, Some, None, IsSome};
ghost use Rattle.model_history.specs.Scans.{held};
ghost use Rattle.impl_core.specs.Origins.{Origin};
ghost use Rattle.proxy_threads.specs.Seats.{Of, OfBoth, past_of};
ghost use Rattle.proxy_threads.specs.WorkTurns.{WorkIsReady, WorkTurn};
ghost use Rattle.proxy_threads.specs.inner.Holdings.{Holding};
ghost use Rattle.proxy_threads.specs.inner.Works.{CanBeDone, Finishes, Holds, HoldsJob, IsDone, IsFree, StartsOne, WorkTurns};

use crate::holding::{put_back, stop, take_turn};
use crate::turned::Turned;
use byte_io::Gate;
use impl_core::Core;
use std::alloc::Global;
use std::sync::{Arc, Wait};
use thread_bell::{Bell, Post};
use thread_lock::{Pass, TurnLock};
use tile_raster::{Job, TileImage};

/// A worker, which makes one tile after another.
#[derive(Drop)]
pub struct RasterActor<'g, G: Gate> {
    pub(crate) pass: Option<Pass<Core>>,
    pub(crate) worker: u32,
    pub(crate) gate: &'g G,
    pub(crate) alloc: Global,
}

/// What a worker has begun.
#[derive(Drop)]
enum Started {
    /// Nothing: the run has ended.
    Ended,
    /// Nothing: no tile may start.
    Waits,
    /// It has started this tile.
    Making(Job),
    /// Memory was refused.
    Memory,
}

// Starts the next tile, unless the run has ended.
fn start(core: &mut Core, worker: u32) -> Started
    requires worker { worker < core.old.workers }
    requires free { IsFree worker core.old }
    ensures { StartsOne worker result core.old core.new }
{
    if core.ended() {
        return Started::Ended;
    }
    match core.start(worker) {
        Ok(Some(job)) => Started::Making(job),
        Ok(None) => Started::Waits,
        Err(_) => Started::Memory,
    }
}

// Takes the turn once, and starts the next tile, unless the run has ended.
fn hold_start<R: Wait>(
    rt: &R,
    lock: &TurnLock<Core>,
    pass: Pass<Core>,
    worker: u32,
) -> (Pass<Core>, Started)
    requires { WorkIsReady lock.now.id worker pass }
    ensures { Holding pass result.0 (StartsOne worker result.1) }
{
    let (mut core, empty) = take_turn(rt, lock, pass);
    let started = start(&mut core, worker);
    let pass = put_back(lock, empty, core);
    (pass, started)
}

// Is done with a tile, unless the run has ended.
fn finish(core: &mut Core, worker: u32, image: Arc<TileImage>) -> Turned
    requires { CanBeDone worker image.value core.old }
    ensures { IsDone worker image.value.key result core.old core.new }
{
    if core.ended() {
        return Turned::Ended;
    }
    core.done(worker, image);
    Turned::Went
}

// Takes the turn once, and is done with a tile, unless the run has ended.
fn hold_done<R: Wait>(
    rt: &R,
    lock: &TurnLock<Core>,
    pass: Pass<Core>,
    worker: u32,
    image: Arc<TileImage>,
) -> (Pass<Core>, Turned)
    requires lock { pass.lock ≡ lock.now.id }
    requires holds { Holds worker pass image.value }
    ensures { Holding pass result.0 (IsDone worker image.value.key result.1) }
{
    let (mut core, empty) = take_turn(rt, lock, pass);
    let answer = finish(&mut core, worker, image);
    let pass = put_back(lock, empty, core);
    (pass, answer)
}

// Makes a tile outside of any turn, and is done with it.
fn make<R: Wait>(
    rt: &R,
    lock: &TurnLock<Core>,
    pass: Pass<Core>,
    worker: u32,
    alloc: Global,
    job: Job,
) -> (Pass<Core>, Turned)
    requires lock { pass.lock ≡ lock.now.id }
    requires holds { HoldsJob worker pass job }
    ensures { Holding pass result.0 (Finishes worker job.key pass.actor result.1) }
{
    match job.run(alloc) {
        Ok(image) => hold_done(rt, lock, pass, worker, image),
        Err(_) => (stop(rt, lock, pass), Turned::Memory),
    }
}

impl<'g, G: Gate> RasterActor<'g, G> {
    /// A worker with its pass, whose actor is `2 + worker`. What it entered so far leaves it no tile to make.
    pub fn new(alloc: Global, pass: Pass<Core>, worker: u32, gate: &'g G) -> RasterActor<'g, G>
        requires actor { pass.actor ≡ 2 + worker }
        requires worker { (o : Origin) × (pass.stem ≡ Some o) × (worker < o.workers) }
        requires free { held worker (past_of pass.mine) ≡ None }
        ensures pass { result.pass ≡ Some pass }
        ensures worker { result.worker ≡ worker }
        ensures ready { WorkIsReady pass.lock worker pass }
    {
        RasterActor {
            pass: Some(pass),
            worker,
            gate,
            alloc,
        }
    }

    // One turn.
    fn work<R: Wait>(
        &self,
        rt: &R,
        lock: &TurnLock<Core>,
        bell: &Bell,
        pass: Pass<Core>,
    ) -> (Pass<Core>, Turned)
        requires { WorkIsReady lock.now.id self.now.worker pass }
        ensures { WorkTurns self.now.worker pass result.0 result.1 }
    {
        let (pass, started) = hold_start(rt, lock, pass, self.worker);
        match started {
            Started::Ended => (pass, Turned::Ended),
            Started::Waits => (pass, Turned::Blocked),
            Started::Making(job) => {
                bell.ring(Post::Compositor);
                let key = job.key;
                self.gate.between(self.worker, key.layer, key.x, key.y);
                make(rt, lock, pass, self.worker, self.alloc, job)
            }
            Started::Memory => (stop(rt, lock, pass), Turned::Memory),
        }
    }

    /// One turn: starts the next tile, makes it outside of any turn, after the gate, and is done with it. It
    /// waits while another actor holds the turn. It rings for the compositor after the start, whose line that writes
    /// while the tile is made; the caller rings after the turn.
    pub fn turn<R: Wait>(&mut self, rt: &R, lock: &TurnLock<Core>, bell: &Bell) -> Turned
        requires { Of self.old.pass (WorkIsReady lock.now.id self.old.worker) }
        ensures turn { OfBoth self.old.pass self.new.pass (λ p q. WorkTurn p q result) }
        ensures ready { Of self.new.pass (WorkIsReady lock.now.id self.new.worker) }
    {
        let Some(pass) = self.pass.take() else {
            unreachable!()
        };
        let (pass, answer) = self.work(rt, lock, bell, pass);
        self.pass = Some(pass);
        answer
    }

    /// The pass.
    pub fn pass(self) -> Pass<Core>
        requires { IsSome self.pass }
        ensures { self.entry.pass ≡ Some result }
    {
        let RasterActor { pass, .. } = self;
        let Some(pass) = pass else { unreachable!() };
        pass
    }
}
