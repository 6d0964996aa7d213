//! The actors of a run with one worker, before their first turns.

ghost use Rattle.std.specs.Prelude.{◌≡◌, Some, IfOk};
ghost use Rattle.test_channels.specs.Passes.{IsBegun, IsFresh, IsStill};

use impl_core::Core;
use model_history::Script;
use script_json::read_script;
use std::alloc::{AllocError, Global};
use std::sync::{Arc, Wait};
use test_table::LineFault;
use thread_lock::{Pass, TurnLock};

/// A script of one layer of two pixels, drawn once.
const SCRIPT: &[u8] =
    br#"{"background":"000000","budget":8,"eventually":0,"inputs":[{"frame":0,"op":"await"},{"op":"draw"}],"main":[[{"at":0,"clip":0,"colour":"00000000","effect":0,"h":1,"id":1,"op":"add_layer","transform":0,"w":2},{"at":0,"colour":"ff0000ff","layer":1,"op":"insert_item","rect":[0,0,1,1]}]],"priority":"same","raster_per_frame":4,"soon":0,"tile":16,"version":1,"viewport":[2,1]}"#;

/// A lock around a new core of the script, and the passes of its three actors.
#[derive(Drop)]
pub struct Trio {
    pub lock: TurnLock<Core>,
    pub comp: Pass<Core>,
    pub main: Pass<Core>,
    pub worker: Pass<Core>,
    pub script: Arc<Script>,
}

/// The script, read.
fn script_of(alloc: Global) -> Result<Arc<Script>, LineFault> {
    match read_script(alloc, SCRIPT) {
        Ok(script) => Ok(Arc::new(alloc, script)?),
        Err(_) => Err(LineFault::CallRefused),
    }
}

/// A lock around a new core of a script with one worker, and its first pass.
fn lock_of(alloc: Global, script: &Arc<Script>) -> Result<(TurnLock<Core>, Pass<Core>), AllocError>
    ensures pass { IfOk result (λ made. IsFresh made.0 0 made.1) }
    ensures stem { IfOk result (λ made. made.1.stem ≡ Some (record { script = script.now.value; workers = 1 })) }
{
    let core = Core::new(alloc, Arc::try_clone(script)?, 1)?;
    match TurnLock::new(alloc, core, 3) {
        Ok(made) => Ok(made),
        Err((refused, _core)) => Err(refused),
    }
}

/// The next pass, which is this actor's.
fn split<R: Wait>(
    rt: &R,
    lock: &TurnLock<Core>,
    pass: &mut Pass<Core>,
    actor: u32,
) -> Result<Pass<Core>, LineFault>
    requires { IsFresh lock.now 0 pass.old }
    ensures given { IsFresh lock.now 0 pass.new }
    ensures same { IsStill pass.old pass.new }
    ensures made { IfOk result (λ made. IsFresh lock.now actor made) }
    ensures stem { IfOk result (λ made. made.stem ≡ pass.old.stem) }
{
    let Ok(made) = lock.split(rt, pass) else {
        return Err(LineFault::CallRefused);
    };
    if made.actor() != actor {
        return Err(LineFault::CallRefused);
    }
    Ok(made)
}

/// The passes of the main side and of the worker, made of the compositor's.
fn two_more<R: Wait>(
    rt: &R,
    lock: &TurnLock<Core>,
    comp: &mut Pass<Core>,
) -> Result<(Pass<Core>, Pass<Core>), LineFault>
    requires { IsFresh lock.now 0 comp.old }
    ensures comp { IsFresh lock.now 0 comp.new }
    ensures main { IfOk result (λ made. IsFresh lock.now 1 made.0) }
    ensures main_stem { IfOk result (λ made. made.0.stem ≡ comp.old.stem) }
    ensures worker { IfOk result (λ made. IsFresh lock.now 2 made.1) }
    ensures worker_stem { IfOk result (λ made. made.1.stem ≡ comp.old.stem) }
{
    let main = split(rt, lock, comp, 1)?;
    match split(rt, lock, comp, 2) {
        Ok(worker) => Ok((main, worker)),
        Err(fault) => Err(fault),
    }
}

/// The actors of a new run of the script with one worker.
pub fn trio_of<R: Wait>(rt: &R, alloc: Global) -> Result<Trio, LineFault>
    ensures begun { IfOk result IsBegun }
    ensures worker { IfOk result (λ trio. IsFresh trio.lock 2 trio.worker) }
    ensures worker_stem { IfOk result (λ trio. trio.worker.stem ≡ Some (record { script = trio.script.value; workers = 1 })) }
{
    let script = script_of(alloc)?;
    let (lock, mut comp) = lock_of(alloc, &script)?;
    match two_more(rt, &lock, &mut comp) {
        Ok((main, worker)) => Ok(Trio {
            lock,
            comp,
            main,
            worker,
            script,
        }),
        Err(fault) => Err(fault),
    }
}
