//! Scripts, played in lockstep, of which the picture of the last draw is made a file.

ghost use Rattle.std.specs.Prelude.{◌≡◌, ◌≤◌, ◌++◌, List, length, option_map, IfOk};
ghost use Rattle.model_history.specs.declared.history.Entry.{Entry};
ghost use Rattle.impl_log.specs.Runs.{past};
ghost use Rattle.player_lockstep.specs.Films.{IsLastImage, last_image};
ghost use Rattle.player_lockstep.specs.Shots.{IsShot};
ghost use Rattle.player_lockstep.specs.inner.Shooting.{newest_image, shown};
ghost use Rattle.player_lockstep.specs.inner.Ways.{IsFresh};

use model_history::Script;
use model_lockstep::{Receiver, play_all};
use proxy_single_thread::{Retention, SingleThread};
use recording_writer::png_of;
use std::alloc::{AllocError, Global};
use std::sync::Arc;
use std::thread::Threads;
use viz_scene::Scene;

// The newest of some scenes; if there is none, the one before them.
#[tactic(auto, using(crate::proofs::ShotRuns::newest_some, crate::proofs::ShotRuns::newest_none))]
fn newest_of(mut scenes: Vec<Scene>, before: Option<Scene>) -> Option<Scene>
    ensures { shown result ≡ newest_image scenes.items (shown before) }
{
    match scenes.pop() {
        Some(scene) => Some(scene),
        None => before,
    }
}

// Keeps the newest scene of what was entered since the last time; if nothing was drawn, the one before.
fn keep_newest(single: &mut SingleThread, last: &mut Option<Scene>)
    ensures run { single.new.run ≡ single.old.run }
    ensures all { single.new.written ≡ length single.old.run.entries }
    ensures image { (newer h : List Entry) → past single.old.run ≡ newer ++ h → single.old.written ≡ length h → shown last.old ≡ last_image single.old.run.script h → shown last.new ≡ last_image single.old.run.script (newer ++ h) }
{
    single.core().is_legal();
    let scenes = single.take_scenes();
    let before = last.take();
    *last = newest_of(scenes, before);
}

// The newest scene of what was entered, if anything was drawn.
#[derive(Drop)]
struct Newest {
    scene: Option<Scene>,
}

impl Receiver<SingleThread, ()> for Newest {
    ghost use Rattle.std.specs.Prelude.{◌≡◌, ⊤};
    ghost use Rattle.player_lockstep.specs.Films.{last_image};
    ghost use Rattle.player_lockstep.specs.inner.Shooting.{shown};

    type Fault = AllocError;

    ghost Start = { ⊤ };

    ghost has = { λ _ s past newest _. shown newest.scene ≡ last_image s past };

    ghost stopped = { λ _ _ _ _ _ _. ⊤ };

    fn take<R: Threads + Sync>(
        &mut self,
        _rt: &R,
        single: &mut SingleThread,
        _out: &mut (),
    ) -> Result<(), AllocError> {
        keep_newest(single, &mut self.scene);
        Ok(())
    }

    fn refused(error: AllocError) -> AllocError {
        error
    }

    fn is_full(&self) -> bool {
        false
    }
}

// The scene of the last draw of a script's run.
fn last_scene<R: Threads + Sync>(
    rt: &R,
    single: &mut SingleThread,
    script: &Script,
) -> Result<Option<Scene>, AllocError>
    requires { IsFresh script.now single.old }
    ensures { IfOk result (λ last. IsLastImage script.now (shown last)) }
{
    script.is_accepted();
    let mut newest = Newest { scene: None };
    play_all(rt, single, script.inputs(), &mut newest, &mut ())?;
    let Newest { scene } = newest;
    Ok(scene)
}

// The file of the last picture of a script's run, which is painted in at most the given number of parts.
#[tactic(auto, using(crate::proofs::ShotRuns::shot_none))]
fn shot_of<R: Threads + Sync>(
    rt: &R,
    alloc: Global,
    single: &mut SingleThread,
    script: &Script,
    parts: usize,
) -> Result<Option<Vec<u8>>, AllocError>
    requires { IsFresh script.now single.old }
    ensures { IfOk result (λ file. IsShot script.now (option_map (λ bytes. bytes.items) file)) }
{
    match last_scene(rt, single, script)? {
        Some(scene) => Ok(Some(png_of(rt, alloc, scene, parts)?)),
        None => Ok(None),
    }
}

// The compositor of a script with the given number of workers, before anything was entered.
fn fresh(alloc: Global, script: &Arc<Script>, workers: u32) -> Result<SingleThread, AllocError>
    requires { (1 ≤ workers) × (workers ≤ 16) }
    ensures { IfOk result (λ single. IsFresh script.now.value single) }
{
    let shared = Arc::try_clone(script)?;
    let single = SingleThread::new(alloc, shared, workers, Retention::Newest)?;
    Ok(single)
}

/// Plays an accepted script in lockstep with the given number of workers. The picture of its last draw as a PNG
/// file; None if no draw gave a picture. Of the pictures only the last is painted, in at most as many parts as
/// there are workers, and a run may be of any length. The picture is the same for every number of workers. An error
/// means out of memory.
pub fn shoot<R: Threads + Sync>(
    rt: &R,
    alloc: Global,
    script: Arc<Script>,
    workers: u32,
) -> Result<Option<Vec<u8>>, AllocError>
    requires { (1 ≤ workers) × (workers ≤ 16) }
    ensures { IfOk result (λ file. IsShot script.value (option_map (λ bytes. bytes.items) file)) }
{
    match fresh(alloc, &script, workers) {
        Ok(mut single) => shot_of(rt, alloc, &mut single, &script, workers as usize),
        Err(refused) => Err(refused),
    }
}
