//! Scripts, played in lockstep, of which the images alone are written.

ghost use Rattle.std.specs.Prelude.{◌≡◌, ◌≤◌, ◌++◌, List, length, IfOk};
ghost use Rattle.model_history.specs.declared.history.Entry.{Entry};
ghost use Rattle.impl_log.specs.Runs.{past};
ghost use Rattle.player_lockstep.specs.Films.{Films};
ghost use Rattle.byte_io.specs.Pieces.{PutsAll, WriteCause};
ghost use Rattle.player_lockstep.specs.inner.Filming.{newer_images};
ghost use Rattle.player_lockstep.specs.inner.Ways.{IsFresh};

use byte_io::{PutFault, Sink};
use model_history::Script;
use model_lockstep::{Receiver, play_all};
use proxy_single_thread::{Retention, SingleThread};
use recording_writer::ImageWriter;
use std::alloc::{AllocError, Global};
use std::sync::Arc;
use std::thread::Threads;

// Puts the images of what was entered since the last time.
fn put_news<R: Threads + Sync, K: Sink>(
    rt: &R,
    images: &mut ImageWriter,
    single: &mut SingleThread,
    out: &mut K,
) -> Result<(), PutFault>
    ensures run { single.new.run ≡ single.old.run }
    ensures all { single.new.written ≡ length single.old.run.entries }
    ensures bytes { (newer h : List Entry) → past single.old.run ≡ newer ++ h → single.old.written ≡ length h → PutsAll (K.held out.old) (K.held out.new) (newer_images single.old.run.script newer h) result }
    ensures grows { K.faults out.old ≤ K.faults out.new }
    ensures cause { WriteCause (K.faults out.old) (K.faults out.new) result }
{
    single.core().is_legal();
    let scenes = single.take_scenes();
    images.put_scenes(rt, scenes, out)
}

// Puts the images of what was entered.
#[derive(Drop)]
struct Film {
    images: ImageWriter,
}

impl<K: Sink> Receiver<SingleThread, K> for Film {
    ghost use Rattle.player_lockstep.specs.inner.Receivers.{Began, FilmStopped, HasFilmed};

    type Fault = PutFault;

    ghost Start = { Began };

    ghost has = { λ began s past _ out. HasFilmed began s past (K.held out) (K.faults out) };

    ghost stopped = { λ began s past fault _ out. FilmStopped began s past fault (K.held out) (K.faults out) };

    fn take<R: Threads + Sync>(
        &mut self,
        rt: &R,
        single: &mut SingleThread,
        out: &mut K,
    ) -> Result<(), PutFault> {
        put_news(rt, &mut self.images, single, out)
    }

    fn refused(error: AllocError) -> PutFault {
        PutFault::Memory(error)
    }

    fn is_full(&self) -> bool {
        false
    }
}

// Plays the whole run of a script, and puts its images.
fn film_run<R: Threads + Sync, K: Sink>(
    rt: &R,
    film: &mut Film,
    single: &mut SingleThread,
    script: &Script,
    out: &mut K,
) -> Result<(), PutFault>
    requires { IsFresh script.now single.old }
    ensures bytes { Films script.now (K.held out.old) (K.held out.new) result }
    ensures grows { K.faults out.old ≤ K.faults out.new }
    ensures cause { WriteCause (K.faults out.old) (K.faults out.new) result }
{
    script.is_accepted();
    play_all(rt, single, script.inputs(), film, out)
}

// The compositor of a script with the given number of workers, before anything was entered, and what writes its
// images.
fn prepare(
    alloc: Global,
    script: &Arc<Script>,
    workers: u32,
) -> Result<(SingleThread, Film), AllocError>
    requires { (1 ≤ workers) × (workers ≤ 16) }
    ensures { IfOk result (λ p. IsFresh script.now.value p.0) }
{
    let images = ImageWriter::new(alloc, workers as usize)?;
    let single = SingleThread::new(alloc, Arc::try_clone(script)?, workers, Retention::Newest)?;
    Ok((single, Film { images }))
}

/// Plays an accepted script in lockstep with the given number of workers, and writes the images of its
/// recording alone, one after another, as they are made. If it stops early, the sink gained a prefix of them.
/// No image is kept, so a run may be of any length.
pub fn film_lockstep<R: Threads + Sync, K: Sink>(
    rt: &R,
    alloc: Global,
    script: Arc<Script>,
    workers: u32,
    out: &mut K,
) -> Result<(), PutFault>
    requires { (1 ≤ workers) × (workers ≤ 16) }
    ensures bytes { Films script.value (K.held out.old) (K.held out.new) result }
    ensures grows { K.faults out.old ≤ K.faults out.new }
    ensures cause { WriteCause (K.faults out.old) (K.faults out.new) result }
{
    script.is_accepted();
    match prepare(alloc, &script, workers) {
        Ok((mut single, mut film)) => film_run(rt, &mut film, &mut single, &script, out),
        Err(refused) => Err(PutFault::Memory(refused)),
    }
}
