//! Scripts, played in lockstep batch by batch, while others paint the batch before.
//!
//! # What
//!
//! [`record_batches`] plays the whole run of a script and writes its recording, for `step N` with N above 1. The
//! history is the lockstep history, that of `step 1`: painting and putting are shared, playing is not. The sink gained
//! the rest of the recording after the lines that were put before; if writing stopped, a prefix of it.
//!
//! # How
//!
//! ```text
//!    playing    batch 1 |  batch 2        |  batch 3        |  ..  the end
//!    painting           |  paint and put  |  paint and put  |      paint and put
//!                       |  batch 1        |  batch 2        |      the last batch
//!                       +---- join -------+---- join -------+
//! ```
//!
//! A batch has the pieces of some parts of the run: the lines of what was entered, and after the line of a draw its
//! scene. A part is an input, a round of an await or of the end, or the end itself. Playing fills the next batch while
//! N painters paint and put the one before (`join_mut`). The next batch begins when both sides are done, so each waits
//! for the slower one and for nothing else. Putting is the second closure, which runs on the calling thread: a sink
//! need not go to another thread. When all inputs were played, what is left is played and put in turn, batch by batch.
//!
//! A batch is full with four pieces for each painter, or with fewer, as many for each, if images are large: it has at
//! most 48 MiB, judged by the size of the last piece. Lines that no image follows become a piece of their own from 64
//! KiB on. What a part brings stands in one batch, and the rounds of an await or of the end in as many as they fill.
//!
//! # Cost
//!
//! The images of one batch are held, and the scenes of the next, which share the images of tiles with the core. Images
//! of the first painter are put from where they were painted, most others are copied once (`hands` of `thread_pieces`).
//! One thread is started and joined for each batch, beside those of the painters.
//!
//! # Limits
//!
//! The slower side sets the pace: a script with few draws gains little. A single image above 48 MiB is a batch of its
//! own, and is painted in parts. Nothing is put while what comes after all inputs is played. A put that was refused is
//! told when the playing of the next batch ends. If memory runs out while a batch is played, the batch before it may
//! have been put, and what was played is not. That anything happens side by side, or is faster, is not claimed: the
//! clauses speak of the bytes and of the history alone.

ghost use Rattle.std.specs.Prelude.{◌≡◌, ◌≤◌, ◌<◌, ◌++◌, ℕ, List, [], Option, length, reverse, IfOk, OnErr, OnOk};
ghost use Rattle.std.specs.Thread.{IsSync};
ghost use Rattle.serde_json.specs.Written.{compact_text};
ghost use Rattle.byte_io.specs.Pieces.{GainsPrefix, PutsAll, WriteCause};
ghost use Rattle.model_history.specs.declared.history.Entry.{Entry};
ghost use Rattle.model_history.specs.Recordings.{header, pieces};
ghost use Rattle.model_lockstep.specs.Measures.{to_play};
ghost use Rattle.model_lockstep.specs.Receivers.{OnCourse, ReachesEnd, StaysOn};
ghost use Rattle.impl_log.specs.Kept.{forgettable};
ghost use Rattle.impl_log.specs.Runs.{past};
ghost use Rattle.proxy_single_thread.specs.Singles.{walk_of};
ghost use Rattle.thread_pieces.specs.Shots.{all_shown};
ghost use Rattle.script_json.specs.Recordings.{recording};
ghost use Rattle.script_json.specs.ScriptValue.{parts_data};
ghost use Rattle.recording_writer.specs.Batches.{held_of};
ghost use Rattle.player_lockstep.specs.inner.Batches.{Completes, KeepsUp, StopsEarly, joint_answer, run_text};
ghost use Rattle.recording_writer.specs.Parts.{Half};
ghost use Rattle.player_lockstep.specs.inner.Ways.{IsFresh, RecordsRest};

use byte_io::{PutFault, Sink};
use model_history::{Input, Script};
use model_lockstep::{Receiver, play_end, play_some};
use proxy_single_thread::SingleThread;
use recording_writer::{Batch, ImagePainter, put_shots};
use std::alloc::{AllocError, Global};
use std::marker::Sync;
use std::thread::{Threads, join_mut};
use thread_pieces::{Painters, Shot};

// Adds what was entered since the last time.
fn gather_news(single: &mut SingleThread, batch: &mut Batch) -> Result<(), AllocError>
    requires { forgettable (past single.old.run) ≤ single.old.written }
    ensures run { single.new.run ≡ single.old.run }
    ensures all { single.new.written ≡ length single.old.run.entries }
    ensures bytes { OnOk result ((done news : List Entry) → single.old.run.entries ≡ done ++ news → single.old.written ≡ length done → held_of batch.new ≡ held_of batch.old ++ pieces single.old.run.script (reverse done) news) }
{
    single.core().is_legal();
    let from = single.written();
    let scenes = single.take_scenes();
    batch.push_entries(single.core(), from, scenes)
}

// A batch that gathers what was entered until it has as much as the given number of painters take at a time.
#[derive(Drop)]
struct Gathering {
    batch: Batch,
    painters: usize,
}

impl Receiver<SingleThread, ()> for Gathering {
    ghost use Rattle.std.specs.Prelude.{⊤};
    ghost use Rattle.recording_writer.specs.Batches.{held_of};
    ghost use Rattle.player_lockstep.specs.inner.Receivers.{HasGathered, Waited};

    type Fault = AllocError;

    ghost Start = { Waited };

    ghost has = { λ waited s past x _. HasGathered waited s past (held_of x.batch) };

    ghost stopped = { λ _ _ _ _ _ _. ⊤ };

    fn take<R: Threads + Sync>(
        &mut self,
        _rt: &R,
        single: &mut SingleThread,
        _out: &mut (),
    ) -> Result<(), AllocError> {
        gather_news(single, &mut self.batch)
    }

    fn refused(error: AllocError) -> AllocError {
        error
    }

    fn is_full(&self) -> bool {
        self.batch.is_full(self.painters)
    }
}

// Plays inputs, part by part, until the batch has as much as its painters take at a time, and adds what they bring. The
// inputs that are left.
fn gather_inputs<'i, R: Threads + Sync>(
    rt: &R,
    single: &mut SingleThread,
    inputs: &'i [Input],
    gathering: &mut Gathering,
) -> Result<&'i [Input], AllocError>
    requires course { OnCourse inputs.now (walk_of single.old) }
    ensures course { IfOk result (λ left. StaysOn left.now (walk_of single.old) (walk_of single.new)) }
    ensures bytes { OnOk result (KeepsUp single.old.run single.new.run (held_of gathering.old.batch) (held_of gathering.new.batch)) }
    ensures nearer { 1 ≤ length inputs.now → IfOk result (λ left. to_play left.now (walk_of single.new) < to_play inputs.now (walk_of single.old)) }
{
    play_some(rt, single, inputs, gathering, &mut ())
}

// Plays what is left after all inputs, round by round, until the batch has as much as its painters take at a time, and
// adds it. Answers whether the run has ended.
fn gather_end<R: Threads + Sync>(
    rt: &R,
    single: &mut SingleThread,
    gathering: &mut Gathering,
) -> Result<bool, AllocError>
    requires course { OnCourse [] (walk_of single.old) }
    ensures reaches { IfOk result (λ over. ReachesEnd over (walk_of single.old) (walk_of single.new)) }
    ensures bytes { OnOk result (Completes (held_of gathering.old.batch) (run_text single.old.run) (held_of gathering.new.batch) (recording single.old.run.script single.new.run.entries)) }
{
    play_end(rt, single, gathering, &mut ())
}

// What playing and putting answered together.
fn both_answer<'i>(
    played: Result<&'i [Input], AllocError>,
    put: Result<(), PutFault>,
) -> Result<&'i [Input], PutFault>
    ensures { result ≡ joint_answer played.entry put }
{
    match (played, put) {
        (_, Err(stop)) => Err(stop),
        (Ok(left), Ok(())) => Ok(left),
        (Err(refused), Ok(())) => Err(PutFault::Memory(refused)),
    }
}

// Plays inputs into a batch, and paints and puts these pieces, side by side if a thread can be started. The inputs
// that are left.
fn play_beside<'i, R: Threads + Sync, K: Sink>(
    rt: &R,
    alloc: Global,
    painters: &mut Painters<ImagePainter>,
    single: &mut SingleThread,
    inputs: &'i [Input],
    gathering: &mut Gathering,
    shots: Vec<Shot>,
    out: &mut K,
) -> (Result<&'i [Input], AllocError>, Result<(), PutFault>)
    requires course { OnCourse inputs.now (walk_of single.old) }
    ensures course { IfOk result.0 (λ left. StaysOn left.now (walk_of single.old) (walk_of single.new)) }
    ensures bytes { OnOk result.0 (KeepsUp single.old.run single.new.run (held_of gathering.old.batch) (held_of gathering.new.batch)) }
    ensures nearer { 1 ≤ length inputs.now → IfOk result.0 (λ left. to_play left.now (walk_of single.new) < to_play inputs.now (walk_of single.old)) }
    ensures put { PutsAll (K.held out.old) (K.held out.new) (all_shown shots.items) result.1 }
    ensures grows { K.faults out.old ≤ K.faults out.new }
    ensures cause { WriteCause (K.faults out.old) (K.faults out.new) result.1 }
{
    let mut waiting = shots;
    join_mut(
        rt,
        &mut || -> Result<&[Input], AllocError>
            requires sync { IsSync R.row }
            requires course { OnCourse inputs.now (walk_of single.now) }
        { gather_inputs(rt, single, inputs, gathering) },
        &mut || put_shots(rt, alloc, painters, &mut waiting, out),
    )
}

// Plays inputs into a batch, and puts what waited in it before. The inputs that are left.
fn record_batch<'i, R: Threads + Sync, K: Sink>(
    rt: &R,
    alloc: Global,
    painters: &mut Painters<ImagePainter>,
    single: &mut SingleThread,
    inputs: &'i [Input],
    gathering: &mut Gathering,
    out: &mut K,
) -> Result<&'i [Input], PutFault>
    requires course { OnCourse inputs.now (walk_of single.old) }
    ensures course { IfOk result (λ left. StaysOn left.now (walk_of single.old) (walk_of single.new)) }
    ensures ok { (start : Option (List ℕ)) → Half start (K.held out.old) (run_text single.old.run) (held_of gathering.old.batch) → OnOk result (Half start (K.held out.new) (run_text single.new.run) (held_of gathering.new.batch)) }
    ensures err { (start : Option (List ℕ)) → Half start (K.held out.old) (run_text single.old.run) (held_of gathering.old.batch) → OnErr result (GainsPrefix start (K.held out.new) (run_text single.old.run)) }
    ensures nearer { 1 ≤ length inputs.now → IfOk result (λ left. to_play left.now (walk_of single.new) < to_play inputs.now (walk_of single.old)) }
    ensures grows { K.faults out.old ≤ K.faults out.new }
    ensures cause { WriteCause (K.faults out.old) (K.faults out.new) result }
{
    let shots = gathering.batch.take_shots();
    let (played, put) = play_beside(rt, alloc, painters, single, inputs, gathering, shots, out);
    both_answer(played, put)
}

// Plays all inputs, batch by batch. What the last batch has waits.
fn record_inputs<R: Threads + Sync, K: Sink>(
    rt: &R,
    alloc: Global,
    painters: &mut Painters<ImagePainter>,
    single: &mut SingleThread,
    inputs: &[Input],
    gathering: &mut Gathering,
    out: &mut K,
) -> Result<(), PutFault>
    requires course { OnCourse inputs.now (walk_of single.old) }
    ensures course { OnOk result (StaysOn [] (walk_of single.old) (walk_of single.new)) }
    ensures ok { (start : Option (List ℕ)) → Half start (K.held out.old) (run_text single.old.run) (held_of gathering.old.batch) → OnOk result (Half start (K.held out.new) (run_text single.new.run) (held_of gathering.new.batch)) }
    ensures err { (start : Option (List ℕ)) → Half start (K.held out.old) (run_text single.old.run) (held_of gathering.old.batch) → OnErr result (StopsEarly single.old.run.script start (K.held out.new)) }
    ensures grows { K.faults out.old ≤ K.faults out.new }
    ensures cause { WriteCause (K.faults out.old) (K.faults out.new) result }
{
    let mut rest = inputs;
    while !rest.is_empty() {
        match record_batch(rt, alloc, painters, single, rest, gathering, out) {
            Ok(left) => rest = left,
            Err(stop) => return Err(stop),
        }
    }
    Ok(())
}

// Plays some of what is left after all inputs into the batch, and paints and puts its pieces; the lines after them
// wait. Answers whether the run has ended.
fn record_rounds<R: Threads + Sync, K: Sink>(
    rt: &R,
    painters: &mut Painters<ImagePainter>,
    single: &mut SingleThread,
    gathering: &mut Gathering,
    out: &mut K,
) -> Result<bool, PutFault>
    requires course { OnCourse [] (walk_of single.old) }
    ensures reaches { IfOk result (λ over. ReachesEnd over (walk_of single.old) (walk_of single.new)) }
    ensures ok { (start : Option (List ℕ)) → Half start (K.held out.old) (run_text single.old.run) (held_of gathering.old.batch) → OnOk result (Half start (K.held out.new) (recording single.old.run.script single.new.run.entries) (held_of gathering.new.batch)) }
    ensures err { (start : Option (List ℕ)) → Half start (K.held out.old) (run_text single.old.run) (held_of gathering.old.batch) → OnErr result (StopsEarly single.old.run.script start (K.held out.new)) }
    ensures grows { K.faults out.old ≤ K.faults out.new }
    ensures cause { WriteCause (K.faults out.old) (K.faults out.new) result }
{
    match gather_end(rt, single, gathering) {
        Ok(over) => {
            let shots = gathering.batch.take_shots();
            match painters.put(rt, shots, out) {
                Ok(()) => Ok(over),
                Err(stop) => Err(stop),
            }
        }
        Err(refused) => Err(PutFault::Memory(refused)),
    }
}

// Plays what is left after all inputs, batch by batch, and puts all that waits.
fn record_end<R: Threads + Sync, K: Sink>(
    rt: &R,
    painters: &mut Painters<ImagePainter>,
    single: &mut SingleThread,
    gathering: &mut Gathering,
    out: &mut K,
) -> Result<(), PutFault>
    requires course { OnCourse [] (walk_of single.old) }
    ensures { RecordsRest K.Sink single.old.run.script (run_text single.old.run) (held_of gathering.old.batch) out.old out.new single.new.run.entries result }
{
    'rounds: loop {
        match record_rounds(rt, painters, single, gathering, out) {
            Ok(true) => return gathering.batch.put(rt, painters, out),
            Ok(false) => {}
            Err(stop) => return Err(stop),
        }
    }
}

// Plays and writes the whole run of these inputs with a batch that has the lines before the events.
fn record_run<R: Threads + Sync, K: Sink>(
    rt: &R,
    alloc: Global,
    painters: &mut Painters<ImagePainter>,
    single: &mut SingleThread,
    inputs: &[Input],
    gathering: &mut Gathering,
    out: &mut K,
) -> Result<(), PutFault>
    requires course { OnCourse inputs.now (walk_of single.old) }
    ensures { RecordsRest K.Sink single.old.run.script (run_text single.old.run) (held_of gathering.old.batch) out.old out.new single.new.run.entries result }
{
    if let Err(stop) = record_inputs(rt, alloc, painters, single, inputs, gathering, out) {
        return Err(stop);
    }
    record_end(rt, painters, single, gathering, out)
}

/// Plays and writes the whole run of a script after the lines before the events, of which these were not put yet.
/// With at most the given number of painters, one batch is painted and put while the next one is played.
pub(crate) fn record_batches<R: Threads + Sync, K: Sink>(
    rt: &R,
    alloc: Global,
    most: usize,
    lines: Vec<u8>,
    single: &mut SingleThread,
    script: &Script,
    out: &mut K,
) -> Result<(), PutFault>
    requires { IsFresh script.now single.old }
    ensures { RecordsRest K.Sink script.now (header (compact_text (parts_data script.now))) lines.items out.old out.new single.new.run.entries result }
{
    script.is_accepted();
    let mut painters: Painters<ImagePainter> = Painters::new(alloc, most);
    let mut gathering = Gathering {
        batch: Batch::new(alloc, lines),
        painters: painters.most(),
    };
    record_run(
        rt,
        alloc,
        &mut painters,
        single,
        script.inputs(),
        &mut gathering,
        out,
    )
}
