//! Scripts, played in lockstep and recorded.

ghost use Rattle.std.specs.Prelude.{◌≡◌, ◌≤◌, ℕ, ◌++◌, List, None, Option, codes, length, reverse, take, IfOk, OnOk};
ghost use Rattle.serde_json.specs.Written.{compact_text};
ghost use Rattle.model_history.specs.declared.history.Entry.{Entry};
ghost use Rattle.model_history.specs.Lockstep.{IsLockstep};
ghost use Rattle.model_history.specs.Recordings.{header, pieces};
ghost use Rattle.script_json.specs.ScriptValue.{parts_data};
ghost use Rattle.impl_log.specs.Kept.{forgettable};
ghost use Rattle.impl_log.specs.Runs.{past};
ghost use Rattle.player_lockstep.specs.Recordings.{Records};
ghost use Rattle.byte_io.specs.Pieces.{WriteCause};
ghost use Rattle.recording_writer.specs.Parts.{Half, WritesPart};
ghost use Rattle.recording_writer.specs.Repeats.{Keeps};
ghost use Rattle.player_lockstep.specs.inner.Ways.{IsFresh, IsWritten, RecordsRest, RecordsRun, recorded_run};

use crate::batches::record_batches;
use byte_io::{PutFault, Sink};
use impl_log::KeptHistory;
use model_history::Script;
use model_lockstep::{Receiver, play_all};
use proxy_single_thread::{Retention, SingleThread};
use recording_writer::Recorder;
use script_json::print_script;
use std::alloc::{AllocError, Global};
use std::marker::Model;
use std::sync::Arc;
use std::thread::Threads;

/// A run whose recording was written to its end. Contracts see its entries, forgotten ones too, the oldest first.
#[derive(Drop)]
pub struct Recorded {
    single: SingleThread,
}

impl Model for Recorded {
    ghost use Rattle.std.specs.Prelude.{List};
    ghost use Rattle.model_history.specs.declared.history.Entry.{Entry};

    ghost Value = { List Entry };

    ghost view = { λ r. r.single.run.entries };
}

impl Recorded {
    /// The entries, the oldest first.
    pub fn history(&self) -> &KeptHistory
        ensures { result.now.entries ≡ self.now }
    {
        self.single.history()
    }
}

// Writes what was entered since the last time.
fn write_news<R: Threads + Sync, K: Sink>(
    rt: &R,
    recorder: &mut Recorder,
    single: &mut SingleThread,
    out: &mut K,
) -> Result<(), PutFault>
    requires kept { forgettable (past single.old.run) ≤ single.old.written }
    requires keeps { Keeps single.old.run.script (reverse (take single.old.written single.old.run.entries)) single.old.run.entries recorder.old.last }
    ensures run { single.new.run ≡ single.old.run }
    ensures all { single.new.written ≡ length single.old.run.entries }
    ensures written { OnOk result (IsWritten single.new recorder.new) }
    ensures bytes { (done news : List Entry) → single.old.run.entries ≡ done ++ news → single.old.written ≡ length done → WritesPart (K.held out.old) (K.held out.new) (recorder.old.lines.items ++ pieces single.old.run.script (reverse done) news) recorder.new.lines.items result }
    ensures grows { K.faults out.old ≤ K.faults out.new }
    ensures cause { WriteCause (K.faults out.old) (K.faults out.new) result }
{
    single.core().is_legal();
    let from = single.written();
    let scenes = single.take_scenes();
    recorder.write_entries(rt, out, single.core(), from, scenes)
}

// Writes the recording of what was entered.
#[derive(Drop)]
struct Recording {
    recorder: Recorder,
}

impl<K: Sink> Receiver<SingleThread, K> for Recording {
    ghost use Rattle.player_lockstep.specs.inner.Receivers.{Began, HasRecorded, RecordStopped};

    type Fault = PutFault;

    ghost Start = { Began };

    ghost has = { λ began s past x out. HasRecorded began s past x.recorder (K.held out) (K.faults out) };

    ghost stopped = { λ began s past fault _ out. RecordStopped began s past fault (K.held out) (K.faults out) };

    fn take<R: Threads + Sync>(
        &mut self,
        rt: &R,
        single: &mut SingleThread,
        out: &mut K,
    ) -> Result<(), PutFault> {
        write_news(rt, &mut self.recorder, single, out)
    }

    fn refused(error: AllocError) -> PutFault {
        PutFault::Memory(error)
    }

    fn is_full(&self) -> bool {
        false
    }
}

// The compositor of a script with the given number of workers, before anything was entered, which keeps these
// entries, a recorder that holds the name of the format, and the text of the script.
fn prepare(
    alloc: Global,
    script: &Arc<Script>,
    workers: u32,
    retention: Retention,
) -> Result<(SingleThread, Recording, Vec<u8>), AllocError>
    requires { (1 ≤ workers) × (workers ≤ 16) }
    ensures fresh { IfOk result (λ p. IsFresh script.now.value p.0) }
    ensures name { IfOk result (λ p. p.1.recorder.lines.items ≡ codes "cc1\n") }
    ensures none { IfOk result (λ p. p.1.recorder.last.place ≡ None) }
    ensures text { IfOk result (λ p. p.2.items ≡ compact_text (parts_data script.now.value)) }
{
    let text = print_script(alloc, script)?;
    let recorder = Recorder::new(alloc, workers as usize)?;
    let single = SingleThread::new(alloc, Arc::try_clone(script)?, workers, retention)?;
    Ok((single, Recording { recorder }, text))
}

// Plays and writes the whole run of a script after the lines before the events, and puts what is left.
fn record_events<R: Threads + Sync, K: Sink>(
    rt: &R,
    recording: &mut Recording,
    single: &mut SingleThread,
    script: &Script,
    out: &mut K,
) -> Result<(), PutFault>
    requires fresh { IsFresh script.now single.old }
    requires none { recording.old.recorder.last.place ≡ None }
    requires half { (start : Option (List ℕ)) × Half start (K.held out.old) (header (compact_text (parts_data script.now))) recording.old.recorder.lines.items }
    ensures { RecordsRest K.Sink script.now (header (compact_text (parts_data script.now))) recording.old.recorder.lines.items out.old out.new single.new.run.entries result }
{
    script.is_accepted();
    if let Err(stop) = play_all(rt, single, script.inputs(), recording, out) {
        return Err(stop);
    }
    recording.recorder.finish(out)
}

// Plays and writes the whole run of a script after the lines before the events: batch by batch, painted beside the
// compositor, if there are several workers.
fn record_history<R: Threads + Sync, K: Sink>(
    rt: &R,
    recording: &mut Recording,
    single: &mut SingleThread,
    script: &Script,
    out: &mut K,
) -> Result<(), PutFault>
    requires fresh { IsFresh script.now single.old }
    requires none { recording.old.recorder.last.place ≡ None }
    requires half { (start : Option (List ℕ)) × Half start (K.held out.old) (header (compact_text (parts_data script.now))) recording.old.recorder.lines.items }
    ensures { RecordsRest K.Sink script.now (header (compact_text (parts_data script.now))) recording.old.recorder.lines.items out.old out.new single.new.run.entries result }
{
    let parts = recording.recorder.parts();
    if parts < 2 {
        return record_events(rt, recording, single, script, out);
    }
    let lines = recording.recorder.take_lines();
    record_batches(
        rt,
        recording.recorder.alloc(),
        parts,
        lines,
        single,
        script,
        out,
    )
}

// Writes the whole recording of a script with this text.
fn record_whole<R: Threads + Sync, K: Sink>(
    rt: &R,
    recording: &mut Recording,
    single: &mut SingleThread,
    script: &Script,
    text: Vec<u8>,
    out: &mut K,
) -> Result<(), PutFault>
    requires fresh { IsFresh script.now single.old }
    requires name { recording.old.recorder.lines.items ≡ codes "cc1\n" }
    requires none { recording.old.recorder.last.place ≡ None }
    requires text { text.items ≡ compact_text (parts_data script.now) }
    ensures { RecordsRun K.Sink script.now out.old out.new (λ whole. single.new.run.entries) result }
{
    script.is_accepted();
    let begun = recording.recorder.begin(out, text.as_slice());
    drop(text);
    match begun {
        Ok(()) => record_history(rt, recording, single, script, out),
        Err(stop) => Err(stop),
    }
}

// The run, if all of it was written.
fn end_with(single: SingleThread, written: Result<(), PutFault>) -> Result<Recorded, PutFault>
    ensures { result ≡ recorded_run single.run.entries written }
{
    match written {
        Ok(()) => Ok(Recorded { single }),
        Err(stop) => Err(stop),
    }
}

// Records the run of a script with a compositor and a recorder that are at its beginning.
fn record_with<R: Threads + Sync, K: Sink>(
    rt: &R,
    prepared: (SingleThread, Recording, Vec<u8>),
    script: &Script,
    out: &mut K,
) -> Result<Recorded, PutFault>
    requires fresh { IsFresh script.now prepared.0 }
    requires name { prepared.1.recorder.lines.items ≡ codes "cc1\n" }
    requires none { prepared.1.recorder.last.place ≡ None }
    requires text { prepared.2.items ≡ compact_text (parts_data script.now) }
    ensures { RecordsRun K.Sink script.now out.old out.new (λ run. run) result }
{
    let (mut single, mut recording, text) = prepared;
    let written = record_whole(rt, &mut recording, &mut single, script, text, out);
    end_with(single, written)
}

/// Plays an accepted script in lockstep with the given number of workers, and writes its recording as it is
/// made: the two header lines, the line of each event, and the image of what it shows after that of a draw.
/// If it stops early, the sink gained a prefix of it. Tiles that come next are made ahead and images are
/// drawn in as many threads as there are workers, beside the compositor; the recording is the same for every number
/// of them. The run that is handed out keeps these entries.
pub fn record_lockstep<R: Threads + Sync, K: Sink>(
    rt: &R,
    alloc: Global,
    script: Arc<Script>,
    workers: u32,
    retention: Retention,
    out: &mut K,
) -> Result<Recorded, PutFault>
    requires { (1 ≤ workers) × (workers ≤ 16) }
    ensures bytes { Records script.value (K.held out.old) (K.held out.new) result }
    ensures history { IfOk result (IsLockstep script.value) }
    ensures grows { K.faults out.old ≤ K.faults out.new }
    ensures cause { WriteCause (K.faults out.old) (K.faults out.new) result }
{
    script.is_accepted();
    match prepare(alloc, &script, workers, retention) {
        Ok(prepared) => record_with(rt, prepared, &script, out),
        Err(refused) => Err(PutFault::Memory(refused)),
    }
}
