//! Entries that wait to be painted and put.

ghost use Rattle.std.specs.Prelude.{◌≡◌, ◌≤◌, ◌++◌, List, [], drop, length, reverse, take, OnOk};
ghost use Rattle.std.specs.Vec.Iter.{into_iter_items, into_iter_len};
ghost use Rattle.model_history.specs.Recordings.{piece, pieces};
ghost use Rattle.model_history.specs.Scripts.{ScriptModel};
ghost use Rattle.model_history.specs.declared.history.Entry.{Entry};
ghost use Rattle.impl_log.specs.Kept.{forgettable};
ghost use Rattle.impl_log.specs.Runs.{past};
ghost use Rattle.thread_pieces.specs.Scenes.{image_if};
ghost use Rattle.thread_pieces.specs.Shots.{all_shown};
ghost use Rattle.byte_io.specs.Pieces.{PutsAll, WriteCause};
ghost use Rattle.recording_writer.specs.Batches.{held_of};
ghost use Rattle.recording_writer.specs.Scenes.{AllCome, Comes, left_behind};

use crate::draws::next_scene;
use crate::image_painter::ImagePainter;
use byte_io::{PutFault, Sink};
use impl_core::Core;
use model_history::Entry;
use recording_text::push_event;
use std::alloc::{AllocError, Global};
use std::marker::Sync;
use std::mem;
use std::thread::Threads;
use std::vec::IntoIter;
use thread_pieces::{DEALT_PIECES, GATHERED_LINES, HELD_BYTES, Painters, Shot};
use viz_scene::Scene;

/// Pieces that wait to be painted, and the lines after them.
pub struct Batch {
    alloc: Global,
    shots: Vec<Shot>,
    lines: Vec<u8>,
    /// How many bytes the pieces are counted with.
    bytes: u64,
    /// How many the last of them has.
    last: u64,
}

// Written out, since a derived drop is proved anew, field by field, in each function that lets one go.
impl Drop for Batch {
    fn drop(self) {
        let Batch {
            alloc: _,
            shots: _,
            lines: _,
            bytes: _,
            last: _,
        } = self;
    }
}

impl Batch {
    /// No pieces, and these lines.
    pub fn new(alloc: Global, lines: Vec<u8>) -> Batch
        ensures { held_of result ≡ lines.items }
    {
        Batch {
            alloc,
            shots: Vec::new(alloc),
            lines,
            bytes: 0,
            last: 0,
        }
    }

    // How many pieces the given number of painters take at a time, each as many as the others, and at least one.
    fn share(&self, painters: u64) -> u64 {
        let size = painters.saturating_mul(self.last).max(1);
        let run = (HELD_BYTES / size).min(DEALT_PIECES as u64).max(1);
        painters.saturating_mul(run)
    }

    /// Whether it has as much as the given number of painters take at a time, or a piece more as large as the last one
    /// would be too much.
    pub fn is_full(&self, painters: usize) -> bool {
        self.bytes.saturating_add(self.last) > HELD_BYTES
            || self.shots.len() as u64 >= self.share(painters as u64)
    }

    /// Takes the pieces; the lines after them stay.
    pub fn take_shots(&mut self) -> Vec<Shot>
        ensures all { all_shown result.items ++ held_of self.new ≡ held_of self.old }
        ensures lines { held_of self.new ≡ self.new.lines.items }
        ensures stay { self.new.lines.items ≡ self.old.lines.items }
    {
        self.bytes = 0;
        self.last = 0;
        let none = Vec::new(self.alloc);
        mem::replace(&mut self.shots, none)
    }

    // Makes a piece of the lines, with a scene after them if there is one.
    #[tactic(auto, using(thread_pieces::proofs::Parts::one_more))]
    fn push_shot(&mut self, scene: Option<Scene>) -> Result<(), AllocError>
        ensures { OnOk result (held_of self.new ≡ held_of self.old ++ image_if scene) }
    {
        let none = Vec::new(self.alloc);
        let lines = mem::replace(&mut self.lines, none);
        let shot = Shot::new(lines, scene);
        self.last = shot.bytes();
        self.bytes = self.bytes.saturating_add(self.last);
        self.shots.push(shot)?;
        Ok(())
    }

    // If the lines are many, makes a piece of them.
    fn cut_lines(&mut self) -> Result<(), AllocError>
        ensures { OnOk result (held_of self.new ≡ held_of self.old) }
    {
        if self.lines.len() < GATHERED_LINES {
            return Ok(());
        }
        self.push_shot(None)
    }

    // Adds the image of a scene, if there is one.
    fn push_scene(&mut self, scene: Option<Scene>) -> Result<(), AllocError>
        ensures { OnOk result (held_of self.new ≡ held_of self.old ++ image_if scene) }
    {
        match scene {
            Some(scene) => self.push_shot(Some(scene)),
            None => self.cut_lines(),
        }
    }

    // Adds the line of an entry, and after that of a draw its image. The next scene is that of the next draw.
    fn push_entry(
        &mut self,
        entry: &Entry,
        scenes: &mut IntoIter<Scene, Global>,
    ) -> Result<(), AllocError>
        requires count { into_iter_len scenes.old ≡ length (into_iter_items scenes.old) }
        ensures bytes { OnOk result ((s : ScriptModel) (h : List Entry) → Comes s h entry.now (into_iter_items scenes.old) → held_of self.new ≡ held_of self.old ++ piece s h entry.now.event) }
        ensures left { into_iter_items scenes.new ≡ left_behind entry.now.event (into_iter_items scenes.old) }
        ensures count { into_iter_len scenes.new ≡ length (into_iter_items scenes.new) }
    {
        let scene = next_scene(&entry.event, scenes);
        push_event(&mut self.lines, &entry.event)?;
        self.push_scene(scene)
    }

    /// Adds the entries of a run from a place on, of which none is forgotten. The scenes are those of the draws among
    /// them, the oldest first. An error means out of memory.
    pub fn push_entries(
        &mut self,
        core: &Core,
        from: usize,
        scenes: Vec<Scene>,
    ) -> Result<(), AllocError>
        requires kept { forgettable (past core.now) ≤ from }
        requires come { AllCome core.now.script (reverse (take from core.now.entries)) (drop from core.now.entries) scenes.items }
        ensures { OnOk result (held_of self.new ≡ held_of self.old ++ pieces core.now.script (reverse (take from core.now.entries)) (drop from core.now.entries)) }
    {
        let history = core.history();
        let mut queue = scenes.into_iter();
        for at in from..history.len() {
            let entry = history.entry(at);
            self.push_entry(entry, &mut queue)?;
        }
        Ok(())
    }

    /// Paints and puts all that waits: the pieces, and the lines after them. If putting stops, the sink gained a prefix
    /// of that. The pieces are gone then, whatever comes of it; the lines stay.
    #[tactic(auto, using(byte_io::proofs::Puts::piece_cause, thread_pieces::proofs::Gains::blames_from))]
    pub fn put<R: Threads + Sync, K: Sink>(
        &mut self,
        rt: &R,
        painters: &mut Painters<ImagePainter>,
        out: &mut K,
    ) -> Result<(), PutFault>
        ensures bytes { PutsAll (K.held out.old) (K.held out.new) (held_of self.old) result }
        ensures left { held_of self.new ≡ self.old.lines.items }
        ensures grows { K.faults out.old ≤ K.faults out.new }
        ensures cause { WriteCause (K.faults out.old) (K.faults out.new) result }
    {
        let shots = self.take_shots();
        if let Err(fault) = painters.put(rt, shots, out) {
            return Err(fault);
        }
        out.put(self.lines.as_slice())
    }
}

/// Paints pieces and puts them, in order. The list has none then, whatever comes of it. If putting stops, the sink
/// gained a prefix of their bytes.
pub fn put_shots<R: Threads + Sync, K: Sink>(
    rt: &R,
    alloc: Global,
    painters: &mut Painters<ImagePainter>,
    shots: &mut Vec<Shot>,
    out: &mut K,
) -> Result<(), PutFault>
    ensures bytes { PutsAll (K.held out.old) (K.held out.new) (all_shown shots.old.items) result }
    ensures none { shots.new.items ≡ [] }
    ensures grows { K.faults out.old ≤ K.faults out.new }
    ensures cause { WriteCause (K.faults out.old) (K.faults out.new) result }
{
    let none = Vec::new(alloc);
    painters.put(rt, mem::replace(shots, none), out)
}
