//! Entries of a history, written with the pictures of their draws.

ghost use Rattle.std.specs.Prelude.{◌≡◌, ◌≤◌, ◌++◌, List, [], None, codes, drop, length, reverse, slice_get, take, IfOk, OnOk};
ghost use Rattle.std.specs.Vec.Iter.{into_iter_items, into_iter_len};
ghost use Rattle.model_history.specs.Recordings.{header, image_behind, piece, pieces};
ghost use Rattle.model_history.specs.Scripts.{ScriptModel};
ghost use Rattle.model_history.specs.declared.history.Entry.{Entry};
ghost use Rattle.impl_log.specs.Kept.{forgettable};
ghost use Rattle.impl_log.specs.Runs.{past};
ghost use Rattle.byte_io.specs.Pieces.{PutsAll, WriteCause};
ghost use Rattle.recording_writer.specs.Parts.{WritesPart};
ghost use Rattle.recording_writer.specs.Repeats.{Keeps};
ghost use Rattle.thread_pieces.specs.Scenes.{scene_image, image_if};
ghost use Rattle.recording_writer.specs.Scenes.{AllCome, Comes, left_behind};
ghost use Rattle.recording_writer.specs.Steps.{DrawsOn, WritesOn};

use crate::draws::next_scene;
use crate::last_draw::LastDraw;
use crate::writing::{flush, flush_many, put_behind};
use byte_io::{PutFault, Sink};
use impl_core::Core;
use impl_log::KeptHistory;
use model_history::Entry;
use recording_text::{push_event, push_image_head};
use std::alloc::{AllocError, Global};
use std::marker::Sync;
use std::mem;
use std::thread::Threads;
use std::vec::IntoIter;
use viz_scene::Scene;

/// What writes entries one after another: the lines that it holds back, and the picture of the last draw.
pub struct Recorder {
    alloc: Global,
    /// The lines that were not put yet.
    lines: Vec<u8>,
    /// The last draw, with its picture.
    last: LastDraw,
    /// In how many parts a picture is made at most.
    parts: usize,
}

// Written out, since a derived drop is proved anew, field by field, in each function that lets one go.
impl Drop for Recorder {
    fn drop(self) {
        let Recorder {
            alloc: _,
            lines: _,
            last: _,
            parts: _,
        } = self;
    }
}

impl Recorder {
    /// A recorder that holds the name of the format, and makes each picture in at most the given number of
    /// parts. An error means out of memory.
    pub fn new(alloc: Global, parts: usize) -> Result<Recorder, AllocError>
        ensures name { IfOk result (λ recorder. recorder.lines.items ≡ codes "cc1\n") }
        ensures none { IfOk result (λ recorder. recorder.last.place ≡ None) }
    {
        Ok(Recorder {
            alloc,
            lines: Vec::from_slice(alloc, b"cc1\n")?,
            last: LastDraw::new(alloc)?,
            parts,
        })
    }

    /// What its memory comes from.
    pub fn alloc(&self) -> Global {
        self.alloc
    }

    /// In how many parts a picture is made at most.
    pub fn parts(&self) -> usize {
        self.parts
    }

    /// Takes the lines that were not put yet, and holds none then.
    pub fn take_lines(&mut self) -> Vec<u8>
        ensures lines { result.items ≡ self.old.lines.items }
        ensures none { self.new.lines.items ≡ [] }
        ensures last { self.new.last ≡ self.old.last }
    {
        let none = Vec::new(self.alloc);
        mem::replace(&mut self.lines, none)
    }

    /// Writes the two lines before the events, the second of which is this text of a script. The text may be long,
    /// so it is put as it is. If writing stops, the sink gained a prefix of the lines.
    pub fn begin<K: Sink>(&mut self, out: &mut K, script: &[u8]) -> Result<(), PutFault>
        requires { self.old.lines.items ≡ codes "cc1\n" }
        ensures bytes { WritesPart (K.held out.old) (K.held out.new) (header script.now) self.new.lines.items result }
        ensures last { self.new.last ≡ self.old.last }
        ensures grows { K.faults out.old ≤ K.faults out.new }
        ensures cause { WriteCause (K.faults out.old) (K.faults out.new) result }
    {
        if let Err(stop) = put_behind(out, &mut self.lines, script) {
            return Err(stop);
        }
        match self.lines.push(b'\n') {
            Ok(()) => Ok(()),
            Err(_) => Err(PutFault::Memory(AllocError)),
        }
    }

    // Makes the picture of a draw, and adds the head of its image to the lines.
    fn draw<R: Threads + Sync>(
        &mut self,
        rt: &R,
        history: &KeptHistory,
        at: usize,
        entry: &Entry,
        scene: Scene,
    ) -> Result<(), AllocError>
        requires { slice_get history.now.entries at ≡ Some entry.now }
        ensures { OnOk result ((s : ScriptModel) (h : List Entry) → Keeps s h history.now.entries self.old.last → scene_image scene ≡ image_behind s h entry.now.event → DrawsOn s h history.now.entries (self.old.lines.items ++ image_behind s h entry.now.event) self.new) }
    {
        self.last.show(rt, history, at, entry, scene, self.parts)?;
        let canvas = self.last.painter.canvas();
        let (w, h) = (canvas.w(), canvas.h());
        push_image_head(&mut self.lines, w, h)
    }

    // Writes the image of a draw.
    fn write_image<R: Threads + Sync, K: Sink>(
        &mut self,
        rt: &R,
        out: &mut K,
        history: &KeptHistory,
        at: usize,
        entry: &Entry,
        scene: Scene,
    ) -> Result<(), PutFault>
        requires { slice_get history.now.entries at ≡ Some entry.now }
        ensures written { (s : ScriptModel) (h : List Entry) → Keeps s h history.now.entries self.old.last → scene_image scene ≡ image_behind s h entry.now.event → WritesOn s h history.now.entries (K.held out.old) (K.held out.new) (self.old.lines.items ++ image_behind s h entry.now.event) self.new result }
        ensures grows { K.faults out.old ≤ K.faults out.new }
        ensures cause { WriteCause (K.faults out.old) (K.faults out.new) result }
    {
        match self.draw(rt, history, at, entry, scene) {
            Ok(()) => put_behind(out, &mut self.lines, self.last.painter.canvas().bytes()),
            Err(refused) => Err(PutFault::Memory(refused)),
        }
    }

    // Writes the image of an entry, if it has a scene.
    fn write_shown<R: Threads + Sync, K: Sink>(
        &mut self,
        rt: &R,
        out: &mut K,
        history: &KeptHistory,
        at: usize,
        entry: &Entry,
        scene: Option<Scene>,
    ) -> Result<(), PutFault>
        requires { slice_get history.now.entries at ≡ Some entry.now }
        ensures written { (s : ScriptModel) (h : List Entry) → Keeps s h history.now.entries self.old.last → image_if scene ≡ image_behind s h entry.now.event → WritesOn s h history.now.entries (K.held out.old) (K.held out.new) (self.old.lines.items ++ image_behind s h entry.now.event) self.new result }
        ensures grows { K.faults out.old ≤ K.faults out.new }
        ensures cause { WriteCause (K.faults out.old) (K.faults out.new) result }
    {
        match scene {
            Some(scene) => self.write_image(rt, out, history, at, entry, scene),
            None => flush_many(out, &mut self.lines),
        }
    }

    // Writes the line of an entry, and after that of a draw its image. The next scene is that of the next draw.
    fn write_entry<R: Threads + Sync, K: Sink>(
        &mut self,
        rt: &R,
        out: &mut K,
        history: &KeptHistory,
        at: usize,
        entry: &Entry,
        scenes: &mut IntoIter<Scene, Global>,
    ) -> Result<(), PutFault>
        requires there { slice_get history.now.entries at ≡ Some entry.now }
        requires count { into_iter_len scenes.old ≡ length (into_iter_items scenes.old) }
        ensures written { (s : ScriptModel) (h : List Entry) → Keeps s h history.now.entries self.old.last → Comes s h entry.now (into_iter_items scenes.old) → WritesOn s h history.now.entries (K.held out.old) (K.held out.new) (self.old.lines.items ++ piece s h entry.now.event) self.new result }
        ensures left { OnOk result (into_iter_items scenes.new ≡ left_behind entry.now.event (into_iter_items scenes.old)) }
        ensures count { OnOk result (into_iter_len scenes.new ≡ length (into_iter_items scenes.new)) }
        ensures grows { K.faults out.old ≤ K.faults out.new }
        ensures cause { WriteCause (K.faults out.old) (K.faults out.new) result }
    {
        match push_event(&mut self.lines, &entry.event) {
            Ok(()) => {
                let scene = next_scene(&entry.event, scenes);
                self.write_shown(rt, out, history, at, entry, scene)
            }
            Err(refused) => Err(PutFault::Memory(refused)),
        }
    }

    /// Writes the entries of a run from a place on, of which none is forgotten. The scenes are those of the draws among
    /// them, the oldest first. Lines that are few are held back. If writing stops, the sink gained a prefix.
    pub fn write_entries<R: Threads + Sync, K: Sink>(
        &mut self,
        rt: &R,
        out: &mut K,
        core: &Core,
        from: usize,
        scenes: Vec<Scene>,
    ) -> Result<(), PutFault>
        requires kept { forgettable (past core.now) ≤ from }
        requires keeps { Keeps core.now.script (reverse (take from core.now.entries)) core.now.entries self.old.last }
        requires come { AllCome core.now.script (reverse (take from core.now.entries)) (drop from core.now.entries) scenes.items }
        ensures written { WritesOn core.now.script (past core.now) core.now.entries (K.held out.old) (K.held out.new) (self.old.lines.items ++ pieces core.now.script (reverse (take from core.now.entries)) (drop from core.now.entries)) self.new result }
        ensures grows { K.faults out.old ≤ K.faults out.new }
        ensures cause { WriteCause (K.faults out.old) (K.faults out.new) result }
    {
        let history = core.history();
        let mut queue = scenes.into_iter();
        for at in from..history.len() {
            let entry = history.entry(at);
            if let Err(stop) = self.write_entry(rt, out, history, at, entry, &mut queue) {
                return Err(stop);
            }
            self.last.follow(&entry.event);
        }
        Ok(())
    }

    /// Puts the lines that are left, and holds none then. If writing stops, the sink gained a prefix of them.
    pub fn finish<K: Sink>(&mut self, out: &mut K) -> Result<(), PutFault>
        ensures bytes { PutsAll (K.held out.old) (K.held out.new) self.old.lines.items result }
        ensures none { OnOk result (self.new.lines.items ≡ []) }
        ensures last { self.new.last ≡ self.old.last }
        ensures grows { K.faults out.old ≤ K.faults out.new }
        ensures cause { WriteCause (K.faults out.old) (K.faults out.new) result }
    {
        flush(out, &mut self.lines)
    }
}
