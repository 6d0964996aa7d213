//! The picture of the last draw, and which draws show it again.

ghost use Rattle.std.specs.Prelude.{◌≡◌, List, ◌∷◌, Some, None, slice_get, IsTrue, IfOk, OnOk};
ghost use Rattle.model_history.specs.Recordings.{image_behind};
ghost use Rattle.model_history.specs.Scripts.{ScriptModel};
ghost use Rattle.model_history.specs.declared.history.Entry.{Entry};
ghost use Rattle.thread_pieces.specs.Scenes.{scene_image};
ghost use Rattle.recording_writer.specs.Images.{image_of};
ghost use Rattle.recording_writer.specs.Repeats.{HaveSameMissing, Keeps, Shows, StaysShown, is_quiet as is_quiet_of};

use impl_log::KeptHistory;
use model_history::{Entry, Event};
use std::alloc::{AllocError, Global};
use std::marker::Sync;
use std::thread::Threads;
use viz_canvas::Rgb;
use viz_painter::Painter;
use viz_scene::Scene;

/// The picture of the last draw, and where that draw stands in the history.
pub struct LastDraw {
    /// Its canvas has the picture of that draw.
    pub(crate) painter: Painter<Rgb>,
    /// The place of that draw; None before the first one, and if something has moved since.
    place: Option<usize>,
}

// Written out, since a derived drop is proved anew, field by field, in each function that lets one go.
impl Drop for LastDraw {
    fn drop(self) {
        let LastDraw {
            painter: _,
            place: _,
        } = self;
    }
}

// Whether what the screen shows stays the same after an event.
fn is_quiet(event: &Event) -> bool
    ensures { result ≡ is_quiet_of event.now }
{
    match event {
        Event::Activate { .. } | Event::Scroll { .. } | Event::Wheel { .. } => false,
        _ => true,
    }
}

// Whether two events are draws that list the same missing tiles.
fn have_same_missing(drawn: &Event, event: &Event) -> bool
    ensures { IsTrue result → HaveSameMissing drawn.now event.now }
{
    match (drawn, event) {
        (Event::Draw { missing, .. }, Event::Draw { missing: other, .. }) => {
            missing.as_slice() == other.as_slice()
        }
        _ => false,
    }
}

impl LastDraw {
    /// Nothing was drawn yet. An error means out of memory.
    pub(crate) fn new(alloc: Global) -> Result<LastDraw, AllocError>
        ensures { IfOk result (λ last. last.place ≡ None) }
    {
        Ok(LastDraw {
            painter: Painter::new(alloc, 1, 1)?,
            place: None,
        })
    }

    // Whether a draw shows the picture that is there. If the last draw was forgotten, nobody knows.
    fn is_again(&self, history: &KeptHistory, event: &Event) -> bool
        ensures { IsTrue result → (s : ScriptModel) (h : List Entry) → Keeps s h history.now.entries self.now → image_of self.now.painter.canvas ≡ image_behind s h event.now }
    {
        let Some(place) = self.place else {
            return false;
        };
        match history.get(place) {
            Some(drawn) => have_same_missing(&drawn.event, event),
            None => false,
        }
    }

    /// Makes the picture of the draw at a place of the history, whose scene this is, in at most the given
    /// number of parts. If the draw shows what the last one showed, that picture stays, and nobody looks
    /// at the scene. An error means out of memory.
    pub(crate) fn show<R: Threads + Sync>(
        &mut self,
        rt: &R,
        history: &KeptHistory,
        at: usize,
        entry: &Entry,
        scene: Scene,
        parts: usize,
    ) -> Result<(), AllocError>
        requires { slice_get history.now.entries at ≡ Some entry.now }
        ensures { OnOk result ((s : ScriptModel) (h : List Entry) → Keeps s h history.now.entries self.old → scene_image scene ≡ image_behind s h entry.now.event → Shows s h history.now.entries entry.now.event self.new) }
    {
        if self.is_again(history, &entry.event) {
            return Ok(());
        }
        self.place = None;
        self.painter.paint_in_parts(rt, scene, parts)?;
        self.place = Some(at);
        Ok(())
    }

    /// Something was entered: if it moves what the screen shows, no draw shows the picture again.
    pub(crate) fn follow(&mut self, event: &Event)
        ensures { (s : ScriptModel) (h entries : List Entry) (e : Entry) → e.event ≡ event.now → StaysShown s h e → Keeps s h entries self.old → Keeps s (e ∷ h) entries self.new }
    {
        if !is_quiet(event) {
            self.place = None;
        }
    }
}
