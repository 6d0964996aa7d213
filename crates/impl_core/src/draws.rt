//! The active tree is drawn.

ghost use Rattle.std.specs.Prelude.{◌≡◌, Some, None, is_some, true, IfOk, IfSome, IsNone, OnErr};
ghost use Rattle.model_states.specs.declared.kind.Kind.TheVariants as kind;
ghost use Rattle.model_history.specs.declared.event.Event.TheVariants as event;
ghost use Rattle.model_history.specs.Frames.{active};
ghost use Rattle.model_history.specs.Tiles.{missing_visible};
ghost use Rattle.impl_log.specs.Runs.{past, now};
ghost use Rattle.impl_core.specs.Replies.{Draws, DrawsScene, IsPicture};

use crate::core_state::Core;
use crate::drawn::Drawn;
use crate::{Drawing, draw};
use impl_choice::visible_of;
use model_history::Event;
use model_states::Kind;
use std::alloc::AllocError;
use viz_scene::Scene;

impl Core {
    /// The draw that may be made now, by its place among the inputs, if there is one.
    pub(crate) fn draw_now(&self) -> Option<u32>
        ensures draw { IfSome result (λ input. now self.now kind.Draw 0 ≡ Some (event.Draw input (missing_visible self.now.script (past self.now)))) }
        ensures active { IfSome result (λ _. is_some (active (past self.now)) ≡ true) }
        ensures none { IsNone result → now self.now kind.Draw 0 ≡ None }
    {
        let open = self.log.is_open(Kind::Draw);
        let active = self.log.progress().active.is_some();
        if open && active {
            self.log.progress().begun
        } else {
            None
        }
    }

    // What a draw shows now, made anew. There is an active tree.
    fn drawing(&self) -> Result<Drawing, AllocError>
        requires { is_some (active (past self.now)) ≡ true }
        ensures missing { IfOk result (λ drawing. drawing.missing ≡ missing_visible self.now.script (past self.now)) }
        ensures picture { IfOk result (λ drawing. IsPicture self.now.script (past self.now) drawing.scene) }
    {
        let Some(page) = self.host.pages().active else {
            unreachable!()
        };
        let seen = self.host.seen_active(self.alloc)?;
        let keys = visible_of(self.alloc, seen.as_ref())?;
        let background = self.log.plan().background();
        draw(
            self.alloc,
            &self.tiles,
            page,
            self.host.standing().active(),
            &keys,
            background,
        )
    }

    // The same, of which it is noted that it was made.
    fn drawing_once(&mut self) -> Result<Drawing, AllocError>
        requires { is_some (active (past self.old)) ≡ true }
        ensures missing { IfOk result (λ drawing. drawing.missing ≡ missing_visible self.old.script (past self.old)) }
        ensures picture { IfOk result (λ drawing. IsPicture self.old.script (past self.old) drawing.scene) }
        ensures same { self.new ≡ self.old }
    {
        let drawing = self.drawing()?;
        self.drawn = Drawn::Once;
        Ok(drawing)
    }

    // The same, of which a copy is kept.
    fn drawing_kept(&mut self) -> Result<Drawing, AllocError>
        requires { is_some (active (past self.old)) ≡ true }
        ensures missing { IfOk result (λ drawing. drawing.missing ≡ missing_visible self.old.script (past self.old)) }
        ensures picture { IfOk result (λ drawing. IsPicture self.old.script (past self.old) drawing.scene) }
        ensures same { self.new ≡ self.old }
    {
        let drawing = self.drawing()?;
        let kept = drawing.copy(self.alloc)?;
        self.drawn = Drawn::Kept(kept);
        Ok(drawing)
    }

    // What a draw shows now. It is made anew only if none is kept. There is an active tree.
    fn shown(&mut self) -> Result<Drawing, AllocError>
        requires { is_some (active (past self.old)) ≡ true }
        ensures missing { IfOk result (λ drawing. drawing.missing ≡ missing_visible self.old.script (past self.old)) }
        ensures picture { IfOk result (λ drawing. IsPicture self.old.script (past self.old) drawing.scene) }
        ensures same { self.new ≡ self.old }
    {
        match &self.drawn {
            Drawn::Kept(drawing) => drawing.copy(self.alloc),
            Drawn::Once => self.drawing_kept(),
            Drawn::Nothing => self.drawing_once(),
        }
    }

    // Enters a draw that shows this.
    fn enter_draw(&mut self, input: u32, drawing: Drawing) -> Result<Scene, AllocError>
        requires is_now { now self.old kind.Draw 0 ≡ Some (event.Draw input drawing.missing) }
        requires picture { IsPicture self.old.script (past self.old) drawing.scene }
        ensures draws { IfOk result (λ scene. DrawsScene self.old self.new scene) }
        ensures err { OnErr result (self.new ≡ self.old) }
    {
        let Drawing { scene, missing } = drawing;
        self.log.enter(0, Event::Draw { input, missing })?;
        Ok(scene)
    }

    /// Draws the active tree, if a draw may come now: the scene whose pixels are the painting at this
    /// point. None exactly if no draw may come. An error means out of memory, and nothing was entered.
    pub fn draw(&mut self) -> Result<Option<Scene>, AllocError>
        ensures draws { IfOk result (Draws self.old self.new) }
        ensures err { OnErr result (self.new ≡ self.old) }
    {
        match self.draw_now() {
            None => Ok(None),
            Some(input) => {
                let drawing = self.shown()?;
                let scene = self.enter_draw(input, drawing)?;
                Ok(Some(scene))
            }
        }
    }
}
