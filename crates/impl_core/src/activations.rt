//! The pending tree becomes the active one.

ghost use Rattle.std.specs.Prelude.{◌≡◌, ◌∷◌, true, Some, is_some, IfOk, IfSome, OnOk, OnErr};
ghost use Rattle.model_states.specs.declared.kind.Kind.TheVariants as kind;
ghost use Rattle.model_history.specs.Frames.{pending};
ghost use Rattle.model_history.specs.Scrolls.{next_clamps};
ghost use Rattle.model_history.specs.Tiles.{are_ready, required};
ghost use Rattle.model_steps.specs.Events.{activate};
ghost use Rattle.impl_scroll.specs.Standings.{StandsForPast};
ghost use Rattle.impl_choice.specs.Rebuilds.{AreForActivation};
ghost use Rattle.impl_log.specs.Runs.{past, now, Entered, Plays};

use crate::core_state::Core;
use crate::drawn::Drawn;
use geom::Keys;
use impl_choice::{Activation, activation_of, visible_of};
use impl_scroll::Standing;
use model_history::{Event, Moves};
use model_states::Kind;
use std::alloc::AllocError;

impl Core {
    // The visible keys of the pending tree. An error means out of memory.
    fn required_keys(&self) -> Result<Keys, AllocError>
        ensures { IfOk result (λ keys. keys ≡ required self.now.script (past self.now)) }
    {
        let seen = self.host.seen_pending(self.alloc)?;
        visible_of(self.alloc, seen.as_ref())
    }

    // Finds what the pending tree needs, and keeps it. The answer is whether all of it is ready; an error
    // means out of memory.
    fn find_required(&mut self) -> Result<bool, AllocError>
        ensures ready { IfOk result (λ ready. ready ≡ are_ready self.old.script (past self.old) (required self.old.script (past self.old))) }
        ensures same { self.new ≡ self.old }
    {
        let required = self.required_keys()?;
        let mut waits_at = 0;
        let ready = self.tiles.are_ready(&required, &mut waits_at);
        self.required.keys = Some(required);
        self.required.all_ready = ready;
        self.required.waits_at = waits_at;
        Ok(ready)
    }

    // Asks the tiles whether all that the pending tree needs is ready, and keeps the answer. An error means out of
    // memory.
    fn ask_required(&mut self) -> Result<bool, AllocError>
        ensures ready { IfOk result (λ ready. ready ≡ are_ready self.old.script (past self.old) (required self.old.script (past self.old))) }
        ensures same { self.new ≡ self.old }
    {
        match &self.required.keys {
            Some(required) => {
                let mut waits_at = self.required.waits_at;
                let ready = self.tiles.are_ready(required, &mut waits_at);
                self.required.all_ready = ready;
                self.required.waits_at = waits_at;
                Ok(ready)
            }
            None => self.find_required(),
        }
    }

    // Whether all that the pending tree needs is ready. An error means out of memory.
    fn are_required_ready(&mut self) -> Result<bool, AllocError>
        ensures ready { IfOk result (λ ready. ready ≡ are_ready self.old.script (past self.old) (required self.old.script (past self.old))) }
        ensures same { self.new ≡ self.old }
    {
        if self.required.all_ready {
            Ok(true)
        } else {
            self.ask_required()
        }
    }

    /// The main frame whose commit may be activated now, if there is one. An error means out of memory; the run
    /// stays in any case.
    pub(crate) fn activation_now(&mut self) -> Result<Option<u32>, AllocError>
        ensures waits { IfOk result (λ found. IfSome found (λ frame. pending (past self.old) ≡ Some frame)) }
        ensures may { IfOk result (λ found. is_some found ≡ is_some (now self.old kind.Activate 0)) }
        ensures same { self.new ≡ self.old }
    {
        let open = self.log.is_open(Kind::Activate);
        let pending = self.log.progress().pending;
        if open && pending.is_some() && self.are_required_ready()? {
            Ok(pending)
        } else {
            Ok(None)
        }
    }

    /// Whether the pending commit may be activated now. An error means out of memory; the run stays in any case.
    pub(crate) fn may_activate(&mut self) -> Result<bool, AllocError>
        ensures may { IfOk result (λ may. may ≡ is_some (now self.old kind.Activate 0)) }
        ensures same { self.new ≡ self.old }
    {
        let frame = self.activation_now()?;
        Ok(frame.is_some())
    }

    // What the activation of the pending tree, which needs these keys, brings to the tiles. An error means
    // out of memory.
    fn tiles_with(&self, frame: u32, needs: &Keys) -> Result<Activation, AllocError>
        requires waits { pending (past self.now) ≡ Some frame }
        requires keys { needs.now ≡ required self.now.script (past self.now) }
        ensures { IfOk result (λ next. AreForActivation self.now.script (past self.now) next.pins next.dead) }
    {
        // The contract alone speaks of the frame.
        let _ = frame;
        let Some(pending) = self.host.seen_pending(self.alloc)? else {
            unreachable!()
        };
        activation_of(self.alloc, &pending, needs, &self.tiles)
    }

    // What the activation of the pending tree brings to the tiles. An error means out of memory.
    fn activated_tiles(&self, frame: u32) -> Result<Activation, AllocError>
        requires { pending (past self.now) ≡ Some frame }
        ensures { IfOk result (λ next. AreForActivation self.now.script (past self.now) next.pins next.dead) }
    {
        match &self.required.keys {
            Some(needs) => self.tiles_with(frame, needs),
            None => {
                let needs = self.required_keys()?;
                self.tiles_with(frame, &needs)
            }
        }
    }

    // How the activation of the pending tree moves the scrollers, and where they stand then. An error means
    // out of memory.
    fn activated_scrollers(&self, frame: u32) -> Result<(Moves, Standing), AllocError>
        requires waits { pending (past self.now) ≡ Some frame }
        requires may { is_some (now self.now kind.Activate 0) ≡ true }
        ensures clamps { IfOk result (λ r. r.0 ≡ next_clamps self.now.script (past self.now)) }
        ensures stands { IfOk result (λ r. StandsForPast self.now.script (activate 0 frame (next_clamps self.now.script (past self.now)) ∷ past self.now) r.1) }
    {
        // The contract alone speaks of the frame.
        let _ = frame;
        self.log.is_legal();
        let pages = self.host.pages();
        let Some(page) = pages.pending else {
            unreachable!()
        };
        let clamps = self
            .host
            .standing()
            .clamps(self.alloc, page, pages.outright)?;
        let standing = self
            .host
            .standing()
            .activated(self.alloc, page, clamps.as_slice())?;
        Ok((clamps, standing))
    }

    // Activates the pending commit, all whose tiles are ready.
    fn enter_activation(&mut self, frame: u32) -> Result<(), AllocError>
        requires waits { pending (past self.old) ≡ Some frame }
        requires may { is_some (now self.old kind.Activate 0) ≡ true }
        ensures ok { OnOk result (Entered self.old kind.Activate 0 self.new) }
        ensures err { OnErr result (self.new ≡ self.old) }
    {
        self.log.is_legal();
        let (clamps, standing) = self.activated_scrollers(frame)?;
        let next = self.activated_tiles(frame)?;
        self.log.enter(0, Event::Activate { frame, clamps })?;
        let Activation { pins, dead } = next;
        self.host.activate(standing);
        self.tiles.activate(pins, &dead);
        self.required.forget();
        self.drawn = Drawn::Nothing;
        Ok(())
    }

    /// Activates the pending commit, if all its visible tiles are ready and the scheduler's state allows
    /// it, and answers whether it was activated. An error means out of memory, and nothing was entered.
    pub fn activate(&mut self) -> Result<bool, AllocError>
        ensures plays { IfOk result (λ played. Plays self.old kind.Activate 0 self.new played) }
        ensures err { OnErr result (self.new ≡ self.old) }
    {
        match self.activation_now()? {
            None => Ok(false),
            Some(frame) => {
                self.enter_activation(frame)?;
                Ok(true)
            }
        }
    }
}
