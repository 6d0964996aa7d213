//! What the events do to the scrollers, and the moves that they list.

ghost use Rattle.std.specs.Prelude.{◌≡◌, ◌∷◌, ℕ, suc, true, List, Some, IfOk, option_copied};
ghost use Rattle.model_states.specs.declared.kind.Kind.TheVariants as kind;
ghost use Rattle.page_layers.specs.declared.moves.Move.{Move as MoveModel};
ghost use Rattle.model_history.specs.declared.history.Entry.{Entry as EntryModel};
ghost use Rattle.model_history.specs.Scripts.{ScriptModel};
ghost use Rattle.model_history.specs.EventFields as fields;
ghost use Rattle.model_history.specs.Frames as frames;
ghost use Rattle.model_history.specs.Frames.{pulls_of, pending_page};
ghost use Rattle.model_history.specs.Scrolls.{clobbers, next_pulls, next_clamps};
ghost use Rattle.model_history.specs.Accepted.{IsPlayable};
ghost use Rattle.model_history.specs.Legal.{Legal, is_open};
ghost use Rattle.model_steps.specs.Events.{send, abort, commit, activate};
ghost use Rattle.impl_scroll.specs.Rows.{has_number};
ghost use Rattle.impl_scroll.specs.Standings.{StandsForPast, ArePages, page_at, uses_scroll};
ghost use Rattle.impl_scroll.specs.Occasions.{StandsNow, ScrollSends, MovesNow, AbortsNow, CommitsNow, ScrollActivates};

use crate::pages::Pages;
use crate::standing::{Standing, standing_in};
use model_history::Moves;
use page_layers::{LayerTree, Move};
use std::alloc::{AllocError, Global};

impl Standing {
    /// What a `Send` lists, if one may come next: the moves that the main side has not heard of. An error
    /// means out of memory.
    pub fn unheard(&self, alloc: Global) -> Result<Moves, AllocError>
        requires { StandsNow self.now }
        ensures { IfOk result (λ pulls. (s : ScriptModel) (workers : ℕ) (h : List EntryModel) → Legal s workers h → StandsForPast s h self.now → is_open h kind.Send ≡ true → pulls ≡ next_pulls s h) }
    {
        self.rows.unheard(alloc)
    }

    /// Steps the scrollers by the `Send` of a main frame: the main side is told of all moves. Takes no
    /// memory.
    pub fn sent(&mut self)
        requires { ScrollSends self.old }
        ensures { (s : ScriptModel) (workers : ℕ) (h : List EntryModel) (actor k : ℕ) (pulls : List MoveModel) → Legal s workers (send actor k pulls ∷ h) → StandsForPast s h self.old → StandsForPast s (send actor k pulls ∷ h) self.new }
    {
        self.rows.pull();
    }

    /// Where the scrollers stand after a scroll or a wheel with these moves. An error means out of memory.
    pub fn moved(
        &self,
        alloc: Global,
        pages: Pages<'_>,
        moves: &[Move],
    ) -> Result<Standing, AllocError>
        requires { MovesNow self.now pages moves.now }
        ensures { IfOk result (λ moved. (s : ScriptModel) (workers : ℕ) (h : List EntryModel) (e : EntryModel) → Legal s workers (e ∷ h) → uses_scroll e.event ≡ true → fields.moves s e.event ≡ moves.now → StandsForPast s h self.now → ArePages s h pages.entry → StandsForPast s (e ∷ h) moved) }
    {
        let mut rows = self.rows.copy()?;
        rows.add(alloc, moves)?;
        standing_in(alloc, rows, pages)
    }

    /// Where the scrollers stand after the abort of the main frame that was sent last. An error means out of
    /// memory.
    pub fn aborted(&self, alloc: Global, pages: Pages<'_>) -> Result<Standing, AllocError>
        requires { AbortsNow self.now pages }
        ensures { IfOk result (λ aborted. (s : ScriptModel) (workers : ℕ) (h : List EntryModel) (actor k : ℕ) → Legal s workers (abort actor k ∷ h) → StandsForPast s h self.now → ArePages s h pages.entry → StandsForPast s (abort actor k ∷ h) aborted) }
    {
        let mut rows = self.rows.copy()?;
        rows.abort();
        standing_in(alloc, rows, pages)
    }

    /// Where the scrollers stand after the commit of a page, whose main frame sets these scrollers
    /// outright. An error means out of memory.
    pub fn pushed<'a>(
        &self,
        alloc: Global,
        active: Option<&'a LayerTree>,
        page: &'a LayerTree,
        outright: &'a [u32],
    ) -> Result<Standing, AllocError>
        requires { CommitsNow self.now (option_copied active) page.now outright.now }
        ensures { IfOk result (λ pushed. (s : ScriptModel) (workers : ℕ) (h : List EntryModel) (actor k : ℕ) → Legal s workers (commit actor k ∷ h) → StandsForPast s h self.now → option_copied active.entry ≡ page_at s h (frames.active h) → page.now ≡ frames.page s (pulls_of h) (suc k) → ((sc : ℕ) → has_number outright.now sc ≡ clobbers s (Some k) sc) → StandsForPast s (commit actor k ∷ h) pushed) }
    {
        let mut rows = self.rows.copy()?;
        rows.push(alloc, page)?;
        let pages = Pages {
            active,
            pending: Some(page),
            outright,
        };
        standing_in(alloc, rows, pages)
    }

    /// What an activation of the pending page lists, whose commit sets these scrollers outright: the moves
    /// that bring its scrollers where they stand in it. An error means out of memory.
    pub fn clamps(
        &self,
        alloc: Global,
        page: &LayerTree,
        outright: &[u32],
    ) -> Result<Moves, AllocError>
        requires { StandsNow self.now }
        ensures { IfOk result (λ clamps. (s : ScriptModel) (workers : ℕ) (h : List EntryModel) → IsPlayable s → Legal s workers h → StandsForPast s h self.now → page.now ≡ pending_page s h → ((sc : ℕ) → has_number outright.now sc ≡ clobbers s (frames.pending h) sc) → clamps ≡ next_clamps s h) }
    {
        self.rows.clamps(alloc, page, outright)
    }

    /// Where the scrollers stand after the activation of the pending page with these moves: at the offsets
    /// that they had in it. An error means out of memory.
    pub fn activated(
        &self,
        alloc: Global,
        page: &LayerTree,
        clamps: &[Move],
    ) -> Result<Standing, AllocError>
        requires { ScrollActivates self.now page.now clamps.now }
        ensures { IfOk result (λ activated. (s : ScriptModel) (workers : ℕ) (h : List EntryModel) (actor k : ℕ) → Legal s workers (activate actor k clamps.now ∷ h) → StandsForPast s h self.now → page.now ≡ pending_page s h → StandsForPast s (activate actor k clamps.now ∷ h) activated) }
    {
        let mut rows = self.rows.copy()?;
        rows.activate();
        rows.add(alloc, clamps)?;
        let pages = Pages {
            active: Some(page),
            pending: None,
            outright: &[],
        };
        standing_in(alloc, rows, pages)
    }
}
