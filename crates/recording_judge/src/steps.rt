//! What an event does to the parts of a state, before it is entered.

ghost use Rattle.std.specs.Prelude.{◌≡◌, ◌∷◌, ℕ, List, true, false, slice_get, OnOk};
ghost use Rattle.model_history.specs.declared.event.Event.TheVariants as variant;
ghost use Rattle.model_history.specs.declared.history.Entry.{Entry};
ghost use Rattle.model_history.specs.Scripts.{ScriptModel};
ghost use Rattle.model_history.specs.Accepted.{IsPlayable};
ghost use Rattle.model_history.specs.EventFields as fields;
ghost use Rattle.model_history.specs.Legal.{Legal};
ghost use Rattle.model_steps.specs.Events.{activate};
ghost use Rattle.impl_scroll.specs.Standings.{uses_scroll};
ghost use Rattle.impl_host.specs.Hosts.{Hosts};
ghost use Rattle.recording_judge.specs.inner.Hosts.{HostActivates};
ghost use Rattle.recording_judge.specs.inner.Tiles.{Holds, HaveSameKeys};
ghost use Rattle.recording_judge.specs.inner.States.{MayStep, IsStepped, is_quiet, listed};

use crate::host_steps::{abort_host, activate_host, commit_to_host, move_host, sets_outright};
use crate::state::State;
use crate::tile_keys::TileKeys;
use geom::{Keys, Point, TileKey};
use impl_host::ImplHost;
use model_history::{Event, Input, Moves};
use page_layers::Move;
use std::alloc::{AllocError, Global};

// The move that a scroll makes, which uses this input.
fn scrolled(used: Option<Input>, dx: i32, dy: i32) -> Option<Move>
    ensures { (s : ScriptModel) (input : ℕ) → used ≡ slice_get s.inputs input → listed result ≡ fields.moves s (variant.Scroll input dx dy) }
{
    match used {
        Some(Input::Scroll { scroller, .. }) => Some(Move::by(scroller, Point { x: dx, y: dy })),
        _ => None,
    }
}

// Forgets the queue if the trees move.
fn forget_where(tiles: &mut TileKeys, moves: bool)
    ensures stays { moves ≡ false → tiles.new ≡ tiles.old }
    ensures forgets { moves ≡ true → (s : ScriptModel) (workers : ℕ) (h g : List Entry) → Holds s workers h tiles.old → HaveSameKeys s h g → Holds s workers g tiles.new }
{
    if moves {
        tiles.forget_queue();
    }
}

// Steps the tiles by an activation with these moves. An error means out of memory.
fn activate_tiles(
    alloc: Global,
    host: &ImplHost,
    tiles: &mut TileKeys,
    moves: &[Move],
) -> Result<(), AllocError>
    requires { HostActivates host.now moves.now }
    ensures { OnOk result ((s : ScriptModel) (workers : ℕ) (h : List Entry) (actor k : ℕ) → IsPlayable s → Legal s workers (activate actor k moves.now ∷ h) → Hosts s h host.now → Holds s workers h tiles.old → Holds s workers (activate actor k moves.now ∷ h) tiles.new) }
{
    // The contract alone speaks of the moves.
    let _ = moves;
    let seen = host.seen(alloc, host.standing())?;
    let Some(tree) = seen.pending.as_ref() else {
        unreachable!()
    };
    let needed = tree.visible(alloc)?;
    tiles.activate(&needed, tree)
}

impl State {
    // A main frame is sent.
    fn step_send(&mut self, actor: u32, frame: u32, pulls: &Moves) -> Result<(), AllocError>
        requires { MayStep self.old actor (variant.Send frame pulls.now) }
        ensures { OnOk result (IsStepped self.old actor (variant.Send frame pulls.now) self.new) }
    {
        // The contract alone speaks of them.
        let _ = (actor, frame);
        self.main.send(pulls)?;
        self.host.sent();
        Ok(())
    }

    // A main frame has ended and changed nothing.
    fn step_abort(&mut self, actor: u32, frame: u32) -> Result<(), AllocError>
        requires { MayStep self.old actor (variant.Abort frame) }
        ensures { OnOk result (IsStepped self.old actor (variant.Abort frame) self.new) }
    {
        // The contract alone speaks of them.
        let _ = (actor, frame);
        let moves = sets_outright(&self.host);
        abort_host(self.alloc, &mut self.host)?;
        forget_where(&mut self.tiles, moves);
        Ok(())
    }

    // A main frame is committed.
    fn step_commit(&mut self, actor: u32, frame: u32) -> Result<(), AllocError>
        requires { MayStep self.old actor (variant.Commit frame) }
        ensures { OnOk result (IsStepped self.old actor (variant.Commit frame) self.new) }
    {
        // The contract alone speaks of the actor.
        let _ = actor;
        let end = self.main.end.take();
        commit_to_host(self.alloc, &mut self.host, frame, end)?;
        self.tiles.forget_queue();
        Ok(())
    }

    // The pending commit is activated.
    fn step_activate(&mut self, actor: u32, frame: u32, moves: &Moves) -> Result<(), AllocError>
        requires { MayStep self.old actor (variant.Activate frame moves.now) }
        ensures { OnOk result (IsStepped self.old actor (variant.Activate frame moves.now) self.new) }
    {
        // The contract alone speaks of them.
        let _ = (actor, frame);
        activate_tiles(self.alloc, &self.host, &mut self.tiles, moves.as_slice())?;
        activate_host(self.alloc, &mut self.host, moves.as_slice())
    }

    // Scrollers are moved by a scroll or a wheel.
    fn step_moves(&mut self, actor: u32, event: &Event, moves: &[Move]) -> Result<(), AllocError>
        requires may { MayStep self.old actor event.now }
        requires scroll { uses_scroll event.now ≡ true }
        requires moves { fields.moves self.old.log.script event.now ≡ moves.now }
        ensures { OnOk result (IsStepped self.old actor event.now self.new) }
    {
        // The contract alone speaks of them.
        let _ = actor;
        let _ = event;
        move_host(self.alloc, &mut self.host, moves)?;
        self.tiles.forget_queue();
        Ok(())
    }

    // The move of a scroll that may come now.
    fn scroll_move(&self, actor: u32, input: u32, dx: i32, dy: i32) -> Option<Move>
        requires { MayStep self.now actor (variant.Scroll input dx dy) }
        ensures { listed result ≡ fields.moves self.now.log.script (variant.Scroll input dx dy) }
    {
        // The contract alone speaks of them.
        let _ = (actor, input);
        scrolled(self.log.input_now(), dx, dy)
    }

    // A scroll is accepted.
    fn step_scroll(
        &mut self,
        actor: u32,
        event: &Event,
        input: u32,
        dx: i32,
        dy: i32,
    ) -> Result<(), AllocError>
        requires may { MayStep self.old actor event.now }
        requires is { event.now ≡ variant.Scroll input dx dy }
        ensures { OnOk result (IsStepped self.old actor event.now self.new) }
    {
        match self.scroll_move(actor, input, dx, dy) {
            Some(one) => self.step_moves(actor, event, &[one]),
            None => self.step_moves(actor, event, &[]),
        }
    }

    // A worker starts a tile.
    fn step_start(
        &mut self,
        actor: u32,
        worker: u32,
        key: TileKey,
        evicted: &Keys,
    ) -> Result<(), AllocError>
        requires { MayStep self.old actor (variant.Start worker key evicted.now) }
        ensures { OnOk result (IsStepped self.old actor (variant.Start worker key evicted.now) self.new) }
    {
        // The contract alone speaks of the actor.
        let _ = actor;
        self.tiles.start(worker, key, evicted);
        Ok(())
    }

    // A worker is done with a tile.
    fn step_done(&mut self, actor: u32, worker: u32, key: TileKey) -> Result<(), AllocError>
        requires { MayStep self.old actor (variant.DoneTile worker key) }
        ensures { OnOk result (IsStepped self.old actor (variant.DoneTile worker key) self.new) }
    {
        // The contract alone speaks of the actor.
        let _ = actor;
        let pinned = self.tiles.pinned(key);
        let tile = self.host.tile(self.log.plan(), key, pinned);
        self.tiles.done(worker, key, tile)
    }

    // Nothing but the history changes.
    fn step_quiet(&mut self, actor: u32, event: &Event) -> Result<(), AllocError>
        requires may { MayStep self.old actor event.now }
        requires quiet { is_quiet event.now ≡ true }
        ensures { OnOk result (IsStepped self.old actor event.now self.new) }
    {
        // The contract alone speaks of them.
        let _ = actor;
        let _ = event;
        Ok(())
    }

    /// Steps the parts by an entry that may come next. An error means out of memory; then the state is of no
    /// use any more.
    pub(crate) fn step(&mut self, actor: u32, event: &Event) -> Result<(), AllocError>
        requires { MayStep self.old actor event.now }
        ensures { OnOk result (IsStepped self.old actor event.now self.new) }
    {
        match event {
            Event::Send { frame, pulls } => self.step_send(actor, *frame, pulls),
            Event::Abort { frame } => self.step_abort(actor, *frame),
            Event::Commit { frame } => self.step_commit(actor, *frame),
            Event::Activate { frame, clamps } => self.step_activate(actor, *frame, clamps),
            Event::Scroll { input, dx, dy } => self.step_scroll(actor, event, *input, *dx, *dy),
            Event::Wheel { moves, .. } => self.step_moves(actor, event, moves.as_slice()),
            Event::Start {
                worker,
                key,
                evicted,
            } => self.step_start(actor, *worker, *key, evicted),
            Event::DoneTile { worker, key } => self.step_done(actor, *worker, *key),
            Event::Begin { .. }
            | Event::BeginPlain
            | Event::Ready { .. }
            | Event::Draw { .. }
            | Event::Skip { .. }
            | Event::NoDraw
            | Event::Finish
            | Event::Await { .. }
            | Event::Settle { .. }
            | Event::End
            | Event::Stop { .. } => self.step_quiet(actor, event),
        }
    }
}
