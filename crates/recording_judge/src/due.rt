//! Which event is due, by its kind and its actor, if the states allow its kind.

ghost use Rattle.std.specs.Prelude.{◌≡◌, ◌+◌, ◌-◌, ◌<◌, ◌≤◌, true, is_some, option_copied, IfOk, Some, None};
ghost use Rattle.model_states.specs.declared.kind.Kind.TheVariants as kind;
ghost use Rattle.model_history.specs.declared.input.Input.TheVariants as input;
ghost use Rattle.model_history.specs.Due as dues;
ghost use Rattle.model_history.specs.Due.{input_now};
ghost use Rattle.model_history.specs.EventFields.{begins};
ghost use Rattle.model_history.specs.Scans.{held, newest};
ghost use Rattle.model_history.specs.Scrolls.{next_clamps};
ghost use Rattle.model_history.specs.Frames.{pending, is_empty};
ghost use Rattle.model_history.specs.Legal.{is_open};
ghost use Rattle.model_history.specs.Tiles.{Tree, visible_in, active_tree, pending_tree, required, are_ready, in_flight};
ghost use Rattle.impl_log.specs.Runs.{past};
ghost use Rattle.recording_judge.specs.inner.States.{IsState, IsFirstKey};

use crate::state::State;
use geom::{Keys, TileKey};
use impl_choice::visible_of;
use impl_scroll::moves_of;
use model_history::{Event, Input, Moves};
use std::alloc::AllocError;

impl State {
    // The keys of the visible tiles of the pending tree; none if nothing is pending. An error means out of
    // memory.
    fn needed(&self) -> Result<Keys, AllocError>
        requires { IsState self.now }
        ensures { IfOk result (λ keys. keys ≡ visible_in (pending_tree self.now.log.script (past self.now.log))) }
    {
        let seen = self.host.seen(self.alloc, self.host.standing())?;
        visible_of(self.alloc, seen.pending.as_ref())
    }

    // The same of the active tree.
    fn shown(&self) -> Result<Keys, AllocError>
        requires { IsState self.now }
        ensures { IfOk result (λ keys. keys ≡ visible_in (active_tree self.now.log.script (past self.now.log))) }
    {
        let seen = self.host.seen(self.alloc, self.host.standing())?;
        visible_of(self.alloc, seen.active.as_ref())
    }

    /// The `Send` that is due. An error means out of memory.
    pub(crate) fn send_due(&self) -> Result<Option<Event>, AllocError>
        requires state { IsState self.now }
        requires is_open { is_open (past self.now.log) kind.Send ≡ true }
        ensures { IfOk result (λ event. event ≡ dues.due self.now.log.script (past self.now.log) kind.Send 0) }
    {
        let left = self.log.is_left();
        if left {
            self.log.is_legal();
            let pulls = self.host.standing().unheard(self.alloc)?;
            let frame = self.log.progress().sends;
            Ok(Some(Event::Send { frame, pulls }))
        } else {
            Ok(None)
        }
    }

    /// The `Ready` that is due.
    pub(crate) fn ready_due(&self) -> Option<Event>
        requires state { IsState self.now }
        requires is_open { is_open (past self.now.log) kind.Ready ≡ true }
        ensures { result ≡ dues.due self.now.log.script (past self.now.log) kind.Ready 1 }
    {
        self.log.is_legal();
        self.main.ready()
    }

    /// The `Abort` that is due.
    pub(crate) fn abort_due(&self) -> Option<Event>
        requires state { IsState self.now }
        requires is_open { is_open (past self.now.log) kind.Abort ≡ true }
        ensures { result ≡ dues.due self.now.log.script (past self.now.log) kind.Abort 1 }
    {
        self.log.is_legal();
        self.main.abort()
    }

    /// The `Commit` that is due.
    pub(crate) fn commit_due(&self) -> Option<Event>
        ensures { result ≡ dues.due self.now.log.script (past self.now.log) kind.Commit 0 }
    {
        match self.log.progress().sent {
            Some(frame) => Some(Event::Commit { frame }),
            None => None,
        }
    }

    // The moves that an activation lists now. An error means out of memory.
    fn clamps(&self) -> Result<Moves, AllocError>
        requires state { IsState self.now }
        requires waits { is_some (pending (past self.now.log)) ≡ true }
        ensures { IfOk result (λ moves. moves ≡ next_clamps self.now.log.script (past self.now.log)) }
    {
        self.log.is_legal();
        let pages = self.host.pages();
        let Some(page) = pages.pending else {
            unreachable!()
        };
        self.host
            .standing()
            .clamps(self.alloc, page, pages.outright)
    }

    // Whether all that the pending tree needs is ready. An error means out of memory.
    fn are_needed_ready(&self) -> Result<bool, AllocError>
        requires { IsState self.now }
        ensures { IfOk result (λ ready. ready ≡ are_ready self.now.log.script (past self.now.log) (required self.now.log.script (past self.now.log))) }
    {
        let needed = self.needed()?;
        Ok(self.tiles.are_ready(&needed))
    }

    // The activation of the pending commit, which is that of this frame. An error means out of memory.
    fn activation_of(&self, frame: u32) -> Result<Option<Event>, AllocError>
        requires state { IsState self.now }
        requires waits { pending (past self.now.log) ≡ Some frame }
        ensures { IfOk result (λ event. event ≡ dues.due self.now.log.script (past self.now.log) kind.Activate 0) }
    {
        let ready = self.are_needed_ready()?;
        if ready {
            let clamps = self.clamps()?;
            Ok(Some(Event::Activate { frame, clamps }))
        } else {
            Ok(None)
        }
    }

    /// The `Activate` that is due. An error means out of memory.
    pub(crate) fn activate_due(&self) -> Result<Option<Event>, AllocError>
        requires { IsState self.now }
        ensures { IfOk result (λ event. event ≡ dues.due self.now.log.script (past self.now.log) kind.Activate 0) }
    {
        match self.log.progress().pending {
            Some(frame) => self.activation_of(frame),
            None => Ok(None),
        }
    }

    // The scroll that is the next input, as an event.
    fn scroll_of(&self, scroller: u32, dx: i32, dy: i32) -> Event
        requires state { IsState self.now }
        requires asked { input_now self.now.log.script (past self.now.log) ≡ Some (input.Scroll scroller dx dy) }
        ensures { Some result ≡ dues.due self.now.log.script (past self.now.log) kind.Scroll 0 }
    {
        self.log.is_legal();
        let active = self.host.pages().active;
        let taken = self.host.standing().accepted(active, scroller, dx, dy);
        let place = self.log.next_input();
        Event::scroll(place, taken)
    }

    /// The `Scroll` that is due.
    pub(crate) fn scroll_due(&self) -> Option<Event>
        requires { IsState self.now }
        ensures { result ≡ dues.due self.now.log.script (past self.now.log) kind.Scroll 0 }
    {
        match self.log.input_now() {
            Some(Input::Scroll { scroller, dx, dy }) => Some(self.scroll_of(scroller, dx, dy)),
            _ => None,
        }
    }

    // The wheel that is the next input, as an event. An error means out of memory.
    fn wheel_of(&self, x: u32, y: u32, dx: i32, dy: i32) -> Result<Option<Event>, AllocError>
        requires state { IsState self.now }
        requires asked { input_now self.now.log.script (past self.now.log) ≡ Some (input.Wheel x y dx dy) }
        ensures { IfOk result (λ event. event ≡ dues.due self.now.log.script (past self.now.log) kind.Wheel 0) }
    {
        self.log.is_legal();
        let active = self.host.pages().active;
        let wheel = self
            .host
            .standing()
            .wheel(self.alloc, active, x, y, dx, dy)?;
        let moves = moves_of(self.alloc, &wheel.parts)?;
        let place = self.log.next_input();
        Ok(Some(Event::wheel(place, wheel.target, wheel.rest, moves)))
    }

    /// The `Wheel` that is due. An error means out of memory.
    pub(crate) fn wheel_due(&self) -> Result<Option<Event>, AllocError>
        requires { IsState self.now }
        ensures { IfOk result (λ event. event ≡ dues.due self.now.log.script (past self.now.log) kind.Wheel 0) }
    {
        match self.log.input_now() {
            Some(Input::Wheel { x, y, dx, dy }) => self.wheel_of(x, y, dx, dy),
            _ => Ok(None),
        }
    }

    // The start of a key by a worker that holds nothing. There is a queue. An error means out of memory.
    fn start_of(&self, actor: u32, key: TileKey) -> Result<Option<Event>, AllocError>
        requires state { IsState self.now }
        requires actor { (2 ≤ actor) × (actor < 2 + self.now.log.workers) }
        requires queue { is_some self.now.tiles.queue ≡ true }
        requires free { held (actor - 2) (past self.now.log) ≡ None }
        requires first { IsFirstKey self.now.log.script (past self.now.log) key }
        ensures { IfOk result (λ event. event ≡ dues.due self.now.log.script (past self.now.log) kind.Start actor) }
    {
        let evicted_keys = self.tiles.evicted(key)?;
        // The log keeps the keys: a copy has no room for more of them.
        let evicted = evicted_keys.copy()?;
        let worker = actor - 2;
        Ok(Some(Event::Start {
            worker,
            key,
            evicted,
        }))
    }

    // The start by a worker that holds nothing. There is a queue. An error means out of memory.
    fn start_free(&self, actor: u32) -> Result<Option<Event>, AllocError>
        requires state { IsState self.now }
        requires actor { (2 ≤ actor) × (actor < 2 + self.now.log.workers) }
        requires queue { is_some self.now.tiles.queue ≡ true }
        requires free { held (actor - 2) (past self.now.log) ≡ None }
        ensures { IfOk result (λ event. event ≡ dues.due self.now.log.script (past self.now.log) kind.Start actor) }
    {
        match self.tiles.first() {
            Some(key) => self.start_of(actor, key),
            None => Ok(None),
        }
    }

    /// The `Start` of a worker that is due. There is a queue. An error means out of memory.
    pub(crate) fn start_due(&self, actor: u32) -> Result<Option<Event>, AllocError>
        requires state { IsState self.now }
        requires actor { (2 ≤ actor) × (actor < 2 + self.now.log.workers) }
        requires queue { is_some self.now.tiles.queue ≡ true }
        ensures { IfOk result (λ event. event ≡ dues.due self.now.log.script (past self.now.log) kind.Start actor) }
    {
        match self.tiles.held(actor - 2) {
            Some(_) => Ok(None),
            None => self.start_free(actor),
        }
    }

    /// The end of the tile of a worker that is due.
    pub(crate) fn done_due(&self, actor: u32) -> Option<Event>
        requires state { IsState self.now }
        requires actor { (2 ≤ actor) × (actor < 2 + self.now.log.workers) }
        ensures { result ≡ dues.due self.now.log.script (past self.now.log) kind.Done actor }
    {
        let worker = actor - 2;
        match self.tiles.held(worker) {
            Some(key) => Some(Event::DoneTile { worker, key }),
            None => None,
        }
    }

    // The draw for this input, which is that of the impl frame. An error means out of memory.
    fn draw_of(&self, place: u32) -> Result<Option<Event>, AllocError>
        requires state { IsState self.now }
        requires begun { newest begins (past self.now.log) ≡ Some place }
        ensures { IfOk result (λ event. event ≡ dues.due self.now.log.script (past self.now.log) kind.Draw 0) }
    {
        let active = self.log.progress().active.is_some();
        if active {
            let keys = self.shown()?;
            let missing = self.tiles.missing(&keys)?;
            Ok(Some(Event::Draw {
                input: place,
                missing,
            }))
        } else {
            Ok(None)
        }
    }

    /// The `Draw` that is due. An error means out of memory.
    pub(crate) fn draw_due(&self) -> Result<Option<Event>, AllocError>
        requires { IsState self.now }
        ensures { IfOk result (λ event. event ≡ dues.due self.now.log.script (past self.now.log) kind.Draw 0) }
    {
        match self.log.progress().begun {
            Some(place) => self.draw_of(place),
            None => Ok(None),
        }
    }

    // Whether nothing is being made.
    fn has_landed(&self) -> bool
        ensures { result ≡ is_empty (in_flight (past self.now.log)) }
    {
        self.log.progress().in_flight == 0
    }

    // Whether no tile is left to make. There is a queue.
    fn is_settled(&self) -> bool
        requires state { IsState self.now }
        requires queue { is_some self.now.tiles.queue ≡ true }
        ensures { result ≡ dues.is_settled self.now.log.script (past self.now.log) }
    {
        let landed = self.has_landed();
        match self.tiles.first() {
            Some(_) => false,
            None => landed,
        }
    }

    /// The end of a settle that is due. There is a queue.
    pub(crate) fn settle_due(&self) -> Option<Event>
        requires state { IsState self.now }
        requires queue { is_some self.now.tiles.queue ≡ true }
        ensures { result ≡ dues.due self.now.log.script (past self.now.log) kind.Settle 0 }
    {
        match self.log.input_now() {
            Some(Input::Settle) => {
                let settled = self.is_settled();
                if settled {
                    Some(Event::Settle {
                        input: self.log.next_input(),
                    })
                } else {
                    None
                }
            }
            _ => None,
        }
    }
}
