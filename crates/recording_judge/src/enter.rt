//! Entering what may come.

ghost use Rattle.std.specs.Prelude.{◌≡◌, ◌+◌, ◌<◌, ◌&&◌, not, true, is_some, IfOk, OnOk, Some};
ghost use Rattle.std.specs.Bool.{Decides};
ghost use Rattle.model_history.specs.EventFields as fields;
ghost use Rattle.model_history.specs.Due.{due};
ghost use Rattle.model_history.specs.Legal.{is_open};
ghost use Rattle.impl_log.specs.Runs.{past, now};
ghost use Rattle.impl_host.specs.Hosts.{Hosts};
ghost use Rattle.recording_judge.specs.Judging.{JudgesEntry};
ghost use Rattle.recording_judge.specs.inner.Tiles.{Holds};
ghost use Rattle.recording_judge.specs.inner.States.{IsState, HasKind, IsReadyFor, Comes, HasEntered, needs_queue};

use crate::same_events::same_event;
use crate::state::State;
use crate::tile_keys::TileKeys;
use impl_host::ImplHost;
use impl_log::{Log, kind_of};
use model_history::{Entry, Event};
use model_states::Kind;
use std::alloc::{AllocError, Global};
use tile_queue::RasterQueue;

// The actor whose event it is.
fn actor_of(event: &Event) -> u64
    ensures { result ≡ fields.actor_of event.now }
{
    match event {
        Event::Ready { .. } | Event::Abort { .. } => 1,
        Event::Start { worker, .. } | Event::DoneTile { worker, .. } => *worker as u64 + 2,
        Event::Stop { actor } => *actor as u64,
        _ => 0,
    }
}

// Whether the entry's actor is the one whose event it is, and one of the run.
fn is_by_actor(entry: &Entry, workers: u32) -> bool
    ensures { Decides result ((entry.now.actor ≡ fields.actor_of entry.now.event) × (entry.now.actor < 2 + workers)) }
{
    let actor = entry.actor as u64;
    let own = actor == actor_of(&entry.event);
    let within = actor < workers as u64 + 2;
    own && within
}

// Whether an event of this kind needs a queue.
fn asks_queue(kind: Kind) -> bool
    ensures { result ≡ needs_queue kind }
{
    match kind {
        Kind::Start | Kind::Settle => true,
        _ => false,
    }
}

// Whether a queue has to be made for an event of this kind.
fn lacks_queue(kind: Kind, queue: &Option<RasterQueue>) -> bool
    ensures { result ≡ (needs_queue kind && not (is_some queue.now)) }
{
    let asks = asks_queue(kind);
    let none = !queue.is_some();
    asks && none
}

// Makes the queue of tiles anew. An error means out of memory.
fn requeue_tiles(
    alloc: Global,
    log: &Log,
    host: &ImplHost,
    tiles: &mut TileKeys,
) -> Result<(), AllocError>
    requires hosts { Hosts log.now.script (past log.now) host.now }
    requires holds { Holds log.now.script log.now.workers (past log.now) tiles.old }
    ensures queue { OnOk result (is_some tiles.new.queue ≡ true) }
    ensures keeps { OnOk result (Holds log.now.script log.now.workers (past log.now) tiles.new) }
{
    log.is_legal();
    let in_flight = log.progress().in_flight;
    let seen = host.seen(alloc, host.standing())?;
    tiles.requeue(
        log.plan(),
        seen.active.as_ref(),
        seen.pending.as_ref(),
        in_flight,
    )
}

impl State {
    // Makes the queue anew. An error means out of memory.
    fn requeue(&mut self) -> Result<(), AllocError>
        requires { IsState self.old }
        ensures log { self.new.log ≡ self.old.log }
        ensures state { OnOk result (IsState self.new) }
        ensures queue { OnOk result (is_some self.new.tiles.queue ≡ true) }
    {
        requeue_tiles(self.alloc, &self.log, &self.host, &mut self.tiles)
    }

    // Makes a queue if the kind needs one and there is none. An error means out of memory.
    fn prepare(&mut self, kind: Kind) -> Result<(), AllocError>
        requires { IsState self.old }
        ensures { OnOk result (IsReadyFor self.old kind self.new) }
    {
        let lacks = lacks_queue(kind, &self.tiles.queue);
        if lacks { self.requeue() } else { Ok(()) }
    }

    // The event of this kind and actor that is due, if the states allow the kind. An error means out of
    // memory.
    fn due(&self, kind: Kind, actor: u32) -> Result<Option<Event>, AllocError>
        requires state { IsState self.now }
        requires has { HasKind self.now.log.workers kind actor }
        requires queue { needs_queue kind ≡ true → is_some self.now.tiles.queue ≡ true }
        requires is_open { is_open (past self.now.log) kind ≡ true }
        ensures { IfOk result (λ event. event ≡ due self.now.log.script (past self.now.log) kind actor) }
    {
        match kind {
            Kind::Send => self.send_due(),
            Kind::Ready => Ok(self.ready_due()),
            Kind::Abort => Ok(self.abort_due()),
            Kind::Commit => Ok(self.commit_due()),
            Kind::Activate => self.activate_due(),
            Kind::Scroll => Ok(self.scroll_due()),
            Kind::Wheel => self.wheel_due(),
            Kind::Start => self.start_due(actor),
            Kind::Done => Ok(self.done_due(actor)),
            Kind::Draw => self.draw_due(),
            Kind::Settle => Ok(self.settle_due()),
            Kind::Stop => Ok(Some(Event::Stop { actor })),
            _ => Ok(self.log.plain_now(kind)),
        }
    }

    // The event of this kind and actor that may come now, if there is one. An error means out of memory.
    fn coming(&self, kind: Kind, actor: u32) -> Result<Option<Event>, AllocError>
        requires state { IsState self.now }
        requires has { HasKind self.now.log.workers kind actor }
        requires queue { needs_queue kind ≡ true → is_some self.now.tiles.queue ≡ true }
        ensures { IfOk result (λ event. event ≡ now self.now.log kind actor) }
    {
        let open = self.log.is_open(kind);
        if open {
            self.due(kind, actor)
        } else {
            Ok(None)
        }
    }

    // Steps the parts by the event that may come now, and enters it. An error means out of memory.
    fn follow(&mut self, actor: u32, event: Event) -> Result<(), AllocError>
        requires { Comes self.old actor event }
        ensures { OnOk result (HasEntered self.old actor event self.new) }
    {
        self.log.is_legal();
        self.step(actor, &event)?;
        self.log.enter(actor, event)
    }

    // Enters the event that may come now, if it is the entry's.
    fn enter_event(&mut self, event: Event, entry: &Entry) -> Result<bool, AllocError>
        requires state { IsState self.old }
        requires due { Some event ≡ now self.old.log (fields.kind_of entry.now.event) entry.now.actor }
        requires actor { entry.now.actor ≡ fields.actor_of entry.now.event }
        requires within { entry.now.actor < 2 + self.old.log.workers }
        ensures state { OnOk result (IsState self.new) }
        ensures enters { IfOk result (JudgesEntry self.old.log entry.now self.new.log) }
    {
        let same = same_event(&event, &entry.event);
        if same {
            self.follow(entry.actor, event)?;
            Ok(true)
        } else {
            Ok(false)
        }
    }

    // The same if there may be none.
    fn enter_coming(&mut self, coming: Option<Event>, entry: &Entry) -> Result<bool, AllocError>
        requires state { IsState self.old }
        requires due { coming ≡ now self.old.log (fields.kind_of entry.now.event) entry.now.actor }
        requires actor { entry.now.actor ≡ fields.actor_of entry.now.event }
        requires within { entry.now.actor < 2 + self.old.log.workers }
        ensures state { OnOk result (IsState self.new) }
        ensures enters { IfOk result (JudgesEntry self.old.log entry.now self.new.log) }
    {
        match coming {
            Some(event) => self.enter_event(event, entry),
            None => Ok(false),
        }
    }

    // Enters an entry of an actor of the run, whose event is this actor's.
    fn enter_own(&mut self, entry: &Entry) -> Result<bool, AllocError>
        requires state { IsState self.old }
        requires actor { entry.now.actor ≡ fields.actor_of entry.now.event }
        requires within { entry.now.actor < 2 + self.old.log.workers }
        ensures state { OnOk result (IsState self.new) }
        ensures enters { IfOk result (JudgesEntry self.old.log entry.now self.new.log) }
    {
        let kind = kind_of(&entry.event);
        self.prepare(kind)?;
        let coming = self.coming(kind, entry.actor)?;
        self.enter_coming(coming, entry)
    }

    /// Enters an entry if it may come next, and answers whether it may. An error means out of memory; then the
    /// state is of no use any more.
    pub(crate) fn enter(&mut self, entry: &Entry) -> Result<bool, AllocError>
        requires { IsState self.old }
        ensures state { OnOk result (IsState self.new) }
        ensures enters { IfOk result (JudgesEntry self.old.log entry.now self.new.log) }
    {
        let own = is_by_actor(entry, self.log.workers());
        if own {
            self.enter_own(entry)
        } else {
            Ok(false)
        }
    }
}
