//! A history that only takes what may come.

ghost use Rattle.std.specs.Prelude.{◌≡◌, ◌<◌, ◌≤◌, ◌+◌, ◌-◌, ◌++◌, ◌∷◌, [], List, length, true, not, ◌&&◌, Some, OnOk, OnErr, IfOk};
ghost use Rattle.model_states.specs.Kinds.{may, is_main_idle};
ghost use Rattle.model_history.specs.EventFields.{kind_of, actor_of, begins};
ghost use Rattle.model_history.specs.declared.event.Event.TheVariants as event;
ghost use Rattle.model_history.specs.declared.input.Input.{Input as InputModel};
ghost use Rattle.model_history.specs.Accepted.{IsPlayable};
ghost use Rattle.model_history.specs.Due as dues;
ghost use Rattle.model_history.specs.DueParts.{due_skip};
ghost use Rattle.model_history.specs.Frames as frames;
ghost use Rattle.model_history.specs.Legal as legal;
ghost use Rattle.model_history.specs.Scans as scans;
ghost use Rattle.impl_log.specs.Kept.{forgettable, milestones};
ghost use Rattle.impl_log.specs.Progress as progress;
ghost use Rattle.impl_log.specs.Runs.{new_run, past, now, with_entry, is_plain_kind, is_kept, Plays};
ghost use Rattle.impl_log.specs.inner.Known.{AreKnown};
ghost use Rattle.impl_log.specs.inner.Logs.{MayStep};
ghost use Rattle.impl_log.specs.inner.Steps.{placed, stepped};

use crate::kept_history::KeptHistory;
use crate::known_inputs::KnownInputs;
use crate::milestones::Milestones;
use crate::progress::Progress;
use model_history::{Entry, Event, Input, Plan, Script};
use model_states::{Kind, MainState};
use std::alloc::{AllocError, Global};
use std::marker::Model;
use std::sync::Arc;

// How many entries may be forgotten before any are.
const MANY: usize = 4096;

// How many tile keys the kept entries may list before those that may be forgotten are, however few these are. A key has
// 16 bytes, so this is a mebibyte.
const MANY_KEYS: usize = 65_536;

/// The history of a run of a script, with how far the run has come. By its type it is legal: each entry
/// is the one of its kind and actor that might come after those before it.
///
/// Contracts see the run: the script, the number of workers and the entries, forgotten ones too.
pub struct Log {
    pub(crate) plan: Plan,
    pub(crate) known: KnownInputs,
    workers: u32,
    history: KeptHistory,
    progress: Progress,
    places: Milestones,
}

impl Model for Log {
    ghost use Rattle.std.specs.Prelude.{reverse};
    ghost use Rattle.impl_log.specs.Runs.{Run};
    ghost use Rattle.impl_log.specs.inner.Logs.{IsLogOf};
    ghost use Rattle.impl_log.specs.inner.Known.{AreKnown};

    ghost Value = { Run };

    ghost view = { λ l. record { script = l.plan; workers = l.workers; entries = l.history.entries } };

    ghost invariant = { λ l. IsLogOf l.plan l.workers (reverse l.history.entries) l.progress l.history.spare l.places l.history.first × AreKnown l.plan.inputs l.progress.inputs l.known };
}

// Written out, since a derived drop is proved anew, field by field, in each function that lets one go.
impl Drop for Log {
    fn drop(self) {
        let Log {
            plan: _,
            known: _,
            workers: _,
            history: _,
            progress: _,
            places: _,
        } = self;
    }
}

// An event if a condition holds.
fn on_if(holds: bool, event: Event) -> Option<Event>
    ensures { result ≡ dues.on_if holds event }
{
    if holds { Some(event) } else { None }
}

// Adds an entry in a place that was reserved, and steps what is kept of the run by it.
fn add(
    history: &mut KeptHistory,
    progress: &mut Progress,
    places: &mut Milestones,
    known: &mut KnownInputs,
    entry: Entry,
)
    requires room { 1 ≤ history.old.spare }
    requires step { MayStep progress.old entry.event }
    ensures entries { history.new.entries ≡ history.old.entries ++ entry ∷ [] }
    ensures first { history.new.first ≡ history.old.first }
    ensures spare { history.new.spare + 1 ≡ history.old.spare }
    ensures progress { progress.new ≡ stepped entry.event progress.old }
    ensures places { places.new ≡ placed (milestones entry.event) (length history.old.entries) places.old }
    ensures known { (inputs : List InputModel) → AreKnown inputs progress.old.inputs known.old → AreKnown inputs progress.new.inputs known.new }
{
    known.step(&entry.event);
    *progress = progress.after(&entry.event);
    *places = places.after(&entry.event, history.len());
    history.push_reserved(entry);
}

// The log of a run in which nothing was entered yet, of whose inputs these are known.
fn new_log(alloc: Global, plan: Plan, known: KnownInputs, workers: u32) -> Result<Log, AllocError>
    requires few { workers ≤ 16 }
    requires known { AreKnown plan.inputs 0 known }
    ensures { IfOk result (λ log. log ≡ new_run plan workers) }
{
    let mut history = KeptHistory::new(alloc);
    history.reserve(1)?;
    Ok(Log {
        plan,
        known,
        workers,
        history,
        progress: Progress::START,
        places: Milestones::START,
    })
}

impl Log {
    /// The log of a run of a script in which nothing was entered yet, with up to 16 workers. An error means out of
    /// memory.
    pub fn new(alloc: Global, script: Arc<Script>, workers: u32) -> Result<Log, AllocError>
        requires { workers ≤ 16 }
        ensures { IfOk result (λ log. log ≡ new_run script.value workers) }
    {
        let plan = Plan::of(&script);
        new_log(alloc, plan, KnownInputs::All(script), workers)
    }

    /// The log of a run in which nothing was entered yet, with up to 16 workers. Its script has no inputs yet: they
    /// are told while it is played. An error means out of memory.
    pub fn of_plan(alloc: Global, plan: Plan, workers: u32) -> Result<Log, AllocError>
        requires few { workers ≤ 16 }
        requires untold { plan.inputs ≡ [] }
        ensures { IfOk result (λ log. log ≡ new_run plan workers) }
    {
        new_log(alloc, plan, KnownInputs::Next(None), workers)
    }

    /// Enters the event of its kind and of this actor that may come now. The actor is the one whose event
    /// it is: 0 the compositor, 1 the main side, `2 + w` the worker w. An error means out of memory, and
    /// nothing was entered.
    pub fn enter(&mut self, actor: u32, event: Event) -> Result<(), AllocError>
        requires is_now { now self.old (kind_of event) actor ≡ Some event }
        requires actor { actor ≡ actor_of event }
        requires within { actor < 2 + self.old.workers }
        ensures ok { OnOk result (self.new ≡ with_entry self.old actor event) }
        ensures err { OnErr result (self.new ≡ self.old) }
    {
        self.plan.is_playable();
        self.history.reserve(self.workers as usize + 2)?;
        add(
            &mut self.history,
            &mut self.progress,
            &mut self.places,
            &mut self.known,
            Entry { actor, event },
        );
        Ok(())
    }

    /// Enters the end of a tile or a stop, which may come now. It takes no memory.
    pub fn enter_kept(&mut self, actor: u32, event: Event)
        requires kept { is_kept event ≡ true }
        requires is_now { now self.old (kind_of event) actor ≡ Some event }
        requires actor { actor ≡ actor_of event }
        requires within { actor < 2 + self.old.workers }
        ensures { self.new ≡ with_entry self.old actor event }
    {
        self.plan.is_playable();
        add(
            &mut self.history,
            &mut self.progress,
            &mut self.places,
            &mut self.known,
            Entry { actor, event },
        );
    }

    /// What is kept of the script.
    pub fn plan(&self) -> &Plan
        ensures { result.now ≡ self.now.script }
    {
        &self.plan
    }

    /// The number of workers.
    pub fn workers(&self) -> u32
        ensures { result ≡ self.now.workers }
    {
        self.workers
    }

    /// Forgets the entries that came before the milestone before the newest one, once these are many or the kept
    /// entries list many tiles. The run stays as it is.
    pub fn forget(&mut self)
        ensures { self.new ≡ self.old }
    {
        let place = self.places.older;
        let many = place.saturating_sub(self.history.first()) >= MANY;
        if many || self.history.keys() >= MANY_KEYS {
            self.history.forget(place);
        }
    }

    /// The entries, the oldest first. Those since the milestone before the newest one are kept, and so is the newest
    /// entry.
    pub fn history(&self) -> &KeptHistory
        ensures entries { result.now.entries ≡ self.now.entries }
        ensures kept { result.now.first ≤ forgettable (past self.now) }
        ensures newest { result.now.first ≤ length self.now.entries - 1 }
    {
        &self.history
    }

    /// How far the run has come.
    pub fn progress(&self) -> Progress
        ensures { result ≡ progress.progress (past self.now) }
    {
        self.progress
    }

    /// The history is legal, the script can be played, and there are 16 workers at most. A law that does
    /// nothing when it runs.
    pub fn is_legal(&self)
        ensures legal { legal.Legal self.now.script self.now.workers (past self.now) }
        ensures playable { IsPlayable self.now.script }
        ensures few { self.now.workers ≤ 16 }
    {
        self.plan.is_playable();
    }

    /// Whether an event of this kind may come as far as the states tell: nothing has ended the run, and
    /// the scheduler's state allows it.
    pub fn is_open(&self, kind: Kind) -> bool
        ensures { result ≡ legal.is_open (past self.now) kind }
    {
        !self.progress.has_ended && self.progress.sched.may(kind)
    }

    /// The place of the next input.
    pub fn next_input(&self) -> u32
        ensures { result ≡ dues.next_input (past self.now) }
    {
        self.progress.inputs
    }

    /// The next input; None exactly if all are used.
    pub fn input_now(&self) -> Option<Input>
        ensures { result ≡ dues.input_now self.now.script (past self.now) }
    {
        self.known.next(self.progress.inputs)
    }

    /// Whether a main frame is left to be sent.
    pub fn is_left(&self) -> bool
        ensures { result ≡ frames.is_left self.now.script (past self.now) }
    {
        self.progress.sends < self.plan.frame_count()
    }

    /// Whether all main frames were sent and have ended.
    pub fn frames_ended(&self) -> bool
        ensures { result ≡ (not (frames.is_left self.now.script (past self.now)) && is_main_idle (legal.sched (past self.now)).main_state) }
    {
        let left = self.is_left();
        let idle = self.progress.sched.main_state == MainState::Idle;
        !left && idle
    }

    /// Whether a main frame has ended, by a commit or an abort.
    pub fn has_frame_ended(&self, frame: u32) -> bool
        ensures { result ≡ frames.has_frame_ended (past self.now) frame }
    {
        frame < self.progress.ended_frames()
    }

    // Whether the next input is a draw.
    fn is_draw_next(&self) -> bool
        ensures { result ≡ dues.asks_draw (dues.input_now self.now.script (past self.now)) }
    {
        match self.input_now() {
            Some(Input::Draw) => true,
            _ => false,
        }
    }

    // Whether a commit of a frame up to this one is pending.
    fn is_pending_to(&self, frame: u32) -> bool
        ensures { result ≡ dues.is_pending_to frame (frames.pending (past self.now)) }
    {
        match self.progress.pending {
            None => false,
            Some(pending) => pending <= frame,
        }
    }

    // The beginning of an impl frame for a main frame alone, if no draw is next and a frame is left.
    fn begin_plain(&self) -> Option<Event>
        ensures { result ≡ dues.on_if (not (dues.asks_draw (dues.input_now self.now.script (past self.now))) && frames.is_left self.now.script (past self.now)) event.BeginPlain }
    {
        let draw = self.is_draw_next();
        let left = self.is_left();
        on_if(!draw && left, Event::BeginPlain)
    }

    // The end of an await, if its frame has ended and no commit up to it is pending.
    fn await_over(&self) -> Option<Event>
        ensures { result ≡ dues.due_await (past self.now) (dues.next_input (past self.now)) (dues.input_now self.now.script (past self.now)) }
    {
        match self.input_now() {
            Some(Input::Await { frame }) => {
                let ended = self.has_frame_ended(frame);
                let waits = self.is_pending_to(frame);
                let input = self.next_input();
                on_if(ended && !waits, Event::Await { input })
            }
            _ => None,
        }
    }

    // The draw that is skipped, if nothing is active.
    fn skip(&self) -> Option<Event>
        ensures { result ≡ due_skip (past self.now) (scans.newest begins (past self.now)) }
    {
        match self.progress.begun {
            None => None,
            Some(input) => on_if(self.progress.active.is_none(), Event::Skip { input }),
        }
    }

    // The end, if all inputs are used, no main frame is left and nothing is in flight.
    fn end(&self) -> Option<Event>
        ensures { result ≡ dues.on_if (dues.is_over self.now.script (past self.now)) event.End }
    {
        let used = self.progress.inputs == self.plan.input_count();
        let left = self.is_left();
        let none = self.progress.in_flight == 0;
        on_if(used && !left && none, Event::End)
    }

    // The event of such a kind that is due.
    fn plain_due(&self, kind: Kind) -> Option<Event>
        requires { is_plain_kind kind ≡ true }
        ensures { result ≡ dues.due self.now.script (past self.now) kind 0 }
    {
        match kind {
            Kind::BeginDraw => {
                let input = self.next_input();
                on_if(self.is_draw_next(), Event::Begin { input })
            }
            Kind::BeginPlain => self.begin_plain(),
            Kind::Skip => self.skip(),
            Kind::NoDraw => Some(Event::NoDraw),
            Kind::Finish => Some(Event::Finish),
            Kind::Await => self.await_over(),
            Kind::End => self.end(),
            _ => unreachable!(),
        }
    }

    /// The event of a plain kind that may come now: one of the compositor that follows from the inputs,
    /// the main frames and the states alone (BeginDraw, BeginPlain, Skip, NoDraw, Finish, Await, End).
    /// None exactly if there is none.
    pub fn plain_now(&self, kind: Kind) -> Option<Event>
        requires { is_plain_kind kind ≡ true }
        ensures { result ≡ now self.now kind 0 }
    {
        if self.is_open(kind) {
            self.plain_due(kind)
        } else {
            None
        }
    }

    /// Enters the event of a plain kind, if there is one that may come now, and answers whether there
    /// was. An error means out of memory, and nothing was entered.
    pub fn enter_plain(&mut self, kind: Kind) -> Result<bool, AllocError>
        requires { is_plain_kind kind ≡ true }
        ensures plays { IfOk result (λ played. Plays self.old kind 0 self.new played) }
        ensures err { OnErr result (self.new ≡ self.old) }
    {
        match self.plain_now(kind) {
            None => Ok(false),
            Some(event) => {
                self.enter(0, event)?;
                Ok(true)
            }
        }
    }
}
