//! How far a run has come.

ghost use Rattle.std.specs.Prelude.{◌≡◌, ◌<◌, ◌≤◌, true};
ghost use Rattle.model_states.specs.Kinds.{may};
ghost use Rattle.model_states.specs.declared.kind.Kind.TheVariants as kind;
ghost use Rattle.model_history.specs.EventFields as fields;
ghost use Rattle.impl_log.specs.Progress.{ended_frames};
ghost use Rattle.impl_log.specs.inner.Steps as spec;

use crate::kinds::kind_of;
use model_history::Event;
use model_states::{MainState, Sched};

/// How far a run has come: what its past tells, without the tiles and the scrollers.
#[derive(Clone, Copy, PartialEq, Eq, Debug)]
pub struct Progress {
    /// The state of the scheduler.
    pub sched: Sched,
    /// An end or a stop stands.
    pub has_ended: bool,
    /// How many inputs were used, which is the place of the next one.
    pub inputs: u32,
    /// How many main frames were sent.
    pub sends: u32,
    /// The main frame that was sent last.
    pub sent: Option<u32>,
    /// The draw for which an impl frame was begun last, by its place among the inputs.
    pub begun: Option<u32>,
    /// The main frame whose commit is active.
    pub active: Option<u32>,
    /// The main frame whose commit is pending.
    pub pending: Option<u32>,
    /// How many tiles are in flight.
    pub in_flight: u32,
}

/// Whether an event uses an input.
pub(crate) fn uses(event: &Event) -> bool
    ensures { result ≡ spec.is_named (fields.uses event.now) }
{
    match event {
        Event::Begin { .. }
        | Event::Scroll { .. }
        | Event::Wheel { .. }
        | Event::Await { .. }
        | Event::Settle { .. } => true,
        _ => false,
    }
}

// Whether nothing may come after an event.
fn is_last(event: &Event) -> bool
    ensures { result ≡ fields.is_last event.now }
{
    match event {
        Event::End | Event::Stop { .. } => true,
        _ => false,
    }
}

impl Progress {
    /// Before anything was entered.
    pub const START: Progress = Progress {
        sched: Sched::START,
        has_ended: false,
        inputs: 0,
        sends: 0,
        sent: None,
        begun: None,
        active: None,
        pending: None,
        in_flight: 0,
    };

    // What every event steps alike.
    fn with_kind(self, event: &Event) -> Progress
        requires state { may self.sched (fields.kind_of event.now) ≡ true }
        requires few { self.inputs < 4294967295 }
        ensures { result ≡ spec.with_kind event.now self }
    {
        Progress {
            sched: self.sched.after(kind_of(event)),
            has_ended: is_last(event) || self.has_ended,
            inputs: if uses(event) {
                self.inputs + 1
            } else {
                self.inputs
            },
            ..self
        }
    }

    // What an event steps by the numbers that it names.
    fn with_named(self, event: &Event) -> Progress
        requires few_sends { self.sends < 4294967295 }
        requires few_in_flight { self.in_flight ≤ 16 }
        requires held { fields.kind_of event.now ≡ kind.Done → 1 ≤ self.in_flight }
        ensures { result ≡ spec.with_named event.now self }
    {
        match event {
            Event::Begin { input } => Progress {
                begun: Some(*input),
                ..self
            },
            Event::Send { frame, .. } => Progress {
                sends: self.sends + 1,
                sent: Some(*frame),
                ..self
            },
            Event::Commit { frame } => Progress {
                pending: Some(*frame),
                ..self
            },
            Event::Activate { frame, .. } => Progress {
                active: Some(*frame),
                pending: None,
                ..self
            },
            Event::Start { .. } => Progress {
                in_flight: self.in_flight + 1,
                ..self
            },
            Event::DoneTile { .. } => Progress {
                in_flight: self.in_flight - 1,
                ..self
            },
            _ => self,
        }
    }

    /// The progress after one event more, which the scheduler's state allows.
    pub(crate) fn after(self, event: &Event) -> Progress
        requires state { may self.sched (fields.kind_of event.now) ≡ true }
        requires few { self.inputs < 4294967295 }
        requires few_sends { self.sends < 4294967295 }
        requires few_in_flight { self.in_flight ≤ 16 }
        requires held { fields.kind_of event.now ≡ kind.Done → 1 ≤ self.in_flight }
        ensures { result ≡ spec.stepped event.now self }
    {
        let next = self.with_kind(event);
        next.with_named(event)
    }

    /// How many main frames have ended, by a commit or an abort: all that were sent, but for the one in
    /// flight.
    pub(crate) fn ended_frames(self) -> u32
        ensures { result ≡ ended_frames self }
    {
        if self.sched.main_state == MainState::Idle {
            self.sends
        } else {
            self.sends.saturating_sub(1)
        }
    }
}
