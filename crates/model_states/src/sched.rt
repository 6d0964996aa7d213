//! The state of the scheduler, and how it changes with each kind of event.

ghost use Rattle.std.specs.Prelude.{◌≡◌, IsTrue};
ghost use Rattle.model_states.specs.Kinds.{may, sched_after, begun_for};

use crate::kind::Kind;
use crate::states::{Begun, ImplState, MainState};

/// The state of the scheduler.
#[derive(Clone, Copy, PartialEq, Eq, Debug)]
pub struct Sched {
    /// Where the impl frame stands.
    pub impl_state: ImplState,
    /// Where the main frame in flight stands.
    pub main_state: MainState,
    /// A tree was committed and is not active yet.
    pub has_pending: bool,
    /// This impl frame has sent a main frame.
    pub sent_in_frame: bool,
    /// What this impl frame was begun for.
    pub begun: Begun,
}

impl Sched {
    /// The state before the first event.
    pub const START: Sched = Sched {
        impl_state: ImplState::Idle,
        main_state: MainState::Idle,
        has_pending: false,
        sent_in_frame: false,
        begun: Begun::Nothing,
    };

    /// Whether an event of this kind may come in this state.
    pub fn may(self, kind: Kind) -> bool
        ensures { result ≡ may self kind }
    {
        let idle = self.impl_state == ImplState::Idle;
        let in_frame = self.impl_state == ImplState::InsideBeginFrame;
        let in_deadline = self.impl_state == ImplState::InsideDeadline;
        let main_idle = self.main_state == MainState::Idle;
        match kind {
            Kind::BeginDraw | Kind::Await => idle,
            Kind::BeginPlain => idle && main_idle,
            Kind::Send => in_frame && main_idle && !self.sent_in_frame,
            Kind::Ready | Kind::Abort => self.main_state == MainState::Sent,
            Kind::Commit => {
                !in_deadline && self.main_state == MainState::ReadyToCommit && !self.has_pending
            }
            Kind::Activate => !in_deadline && self.has_pending,
            Kind::Scroll | Kind::Wheel => !in_deadline,
            Kind::Draw | Kind::Skip => in_frame && self.begun == Begun::ForDraw,
            Kind::NoDraw => in_frame && self.begun == Begun::Plain && self.sent_in_frame,
            Kind::Finish => in_deadline,
            Kind::Settle => idle && !self.has_pending,
            Kind::End => idle && main_idle && !self.has_pending,
            Kind::Start | Kind::Done | Kind::Stop => true,
        }
    }

    /// The state after an event of this kind, which may come in this state.
    pub fn after(self, kind: Kind) -> Sched
        requires { IsTrue (may self kind) }
        ensures { result ≡ sched_after self kind }
    {
        match kind {
            Kind::BeginDraw => self.begun_for(Begun::ForDraw),
            Kind::BeginPlain => self.begun_for(Begun::Plain),
            Kind::Send => Sched {
                main_state: MainState::Sent,
                sent_in_frame: true,
                ..self
            },
            Kind::Ready => Sched {
                main_state: MainState::ReadyToCommit,
                ..self
            },
            Kind::Abort => Sched {
                main_state: MainState::Idle,
                ..self
            },
            Kind::Commit => Sched {
                main_state: MainState::Idle,
                has_pending: true,
                ..self
            },
            Kind::Activate => Sched {
                has_pending: false,
                ..self
            },
            Kind::Draw | Kind::Skip | Kind::NoDraw => {
                Sched {
                    impl_state: ImplState::InsideDeadline,
                    ..self
                }
            }
            Kind::Finish => Sched {
                impl_state: ImplState::Idle,
                begun: Begun::Nothing,
                sent_in_frame: false,
                ..self
            },
            Kind::Scroll
            | Kind::Wheel
            | Kind::Start
            | Kind::Done
            | Kind::Await
            | Kind::Settle
            | Kind::End
            | Kind::Stop => self,
        }
    }

    // Inside an impl frame that was begun for this and has sent nothing yet.
    fn begun_for(self, begun: Begun) -> Sched
        ensures { result ≡ begun_for begun self }
    {
        Sched {
            impl_state: ImplState::InsideBeginFrame,
            begun,
            sent_in_frame: false,
            ..self
        }
    }
}
