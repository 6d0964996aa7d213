//! The compositor.

ghost use Rattle.std.specs.Prelude.{◌≡◌, ◌≤◌, [], Some, IsSome};
ghost use Rattle.proxy_threads.specs.Seats.{Of};
ghost use Rattle.proxy_threads.specs.Writing.{CompTurns, FaultCause, KnowsEnd, MayTurn};

use crate::holding::stop_if_failed;
use crate::lines::Lines;
use crate::playing::hold;
use crate::turned::Turned;
use crate::wakes::Wakes;
use crate::writing::write;
use impl_core::Core;
use std::alloc::Global;
use std::sync::Wait;
use thread_lock::{Pass, TurnLock};
use thread_pieces::SceneSink;

/// The compositor: it plays the inputs, sends and takes the main frames, draws, and writes what it and the
/// others enter.
#[derive(Drop)]
pub struct CompActor<'a, K: SceneSink> {
    pub(crate) pass: Option<Pass<Core>>,
    pub(crate) out: &'a mut K,
    pub(crate) lines: Lines,
}

impl<'a, K: SceneSink> CompActor<'a, K> {
    /// The compositor with a pass of actor 0 that has entered nothing, and with the sink that takes the
    /// recording after its two header lines.
    pub fn new(alloc: Global, pass: Pass<Core>, out: &'a mut K) -> CompActor<'a, K>
        requires actor { pass.actor ≡ 0 }
        requires fresh { pass.mine ≡ [] }
        ensures pass { result.pass ≡ Some pass }
        ensures written { result.lines.written ≡ 0 }
        ensures same_reference { result.out.ghost_name ≡ out.entry.ghost_name }
        ensures sink { result.out.now ≡ out.old }
    {
        CompActor {
            pass: Some(pass),
            out,
            lines: Lines::new(alloc),
        }
    }

    /// One turn: enters the first event of the compositor that may come, and after giving the turn up writes
    /// the lines of all entries that were not written, with the scene after the line of its own draw. Before it, it
    /// waits for space in the sink; then it waits while another actor holds the turn.
    pub fn turn<R: Wait>(&mut self, rt: &R, lock: &TurnLock<Core>) -> Turned
        requires { Of self.old.pass (MayTurn lock.now.id self.old.lines.written) }
        ensures turn { CompTurns self.old.pass self.new.pass self.old.lines.written self.new.lines.written (K.held self.old.out.now) (K.held self.new.out.now) result }
        ensures over { KnowsEnd self.new.pass self.new.lines.over result }
        ensures grows { K.faults self.old.out.now ≤ K.faults self.new.out.now }
        ensures cause { FaultCause (K.faults self.old.out.now) (K.faults self.new.out.now) result }
        ensures place { K.place self.new.out.now ≡ K.place self.old.out.now }
        ensures same_reference { self.new.out.ghost_name ≡ self.old.out.ghost_name }
    {
        let Some(pass) = self.pass.take() else {
            unreachable!()
        };
        self.out.wait_for_space(rt);
        let (pass, played) = hold(rt, lock, pass, &mut self.lines);
        let answer = write(self.out, self.lines.text.as_slice(), played);
        self.pass = Some(stop_if_failed(rt, lock, pass, answer));
        answer
    }

    /// Whether the run was played to its end, after a turn that answered `Ended`.
    pub fn is_over(&self) -> bool
        ensures { result ≡ self.now.lines.over }
    {
        self.lines.over
    }

    // Whom to wake up after the last turn.
    pub(crate) fn wakes(&self) -> Wakes {
        self.lines.wakes
    }

    /// The pass, and the sink.
    pub fn pass(self) -> (Pass<Core>, &'a mut K)
        requires { IsSome self.pass }
        ensures pass { self.entry.pass ≡ Some result.0 }
        ensures same_reference { result.1.ghost_name ≡ self.entry.out.ghost_name }
        ensures sink { result.1.now ≡ self.entry.out.now }
    {
        let CompActor { pass, out, .. } = self;
        let Some(pass) = pass else { unreachable!() };
        (pass, out)
    }
}
