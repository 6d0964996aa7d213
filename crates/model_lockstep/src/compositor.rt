//! A compositor as the loops of lockstep see it.

ghost use Rattle.std.specs.Prelude.{◌≡◌, ℕ, Some, is_some, IfOk};
ghost use Rattle.std.specs.Thread.{IsSync};
ghost use Rattle.model_states.specs.declared.kind.Kind.TheVariants as kind;
ghost use Rattle.model_history.specs.EventFields.{sends};
ghost use Rattle.model_history.specs.Scans.{newest};
ghost use Rattle.model_history.specs.Frames.{active, changes as frame_changes, is_left as is_frame_left, pulls_of};
ghost use Rattle.model_history.specs.Lockstep.{has_first as is_tile_first, is_possible, waits as is_waiting};
ghost use Rattle.model_lockstep.specs.Walks.{actor_for, WalkEnters, WalkState};

use model_states::Kind;
use std::alloc::AllocError;
use std::thread::Threads;

/// Why no event was entered.
#[derive(Debug, Drop)]
pub enum EnterFault {
    /// No event of this kind and actor is possible.
    NotNow,
    /// Memory was refused.
    Memory(AllocError),
}

/// A compositor that plays a script: it enters the events that it is asked for, if they are
/// possible, and answers what is possible next.
///
/// For clauses it tells the script, what was played of it and how much of that was written (`run`); no
/// call of the loops writes. Actor 1 is the main side, actor 2 a worker, and 0 the compositor itself.
pub trait Compositor {
    ghost run: { Self → WalkState };

    /// Enters the event of this kind and of its actor. On an error nothing was entered; `NotNow` comes
    /// only if none is possible.
    fn enter(&mut self, kind: Kind, actor: u32) -> Result<(), EnterFault>
        requires { actor_for kind ≡ Some actor }
        ensures { WalkEnters kind actor (run self.old) (run self.new) result };

    /// Whether the pending commit can be activated. An error means out of memory. Nothing is entered.
    fn can_activate(&mut self) -> Result<bool, AllocError>
        ensures same { run self.new ≡ run self.old }
        ensures answer { IfOk result (λ answer. answer ≡ is_possible (run self.old).script kind.Activate 0 (run self.old).past) };

    /// Whether the next input is an await that is over.
    fn can_await(&self) -> bool
        ensures { result ≡ is_possible (run self.now).script kind.Await 0 (run self.now).past };

    /// Whether a commit is pending.
    fn waits(&self) -> bool
        ensures { result ≡ is_waiting (run self.now).past };

    /// Whether a tile may start. An error means out of memory. Nothing is entered.
    fn has_first(&mut self) -> Result<bool, AllocError>
        ensures same { run self.new ≡ run self.old }
        ensures answer { IfOk result (λ answer. answer ≡ is_tile_first (run self.old).script (run self.old).past) };

    /// Whether a main frame is left to be sent.
    fn is_left(&self) -> bool
        ensures { result ≡ is_frame_left (run self.now).script (run self.now).past };

    /// Whether a commit was activated.
    fn is_active(&self) -> bool
        ensures { result ≡ is_some (active (run self.now).past) };

    /// How many tiles a draw makes at most.
    fn raster_per_frame(&self) -> u32
        ensures { result ≡ (run self.now).script.raster_per_frame };

    /// Lets the main side run the frame that was sent last, and answers whether it changes something. An
    /// error means out of memory. Nothing is entered.
    fn changes(&mut self) -> Result<bool, AllocError>
        ensures same { run self.new ≡ run self.old }
        ensures answer { IfOk result (λ answer. (k : ℕ) → newest sends (run self.old).past ≡ Some k → answer ≡ frame_changes (run self.old).script (pulls_of (run self.old).past) k) };

    /// Makes images of the tiles that come next ahead, in several threads, if that is worth it. Nothing is
    /// entered, and if memory is refused nothing is made.
    fn make_ahead<R: Threads + Sync>(&mut self, rt: &R)
        requires { IsSync R.row }
        ensures { run self.new ≡ run self.old };
}
