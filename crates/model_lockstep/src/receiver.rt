//! What takes what is played.

ghost use Rattle.std.specs.Prelude.{◌≡◌, List, length, IfErr, OnOk};
ghost use Rattle.std.specs.Thread.{IsSync};
ghost use Rattle.model_history.specs.declared.history.Entry.{Entry};
ghost use Rattle.model_history.specs.Scripts.{ScriptModel};
ghost use Rattle.model_lockstep.specs.Walks.{WalkState};
ghost use Rattle.model_lockstep.specs.Receivers.{Since};

use crate::compositor::Compositor;
use std::alloc::AllocError;
use std::thread::Threads;

/// What takes what a compositor entered, part by part, and hands it on to an `O`: after each input, after each round
/// of an await or of the end, and after the end of the run.
///
/// For clauses it tells whether, from where it began (`Start`), it has all that was entered of a script up to some
/// past (`has`), the newest entry of which stands first, and what it has where it stopped in that past (`stopped`).
pub trait Receiver<C: Compositor, O> {
    /// Why it takes no more.
    type Fault;

    ghost Start: { Type 0 };

    ghost has: { Self.Start → ScriptModel → List Entry → Self → O → Type 0 };

    ghost stopped: { Self.Start → ScriptModel → List Entry → Self.Fault → Self → O → Type 0 };

    /// Takes what was entered since all was taken: one part.
    fn take<R: Threads + Sync>(
        &mut self,
        rt: &R,
        core: &mut C,
        out: &mut O,
    ) -> Result<(), Self::Fault>
        requires sync { IsSync R.row }
        requires since { (start : Self.Start) × (old : WalkState) × Since old (C.run core.old) × has start old.script old.past self.old out.old }
        ensures script { (C.run core.new).script ≡ (C.run core.old).script }
        ensures past { (C.run core.new).past ≡ (C.run core.old).past }
        ensures all { (C.run core.new).written ≡ length (C.run core.old).past }
        ensures has { (start : Self.Start) (old : WalkState) → Since old (C.run core.old) → has start old.script old.past self.old out.old → OnOk result (has start old.script (C.run core.old).past self.new out.new) }
        ensures stopped { (start : Self.Start) (old : WalkState) → Since old (C.run core.old) → has start old.script old.past self.old out.old → IfErr result (λ fault. stopped start old.script (C.run core.old).past fault self.new out.new) };

    /// The fault where memory was refused to what is played, of which nothing was taken.
    fn refused(error: AllocError) -> Self::Fault
        ensures { (start : Self.Start) (s : ScriptModel) (past : List Entry) (x : Self) (out : O) → has start s past x out → stopped start s past result x out };

    /// Whether it can take nothing more until it has let go of some of what it took.
    fn is_full(&self) -> bool;
}
