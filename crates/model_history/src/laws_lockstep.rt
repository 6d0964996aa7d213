//! Laws of lockstep, as contracts of functions that do nothing.

ghost use Rattle.std.specs.Prelude.{◌≡◌, List, ◌++◌, [], ◌∷◌};
ghost use Rattle.model_history.specs.Scripts.{ScriptModel};
ghost use Rattle.model_history.specs.declared.history.Entry.{Entry as Entered};
ghost use Rattle.model_history.specs.declared.event.Event.TheVariants as event;
ghost use Rattle.model_history.specs.Legal.{IsLegal};
ghost use Rattle.model_history.specs.Lockstep.{IsLockstep};

/// A lockstep history of a script is legal for one worker, its last entry is the end, and no other
/// history of the script is one.
pub fn lockstep_is_one()
    ensures legal { (s : ScriptModel) (history : List Entered) → IsLockstep s history → IsLegal s 1 history }
    ensures ends { (s : ScriptModel) (history : List Entered) → IsLockstep s history → (before : List Entered) × (history ≡ before ++ record { actor = 0; event = event.End } ∷ []) }
    ensures one { (s : ScriptModel) (a b : List Entered) → IsLockstep s a → IsLockstep s b → a ≡ b }
{}
