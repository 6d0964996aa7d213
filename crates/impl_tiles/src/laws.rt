//! What leaves the tiles as they are, as a contract of a function that does nothing.

ghost use Rattle.std.specs.Prelude.{ℕ, List, ◌∷◌};
ghost use Rattle.page_layers.specs.declared.moves.Move.{Move};
ghost use Rattle.model_history.specs.declared.history.Entry.{Entry};
ghost use Rattle.model_history.specs.Scripts.{ScriptModel};
ghost use Rattle.model_history.specs.Legal.{Legal};
ghost use Rattle.model_steps.specs.Events.{send};
ghost use Rattle.impl_tiles.specs.Managers.{Managed, Manages};

/// A manager that represents a run represents it after a send too.
pub fn sends_keep_the_tiles()
    ensures { (s : ScriptModel) (workers : ℕ) (h : List Entry) (m : Managed) (actor k : ℕ) (pulls : List Move) → Legal s workers (send actor k pulls ∷ h) → Manages s h m → Manages s (send actor k pulls ∷ h) m }
{}
