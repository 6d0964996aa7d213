//! Which events leave the ready keys as they are, as contracts of functions that do nothing. They speak of
//! pasts, which list the newest entry first.

ghost use Rattle.std.specs.Prelude.{◌≡◌, ℕ, true, List, ◌∷◌};
ghost use Rattle.model_history.specs.declared.history.Entry.{Entry};
ghost use Rattle.model_history.specs.Scripts.{ScriptModel};
ghost use Rattle.model_history.specs.Accepted.{IsPlayable};
ghost use Rattle.model_history.specs.Legal.{Legal};
ghost use Rattle.model_steps.specs.Events.{commit};
ghost use Rattle.impl_tiles.specs.Managers.{HaveSameTiles};
ghost use Rattle.impl_choice.specs.Rebuilds.{leaves_tiles};

/// An event that sends, commits and activates no main frame and starts and ends no tile, as a scroll, a
/// wheel or an abort, leaves the keys that are ready, in flight and pinned: the pages and their stamps stay.
pub fn most_events_keep_the_tiles()
    ensures { (s : ScriptModel) (h : List Entry) (e : Entry) → leaves_tiles e.event ≡ true → HaveSameTiles s h (e ∷ h) }
{}

/// So does a commit: a tile of its tree that is ready was ready before.
pub fn commits_keep_the_tiles()
    ensures { (s : ScriptModel) (workers : ℕ) (h : List Entry) (actor k : ℕ) → IsPlayable s → Legal s workers (commit actor k ∷ h) → HaveSameTiles s h (commit actor k ∷ h) }
{}
