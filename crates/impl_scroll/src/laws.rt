//! How large values are, as a contract of a function that does nothing. It speaks of pasts, which list
//! the newest entry first.

ghost use Rattle.std.specs.Prelude.{ℕ, List};
ghost use Rattle.model_states.specs.Bounds.{IsBounded};
ghost use Rattle.model_states.specs.Table.{activated};
ghost use Rattle.page_layers.specs.Axes.{Axis};
ghost use Rattle.model_history.specs.declared.history.Entry.{Entry};
ghost use Rattle.model_history.specs.Scripts.{ScriptModel};
ghost use Rattle.model_history.specs.Values.{values};
ghost use Rattle.model_history.specs.Accepted.{IsPlayable};
ghost use Rattle.model_history.specs.Legal.{Legal};

/// In a legal past of a playable script the five values stay within the bounds of every step when they
/// are activated, so that a move may then be added.
pub fn activated_values_are_bounded()
    ensures { (s : ScriptModel) (workers : ℕ) (h : List Entry) (sc : ℕ) (ax : Axis) → IsPlayable s → Legal s workers h → IsBounded (activated (values s sc ax h)) }
{}
