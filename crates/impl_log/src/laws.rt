//! How long runs are, as contracts of functions that do nothing. They speak of pasts, which list the
//! newest entry first.

ghost use Rattle.std.specs.Prelude.{ℕ, ◌≤◌, List, length};
ghost use Rattle.model_history.specs.declared.history.Entry.{Entry};
ghost use Rattle.model_history.specs.Scripts.{ScriptModel};
ghost use Rattle.model_history.specs.EventFields.{uses, sends};
ghost use Rattle.model_history.specs.Scans.{counted};
ghost use Rattle.model_history.specs.Tiles.{in_flight};
ghost use Rattle.model_history.specs.Legal.{Legal};

/// A legal run uses no more inputs and sends no more main frames than its script has, and at no time are
/// more tiles in flight than there are workers.
pub fn runs_are_short()
    ensures inputs { (s : ScriptModel) (workers : ℕ) (h : List Entry) → Legal s workers h → counted uses h ≤ length s.inputs }
    ensures sends { (s : ScriptModel) (workers : ℕ) (h : List Entry) → Legal s workers h → counted sends h ≤ length s.main }
    ensures in_flight { (s : ScriptModel) (workers : ℕ) (h : List Entry) → Legal s workers h → length (in_flight h) ≤ workers }
{}
