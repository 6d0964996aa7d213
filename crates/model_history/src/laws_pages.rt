//! Laws of the pages of a run, as contracts of functions that do nothing.

ghost use Rattle.std.specs.Prelude.{◌≡◌, ℕ, suc, ◌<◌, ◌≤◌, pos, true, false, List, [], ◌∷◌};
ghost use Rattle.page_layers.specs.Scrolls.{clamp_to};
ghost use Rattle.model_history.specs.Scripts.{ScriptModel};
ghost use Rattle.model_history.specs.declared.history.Entry.{Entry};
ghost use Rattle.page_layers.specs.declared.moves.Move.{Move};
ghost use Rattle.model_history.specs.EventFields.{sends};
ghost use Rattle.model_history.specs.Scans.{counted};
ghost use Rattle.page_layers.specs.Axes.{Axis};
ghost use Rattle.page_layers.specs.Scrollers.{has_scroller, most, main_value};
ghost use Rattle.page_layers.specs.Effects.{page_after_pulls};
ghost use Rattle.model_history.specs.Frames.{commands_of, page, page_before, main_move, changes, pulls_of};
ghost use Rattle.model_history.specs.Accepted.{IsAccepted, IsPlayable, TakesAll};
ghost use Rattle.model_history.specs.Legal.{Legal};

/// The page after n frames depends on the pulls of these frames alone, and with other pulls only its
/// main values are others. So what comes later leaves the pages of the frames that were sent as they
/// are.
pub fn pages_depend_on_earlier_pulls()
    ensures pulls { (s : ScriptModel) (ps qs : ℕ → List Move) (n : ℕ) → ((k : ℕ) → k < n → ps k ≡ qs k) → page s ps n ≡ page s qs n }
    ensures values { (s : ScriptModel) (ps qs : ℕ → List Move) (n : ℕ) → page s ps n ≡ record (page s qs n) { values = (page s ps n).values } }
    ensures stay { (s : ScriptModel) (workers : ℕ) (e : Entry) (h : List Entry) (n : ℕ) → Legal s workers (e ∷ h) → n ≤ counted sends h → page s (pulls_of (e ∷ h)) n ≡ page s (pulls_of h) n }
{}

/// In every page of every script each main value is in its scroller's range, and each scroller is one
/// of all later pages.
pub fn main_values_are_in_range()
    ensures values { (s : ScriptModel) (ps : ℕ → List Move) (n sc : ℕ) (ax : Axis) → clamp_to (most (page s ps n) sc ax) (main_value (page s ps n) sc ax) ≡ main_value (page s ps n) sc ax }
    ensures scrollers { (s : ScriptModel) (ps : ℕ → List Move) (m n sc : ℕ) → m ≤ n → has_scroller (page s ps m) sc ≡ true → has_scroller (page s ps n) sc ≡ true }
{}

/// A frame that changes nothing has no command and no main move of any scroller: its page is the one
/// before it with its pulls.
pub fn unchanged_frames_do_nothing()
    ensures commands { (s : ScriptModel) (ps : ℕ → List Move) (k : ℕ) → changes s ps k ≡ false → commands_of s k ≡ [] }
    ensures moves { (s : ScriptModel) (ps : ℕ → List Move) (k sc : ℕ) (ax : Axis) → changes s ps k ≡ false → main_move s ps k sc ax ≡ pos 0 }
    ensures page { (s : ScriptModel) (ps : ℕ → List Move) (k : ℕ) → changes s ps k ≡ false → page s ps (suc k) ≡ page_after_pulls (ps k) (page s ps k) }
{}

/// Every accepted script can be played.
pub fn accepted_scripts_are_playable()
    ensures { (s : ScriptModel) → IsAccepted s → IsPlayable s }
{}

/// The commands of a playable script are taken whatever was pulled.
pub fn playable_commands_are_taken()
    ensures { (s : ScriptModel) (ps : ℕ → List Move) (k : ℕ) → IsPlayable s → TakesAll (page_before s ps k) (commands_of s k) }
{}
