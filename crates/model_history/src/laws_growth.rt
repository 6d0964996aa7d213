//! Laws of scripts that are told while they are played, as contracts of functions that do nothing.

ghost use Rattle.std.specs.Prelude.{◌≡◌, ℕ, suc, ◌<◌, ◌-◌, ◌^◌, nat_lt, true, false, List, [], ◌∷◌, ◌++◌, length};
ghost use Rattle.std.specs.List.{list_all};
ghost use Rattle.model_states.specs.Kinds.{is_sent};
ghost use Rattle.page_layers.specs.declared.command.Command.{Command};
ghost use Rattle.page_layers.specs.declared.moves.Move.{Move};
ghost use Rattle.model_history.specs.declared.input.Input.{Input};
ghost use Rattle.model_history.specs.declared.history.Entry.{Entry};
ghost use Rattle.model_history.specs.Scripts.{ScriptModel};
ghost use Rattle.model_history.specs.Accepted.{IsAccepted, IsPlayable, TakesAll};
ghost use Rattle.model_history.specs.Frames.{page_before};
ghost use Rattle.model_history.specs.Ranges.{command_in_range, input_in_range, is_in_ranges, are_short};
ghost use Rattle.model_history.specs.EventFields.{answers};
ghost use Rattle.model_history.specs.Scans.{counted};
ghost use Rattle.model_history.specs.Legal.{sched, Legal};
ghost use Rattle.model_history.specs.Growth.{with_main_and_inputs, with_input, with_main_frame, with_last, with_commands, has_looked_ahead, ReadsAlike, TellsAlike};

/// A past that is legal for a script is legal for every script of the same settings that it has read
/// alike, and tells the same of both. So a script may be told while it is played: an input until it is
/// used, and the commands of a main frame until the frame is answered. The past must hold no end and no
/// impl frame for a main frame alone, since these come only if something is not said.
pub fn what_was_legal_stays_legal()
    ensures legal { (s : ScriptModel) (workers : ℕ) (h : List Entry) (main : List (List Command)) (inputs : List Input) → Legal s workers h → has_looked_ahead h ≡ false → ReadsAlike s h main inputs → Legal (with_main_and_inputs s main inputs) workers h }
    ensures tells { (s : ScriptModel) (workers : ℕ) (h : List Entry) (main : List (List Command)) (inputs : List Input) → Legal s workers h → has_looked_ahead h ≡ false → ReadsAlike s h main inputs → TellsAlike s (with_main_and_inputs s main inputs) h }
{}

/// A script may have one input more.
pub fn an_input_may_follow()
    ensures reads { (s : ScriptModel) (workers : ℕ) (h : List Entry) (x : Input) → Legal s workers h → ReadsAlike s h s.main (s.inputs ++ x ∷ []) }
    ensures legal { (s : ScriptModel) (workers : ℕ) (h : List Entry) (x : Input) → Legal s workers h → has_looked_ahead h ≡ false → Legal (with_input s x) workers h }
    ensures tells { (s : ScriptModel) (workers : ℕ) (h : List Entry) (x : Input) → Legal s workers h → has_looked_ahead h ≡ false → TellsAlike s (with_input s x) h }
{}

/// A script may have one main frame more.
pub fn a_main_frame_may_follow()
    ensures reads { (s : ScriptModel) (workers : ℕ) (h : List Entry) → Legal s workers h → ReadsAlike s h (s.main ++ [] ∷ []) s.inputs }
    ensures legal { (s : ScriptModel) (workers : ℕ) (h : List Entry) → Legal s workers h → has_looked_ahead h ≡ false → Legal (with_main_frame s) workers h }
    ensures tells { (s : ScriptModel) (workers : ℕ) (h : List Entry) → Legal s workers h → has_looked_ahead h ≡ false → TellsAlike s (with_main_frame s) h }
{}

/// The last main frame may have other commands while it is not answered: so it is while a main frame is
/// sent and waits for its answer.
pub fn commands_may_follow_their_frame()
    ensures waits { (s : ScriptModel) (workers : ℕ) (h : List Entry) → Legal s workers h → is_sent (sched h).main_state ≡ true → counted answers h < length s.main }
    ensures reads { (s : ScriptModel) (workers : ℕ) (h : List Entry) (cs : List Command) → Legal s workers h → counted answers h < length s.main → ReadsAlike s h (with_last cs s.main) s.inputs }
    ensures legal { (s : ScriptModel) (workers : ℕ) (h : List Entry) (cs : List Command) → Legal s workers h → has_looked_ahead h ≡ false → counted answers h < length s.main → Legal (with_commands s cs) workers h }
    ensures tells { (s : ScriptModel) (workers : ℕ) (h : List Entry) (cs : List Command) → Legal s workers h → has_looked_ahead h ≡ false → counted answers h < length s.main → TellsAlike s (with_commands s cs) h }
{}

/// An accepted script that grows within the format's ranges is accepted: with one input more, with one main frame more,
/// and with other commands of its last main frame that the page before this frame takes, whatever was pulled.
pub fn grown_scripts_are_accepted()
    ensures input { (s : ScriptModel) (x : Input) → IsAccepted s → is_in_ranges (with_input s x) ≡ true → IsAccepted (with_input s x) }
    ensures main_frame { (s : ScriptModel) → IsAccepted s → is_in_ranges (with_main_frame s) ≡ true → IsAccepted (with_main_frame s) }
    ensures commands { (s : ScriptModel) (pulls : ℕ → List Move) (k : ℕ) (cs : List Command) → IsAccepted s → suc k ≡ length s.main → list_all (command_in_range s.version) cs ≡ true → TakesAll (page_before s pulls k) cs → IsAccepted (with_commands s cs) }
    ensures short { (s : ScriptModel) (cs : List Command) → are_short s.main ≡ true → nat_lt (length cs) 4294967296 ≡ true → are_short (with_commands s cs).main ≡ true }
{}

/// A playable script that grows is playable, as long as its inputs and its main frames can be counted in 32 bits: with
/// one input more whose numbers are in their ranges, with one main frame more, and with other commands of its last main
/// frame that the page before this frame takes, whatever was pulled.
pub fn grown_scripts_are_playable()
    ensures input { (s : ScriptModel) (x : Input) → IsPlayable s → suc (length s.inputs) < 2 ^ 32 - 1 → input_in_range (length s.main) x ≡ true → IsPlayable (with_input s x) }
    ensures main_frame { (s : ScriptModel) → IsPlayable s → suc (length s.main) < 2 ^ 32 - 1 → IsPlayable (with_main_frame s) }
    ensures commands { (s : ScriptModel) (pulls : ℕ → List Move) (k : ℕ) (cs : List Command) → IsPlayable s → suc k ≡ length s.main → TakesAll (page_before s pulls k) cs → IsPlayable (with_commands s cs) }
{}
