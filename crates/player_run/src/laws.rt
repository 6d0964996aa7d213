//! Laws of what [`run`](crate::run) writes.

ghost use Rattle.std.specs.Prelude.{◌≡◌, ℕ, ◌≤◌, pos, List, []};
ghost use Rattle.page_layers.specs.Axes.{Axis};
ghost use Rattle.model_history.specs.declared.history.Entry.{Entry};
ghost use Rattle.model_history.specs.FrameLaws.{AtEach};
ghost use Rattle.model_history.specs.Legal.{Legal};
ghost use Rattle.model_history.specs.Scripts.{ScriptModel};
ghost use Rattle.model_history.specs.Scrolls.{offset};
ghost use Rattle.recording_check.specs.Verdicts.{IsLegalRecording};
ghost use Rattle.recording_writer.specs.Files.{IsFileOf};
ghost use Rattle.player_run.specs.Runs.{IsOutput};
ghost use Rattle.player_run.specs.Scrolled.{MovesOnce};
ghost use Rattle.player_uses.specs.declared.words.Use.TheVariants.{Step, Play, Film, Shot};

/// What `step N` and `play N` write in all is the recording of a legal history, which `check` takes if it is within
/// its limit, whatever the source tells.
pub fn written_recordings_are_legal()
    ensures step { (workers : ℕ) (bytes whole : List ℕ) → workers ≤ 16 → IsOutput (Step workers) bytes whole → IsLegalRecording 16 whole }
    ensures play { (workers : ℕ) (bytes whole : List ℕ) → workers ≤ 16 → IsOutput (Play workers) bytes whole → IsLegalRecording 16 whole }
{}

/// What `step N` and `film N` write in all, if they are done, depends on the bytes of the source alone: it is the same
/// for every N. The files of `shot N` are of one image for every N.
pub fn outputs_are_one()
    ensures step { (n m : ℕ) (bytes v w : List ℕ) → IsOutput (Step n) bytes v → IsOutput (Step m) bytes w → v ≡ w }
    ensures film { (n m : ℕ) (bytes v w : List ℕ) → IsOutput (Film n) bytes v → IsOutput (Film m) bytes w → v ≡ w }
    ensures shot { (n m : ℕ) (bytes v w : List ℕ) → IsOutput (Shot n) bytes v → IsOutput (Shot m) bytes w → (image : List ℕ) × IsFileOf image v × IsFileOf image w }
{}

/// A scroller stands at 0 before the first entry of a history. Each entry of a legal past then moves it by the move of
/// it that the entry accepts, and an activation also by the main moves of the frames that become active with it. So
/// each accepted move counts once, at its event, and nothing else moves a scroller.
pub fn each_entry_moves_once()
    ensures first { (s : ScriptModel) (sc : ℕ) (ax : Axis) → offset s [] sc ax ≡ pos 0 }
    ensures each { (s : ScriptModel) (workers : ℕ) (h : List Entry) → Legal s workers h → AtEach (MovesOnce s) h }
{}
