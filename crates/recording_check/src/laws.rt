//! Laws of recordings.

ghost use Rattle.std.specs.Prelude.{◌≡◌, ℕ, ◌≤◌, List, [], ◌∷◌, ◌++◌};
ghost use Rattle.model_history.specs.declared.event.Event.TheVariants as event;
ghost use Rattle.model_history.specs.declared.history.Entry.{Entry};
ghost use Rattle.model_history.specs.Accepted.{IsAccepted, IsPlayable};
ghost use Rattle.model_history.specs.FrameLaws.{AtEach};
ghost use Rattle.model_history.specs.Legal.{Legal, IsLegal};
ghost use Rattle.model_history.specs.Scripts.{ScriptModel};
ghost use Rattle.script_json.specs.Recordings.{recording};
ghost use Rattle.recording_check.specs.Painted.{ArePainted, IsOver};
ghost use Rattle.recording_check.specs.Recordings.{IsRecording, IsBadAt};
ghost use Rattle.recording_check.specs.Verdicts.{IsFirstWrongEvent, IsLegalRecording};
ghost use Rattle.recording_text.specs.Fits.{FitsEvent};
ghost use Rattle.recording_text.specs.Pieces.{Piece, entries};

/// A recording is read in one way: bytes are that of one script, and of one list of events and images, at
/// most.
pub fn a_recording_has_one_reading()
    ensures { (bytes : List ℕ) (s t : ScriptModel) (ps qs : List Piece) → IsRecording bytes s ps → IsRecording bytes t qs → (s ≡ t) × (ps ≡ qs) }
{}

/// What is read as a recording, and whose images are the painting, is the recording of that script and
/// that history.
pub fn painted_recordings_are_recordings()
    ensures { (bytes : List ℕ) (s : ScriptModel) (ps : List Piece) → IsRecording bytes s ps → ArePainted s [] ps → bytes ≡ recording s (entries ps) }
{}

/// The bytes of a recording fix script and history: those of an accepted script and of a history that is over.
pub fn recordings_fix_script_and_history()
    ensures { (s t : ScriptModel) (g h : List Entry) → IsAccepted s → IsAccepted t → IsOver s g → IsOver t h → recording s g ≡ recording t h → (s ≡ t) × (g ≡ h) }
{}

/// A recording has no part that is not of its form: the two answers of a reader exclude each other.
pub fn a_recording_has_no_bad_part()
    ensures { (bytes : List ℕ) (s : ScriptModel) (ps : List Piece) (place : ℕ) → IsRecording bytes s ps → IsBadAt bytes place → ⊥ }
{}

/// What [`check`](crate::check) may answer excludes each other: the recording of a legal history has no first
/// event that is wrong and no part that is not of its form, nor have bytes both of these.
pub fn verdicts_exclude_each_other()
    ensures legal_not_wrong { (workers event : ℕ) (bytes : List ℕ) → IsLegalRecording workers bytes → IsFirstWrongEvent workers bytes event → ⊥ }
    ensures legal_not_bad { (workers place : ℕ) (bytes : List ℕ) → IsLegalRecording workers bytes → IsBadAt bytes place → ⊥ }
    ensures wrong_not_bad { (workers event place : ℕ) (bytes : List ℕ) → IsFirstWrongEvent workers bytes event → IsBadAt bytes place → ⊥ }
{}

/// What is refused is told in one way: at most one place is that of the first part that is not of its form,
/// and at most one event is the first that is wrong.
pub fn a_refusal_has_one_place()
    ensures bad { (bytes : List ℕ) (place other : ℕ) → IsBadAt bytes place → IsBadAt bytes other → place ≡ other }
    ensures wrong { (workers event other : ℕ) (bytes : List ℕ) → IsFirstWrongEvent workers bytes event → IsFirstWrongEvent workers bytes other → event ≡ other }
{}

/// The events of a legal past of a playable script fit the format: each number that they name fits the
/// type of its field. With more than 65,536 workers a worker's number might not.
pub fn legal_events_fit()
    ensures { (s : ScriptModel) (workers : ℕ) (past : List Entry) → IsPlayable s → workers ≤ 65536 → Legal s workers past → AtEach (λ before entry. FitsEvent entry.event) past }
{}

/// What is written is what [`check`](crate::check) takes: the recording of an accepted script and of a history
/// that is legal for it and for at most 16 workers, and that the end closes, is a legal recording.
pub fn legal_histories_make_legal_recordings()
    ensures { (s : ScriptModel) (workers : ℕ) (before : List Entry) → IsAccepted s → workers ≤ 16 → IsLegal s workers (before ++ record { actor = 0; event = event.End } ∷ []) → IsLegalRecording 16 (recording s (before ++ record { actor = 0; event = event.End } ∷ [])) }
{}
