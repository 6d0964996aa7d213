//! Laws of reading and printing.

ghost use Rattle.std.specs.Prelude.{◌≡◌, ℕ, List, true, Ok, Result};
ghost use Rattle.serde_json.specs.Data.{Data};
ghost use Rattle.model_history.specs.declared.history.Entry.{Entry};
ghost use Rattle.model_history.specs.Ranges.{is_in_ranges};
ghost use Rattle.model_history.specs.Scripts.{ScriptModel};
ghost use Rattle.model_history.specs.Accepted.{IsAccepted};
ghost use Rattle.script_json.specs.declared.text_fault.TextFault.{TextFault};
ghost use Rattle.script_json.specs.Causes.{IsSaid, IsCanonicalText, IsScriptText, ScriptCause, IsTold};
ghost use Rattle.script_json.specs.Reading.{parts_at};
ghost use Rattle.script_json.specs.Recordings.{IsRecordingOf, script_text, recording};
ghost use Rattle.script_json.specs.ScriptValue.{parts_data};

/// The value of each script that the format can say reads back as that script. So a script has one
/// canonical text, and two scripts with the same canonical text are one.
pub fn canonical_values_read_back()
    ensures { (s : ScriptModel) → is_in_ranges s ≡ true → parts_at (parts_data s) ≡ Ok s }
{}

/// What is read is a script that the format can say.
pub fn parts_are_in_ranges()
    ensures { (d : Data) (s : ScriptModel) → parts_at d ≡ Ok s → is_in_ranges s ≡ true }
{}

/// A script that the format can say has one canonical text, the one that is printed; so the recording of
/// such a script and a history is the printed one, and no other bytes are.
pub fn a_script_has_one_canonical_text()
    ensures printed { (s : ScriptModel) → is_in_ranges s ≡ true → IsCanonicalText (script_text s) s }
    ensures one { (bytes : List ℕ) (s : ScriptModel) → IsCanonicalText bytes s → bytes ≡ script_text s }
    ensures recorded { (s : ScriptModel) (history : List Entry) → is_in_ranges s ≡ true → IsRecordingOf s history (recording s history) }
    ensures one_recording { (bytes : List ℕ) (s : ScriptModel) (history : List Entry) → IsRecordingOf s history bytes → bytes ≡ recording s history }
{}

/// The canonical text of a script that the format can say is a JSON text of it.
pub fn canonical_texts_read_back()
    ensures { (s : ScriptModel) → is_in_ranges s ≡ true → IsScriptText (script_text s) s }
{}

/// Some JSON value says a script exactly if its numbers are in their ranges.
pub fn what_is_said_is_in_ranges()
    ensures ranges { (s : ScriptModel) → IsSaid s → is_in_ranges s ≡ true }
    ensures said { (s : ScriptModel) → is_in_ranges s ≡ true → IsSaid s }
{}

/// Bytes are the text of one script at most.
pub fn a_text_has_one_script()
    ensures { (bytes : List ℕ) (s t : ScriptModel) → IsScriptText bytes s → IsScriptText bytes t → s ≡ t }
{}

/// Bytes have one answer: the script that they are, or one fault. So if they are no JSON, have a
/// fault of shape or a refused command, `read_script` tells so, and nowhere else.
pub fn a_text_has_one_answer()
    ensures { (bytes : List ℕ) (r q : Result ScriptModel TextFault) → IsTold r → IsTold q → ScriptCause bytes r → ScriptCause bytes q → r ≡ q }
{}

/// The value of each accepted script reads back as that script.
pub fn accepted_scripts_read_back()
    ensures { (s : ScriptModel) → IsAccepted s → parts_at (parts_data s) ≡ Ok s }
{}
