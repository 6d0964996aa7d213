//! The script in the source.

ghost use Rattle.std.specs.Prelude.{◌≡◌, ℕ, ◌+◌, ◌≤◌, true, Bool, length, IfErr, IfOk};
ghost use Rattle.model_history.specs.Ranges.{are_short, is_in_ranges};
ghost use Rattle.model_history.specs.Scripts.{script_of};
ghost use Rattle.byte_io.specs.Logs.{since};
ghost use Rattle.player_uses.specs.Refusals.{script_limit};
ghost use Rattle.player_uses.specs.Answers.{AnswersScript};
ghost use Rattle.player_uses.specs.Reading.{GivenAtMost};
ghost use Rattle.player_uses.specs.Scripts.{ScriptIn, ScriptFrom, shared_script};
ghost use Rattle.player_uses.specs.Faults.{RefusedBy, RefusedAtFault};
ghost use Rattle.player_uses.specs.inner.Parts.{JudgedParts, PartsIn};

use crate::input::read_all;
use crate::outcome::Outcome;
use byte_io::Source;
use model_history::{Script, ScriptError, ScriptParts};
use script_json::{PartsFault, read_parts};
use std::alloc::Global;
use std::sync::Arc;

/// The greatest number of bytes of a script.
pub const SCRIPT_LIMIT: usize = 16777216;

/// The parts in a text, or why there are none.
pub(crate) fn parts_in(alloc: Global, bytes: &[u8]) -> Result<ScriptParts, Outcome>
    requires { length bytes.now ≤ script_limit }
    ensures parts { PartsIn bytes.now result }
    ensures ranges { IfOk result (λ p. is_in_ranges (script_of p) ≡ true) }
    ensures short { IfOk result (λ p. are_short (script_of p).main ≡ true) }
    ensures answers { IfErr result AnswersScript }
    ensures stops { (before after : ℕ) (failed : Bool) → after ≡ before → RefusedAtFault before after failed result }
{
    match read_parts(alloc, bytes) {
        Ok(parts) => Ok(parts),
        Err(PartsFault::Json) => Err(Outcome::Json),
        Err(PartsFault::Shape(fault)) => Err(Outcome::Shape(fault)),
        Err(PartsFault::Memory(_)) => Err(Outcome::Memory),
    }
}

/// The script of these parts, to be shared, or why it is refused.
pub(crate) fn accept(alloc: Global, parts: ScriptParts) -> Result<Arc<Script>, Outcome>
    requires ranges { is_in_ranges (script_of parts) ≡ true }
    requires short { are_short (script_of parts).main ≡ true }
    ensures script { JudgedParts (script_of parts) (shared_script result) }
    ensures answers { IfErr result AnswersScript }
    ensures stops { (before after : ℕ) (failed : Bool) → after ≡ before → RefusedAtFault before after failed result }
{
    match Script::new(alloc, parts) {
        Ok(script) => match Arc::new(alloc, script) {
            Ok(shared) => Ok(shared),
            Err(_) => Err(Outcome::Memory),
        },
        Err(
            ScriptError::Command {
                frame,
                command,
                fault,
            },
        ) => Err(Outcome::Script {
            frame,
            command,
            fault,
        }),
        Err(ScriptError::Memory(_)) => Err(Outcome::Memory),
    }
}

/// The script in a text of at most [`SCRIPT_LIMIT`] bytes, to be shared, or why there is none: `Json` if the bytes are
/// no JSON text, `Shape` if their value is no script, `Script` if a command of it is refused, and `Memory`.
#[tactic(auto, using(crate::proofs::AskedShots::script_in))]
pub fn script_in(alloc: Global, bytes: &[u8]) -> Result<Arc<Script>, Outcome>
    requires { length bytes.now ≤ script_limit }
    ensures script { ScriptIn bytes.now (shared_script result) }
    ensures answers { IfErr result AnswersScript }
    ensures stops { (before after : ℕ) (failed : Bool) → after ≡ before → RefusedAtFault before after failed result }
{
    let parts = parts_in(alloc, bytes)?;
    accept(alloc, parts)
}

/// Reads the source to its end, and the script in it; or tells why there is none, as [`script_in`] does, by `TooLong` if
/// the source has more than [`SCRIPT_LIMIT`] bytes, and by `ReadFault` if it failed.
#[tactic(auto, using(crate::proofs::AskedShots::script_from, crate::proofs::StoppedReads::no_script, crate::proofs::StoppedReads::answers_script))]
pub fn read_script_from<S: Source>(alloc: Global, source: &mut S) -> Result<Arc<Script>, Outcome>
    ensures script { ScriptFrom (since (S.given source.old) (S.given source.new)) (S.has_ended source.new) (shared_script result) }
    ensures reads { GivenAtMost (script_limit + 1) (S.given source.old) (S.given source.new) }
    ensures grows { S.faults source.old ≤ S.faults source.new }
    ensures cause { RefusedBy (S.faults source.old) (S.faults source.new) result }
    ensures answers { IfErr result AnswersScript }
    ensures stops { RefusedAtFault (S.faults source.old) (S.faults source.new) (S.has_failed source.new) result }
{
    let bytes = read_all(alloc, source, SCRIPT_LIMIT)?;
    script_in(alloc, bytes.as_slice())
}
