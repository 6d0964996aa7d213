//! The script in the source, asked for a picture.

ghost use Rattle.std.specs.Prelude.{◌≡◌, ℕ, ◌+◌, ◌≤◌, true, Bool, length, IfErr, IfOk};
ghost use Rattle.model_history.specs.Ranges.{are_short, is_in_ranges};
ghost use Rattle.model_history.specs.Scripts.{script_of};
ghost use Rattle.byte_io.specs.Logs.{since};
ghost use Rattle.player_uses.specs.Refusals.{script_limit};
ghost use Rattle.player_uses.specs.Answers.{AnswersScript};
ghost use Rattle.player_uses.specs.Reading.{GivenAtMost};
ghost use Rattle.player_uses.specs.Scripts.{shared_script};
ghost use Rattle.player_uses.specs.Shots.{picture_inputs, shot_inputs, with_shot, ShotFrom};
ghost use Rattle.player_uses.specs.Faults.{RefusedBy, RefusedAtFault};
ghost use Rattle.player_uses.specs.inner.Shots.{JudgedShot, ShotIn};

use crate::input::read_all;
use crate::outcome::Outcome;
use crate::script_input::{SCRIPT_LIMIT, accept, parts_in};
use byte_io::Source;
use model_history::{Input, Script, ScriptParts};
use std::alloc::{AllocError, Global};
use std::mem;
use std::sync::Arc;

// What asks for a picture of a page after this number of main frames.
fn inputs_for(alloc: Global, frames: u32) -> Result<Vec<Input>, AllocError>
    ensures { IfOk result (λ inputs. inputs.items ≡ picture_inputs frames) }
{
    let mut inputs = Vec::new(alloc);
    if let Some(last) = frames.checked_sub(1) {
        inputs.push(Input::Await { frame: last })?;
    }
    inputs.push(Input::Settle)?;
    inputs.push(Input::Draw)?;
    Ok(inputs)
}

// These inputs; if there is none, those that ask for a picture of a page after this number of main frames.
fn inputs_or_shot(alloc: Global, frames: u32, inputs: Vec<Input>) -> Result<Vec<Input>, AllocError>
    ensures { IfOk result (λ asked. asked.items ≡ shot_inputs frames inputs.items) }
{
    if inputs.is_empty() {
        inputs_for(alloc, frames)
    } else {
        Ok(inputs)
    }
}

// The parts of a script, asked for its picture if they ask for nothing.
#[tactic(auto, using(crate::proofs::AskedScripts::count_fits, crate::proofs::AskedScripts::asked_parts))]
fn asked(alloc: Global, mut parts: ScriptParts) -> Result<ScriptParts, AllocError>
    requires { is_in_ranges (script_of parts) ≡ true }
    ensures { IfOk result (λ p. script_of p ≡ with_shot (script_of parts)) }
{
    let frames = parts.main.len() as u32;
    let own = mem::replace(&mut parts.inputs, Vec::new(alloc));
    parts.inputs = inputs_or_shot(alloc, frames, own)?;
    Ok(parts)
}

// The script of these parts, asked for its picture; or why it is refused.
#[tactic(auto, using(crate::proofs::AskedShots::asked_judged))]
fn shot_of(alloc: Global, parts: ScriptParts) -> Result<Arc<Script>, Outcome>
    requires ranges { is_in_ranges (script_of parts) ≡ true }
    requires short { are_short (script_of parts).main ≡ true }
    ensures script { JudgedShot (script_of parts) (shared_script result) }
    ensures answers { IfErr result AnswersScript }
    ensures stops { (before after : ℕ) (failed : Bool) → after ≡ before → RefusedAtFault before after failed result }
{
    let Ok(asked) = asked(alloc, parts) else {
        return Err(Outcome::Memory);
    };
    accept(alloc, asked)
}

// The script in a text, asked for its picture; or why there is none.
#[tactic(auto, using(crate::proofs::AskedShots::shot_in))]
fn shot_in(alloc: Global, bytes: &[u8]) -> Result<Arc<Script>, Outcome>
    requires { length bytes.now ≤ script_limit }
    ensures script { ShotIn bytes.now (shared_script result) }
    ensures answers { IfErr result AnswersScript }
    ensures stops { (before after : ℕ) (failed : Bool) → after ≡ before → RefusedAtFault before after failed result }
{
    let parts = parts_in(alloc, bytes)?;
    shot_of(alloc, parts)
}

/// Reads the source to its end, and the script in it, asked for its picture if it asks for nothing; or tells why there
/// is none, as [`read_script_from`](crate::read_script_from) does.
#[tactic(auto, using(crate::proofs::AskedShots::shot_from, crate::proofs::StoppedReads::no_script, crate::proofs::StoppedReads::answers_script))]
pub fn read_shot_from<S: Source>(alloc: Global, source: &mut S) -> Result<Arc<Script>, Outcome>
    ensures script { ShotFrom (since (S.given source.old) (S.given source.new)) (S.has_ended source.new) (shared_script result) }
    ensures reads { GivenAtMost (script_limit + 1) (S.given source.old) (S.given source.new) }
    ensures grows { S.faults source.old ≤ S.faults source.new }
    ensures cause { RefusedBy (S.faults source.old) (S.faults source.new) result }
    ensures answers { IfErr result AnswersScript }
    ensures stops { RefusedAtFault (S.faults source.old) (S.faults source.new) (S.has_failed source.new) result }
{
    let bytes = read_all(alloc, source, SCRIPT_LIMIT)?;
    shot_in(alloc, bytes.as_slice())
}
