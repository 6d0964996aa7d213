//! The script of a number, as a text.

ghost use Rattle.std.specs.Prelude.{◌≡◌, ◌≤◌, ◌++◌, IfOk, codes};
ghost use Rattle.script_generator.specs.Generated.{script_of_number as numbered_script};
ghost use Rattle.script_json.specs.Recordings.{script_text};
ghost use Rattle.player_uses.specs.Faults.{Causes};
ghost use Rattle.player_uses.specs.Outputs.{WritesSome};

use crate::outcome::Outcome;
use byte_io::Sink;
use script_generator::script_of_number;
use script_json::print_script;
use std::alloc::{AllocError, Global};

// The canonical text of a number's script, and a newline.
fn text_of_number(alloc: Global, number: u64) -> Result<Vec<u8>, AllocError>
    ensures { IfOk result (λ text. text.items ≡ script_text (numbered_script number) ++ codes "\n") }
{
    let script = script_of_number(alloc, number)?;
    let mut text = print_script(alloc, &script)?;
    text.push(b'\n')?;
    Ok(text)
}

/// Writes the canonical text of a number's script, and a newline.
pub fn run_gen<K: Sink>(alloc: Global, number: u64, out: &mut K) -> Outcome
    ensures output { WritesSome (λ whole. whole ≡ script_text (numbered_script number) ++ codes "\n") (K.held out.old) (K.held out.new) result }
    ensures grows { K.faults out.old ≤ K.faults out.new }
    ensures cause { Causes 0 0 (K.faults out.old) (K.faults out.new) result }
{
    let Ok(text) = text_of_number(alloc, number) else {
        return Outcome::Memory;
    };
    match out.put(text.as_slice()) {
        Ok(()) => Outcome::Done,
        Err(fault) => Outcome::from(fault),
    }
}
