//! Inputs, one at a time.

ghost use Rattle.std.specs.Prelude.{◌≡◌, ◌<◌, ◌≤◌, length, Some, None, Ok, Err, IfOk, OnOk};
ghost use Rattle.serde_json.specs.Data.{Data, Items, array};
ghost use Rattle.script_fields.specs.Tokens.{first_value};
ghost use Rattle.script_json.specs.Faults.{placed};
ghost use Rattle.script_json.specs.InputReading.{input_at, inputs_at};

use super::frames::open_array;
use crate::halt::Halt;
use crate::limits::MOST_INPUTS;
use crate::read::inputs::{draws_after, placed_input};
use json::Reader;
use model_history::Input;
use script_fields::read_value;
use std::alloc::Global;

// The input that stands next, at a place of the list, after the given number of draws.
fn next_input(alloc: Global, draws: u32, index: u32, reader: &mut Reader<'_>) -> Result<Input, Halt>
    ensures read { IfOk result (λ x. (d : Data) × (first_value 125 reader.old ≡ Some (d, reader.new)) × (placed 1 index (input_at 4294967295 draws d) ≡ Ok x)) }
    ensures shorter { OnOk result (length reader.new < length reader.old) }
    ensures refused { result ≡ Err Halt.Json → first_value 125 reader.old ≡ None }
{
    let value = read_value(alloc, reader, 125)?;
    match placed_input(u32::MAX, draws, index, &value) {
        Ok(input) => Ok(input),
        Err(_) => Err(Halt::Fault),
    }
}

/// The inputs that stand next, as those of a script of 4,294,967,295 main frames.
pub(super) fn next_inputs(alloc: Global, reader: &mut Reader<'_>) -> Result<Vec<Input>, Halt>
    ensures read { IfOk result (λ v. (ds : Items) × (first_value 126 reader.old ≡ Some (array ds, reader.new)) × (inputs_at 4294967295 0 0 ds ≡ Ok v.items)) }
    ensures shorter { OnOk result (length reader.new < length reader.old) }
    ensures refused { result ≡ Err Halt.Json → first_value 126 reader.old ≡ None }
    ensures few { IfOk result (λ v. length v.items ≤ 65536) }
{
    open_array(reader)?;
    let mut inputs = Vec::new(alloc);
    let mut index = 0;
    let mut draws = 0;
    'inputs: while !reader.take_end_array() {
        if index == MOST_INPUTS {
            return Err(Halt::Fault);
        }
        let input = next_input(alloc, draws, index, reader)?;
        draws = draws_after(draws, input);
        inputs.push(input)?;
        index += 1;
    }
    inputs.shrink_to_fit();
    Ok(inputs)
}
