//! Main frames, one command at a time.

ghost use Rattle.std.specs.Prelude.{◌≡◌, ◌≢◌, ◌∷◌, ◌<◌, ◌≤◌, length, map, true, nat_lt, Some, None, Ok, Err, IfOk, OnOk};
ghost use Rattle.json.specs.Token.{begin_array};
ghost use Rattle.serde_json.specs.Data.{Data, Items, array};
ghost use Rattle.model_history.specs.Ranges.{are_short};
ghost use Rattle.script_fields.specs.Tokens.{first_value};
ghost use Rattle.script_json.specs.Faults.{placed};
ghost use Rattle.script_json.specs.CommandReading.{command_at, frame_at, frames_at};

use crate::halt::Halt;
use crate::limits::MOST_FRAMES;
use crate::read::commands::placed_command;
use json::{Reader, Token};
use page_layers::Command;
use script_fields::read_value;
use std::alloc::Global;

/// Takes the opening bracket of an array.
pub(super) fn open_array(reader: &mut Reader<'_>) -> Result<(), Halt>
    ensures opened { OnOk result (reader.old ≡ begin_array ∷ reader.new) }
    ensures fault { result ≢ Err Halt.Json }
{
    match reader.next() {
        Some(Token::BeginArray) => Ok(()),
        _ => Err(Halt::Fault),
    }
}

// The command that stands next, at a place of a main frame.
fn next_command(
    alloc: Global,
    list: u32,
    index: u32,
    reader: &mut Reader<'_>,
) -> Result<Command, Halt>
    ensures read { IfOk result (λ c. (d : Data) × (first_value 124 reader.old ≡ Some (d, reader.new)) × (placed list index (command_at 2 d) ≡ Ok c)) }
    ensures shorter { OnOk result (length reader.new < length reader.old) }
    ensures refused { result ≡ Err Halt.Json → first_value 124 reader.old ≡ None }
{
    let value = read_value(alloc, reader, 124)?;
    match placed_command(alloc, 2, list, index, &value) {
        Ok(command) => Ok(command),
        Err(stop) => Err(Halt::from(stop)),
    }
}

// The main frame that stands next.
fn next_frame(alloc: Global, list: u32, reader: &mut Reader<'_>) -> Result<Vec<Command>, Halt>
    ensures read { IfOk result (λ v. (d : Data) × (first_value 125 reader.old ≡ Some (d, reader.new)) × (frame_at 2 list d ≡ Ok v.items)) }
    ensures shorter { OnOk result (length reader.new < length reader.old) }
    ensures refused { result ≡ Err Halt.Json → first_value 125 reader.old ≡ None }
    ensures short { IfOk result (λ v. nat_lt (length v.items) 4294967296 ≡ true) }
{
    open_array(reader)?;
    let mut commands = Vec::new(alloc);
    let mut index = 0;
    'commands: while !reader.take_end_array() {
        if index == u32::MAX {
            return Err(Halt::Fault);
        }
        let command = next_command(alloc, list, index, reader)?;
        commands.push(command)?;
        index += 1;
    }
    commands.shrink_to_fit();
    Ok(commands)
}

/// The main frames that stand next.
pub(super) fn next_frames(alloc: Global, reader: &mut Reader<'_>) -> Result<Vec<Vec<Command>>, Halt>
    ensures read { IfOk result (λ v. (ds : Items) × (first_value 126 reader.old ≡ Some (array ds, reader.new)) × (frames_at 2 2 ds ≡ Ok (map (λ frame. frame.items) v.items))) }
    ensures shorter { OnOk result (length reader.new < length reader.old) }
    ensures refused { result ≡ Err Halt.Json → first_value 126 reader.old ≡ None }
    ensures few { IfOk result (λ v. length v.items ≤ 4096) }
    ensures short { IfOk result (λ v. are_short (map (λ frame. frame.items) v.items) ≡ true) }
{
    open_array(reader)?;
    let mut frames = Vec::new(alloc);
    let mut list = 2;
    'frames: while !reader.take_end_array() {
        if list == MOST_FRAMES + 2 {
            return Err(Halt::Fault);
        }
        let frame = next_frame(alloc, list, reader)?;
        frames.push(frame)?;
        list += 1;
    }
    Ok(frames)
}
