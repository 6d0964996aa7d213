//! Commands and main frames, out of their JSON values.

ghost use Rattle.std.specs.Prelude.{◌≡◌, ◌<◌, ◌+◌, ◌≤◌, length, map, nat_lt, true, IfOk, vec_len};
ghost use Rattle.model_history.specs.Ranges.{are_short};
ghost use Rattle.serde_json.specs.View.{view, items_view};
ghost use Rattle.script_json.specs.Faults.{GivesPart, placed};
ghost use Rattle.script_json.specs.CommandReading.{command_at, commands_at, frame_at, frames_at};

use crate::command::read_command;
use crate::fault::{ShapeFault, Stop};
use page_layers::Command;
use script_fields::Trouble;
use serde_json::Value;
use std::alloc::{AllocError, Global};

/// The command at a place of a main frame.
pub(super) fn placed_command(
    alloc: Global,
    version: u32,
    list: u32,
    index: u32,
    value: &Value,
) -> Result<Command, Stop>
    ensures { GivesPart (λ x. x) result (placed list index (command_at version (view value.now))) }
{
    match read_command(alloc, version, value) {
        Ok(command) => Ok(command),
        Err(Trouble::Fault(fault)) => Err(Stop::Fault(ShapeFault {
            list,
            index,
            field: fault.field,
        })),
        Err(Trouble::Memory(refused)) => Err(Stop::Memory(refused)),
    }
}

// The commands of a main frame. A frame of 2^32 commands or more has places that no number of 32
// bits tells; it is answered as if there were no memory. A text of fewer bytes has no such frame.
fn commands(alloc: Global, version: u32, list: u32, values: &[Value]) -> Result<Vec<Command>, Stop>
    ensures value { GivesPart (λ v. v.items) result (commands_at version list 0 (items_view values.now)) }
    ensures short { IfOk result (λ v. nat_lt (length v.items) 4294967296 ≡ true) }
{
    if values.len() > u32::MAX as usize {
        return Err(Stop::Memory(AllocError));
    }
    let mut commands = Vec::with_capacity(alloc, values.len())?;
    for (index, value) in values.iter().enumerate() {
        match placed_command(alloc, version, list, index as u32, value) {
            Ok(command) => commands.push(command).map_err(AllocError::from)?,
            Err(stop) => return Err(stop),
        }
    }
    Ok(commands)
}

// A main frame; a value that is no list is a fault of field 98.
#[tactic(auto, unfolding(crate::specs::CommandReading::frame_at))]
fn frame(alloc: Global, version: u32, list: u32, value: &Value) -> Result<Vec<Command>, Stop>
    ensures value { GivesPart (λ v. v.items) result (frame_at version list (view value.now)) }
    ensures short { IfOk result (λ v. nat_lt (length v.items) 4294967296 ≡ true) }
{
    match value.as_array() {
        Some(values) => commands(alloc, version, list, values.as_slice()),
        None => Err(Stop::Fault(ShapeFault {
            list,
            index: 0,
            field: 98,
        })),
    }
}

/// The main frames, of which there are at most 4096.
pub(crate) fn frames(
    alloc: Global,
    version: u32,
    values: &[Value],
) -> Result<Vec<Vec<Command>>, Stop>
    requires { length values.now ≤ 4096 }
    ensures value { GivesPart (λ v. map (λ frame. frame.items) v.items) result (frames_at version 2 (items_view values.now)) }
    ensures short { IfOk result (λ v. are_short (map (λ frame. frame.items) v.items) ≡ true) }
    ensures count { IfOk result (λ v. vec_len v ≡ length values.now) }
{
    let mut frames = Vec::with_capacity(alloc, values.len())?;
    for (index, value) in values.iter().enumerate() {
        let list = index as u32 + 2;
        match frame(alloc, version, list, value) {
            Ok(frame) => frames.push(frame).map_err(AllocError::from)?,
            Err(stop) => return Err(stop),
        }
    }
    Ok(frames)
}
