//! Applying main frames to a page, up to the first command that is refused.

ghost use Rattle.std.specs.Prelude.{◌≡◌, ◌≤◌, ◌<◌, ◌^◌, length, map, true};
ghost use Rattle.model_history.specs.inner.Applying.{Applied, AppliedCommand, AppliedFrame};
ghost use Rattle.model_history.specs.Ranges.{are_short};

use crate::script_error::ScriptError;
use page_layers::{Command, EditError, LayerTree};

// Applies the command at a place of a main frame.
fn apply_command(
    tree: &mut LayerTree,
    frame: u32,
    place: u32,
    command: &Command,
) -> Result<(), ScriptError>
    ensures { AppliedCommand tree.old frame place command.now tree.new result }
{
    match tree.apply(command) {
        Ok(_) => Ok(()),
        Err(EditError::Refused(fault)) => Err(ScriptError::Command {
            frame,
            command: place,
            fault,
        }),
        Err(EditError::Memory(refused)) => Err(ScriptError::Memory(refused)),
    }
}

// Applies the commands of a main frame in order.
fn apply_frame(tree: &mut LayerTree, frame: u32, commands: &[Command]) -> Result<(), ScriptError>
    requires { length commands.now < 2 ^ 32 }
    ensures { AppliedFrame tree.old frame commands.now tree.new result }
{
    for (place, command) in commands.iter().enumerate() {
        if let Err(error) = apply_command(tree, frame, place as u32, command) {
            return Err(error);
        }
    }
    Ok(())
}

/// Applies main frames in order, without pulls.
pub(crate) fn apply_frames(tree: &mut LayerTree, frames: &[Vec<Command>]) -> Result<(), ScriptError>
    requires few { length frames.now ≤ 4096 }
    requires short { are_short (map (λ frame. frame.items) frames.now) ≡ true }
    ensures { Applied tree.old (map (λ frame. frame.items) frames.now) tree.new result }
{
    for (place, frame) in frames.iter().enumerate() {
        if let Err(error) = apply_frame(tree, place as u32, frame.as_slice()) {
            return Err(error);
        }
    }
    Ok(())
}
