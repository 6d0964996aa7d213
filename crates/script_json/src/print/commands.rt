//! Commands and main frames, as JSON texts.

ghost use Rattle.std.specs.Prelude.{◌≡◌, ◌++◌, OnOk};
ghost use Rattle.serde_json.specs.Written.{compact_text};
ghost use Rattle.script_json.specs.CommandValues.{frame_data};

use super::object::push_comma;
use crate::command::push_command;
use page_layers::Command;
use std::alloc::AllocError;

/// Adds a main frame: the list of its commands.
#[tactic(auto, unfolding(crate::specs::CommandValues::frame_data))]
pub(crate) fn push_frame(text: &mut Vec<u8>, commands: &[Command]) -> Result<(), AllocError>
    ensures { OnOk result (text.new.items ≡ text.old.items ++ compact_text (frame_data commands.now)) }
{
    text.push(b'[')?;
    let mut later = false;
    for command in commands {
        push_comma(text, later)?;
        push_command(text, command)?;
        later = true;
    }
    text.push(b']')?;
    Ok(())
}
