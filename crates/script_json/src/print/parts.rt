//! A whole script as its canonical text.

ghost use Rattle.std.specs.Prelude.{◌≡◌, ◌++◌, true, IfOk, OnOk, map};
ghost use Rattle.json.specs.Print.{escape};
ghost use Rattle.serde_json.specs.Written.{compact_text};
ghost use Rattle.model_history.specs.Ranges.{is_in_ranges};
ghost use Rattle.model_history.specs.Scripts.{script_of};
ghost use Rattle.script_json.specs.Causes.{IsScriptText};
ghost use Rattle.script_json.specs.inner.Objects.{head_text, lists_text, tail_text};
ghost use Rattle.script_json.specs.ScriptValue.{priority_name, main_data, parts_data};

use super::field::Field;
use super::object::{push_comma, push_last_members, push_members};
use super::{commands, inputs};
use model_history::ScriptParts;
use page_layers::Command;
use std::alloc::{AllocError, Global};
use tile_priority::TreePriority;

// The name of a priority.
#[tactic(auto, unfolding(json::specs::Print::escape_byte))]
fn priority_name(priority: TreePriority) -> &'static str
    ensures value { result.now ≡ priority_name priority }
    ensures plain { escape result.now ≡ result.now }
{
    match priority {
        TreePriority::Same => "same",
        TreePriority::Smooth => "smooth",
        TreePriority::New => "new",
    }
}

// Adds the members before the lists.
#[tactic(auto, unfolding(json::specs::Print::escape_byte))]
fn push_head(text: &mut Vec<u8>, parts: &ScriptParts) -> Result<(), AllocError>
    ensures { OnOk result (text.new.items ≡ text.old.items ++ head_text (script_of parts.now)) }
{
    push_members(
        text,
        b'{',
        &[
            ("background", Field::Opaque(parts.background)),
            ("budget", Field::Number(parts.budget)),
            ("eventually", Field::Number(parts.eventually)),
        ],
    )
}

// Adds the main frames.
#[tactic(auto, unfolding(crate::specs::ScriptValue::main_data))]
fn push_main(text: &mut Vec<u8>, frames: &[Vec<Command>]) -> Result<(), AllocError>
    ensures { OnOk result (text.new.items ≡ text.old.items ++ compact_text (main_data (map (λ frame. frame.items) frames.now))) }
{
    text.push(b'[')?;
    let mut later = false;
    for frame in frames {
        push_comma(text, later)?;
        commands::push_frame(text, frame.as_slice())?;
        later = true;
    }
    text.push(b']')?;
    Ok(())
}

// Adds the inputs and the main frames, each after a comma and its name.
#[tactic(auto, unfolding(json::specs::Print::escape_byte))]
fn push_lists(text: &mut Vec<u8>, parts: &ScriptParts) -> Result<(), AllocError>
    ensures { OnOk result (text.new.items ≡ text.old.items ++ lists_text (script_of parts.now)) }
{
    text.extend_from_slice(b",\"inputs\":")?;
    inputs::push_inputs(text, parts.inputs.as_slice())?;
    text.extend_from_slice(b",\"main\":")?;
    push_main(text, parts.main.as_slice())
}

// Adds the members after the lists, and the bracket that closes the script.
#[tactic(auto, unfolding(json::specs::Print::escape_byte))]
fn push_tail(text: &mut Vec<u8>, parts: &ScriptParts) -> Result<(), AllocError>
    ensures { OnOk result (text.new.items ≡ text.old.items ++ tail_text (script_of parts.now)) }
{
    push_last_members(
        text,
        b',',
        &[
            ("priority", Field::Name(priority_name(parts.priority))),
            ("raster_per_frame", Field::Number(parts.raster_per_frame)),
            ("soon", Field::Number(parts.soon)),
            ("tile", Field::Number(parts.tile)),
            ("version", Field::Number(parts.version)),
            ("viewport", Field::Sides(parts.viewport_w, parts.viewport_h)),
        ],
    )
}

/// The canonical text of a script's parts: one line without a newline, which reads back as the script if the
/// parts are in the format's ranges.
pub(crate) fn print_parts(alloc: Global, parts: &ScriptParts) -> Result<Vec<u8>, AllocError>
    ensures text { IfOk result (λ b. b.items ≡ compact_text (parts_data (script_of parts.now))) }
    ensures again { is_in_ranges (script_of parts.now) ≡ true → IfOk result (λ b. IsScriptText b.items (script_of parts.now)) }
{
    let mut text = Vec::new(alloc);
    push_head(&mut text, parts)?;
    push_lists(&mut text, parts)?;
    push_tail(&mut text, parts)?;
    Ok(text)
}
