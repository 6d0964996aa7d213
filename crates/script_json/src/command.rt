//! A command: out of its JSON value, and as a JSON text.

ghost use Rattle.std.specs.Prelude.{◌≡◌, ◌++◌, OnOk};
ghost use Rattle.serde_json.specs.View.{view};
ghost use Rattle.serde_json.specs.Written.{compact_text};
ghost use Rattle.script_fields.specs.Faults.{Gives};
ghost use Rattle.script_json.specs.CommandReading.{fields_at, command_at};
ghost use Rattle.script_json.specs.CommandValues.{command_data};

use crate::print::items as print_items;
use crate::read::items as read_items;
use crate::{layers, nodes, op};
use page_layers::command::{Command, Op};
use script_fields::{Trouble, fields};
use serde_json::Value;
use std::alloc::{AllocError, Global};

// The fields of a command with this name.
fn fields_of(alloc: Global, op: Op, value: &Value) -> Result<Command, Trouble>
    ensures { Gives (λ x. x) result (fields_at op (view value.now)) }
{
    let command = match op {
        Op::InsertItem => return read_items::insert_item(alloc, value),
        Op::ReplaceItem => return read_items::replace_item(alloc, value),
        Op::AddTransform => nodes::read_add_transform(value),
        Op::SetTransform => nodes::read_set_transform(value),
        Op::AddClip => nodes::read_add_clip(value),
        Op::SetClip => nodes::read_set_clip(value),
        Op::AddEffect => nodes::read_add_effect(value),
        Op::SetOpacity => nodes::read_set_opacity(value),
        Op::AddScroller => nodes::read_add_scroller(value),
        Op::SetRange => nodes::read_set_range(value),
        Op::ScrollBy => nodes::read_scroll_by(value),
        Op::ScrollTo => nodes::read_scroll_to(value),
        Op::AddLayer => layers::read_add_layer(value),
        Op::RemoveLayer => layers::read_remove_layer(value),
        Op::ResizeLayer => layers::read_resize_layer(value),
        Op::SetColour => layers::read_set_colour(value),
        Op::RemoveItem => layers::read_remove_item(value),
        Op::MoveLayer => layers::read_move_layer(value),
        Op::SetView => layers::read_set_view(value),
    };
    Ok(command?)
}

/// A command: an object, its name, its fields.
#[tactic(auto, unfolding(crate::specs::CommandReading::command_at))]
pub(crate) fn read_command(alloc: Global, version: u32, value: &Value) -> Result<Command, Trouble>
    ensures { Gives (λ x. x) result (command_at version (view value.now)) }
{
    fields::object(value)?;
    let op = op::command_op(version, value)?;
    fields_of(alloc, op, value)
}

/// Adds a command.
#[tactic(auto, using(crate::proofs::PrintedItems::insert_data, crate::proofs::PrintedItems::replace_data), unfolding(json::specs::Print::escape_byte))]
pub(crate) fn push_command(text: &mut Vec<u8>, command: &Command) -> Result<(), AllocError>
    ensures { OnOk result (text.new.items ≡ text.old.items ++ compact_text (command_data command.now)) }
{
    match command {
        Command::AddTransform(fields) => nodes::push_add_transform(text, fields),
        Command::SetTransform(fields) => nodes::push_set_transform(text, fields),
        Command::AddClip(fields) => nodes::push_add_clip(text, fields),
        Command::SetClip(fields) => nodes::push_set_clip(text, fields),
        Command::AddEffect(fields) => nodes::push_add_effect(text, fields),
        Command::SetOpacity(fields) => nodes::push_set_opacity(text, fields),
        Command::AddScroller(fields) => nodes::push_add_scroller(text, fields),
        Command::SetRange(fields) => nodes::push_set_range(text, fields),
        Command::ScrollBy(fields) => nodes::push_scroll_by(text, fields),
        Command::ScrollTo(fields) => nodes::push_scroll_to(text, fields),
        Command::AddLayer(fields) => layers::push_add_layer(text, fields),
        Command::RemoveLayer(fields) => layers::push_remove_layer(text, fields),
        Command::ResizeLayer(fields) => layers::push_resize_layer(text, fields),
        Command::SetColour(fields) => layers::push_set_colour(text, fields),
        Command::InsertItem(fields) => print_items::push_item(
            text,
            "insert_item",
            fields.layer,
            fields.at,
            &fields.item,
        ),
        Command::RemoveItem(fields) => layers::push_remove_item(text, fields),
        Command::ReplaceItem(fields) => print_items::push_item(
            text,
            "replace_item",
            fields.layer,
            fields.at,
            &fields.item,
        ),
        Command::MoveLayer(fields) => layers::push_move_layer(text, fields),
        Command::SetView(fields) => layers::push_set_view(text, fields),
    }
}
