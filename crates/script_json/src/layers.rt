//! Layers and the view, and items that go: commands out of their JSON values, and as JSON texts.

ghost use Rattle.std.specs.Prelude.{◌≡◌, ◌++◌, OnOk};
ghost use Rattle.serde_json.specs.View.{view};
ghost use Rattle.page_layers.specs.declared.command.Op.TheVariants as named;
ghost use Rattle.script_json.specs.CommandReading.{fields_at};
ghost use Rattle.serde_json.specs.Written.{compact_text};
ghost use Rattle.page_layers.specs.declared.command.Command.TheVariants as command;
ghost use Rattle.script_json.specs.CommandValues.{command_data};

use crate::print::field::Field;
use crate::print::object::push_object;
use page_layers::command::{
    AddLayer, Command, MoveLayer, RemoveItem, RemoveLayer, ResizeLayer, SetColour, SetView,
};
use script_fields::{FieldFault, fields};
use serde_json::Value;
use std::alloc::AllocError;

/// A new layer.
#[tactic(auto, unfolding(crate::specs::CommandReading::fields_at))]
pub(crate) fn read_add_layer(value: &Value) -> Result<Command, FieldFault>
    ensures { result ≡ fields_at named.AddLayer (view value.now) }
{
    let id = fields::whole(value, "id", 1)?;
    let at = fields::whole(value, "at", 2)?;
    let transform = fields::whole(value, "transform", 3)?;
    let clip = fields::whole(value, "clip", 4)?;
    let effect = fields::whole(value, "effect", 5)?;
    let w = fields::whole(value, "w", 6)?;
    let h = fields::whole(value, "h", 7)?;
    let colour = fields::colour(value, "colour", 8)?;
    fields::no_more(value, 9)?;
    Ok(Command::AddLayer(AddLayer {
        id,
        at,
        transform,
        clip,
        effect,
        w,
        h,
        colour,
    }))
}

/// Adds the command that adds a layer.
#[tactic(auto, unfolding(crate::specs::CommandValues::command_data, json::specs::Print::escape_byte))]
pub(crate) fn push_add_layer(text: &mut Vec<u8>, fields: &AddLayer) -> Result<(), AllocError>
    ensures { OnOk result (text.new.items ≡ text.old.items ++ compact_text (command_data (command.AddLayer fields.now))) }
{
    push_object(
        text,
        &[
            ("at", Field::Number(fields.at)),
            ("clip", Field::Number(fields.clip)),
            ("colour", Field::Colour(fields.colour)),
            ("effect", Field::Number(fields.effect)),
            ("h", Field::Number(fields.h)),
            ("id", Field::Number(fields.id)),
            ("op", Field::Name("add_layer")),
            ("transform", Field::Number(fields.transform)),
            ("w", Field::Number(fields.w)),
        ],
    )
}

/// A layer that goes.
#[tactic(auto, unfolding(crate::specs::CommandReading::fields_at))]
pub(crate) fn read_remove_layer(value: &Value) -> Result<Command, FieldFault>
    ensures { result ≡ fields_at named.RemoveLayer (view value.now) }
{
    let id = fields::whole(value, "id", 1)?;
    fields::no_more(value, 2)?;
    Ok(Command::RemoveLayer(RemoveLayer { id }))
}

/// Adds the command that takes a layer out.
#[tactic(auto, unfolding(crate::specs::CommandValues::command_data, json::specs::Print::escape_byte))]
pub(crate) fn push_remove_layer(text: &mut Vec<u8>, fields: &RemoveLayer) -> Result<(), AllocError>
    ensures { OnOk result (text.new.items ≡ text.old.items ++ compact_text (command_data (command.RemoveLayer fields.now))) }
{
    push_object(
        text,
        &[
            ("id", Field::Number(fields.id)),
            ("op", Field::Name("remove_layer")),
        ],
    )
}

/// Another size of a layer.
#[tactic(auto, unfolding(crate::specs::CommandReading::fields_at))]
pub(crate) fn read_resize_layer(value: &Value) -> Result<Command, FieldFault>
    ensures { result ≡ fields_at named.ResizeLayer (view value.now) }
{
    let id = fields::whole(value, "id", 1)?;
    let w = fields::whole(value, "w", 2)?;
    let h = fields::whole(value, "h", 3)?;
    fields::no_more(value, 4)?;
    Ok(Command::ResizeLayer(ResizeLayer { id, w, h }))
}

/// Adds the command that gives a layer another size.
#[tactic(auto, unfolding(crate::specs::CommandValues::command_data, json::specs::Print::escape_byte))]
pub(crate) fn push_resize_layer(text: &mut Vec<u8>, fields: &ResizeLayer) -> Result<(), AllocError>
    ensures { OnOk result (text.new.items ≡ text.old.items ++ compact_text (command_data (command.ResizeLayer fields.now))) }
{
    push_object(
        text,
        &[
            ("h", Field::Number(fields.h)),
            ("id", Field::Number(fields.id)),
            ("op", Field::Name("resize_layer")),
            ("w", Field::Number(fields.w)),
        ],
    )
}

/// Another background colour of a layer.
#[tactic(auto, unfolding(crate::specs::CommandReading::fields_at))]
pub(crate) fn read_set_colour(value: &Value) -> Result<Command, FieldFault>
    ensures { result ≡ fields_at named.SetColour (view value.now) }
{
    let id = fields::whole(value, "id", 1)?;
    let colour = fields::colour(value, "colour", 2)?;
    fields::no_more(value, 3)?;
    Ok(Command::SetColour(SetColour { id, colour }))
}

/// Adds the command that gives a layer another background colour.
#[tactic(auto, unfolding(crate::specs::CommandValues::command_data, json::specs::Print::escape_byte))]
pub(crate) fn push_set_colour(text: &mut Vec<u8>, fields: &SetColour) -> Result<(), AllocError>
    ensures { OnOk result (text.new.items ≡ text.old.items ++ compact_text (command_data (command.SetColour fields.now))) }
{
    push_object(
        text,
        &[
            ("colour", Field::Colour(fields.colour)),
            ("id", Field::Number(fields.id)),
            ("op", Field::Name("set_colour")),
        ],
    )
}

/// An item that goes.
#[tactic(auto, unfolding(crate::specs::CommandReading::fields_at))]
pub(crate) fn read_remove_item(value: &Value) -> Result<Command, FieldFault>
    ensures { result ≡ fields_at named.RemoveItem (view value.now) }
{
    let layer = fields::whole(value, "layer", 1)?;
    let at = fields::whole(value, "at", 2)?;
    fields::no_more(value, 3)?;
    Ok(Command::RemoveItem(RemoveItem { layer, at }))
}

/// Adds the command that takes an item out.
#[tactic(auto, unfolding(crate::specs::CommandValues::command_data, json::specs::Print::escape_byte))]
pub(crate) fn push_remove_item(text: &mut Vec<u8>, fields: &RemoveItem) -> Result<(), AllocError>
    ensures { OnOk result (text.new.items ≡ text.old.items ++ compact_text (command_data (command.RemoveItem fields.now))) }
{
    push_object(
        text,
        &[
            ("at", Field::Number(fields.at)),
            ("layer", Field::Number(fields.layer)),
            ("op", Field::Name("remove_item")),
        ],
    )
}

/// Another place of a layer among the others.
#[tactic(auto, unfolding(crate::specs::CommandReading::fields_at))]
pub(crate) fn read_move_layer(value: &Value) -> Result<Command, FieldFault>
    ensures { result ≡ fields_at named.MoveLayer (view value.now) }
{
    let id = fields::whole(value, "id", 1)?;
    let at = fields::whole(value, "at", 2)?;
    fields::no_more(value, 3)?;
    Ok(Command::MoveLayer(MoveLayer { id, at }))
}

/// Adds the command that moves a layer to another place among the others.
#[tactic(auto, unfolding(crate::specs::CommandValues::command_data, json::specs::Print::escape_byte))]
pub(crate) fn push_move_layer(text: &mut Vec<u8>, fields: &MoveLayer) -> Result<(), AllocError>
    ensures { OnOk result (text.new.items ≡ text.old.items ++ compact_text (command_data (command.MoveLayer fields.now))) }
{
    push_object(
        text,
        &[
            ("at", Field::Number(fields.at)),
            ("id", Field::Number(fields.id)),
            ("op", Field::Name("move_layer")),
        ],
    )
}

/// Another viewport and tile size.
#[tactic(auto, unfolding(crate::specs::CommandReading::fields_at))]
pub(crate) fn read_set_view(value: &Value) -> Result<Command, FieldFault>
    ensures { result ≡ fields_at named.SetView (view value.now) }
{
    let w = fields::whole(value, "w", 1)?;
    let h = fields::whole(value, "h", 2)?;
    let tile = fields::whole(value, "tile", 3)?;
    fields::no_more(value, 4)?;
    Ok(Command::SetView(SetView { w, h, tile }))
}

/// Adds the command that sets another viewport and tile size.
#[tactic(auto, unfolding(crate::specs::CommandValues::command_data, json::specs::Print::escape_byte))]
pub(crate) fn push_set_view(text: &mut Vec<u8>, fields: &SetView) -> Result<(), AllocError>
    ensures { OnOk result (text.new.items ≡ text.old.items ++ compact_text (command_data (command.SetView fields.now))) }
{
    push_object(
        text,
        &[
            ("h", Field::Number(fields.h)),
            ("op", Field::Name("set_view")),
            ("tile", Field::Number(fields.tile)),
            ("w", Field::Number(fields.w)),
        ],
    )
}
