//! Transforms, clips, effects and scrollers: commands out of their JSON values, and as JSON texts.

ghost use Rattle.std.specs.Prelude.{◌≡◌, ◌++◌, OnOk};
ghost use Rattle.serde_json.specs.View.{view};
ghost use Rattle.page_layers.specs.declared.command.Op.TheVariants as named;
ghost use Rattle.script_json.specs.CommandReading.{fields_at};
ghost use Rattle.serde_json.specs.Written.{compact_text};
ghost use Rattle.page_layers.specs.declared.command.Command.TheVariants as command;
ghost use Rattle.script_json.specs.CommandValues.{command_data};

use crate::print::field::Field;
use crate::print::object::push_object;
use page_layers::command::{
    AddClip, AddEffect, AddScroller, AddTransform, Command, ScrollBy, ScrollTo, SetClip,
    SetOpacity, SetRange, SetTransform,
};
use script_fields::{FieldFault, fields};
use serde_json::Value;
use std::alloc::AllocError;

/// A new transform.
#[tactic(auto, unfolding(crate::specs::CommandReading::fields_at))]
pub(crate) fn read_add_transform(value: &Value) -> Result<Command, FieldFault>
    ensures { result ≡ fields_at named.AddTransform (view value.now) }
{
    let id = fields::whole(value, "id", 1)?;
    let parent = fields::whole(value, "parent", 2)?;
    let x = fields::signed(value, "x", 3)?;
    let y = fields::signed(value, "y", 4)?;
    let scroller = fields::whole(value, "scroller", 5)?;
    fields::no_more(value, 6)?;
    Ok(Command::AddTransform(AddTransform {
        id,
        parent,
        x,
        y,
        scroller,
    }))
}

/// Adds the command that adds a transform.
#[tactic(auto, unfolding(crate::specs::CommandValues::command_data, json::specs::Print::escape_byte))]
pub(crate) fn push_add_transform(
    text: &mut Vec<u8>,
    fields: &AddTransform,
) -> Result<(), AllocError>
    ensures { OnOk result (text.new.items ≡ text.old.items ++ compact_text (command_data (command.AddTransform fields.now))) }
{
    push_object(
        text,
        &[
            ("id", Field::Number(fields.id)),
            ("op", Field::Name("add_transform")),
            ("parent", Field::Number(fields.parent)),
            ("scroller", Field::Number(fields.scroller)),
            ("x", Field::Signed(&fields.x)),
            ("y", Field::Signed(&fields.y)),
        ],
    )
}

/// Another place of a transform.
#[tactic(auto, unfolding(crate::specs::CommandReading::fields_at))]
pub(crate) fn read_set_transform(value: &Value) -> Result<Command, FieldFault>
    ensures { result ≡ fields_at named.SetTransform (view value.now) }
{
    let id = fields::whole(value, "id", 1)?;
    let x = fields::signed(value, "x", 2)?;
    let y = fields::signed(value, "y", 3)?;
    fields::no_more(value, 4)?;
    Ok(Command::SetTransform(SetTransform { id, x, y }))
}

/// Adds the command that moves a transform.
#[tactic(auto, unfolding(crate::specs::CommandValues::command_data, json::specs::Print::escape_byte))]
pub(crate) fn push_set_transform(
    text: &mut Vec<u8>,
    fields: &SetTransform,
) -> Result<(), AllocError>
    ensures { OnOk result (text.new.items ≡ text.old.items ++ compact_text (command_data (command.SetTransform fields.now))) }
{
    push_object(
        text,
        &[
            ("id", Field::Number(fields.id)),
            ("op", Field::Name("set_transform")),
            ("x", Field::Signed(&fields.x)),
            ("y", Field::Signed(&fields.y)),
        ],
    )
}

/// A new clip.
#[tactic(auto, unfolding(crate::specs::CommandReading::fields_at))]
pub(crate) fn read_add_clip(value: &Value) -> Result<Command, FieldFault>
    ensures { result ≡ fields_at named.AddClip (view value.now) }
{
    let id = fields::whole(value, "id", 1)?;
    let parent = fields::whole(value, "parent", 2)?;
    let transform = fields::whole(value, "transform", 3)?;
    let rect = fields::rect(value, "rect", 4)?;
    fields::no_more(value, 5)?;
    Ok(Command::AddClip(AddClip {
        id,
        parent,
        transform,
        rect,
    }))
}

/// Adds the command that adds a clip.
#[tactic(auto, unfolding(crate::specs::CommandValues::command_data, json::specs::Print::escape_byte))]
pub(crate) fn push_add_clip(text: &mut Vec<u8>, fields: &AddClip) -> Result<(), AllocError>
    ensures { OnOk result (text.new.items ≡ text.old.items ++ compact_text (command_data (command.AddClip fields.now))) }
{
    push_object(
        text,
        &[
            ("id", Field::Number(fields.id)),
            ("op", Field::Name("add_clip")),
            ("parent", Field::Number(fields.parent)),
            ("rect", Field::Rect(fields.rect)),
            ("transform", Field::Number(fields.transform)),
        ],
    )
}

/// Another rect of a clip.
#[tactic(auto, unfolding(crate::specs::CommandReading::fields_at))]
pub(crate) fn read_set_clip(value: &Value) -> Result<Command, FieldFault>
    ensures { result ≡ fields_at named.SetClip (view value.now) }
{
    let id = fields::whole(value, "id", 1)?;
    let rect = fields::rect(value, "rect", 2)?;
    fields::no_more(value, 3)?;
    Ok(Command::SetClip(SetClip { id, rect }))
}

/// Adds the command that gives a clip another rect.
#[tactic(auto, unfolding(crate::specs::CommandValues::command_data, json::specs::Print::escape_byte))]
pub(crate) fn push_set_clip(text: &mut Vec<u8>, fields: &SetClip) -> Result<(), AllocError>
    ensures { OnOk result (text.new.items ≡ text.old.items ++ compact_text (command_data (command.SetClip fields.now))) }
{
    push_object(
        text,
        &[
            ("id", Field::Number(fields.id)),
            ("op", Field::Name("set_clip")),
            ("rect", Field::Rect(fields.rect)),
        ],
    )
}

/// A new effect.
#[tactic(auto, unfolding(crate::specs::CommandReading::fields_at))]
pub(crate) fn read_add_effect(value: &Value) -> Result<Command, FieldFault>
    ensures { result ≡ fields_at named.AddEffect (view value.now) }
{
    let id = fields::whole(value, "id", 1)?;
    let parent = fields::whole(value, "parent", 2)?;
    let opacity = fields::whole(value, "opacity", 3)?;
    fields::no_more(value, 4)?;
    Ok(Command::AddEffect(AddEffect {
        id,
        parent,
        opacity,
    }))
}

/// Adds the command that adds an effect.
#[tactic(auto, unfolding(crate::specs::CommandValues::command_data, json::specs::Print::escape_byte))]
pub(crate) fn push_add_effect(text: &mut Vec<u8>, fields: &AddEffect) -> Result<(), AllocError>
    ensures { OnOk result (text.new.items ≡ text.old.items ++ compact_text (command_data (command.AddEffect fields.now))) }
{
    push_object(
        text,
        &[
            ("id", Field::Number(fields.id)),
            ("op", Field::Name("add_effect")),
            ("opacity", Field::Number(fields.opacity)),
            ("parent", Field::Number(fields.parent)),
        ],
    )
}

/// Another opacity of an effect.
#[tactic(auto, unfolding(crate::specs::CommandReading::fields_at))]
pub(crate) fn read_set_opacity(value: &Value) -> Result<Command, FieldFault>
    ensures { result ≡ fields_at named.SetOpacity (view value.now) }
{
    let id = fields::whole(value, "id", 1)?;
    let opacity = fields::whole(value, "opacity", 2)?;
    fields::no_more(value, 3)?;
    Ok(Command::SetOpacity(SetOpacity { id, opacity }))
}

/// Adds the command that gives an effect another opacity.
#[tactic(auto, unfolding(crate::specs::CommandValues::command_data, json::specs::Print::escape_byte))]
pub(crate) fn push_set_opacity(text: &mut Vec<u8>, fields: &SetOpacity) -> Result<(), AllocError>
    ensures { OnOk result (text.new.items ≡ text.old.items ++ compact_text (command_data (command.SetOpacity fields.now))) }
{
    push_object(
        text,
        &[
            ("id", Field::Number(fields.id)),
            ("op", Field::Name("set_opacity")),
            ("opacity", Field::Number(fields.opacity)),
        ],
    )
}

/// A new scroller.
#[tactic(auto, unfolding(crate::specs::CommandReading::fields_at))]
pub(crate) fn read_add_scroller(value: &Value) -> Result<Command, FieldFault>
    ensures { result ≡ fields_at named.AddScroller (view value.now) }
{
    let id = fields::whole(value, "id", 1)?;
    let parent = fields::whole(value, "parent", 2)?;
    let max_x = fields::whole(value, "max_x", 3)?;
    let max_y = fields::whole(value, "max_y", 4)?;
    fields::no_more(value, 5)?;
    Ok(Command::AddScroller(AddScroller {
        id,
        parent,
        max_x,
        max_y,
    }))
}

/// Adds the command that adds a scroller.
#[tactic(auto, unfolding(crate::specs::CommandValues::command_data, json::specs::Print::escape_byte))]
pub(crate) fn push_add_scroller(text: &mut Vec<u8>, fields: &AddScroller) -> Result<(), AllocError>
    ensures { OnOk result (text.new.items ≡ text.old.items ++ compact_text (command_data (command.AddScroller fields.now))) }
{
    push_object(
        text,
        &[
            ("id", Field::Number(fields.id)),
            ("max_x", Field::Number(fields.max_x)),
            ("max_y", Field::Number(fields.max_y)),
            ("op", Field::Name("add_scroller")),
            ("parent", Field::Number(fields.parent)),
        ],
    )
}

/// Another range of a scroller.
#[tactic(auto, unfolding(crate::specs::CommandReading::fields_at))]
pub(crate) fn read_set_range(value: &Value) -> Result<Command, FieldFault>
    ensures { result ≡ fields_at named.SetRange (view value.now) }
{
    let id = fields::whole(value, "id", 1)?;
    let max_x = fields::whole(value, "max_x", 2)?;
    let max_y = fields::whole(value, "max_y", 3)?;
    fields::no_more(value, 4)?;
    Ok(Command::SetRange(SetRange { id, max_x, max_y }))
}

/// Adds the command that gives a scroller another range.
#[tactic(auto, unfolding(crate::specs::CommandValues::command_data, json::specs::Print::escape_byte))]
pub(crate) fn push_set_range(text: &mut Vec<u8>, fields: &SetRange) -> Result<(), AllocError>
    ensures { OnOk result (text.new.items ≡ text.old.items ++ compact_text (command_data (command.SetRange fields.now))) }
{
    push_object(
        text,
        &[
            ("id", Field::Number(fields.id)),
            ("max_x", Field::Number(fields.max_x)),
            ("max_y", Field::Number(fields.max_y)),
            ("op", Field::Name("set_range")),
        ],
    )
}

/// A move of a scroller's main value.
#[tactic(auto, unfolding(crate::specs::CommandReading::fields_at))]
pub(crate) fn read_scroll_by(value: &Value) -> Result<Command, FieldFault>
    ensures { result ≡ fields_at named.ScrollBy (view value.now) }
{
    let id = fields::whole(value, "id", 1)?;
    let dx = fields::signed(value, "dx", 2)?;
    let dy = fields::signed(value, "dy", 3)?;
    fields::no_more(value, 4)?;
    Ok(Command::ScrollBy(ScrollBy { id, dx, dy }))
}

/// Adds the command that moves a scroller by an amount.
#[tactic(auto, unfolding(crate::specs::CommandValues::command_data, json::specs::Print::escape_byte))]
pub(crate) fn push_scroll_by(text: &mut Vec<u8>, fields: &ScrollBy) -> Result<(), AllocError>
    ensures { OnOk result (text.new.items ≡ text.old.items ++ compact_text (command_data (command.ScrollBy fields.now))) }
{
    push_object(
        text,
        &[
            ("dx", Field::Signed(&fields.dx)),
            ("dy", Field::Signed(&fields.dy)),
            ("id", Field::Number(fields.id)),
            ("op", Field::Name("scroll_by")),
        ],
    )
}

/// Another main value of a scroller.
#[tactic(auto, unfolding(crate::specs::CommandReading::fields_at))]
pub(crate) fn read_scroll_to(value: &Value) -> Result<Command, FieldFault>
    ensures { result ≡ fields_at named.ScrollTo (view value.now) }
{
    let id = fields::whole(value, "id", 1)?;
    let x = fields::whole(value, "x", 2)?;
    let y = fields::whole(value, "y", 3)?;
    fields::no_more(value, 4)?;
    Ok(Command::ScrollTo(ScrollTo { id, x, y }))
}

/// Adds the command that moves a scroller to a place.
#[tactic(auto, unfolding(crate::specs::CommandValues::command_data, json::specs::Print::escape_byte))]
pub(crate) fn push_scroll_to(text: &mut Vec<u8>, fields: &ScrollTo) -> Result<(), AllocError>
    ensures { OnOk result (text.new.items ≡ text.old.items ++ compact_text (command_data (command.ScrollTo fields.now))) }
{
    push_object(
        text,
        &[
            ("id", Field::Number(fields.id)),
            ("op", Field::Name("scroll_to")),
            ("x", Field::Number(fields.x)),
            ("y", Field::Number(fields.y)),
        ],
    )
}
