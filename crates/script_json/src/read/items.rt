//! Items of display lists, out of their JSON values.

ghost use Rattle.std.specs.Prelude.{◌≡◌, IfOk};
ghost use Rattle.serde_json.specs.View.{view};
ghost use Rattle.script_fields.specs.Faults.{Gives};
ghost use Rattle.script_json.specs.ItemReading.{if_picture, pixels_form, paint_at};
ghost use Rattle.page_layers.specs.declared.command.Op.TheVariants as named;
ghost use Rattle.script_json.specs.CommandReading.{fields_at};

use geom::Rect;
use page_display_list::Item;
use page_layers::command::{Command, InsertItem, ReplaceItem};
use script_fields::{FieldFault, Trouble, fields, forms};
use serde_json::Value;
use std::alloc::{AllocError, Global};
use std::sync::Arc;

// The bitmap of these bytes, if they are the pixels of the rect.
fn picture(alloc: Global, rect: Rect, bytes: Vec<u8>) -> Result<Option<Item>, AllocError>
    ensures { IfOk result (λ o. o ≡ if_picture rect bytes.items) }
{
    let pixels = Arc::new(alloc, bytes)?;
    match Item::bitmap(rect, pixels) {
        Ok(item) => Ok(Some(item)),
        Err(_) => Ok(None),
    }
}

// A text of the pixels' digits.
#[tactic(auto, unfolding(crate::specs::ItemReading::pixels_form, script_fields::specs::Forms::bytes_form))]
fn pixels(alloc: Global, rect: Rect, value: &Value) -> Result<Option<Item>, AllocError>
    ensures { IfOk result (λ o. o ≡ pixels_form rect (view value.now)) }
{
    let Some(text) = value.as_str() else {
        return Ok(None);
    };
    let Some(bytes) = script_fields::bytes(alloc, text.as_bytes())? else {
        return Ok(None);
    };
    picture(alloc, rect, bytes)
}

// What is painted: either a colour or pixels, and not both.
#[tactic(auto, unfolding(crate::specs::ItemReading::paint_at))]
fn paint(alloc: Global, value: &Value, rect: Rect, field: u32) -> Result<Item, Trouble>
    ensures { Gives (λ x. x) result (paint_at rect field (view value.now)) }
{
    match (value.get("colour"), value.get("pixels")) {
        (Some(colour), None) => match forms::colour_form(colour) {
            Some(colour) => Ok(Item::Rect { rect, colour }),
            None => Err(Trouble::Fault(FieldFault { field })),
        },
        (None, Some(text)) => match pixels(alloc, rect, text)? {
            Some(item) => Ok(item),
            None => Err(Trouble::Fault(FieldFault { field })),
        },
        _ => Err(Trouble::Fault(FieldFault { field })),
    }
}

/// A new item.
#[tactic(auto, unfolding(crate::specs::CommandReading::fields_at))]
pub(crate) fn insert_item(alloc: Global, value: &Value) -> Result<Command, Trouble>
    ensures { Gives (λ x. x) result (fields_at named.InsertItem (view value.now)) }
{
    let layer = fields::whole(value, "layer", 1)?;
    let at = fields::whole(value, "at", 2)?;
    let rect = fields::rect(value, "rect", 3)?;
    let item = paint(alloc, value, rect, 4)?;
    fields::no_more(value, 5)?;
    Ok(Command::InsertItem(InsertItem { layer, at, item }))
}

/// An item in the place of another.
#[tactic(auto, unfolding(crate::specs::CommandReading::fields_at))]
pub(crate) fn replace_item(alloc: Global, value: &Value) -> Result<Command, Trouble>
    ensures { Gives (λ x. x) result (fields_at named.ReplaceItem (view value.now)) }
{
    let layer = fields::whole(value, "layer", 1)?;
    let at = fields::whole(value, "at", 2)?;
    let rect = fields::rect(value, "rect", 3)?;
    let item = paint(alloc, value, rect, 4)?;
    fields::no_more(value, 5)?;
    Ok(Command::ReplaceItem(ReplaceItem { layer, at, item }))
}
