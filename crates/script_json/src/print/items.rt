//! The commands that put an item into a display list, as JSON texts.

ghost use Rattle.std.specs.Prelude.{◌≡◌, ◌++◌, OnOk};
ghost use Rattle.json.specs.Print.{escape};
ghost use Rattle.serde_json.specs.Written.{compact_text};
ghost use Rattle.script_json.specs.inner.ItemValues.{rect_item_data, bitmap_data, item_data};

use super::field::Field;
use super::object::push_object;
use geom::Rect;
use page_display_list::{Bitmap, Item};
use pixel::Colour;
use std::alloc::AllocError;

// Adds a command that puts in an item of one colour.
#[tactic(auto, unfolding(crate::specs::inner::ItemValues::rect_item_data, json::specs::Print::escape_byte))]
fn push_rect_item(
    text: &mut Vec<u8>,
    op: &str,
    layer: u32,
    at: u32,
    rect: Rect,
    colour: Colour,
) -> Result<(), AllocError>
    requires { escape op.now ≡ op.now }
    ensures { OnOk result (text.new.items ≡ text.old.items ++ compact_text (rect_item_data op.now layer at rect colour)) }
{
    push_object(
        text,
        &[
            ("at", Field::Number(at)),
            ("colour", Field::Colour(colour)),
            ("layer", Field::Number(layer)),
            ("op", Field::Name(op)),
            ("rect", Field::Rect(rect)),
        ],
    )
}

// Adds a command that puts in a bitmap.
#[tactic(auto, unfolding(crate::specs::inner::ItemValues::bitmap_data, json::specs::Print::escape_byte))]
fn push_bitmap_item<'a>(
    text: &mut Vec<u8>,
    op: &'a str,
    layer: u32,
    at: u32,
    bitmap: &'a Bitmap,
) -> Result<(), AllocError>
    requires { escape op.now ≡ op.now }
    ensures { OnOk result (text.new.items ≡ text.old.items ++ compact_text (bitmap_data op.now layer at bitmap.now)) }
{
    push_object(
        text,
        &[
            ("at", Field::Number(at)),
            ("layer", Field::Number(layer)),
            ("op", Field::Name(op)),
            ("pixels", Field::Bytes(bitmap.pixels())),
            ("rect", Field::Rect(bitmap.rect())),
        ],
    )
}

/// Adds the command of this name, which needs no escape, that puts the item at a place of a layer's list.
pub(crate) fn push_item(
    text: &mut Vec<u8>,
    op: &str,
    layer: u32,
    at: u32,
    item: &Item,
) -> Result<(), AllocError>
    requires { escape op.now ≡ op.now }
    ensures { OnOk result (text.new.items ≡ text.old.items ++ compact_text (item_data op.now layer at item.now)) }
{
    match item {
        Item::Rect { rect, colour } => push_rect_item(text, op, layer, at, *rect, *colour),
        Item::Bitmap(bitmap) => push_bitmap_item(text, op, layer, at, bitmap),
    }
}
