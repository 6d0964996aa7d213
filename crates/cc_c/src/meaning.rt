//! Which command numbers mean.

ghost use Rattle.std.specs.Prelude.{◌≡◌, IfOk};
ghost use Rattle.cc_c.specs.Commands as spec;
ghost use Rattle.cc_c.specs.Meanings.{Built, Puts, put as put_command};

use crate::bad_numbers::{BadNumbers, place_cause, plain_cause};
use crate::commands::plain_command;
use crate::failure::Failure;
use crate::items::{ItemPlace, item_place};
use page_display_list::Item;
use page_layers::command::{Command, InsertItem, ReplaceItem};
use std::alloc::{AllocError, Global};
use std::sync::Arc;

// Whether the command of a number takes pixels.
fn takes_pixels(op: u32) -> bool
    ensures { result ≡ spec.takes_pixels op }
{
    op == 20 || op == 21
}

// Puts an item in its place: 20 inserts it, any other number replaces one.
fn put(op: u32, place: ItemPlace, item: Item) -> Command
    ensures { result ≡ put_command op place item }
{
    if op == 20 {
        Command::InsertItem(InsertItem {
            layer: place.layer,
            at: place.at,
            item,
        })
    } else {
        Command::ReplaceItem(ReplaceItem {
            layer: place.layer,
            at: place.at,
            item,
        })
    }
}

// A copy of these pixels, for bitmaps to share.
fn copied(alloc: Global, pixels: &[u8]) -> Result<Arc<Vec<u8>>, AllocError>
    ensures { IfOk result (λ bytes. bytes.value.items ≡ pixels.now) }
{
    let bytes = Vec::from_slice(alloc, pixels)?;
    let shared = Arc::new(alloc, bytes)?;
    Ok(shared)
}

// The bitmap of these pixels, put in the place that the fields name.
fn put_bitmap(alloc: Global, op: u32, fields: &[i32], pixels: &[u8]) -> Result<Command, Failure>
    ensures { Puts op fields.now pixels.now result }
{
    let Some(place) = item_place(fields) else {
        return Err(Failure::Bad(place_cause(fields)));
    };
    let Ok(bytes) = copied(alloc, pixels) else {
        return Err(Failure::Memory);
    };
    match Item::bitmap(place.rect, bytes) {
        Ok(item) => Ok(put(op, place, item)),
        Err(bad) => Err(Failure::Bad(BadNumbers::Bitmap(bad.cause))),
    }
}

/// The command that a number means, with these fields, this colour and these pixels.
pub fn command(
    alloc: Global,
    op: u32,
    fields: &[i32],
    rgba: u32,
    pixels: &[u8],
) -> Result<Command, Failure>
    ensures { Built op fields.now rgba pixels.now result }
{
    if takes_pixels(op) {
        return put_bitmap(alloc, op, fields, pixels);
    }
    match plain_command(op, fields, rgba) {
        Some(command) => Ok(command),
        None => Err(Failure::Bad(plain_cause(op, fields))),
    }
}
