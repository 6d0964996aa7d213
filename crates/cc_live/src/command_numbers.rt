//! The numbers of a command fit the format of scripts, since they fit their types.
//!
//! The functions are laws that do nothing when they run: a number that is read is known to be one of its type. They
//! follow the format's list of fields, so a range of the format that gets narrower than its type is no law any more.

ghost use Rattle.std.specs.Prelude.{◌≡◌, ◌<◌, ℕ, true, length, get_or};
ghost use Rattle.page_layers.specs.declared.command.Command.TheVariants as commands;
ghost use Rattle.page_display_list.specs.declared.item.Item.TheVariants as items;
ghost use Rattle.page_display_list.specs.Bitmaps.{IsBitmap};
ghost use Rattle.pixel.specs.Colours as colours;
ghost use Rattle.model_history.specs.Ranges as ranges;

use geom::Rect;
use page_display_list::{Bitmap, Item};
use page_layers::command::{
    AddClip, AddEffect, AddLayer, AddScroller, AddTransform, Command, InsertItem, MoveLayer,
    RemoveItem, RemoveLayer, ReplaceItem, ResizeLayer, ScrollBy, ScrollTo, SetClip, SetColour,
    SetOpacity, SetRange, SetTransform, SetView,
};
use pixel::Colour;

// A whole number.
fn whole(n: u32)
    ensures { ranges.is_u32 n ≡ true }
{
    let _ = n;
}

// A signed number.
fn signed(n: i32)
    ensures { ranges.is_signed n ≡ true }
{
    let _ = n;
}

// The numbers of a rect.
fn rect(r: Rect)
    ensures { ranges.is_rect r ≡ true }
{
    signed(r.x);
    signed(r.y);
    signed(r.w);
    signed(r.h);
}

// The parts of a colour.
#[tactic(auto, using(crate::proofs::RightPictures::colour_is))]
fn colour(c: Colour)
    ensures { colours.is_colour c ≡ true }
{
    let _ = c.r();
    let _ = c.g();
    let _ = c.b();
    let _ = c.a();
}

// Bytes are below 256.
fn bytes(pixels: &[u8])
    ensures { (i : ℕ) → i < length pixels.now → get_or pixels.now i 0 < 256 }
{
    let _ = pixels;
}

// The pixels of a bitmap are right for its rect.
fn picture(pixels: &[u8], place: Rect)
    requires { IsBitmap (record { rect = place; pixels = pixels.now }) }
    ensures { ranges.is_picture place pixels.now ≡ true }
{
    // The contract alone speaks of where they lie.
    let _ = place;
    bytes(pixels);
}

// The numbers of an item.
fn bitmap(b: &Bitmap)
    ensures { ranges.item_in_range (items.Bitmap b.now) ≡ true }
{
    rect(b.rect());
    picture(b.pixels(), b.rect());
}

fn item(i: &Item)
    ensures { ranges.item_in_range i.now ≡ true }
{
    match i {
        Item::Rect {
            rect: at,
            colour: of,
        } => {
            rect(*at);
            colour(*of);
        }
        Item::Bitmap(picture) => bitmap(picture),
    }
}

// Those of each command.
fn add_transform(c: &AddTransform)
    ensures { ranges.command_in_range 2 (commands.AddTransform c.now) ≡ true }
{
    whole(c.id);
    whole(c.parent);
    signed(c.x);
    signed(c.y);
    whole(c.scroller);
}

fn set_transform(c: &SetTransform)
    ensures { ranges.command_in_range 2 (commands.SetTransform c.now) ≡ true }
{
    whole(c.id);
    signed(c.x);
    signed(c.y);
}

fn add_clip(c: &AddClip)
    ensures { ranges.command_in_range 2 (commands.AddClip c.now) ≡ true }
{
    whole(c.id);
    whole(c.parent);
    whole(c.transform);
    rect(c.rect);
}

fn set_clip(c: &SetClip)
    ensures { ranges.command_in_range 2 (commands.SetClip c.now) ≡ true }
{
    whole(c.id);
    rect(c.rect);
}

fn add_effect(c: &AddEffect)
    ensures { ranges.command_in_range 2 (commands.AddEffect c.now) ≡ true }
{
    whole(c.id);
    whole(c.parent);
    whole(c.opacity);
}

fn set_opacity(c: &SetOpacity)
    ensures { ranges.command_in_range 2 (commands.SetOpacity c.now) ≡ true }
{
    whole(c.id);
    whole(c.opacity);
}

fn add_scroller(c: &AddScroller)
    ensures { ranges.command_in_range 2 (commands.AddScroller c.now) ≡ true }
{
    whole(c.id);
    whole(c.parent);
    whole(c.max_x);
    whole(c.max_y);
}

fn set_range(c: &SetRange)
    ensures { ranges.command_in_range 2 (commands.SetRange c.now) ≡ true }
{
    whole(c.id);
    whole(c.max_x);
    whole(c.max_y);
}

fn scroll_by(c: &ScrollBy)
    ensures { ranges.command_in_range 2 (commands.ScrollBy c.now) ≡ true }
{
    whole(c.id);
    signed(c.dx);
    signed(c.dy);
}

fn scroll_to(c: &ScrollTo)
    ensures { ranges.command_in_range 2 (commands.ScrollTo c.now) ≡ true }
{
    whole(c.id);
    whole(c.x);
    whole(c.y);
}

fn add_layer(c: &AddLayer)
    ensures { ranges.command_in_range 2 (commands.AddLayer c.now) ≡ true }
{
    whole(c.id);
    whole(c.at);
    whole(c.transform);
    whole(c.clip);
    whole(c.effect);
    whole(c.w);
    whole(c.h);
    colour(c.colour);
}

fn remove_layer(c: &RemoveLayer)
    ensures { ranges.command_in_range 2 (commands.RemoveLayer c.now) ≡ true }
{
    whole(c.id);
}

fn resize_layer(c: &ResizeLayer)
    ensures { ranges.command_in_range 2 (commands.ResizeLayer c.now) ≡ true }
{
    whole(c.id);
    whole(c.w);
    whole(c.h);
}

fn set_colour(c: &SetColour)
    ensures { ranges.command_in_range 2 (commands.SetColour c.now) ≡ true }
{
    whole(c.id);
    colour(c.colour);
}

fn insert_item(c: &InsertItem)
    ensures { ranges.command_in_range 2 (commands.InsertItem c.now) ≡ true }
{
    whole(c.layer);
    whole(c.at);
    item(&c.item);
}

fn remove_item(c: &RemoveItem)
    ensures { ranges.command_in_range 2 (commands.RemoveItem c.now) ≡ true }
{
    whole(c.layer);
    whole(c.at);
}

fn replace_item(c: &ReplaceItem)
    ensures { ranges.command_in_range 2 (commands.ReplaceItem c.now) ≡ true }
{
    whole(c.layer);
    whole(c.at);
    item(&c.item);
}

fn move_layer(c: &MoveLayer)
    ensures { ranges.command_in_range 2 (commands.MoveLayer c.now) ≡ true }
{
    whole(c.id);
    whole(c.at);
}

fn set_view(c: &SetView)
    ensures { ranges.command_in_range 2 (commands.SetView c.now) ≡ true }
{
    whole(c.w);
    whole(c.h);
    whole(c.tile);
}

/// The numbers of a command are in the ranges of the format's newest version.
pub(crate) fn are_in_range(command: &Command)
    ensures { ranges.command_in_range 2 command.now ≡ true }
{
    match command {
        Command::AddTransform(fields) => add_transform(fields),
        Command::SetTransform(fields) => set_transform(fields),
        Command::AddClip(fields) => add_clip(fields),
        Command::SetClip(fields) => set_clip(fields),
        Command::AddEffect(fields) => add_effect(fields),
        Command::SetOpacity(fields) => set_opacity(fields),
        Command::AddScroller(fields) => add_scroller(fields),
        Command::SetRange(fields) => set_range(fields),
        Command::ScrollBy(fields) => scroll_by(fields),
        Command::ScrollTo(fields) => scroll_to(fields),
        Command::AddLayer(fields) => add_layer(fields),
        Command::RemoveLayer(fields) => remove_layer(fields),
        Command::ResizeLayer(fields) => resize_layer(fields),
        Command::SetColour(fields) => set_colour(fields),
        Command::InsertItem(fields) => insert_item(fields),
        Command::RemoveItem(fields) => remove_item(fields),
        Command::ReplaceItem(fields) => replace_item(fields),
        Command::MoveLayer(fields) => move_layer(fields),
        Command::SetView(fields) => set_view(fields),
    }
}
