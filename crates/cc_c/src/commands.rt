//! Commands of their fields: numbers, and a colour apart from them.

ghost use Rattle.std.specs.Prelude.{◌≡◌, ℕ};
ghost use Rattle.page_layers.specs.declared.command.Op.TheVariants as named;
ghost use Rattle.cc_c.specs.Commands as spec;

use crate::fields;
use page_display_list::Item;
use page_layers::command::{
    AddClip, AddEffect, AddLayer, AddScroller, AddTransform, Command, InsertItem, MoveLayer, Op,
    RemoveItem, RemoveLayer, ReplaceItem, ResizeLayer, ScrollBy, ScrollTo, SetClip, SetColour,
    SetOpacity, SetRange, SetTransform, SetView,
};

#[tactic(auto, unfolding(crate::specs::Commands::fields_of))]
fn add_transform(numbers: &[i32]) -> Option<Command>
    ensures { (rgba : ℕ) → result ≡ spec.fields_of named.AddTransform numbers.now rgba }
{
    let id = fields::whole(numbers, 0)?;
    let parent = fields::whole(numbers, 1)?;
    let x = fields::signed(numbers, 2)?;
    let y = fields::signed(numbers, 3)?;
    let scroller = fields::whole(numbers, 4)?;
    fields::no_more(numbers, 5)?;
    Some(Command::AddTransform(AddTransform {
        id,
        parent,
        x,
        y,
        scroller,
    }))
}

#[tactic(auto, unfolding(crate::specs::Commands::fields_of))]
fn set_transform(numbers: &[i32]) -> Option<Command>
    ensures { (rgba : ℕ) → result ≡ spec.fields_of named.SetTransform numbers.now rgba }
{
    let id = fields::whole(numbers, 0)?;
    let x = fields::signed(numbers, 1)?;
    let y = fields::signed(numbers, 2)?;
    fields::no_more(numbers, 3)?;
    Some(Command::SetTransform(SetTransform { id, x, y }))
}

#[tactic(auto, unfolding(crate::specs::Commands::fields_of))]
fn add_clip(numbers: &[i32]) -> Option<Command>
    ensures { (rgba : ℕ) → result ≡ spec.fields_of named.AddClip numbers.now rgba }
{
    let id = fields::whole(numbers, 0)?;
    let parent = fields::whole(numbers, 1)?;
    let transform = fields::whole(numbers, 2)?;
    let rect = fields::rect(numbers, 3)?;
    fields::no_more(numbers, 7)?;
    Some(Command::AddClip(AddClip {
        id,
        parent,
        transform,
        rect,
    }))
}

#[tactic(auto, unfolding(crate::specs::Commands::fields_of))]
fn set_clip(numbers: &[i32]) -> Option<Command>
    ensures { (rgba : ℕ) → result ≡ spec.fields_of named.SetClip numbers.now rgba }
{
    let id = fields::whole(numbers, 0)?;
    let rect = fields::rect(numbers, 1)?;
    fields::no_more(numbers, 5)?;
    Some(Command::SetClip(SetClip { id, rect }))
}

#[tactic(auto, unfolding(crate::specs::Commands::fields_of))]
fn add_effect(numbers: &[i32]) -> Option<Command>
    ensures { (rgba : ℕ) → result ≡ spec.fields_of named.AddEffect numbers.now rgba }
{
    let id = fields::whole(numbers, 0)?;
    let parent = fields::whole(numbers, 1)?;
    let opacity = fields::whole(numbers, 2)?;
    fields::no_more(numbers, 3)?;
    Some(Command::AddEffect(AddEffect {
        id,
        parent,
        opacity,
    }))
}

#[tactic(auto, unfolding(crate::specs::Commands::fields_of))]
fn set_opacity(numbers: &[i32]) -> Option<Command>
    ensures { (rgba : ℕ) → result ≡ spec.fields_of named.SetOpacity numbers.now rgba }
{
    let id = fields::whole(numbers, 0)?;
    let opacity = fields::whole(numbers, 1)?;
    fields::no_more(numbers, 2)?;
    Some(Command::SetOpacity(SetOpacity { id, opacity }))
}

#[tactic(auto, unfolding(crate::specs::Commands::fields_of))]
fn add_scroller(numbers: &[i32]) -> Option<Command>
    ensures { (rgba : ℕ) → result ≡ spec.fields_of named.AddScroller numbers.now rgba }
{
    let id = fields::whole(numbers, 0)?;
    let parent = fields::whole(numbers, 1)?;
    let max_x = fields::whole(numbers, 2)?;
    let max_y = fields::whole(numbers, 3)?;
    fields::no_more(numbers, 4)?;
    Some(Command::AddScroller(AddScroller {
        id,
        parent,
        max_x,
        max_y,
    }))
}

#[tactic(auto, unfolding(crate::specs::Commands::fields_of))]
fn set_range(numbers: &[i32]) -> Option<Command>
    ensures { (rgba : ℕ) → result ≡ spec.fields_of named.SetRange numbers.now rgba }
{
    let id = fields::whole(numbers, 0)?;
    let max_x = fields::whole(numbers, 1)?;
    let max_y = fields::whole(numbers, 2)?;
    fields::no_more(numbers, 3)?;
    Some(Command::SetRange(SetRange { id, max_x, max_y }))
}

#[tactic(auto, unfolding(crate::specs::Commands::fields_of))]
fn scroll_by(numbers: &[i32]) -> Option<Command>
    ensures { (rgba : ℕ) → result ≡ spec.fields_of named.ScrollBy numbers.now rgba }
{
    let id = fields::whole(numbers, 0)?;
    let dx = fields::signed(numbers, 1)?;
    let dy = fields::signed(numbers, 2)?;
    fields::no_more(numbers, 3)?;
    Some(Command::ScrollBy(ScrollBy { id, dx, dy }))
}

#[tactic(auto, unfolding(crate::specs::Commands::fields_of))]
fn scroll_to(numbers: &[i32]) -> Option<Command>
    ensures { (rgba : ℕ) → result ≡ spec.fields_of named.ScrollTo numbers.now rgba }
{
    let id = fields::whole(numbers, 0)?;
    let x = fields::whole(numbers, 1)?;
    let y = fields::whole(numbers, 2)?;
    fields::no_more(numbers, 3)?;
    Some(Command::ScrollTo(ScrollTo { id, x, y }))
}

#[tactic(auto, unfolding(crate::specs::Commands::fields_of))]
fn add_layer(numbers: &[i32], rgba: u32) -> Option<Command>
    ensures { result ≡ spec.fields_of named.AddLayer numbers.now rgba }
{
    let id = fields::whole(numbers, 0)?;
    let at = fields::whole(numbers, 1)?;
    let transform = fields::whole(numbers, 2)?;
    let clip = fields::whole(numbers, 3)?;
    let effect = fields::whole(numbers, 4)?;
    let w = fields::whole(numbers, 5)?;
    let h = fields::whole(numbers, 6)?;
    let colour = fields::colour_of(rgba)?;
    fields::no_more(numbers, 7)?;
    Some(Command::AddLayer(AddLayer {
        id,
        at,
        transform,
        clip,
        effect,
        w,
        h,
        colour,
    }))
}

#[tactic(auto, unfolding(crate::specs::Commands::fields_of))]
fn remove_layer(numbers: &[i32]) -> Option<Command>
    ensures { (rgba : ℕ) → result ≡ spec.fields_of named.RemoveLayer numbers.now rgba }
{
    let id = fields::whole(numbers, 0)?;
    fields::no_more(numbers, 1)?;
    Some(Command::RemoveLayer(RemoveLayer { id }))
}

#[tactic(auto, unfolding(crate::specs::Commands::fields_of))]
fn resize_layer(numbers: &[i32]) -> Option<Command>
    ensures { (rgba : ℕ) → result ≡ spec.fields_of named.ResizeLayer numbers.now rgba }
{
    let id = fields::whole(numbers, 0)?;
    let w = fields::whole(numbers, 1)?;
    let h = fields::whole(numbers, 2)?;
    fields::no_more(numbers, 3)?;
    Some(Command::ResizeLayer(ResizeLayer { id, w, h }))
}

#[tactic(auto, unfolding(crate::specs::Commands::fields_of))]
fn set_colour(numbers: &[i32], rgba: u32) -> Option<Command>
    ensures { result ≡ spec.fields_of named.SetColour numbers.now rgba }
{
    let id = fields::whole(numbers, 0)?;
    let colour = fields::colour_of(rgba)?;
    fields::no_more(numbers, 1)?;
    Some(Command::SetColour(SetColour { id, colour }))
}

#[tactic(auto, unfolding(crate::specs::Commands::fields_of))]
fn insert_item(numbers: &[i32], rgba: u32) -> Option<Command>
    ensures { result ≡ spec.fields_of named.InsertItem numbers.now rgba }
{
    let layer = fields::whole(numbers, 0)?;
    let at = fields::whole(numbers, 1)?;
    let rect = fields::rect(numbers, 2)?;
    let colour = fields::colour_of(rgba)?;
    let item = Item::Rect { rect, colour };
    fields::no_more(numbers, 6)?;
    Some(Command::InsertItem(InsertItem { layer, at, item }))
}

#[tactic(auto, unfolding(crate::specs::Commands::fields_of))]
fn remove_item(numbers: &[i32]) -> Option<Command>
    ensures { (rgba : ℕ) → result ≡ spec.fields_of named.RemoveItem numbers.now rgba }
{
    let layer = fields::whole(numbers, 0)?;
    let at = fields::whole(numbers, 1)?;
    fields::no_more(numbers, 2)?;
    Some(Command::RemoveItem(RemoveItem { layer, at }))
}

#[tactic(auto, unfolding(crate::specs::Commands::fields_of))]
fn replace_item(numbers: &[i32], rgba: u32) -> Option<Command>
    ensures { result ≡ spec.fields_of named.ReplaceItem numbers.now rgba }
{
    let layer = fields::whole(numbers, 0)?;
    let at = fields::whole(numbers, 1)?;
    let rect = fields::rect(numbers, 2)?;
    let colour = fields::colour_of(rgba)?;
    let item = Item::Rect { rect, colour };
    fields::no_more(numbers, 6)?;
    Some(Command::ReplaceItem(ReplaceItem { layer, at, item }))
}

#[tactic(auto, unfolding(crate::specs::Commands::fields_of))]
fn move_layer(numbers: &[i32]) -> Option<Command>
    ensures { (rgba : ℕ) → result ≡ spec.fields_of named.MoveLayer numbers.now rgba }
{
    let id = fields::whole(numbers, 0)?;
    let at = fields::whole(numbers, 1)?;
    fields::no_more(numbers, 2)?;
    Some(Command::MoveLayer(MoveLayer { id, at }))
}

#[tactic(auto, unfolding(crate::specs::Commands::fields_of))]
fn set_view(numbers: &[i32]) -> Option<Command>
    ensures { (rgba : ℕ) → result ≡ spec.fields_of named.SetView numbers.now rgba }
{
    let w = fields::whole(numbers, 0)?;
    let h = fields::whole(numbers, 1)?;
    let tile = fields::whole(numbers, 2)?;
    fields::no_more(numbers, 3)?;
    Some(Command::SetView(SetView { w, h, tile }))
}

// The command of its fields.
fn fields_of(op: Op, numbers: &[i32], rgba: u32) -> Option<Command>
    ensures { result ≡ spec.fields_of op numbers.now rgba }
{
    match op {
        Op::AddTransform => add_transform(numbers),
        Op::SetTransform => set_transform(numbers),
        Op::AddClip => add_clip(numbers),
        Op::SetClip => set_clip(numbers),
        Op::AddEffect => add_effect(numbers),
        Op::SetOpacity => set_opacity(numbers),
        Op::AddScroller => add_scroller(numbers),
        Op::SetRange => set_range(numbers),
        Op::ScrollBy => scroll_by(numbers),
        Op::ScrollTo => scroll_to(numbers),
        Op::AddLayer => add_layer(numbers, rgba),
        Op::RemoveLayer => remove_layer(numbers),
        Op::ResizeLayer => resize_layer(numbers),
        Op::SetColour => set_colour(numbers, rgba),
        Op::InsertItem => insert_item(numbers, rgba),
        Op::RemoveItem => remove_item(numbers),
        Op::ReplaceItem => replace_item(numbers, rgba),
        Op::MoveLayer => move_layer(numbers),
        Op::SetView => set_view(numbers),
    }
}

/// The command of a number that takes no pixels; None if it has none, or the fields do not fit.
#[tactic(auto, unfolding(crate::specs::Commands::plain_command))]
pub(crate) fn plain_command(op: u32, numbers: &[i32], rgba: u32) -> Option<Command>
    ensures { result ≡ spec.plain_command op numbers.now rgba }
{
    fields_of(Op::numbered(op)?, numbers, rgba)
}
