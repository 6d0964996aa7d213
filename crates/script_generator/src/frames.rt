//! The main frames of a made script.

ghost use Rattle.std.specs.Prelude.{◌≡◌, ◌+◌, ◌<◌, ◌++◌, ◌∷◌, [], false, map, IfOk, OnOk};
ghost use Rattle.script_generator.specs.Draws.{after_draws, drawn};
ghost use Rattle.script_generator.specs.Generated as spec;

use crate::draws::Draws;
use geom::Rect;
use page_display_list::Item;
use page_layers::command::{
    AddClip, AddEffect, AddLayer, AddScroller, AddTransform, Command, InsertItem, ReplaceItem,
    ScrollBy,
};
use pixel::Colour;
use std::alloc::{AllocError, Global};

/// An opaque colour.
pub(crate) fn opaque(r: u8, g: u8, b: u8) -> Colour
    ensures { result ≡ spec.opaque r g b }
{
    match Colour::new(r, g, b, 255) {
        Some(colour) => colour,
        None => unreachable!(),
    }
}

// A drawn rect.
#[tactic(auto, unfolding(crate::specs::Draws::after_draws))]
fn drawn_rect(draws: &mut Draws) -> Rect
    ensures kept { draws.new.kept ≡ after_draws draws.old.kept 4 }
    ensures value { result ≡ spec.rect (drawn draws.old.kept 0 240) (drawn draws.old.kept 1 2160) (8 + drawn draws.old.kept 2 60) (8 + drawn draws.old.kept 3 60) }
{
    let x = draws.next(240) as i32;
    let y = draws.next(2160) as i32;
    let w = 8 + draws.next(60) as i32;
    let h = 8 + draws.next(60) as i32;
    Rect { x, y, w, h }
}

// A drawn opaque colour.
#[tactic(auto, unfolding(crate::specs::Draws::after_draws))]
fn drawn_colour(draws: &mut Draws) -> Colour
    ensures kept { draws.new.kept ≡ after_draws draws.old.kept 3 }
    ensures value { result ≡ spec.opaque (drawn draws.old.kept 0 256) (drawn draws.old.kept 1 256) (drawn draws.old.kept 2 256) }
{
    let r = draws.next(256) as u8;
    let g = draws.next(256) as u8;
    let b = draws.next(256) as u8;
    opaque(r, g, b)
}

// A drawn item.
#[tactic(auto, unfolding(crate::specs::Draws::after_draws, crate::specs::Generated::drawn_item))]
fn drawn_item(draws: &mut Draws) -> Item
    ensures kept { draws.new.kept ≡ after_draws draws.old.kept 7 }
    ensures value { result ≡ spec.drawn_item draws.old.kept }
{
    let rect = drawn_rect(draws);
    let colour = drawn_colour(draws);
    Item::Rect { rect, colour }
}

// The two layers: one that scrolls, and a header above it.
fn push_page(commands: &mut Vec<Command>) -> Result<(), AllocError>
    ensures { OnOk result (commands.new.items ≡ commands.old.items ++ spec.page_commands) }
{
    push_nodes(commands)?;
    push_layers(commands)
}

// The nodes of the page: a scroller, its transform, the viewport's clip and the header's effect.
fn push_nodes(commands: &mut Vec<Command>) -> Result<(), AllocError>
    ensures { OnOk result (commands.new.items ≡ commands.old.items ++ spec.node_commands) }
{
    commands.push(Command::AddScroller(AddScroller {
        id: 1,
        parent: 0,
        max_x: 0,
        max_y: 2000,
    }))?;
    commands.push(Command::AddTransform(AddTransform {
        id: 1,
        parent: 0,
        x: 0,
        y: 0,
        scroller: 1,
    }))?;
    commands.push(Command::AddClip(AddClip {
        id: 1,
        parent: 0,
        transform: 0,
        rect: Rect {
            x: 0,
            y: 0,
            w: 256,
            h: 192,
        },
    }))?;
    commands.push(Command::AddEffect(AddEffect {
        id: 1,
        parent: 0,
        opacity: 200,
    }))?;
    Ok(())
}

// The layers of the page, and the header's item.
fn push_layers(commands: &mut Vec<Command>) -> Result<(), AllocError>
    ensures { OnOk result (commands.new.items ≡ commands.old.items ++ spec.layer_commands) }
{
    commands.push(Command::AddLayer(AddLayer {
        id: 1,
        at: 0,
        transform: 1,
        clip: 1,
        effect: 0,
        w: 256,
        h: 2192,
        colour: opaque(0xdd, 0xdd, 0xdd),
    }))?;
    commands.push(Command::AddLayer(AddLayer {
        id: 2,
        at: 1,
        transform: 0,
        clip: 0,
        effect: 1,
        w: 256,
        h: 24,
        colour: opaque(0, 0, 0),
    }))?;
    commands.push(Command::InsertItem(InsertItem {
        layer: 2,
        at: 0,
        item: Item::Rect {
            rect: Rect {
                x: 0,
                y: 0,
                w: 256,
                h: 24,
            },
            colour: opaque(0x20, 0x20, 0x40),
        },
    }))?;
    Ok(())
}

// Puts 200 drawn items into layer 1.
fn push_items(commands: &mut Vec<Command>, draws: &mut Draws) -> Result<(), AllocError>
    ensures { OnOk result ((commands.new.items ≡ commands.old.items ++ spec.inserts draws.old.kept 0 200) × (draws.new.kept ≡ after_draws draws.old.kept 1400)) }
{
    let mut at = 0;
    while at < 200 {
        let item = drawn_item(draws);
        commands.push(Command::InsertItem(InsertItem { layer: 1, at, item }))?;
        at += 1;
    }
    Ok(())
}

// Main frame 0.
fn first_frame(alloc: Global, draws: &mut Draws) -> Result<Vec<Command>, AllocError>
    ensures { IfOk result (λ commands. (commands.items ≡ spec.first_frame draws.old.kept) × (draws.new.kept ≡ after_draws draws.old.kept 1400)) }
{
    let mut commands = Vec::new(alloc);
    push_page(&mut commands)?;
    push_items(&mut commands, draws)?;
    Ok(commands)
}

// The command of a later main frame, which has one.
#[tactic(auto, unfolding(crate::specs::Draws::after_draws, crate::specs::Generated::later_frame))]
fn later_command(number: u32, draws: &mut Draws) -> Command
    requires { spec.is_empty_frame number ≡ false }
    ensures kept { draws.new.kept ≡ after_draws draws.old.kept (spec.frame_draws number) }
    ensures value { spec.later_frame number draws.old.kept ≡ result ∷ [] }
{
    if number % 2 == 1 {
        let at = draws.next(200);
        let item = drawn_item(draws);
        Command::ReplaceItem(ReplaceItem { layer: 1, at, item })
    } else {
        let dy = draws.next(40) as i32;
        Command::ScrollBy(ScrollBy { id: 1, dx: 0, dy })
    }
}

// A later main frame.
#[tactic(auto, unfolding(crate::specs::Draws::after_draws, crate::specs::Generated::later_frame))]
fn later_frame(alloc: Global, number: u32, draws: &mut Draws) -> Result<Vec<Command>, AllocError>
    ensures { IfOk result (λ commands. (commands.items ≡ spec.later_frame number draws.old.kept) × (draws.new.kept ≡ after_draws draws.old.kept (spec.frame_draws number))) }
{
    let mut commands = Vec::new(alloc);
    if number % 5 != 0 {
        commands.push(later_command(number, draws))?;
    }
    Ok(commands)
}

/// The main frames.
pub(crate) fn frames(alloc: Global, draws: &mut Draws) -> Result<Vec<Vec<Command>>, AllocError>
    ensures { IfOk result (λ frames. (map (λ (frame : _). frame.items) frames.items ≡ spec.frames draws.old.kept) × (draws.new.kept ≡ spec.after_frames (after_draws draws.old.kept 1400) 1 20)) }
{
    let mut frames = Vec::new(alloc);
    frames.push(first_frame(alloc, draws)?)?;
    let mut number = 1;
    while number <= 20 {
        frames.push(later_frame(alloc, number, draws)?)?;
        number += 1;
    }
    Ok(frames)
}
