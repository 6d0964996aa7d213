//! What is asked of pages.

use crate::calls::changes::{say_changes, say_point};
use crate::calls::moves::pull_of;
use crate::calls::texts::commands_of;
use page_layers::{Command, EditError, Layer, LayerTree};
use page_properties::PropertyTrees;
use std::alloc::{AllocError, Global};
use test_table::{Answer, LineFault};

/// Says how large a page is, and its tiles.
pub fn view(tree: &LayerTree, answer: &mut Answer) {
    let view = tree.view();
    let (w, h, tile) = (view.w, view.h, view.tile);
    answer.say("view", &[i64::from(w), i64::from(h), i64::from(tile)]);
}

/// Applies a command, and says what it changes.
fn apply(tree: &mut LayerTree, command: &Command, answer: &mut Answer) -> Result<(), LineFault> {
    match tree.apply(command) {
        Ok(changes) => {
            say_changes(&changes, answer);
            Ok(())
        }
        Err(EditError::Refused(_)) => Err(LineFault::PageRefuses),
        Err(_) => Err(LineFault::Memory(AllocError)),
    }
}

/// Applies commands, and says what each changes.
fn apply_all(
    tree: &mut LayerTree,
    commands: &[Command],
    answer: &mut Answer,
) -> Result<(), LineFault> {
    for command in commands {
        apply(tree, command, answer)?;
    }
    Ok(())
}

/// Says what commands change on a page.
pub fn changes(
    alloc: Global,
    tree: &mut LayerTree,
    commands: &str,
    answer: &mut Answer,
) -> Result<(), LineFault> {
    let commands = commands_of(alloc, commands)?;
    apply_all(tree, commands.as_slice(), answer)
}

/// Pulls scroller 1, if the page has it, and says how far.
fn pull(tree: &mut LayerTree, by: &str, answer: &mut Answer) -> Result<(), LineFault> {
    let by = pull_of(by)?;
    if tree.props().scroller(1).is_none() {
        return Err(LineFault::PageRefuses);
    }
    say_point("moved", tree.pull(1, by.dx, by.dy), answer);
    Ok(())
}

/// Says how far each pull moves scroller 1 of a page, and where it and scroller 2 stand then.
pub fn pulls(tree: &mut LayerTree, pulls: &str, answer: &mut Answer) -> Result<(), LineFault> {
    for by in pulls.split("; ") {
        pull(tree, by, answer)?;
    }
    say_point("scroller 1 at", tree.value(1), answer);
    say_point("scroller 2 at", tree.value(2), answer);
    Ok(())
}

/// Says what a layer is: its id, its size, its colour, the number of its items and the rect of the first.
fn say_layer(layer: &Layer, answer: &mut Answer) {
    let (id, w, h) = (layer.id, layer.w, layer.h);
    answer.say("layer", &[i64::from(id), i64::from(w), i64::from(h)]);
    answer.say_colour("colour", layer.colour);
    answer.say_count("items", layer.list.len());
    if let Some(item) = layer.list.item(0) {
        answer.say_rect("first", item.rect());
    }
}

/// Says what the layers of a page are.
fn say_layers(words: &str, tree: &LayerTree, answer: &mut Answer) {
    answer.say(words, &[]);
    for layer in tree.layers() {
        say_layer(layer, answer);
    }
}

/// Says what commands change on a page, then the layers of a copy that was made before them, and the
/// layers of the page.
pub fn copy(
    alloc: Global,
    tree: &mut LayerTree,
    later: &str,
    answer: &mut Answer,
) -> Result<(), LineFault> {
    let copy = tree.copy()?;
    let changed = changes(alloc, tree, later, answer);
    say_layers("copy", &copy, answer);
    say_layers("page", tree, answer);
    changed
}

/// Says what the scroller at a place is, if there is one: its id, its parent, and the ends of its range.
fn say_scroller(props: &PropertyTrees, place: usize, answer: &mut Answer) {
    let Some(id) = props.scroller_id(place) else {
        return;
    };
    if let Some(node) = props.scroller(id) {
        let (parent, x, y) = (node.parent, node.max_x, node.max_y);
        answer.say("scroller", &[i64::from(id)]);
        answer.say("in", &[i64::from(parent)]);
        answer.say("to", &[i64::from(x), i64::from(y)]);
    }
}

/// Says what the scrollers are, by their ids.
fn say_scrollers(props: &PropertyTrees, answer: &mut Answer) {
    for place in 0..props.scrollers() {
        say_scroller(props, place, answer);
    }
}

/// Says what the scrollers of a copy of a page are, by their ids.
pub fn scrollers(tree: &LayerTree, answer: &mut Answer) -> Result<(), LineFault> {
    let props = tree.props().copy()?;
    say_scrollers(&props, answer);
    Ok(())
}
