//! Main frames on a tree: first the pulls, then the commands.

ghost use Rattle.std.specs.Prelude.{◌≡◌, ℕ, ◌-ℤ◌, not, ◌||◌, OnOk};
ghost use Rattle.std.specs.List.{list_any};
ghost use Rattle.std.specs.Ordering.{int_eq};
ghost use Rattle.model_states.specs.Bounds.{IsBoundedNumber};
ghost use Rattle.page_layers.specs.Effects.{scrolled_by, page_after_pulls};
ghost use Rattle.page_layers.specs.Axes.{named_in};
ghost use Rattle.model_history.specs.Scripts.{ScriptModel};
ghost use Rattle.model_history.specs.Frames.{commands_of};
ghost use Rattle.model_history.specs.Ended.{AreBounded, TookCommands, TookFrame, StandsBefore, TookScriptFrame, Tells};
ghost use Rattle.model_history.specs.inner.Ending.{Noted, TookCommand, IsPullOf, is_moved};

use crate::script::Script;
use geom::Point;
use page_layers::{Command, EditError, LayerTree, Move};
use region::Changes;
use std::alloc::{AllocError, Global};

// Adds a pull to the main value of its scroller, if the tree has it.
fn pull_one(tree: &mut LayerTree, pull: Move)
    requires across { IsBoundedNumber pull.dx }
    requires down { IsBoundedNumber pull.dy }
    ensures { tree.new ≡ scrolled_by tree.old pull.scroller pull.dx pull.dy }
{
    match tree.props().scroller(pull.scroller) {
        Some(_) => {
            tree.pull(pull.scroller, pull.dx, pull.dy);
        }
        None => tree.is_page(),
    }
}

// Adds pulls in order.
fn pull_all(tree: &mut LayerTree, pulls: &[Move])
    requires { AreBounded pulls.now }
    ensures { tree.new ≡ page_after_pulls pulls.now tree.old }
{
    for pull in pulls {
        pull_one(tree, *pull);
    }
}

// Notes what a command lists. A layer that it removed is no longer listed.
fn note(changes: &mut Changes, command: &Command, listed: &Changes) -> Result<(), AllocError>
    ensures { OnOk result (Noted command.now listed.now changes.old changes.new) }
{
    match command {
        Command::RemoveLayer(fields) => {
            changes.forget(fields.id);
            Ok(())
        }
        _ => changes.join(listed),
    }
}

// Applies a command and notes what it lists.
fn take_command(
    tree: &mut LayerTree,
    command: &Command,
    changes: &mut Changes,
) -> Result<(), EditError>
    ensures { TookCommand tree.old command.now changes.old tree.new changes.new result }
{
    match tree.apply(command) {
        Ok(listed) => match note(changes, command, &listed) {
            Ok(()) => Ok(()),
            Err(refused) => Err(EditError::Memory(refused)),
        },
        Err(error) => Err(error),
    }
}

// Applies commands in order and notes what they list.
fn take_commands(
    alloc: Global,
    tree: &mut LayerTree,
    commands: &[Command],
) -> Result<Changes, EditError>
    ensures { TookCommands tree.old commands.now tree.new result }
{
    let mut changes = Changes::new(alloc);
    for command in commands {
        if let Err(error) = take_command(tree, command, &mut changes) {
            return Err(error);
        }
    }
    Ok(changes)
}

/// Ends a main frame on a tree: adds each pull to the main value of its scroller and clamps it to its
/// range, then applies the commands in order. Answers what the commands changed together; a layer that
/// one of them removed is not listed for what came before.
///
/// The parts of a pull are below 2^58 in absolute value; one of a scroller that the tree lacks does nothing.
/// After a refusal the tree has the pulls and the commands before the refused one; when memory runs out it
/// has the pulls and the first few commands.
pub fn apply_frame(
    alloc: Global,
    tree: &mut LayerTree,
    pulls: &[Move],
    commands: &[Command],
) -> Result<Changes, EditError>
    requires { AreBounded pulls.now }
    ensures { TookFrame tree.old pulls.now commands.now tree.new result }
{
    pull_all(tree, pulls);
    take_commands(alloc, tree, commands)
}

/// Ends a main frame of a script on the tree before it, as `apply_frame` does with the frame's commands.
/// A script's commands are taken whatever was pulled, so an error means out of memory; the tree then has
/// the pulls and the first few commands.
pub fn take_frame(
    alloc: Global,
    script: &Script,
    frame: u32,
    pulls: &[Move],
    tree: &mut LayerTree,
) -> Result<Changes, AllocError>
    requires bounded { AreBounded pulls.now }
    requires before { StandsBefore script.now frame pulls.now tree.old }
    ensures { TookScriptFrame script.now frame pulls.now tree.old tree.new result }
{
    script.is_accepted();
    let own = script.commands(frame);
    match apply_frame(alloc, tree, pulls, own) {
        Ok(changes) => Ok(changes),
        Err(EditError::Memory(refused)) => Err(refused),
        Err(EditError::Refused(_)) => unreachable!(),
    }
}

// How far a value is from an earlier one.
fn gap(new: i32, old: i32) -> i64
    ensures { result ≡ new -ℤ old }
{
    new as i64 - old as i64
}

// Whether two amounts differ.
fn differs(a: i64, b: i64) -> bool
    ensures { result ≡ not (int_eq a b) }
{
    a != b
}

// What some pulls have for a scroller: its first one, or (0, 0).
fn pull_of(pulls: &[Move], scroller: u32) -> Move
    requires { AreBounded pulls.now }
    ensures { IsPullOf scroller pulls.now result }
{
    for pull in pulls {
        if pull.scroller == scroller {
            return *pull;
        }
    }
    Move {
        scroller,
        dx: 0,
        dy: 0,
    }
}

// Whether a value changed by another amount than this.
fn changed_else(old: i32, new: i32, by: i64) -> bool
    ensures { result ≡ not (int_eq (new -ℤ old) by) }
{
    differs(gap(new, old), by)
}

// Whether a point changed by another move than this.
fn moved_else(old: Point, new: Point, by: Move) -> bool
    ensures { result ≡ (not (int_eq (new.x -ℤ old.x) by.dx) || not (int_eq (new.y -ℤ old.y) by.dy)) }
{
    let across = changed_else(old.x, new.x, by.dx);
    let down = changed_else(old.y, new.y, by.dy);
    across || down
}

// Whether the main value of a scroller changed by more or less than its pull.
fn moves_main(before: &LayerTree, after: &LayerTree, pulls: &[Move], scroller: u32) -> bool
    requires { AreBounded pulls.now }
    ensures { result ≡ is_moved before.now after.now pulls.now scroller }
{
    let by = pull_of(pulls, scroller);
    let old = before.value(scroller);
    let new = after.value(scroller);
    moved_else(old, new, by)
}

// Whether the main value of some scroller that the pulls name changed by more or less than its pull.
fn moves_some(before: &LayerTree, after: &LayerTree, pulls: &[Move]) -> bool
    requires { AreBounded pulls.now }
    ensures { result ≡ list_any (is_moved before.now after.now pulls.now) (named_in pulls.now) }
{
    for pull in pulls {
        if moves_main(before, after, pulls, pull.scroller) {
            return true;
        }
    }
    false
}

/// Whether a main frame with these commands changes something: it has any, or the main value of some
/// scroller changed by more or less than its pull. `before` is the page before the frame and `after` the
/// one after it. The parts of a pull are below 2^58 in absolute value.
pub fn changes_something(
    commands: &[Command],
    pulls: &[Move],
    before: &LayerTree,
    after: &LayerTree,
) -> bool
    requires { AreBounded pulls.now }
    ensures { (s : ScriptModel) (frame : ℕ) → commands_of s frame ≡ commands.now → Tells s frame pulls.now before.now after.now result }
{
    match commands {
        [] => moves_some(before, after, pulls),
        [_, ..] => true,
    }
}
