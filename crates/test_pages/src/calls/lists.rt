//! What is asked of lists of moves and of histories.

use crate::calls::moves::move_of;
use model_history::{Entry, Event, History, Moves};
use std::alloc::Global;
use test_table::{Answer, LineFault, wholes};

/// Adds a move.
fn add_move(moves: &mut Moves, text: &str) -> Result<(), LineFault> {
    match moves.push(move_of(text)?) {
        Ok(()) => Ok(()),
        Err((refused, _)) => Err(LineFault::Memory(refused)),
    }
}

/// Adds the moves of a text.
fn add_moves(moves: &mut Moves, text: &str) -> Result<(), LineFault> {
    for one in text.split("; ") {
        add_move(moves, one)?;
    }
    Ok(())
}

/// Says whether something stands after the last.
fn say_behind(more: bool, answer: &mut Answer) {
    answer.say(if more { "more" } else { "no more" }, &[]);
}

/// Says how many moves there are, the first of them, and whether there is one after the last.
fn say_moves(moves: &Moves, answer: &mut Answer) {
    answer.say_count("moves", moves.len());
    if let Some(first) = moves.at(0) {
        answer.say("first", &[i64::from(first.scroller), first.dx, first.dy]);
    }
    say_behind(moves.at(moves.len()).is_some(), answer);
}

/// Says how many moves a copy of a list has, the first of them, and whether there is one after the last.
pub fn moves(alloc: Global, text: &str, answer: &mut Answer) -> Result<(), LineFault> {
    let mut moves = Moves::new(alloc);
    add_moves(&mut moves, text)?;
    say_moves(&moves.copy()?, answer);
    Ok(())
}

/// An event of an actor, whose kind does not matter here.
fn entry_of(actor: u32) -> Entry {
    Entry {
        actor,
        event: Event::BeginPlain,
    }
}

/// Adds an entry of actor 0.
fn add_first(history: &mut History) -> Result<(), LineFault> {
    match history.push(entry_of(0)) {
        Ok(()) => Ok(()),
        Err((refused, _)) => Err(LineFault::Memory(refused)),
    }
}

/// Adds an entry of this actor in a place that is reserved before.
fn add_reserved(history: &mut History, actor: &str) -> Result<(), LineFault> {
    let [actor] = wholes::<1>(actor, ' ')?;
    history.reserve(1)?;
    history.push_reserved(entry_of(actor));
    Ok(())
}

/// Adds an entry of actor 0 and one of each of these actors.
fn add_entries(history: &mut History, actors: &str) -> Result<(), LineFault> {
    add_first(history)?;
    for actor in actors.split("; ") {
        add_reserved(history, actor)?;
    }
    Ok(())
}

/// Says how many entries there are, the actor of the last one, and whether there is one after it.
fn say_entries(history: &History, answer: &mut Answer) {
    let count = history.len();
    answer.say_count("entries", count);
    if let Some(last) = history.entry(count.saturating_sub(1)) {
        answer.say("last of actor", &[i64::from(last.actor)]);
    }
    say_behind(history.entry(count).is_some(), answer);
}

/// Says how many entries a history has with one of actor 0 and one of each of these, the actor of the last
/// one, and whether there is one after it.
pub fn entries(alloc: Global, actors: &str, answer: &mut Answer) -> Result<(), LineFault> {
    let mut history = History::new(alloc);
    add_entries(&mut history, actors)?;
    say_entries(&history, answer);
    Ok(())
}
