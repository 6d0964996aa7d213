//! What is asked of main frames.

ghost use Rattle.std.specs.Prelude.{IfOk};
ghost use Rattle.model_states.specs.Bounds.{IsBoundedNumber};
ghost use Rattle.model_history.specs.Ended.{AreBounded};

use crate::calls::changes::{say_changes, say_point};
use crate::calls::moves::pull_of;
use crate::frames::Frames;
use crate::scripts::script_of;
use main_host::MainEnd;
use model_history::{Commit, Moves};
use page_layers::Move;
use std::alloc::{AllocError, Global};
use test_table::{Answer, LineFault};

/// The pulls of a frame: one, or none if it is 0 0.
fn pulls_of(alloc: Global, by: Move) -> Result<Moves, AllocError>
    requires across { IsBoundedNumber by.dx }
    requires down { IsBoundedNumber by.dy }
    ensures { IfOk result (λ moves. AreBounded moves) }
{
    let mut moves = Moves::new(alloc);
    if by.dx == 0 && by.dy == 0 {
        return Ok(moves);
    }
    match moves.push(by) {
        Ok(()) => Ok(moves),
        Err((refused, _)) => Err(refused),
    }
}

/// Says what a commit is: its frame, where scroller 1 stands, and what it changes.
fn say_commit(commit: &Commit, answer: &mut Answer) {
    answer.say("ready", &[i64::from(commit.frame())]);
    say_point("at", commit.tree().value(1), answer);
    say_changes(commit.changes(), answer);
}

/// Says how a frame ended.
fn say_end(end: &MainEnd, answer: &mut Answer) {
    match end {
        MainEnd::Ready(commit) => say_commit(commit, answer),
        MainEnd::Abort { frame } => answer.say("abort", &[i64::from(*frame)]),
    }
}

/// Ends the next main frame with a pull of scroller 1.
fn end_next(
    alloc: Global,
    frames: &mut Frames,
    by: &str,
    answer: &mut Answer,
) -> Result<(), LineFault> {
    let by = pull_of(by)?;
    let pulls = pulls_of(alloc, by)?;
    let end = frames.end_next(&pulls)?;
    say_end(&end, answer);
    Ok(())
}

/// Says how main frames of a script end with these pulls of scroller 1, and which is next.
pub fn frames(
    alloc: Global,
    text: &str,
    pulls: &str,
    answer: &mut Answer,
) -> Result<(), LineFault> {
    let mut frames = Frames::new(alloc, script_of(alloc, text)?)?;
    for by in pulls.split("; ") {
        end_next(alloc, &mut frames, by, answer)?;
    }
    answer.say("next", &[i64::from(frames.next_frame())]);
    Ok(())
}
