//! Event lines, read back.

ghost use Rattle.std.specs.Prelude.{◌<◌, Option, IfOk};
ghost use Rattle.recording_text.specs.Lines as lines;
ghost use Rattle.recording_text.specs.Taken.{TakesLine};

use crate::guess::guess;
use crate::line::push_event;
use crate::scratch::Scratch;
use model_history::Event;
use std::alloc::{AllocError, Global};

/// An event whose line bytes begin with.
#[derive(Drop)]
pub struct Line {
    /// The event.
    pub event: Event,
    /// How many bytes its line has, the newline among them.
    pub size: usize,
}

/// The event with its line, if the bytes begin with that.
#[tactic(auto, using(crate::proofs::TakenLines::taken_line, crate::proofs::TakenLines::not_taken))]
fn checked(bytes: &[u8], event: Event, line: &mut Vec<u8>) -> Result<Option<Line>, AllocError>
    ensures { IfOk result (λ taken. TakesLine bytes.now (lines.checked bytes.now event) taken) }
{
    line.clear();
    push_event(line, &event)?;
    if !bytes.starts_with(line.as_slice()) {
        return Ok(None);
    }
    Ok(Some(Line {
        event,
        size: line.len(),
    }))
}

/// The event whose line these bytes begin with, and the length of the line; None exactly if they
/// begin with no event's line. The room holds nothing that matters, before and after.
#[tactic(auto, unfolding(crate::specs::Lines::event_at))]
pub fn take_event(bytes: &[u8], scratch: &mut Scratch) -> Result<Option<Line>, AllocError>
    ensures { IfOk result (λ taken. TakesLine bytes.now (lines.event_at bytes.now) taken) }
{
    let Some(event) = guess(bytes, scratch)? else {
        return Ok(None);
    };
    checked(bytes, event, &mut scratch.line)
}

/// The event whose line this is, with its newline and nothing more; None exactly if it is no
/// event's. A number that does not fit its field, a sign or a zero too many, and any other spelling
/// make it none.
pub fn read_event(alloc: Global, line: &[u8]) -> Result<Option<Event>, AllocError>
    ensures { IfOk result (λ event. lines.ReadsLine line.now event) }
{
    let mut scratch = Scratch::new(alloc);
    let Some(taken) = take_event(line, &mut scratch)? else {
        return Ok(None);
    };
    if taken.size < line.len() {
        return Ok(None);
    }
    Ok(Some(taken.event))
}
