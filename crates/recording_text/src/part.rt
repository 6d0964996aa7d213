//! The parts of a recording: an event's line, and the image after it if it is a draw.

ghost use Rattle.std.specs.Prelude.{◌≡◌, ◌+◌, ◌<◌, ◌≤◌, length, drop, Result, IfOk};
ghost use Rattle.model_history.specs.EventFields as fields;
ghost use Rattle.recording_text.specs.Pieces as pieces;
ghost use Rattle.recording_text.specs.inner.Parts as parts;
ghost use Rattle.recording_text.specs.inner.Within.{IsWithin};

use crate::{Scratch, image_length, take_event};
use model_history::{Entry, Event};
use page_layers::View;
use std::alloc::AllocError;

/// A part of a recording.
#[derive(Drop)]
pub struct RecordingPart {
    /// The event of the line.
    pub event: Event,
    /// How many bytes the part has, the image among them.
    pub size: usize,
    /// Where in the part its image begins, if it has one.
    pub image: Option<usize>,
}

// What stands after the first bytes.
fn behind(bytes: &[u8], count: usize) -> &[u8]
    requires { count ≤ length bytes.now }
    ensures { result.now ≡ drop count bytes.now }
{
    &bytes[count..]
}

// A draw with the image after its line.
#[tactic(auto, unfolding(crate::specs::inner::Parts::with_image))]
fn with_image(view: View, bytes: &[u8], event: Event, line: usize) -> Result<RecordingPart, usize>
    requires size { line ≡ parts.line_length event }
    requires some { 0 < line }
    requires within { line ≤ length bytes.now }
    ensures part { result ≡ parts.with_image view bytes.now event }
    ensures within { IsWithin (length bytes.now) result }
{
    match image_length(behind(bytes, line), view.w, view.h) {
        Some(image) => Ok(RecordingPart {
            event,
            size: line + image,
            image: Some(line),
        }),
        None => Err(line),
    }
}

// A part that is a line alone.
#[tactic(auto, unfolding(crate::specs::inner::Parts::bare))]
fn bare(event: Event, line: usize) -> RecordingPart
    requires { line ≡ parts.line_length event }
    ensures { result ≡ parts.bare event }
{
    RecordingPart {
        event,
        size: line,
        image: None,
    }
}

// The end of a recording.
#[tactic(auto, unfolding(crate::specs::inner::Parts::at_end, crate::specs::inner::Parts::bare))]
fn at_end(bytes: &[u8], line: usize) -> Result<RecordingPart, usize>
    requires size { line ≡ parts.line_length Event.End }
    requires some { 0 < line }
    requires within { line ≤ length bytes.now }
    ensures part { result ≡ parts.at_end bytes.now Event.End }
    ensures within { IsWithin (length bytes.now) result }
{
    if behind(bytes, line).is_empty() {
        Ok(bare(Event::End, line))
    } else {
        Err(line)
    }
}

// The part that an event's line begins.
#[tactic(auto, unfolding(crate::specs::inner::Parts::part_of, crate::specs::inner::Parts::bare))]
fn part_of(view: View, bytes: &[u8], event: Event, line: usize) -> Result<RecordingPart, usize>
    requires size { line ≡ parts.line_length event }
    requires some { 0 < line }
    requires within { line ≤ length bytes.now }
    ensures part { result ≡ parts.part_of view bytes.now event }
    ensures within { IsWithin (length bytes.now) result }
{
    match event {
        Event::Draw { input, missing } => {
            with_image(view, bytes, Event::Draw { input, missing }, line)
        }
        Event::Stop { .. } => Err(0),
        Event::End => at_end(bytes, line),
        other => Ok(bare(other, line)),
    }
}

/// The part at the start of these bytes, if images have the size of this view; or where in it the
/// first thing stands that is not of its form.
#[tactic(auto, unfolding(crate::specs::inner::Parts::part_at))]
pub fn part_at(
    view: View,
    bytes: &[u8],
    scratch: &mut Scratch,
) -> Result<Result<RecordingPart, usize>, AllocError>
    ensures part { IfOk result (λ part. part ≡ parts.part_at view bytes.now) }
    ensures within { IfOk result (λ part. IsWithin (length bytes.now) part) }
{
    match take_event(bytes, scratch)? {
        Some(line) => Ok(part_of(view, bytes, line.event, line.size)),
        None => Ok(Err(0)),
    }
}

// The number of an actor, if it fits 32 bits, or the greatest one: a worker's entries have its
// number and 2.
fn actor_of(event: &Event) -> u32
    ensures { result ≡ pieces.at_most_u32 (fields.actor_of event.now) }
{
    match event {
        Event::Ready { .. } | Event::Abort { .. } => 1,
        Event::Start { worker, .. } | Event::DoneTile { worker, .. } => worker.saturating_add(2),
        Event::Stop { actor } => *actor,
        _ => 0,
    }
}

/// The entry of an event that was read: its actor is the one whose event it is.
#[tactic(auto, unfolding(crate::specs::Pieces::entry_of))]
pub fn entry_of(event: Event) -> Entry
    ensures { result ≡ pieces.entry_of event }
{
    let actor = actor_of(&event);
    Entry { actor, event }
}
