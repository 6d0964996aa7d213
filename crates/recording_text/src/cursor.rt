//! A way through a recording, part by part.

ghost use Rattle.std.specs.Prelude.{◌≡◌, ◌+◌, ◌-◌, ◌<◌, ◌≤◌, ◌^◌, length, drop, Option, Result, IfOk, option_to_list};
ghost use Rattle.recording_text.specs.Pieces as pieces;
ghost use Rattle.recording_text.specs.inner.Parts as parts;
ghost use Rattle.recording_text.specs.Views.{view_at};
ghost use Rattle.recording_text.specs.inner.Within.{IsWithin};
ghost use Rattle.recording_text.specs.inner.Steps.{Steps, Moves};
ghost use Rattle.recording_text.specs.Taking.{IsAmong, TakesNext, Advances, start_at};

use crate::Scratch;
use crate::part::{RecordingPart, part_at};
use crate::views::ImageViews;
use model_history::Event;
use std::alloc::AllocError;

/// Where the reading of a recording stands.
#[derive(Clone, Copy, Debug, Drop, PartialEq)]
pub struct Cursor {
    /// The offset of the next part.
    pub at: usize,
    /// How many events stand before it.
    pub index: u64,
    /// The main frame that was activated last.
    pub shown: Option<u32>,
}

impl Cursor {
    /// Before the part at an offset, with no event before it.
    pub fn at(offset: usize) -> Cursor
        ensures { result ≡ start_at offset }
    {
        Cursor {
            at: offset,
            index: 0,
            shown: None,
        }
    }
}

/// Where an image stands in a recording.
#[derive(Clone, Copy, Debug, Drop, PartialEq)]
pub struct ImageSpan {
    /// The index of its draw among the events.
    pub event: u64,
    /// The offset at which it begins.
    pub at: u64,
    /// How many bytes it has.
    pub size: u64,
}

/// An event of a recording, and where its image stands.
#[derive(Drop)]
pub struct EventSpan {
    /// The event.
    pub event: Event,
    /// The image after a draw.
    pub image: Option<ImageSpan>,
}

// The frame that was activated last, after an event.
fn shown_after(shown: Option<u32>, event: &Event) -> Option<u32>
    ensures { result ≡ pieces.shown_after shown event.now }
{
    match event {
        Event::Activate { frame, .. } => Some(*frame),
        _ => shown,
    }
}

// Where the image of a part stands.
fn span_of(cursor: &Cursor, size: usize, front: Option<usize>) -> Option<ImageSpan>
    requires long { cursor.now.at + size < 2 ^ 32 }
    requires within { parts.Begins front size }
    ensures { option_to_list result ≡ parts.images_in cursor.now.index cursor.now.at size front }
{
    match front {
        Some(front) => Some(ImageSpan {
            event: cursor.index,
            at: (cursor.at + front) as u64,
            size: (size - front) as u64,
        }),
        None => None,
    }
}

// Goes on after a part.
fn pass(cursor: &mut Cursor, part: RecordingPart) -> EventSpan
    requires long { cursor.old.at + part.size < 2 ^ 32 }
    requires few { cursor.old.index < 2 ^ 32 }
    requires within { parts.Begins part.image part.size }
    ensures { Moves part cursor.old cursor.new result }
{
    let image = span_of(cursor, part.size, part.image);
    cursor.at += part.size;
    cursor.index += 1;
    cursor.shown = shown_after(cursor.shown, &part.event);
    EventSpan {
        event: part.event,
        image,
    }
}

// The part at a cursor.
fn part_from(
    bytes: &[u8],
    views: &ImageViews,
    cursor: &Cursor,
    scratch: &mut Scratch,
) -> Result<Result<RecordingPart, usize>, AllocError>
    requires { cursor.now.at ≤ length bytes.now }
    ensures part { IfOk result (λ part. part ≡ parts.part_at (view_at views.now cursor.now.shown) (drop cursor.now.at bytes.now)) }
    ensures within { IfOk result (λ part. IsWithin (length (drop cursor.now.at bytes.now)) part) }
{
    let view = views.after(cursor.shown);
    part_at(view, &bytes[cursor.at..], scratch)
}

/// The next part of a recording; or the place of what is not of its form there.
pub(crate) fn take_part(
    bytes: &[u8],
    views: &ImageViews,
    cursor: &mut Cursor,
    scratch: &mut Scratch,
) -> Result<Result<EventSpan, usize>, AllocError>
    requires long { length bytes.now < 2 ^ 32 }
    requires within { IsAmong bytes.now cursor.old }
    ensures step { IfOk result (λ step. Steps bytes.now views.now cursor.old cursor.new step) }
    ensures takes { IfOk result (λ step. TakesNext bytes.now views.now cursor.old cursor.new step) }
    ensures advances { IfOk result (λ step. Advances bytes.now cursor.old cursor.new step) }
{
    let part = part_from(bytes, views, cursor, scratch)?;
    match part {
        Ok(part) => Ok(Ok(pass(cursor, part))),
        Err(place) => Ok(Err(cursor.at + place)),
    }
}

/// The next piece of a recording with these views, and goes on after it; or the place of what is not of its
/// form there: an event's line, the image after that of a draw, or what stands after that of the end. The
/// cursor stands among the bytes, at first after the first two lines. An error means out of memory.
pub fn take_piece(
    bytes: &[u8],
    views: &ImageViews,
    cursor: &mut Cursor,
    scratch: &mut Scratch,
) -> Result<Result<EventSpan, usize>, AllocError>
    requires long { length bytes.now < 2 ^ 32 }
    requires within { IsAmong bytes.now cursor.old }
    ensures takes { IfOk result (λ step. TakesNext bytes.now views.now cursor.old cursor.new step) }
    ensures advances { IfOk result (λ step. Advances bytes.now cursor.old cursor.new step) }
{
    take_part(bytes, views, cursor, scratch)
}
