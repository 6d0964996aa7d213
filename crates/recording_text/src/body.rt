//! The parts of a recording after its first two lines, one after another.

ghost use Rattle.std.specs.Prelude.{◌≡◌, ◌+◌, ◌<◌, ◌≤◌, ◌^◌, length, map, Result, OnOk, IfOk, option_to_list, ◌∷◌, ◌++◌, []};
ghost use Rattle.recording_text.specs.Pieces.{is_end as is_end_of, entry_of as entry_is};
ghost use Rattle.recording_text.specs.inner.Parts.{read_from};
ghost use Rattle.recording_text.specs.Places.{image_place_of};
ghost use Rattle.recording_text.specs.Taking.{start_at};
ghost use Rattle.recording_text.specs.Bodies.{ReadsBody, FindsImages};
ghost use Rattle.recording_text.specs.inner.Walks.{WalksBody, WalksSpans};

use crate::Scratch;
use crate::cursor::{Cursor, EventSpan, ImageSpan, take_part};
use crate::part::entry_of;
use crate::place::ImagePlace;
use crate::views::ImageViews;
use model_history::{Event, History};
use std::alloc::{AllocError, Global};

/// What is read after the first two lines.
#[derive(Drop)]
pub struct Body {
    /// The events with their actors.
    pub events: History,
    /// Where the image of each draw stands.
    pub images: Vec<ImagePlace>,
}

// Whether an event is the end.
fn is_end(event: &Event) -> bool
    ensures { result ≡ is_end_of event.now }
{
    matches!(event, Event::End)
}

// Adds the place of an image, if there is one.
fn push_place(images: &mut Vec<ImagePlace>, image: Option<ImageSpan>) -> Result<(), AllocError>
    ensures { OnOk result (images.new.items ≡ images.old.items ++ map image_place_of (option_to_list image)) }
{
    if let Some(span) = image {
        images.push(ImagePlace {
            event: span.event,
            at: span.at,
        })?;
    }
    Ok(())
}

// Adds where an image stands, if there is one.
fn push_span(images: &mut Vec<ImageSpan>, image: Option<ImageSpan>) -> Result<(), AllocError>
    ensures { OnOk result (images.new.items ≡ images.old.items ++ option_to_list image) }
{
    if let Some(span) = image {
        images.push(span)?;
    }
    Ok(())
}

// Adds where the image of a step stands, if it has one. Answers whether the step is the end.
fn keep_image(images: &mut Vec<ImageSpan>, step: EventSpan) -> Result<bool, AllocError>
    ensures image { OnOk result (images.new.items ≡ images.old.items ++ option_to_list step.image) }
    ensures last { IfOk result (λ last. last ≡ is_end_of step.event) }
{
    push_span(images, step.image)?;
    Ok(is_end(&step.event))
}

// Adds the entry of an event.
fn push_entry(events: &mut History, event: Event) -> Result<(), AllocError>
    ensures { OnOk result (events.new.entries ≡ events.old.entries ++ entry_is event ∷ []) }
{
    match events.push(entry_of(event)) {
        Ok(()) => Ok(()),
        Err((refused, _)) => Err(refused),
    }
}

// Goes through the parts of a recording whose third line begins at `start`, and keeps events and places.
fn walk_body(
    alloc: Global,
    bytes: &[u8],
    views: &ImageViews,
    start: usize,
) -> Result<Result<Body, usize>, AllocError>
    requires long { length bytes.now < 2 ^ 32 }
    requires within { start ≤ length bytes.now }
    ensures { IfOk result (λ body. WalksBody (read_from bytes.now views.now (start_at start)) body) }
{
    let mut scratch = Scratch::new(alloc);
    let mut cursor = Cursor::at(start);
    let mut events = History::new(alloc);
    let mut images = Vec::new(alloc);
    'parts: loop {
        let taken = take_part(bytes, views, &mut cursor, &mut scratch)?;
        let step = match taken {
            Ok(step) => step,
            Err(place) => return Ok(Err(place)),
        };
        let last = is_end(&step.event);
        push_place(&mut images, step.image)?;
        push_entry(&mut events, step.event)?;
        if last {
            return Ok(Ok(Body { events, images }));
        }
    }
}

// Goes through the parts of a recording whose third line begins at `start`, and keeps where images stand.
fn walk_spans(
    alloc: Global,
    bytes: &[u8],
    views: &ImageViews,
    start: usize,
) -> Result<Result<Vec<ImageSpan>, usize>, AllocError>
    requires long { length bytes.now < 2 ^ 32 }
    requires within { start ≤ length bytes.now }
    ensures { IfOk result (λ spans. WalksSpans (λ v. v.items) (read_from bytes.now views.now (start_at start)) spans) }
{
    let mut scratch = Scratch::new(alloc);
    let mut cursor = Cursor::at(start);
    let mut images = Vec::new(alloc);
    'parts: loop {
        let taken = take_part(bytes, views, &mut cursor, &mut scratch)?;
        let step = match taken {
            Ok(step) => step,
            Err(place) => return Ok(Err(place)),
        };
        if keep_image(&mut images, step)? {
            return Ok(Ok(images));
        }
    }
}

/// The events and the places of the images of a recording with these views, whose third line begins at
/// `start`; or the offset at which the first part begins that is not of its form: an event's line, the
/// image after that of a draw, or what stands after that of the end.
#[tactic(auto, using(crate::proofs::BodyReads::body_reads, crate::proofs::BodyReads::body_stops))]
pub fn read_body(
    alloc: Global,
    bytes: &[u8],
    views: &ImageViews,
    start: usize,
) -> Result<Result<Body, usize>, AllocError>
    requires long { length bytes.now < 2 ^ 32 }
    requires within { start ≤ length bytes.now }
    ensures { IfOk result (λ body. ReadsBody bytes.now views.now start body) }
{
    walk_body(alloc, bytes, views, start)
}

/// Where the images of such a recording stand; or the offset of its first bad part, as in
/// [`read_body`]. No event is kept.
#[tactic(auto, using(crate::proofs::BodyReads::spans_read, crate::proofs::BodyReads::body_stops))]
pub fn find_images(
    alloc: Global,
    bytes: &[u8],
    views: &ImageViews,
    start: usize,
) -> Result<Result<Vec<ImageSpan>, usize>, AllocError>
    requires long { length bytes.now < 2 ^ 32 }
    requires within { start ≤ length bytes.now }
    ensures { IfOk result (λ spans. FindsImages (λ v. v.items) bytes.now views.now start spans) }
{
    walk_spans(alloc, bytes, views, start)
}
