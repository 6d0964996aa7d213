//! Whether a piece of a recording is right after what stands before it.

ghost use Rattle.std.specs.Prelude.{◌≡◌, ℕ, List, IfOk, option_copied};
ghost use Rattle.impl_log.specs.Runs.{past};
ghost use Rattle.recording_text.specs.Pieces as pieces;
ghost use Rattle.recording_text.specs.Taking.{IsImageAt};
ghost use Rattle.recording_check.specs.inner.Rightness.{Arrives, CanHave, IsPieceIn, Judged, TellsDrawn, TellsImage, missing_in};

use crate::is_painted;
use geom::TileKey;
use model_history::{Entry, Event};
use recording_judge::Judge;
use recording_text::{EventSpan, ImageSpan, entry_of};
use std::alloc::{AllocError, Global};

// The keys that a draw lists as missing; None if the event is no draw.
fn missing_of(event: &Event) -> Option<&[TileKey]>
    ensures { option_copied result ≡ missing_in event.now }
{
    match event {
        Event::Draw { missing, .. } => Some(missing.as_slice()),
        _ => None,
    }
}

// Whether an image is that of what is shown now, with these tiles missing. An error means out of memory.
fn is_drawn(
    alloc: Global,
    judge: &Judge,
    missing: &[TileKey],
    image: &[u8],
) -> Result<bool, AllocError>
    ensures { IfOk result (TellsDrawn judge.now.script (past judge.now) missing.now image.now) }
{
    let shown = match judge.shown() {
        Ok(shown) => shown,
        Err(refused) => return Err(refused),
    };
    match shown {
        Some(shown) => is_painted(
            alloc,
            shown.page,
            shown.offsets,
            missing,
            shown.background,
            image,
        ),
        None => Ok(false),
    }
}

// Whether the bytes after the line of an event are what a recording has there. An error means out of memory.
fn is_image(alloc: Global, judge: &Judge, event: &Event, image: &[u8]) -> Result<bool, AllocError>
    requires { CanHave event.now image.now }
    ensures { IfOk result (TellsImage judge.now.script (past judge.now) event.now image.now) }
{
    match missing_of(event) {
        Some(missing) => is_drawn(alloc, judge, missing, image),
        None => Ok(true),
    }
}

// Enters an entry if it may come next, and the bytes after its line are what a recording has there. An
// error means out of memory.
fn enter_right(
    alloc: Global,
    judge: &mut Judge,
    entry: &Entry,
    image: &[u8],
) -> Result<bool, AllocError>
    requires own { entry.now ≡ pieces.entry_of entry.now.event }
    requires can { CanHave entry.now.event image.now }
    ensures { IfOk result (Judged judge.old (record { event = entry.now.event; image = image.now }) judge.new) }
{
    let is_right = is_image(alloc, judge, &entry.event, image)?;
    if is_right {
        judge.enter(entry)
    } else {
        Ok(false)
    }
}

// The bytes of an image; none if there is no image.
fn image_in(bytes: &[u8], image: Option<ImageSpan>) -> &[u8]
    requires { Arrives bytes.now image }
    ensures { (there : List ℕ) → IsImageAt bytes.now image there → result.now ≡ there }
{
    match image {
        Some(span) => {
            let rest = &bytes[span.at as usize..];
            &rest[..span.size as usize]
        }
        None => &[],
    }
}

/// Enters the event of a step if its piece is right: it may come next, and its image is the painting of what
/// is shown then. An error means out of memory.
pub(crate) fn enter_step(
    alloc: Global,
    judge: &mut Judge,
    bytes: &[u8],
    step: EventSpan,
) -> Result<bool, AllocError>
    requires { IsPieceIn bytes.now step }
    ensures { IfOk result (λ yes. (image : List ℕ) → IsImageAt bytes.now step.image image → Judged judge.old (record { event = step.event; image = image }) judge.new yes) }
{
    let image = image_in(bytes, step.image);
    let entry = entry_of(step.event);
    enter_right(alloc, judge, &entry, image)
}
