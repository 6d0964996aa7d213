//! Recordings, read.

ghost use Rattle.std.specs.Prelude.{◌<◌, ◌^◌, length};
ghost use Rattle.recording_check.specs.Answers.{ReadsRecording, ReadsImages};

use crate::fault::RecordingFault;
use crate::opening::read_opening;
use model_history::{History, Script};
use recording_text::{ImagePlace, ImageSpan, ImageViews, find_images, read_body};
use std::alloc::Global;

/// What stands in a recording.
#[derive(Drop)]
pub struct Recording {
    /// The script of its second line.
    pub script: Script,
    /// The events with their actors: 0, 1, or the worker's number and 2, if that fits 32 bits, else
    /// the greatest number of 32 bits.
    pub events: History,
    /// Where the image of each draw stands.
    pub images: Vec<ImagePlace>,
}

/// Reads a recording: the script, the events and where the images stand. `Bad` comes exactly if the
/// bytes are none, with the offset at which the first part begins that is not of its form: the name of
/// the format at 0, the script's line at 4, an event's line, the image after a draw, or what stands
/// after the end.
#[tactic(auto, using(crate::proofs::Wholes::recording_read, crate::proofs::Wholes::bad_read, crate::proofs::Wholes::bad_opening))]
pub fn read_recording(alloc: Global, bytes: &[u8]) -> Result<Recording, RecordingFault>
    requires { length bytes.now < 2 ^ 32 }
    ensures { ReadsRecording bytes.now result }
{
    let opening = match read_opening(alloc, bytes) {
        Ok(opening) => opening,
        Err(fault) => return Err(fault),
    };
    let views = match ImageViews::new(alloc, &opening.script) {
        Ok(views) => views,
        Err(refused) => return Err(RecordingFault::Memory(refused)),
    };
    let body = match read_body(alloc, bytes, &views, opening.end) {
        Ok(body) => body,
        Err(refused) => return Err(RecordingFault::Memory(refused)),
    };
    match body {
        Ok(body) => Ok(Recording {
            script: opening.script,
            events: body.events,
            images: body.images,
        }),
        Err(place) => Err(RecordingFault::Bad {
            place: place as u64,
        }),
    }
}

/// Where the images of a recording stand; no event is kept. `Bad` comes as in [`read_recording`].
#[tactic(auto, using(crate::proofs::Wholes::images_read, crate::proofs::Wholes::bad_read, crate::proofs::Wholes::bad_opening))]
pub fn read_images(alloc: Global, bytes: &[u8]) -> Result<Vec<ImageSpan>, RecordingFault>
    requires { length bytes.now < 2 ^ 32 }
    ensures { ReadsImages (λ v. v.items) bytes.now result }
{
    let opening = match read_opening(alloc, bytes) {
        Ok(opening) => opening,
        Err(fault) => return Err(fault),
    };
    let views = match ImageViews::new(alloc, &opening.script) {
        Ok(views) => views,
        Err(refused) => return Err(RecordingFault::Memory(refused)),
    };
    let images = match find_images(alloc, bytes, &views, opening.end) {
        Ok(images) => images,
        Err(refused) => return Err(RecordingFault::Memory(refused)),
    };
    match images {
        Ok(images) => Ok(images),
        Err(place) => Err(RecordingFault::Bad {
            place: place as u64,
        }),
    }
}
