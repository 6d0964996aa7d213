//! The images of a recording, written one after another.

ghost use Rattle.std.specs.Prelude.{◌≡◌, ◌≤◌, length, flat_map, Ok, IfErr};
ghost use Rattle.byte_io.specs.Logs.{since};
ghost use Rattle.byte_io.specs.Pieces.{PutsAll, WriteCause};
ghost use Rattle.recording_text.specs.Spans.{AreWithin, IsWithinBytes, span_bytes};
ghost use Rattle.player_uses.specs.Answers.{TellsMisfit, AnswersImages, MayAnswer};
ghost use Rattle.player_uses.specs.Outputs.{DeliversImages};
ghost use Rattle.player_uses.specs.Refusals.{ExplainsImages};
ghost use Rattle.player_uses.specs.Reading.{Reads, ReadToEnd};
ghost use Rattle.player_uses.specs.Faults.{Causes, StopsAtFault, RefusedBy, RefusedAtFault};
ghost use Rattle.player_uses.specs.inner.Recordings.{RecordingFrom, WritesImages, images_of};

use crate::Use;
use crate::input::{RECORDING_LIMIT, read_all};
use crate::outcome::Outcome;
use byte_io::{PutFault, Sink, Source};
use recording_check::{RecordingFault, read_images};
use recording_text::ImageSpan;
use std::alloc::Global;

// The bytes of a recording, and where its images stand in them.
#[derive(Drop)]
struct Images {
    bytes: Vec<u8>,
    spans: Vec<ImageSpan>,
}

// The bytes of an image.
fn image_in(bytes: &[u8], span: ImageSpan) -> &[u8]
    requires { IsWithinBytes (length bytes.now) span }
    ensures { result.now ≡ span_bytes bytes.now span }
{
    let rest = &bytes[span.at as usize..];
    &rest[..span.size as usize]
}

// Puts one image.
#[tactic(auto, using(byte_io::proofs::Puts::piece_cause))]
fn put_image<K: Sink>(out: &mut K, bytes: &[u8], span: ImageSpan) -> Result<(), PutFault>
    requires { IsWithinBytes (length bytes.now) span }
    ensures bytes { PutsAll (K.held out.old) (K.held out.new) (span_bytes bytes.now span) result }
    ensures grows { K.faults out.old ≤ K.faults out.new }
    ensures cause { WriteCause (K.faults out.old) (K.faults out.new) result }
{
    out.put(image_in(bytes, span))
}

// Puts images one after another, each as it stands in the recording.
fn put_images<K: Sink>(out: &mut K, bytes: &[u8], spans: &[ImageSpan]) -> Result<(), PutFault>
    requires { AreWithin (length bytes.now) spans.now }
    ensures bytes { PutsAll (K.held out.old) (K.held out.new) (flat_map (span_bytes bytes.now) spans.now) result }
    ensures grows { K.faults out.old ≤ K.faults out.new }
    ensures cause { WriteCause (K.faults out.old) (K.faults out.new) result }
{
    let mut rest = spans;
    while let Some((span, after)) = rest.split_first() {
        if let Err(stop) = put_image(out, bytes, *span) {
            return Err(stop);
        }
        rest = after;
    }
    Ok(())
}

// Reads the source to its end, and finds the images in it.
#[tactic(auto, using(crate::proofs::StoppedReads::no_images, crate::proofs::StoppedReads::answers_images))]
fn find_images<S: Source>(alloc: Global, source: &mut S) -> Result<Images, Outcome>
    ensures images { RecordingFrom (since (S.given source.old) (S.given source.new)) (S.has_ended source.new) result }
    ensures reads { Reads Use.Frames (S.given source.old) (S.given source.new) }
    ensures grows { S.faults source.old ≤ S.faults source.new }
    ensures cause { RefusedBy (S.faults source.old) (S.faults source.new) result }
    ensures answers { IfErr result AnswersImages }
    ensures stops { RefusedAtFault (S.faults source.old) (S.faults source.new) (S.has_failed source.new) result }
{
    let bytes = read_all(alloc, source, RECORDING_LIMIT)?;
    match read_images(alloc, bytes.as_slice()) {
        Ok(spans) => Ok(Images { bytes, spans }),
        Err(RecordingFault::Bad { place }) => Err(Outcome::BadRecording { place }),
        Err(RecordingFault::Memory(_)) => Err(Outcome::Memory),
    }
}

// Writes the images of a recording.
fn write_images<K: Sink>(out: &mut K, images: &Images) -> Outcome
    requires { AreWithin (length images.now.bytes.items) images.now.spans.items }
    ensures images { WritesImages (K.held out.old) (K.held out.new) (images_of images.now) result }
    ensures grows { K.faults out.old ≤ K.faults out.new }
    ensures cause { Causes 0 0 (K.faults out.old) (K.faults out.new) result }
{
    match put_images(out, images.bytes.as_slice(), images.spans.as_slice()) {
        Ok(()) => Outcome::Done,
        Err(fault) => Outcome::from(fault),
    }
}

/// Writes the images of the source's recording, in order. All bytes are read and judged before the first
/// image is written.
#[tactic(auto, using(crate::proofs::ImagesWritten::images_output, crate::proofs::ImagesWritten::images_cause, crate::proofs::ImagesWritten::images_words, crate::proofs::Answered::images_answers, crate::proofs::Answered::images_stops))]
pub fn run_frames<S: Source, K: Sink>(alloc: Global, source: &mut S, out: &mut K) -> Outcome
    ensures words { TellsMisfit (Ok Use.Frames) result }
    ensures input { ExplainsImages (since (S.given source.old) (S.given source.new)) result }
    ensures reads { Reads Use.Frames (S.given source.old) (S.given source.new) }
    ensures end { ReadToEnd Use.Frames (S.has_ended source.new) result }
    ensures output { DeliversImages (since (S.given source.old) (S.given source.new)) (K.held out.old) (K.held out.new) result }
    ensures cause { Causes (S.faults source.old) (S.faults source.new) (K.faults out.old) (K.faults out.new) result }
    ensures answers { MayAnswer Use.Frames result }
    ensures stops { StopsAtFault (S.faults source.old) (S.faults source.new) (S.has_failed source.new) result }
{
    match find_images(alloc, source) {
        Ok(images) => write_images(out, &images),
        Err(outcome) => outcome,
    }
}
