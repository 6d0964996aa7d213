//! Judging a recording without the core and what draws that made it.

ghost use Rattle.std.specs.Prelude.{◌≡◌, ◌<◌, ◌≤◌, ◌^◌, [], length, IfOk};
ghost use Rattle.recording_text.specs.Pieces as pieces;
ghost use Rattle.recording_text.specs.Views.{views_of};
ghost use Rattle.recording_check.specs.Verdicts.{Judges};
ghost use Rattle.recording_check.specs.inner.Judgements.{JudgesNext, JudgesParts, verdict_where};
ghost use Rattle.recording_check.specs.inner.Rightness.{IsPieceIn};

use crate::fault::RecordingFault;
use crate::opening::{Opening, read_opening};
use crate::right::enter_step;
use crate::verdict::Verdict;
use model_history::{Event, Script};
use recording_judge::Judge;
use recording_text::{Cursor, EventSpan, ImageViews, Scratch, take_piece};
use std::alloc::{AllocError, Global};
use std::sync::Arc;

// Whether an event is the end.
fn is_end(event: &Event) -> bool
    ensures { result ≡ pieces.is_end event.now }
{
    matches!(event, Event::End)
}

// What is said if this piece is the first that is wrong, or none is.
fn verdict_of(wrong: Option<u64>) -> Verdict
    ensures { result ≡ verdict_where wrong }
{
    match wrong {
        Some(event) => Verdict::No { event },
        None => Verdict::Good,
    }
}

// Judges one piece more, if all before it are right; answers the first that is wrong. An error means out
// of memory.
fn judge_next(
    alloc: Global,
    judge: &mut Judge,
    bytes: &[u8],
    wrong: Option<u64>,
    index: u64,
    step: EventSpan,
) -> Result<Option<u64>, AllocError>
    requires { IsPieceIn bytes.now step }
    ensures { IfOk result (JudgesNext bytes.now judge.old wrong index step judge.new) }
{
    if wrong.is_some() {
        return Ok(wrong);
    }
    let is_right = enter_step(alloc, judge, bytes, step)?;
    if is_right { Ok(None) } else { Ok(Some(index)) }
}

// Judges the pieces after the first two lines, by a judge that has entered nothing yet; or tells where a part
// begins that is not of its form. An error means out of memory.
fn judge_parts(
    alloc: Global,
    judge: &mut Judge,
    bytes: &[u8],
    views: &ImageViews,
    start: usize,
) -> Result<Result<Verdict, usize>, AllocError>
    requires long { length bytes.now < 2 ^ 32 }
    requires within { start ≤ length bytes.now }
    requires new { judge.old.entries ≡ [] }
    ensures { IfOk result (JudgesParts bytes.now judge.old.script judge.old.workers views.now start) }
{
    let mut scratch = Scratch::new(alloc);
    let mut cursor = Cursor::at(start);
    let mut wrong = None;
    'parts: loop {
        let index = cursor.index;
        let taken = take_piece(bytes, views, &mut cursor, &mut scratch)?;
        let step = match taken {
            Ok(step) => step,
            Err(place) => return Ok(Err(place)),
        };
        let last = is_end(&step.event);
        wrong = judge_next(alloc, judge, bytes, wrong, index, step)?;
        if last {
            return Ok(Ok(verdict_of(wrong)));
        }
    }
}

// Judges the pieces after the first two lines of a script's recording. An error means out of memory.
fn judge_script(
    alloc: Global,
    script: Script,
    bytes: &[u8],
    start: usize,
) -> Result<Result<Verdict, usize>, AllocError>
    requires long { length bytes.now < 2 ^ 32 }
    requires within { start ≤ length bytes.now }
    ensures { IfOk result (JudgesParts bytes.now script 16 (views_of script) start) }
{
    let views = ImageViews::new(alloc, &script)?;
    let script = Arc::new(alloc, script).map_err(AllocError::from)?;
    let mut judge = Judge::new(alloc, script, 16)?;
    judge_parts(alloc, &mut judge, bytes, &views, start)
}

/// Judges a recording without the core and what draws: by the definitions of legal histories, for 16 workers,
/// and of the painting. `Good` comes exactly if the bytes are the recording of a script and of a history
/// that is legal for it and that the end closes. Bytes of a recording's form are else told by the first event
/// that may not come, or whose image is not the painting, and other bytes as
/// [`read_recording`](crate::read_recording) tells them. No event is kept but in the judge's history.
pub fn check(alloc: Global, bytes: &[u8]) -> Result<Verdict, RecordingFault>
    requires { length bytes.now < 2 ^ 32 }
    ensures { Judges bytes.now result }
{
    let opening = match read_opening(alloc, bytes) {
        Ok(opening) => opening,
        Err(fault) => return Err(fault),
    };
    let Opening { script, end } = opening;
    match judge_script(alloc, script, bytes, end) {
        Ok(Ok(verdict)) => Ok(verdict),
        Ok(Err(place)) => Err(RecordingFault::Bad {
            place: place as u64,
        }),
        Err(refused) => Err(RecordingFault::Memory(refused)),
    }
}
