//! The two lines that a recording begins with: the name of the format, and the script.

ghost use Rattle.std.specs.Prelude.{◌≡◌, ◌==◌, ◌<◌, ◌≤◌, ◌^◌, length, take, drop, IfSome, IfOk, IsTrue, ◌↔◌};
ghost use Rattle.std.specs.List.{position_from};
ghost use Rattle.recording_check.specs.Openings as spec;

use crate::fault::RecordingFault;
use model_history::Script;
use script_json::{TextFault, print_script, read_script};
use std::alloc::{AllocError, Global};

/// What the two lines say.
#[derive(Drop)]
pub struct Opening {
    /// The script.
    pub script: Script,
    /// The offset after the two lines.
    pub end: usize,
}

// Where the first newline stands.
fn newline_in(bytes: &[u8]) -> Option<usize>
    ensures place { result ≡ position_from spec.is_newline 0 bytes.now }
    ensures within { IfSome result (λ place. place < length bytes.now) }
{
    bytes.iter().position(|byte| *byte == b'\n')
}

// The bytes before a place.
fn front(bytes: &[u8], end: usize) -> &[u8]
    requires { end ≤ length bytes.now }
    ensures { result.now ≡ take end bytes.now }
{
    &bytes[..end]
}

// What stands after the first bytes.
fn behind(bytes: &[u8], count: usize) -> &[u8]
    requires { count ≤ length bytes.now }
    ensures { result.now ≡ drop count bytes.now }
{
    &bytes[count..]
}

// The first line, without its newline; None if there is no newline.
#[tactic(auto, using(crate::proofs::LineEnds::first_line, crate::proofs::LineEnds::no_line))]
fn first_line(bytes: &[u8]) -> Option<&[u8]>
    ensures { spec.FirstLine bytes.now result }
{
    match newline_in(bytes) {
        Some(end) => Some(front(bytes, end)),
        None => None,
    }
}

// Whether two texts are the same.
fn is_same(a: &[u8], b: &[u8]) -> bool
    ensures { IsTrue result ↔ (a.now ≡ b.now) }
{
    a == b
}

// The script whose line this is.
#[tactic(auto, using(crate::proofs::ScriptLines::is_line, crate::proofs::ScriptLines::other_line, crate::proofs::ScriptLines::no_script))]
fn script_of(alloc: Global, line: &[u8]) -> Result<Option<Script>, AllocError>
    ensures { IfOk result (λ script. spec.ScriptOf line.now script) }
{
    let script = match read_script(alloc, line) {
        Ok(script) => script,
        Err(TextFault::Memory(refused)) => return Err(refused),
        Err(TextFault::Json) => return Ok(None),
        Err(TextFault::Shape(_)) => return Ok(None),
        Err(TextFault::Script { .. }) => return Ok(None),
    };
    let text = print_script(alloc, &script)?;
    if is_same(text.as_slice(), line) {
        Ok(Some(script))
    } else {
        Ok(None)
    }
}

/// The script of a recording, and where its first two lines end; or which of them is bad.
#[tactic(auto, using(crate::proofs::OpeningFacts::opening_good, crate::proofs::OpeningFacts::opening_lacks_name, crate::proofs::OpeningFacts::opening_lacks_line, crate::proofs::OpeningFacts::opening_lacks_script))]
pub fn read_opening(alloc: Global, bytes: &[u8]) -> Result<Opening, RecordingFault>
    requires { length bytes.now < 2 ^ 32 }
    ensures { spec.Opens bytes.now result }
{
    if !bytes.starts_with(b"cc1\n") {
        return Err(RecordingFault::Bad { place: 0 });
    }
    let Some(line) = first_line(behind(bytes, 4)) else {
        return Err(RecordingFault::Bad { place: 4 });
    };
    let script = match script_of(alloc, line) {
        Ok(script) => script,
        Err(refused) => return Err(RecordingFault::Memory(refused)),
    };
    match script {
        Some(script) => Ok(Opening {
            script,
            end: 5 + line.len(),
        }),
        None => Err(RecordingFault::Bad { place: 4 }),
    }
}
